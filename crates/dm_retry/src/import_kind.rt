//! `ImportKind`: what an import brings of the items that its path means.
ghost use Rattle.std.specs.Prelude.{◌≡◌};
ghost use Rattle.dm_retry.specs.Kinds.{is_unnamed};

/// What an import brings of the items that its path means, and who sees them (docs/RULES.md, "Rounds").
#[derive(Clone, Copy, PartialEq, Eq, Debug)]
pub enum ImportKind {
    /// All of them, each seen as the import says.
    Plain,
    /// The type alone, seen as the import says: `use a::{self}`.
    TypeOnly,
    /// All but those of another crate that are not public, each seen by the less permissive of its own visibility and
    /// the import's.
    ReExport,
    /// All of them, seen as the import says, and none under a name: a trait goes among the unnamed ones of the module
    /// (`use a::Trait as _`), and nothing else is bound.
    Unnamed,
}

impl ImportKind {
    /// Whether it binds no name.
    pub(crate) fn is_unnamed(self) -> bool
        ensures { result ≡ is_unnamed self }
    {
        matches!(self, ImportKind::Unnamed)
    }
}
