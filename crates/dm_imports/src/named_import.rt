//! `NamedImport`: a leaf of a `use` that imports by a name.

use dm_base::ids::ModuleId;
use dm_base::imports::ImportId;
use dm_base::item_ids::MacroId;
use dm_base::mod_path::ModPath;
use dm_base::name::Name;
use dm_base::visibility::Visibility;

/// Which namespaces an import brings.
#[derive(Clone, Copy, PartialEq, Eq, Debug)]
pub enum ImportKind {
    /// All: `use a::b`.
    All,
    /// Types alone: `use a::{self}`.
    TypeOnly,
    /// None: `use a::T as _`, which imports a trait without a name.
    Unnamed,
}

/// An import of what a path means, under a name.
pub struct NamedImport {
    /// The module that it stands in.
    pub home: ModuleId,
    /// `_` where it is unnamed.
    pub name: Name,
    pub path: ModPath,
    /// Who may see what it brings, at most.
    pub vis: Visibility,
    pub kind: ImportKind,
    pub import: ImportId,
    /// The last textual macro (`macro_rules!`) of the path's name before the import, if the path has but one segment.
    pub textual: Option<MacroId>,
}

/// Hand-written `Drop`, to keep proofs small: dropping one is then a single call.
impl Drop for NamedImport {
    fn drop(self) {
        let NamedImport {
            home: _home,
            name: _name,
            path: _path,
            vis: _vis,
            kind: _kind,
            import: _import,
            textual: _textual,
        } = self;
    }
}
