//! `ModPath`: a path, which is a kind and segments.
ghost use Rattle.std.specs.Prelude.{◌≡◌};
ghost use Rattle.std.specs.Cmp.{partial_equiv_from_equiv};
ghost use Rattle.dm_base.specs.Path.{same_path, same_path_equivalence};

use crate::ids::Crate;
use crate::name::Name;
use std::marker::Model;

/// Where a path begins.
#[derive(Clone, Copy, PartialEq, Eq, Hash, Debug)]
pub enum PathKind {
    Plain,
    Abs,
    Crate,
    DollarCrate(Crate),
    Super(u8),
}

impl PathKind {
    /// `self`: no step outwards.
    pub const SELF: PathKind = PathKind::Super(0);
}

/// A path, which contracts see as its kind and the list of its segments.
#[derive(Debug)]
pub struct ModPath {
    pub kind: PathKind,
    segments: Vec<Name>,
}

/// Hand-written `Drop`, to keep proofs small: dropping one is then a single call.
impl Drop for ModPath {
    fn drop(self) {
        let ModPath {
            kind: _kind,
            segments: _segments,
        } = self;
    }
}

impl Model for ModPath {
    ghost use Rattle.dm_base.specs.Path.{Path};

    ghost Value = { Path };

    ghost view = { λ p. record { kind = p.kind; segments = p.segments.items } };
}

impl ModPath {
    /// The path of these segments. Does not allocate.
    pub fn from_segments(kind: PathKind, segments: Vec<Name>) -> ModPath
        ensures { result ≡ record { kind = kind; segments = segments.items } }
    {
        ModPath { kind, segments }
    }

    /// Where the path begins.
    pub fn kind(&self) -> PathKind
        ensures { result ≡ self.now.kind }
    {
        self.kind
    }

    /// The names of the path, from the first on.
    pub fn segments(&self) -> &[Name]
        ensures { result.now ≡ self.now.segments }
    {
        self.segments.as_slice()
    }
}

impl PartialEq for ModPath {
    ghost eq = { same_path };

    ghost laws = { partial_equiv_from_equiv same_path_equivalence };

    fn eq(&self, other: &ModPath) -> bool {
        self.kind == other.kind && self.segments == other.segments
    }
}

impl Eq for ModPath {
    ghost laws = { same_path_equivalence };
}
