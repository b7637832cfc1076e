//! `Leaf`: an import or a glob of the crate whose names are searched, with its names by their numbers.

use crate::meaning::Source;
use dm_base::ids::ModuleId;
use dm_base::item_ids::MacroId;
use dm_base::mod_path::PathKind;
use dm_base::per_ns::Namespace;
use dm_base::visibility::Visibility;

/// A path, and the textual macro of its name where it stands.
pub(crate) struct Path {
    pub(crate) kind: PathKind,
    pub(crate) segments: Vec<usize>,
    pub(crate) textual: Option<MacroId>,
}

/// Hand-written `Drop`, to keep proofs small: dropping one is then a single call.
impl Drop for Path {
    fn drop(self) {
        let Path {
            kind: _kind,
            segments: _segments,
            textual: _textual,
        } = self;
    }
}

/// What a leaf binds in its module.
#[derive(Clone, Copy)]
pub(crate) enum Binds {
    /// A name in all namespaces.
    All(usize),
    /// A name as a type alone.
    Type(usize),
    /// No name, since it is an import as `_`.
    Nothing,
    /// What its source has, since it is a glob.
    Names,
}

/// An import or a glob.
pub(crate) struct Leaf {
    /// Its place among all imports or all globs.
    pub(crate) place: usize,
    /// The module that it stands in.
    pub(crate) home: ModuleId,
    pub(crate) binds: Binds,
    pub(crate) path: Path,
    /// Who may see what it brings, at most.
    pub(crate) vis: Visibility,
    pub(crate) source: Source,
}

/// Hand-written `Drop`, to keep proofs small: dropping one is then a single call.
impl Drop for Leaf {
    fn drop(self) {
        let Leaf {
            place: _place,
            home: _home,
            binds: _binds,
            path: _path,
            vis: _vis,
            source: _source,
        } = self;
    }
}

/// The name that a leaf binds in a namespace, if it is an import that may.
pub(crate) fn name_in(binds: Binds, namespace: Namespace) -> Option<usize> {
    match (binds, namespace) {
        (Binds::All(name), _) => Some(name),
        (Binds::Type(name), Namespace::Types) => Some(name),
        _ => None,
    }
}
