//! Imports, which bring names into a scope: named imports, glob imports and `extern crate`s.
ghost use Rattle.std.specs.Prelude.{◌≡◌, refl};
ghost use Rattle.std.specs.Cmp.Rules.{comparing};
ghost use Rattle.std.specs.Ordering.{as_partial_cmp};
ghost use Rattle.std.proofs.Common.{rules};
ghost use Rattle.dm_base.specs.Imports.{narrowed, widened, named_import, glob_of, use_of, target_of, import_cmp, import_cmp_total, glob_cmp, glob_cmp_total};

use crate::ids::{ExternCrateId, UseId, UseTreeIdx};
use crate::item_ids::ModuleDefId;
use std::cmp::Ordering;

/// A named import: a leaf of a `use` tree.
#[derive(Clone, Copy, PartialEq, Eq, Hash, Debug)]
pub struct ImportId {
    pub use_: UseId,
    pub idx: UseTreeIdx,
}

impl PartialOrd for ImportId {
    ghost partial_cmp = { as_partial_cmp import_cmp };

    ghost laws = { Prim.search (comparing, rules) };

    fn partial_cmp(&self, other: &ImportId) -> Option<Ordering> {
        Some(self.cmp(other))
    }
}

/// By `use` item, then by index in it.
impl Ord for ImportId {
    ghost cmp = { import_cmp };

    ghost total = { import_cmp_total };

    ghost matches_partial_cmp = { λ _ _. refl };

    ghost matches_eq = { Prim.search (comparing, rules) };

    fn cmp(&self, other: &ImportId) -> Ordering {
        self.use_.cmp(&other.use_).then(self.idx.cmp(&other.idx))
    }
}

/// A glob import: a `*` of a `use` tree. Explicit names shadow the names that it brings.
#[derive(Clone, Copy, PartialEq, Eq, Hash, Debug)]
pub struct GlobId {
    pub use_: UseId,
    pub idx: UseTreeIdx,
}

impl PartialOrd for GlobId {
    ghost partial_cmp = { as_partial_cmp glob_cmp };

    ghost laws = { Prim.search (comparing, rules) };

    fn partial_cmp(&self, other: &GlobId) -> Option<Ordering> {
        Some(self.cmp(other))
    }
}

/// By `use` item, then by index in it.
impl Ord for GlobId {
    ghost cmp = { glob_cmp };

    ghost total = { glob_cmp_total };

    ghost matches_partial_cmp = { λ _ _. refl };

    ghost matches_eq = { Prim.search (comparing, rules) };

    fn cmp(&self, other: &GlobId) -> Ordering {
        self.use_.cmp(&other.use_).then(self.idx.cmp(&other.idx))
    }
}

/// The import of a type or a macro.
#[derive(Clone, Copy, PartialEq, Eq, Hash, Debug)]
pub enum ImportOrExternCrate {
    Glob(GlobId),
    Import(ImportId),
    ExternCrate(ExternCrateId),
}

impl ImportOrExternCrate {
    /// The import, if it can bring a value: no value comes from an extern crate.
    pub fn import_or_glob(self) -> Option<ImportOrGlob>
        ensures { result ≡ narrowed self }
    {
        match self {
            ImportOrExternCrate::Import(id) => Some(ImportOrGlob::Import(id)),
            ImportOrExternCrate::Glob(id) => Some(ImportOrGlob::Glob(id)),
            ImportOrExternCrate::ExternCrate(_) => None,
        }
    }

    /// The named import, if it is one.
    pub fn import(self) -> Option<ImportId>
        ensures { result ≡ named_import self }
    {
        match self {
            ImportOrExternCrate::Import(id) => Some(id),
            ImportOrExternCrate::Glob(_) | ImportOrExternCrate::ExternCrate(_) => None,
        }
    }

    /// The glob import, if it is one.
    pub fn glob(self) -> Option<GlobId>
        ensures { result ≡ glob_of self }
    {
        match self {
            ImportOrExternCrate::Glob(id) => Some(id),
            ImportOrExternCrate::Import(_) | ImportOrExternCrate::ExternCrate(_) => None,
        }
    }

    /// The `use` item that the import is a leaf of; an extern crate has none.
    pub fn use_(self) -> Option<UseId>
        ensures { result ≡ use_of self }
    {
        match self {
            ImportOrExternCrate::Glob(id) => Some(id.use_),
            ImportOrExternCrate::Import(id) => Some(id.use_),
            ImportOrExternCrate::ExternCrate(_) => None,
        }
    }
}

/// The import of a value, which is never an `extern crate`.
#[derive(Clone, Copy, PartialEq, Eq, Hash, Debug)]
pub enum ImportOrGlob {
    Glob(GlobId),
    Import(ImportId),
}

impl ImportOrGlob {
    /// The named import, if it is one.
    pub fn into_import(self) -> Option<ImportId>
        ensures { result ≡ named_import (widened self) }
    {
        match self {
            ImportOrGlob::Import(id) => Some(id),
            ImportOrGlob::Glob(_) => None,
        }
    }
}

impl From<ImportOrGlob> for ImportOrExternCrate {
    ghost from_gives = { λ import result. result ≡ widened import };

    fn from(import: ImportOrGlob) -> ImportOrExternCrate {
        match import {
            ImportOrGlob::Glob(id) => ImportOrExternCrate::Glob(id),
            ImportOrGlob::Import(id) => ImportOrExternCrate::Import(id),
        }
    }
}

/// What an import resolves to: a further import (of a re-export), or a definition.
#[derive(Clone, Copy, PartialEq, Eq, Hash, Debug)]
pub enum ImportOrDef {
    Import(ImportId),
    Glob(GlobId),
    ExternCrate(ExternCrateId),
    Def(ModuleDefId),
}

impl From<ImportOrExternCrate> for ImportOrDef {
    ghost from_gives = { λ import result. result ≡ target_of import };

    fn from(import: ImportOrExternCrate) -> ImportOrDef {
        match import {
            ImportOrExternCrate::Glob(id) => ImportOrDef::Glob(id),
            ImportOrExternCrate::Import(id) => ImportOrDef::Import(id),
            ImportOrExternCrate::ExternCrate(id) => ImportOrDef::ExternCrate(id),
        }
    }
}

impl From<ImportOrGlob> for ImportOrDef {
    ghost from_gives = { λ import result. result ≡ target_of (widened import) };

    fn from(import: ImportOrGlob) -> ImportOrDef {
        match import {
            ImportOrGlob::Glob(id) => ImportOrDef::Glob(id),
            ImportOrGlob::Import(id) => ImportOrDef::Import(id),
        }
    }
}
