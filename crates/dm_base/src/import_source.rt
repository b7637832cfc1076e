//! `ImportSource`: the imports of one namespace, for code that is generic over namespaces.
ghost use Rattle.std.specs.Prelude.{◌≡◌, Option, Bool, Some, true, refl};
ghost use Rattle.std.proofs.Common.{rules};
ghost use Rattle.dm_base.specs.declared.imports.ImportOrExternCrate.{ImportOrExternCrate};
ghost use Rattle.dm_base.specs.Imports.{narrowed, widened, is_glob, is_glob_or_import, narrow_widen, widen_narrow, globs_narrow, globs_stay};

use crate::imports::{ImportOrExternCrate, ImportOrGlob};
use crate::value_eq::ValueEq;
use std::hash::Hash;

/// The imports that can bring a name into a namespace.
pub trait ImportSource: Copy + ValueEq + Hash {
    ghost narrowed: { ImportOrExternCrate → Option Self };

    ghost widened: { Self → ImportOrExternCrate };

    ghost globs: { Self → Bool };

    /// The import, if it can bring a name into this namespace.
    fn narrow(import: ImportOrExternCrate) -> Option<Self>
        ensures { result ≡ narrowed import };

    /// The same import, among those of every namespace.
    fn widen(self) -> ImportOrExternCrate
        ensures { result ≡ widened self };

    /// Whether the import is a glob, whose names any explicit name shadows.
    fn is_glob(self) -> bool
        ensures { result ≡ globs self };

    ghost narrow_widen: { (x : Self) → narrowed (widened x) ≡ Some x };

    ghost widen_narrow: { (i : ImportOrExternCrate) (x : Self) → narrowed i ≡ Some x → widened x ≡ i };

    ghost globs_narrow: { (i : ImportOrExternCrate) → is_glob i ≡ true → (x : Self) × (narrowed i ≡ Some x) };

    ghost globs_stay: { (x : Self) → globs x ≡ is_glob (widened x) };
}

impl ImportSource for ImportOrExternCrate {
    ghost narrowed = { λ i. Some i };

    ghost widened = { λ i. i };

    ghost globs = { is_glob };

    ghost narrow_widen = { λ _. refl };

    ghost widen_narrow = { Prim.search rules };

    ghost globs_narrow = { λ i _. (i, refl) };

    ghost globs_stay = { λ _. refl };

    fn narrow(import: ImportOrExternCrate) -> Option<Self> {
        Some(import)
    }

    fn widen(self) -> Self {
        self
    }

    fn is_glob(self) -> bool {
        matches!(self, ImportOrExternCrate::Glob(_))
    }
}

impl ImportSource for ImportOrGlob {
    ghost narrowed = { narrowed };

    ghost widened = { widened };

    ghost globs = { is_glob_or_import };

    ghost narrow_widen = { narrow_widen };

    ghost widen_narrow = { widen_narrow };

    ghost globs_narrow = { globs_narrow };

    ghost globs_stay = { globs_stay };

    fn narrow(import: ImportOrExternCrate) -> Option<Self> {
        import.import_or_glob()
    }

    fn widen(self) -> ImportOrExternCrate {
        ImportOrExternCrate::from(self)
    }

    fn is_glob(self) -> bool {
        matches!(self, ImportOrGlob::Glob(_))
    }
}
