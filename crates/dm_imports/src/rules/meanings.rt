//! What each import means, in each namespace.
ghost use Rattle.std.specs.Prelude.{◌≡◌, ◌++◌, All, IfOk, OnOk, map};
ghost use Rattle.dm_base.specs.Tree.{IsKnown};
ghost use Rattle.dm_base.specs.Visibility.{NamesKnown};
ghost use Rattle.dm_maps.specs.Trees.{tree_of};
ghost use Rattle.dm_imports.specs.Brought.{AreAllNamed, IsBrought};
ghost use Rattle.dm_imports.specs.Paths.{AreVariantsNamed};
ghost use Rattle.dm_imports.specs.Rules.{AreImportsKnown, AreMapsKnown, IsImportKnown};
ghost use Rattle.dm_imports.specs.Asked as spec;
ghost use Rattle.dm_imports.specs.Tables.{of_tables};

use crate::def_maps::DefMaps;
use crate::joined::Joined;
use crate::meaning::Meaning;
use crate::named_import::NamedImport;
use crate::rules::all_imports::{ByName, all_imports, import_brings};
use crate::rules::all_offers::all_offers;
use crate::rules::listing::list;
use crate::slots::Slots;
use dm_base::per_ns::Namespace;
use std::alloc::{AllocError, Global};

/// What an import brings in each namespace.
#[derive(Clone, Copy, PartialEq, Eq, Debug)]
pub struct ImportMeanings {
    pub types: Option<Meaning>,
    pub values: Option<Meaning>,
    pub macros: Option<Meaning>,
}

/// What an import brings.
pub(crate) fn meanings_of(
    maps: &DefMaps<'_>,
    below: &Slots<Joined>,
    import: &NamedImport,
) -> ImportMeanings
    requires below { IsBrought (of_tables maps.now) below.now }
    requires named { AreAllNamed maps.now.world below.now }
    requires variants { AreVariantsNamed (of_tables maps.now) }
    requires home { IsKnown (tree_of maps.now.world) import.now.home }
    requires vis { NamesKnown (tree_of maps.now.world) import.now.vis }
    ensures { result ≡ spec.meanings_of (of_tables maps.now) import.now }
{
    ImportMeanings {
        types: import_brings(maps, below, import, Namespace::Types),
        values: import_brings(maps, below, import, Namespace::Values),
        macros: import_brings(maps, below, import, Namespace::Macros),
    }
}

/// What each import brings in each namespace, in the order of the imports.
///
/// Imports and globs have to stand in modules of the world's, and so have those to be that their visibilities name:
/// `DefMaps::are_imports_known` tests it.
///
/// # Errors
///
/// Fails only where memory runs out.
pub fn import_meanings(alloc: Global, maps: &DefMaps<'_>) -> Result<Vec<ImportMeanings>, AllocError>
    requires { AreImportsKnown (of_tables maps.now) }
    ensures { IfOk result (λ all. all.items ≡ map (spec.meanings_of (of_tables maps.now)) maps.now.imports) }
{
    let listing = list(alloc, maps.world)?;
    let below = all_offers(alloc, maps, &listing)?;
    let ByName {
        slots: _slots,
        each,
    } = all_imports(alloc, maps, &below)?;
    Ok(each)
}
