//! What is told of globs that lead nowhere.
ghost use Rattle.std.specs.Prelude.{◌≡◌};
ghost use Rattle.def_diagnostics.specs.UnresolvedGlobs as spec;
ghost use Rattle.dm_imports.specs.Tables.{of_tables};

use crate::diagnostic::{Diagnostic, DiagnosticKind};
use crate::unresolved_imports::told_of;
use crate_tables::item_place::UsePlace;
use dm_base::item_ids::{AdtId, ModuleDefId};
use dm_base::per_ns::Namespace;
use dm_imports::def_maps::DefMaps;
use dm_imports::glob_import::GlobImport;

/// Whether a definition has names that a glob brings.
fn is_source(def: ModuleDefId) -> bool
    ensures { result ≡ spec.is_source def }
{
    match def {
        ModuleDefId::ModuleId(_) => true,
        ModuleDefId::AdtId(AdtId::EnumId(_)) => true,
        _ => false,
    }
}

/// Whether the path of a glob means neither a module nor an enum, by the rules of imports. Does not allocate.
pub fn leads_nowhere(maps: &DefMaps<'_>, glob: &GlobImport) -> bool
    ensures { result ≡ spec.leads_nowhere (of_tables maps.now) glob.now }
{
    match maps.meaning_in(glob.into, None, &glob.path, Namespace::Types) {
        None => true,
        Some(meaning) => !is_source(meaning.def),
    }
}

/// What is told of a glob, if its path means neither a module nor an enum and it is written in one of some uses: at its use
/// tree. Does not allocate.
pub fn unresolved_glob(
    maps: &DefMaps<'_>,
    uses: &[UsePlace],
    glob: &GlobImport,
) -> Option<Diagnostic>
    ensures { result ≡ spec.unresolved_glob (of_tables maps.now) uses.now glob.now }
{
    if leads_nowhere(maps, glob) {
        told_of(
            DiagnosticKind::UnresolvedImport,
            uses,
            glob.import.use_,
            glob.import.idx,
        )
    } else {
        None
    }
}
