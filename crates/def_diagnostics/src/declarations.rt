//! All that is told of the declarations of a crate.
ghost use Rattle.std.specs.Prelude.{◌≡◌, ◌++◌, IfOk, OnOk};
ghost use Rattle.def_diagnostics.specs.Declarations as spec;

use crate::diagnostic::Diagnostic;
use crate::duplicates::duplicates;
use crate::extern_crates::unresolved_extern_crates;
use crate::module_faults::unresolved_modules;
use crate::visibilities::unresolved_visibilities;
use crate_items::files::dependency::Dependency;
use crate_items::files::file_table::FileTable;
use crate_items::items::declared_item::DeclaredItem;
use crate_items::modules::CrateModules;
use std::alloc::{AllocError, Global};

/// Adds more diagnostics.
fn push_all(found: &mut Vec<Diagnostic>, more: Vec<Diagnostic>) -> Result<(), AllocError>
    ensures { OnOk result (found.new.items ≡ found.old.items ++ more.items) }
{
    for diagnostic in more {
        found.push(diagnostic)?;
    }
    Ok(())
}

/// What is wrong with the declarations of a crate, with its dependencies and its items: modules that are not there, then
/// extern crates, visibilities, and second declarations.
///
/// # Errors
///
/// Fails only where memory runs out.
pub fn declaration_faults(
    alloc: Global,
    list: &CrateModules,
    files: &FileTable,
    dependencies: &[Dependency],
    items: &[DeclaredItem],
) -> Result<Vec<Diagnostic>, AllocError>
    ensures { IfOk result (λ found. found.items ≡
        spec.declaration_faults list.now files.now dependencies.now items.now) }
{
    let mut found = unresolved_modules(alloc, list)?;
    let crates = unresolved_extern_crates(alloc, list, files, dependencies, items)?;
    push_all(&mut found, crates)?;
    let visibilities = unresolved_visibilities(alloc, items)?;
    push_all(&mut found, visibilities)?;
    let second = duplicates(alloc, list, files, items)?;
    push_all(&mut found, second)?;
    Ok(found)
}
