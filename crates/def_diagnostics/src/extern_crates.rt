//! Extern crates that lead nowhere.
ghost use Rattle.std.specs.Prelude.{◌≡◌, ◌++◌, IfOk, OnOk};
ghost use Rattle.std.specs.List.{flat_map};
ghost use Rattle.def_diagnostics.specs.ExternCrates as spec;

use crate::diagnostic::{Diagnostic, DiagnosticKind, Place};
use crate_items::files::dependency::Dependency;
use crate_items::files::file_table::FileTable;
use crate_items::items::declared_item::{DeclaredItem, LinkedCrate, linked_crate};
use crate_items::modules::CrateModules;
use dm_base::name::Name;
use item_tree::items::item_kind::ItemKind;
use std::alloc::{AllocError, Global};

fn is_dependency(dependencies: &[Dependency], name: &Name) -> bool
    ensures { result ≡ spec.is_dependency dependencies.now name.now }
{
    dependencies
        .iter()
        .any(|dependency| dependency.name == *name)
}

/// Whether there is a crate that something links.
fn is_there(dependencies: &[Dependency], linked: Option<LinkedCrate>) -> bool
    ensures { result ≡ spec.is_there dependencies.now linked }
{
    match linked {
        None => false,
        Some(LinkedCrate::Itself) => true,
        Some(LinkedCrate::Named(name)) => is_dependency(dependencies, &name),
    }
}

fn is_extern_crate(kind: ItemKind) -> bool
    ensures { result ≡ spec.is_extern_crate kind }
{
    matches!(kind, ItemKind::ExternCrate)
}

/// Whether an item is an `extern crate` of no crate.
fn is_unresolved(
    alloc: Global,
    list: &CrateModules,
    files: &FileTable,
    dependencies: &[Dependency],
    item: &DeclaredItem,
) -> Result<bool, AllocError>
    ensures { IfOk result (λ unresolved. unresolved ≡
        spec.is_unresolved list.now files.now dependencies.now item.now) }
{
    if !is_extern_crate(item.kind) {
        return Ok(false);
    }
    let linked = linked_crate(alloc, list, files, item)?;
    Ok(!is_there(dependencies, linked))
}

/// Adds what is told of an extern crate that leads nowhere.
fn push_if(
    found: &mut Vec<Diagnostic>,
    unresolved: bool,
    item: &DeclaredItem,
) -> Result<(), AllocError>
    ensures { OnOk result (found.new.items ≡ found.old.items ++ spec.told_if unresolved item.now) }
{
    if unresolved {
        found.push(Diagnostic {
            file: item.file,
            place: Place::Item(item.item),
            kind: DiagnosticKind::UnresolvedExternCrate,
        })?;
    }
    Ok(())
}

/// What is told of those of some items that are an `extern crate` of a name which no dependency of the crate has, in the
/// extern prelude or not, in their order. `extern crate self` is always there.
///
/// # Errors
///
/// Fails only where memory runs out.
pub fn unresolved_extern_crates(
    alloc: Global,
    list: &CrateModules,
    files: &FileTable,
    dependencies: &[Dependency],
    items: &[DeclaredItem],
) -> Result<Vec<Diagnostic>, AllocError>
    ensures { IfOk result (λ found. found.items ≡
        flat_map (spec.unresolved_extern_crate list.now files.now dependencies.now) items.now) }
{
    let mut found = Vec::new(alloc);
    for item in items {
        let unresolved = is_unresolved(alloc, list, files, dependencies, item)?;
        push_if(&mut found, unresolved, item)?;
    }
    Ok(found)
}
