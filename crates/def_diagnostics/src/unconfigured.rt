//! What `cfg` takes away.
ghost use Rattle.std.specs.Prelude.{◌≡◌, ◌++◌, IfOk, OnOk, slice_get};
ghost use Rattle.std.specs.List.{flat_map};
ghost use Rattle.def_diagnostics.specs.Unconfigured as spec;
ghost use Rattle.crate_items.specs.Sources.{source_at};

use crate::declared_mods::DeclaredMods;
use crate::diagnostic::{Diagnostic, DiagnosticKind, Place};
use crate_items::files::source::Source;
use crate_items::items::declared_item::DeclaredItem;
use crate_items::modules::CrateModules;
use crate_items::modules::declared_module::DeclaredModule;
use crate_items::modules::standing::Standing;
use dm_base::ids::FileId;
use item_tree::items::Item;
use item_tree::items::item_kind::ItemKind;
use std::alloc::{AllocError, Global};

/// Whether items of a kind are told of. An arm of `cfg_if!` or `cfg_select!` that is not chosen is not, nor is what
/// stands in it.
fn is_told(kind: ItemKind) -> bool
    ensures { result ≡ spec.is_told kind }
{
    match kind {
        ItemKind::CfgArm | ItemKind::InnerAttribute | ItemKind::Error => false,
        _ => true,
    }
}

/// Whether the crate has what stands so.
fn is_there(standing: Option<Standing>) -> bool
    ensures { result ≡ spec.is_there standing }
{
    match standing {
        None => true,
        Some(standing) => standing.is_configured,
    }
}

/// Whether the crate has the item that one is in.
fn is_outer_there(standings: &[Standing], parent: Option<usize>) -> bool
    ensures { result ≡ spec.is_outer_there standings.now parent }
{
    match parent {
        None => true,
        Some(parent) => is_there(standings.get(parent).copied()),
    }
}

/// Whether the `cfg`s of the item of a number take it away.
fn is_taken_away(standings: &[Standing], number: usize, item: Item) -> bool
    ensures { result ≡ spec.is_taken_away standings.now number item }
{
    is_told(item.kind)
        && !is_there(standings.get(number).copied())
        && is_outer_there(standings, item.parent)
}

/// Adds what is told of an item of a file, if its `cfg`s take it away.
fn push_item(
    found: &mut Vec<Diagnostic>,
    file: FileId,
    standings: &[Standing],
    number: usize,
    item: Item,
) -> Result<(), AllocError>
    ensures { OnOk result
        (found.new.items ≡ found.old.items ++ spec.of_item_at file standings.now number item) }
{
    if is_taken_away(standings, number, item) {
        found.push(Diagnostic {
            file,
            place: Place::Item(number),
            kind: DiagnosticKind::UnconfiguredCode,
        })?;
    }
    Ok(())
}

/// Adds what is told of the items of a file.
fn push_items(found: &mut Vec<Diagnostic>, file: FileId, source: &Source) -> Result<(), AllocError>
    ensures { OnOk result (found.new.items ≡ found.old.items ++
        spec.of_items_from file source.now.standings 0 source.now.items) }
{
    for (number, item) in source.items().iter().enumerate() {
        push_item(found, file, source.standings(), number, *item)?;
    }
    Ok(())
}

/// Adds what is told of the file of a module.
fn push_file(
    found: &mut Vec<Diagnostic>,
    list: &CrateModules,
    outer: &DeclaredModule,
) -> Result<(), AllocError>
    ensures { OnOk result (found.new.items ≡ found.old.items ++
        spec.of_file list.now outer.now.file outer.now.item) }
{
    match (outer.item(), list.sources().get(outer.file())) {
        (None, Some(source)) if source.is_enabled() => push_items(found, outer.file(), source),
        _ => Ok(()),
    }
}

/// What is told of the files of the modules.
fn of_files(alloc: Global, list: &CrateModules) -> Result<Vec<Diagnostic>, AllocError>
    ensures { IfOk result (λ found. found.items ≡ flat_map (spec.of_module list.now) list.now.modules) }
{
    let mut found = Vec::new(alloc);
    for outer in list.modules() {
        push_file(&mut found, list, outer)?;
    }
    Ok(found)
}

fn is_mod(kind: ItemKind) -> bool
    ensures { result ≡ spec.is_mod kind }
{
    matches!(kind, ItemKind::Mod)
}

/// Adds what is told of a `mod` item, if its file begins with a `cfg` that does not hold.
fn push_mod(
    found: &mut Vec<Diagnostic>,
    mods: &DeclaredMods,
    item: &DeclaredItem,
) -> Result<(), AllocError>
    ensures { OnOk result (found.new.items ≡ found.old.items ++ spec.of_mod mods.now item.now) }
{
    if is_mod(item.kind) && item.name.is_some() && !mods.has(item) {
        found.push(Diagnostic {
            file: item.file,
            place: Place::Item(item.item),
            kind: DiagnosticKind::UnconfiguredCode,
        })?;
    }
    Ok(())
}

/// Adds what is told of `mod` items.
fn push_mods(
    found: &mut Vec<Diagnostic>,
    mods: &DeclaredMods,
    items: &[DeclaredItem],
) -> Result<(), AllocError>
    ensures { OnOk result
        (found.new.items ≡ found.old.items ++ flat_map (spec.of_mod mods.now) items.now) }
{
    for item in items {
        push_mod(found, mods, item)?;
    }
    Ok(())
}

/// What is told of the items that `cfg` takes away: of each file of a module those whose own `cfg`s do not hold, in the
/// order of its tree, but not what stands in them; and behind these the `mod` items, among those of the crate, whose file
/// begins with a `cfg` that does not hold. Of the root nothing is told if its file does.
///
/// # Errors
///
/// Fails only where memory runs out.
pub fn unconfigured(
    alloc: Global,
    list: &CrateModules,
    items: &[DeclaredItem],
) -> Result<Vec<Diagnostic>, AllocError>
    ensures { IfOk result (λ found. found.items ≡ spec.unconfigured list.now items.now) }
{
    let mods = DeclaredMods::of(alloc, list)?;
    let mut found = of_files(alloc, list)?;
    push_mods(&mut found, &mods, items)?;
    Ok(found)
}
