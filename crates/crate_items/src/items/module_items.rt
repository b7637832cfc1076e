//! The items of the modules of a crate, and those that stand in other items.
ghost use Rattle.std.specs.Prelude.{◌≡◌, ◌++◌, ◌∷◌, [], All, IfOk, IsSome, None, OnOk, length, map, nat_eq};
ghost use Rattle.std.specs.Map.{lookup};
ghost use Rattle.crate_items.specs.ModuleItems as spec;
ghost use Rattle.crate_items.specs.declared.items.module_items.ModuleItem.{ModuleItem};

use crate::items::file_items::{Homed, items_at, items_of_file};
use crate::modules::CrateModules;
use crate::modules::declared_module::DeclaredModule;
use dm_base::ids::FileId;
use indexmap::IndexMap;
use std::alloc::{AllocError, Global};

/// What items stand in: the module of a file, or an item of it, as an inline module, a trait or an implementation.
#[derive(Clone, Copy)]
pub struct ItemHome {
    pub file: FileId,
    /// The number of the item in the tree of that file; none, where it is the module of the file.
    pub item: Option<usize>,
}

/// An item of a module, or of another home.
#[derive(Clone, Copy, PartialEq, Eq, Debug)]
pub struct ModuleItem {
    /// The number of the module, in the list of the crate, or that of the home in a list of homes.
    pub module: usize,
    /// The file that the item stands in.
    pub file: FileId,
    /// The number of the item in the tree of that file.
    pub item: usize,
}

/// Adds the items of a file that has none in the table yet.
fn add_file(
    tables: &mut IndexMap<u32, Vec<Homed>>,
    file: u32,
    items: Vec<Homed>,
) -> Result<(), AllocError>
    requires { lookup (nat_eq file) tables.old.entries ≡ None }
    ensures { OnOk result (tables.new.entries ≡ tables.old.entries ++ (file, items) ∷ []) }
{
    tables.insert(file, items)?;
    Ok(())
}

/// Takes the items of a file into a table, if that was not done before.
fn read_file(
    tables: &mut IndexMap<u32, Vec<Homed>>,
    alloc: Global,
    list: &CrateModules,
    file: FileId,
) -> Result<(), AllocError>
    requires { spec.AreTables list.now.sources tables.old.entries }
    ensures right { OnOk result (spec.AreTables list.now.sources tables.new.entries) }
    ensures there { OnOk result (IsSome (lookup (nat_eq file.0) tables.new.entries)) }
{
    if tables.contains_key(&file.0) {
        return Ok(());
    }
    let items = items_of_file(alloc, list, file)?;
    add_file(tables, file.0, items)?;
    Ok(())
}

/// Adds rows of items of the home of a number.
fn push_rows(
    rows: &mut Vec<ModuleItem>,
    number: usize,
    home: ItemHome,
    items: &[Homed],
) -> Result<(), AllocError>
    ensures { OnOk result
        (rows.new.items ≡ rows.old.items ++ map (spec.row_of number home) items.now) }
{
    for homed in items {
        rows.push(ModuleItem {
            module: number,
            file: home.file,
            item: homed.item,
        })?;
    }
    Ok(())
}

/// Adds the items of the home of a number.
fn push_home(
    rows: &mut Vec<ModuleItem>,
    tables: &mut IndexMap<u32, Vec<Homed>>,
    alloc: Global,
    list: &CrateModules,
    number: usize,
    home: ItemHome,
) -> Result<(), AllocError>
    requires { spec.AreTables list.now.sources tables.old.entries }
    ensures tables { OnOk result (spec.AreTables list.now.sources tables.new.entries) }
    ensures rows { OnOk result
        (spec.AddsItemsOf list.now.sources number home rows.old.items rows.new.items) }
{
    read_file(tables, alloc, list, home.file)?;
    match tables.get(&home.file.0) {
        None => Ok(()),
        Some(items) => {
            push_rows(rows, number, home, items_at(items.as_slice(), home.item))?;
            Ok(())
        }
    }
}

/// The items of files of a crate that stand in some homes, of those that the crate has: those of each home in the order of
/// the text, and behind them those of the next. The items of each file are looked at once, and found by a search for each
/// home.
///
/// # Errors
///
/// Fails only where memory runs out.
pub fn items_in(
    alloc: Global,
    list: &CrateModules,
    homes: &[ItemHome],
) -> Result<Vec<ModuleItem>, AllocError>
    ensures exact { IfOk result (λ rows. spec.AreItemsIn list.now.sources 0 homes.now rows.items) }
    ensures within { IfOk result (λ rows. All (spec.IsBelow (length homes.now)) rows.items) }
{
    let mut rows = Vec::new(alloc);
    let mut tables = IndexMap::new(alloc);
    for (number, home) in homes.iter().enumerate() {
        push_home(&mut rows, &mut tables, alloc, list, number, *home)?;
    }
    Ok(rows)
}

/// The homes that some modules are.
fn homes_of(alloc: Global, modules: &[DeclaredModule]) -> Result<Vec<ItemHome>, AllocError>
    ensures { IfOk result (λ homes. homes.items ≡ map spec.home_of modules.now) }
{
    let mut homes = Vec::new(alloc);
    for module in modules {
        homes.push(ItemHome {
            file: module.file(),
            item: module.item(),
        })?;
    }
    Ok(homes)
}

/// The items that the modules of a crate have, as `items_in` gives those of homes: what is in an `extern` block is an item
/// of the module around, and what is in a trait or an implementation is none.
///
/// # Errors
///
/// Fails only where memory runs out.
pub fn module_items(alloc: Global, list: &CrateModules) -> Result<Vec<ModuleItem>, AllocError>
    ensures exact { IfOk result (λ rows.
        spec.AreItemsFrom list.now.sources 0 list.now.modules rows.items) }
    ensures within { IfOk result
        (λ rows. All (spec.IsBelow (length list.now.modules)) rows.items) }
{
    let homes = homes_of(alloc, list.modules())?;
    let rows = items_in(alloc, list, homes.as_slice())?;
    Ok(rows)
}
