//! All items of a crate, added to a builder.
ghost use Rattle.std.specs.Prelude.{◌≡◌, IfErr, IfSome, IsTrue, OnOk, true};
ghost use Rattle.crate_tables.specs.CrateFillings as spec;
ghost use Rattle.crate_tables.specs.CrateRoots.{root_id as root_of};
ghost use Rattle.crate_tables.specs.CrateTables.{IsTableOf};
ghost use Rattle.crate_tables.specs.ExternCrates.{linkable};
ghost use Rattle.crate_tables.specs.Kept.{IsKept};
ghost use Rattle.crate_tables.specs.Numbers.{is_shortage};
ghost use Rattle.dm_maps.specs.declared.check.held.HeldId.TheVariants as held;
ghost use Rattle.dm_maps.specs.Known.{knows, KnowsAll};

use crate::all_lists::fill_lists;
use crate::all_macros::add_all_macros;
use crate::blocks::add_blocks;
use crate::crate_table::CrateTable;
use crate::extern_crates::{ExternCrateRow, add_extern_crates};
use crate::item_outline::outlines;
use crate::library_name::{LibraryName, declare_library};
use crate::new_module::CrateView;
use crate::raw_visibilities::add_written_items;
use crate_items::files::dependency::Dependency;
use crate_items::items::declared_item::DeclaredItem;
use dm_maps::build_fault::BuildFault;
use dm_maps::builder::WorldBuilder;
use std::alloc::Global;

/// Adds the items of a crate: its table gets its blocks, and then its extern crates come, its macros, and all others. Its
/// definitions and its extern crates come into the lists of their modules behind that, and its def map is told which
/// functions are procedural macros.
#[tactic(auto, unfolding(crate::specs::CrateFillings::with_all_items))]
pub(crate) fn add_all_items(
    builder: &mut WorldBuilder,
    table: &mut CrateTable,
    externs: &mut Vec<ExternCrateRow>,
    alloc: Global,
    view: &CrateView<'_>,
    dependencies: &[Dependency],
    items: Vec<DeclaredItem>,
) -> Result<(), BuildFault>
    requires table { IsTableOf builder.old view.now.krate table.old }
    requires roots { KnowsAll builder.old (linkable view.now.krate dependencies.now) }
    ensures added { OnOk result ((record { world = builder.new; table = table.new; rows = externs.new.items }) ≡
        spec.with_all_items view.now dependencies.now
        (record { world = builder.old; table = table.old; rows = externs.old.items }) items.items) }
    ensures kept { OnOk result (IsTableOf builder.new view.now.krate table.new) }
    ensures stays { IsKept builder.old builder.new }
    ensures fault { IfErr result (λ fault. is_shortage (spec.is_crowded (spec.with_all_items view.now dependencies.now
        (record { world = builder.old; table = table.old; rows = externs.old.items }) items.items)) fault ≡ true) }
{
    let made = outlines(alloc, items.as_slice())?;
    add_blocks(table, alloc, view.list, items.as_slice())?;
    let first = externs.len();
    add_extern_crates(
        builder,
        table,
        externs,
        alloc,
        view,
        dependencies,
        items.as_slice(),
    )?;
    add_all_macros(builder, table, alloc, view, items.as_slice())?;
    add_written_items(builder, table, alloc, view, items)?;
    let modules = view.list.modules();
    fill_lists(
        builder,
        alloc,
        modules,
        view.krate,
        table,
        made.as_slice(),
        externs.as_slice(),
        first,
    )?;
    Ok(())
}

/// The same, and then the root binds what it binds without an item.
pub(crate) fn add_all_bound(
    builder: &mut WorldBuilder,
    table: &mut CrateTable,
    externs: &mut Vec<ExternCrateRow>,
    alloc: Global,
    view: &CrateView<'_>,
    dependencies: &[Dependency],
    library: Option<LibraryName>,
    items: Vec<DeclaredItem>,
) -> Result<(), BuildFault>
    requires table { IsTableOf builder.old view.now.krate table.old }
    requires roots { KnowsAll builder.old (linkable view.now.krate dependencies.now) }
    requires library { IfSome library (λ l. IsTrue (knows builder.old (held.Module (root_of l.krate)))) }
    ensures added { OnOk result ((record { world = builder.new; table = table.new; rows = externs.new.items }) ≡
        spec.with_all_bound view.now dependencies.now library
        (record { world = builder.old; table = table.old; rows = externs.old.items }) items.items) }
    ensures kept { OnOk result (IsTableOf builder.new view.now.krate table.new) }
    ensures stays { IsKept builder.old builder.new }
    ensures fault { IfErr result (λ fault. is_shortage (spec.is_crowded (spec.with_all_bound view.now dependencies.now library
        (record { world = builder.old; table = table.old; rows = externs.old.items }) items.items)) fault ≡ true) }
{
    add_all_items(builder, table, externs, alloc, view, dependencies, items)?;
    declare_library(builder, table, view, library)?;
    Ok(())
}
