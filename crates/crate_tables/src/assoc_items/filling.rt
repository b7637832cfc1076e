//! The associated items of all crates, added to a builder.
ghost use Rattle.std.specs.Prelude.{◌≡◌, ◌⊎◌, ◌+◌, [], true, All, IfErr, IfOk, OnOk, length, slice_get};
ghost use Rattle.crate_tables.specs.AssocItems as spec;
ghost use Rattle.crate_tables.specs.Containers.{containers_of as traits_and_impls};
ghost use Rattle.crate_tables.specs.CrateFillings.{IsKnownTable};
ghost use Rattle.crate_tables.specs.CrateTables.{HasKnownDefs, Table};
ghost use Rattle.crate_tables.specs.DeclaredWorlds.{BindNothing};
ghost use Rattle.dm_maps.specs.Added.{IsGrown};
ghost use Rattle.dm_maps.specs.First.{IsChecked};
ghost use Rattle.crate_tables.specs.Numbers.{is_past, is_shortage, IsShortage};

use crate::assoc_items::containers::{containers_of, homes_of};
pub use crate::assoc_items::items::AssocPlace;
use crate::assoc_items::items::add_rows;
use crate::crate_table::CrateTable;
use crate::item_place::BlockPlace;
use crate_items::files::file_table::FileTable;
use crate_items::items::module_items::items_in;
use crate_items::modules::CrateModules;
use dm_maps::build_fault::BuildFault;
use dm_maps::builder::WorldBuilder;
use std::alloc::Global;

/// Adds the associated items of a crate, whose blocks begin at a number.
fn add_items_of(
    builder: &mut WorldBuilder,
    places: &mut Vec<AssocPlace>,
    alloc: Global,
    files: &FileTable,
    list: &CrateModules,
    table: &CrateTable,
    first: u32,
) -> Result<(), BuildFault>
    ensures added { OnOk result (spec.AreAdded files.now list.now (traits_and_impls first table.now)
        (record { world = builder.old; places = places.old.items })
        (record { world = builder.new; places = places.new.items })) }
    ensures grown { IsGrown builder.old builder.new }
    ensures fault { IfErr result
        (IsShortage ((is_past (first + length table.now.blocks) ≡ true) ⊎ spec.ItemsRunOut files.now list.now
        (traits_and_impls first table.now) (record { world = builder.old; places = places.old.items }))) }
{
    let containers = containers_of(alloc, table, first)?;
    let homes = homes_of(alloc, containers.as_slice())?;
    let rows = items_in(alloc, list, homes.as_slice())?;
    add_rows(
        builder,
        places,
        alloc,
        list,
        files,
        containers.as_slice(),
        rows.as_slice(),
    )
}

/// The same of the crate of a number, if its modules are listed.
fn add_next(
    builder: &mut WorldBuilder,
    places: &mut Vec<AssocPlace>,
    alloc: Global,
    files: &FileTable,
    lists: &[CrateModules],
    krate: usize,
    table: &CrateTable,
    first: u32,
) -> Result<(), BuildFault>
    ensures added { OnOk result (spec.AreAddedIf files.now (slice_get lists.now krate)
        (traits_and_impls first table.now)
        (record { world = builder.old; places = places.old.items })
        (record { world = builder.new; places = places.new.items })) }
    ensures grown { IsGrown builder.old builder.new }
    ensures fault { IfErr result
        (IsShortage (spec.CrateRunsOut files.now (slice_get lists.now krate) first table.now
        (record { world = builder.old; places = places.old.items }))) }
{
    match lists.get(krate) {
        None => Ok(()),
        Some(list) => add_items_of(builder, places, alloc, files, list, table, first),
    }
}

/// The number behind those of some blocks, the first of which has a number.
fn behind_all(first: u32, blocks: &[BlockPlace]) -> Result<u32, BuildFault>
    ensures exact { IfOk result (λ next. next ≡ first + length blocks.now) }
    ensures fault { IfErr result (λ fault. is_shortage (is_past (first + length blocks.now)) fault ≡ true) }
{
    let next = u32::try_from(blocks.len())
        .ok()
        .and_then(|count| first.checked_add(count));
    match next {
        Some(next) => Ok(next),
        None => Err(BuildFault::OutOfNumbers),
    }
}

/// Adds those of all crates, by the numbers that their blocks have in scopes.
fn add_all(
    builder: &mut WorldBuilder,
    places: &mut Vec<AssocPlace>,
    alloc: Global,
    files: &FileTable,
    lists: &[CrateModules],
    tables: &[CrateTable],
) -> Result<(), BuildFault>
    ensures added { OnOk result (spec.AreAllAdded files.now lists.now 0 0 tables.now
        (record { world = builder.old; places = places.old.items })
        (record { world = builder.new; places = places.new.items })) }
    ensures grown { IsGrown builder.old builder.new }
    ensures fault { IfErr result
        (IsShortage (spec.RunsOut files.now lists.now tables.now
        (record { world = builder.old; places = places.old.items }))) }
{
    let mut first: u32 = 0;
    for (krate, table) in tables.iter().enumerate() {
        add_next(builder, places, alloc, files, lists, krate, table, first)?;
        first = behind_all(first, table.blocks())?;
    }
    Ok(())
}

/// Adds the associated items of crates that are filled, each in the module of its trait or implementation: functions,
/// constants and type aliases that the crate has, with what they stand in and their visibilities as they are written. The
/// lists and the tables are those of the crates by their numbers, and an implementation has the number that scopes list it
/// under. Answers where each is written.
///
/// # Errors
///
/// Fails where memory or numbers run out: `OutOfNumbers` where there are 4,294,967,295 items. What was added before stays.
pub fn add_assoc_items(
    builder: &mut WorldBuilder,
    alloc: Global,
    files: &FileTable,
    lists: &[CrateModules],
    tables: &[CrateTable],
) -> Result<Vec<AssocPlace>, BuildFault>
    ensures added { IfOk result (λ places. spec.AreAllAdded files.now lists.now 0 0 tables.now
        (record { world = builder.old; places = [] })
        (record { world = builder.new; places = places.items })) }
    ensures grown { IsGrown builder.old builder.new }
    ensures fault { IfErr result
        (IsShortage (spec.RunsOut files.now lists.now tables.now
        (record { world = builder.old; places = [] }))) }

    // What tables hold stays the builder's, and where no module binds anything, none does.
    ensures known { (t : Table) → IsKnownTable builder.old t → IsKnownTable builder.new t }
    ensures empty { BindNothing builder.old → BindNothing builder.new }

    // Where each id that the builder's tables hold is one of its own, and each definition of the crates, each id is then.
    ensures checked { OnOk result
        (IsChecked builder.old → All (HasKnownDefs builder.old) tables.now → IsChecked builder.new) }
{
    let mut places = Vec::new(alloc);
    add_all(builder, &mut places, alloc, files, lists, tables)?;
    Ok(places)
}
