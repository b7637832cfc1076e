//! Which modules of crates have no preludes.
ghost use Rattle.std.specs.Prelude.{◌≡◌, ◌++◌, if◌then◌else◌, IfOk, OnOk, slice_get, true};
ghost use Rattle.std.specs.List.{list_any};
ghost use Rattle.crate_items.specs.BareModules.{bare_modules as modules_bare};
ghost use Rattle.dm_base.specs.Tree.{same_module};
ghost use Rattle.dm_base.specs.declared.ids.ModuleId.{ModuleId as Id};
ghost use Rattle.dm_collector.specs.BareModules as spec;

use crate_items::modules::CrateModules;
use crate_items::modules::bare_modules::bare_modules;
use crate_tables::crate_table::CrateTable;
use dm_base::ids::ModuleId;
use indexmap::IndexSet;
use std::alloc::{AllocError, Global};

/// Adds a module that was not left out, and has no preludes.
fn push_id(
    found: &mut Vec<ModuleId>,
    m: Option<ModuleId>,
    is_bare: Option<bool>,
) -> Result<(), AllocError>
    ensures { OnOk result (found.new.items ≡ found.old.items ++ spec.bare_id m is_bare) }
{
    match (m, is_bare) {
        (Some(m), Some(true)) => {
            found.push(m)?;
            Ok(())
        }
        _ => Ok(()),
    }
}

fn bare_at(bare: &[bool], number: usize) -> Option<bool>
    ensures { result ≡ slice_get bare.now number }
{
    bare.get(number).copied()
}

/// Adds those of the modules of a crate, where its list says which have none.
fn push_ids(
    found: &mut Vec<ModuleId>,
    bare: &[bool],
    ids: &[Option<ModuleId>],
) -> Result<(), AllocError>
    ensures { OnOk result (found.new.items ≡ found.old.items ++ spec.bare_ids bare.now 0 ids.now) }
{
    for (number, m) in ids.iter().enumerate() {
        push_id(found, *m, bare_at(bare, number))?;
    }
    Ok(())
}

/// Adds those of a crate.
fn push_listed(
    found: &mut Vec<ModuleId>,
    alloc: Global,
    list: &CrateModules,
    table: &CrateTable,
) -> Result<(), AllocError>
    ensures { OnOk result (found.new.items
        ≡ found.old.items ++ spec.bare_ids (modules_bare list.now) 0 table.now.ids) }
{
    let bare = bare_modules(alloc, list)?;
    push_ids(found, bare.as_slice(), table.ids())?;
    Ok(())
}

/// Adds those of the crate of a number.
fn push_crate(
    found: &mut Vec<ModuleId>,
    alloc: Global,
    lists: &[CrateModules],
    number: usize,
    table: &CrateTable,
) -> Result<(), AllocError>
    ensures { OnOk result (found.new.items
        ≡ found.old.items ++ spec.of_crate table.now.ids (slice_get lists.now number)) }
{
    match lists.get(number) {
        None => Ok(()),
        Some(list) => push_listed(found, alloc, list, table),
    }
}

/// The modules of some crates that have no preludes.
fn all_bare(
    alloc: Global,
    lists: &[CrateModules],
    tables: &[CrateTable],
) -> Result<Vec<ModuleId>, AllocError>
    ensures { IfOk result (λ found. found.items ≡ spec.all_bare lists.now 0 tables.now) }
{
    let mut found = Vec::new(alloc);
    for (number, table) in tables.iter().enumerate() {
        push_crate(&mut found, alloc, lists, number, table)?;
    }
    Ok(found)
}

/// Adds a module to a set.
fn put(set: &mut IndexSet<ModuleId>, m: ModuleId) -> Result<(), AllocError>
    ensures { OnOk result ((k : Id) → list_any (same_module k) set.new.keys
        ≡ (if same_module m k then true else list_any (same_module k) set.old.keys)) }
{
    set.insert(m)?;
    Ok(())
}

/// The set of some modules.
fn set_of(alloc: Global, modules: &[ModuleId]) -> Result<IndexSet<ModuleId>, AllocError>
    ensures { IfOk result (λ set. (m : Id) → list_any (same_module m) set.keys ≡ spec.is_among modules.now m) }
{
    let mut set = IndexSet::new(alloc);
    for m in modules {
        put(&mut set, *m)?;
    }
    Ok(set)
}

/// The set of the modules of some crates that have no preludes.
///
/// Fails only where memory runs out.
pub(crate) fn bare_set(
    alloc: Global,
    lists: &[CrateModules],
    tables: &[CrateTable],
) -> Result<IndexSet<ModuleId>, AllocError>
    ensures { IfOk result (λ set. (m : Id) → list_any (same_module m) set.keys
        ≡ spec.is_among (spec.all_bare lists.now 0 tables.now) m) }
{
    let found = all_bare(alloc, lists, tables)?;
    let set = set_of(alloc, found.as_slice())?;
    Ok(set)
}
