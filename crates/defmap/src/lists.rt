//! What modules hold without a name, and the procedural macros that functions are.
use crate::settled::Settled;
use crate_tables::block_lists::numbered_block;
use crate_tables::crate_table::CrateTable;
use defmap_answers::crates::asked_crates;
use dm_base::ids::{Crate, ModuleId};
use dm_base::item_ids::ModuleDefId;
use dm_def_map::def_map::DefMap;
use dm_maps::world::World;
use dm_maps::world::maps_of::{AskWorld, crate_def_map};
use dm_scope::item_scope::ItemScope;
use std::alloc::{AllocError, Global};
use std::fmt::Write;

/// Adds how many definitions, constants without a name and extern crates a module has.
fn push_counts(out: &mut String, m: ModuleId, scope: &ItemScope) -> Result<(), AllocError> {
    let declared = scope.declarations().count();
    let unnamed = scope.unnamed_consts().count();
    let externs = scope.extern_crate_decls().count();
    write!(
        out,
        "module {}: declares {declared}, {unnamed} unnamed constants, {externs} extern crates\n",
        m.0
    )
}

/// Adds where a block of a module is written.
fn push_block(
    out: &mut String,
    tables: &[CrateTable],
    m: ModuleId,
    kind: &str,
    number: u32,
) -> Result<(), AllocError> {
    match numbered_block(tables, number) {
        None => write!(out, "module {}: {kind}, nowhere\n", m.0),
        Some(block) => {
            write!(
                out,
                "module {}: {kind}, item {} of file {}\n",
                m.0, block.item, block.file.0
            )
        }
    }
}

/// Adds the implementations of traits in a module.
fn push_trait_impls(
    out: &mut String,
    tables: &[CrateTable],
    m: ModuleId,
    scope: &ItemScope,
) -> Result<(), AllocError> {
    for id in scope.trait_impls() {
        push_block(out, tables, m, "impl of a trait", id.0)?;
    }
    Ok(())
}

/// Adds the inherent implementations in a module.
fn push_inherent_impls(
    out: &mut String,
    tables: &[CrateTable],
    m: ModuleId,
    scope: &ItemScope,
) -> Result<(), AllocError> {
    for id in scope.inherent_impls() {
        push_block(out, tables, m, "inherent impl", id.0)?;
    }
    Ok(())
}

/// Adds the `extern` blocks of a module.
fn push_extern_blocks(
    out: &mut String,
    tables: &[CrateTable],
    m: ModuleId,
    scope: &ItemScope,
) -> Result<(), AllocError> {
    for id in scope.extern_blocks() {
        push_block(out, tables, m, "extern block", id.0)?;
    }
    Ok(())
}

/// Adds the procedural macros that functions of a module are.
fn push_macros(
    out: &mut String,
    map: &DefMap,
    m: ModuleId,
    scope: &ItemScope,
) -> Result<(), AllocError> {
    for def in scope.declarations() {
        let ModuleDefId::FunctionId(function) = def else {
            continue;
        };
        if let Some(made) = map.fn_as_proc_macro(function) {
            write!(
                out,
                "module {}: function {} is procedural macro {}\n",
                m.0, function.0, made.0
            )?;
        }
    }
    Ok(())
}

/// Adds the lists of a module.
fn push_lists(
    out: &mut String,
    tables: &[CrateTable],
    m: ModuleId,
    scope: &ItemScope,
) -> Result<(), AllocError> {
    push_counts(out, m, scope)?;
    push_trait_impls(out, tables, m, scope)?;
    push_inherent_impls(out, tables, m, scope)?;
    push_extern_blocks(out, tables, m, scope)
}

/// Adds the lists of the modules of a crate.
fn push_crate(
    out: &mut String,
    world: &World,
    tables: &[CrateTable],
    krate: Crate,
) -> Result<(), AllocError> {
    if !world.has_crate(krate) {
        return Ok(());
    }
    let map = crate_def_map(world, krate);
    for (m, data) in map.modules().iter() {
        push_lists(out, tables, m, data.scope())?;
        push_macros(out, map, m, data.scope())?;
    }
    Ok(())
}

/// Adds the lists of the scopes of the crates that are asked about, in lines.
pub(crate) fn push_scope_lists(
    out: &mut String,
    alloc: Global,
    settled: &Settled,
) -> Result<(), AllocError> {
    let tables = settled.collected.tables.as_slice();
    for krate in &asked_crates(alloc, settled)? {
        push_crate(out, settled.world(), tables, *krate)?;
    }
    Ok(())
}
