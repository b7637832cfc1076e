//! The items of crates, and where those of a world are written.
use crate_items::files::crate_graph::CrateGraph;
use crate_items::files::file_table::FileTable;
use crate_items::items::declared_item::{DeclaredItem, declared_items};
use crate_items::items::module_items::module_items;
use crate_items::modules::CrateModules;
use crate_tables::crate_table::CrateTable;
use defmap_answers::places::ItemPlace;
use dm_base::ids::{Crate, ModuleId, UseId};
use dm_base::item_ids::ModuleDefId;
use indexmap::IndexMap;
use std::alloc::{AllocError, Global};

/// The items of a crate.
fn items_of(
    alloc: Global,
    graph: &CrateGraph,
    krate: usize,
    list: &CrateModules,
    files: &FileTable,
) -> Result<Vec<DeclaredItem>, AllocError> {
    let id = Crate(u32::try_from(krate).unwrap_or(u32::MAX));
    if !graph.contains(id) {
        return Ok(Vec::new(alloc));
    }
    let rows = module_items(alloc, list)?;
    declared_items(alloc, graph.get(id).edition(), list, files, rows.as_slice())
}

/// The items of each crate.
pub(crate) fn all_items(
    alloc: Global,
    graph: &CrateGraph,
    lists: &[CrateModules],
    files: &FileTable,
) -> Result<Vec<Vec<DeclaredItem>>, AllocError> {
    let mut items = Vec::new(alloc);
    for (krate, list) in lists.iter().enumerate() {
        items.push(items_of(alloc, graph, krate, list, files)?)?;
    }
    Ok(items)
}

/// The places of the uses of crates.
pub(crate) fn use_places(
    alloc: Global,
    tables: &[CrateTable],
) -> Result<IndexMap<UseId, ItemPlace>, AllocError> {
    let mut places = IndexMap::new(alloc);
    for (krate, table) in tables.iter().enumerate() {
        for place in table.uses() {
            let written = ItemPlace {
                krate,
                file: place.file,
                item: place.item,
            };
            places.insert(place.use_, written)?;
        }
    }
    Ok(places)
}

/// Adds the places of the modules of a crate, but for its root, which no item declares.
fn add_modules(
    places: &mut IndexMap<ModuleDefId, ItemPlace>,
    krate: usize,
    list: &CrateModules,
    ids: &[Option<ModuleId>],
) -> Result<(), AllocError> {
    for (module, id) in list.modules().iter().zip(ids) {
        if let (Some(id), Some(declaration)) = (id, module.declaration()) {
            let written = ItemPlace {
                krate,
                file: declaration.file,
                item: declaration.item,
            };
            places.insert(ModuleDefId::ModuleId(*id), written)?;
        }
    }
    Ok(())
}

/// Adds the places of the definitions of a crate.
fn add_defs(
    places: &mut IndexMap<ModuleDefId, ItemPlace>,
    krate: usize,
    table: &CrateTable,
) -> Result<(), AllocError> {
    for place in table.defs() {
        let written = ItemPlace {
            krate,
            file: place.file,
            item: place.item,
        };
        places.insert(place.def, written)?;
    }
    Ok(())
}

/// The places of the definitions and the modules of crates.
pub(crate) fn def_places(
    alloc: Global,
    lists: &[CrateModules],
    tables: &[CrateTable],
) -> Result<IndexMap<ModuleDefId, ItemPlace>, AllocError> {
    let mut places = IndexMap::new(alloc);
    for (krate, table) in tables.iter().enumerate() {
        add_defs(&mut places, krate, table)?;
        if let Some(list) = lists.get(krate) {
            add_modules(&mut places, krate, list, table.ids())?;
        }
    }
    Ok(places)
}
