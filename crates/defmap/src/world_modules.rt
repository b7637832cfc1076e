//! The modules of a world, and what they bind.
use dm_base::ids::{Crate, ModuleId, UseId};
use dm_base::imports::ImportId;
use dm_base::item_ids::ModuleDefId;
use dm_base::item_in_ns::ItemModules;
use dm_base::name::Name;
use dm_base::per_ns::PerNs;
use dm_base::visibility::Visibility;
use dm_def_map::modules::module_data::ModuleData;
use dm_maps::world::World;
use dm_maps::world::maps_of::crate_def_map;
use dm_scope::name_order::sorted_names;
use dm_scope::scope_tables::ScopeTables;
use std::alloc::{AllocError, Global};

/// What the map of a module has of it.
fn module_data(world: &World, m: ModuleId) -> Option<&ModuleData> {
    world.map_of(m)?.get(m)
}

/// The module around a module.
pub(crate) fn parent_of(world: &World, m: ModuleId) -> Option<ModuleId> {
    module_data(world, m)?.parent()
}

/// The child that a module has under a name.
pub(crate) fn child_of(world: &World, m: ModuleId, name: &Name) -> Option<ModuleId> {
    module_data(world, m)?.child(name)
}

/// The name that a module has in the one around it.
pub(crate) fn child_name(world: &World, parent: ModuleId, m: ModuleId) -> Option<&Name> {
    for (name, child) in module_data(world, parent)?.children().iter() {
        if *child == m {
            return Some(name);
        }
    }
    None
}

/// The children of a module, in the order of their names.
pub(crate) fn children(
    alloc: Global,
    world: &World,
    m: ModuleId,
) -> Result<Vec<(&Name, ModuleId)>, AllocError> {
    let mut children = Vec::new(alloc);
    let Some(data) = module_data(world, m) else {
        return Ok(children);
    };
    let names = sorted_names(data.children().keys().as_slice().iter(), alloc)?;
    for name in &names {
        if let Some(child) = data.child(*name) {
            children.push((*name, child))?;
        }
    }
    Ok(children)
}

/// What a module binds, in the order of the names.
pub(crate) fn entries(
    alloc: Global,
    world: &World,
    m: ModuleId,
) -> Result<Vec<(&Name, PerNs)>, AllocError> {
    match world.scope_of(m) {
        None => Ok(Vec::new(alloc)),
        Some(scope) => scope.entries(),
    }
}

/// Who sees each trait that a module has without a name, and the import that brought it.
pub(crate) fn unnamed_traits(
    alloc: Global,
    world: &World,
    m: ModuleId,
) -> Result<Vec<(Visibility, Option<ImportId>)>, AllocError> {
    let mut traits = Vec::new(alloc);
    if let Some(scope) = world.scope_of(m) {
        for (_trait, visibility, import) in scope.unnamed_traits() {
            traits.push((visibility, import))?;
        }
    }
    Ok(traits)
}

/// The module that declares a definition.
pub(crate) fn item_home(world: &World, def: ModuleDefId) -> Option<ModuleId> {
    match def {
        ModuleDefId::MacroId(id) => world.macro_module(id),
        _ => world.item_module(def),
    }
}

/// The root of a crate, and the use there that names its prelude.
pub(crate) fn naming_use(world: &World, krate: Crate) -> Option<(ModuleId, UseId)> {
    if !world.has_crate(krate) {
        return None;
    }
    let map = crate_def_map(world, krate);
    let (_prelude, use_) = map.prelude()?;
    Some((map.root_module_id(), use_?))
}
