//! The names under which a world has definitions.
use dm_base::ids::{EnumId, EnumVariantId, ModuleId};
use dm_base::item_ids::{MacroId, ModuleDefId};
use dm_base::item_in_ns::ItemModules;
use dm_base::name::Name;
use dm_maps::world::World;
use dm_scope::item_scope::ItemScope;
use dm_scope::scope_tables::ScopeTables;
use std::alloc::{AllocError, Global};

/// The name that a scope declares a definition under as a type.
fn type_name(scope: &ItemScope, def: ModuleDefId) -> Option<&Name> {
    for (name, item) in scope.types() {
        if item.import.is_none() && item.def == def {
            return Some(name);
        }
    }
    None
}

/// The same as a value.
fn value_name(scope: &ItemScope, def: ModuleDefId) -> Option<&Name> {
    for (name, item) in scope.values() {
        if item.import.is_none() && item.def == def {
            return Some(name);
        }
    }
    None
}

/// The name that a scope declares a macro under.
fn own_macro_name(scope: &ItemScope, id: MacroId) -> Option<&Name> {
    for (name, item) in scope.macros() {
        if item.import.is_none() && item.def == id {
            return Some(name);
        }
    }
    None
}

/// The name that a scope declares a definition under.
fn name_in_scope(scope: &ItemScope, def: ModuleDefId) -> Option<&Name> {
    match def {
        ModuleDefId::MacroId(id) => own_macro_name(scope, id),
        _ => match type_name(scope, def) {
            Some(name) => Some(name),
            None => value_name(scope, def),
        },
    }
}

/// The name of a macro of a module: one that is declared there by text alone, or exported at the crate's root.
fn macro_name(world: &World, home: ModuleId, id: MacroId) -> Option<&Name> {
    if let Some(scope) = world.scope_of(home) {
        for (name, macros) in scope.legacy_macros() {
            if macros.contains(&id) {
                return Some(name);
            }
        }
    }
    let root = match world.map_of(home) {
        None => home,
        Some(map) => map.root_module_id(),
    };
    own_macro_name(world.scope_of(root)?, id)
}

/// The name that a module declares a definition under.
pub(crate) fn declared_name(world: &World, home: ModuleId, def: ModuleDefId) -> Option<&Name> {
    let own = match world.scope_of(home) {
        None => None,
        Some(scope) => name_in_scope(scope, def),
    };
    match (own, def) {
        (None, ModuleDefId::MacroId(id)) => macro_name(world, home, id),
        _ => own,
    }
}

/// The name of a variant of an enum.
pub(crate) fn variant_name(world: &World, e: EnumId, variant: EnumVariantId) -> Option<&Name> {
    for (name, (one, _shape)) in world.variants(e)? {
        if one == variant {
            return Some(name);
        }
    }
    None
}

/// The names of the variants of an enum, in the order in which they are written.
pub(crate) fn variants(alloc: Global, world: &World, e: EnumId) -> Result<Vec<&Name>, AllocError> {
    let mut names = Vec::new(alloc);
    let Some(variants) = world.variants(e) else {
        return Ok(names);
    };
    for (name, _variant) in variants {
        names.push(name)?;
    }
    Ok(names)
}
