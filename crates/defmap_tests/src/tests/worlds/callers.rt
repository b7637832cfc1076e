//! Callers of docs/USING.md that make a world of their own.
use super::{FILE, INLINE, ROOT, THE_STRUCT, dump_of};
use crate::tests::{gives, same};
use defmap_callers::building::{crate_of_modules, declared};
use defmap_callers::program::meaning_of_a_struct;
use dm_base::ids::ModuleId;
use dm_base::item_ids::ModuleDefId;
use dm_base::name::Name;
use dm_maps::build_fault::BuildFault;
use dm_maps::world::World;
use std::alloc::{AllocError, Global};
use std::test::Fail;

/// One name.
fn names(alloc: Global) -> Result<Vec<Name>, AllocError> {
    let mut names = Vec::new(alloc);
    names.push(Name::new(alloc, "a")?)?;
    Ok(names)
}

/// In the module of that name, `x` is the root.
fn declarations(alloc: Global) -> Result<Vec<(ModuleId, Name, ModuleDefId)>, AllocError> {
    let mut declarations = Vec::new(alloc);
    let root = ModuleDefId::ModuleId(ROOT);
    declarations.push((ModuleId(1), Name::new(alloc, "x")?, root))?;
    Ok(declarations)
}

/// The world of that module, with that declaration.
fn world(alloc: Global) -> Result<Option<World>, BuildFault> {
    let names = names(alloc)?;
    let declarations = declarations(alloc)?;
    let (tables, _modules) = crate_of_modules(alloc, FILE, INLINE, names)?;
    match declared(alloc, tables, declarations) {
        Ok((world, _globs)) => Ok(Some(world)),
        Err(_refused) => Ok(None),
    }
}

/// The dump of its crate.
fn dump(alloc: Global) -> Option<String> {
    let world = world(alloc).ok()??;
    dump_of(&world)
}

#[test]
fn modules_of_a_list_bind_what_is_declared(rt: HostRuntime) {
    let text = dump(rt.alloc()).expect(&rt, "a world");
    same(&rt, &text.as_str(), &"crate\n\ncrate::a\n- x : type\n");
}

#[test]
fn a_program_asks_for_a_struct(rt: HostRuntime) -> Result<(), Fail> {
    gives(&rt, meaning_of_a_struct(rt.alloc(), FILE), Some(THE_STRUCT))
}
