//! Names of modules, declared in a world.
ghost use Rattle.std.specs.Option.{option_map_or};
ghost use Rattle.std.specs.Prelude.{◌≡◌, ◌++◌, ◌∷◌, [], false, All, IfOk, List, None, OnOk};
ghost use Rattle.crate_tables.specs.CrateTables.{IsNameOf};
ghost use Rattle.crate_tables.specs.DeclaredWorlds as spec;
ghost use Rattle.dm_base.specs.Tree.{same_module};
ghost use Rattle.dm_maps.specs.First.{IsChecked};
ghost use Rattle.dm_maps.specs.Holding.{import_holds};
ghost use Rattle.dm_maps.specs.declared.check.held.HeldId.{HeldId};
ghost use Rattle.dm_base.specs.declared.ids.ModuleId.{ModuleId};
ghost use Rattle.dm_maps.specs.Known.{KnowsAll};
ghost use Rattle.dm_maps.specs.PushRes.{StaysShown};
ghost use Rattle.dm_maps.specs.World.{scope_of};
ghost use Rattle.dm_scope.specs.Flags.{no_globs};
ghost use Rattle.dm_scope.specs.Shows.{ScopePush, Shows};

use crate::declared_name::DeclaredName;
use dm_base::imports::ImportOrExternCrate;
use dm_base::per_ns::PerNs;
use dm_maps::builder::WorldBuilder;
use dm_maps::world::World;
use dm_scope::glob_imports::PerNsGlobImports;
use std::alloc::{AllocError, Global};

/// The extern crate that a type came by, if it did.
fn extern_crate_of(items: &PerNs) -> Option<ImportOrExternCrate>
    ensures exact { result ≡ spec.extern_crate_of items.now }
    ensures free { option_map_or import_holds result [] ≡ [] }
{
    match items.types {
        None => None,
        Some(item) => match item.import {
            Some(ImportOrExternCrate::ExternCrate(id)) => {
                Some(ImportOrExternCrate::ExternCrate(id))
            }
            _ => None,
        },
    }
}

/// Declares a name in its module.
fn declare(
    world: &mut World,
    globs: &mut PerNsGlobImports,
    alloc: Global,
    declared: &DeclaredName,
) -> Result<(), AllocError>
    requires { IsNameOf world.old declared.now }
    ensures world { OnOk result (world.new ≡ (spec.with_declared
        (record { world = world.old; globs = globs.old }) declared.now).world) }
    ensures globs { OnOk result (globs.new ≡ (spec.with_declared
        (record { world = world.old; globs = globs.old }) declared.now).globs) }
    ensures shown { OnOk result ((ps : List ScopePush) → Shows (scope_of world.old declared.now.home) globs.old declared.now.home ps
        → Shows (scope_of world.new declared.now.home) globs.new declared.now.home
        (ps ++ spec.declared_push declared.now ∷ [])) }
    ensures elsewhere { (k : ModuleId) → same_module declared.now.home k ≡ false
        → StaysShown world.old globs.old world.new globs.new k }
    ensures stays { (hs : List HeldId) → KnowsAll world.old hs → KnowsAll world.new hs }
{
    let lookup = (declared.home, declared.name.copy(alloc)?);
    let import = extern_crate_of(&declared.items);
    world.push_res(globs, lookup, declared.items, import)?;
    Ok(())
}

/// Declares names in their modules, in order.
fn declare_all(
    world: &mut World,
    globs: &mut PerNsGlobImports,
    alloc: Global,
    names: &[DeclaredName],
) -> Result<(), AllocError>
    requires known { All (IsNameOf world.old) names.now }
    requires empty { spec.AreShown world.old globs.old [] }
    ensures exact { OnOk result ((record { world = world.new; globs = globs.new }) ≡
        spec.with_all_declared (record { world = world.old; globs = globs.old }) names.now) }
    ensures shown { OnOk result (spec.AreShown world.new globs.new names.now) }
    ensures stays { (hs : List HeldId) → KnowsAll world.old hs → KnowsAll world.new hs }
{
    for declared in names {
        declare(world, globs, alloc, declared)?;
    }
    Ok(())
}

/// The world of tables that hold no id but their own.
fn world_of(tables: WorldBuilder) -> World
    requires { IsChecked tables }
    ensures { result ≡ tables }
{
    match tables.check() {
        Ok(world) => world,
        Err(_refused) => unreachable!(),
    }
}

/// The world of tables that hold no id but their own, and whose modules bind nothing yet, with names declared in it, one
/// push after another: so each module shows what is declared there, and nothing else of the tables changes.
///
/// # Errors
///
/// Fails only where memory runs out.
pub fn declared_world(
    alloc: Global,
    tables: WorldBuilder,
    names: &[DeclaredName],
) -> Result<(World, PerNsGlobImports), AllocError>
    requires checked { IsChecked tables }
    requires known { All (IsNameOf tables) names.now }
    requires empty { spec.BindNothing tables }
    ensures exact { IfOk result (λ made. (record { world = made.0; globs = made.1 }) ≡
        spec.with_all_declared (record { world = tables; globs = no_globs }) names.now) }
    ensures shown { IfOk result (λ made. spec.AreShown made.0 made.1 names.now) }
    ensures stays { IfOk result (λ made. (hs : List HeldId) → KnowsAll tables hs → KnowsAll made.0 hs) }
{
    let mut world = world_of(tables);
    let mut globs = PerNsGlobImports::new(alloc);
    declare_all(&mut world, &mut globs, alloc, names)?;
    Ok((world, globs))
}
