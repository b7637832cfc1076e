//! The imports and globs of crates, bound crate by crate.
ghost use Rattle.std.specs.Prelude.{◌≡◌, OnOk};
ghost use Rattle.dm_collector.specs.Binding as spec;
ghost use Rattle.dm_collector.specs.Steps.{Given, IsReached, MapsOf, StillShow};

use crate::macro_uses::MacroUses;
use crate::settle::use_macros::use_macros;
use dm_base::ids::Crate;
use dm_imports::bind::bind_crate;
use dm_imports::importing::Importing;
use dm_imports::slots::Slots;
use dm_imports::step::Step;
use dm_maps::world::World;
use dm_scope::glob_imports::PerNsGlobImports;
use std::alloc::{AllocError, Global};

/// Gives a crate the macros that it uses.
fn use_macros_of(
    world: &mut World,
    uses: &[MacroUses],
    krate: Crate,
    alloc: Global,
) -> Result<(), AllocError>
    ensures reached { OnOk result
        ((d : MapsOf) (x : Given) → x.uses ≡ uses.now → IsReached d x 0 world.old world.new) }
    ensures shown { StillShow world.old world.new }
{
    match uses.get(krate.0 as usize) {
        None => Ok(()),
        Some(used) => {
            let _written = use_macros(world, used, alloc)?;
            Ok(())
        }
    }
}

/// Gives a crate the macros that it uses, and binds what its imports and globs bring.
fn bind_one(
    world: &mut World,
    flags: &mut PerNsGlobImports,
    ambiguous: &mut Slots<bool>,
    steps: &mut Vec<Step>,
    alloc: Global,
    given: &Importing<'_>,
    uses: &[MacroUses],
    krate: Crate,
) -> Result<(), AllocError>
    ensures { OnOk result ((x : Given) → x.imports ≡ given.now.imports.now → x.globs ≡ given.now.globs.now
        → x.uses ≡ uses.now → spec.IsCrateBound x (record { world = world.old; flags = flags.old })
        (record { world = world.new; flags = flags.new })) }
{
    use_macros_of(world, uses, krate, alloc)?;
    bind_crate(world, flags, ambiguous, steps, alloc, given, krate)?;
    Ok(())
}

/// Gives each crate the macros that it uses, and binds what its imports and globs bring, in this order of the crates. Marks
/// the slots that are ambiguous, and adds the steps by which names came.
///
/// Fails only where memory runs out.
pub(crate) fn bind_crates(
    world: &mut World,
    flags: &mut PerNsGlobImports,
    ambiguous: &mut Slots<bool>,
    steps: &mut Vec<Step>,
    alloc: Global,
    given: &Importing<'_>,
    uses: &[MacroUses],
    order: &[Crate],
) -> Result<(), AllocError>
    ensures { OnOk result ((x : Given) → x.imports ≡ given.now.imports.now → x.globs ≡ given.now.globs.now
        → x.uses ≡ uses.now → spec.AreCratesBound x order.now (record { world = world.old; flags = flags.old })
        (record { world = world.new; flags = flags.new })) }
{
    for krate in order {
        bind_one(world, flags, ambiguous, steps, alloc, given, uses, *krate)?;
    }
    Ok(())
}
