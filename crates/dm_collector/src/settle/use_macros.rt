//! Crates get the macros that they use.
ghost use Rattle.std.specs.Prelude.{◌≡◌, [], false, is_some, true, All, Contains, IfOk, None, OnOk};
ghost use Rattle.dm_collector.specs.MacroPreludes as spec;
ghost use Rattle.dm_collector.specs.Steps.{Given, IsReached, MapsOf, StillShow, count, with_macro_used};

use crate::macro_preludes::{missing_macro, missing_macro_names, own_map};
use crate::macro_uses::MacroUses;
use dm_base::name::Name;
use dm_maps::world::World;
use std::alloc::{AllocError, Global};

/// Gives the `macro_use` prelude of each crate what it has yet to get, once. Answers whether one had anything to get.
pub(crate) fn use_all(
    world: &mut World,
    uses: &[MacroUses],
    alloc: Global,
) -> Result<bool, AllocError>
    ensures same { IfOk result (λ written. written ≡ false → world.new ≡ world.old) }
    ensures used { IfOk result (λ written. written ≡ false → All (spec.HasMacros world.old) uses.now) }
    ensures reached { IfOk result (λ written. (d : MapsOf) (x : Given) → x.uses ≡ uses.now
        → IsReached d x (count written) world.old world.new) }
    ensures shown { StillShow world.old world.new }
{
    let mut written = false;
    for used in uses {
        written |= use_macros(world, used, alloc)?;
    }
    Ok(written)
}

/// Gives the `macro_use` prelude of a crate what it has yet to get. Answers whether there was anything.
pub(crate) fn use_macros(
    world: &mut World,
    uses: &MacroUses,
    alloc: Global,
) -> Result<bool, AllocError>
    ensures same { IfOk result (λ written. written ≡ false → world.new ≡ world.old) }
    ensures used { IfOk result (λ written. written ≡ false → spec.HasMacros world.old uses.now) }
    ensures reached { IfOk result (λ written. (d : MapsOf) (x : Given) → Contains x.uses uses.now
        → IsReached d x (count written) world.old world.new) }
    ensures shown { StillShow world.old world.new }
{
    let names = missing_macro_names(alloc, world, uses)?;
    let written = use_each(world, uses, names)?;
    Ok(written)
}

/// The same under each of these names in turn.
fn use_each(world: &mut World, uses: &MacroUses, names: Vec<Name>) -> Result<bool, AllocError>
    ensures same { IfOk result (λ written. written ≡ false → world.new ≡ world.old) }
    ensures idle { IfOk result
        (λ written. written ≡ false → All (λ n. spec.missing_macro world.old uses.now n ≡ None) names.items) }
    ensures reached { IfOk result (λ written. (d : MapsOf) (x : Given) → Contains x.uses uses.now
        → IsReached d x (count written) world.old world.new) }
    ensures shown { StillShow world.old world.new }
{
    let mut written = false;
    for name in names {
        written |= use_macro(world, uses, name)?;
    }
    Ok(written)
}

/// The same under a name.
fn use_macro(world: &mut World, uses: &MacroUses, name: Name) -> Result<bool, AllocError>
    ensures ok { OnOk result (world.new ≡ with_macro_used world.old uses.now name) }
    ensures answer { IfOk result (λ written. written ≡ is_some (spec.missing_macro world.old uses.now name)) }
    ensures same { IfOk result (λ written. written ≡ false → world.new ≡ world.old) }
    ensures none { IfOk result (λ written. written ≡ false → spec.missing_macro world.old uses.now name ≡ None) }
    ensures shown { StillShow world.old world.new }
{
    let Some((id, brought_by)) = missing_macro(world, uses, &name) else {
        return Ok(false);
    };
    world.add_macro_use(own_map(uses.krate()), name, id, brought_by)?;
    Ok(true)
}
