//! Unnamed traits and `macro_use` preludes, once names are bound, until none gets anything more.
ghost use Rattle.std.specs.Prelude.{◌≡◌, false, true, All, IfOk};
ghost use Rattle.dm_collector.specs.MacroPreludes.{HasMacros};
ghost use Rattle.dm_collector.specs.Steps.{Given, IsReached, StillShow, count, maps_with};
ghost use Rattle.dm_collector.specs.UnnamedTraits.{HasBrought, HasImported};

mod bring;
pub(crate) mod use_macros;

use crate::macro_uses::MacroUses;
use bring::{bring_all, import_traits};
use dm_imports::importing::Importing;
use dm_imports::slots::Slots;
use dm_maps::world::World;
use std::alloc::{AllocError, Global};
use use_macros::use_all;

/// Has imports as `_` and globs bring unnamed traits; or where there were none left, gives crates the macros that they use.
/// Answers whether there was anything to do.
fn write(
    world: &mut World,
    given: &Importing<'_>,
    ambiguous: &Slots<bool>,
    uses: &[MacroUses],
    alloc: Global,
) -> Result<bool, AllocError>
    ensures same { IfOk result (λ written. written ≡ false → world.new ≡ world.old) }
    ensures imported { IfOk result (λ written. written ≡ false
        → All (HasImported (maps_with given.now ambiguous.now world.old)) given.now.imports.now) }
    ensures brought { IfOk result (λ written. written ≡ false
        → All (HasBrought (maps_with given.now ambiguous.now world.old)) given.now.globs.now) }
    ensures used { IfOk result (λ written. written ≡ false → All (HasMacros world.old) uses.now) }
    ensures reached { IfOk result (λ written. (x : Given) → x.imports ≡ given.now.imports.now
        → x.globs ≡ given.now.globs.now → x.uses ≡ uses.now
        → IsReached (maps_with given.now ambiguous.now) x (count written) world.old world.new) }
    ensures shown { StillShow world.old world.new }
{
    if import_traits(world, given, ambiguous)? {
        return Ok(true);
    }
    if bring_all(world, given, ambiguous)? {
        return Ok(true);
    }
    let used = use_all(world, uses, alloc)?;
    Ok(used)
}

/// Does so at most `limit` times, until nothing is left to do. Answers whether that was reached.
///
/// Fails only where memory runs out.
pub(crate) fn settle(
    world: &mut World,
    given: &Importing<'_>,
    ambiguous: &Slots<bool>,
    uses: &[MacroUses],
    limit: u32,
    alloc: Global,
) -> Result<bool, AllocError>
    ensures imported { IfOk result (λ settled. settled ≡ true
        → All (HasImported (maps_with given.now ambiguous.now world.new)) given.now.imports.now) }
    ensures brought { IfOk result (λ settled. settled ≡ true
        → All (HasBrought (maps_with given.now ambiguous.now world.new)) given.now.globs.now) }
    ensures used { IfOk result (λ settled. settled ≡ true → All (HasMacros world.new) uses.now) }

    // What it writes on its way: steps of these imports, globs and crates, one after another. Where it answers false,
    // `limit` steps at least wrote something.
    ensures reached { IfOk result (λ settled. (x : Given) → x.imports ≡ given.now.imports.now
        → x.globs ≡ given.now.globs.now → x.uses ≡ uses.now
        → IsReached (maps_with given.now ambiguous.now) x 0 world.old world.new) }
    ensures limited { IfOk result (λ settled. settled ≡ false → (x : Given) → x.imports ≡ given.now.imports.now
        → x.globs ≡ given.now.globs.now → x.uses ≡ uses.now
        → IsReached (maps_with given.now ambiguous.now) x limit world.old world.new) }
    ensures shown { StillShow world.old world.new }
{
    for _ in 0..limit {
        if !write(world, given, ambiguous, uses, alloc)? {
            return Ok(true);
        }
    }
    Ok(false)
}
