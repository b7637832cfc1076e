//! Walks from a def map outwards: from a block's to that of the module around it. Nothing here allocates.
ghost use Rattle.std.specs.Prelude.{◌≡◌, IfSome, IsSome, Some};
ghost use Rattle.std.specs.Option.{option_map};
ghost use Rattle.dm_maps.specs.MapFacts.{IsMapOf};
ghost use Rattle.dm_maps.specs.Outwards.{maps_outwards, next_outwards, AsksMaps, MayAskMaps};
ghost use Rattle.dm_maps.specs.Trees.{IsWorld};
ghost use Rattle.dm_maps.specs.World.{numbered_map};
ghost use Rattle.dm_def_map.specs.Maps.{module_at};

use crate::world::World;
use dm_base::ids::ModuleId;
use dm_def_map::def_map::DefMap;

/// The first `Some` that the closure `f` returns for a map, from `first` outwards.
pub(crate) fn ask_outwards<T, F: FnMut(&DefMap, ModuleId) -> Option<T> + Drop>(
    world: &World,
    first: &DefMap,
    m: ModuleId,
    mut f: F,
) -> Option<T>
    requires { MayAskMaps world.now F.pre F.step (maps_outwards world.now first.now m) f }
    ensures { (last : F) × AsksMaps F.step (maps_outwards world.now first.now m) f result last }
{
    let mut map = first;
    let mut at = m;
    'maps: loop {
        match f(map, at) {
            Some(answer) => return Some(answer),
            None => {}
        }
        match next_outwards(world, map) {
            None => return None,
            Some((outer, container)) => {
                map = outer;
                at = container;
            }
        }
    }
}

/// The map of the module that contains a map's block, with that module; none for a crate's map.
pub(super) fn next_outwards<'a>(world: &'a World, map: &DefMap) -> Option<(&'a DefMap, ModuleId)>
    ensures value { option_map (λ x. (x.0.now, x.1)) result ≡ next_outwards world.now map.now }
    ensures own { IfSome result (λ x. numbered_map world.now x.0.now.id ≡ Some x.0.now) }
    ensures facts { IfSome result (λ x. IsMapOf world.now x.0.now) }
    ensures lies { IfSome result (λ x. IsSome (module_at x.0.now.modules x.1)) }
    ensures lawful { IsWorld world.now }
{
    let _tables = world.tables();
    if map.block_id().is_none() {
        return None;
    }
    let container = map.parent()?;
    let outer = world.map_of(container)?;
    Some((outer, container))
}
