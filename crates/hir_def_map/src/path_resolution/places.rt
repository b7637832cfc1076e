//! Resolves a path place by place: from the origin outwards through its blocks, and then in the preludes.
ghost use Rattle.std.specs.Prelude.{◌≡◌, ◌∷◌, map};
ghost use Rattle.dm_base.specs.Tree.{IsKnown};
ghost use Rattle.dm_maps.specs.Known.{KnowsAll};
ghost use Rattle.dm_maps.specs.Holding.{res_holds, local_holds};
ghost use Rattle.dm_maps.specs.Readings.{setting_of, read};
ghost use Rattle.dm_maps.specs.Trees.{tree_of};
ghost use Rattle.hir_def_map.specs.Answers.{merged};
ghost use Rattle.hir_def_map.specs.Paths.{single, prelude_place, places};
ghost use Rattle.hir_def_map.specs.declared.path_resolution.place.Place.TheVariants.{In};

use crate::path_resolution::answers::nothing_no;
use crate::path_resolution::place::Place;
use crate::path_resolution::question::Ask;
use crate::path_resolution::result::ResolvePathResult;
use crate::path_resolution::single::single;
use dm_base::ids::{MapId, ModuleId};
use dm_base::module_tree::ModuleTree;
use dm_base::name::Name;
use dm_base::overlay::Overlay;
use dm_maps::local_def_map::LocalDefMap;
use dm_maps::world::World;

/// What the preludes of a module's crate answer, seen from the root of its block; nothing yet where it lies in none.
#[tactic(auto, unfolding(dm_maps::specs::Readings::setting_of))]
fn preludes_of(
    world: &World,
    local: &LocalDefMap,
    ask: &Ask,
    m: ModuleId,
    segments: &[Name],
) -> ResolvePathResult
    requires module_known { IsKnown (tree_of world.now) m }
    requires local_known { KnowsAll world.now (local_holds local.now) }
    ensures value { result ≡ merged (map
        (single (setting_of world.now) ask.now (map (read world.now local.now) segments.now))
        (prelude_place (setting_of world.now) m)) }
    ensures known { KnowsAll world.now (res_holds result.resolved_def) }
{
    let Some(block) = world.block(m) else {
        return nothing_no();
    };
    let id = MapId {
        krate: world.krate(m),
        block: None,
    };
    match world.block_root_of(block) {
        None => nothing_no(),
        Some(root) => single(world, local, ask, Place::Preludes(id, root), segments),
    }
}

/// What a module answers that is no block's root, over the preludes of its crate where it lies in a block.
#[tactic(auto, unfolding(dm_maps::specs::Readings::setting_of))]
fn answer_at_home(
    world: &World,
    local: &LocalDefMap,
    ask: &Ask,
    m: ModuleId,
    segments: &[Name],
) -> ResolvePathResult
    requires module_known { IsKnown (tree_of world.now) m }
    requires local_known { KnowsAll world.now (local_holds local.now) }
    ensures value { result ≡ merged (map
        (single (setting_of world.now) ask.now (map (read world.now local.now) segments.now))
        (In m ∷ prelude_place (setting_of world.now) m)) }
    ensures known { KnowsAll world.now (res_holds result.resolved_def) }
{
    let own = single(world, local, ask, Place::In(m), segments);
    match world.block(m) {
        None => own,
        Some(_) => own.over(preludes_of(world, local, ask, m, segments)),
    }
}

/// The answer of all places, from an origin in a block outwards.
#[tactic(auto, unfolding(dm_maps::specs::Readings::setting_of))]
fn answer_through_blocks(
    world: &World,
    local: &LocalDefMap,
    ask: &Ask,
    segments: &[Name],
) -> ResolvePathResult
    requires module_known { IsKnown (tree_of world.now) ask.now.origin }
    requires local_known { KnowsAll world.now (local_holds local.now) }
    ensures value { result ≡ merged (map
        (single (setting_of world.now) ask.now (map (read world.now local.now) segments.now))
        (places (setting_of world.now) ask.now.origin)) }
    ensures known { KnowsAll world.now (res_holds result.resolved_def) }
{
    let mut answer = nothing_no();
    let mut at = ask.origin;
    'roots: while let Some(outside) = world.outside_root(at) {
        answer = answer.over(single(world, local, ask, Place::In(at), segments));
        at = outside;
    }
    answer.over(answer_at_home(world, local, ask, at, segments))
}

/// The answer of all places, from the origin outwards. An origin that is no block's root has no answers to merge but
/// those of its crate's preludes.
#[tactic(auto, unfolding(dm_maps::specs::Readings::setting_of))]
pub(crate) fn answer_outwards(
    world: &World,
    local: &LocalDefMap,
    ask: &Ask,
    segments: &[Name],
) -> ResolvePathResult
    requires module_known { IsKnown (tree_of world.now) ask.now.origin }
    requires local_known { KnowsAll world.now (local_holds local.now) }
    ensures value { result ≡ merged (map
        (single (setting_of world.now) ask.now (map (read world.now local.now) segments.now))
        (places (setting_of world.now) ask.now.origin)) }
    ensures known { KnowsAll world.now (res_holds result.resolved_def) }
{
    match world.outside_root(ask.origin) {
        None => answer_at_home(world, local, ask, ask.origin, segments),
        Some(_) => answer_through_blocks(world, local, ask, segments),
    }
}
