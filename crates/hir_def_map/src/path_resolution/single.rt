//! Path resolution at one place: in a module, or in the preludes of a map.
ghost use Rattle.std.specs.Prelude.{◌≡◌, ◌<◌, ◌≤◌, ◌∷◌, if◌then◌else◌, length, map};
ghost use Rattle.dm_base.specs.Tree.{IsKnown};
ghost use Rattle.dm_maps.specs.Known.{KnowsAll};
ghost use Rattle.dm_maps.specs.Holding.{res_holds, local_holds};
ghost use Rattle.dm_def_map.specs.Maps.{LocalMap};
ghost use Rattle.dm_maps.specs.Readings.{setting_of, read};
ghost use Rattle.dm_maps.specs.Trees.{tree_of};
ghost use Rattle.hir_def_map.specs.Answers.{nothing_no};
ghost use Rattle.hir_def_map.specs.Paths.{stop, enter, root_item, from_root, from_super, by_first_segment, single, IsKnownPlace};

use crate::path_resolution::answers::{nothing_no, nothing_yes, yes_in_block};
use crate::path_resolution::first_segment::{is_missed, layers};
use crate::path_resolution::first_type::first_type;
use crate::path_resolution::place::Place;
use crate::path_resolution::question::Ask;
use crate::path_resolution::result::ResolvePathResult;
use crate::path_resolution::segments::walk;
use dm_base::ids::{Crate, ModuleId};
use dm_base::item_ids::ModuleDefId;
use dm_base::mod_path::PathKind;
use dm_base::module_tree::ModuleTree;
use dm_base::name::Name;
use dm_base::per_ns::PerNs;
use dm_base::visibility::Visibility;
use dm_maps::local_def_map::LocalDefMap;
use dm_maps::world::World;

/// The answer at the first stop of the segments, seen from `from`, where `position` segments are behind.
fn answer_from(
    world: &World,
    from: ModuleId,
    here: PerNs,
    position: usize,
    segments: &[Name],
) -> ResolvePathResult
    requires from { IsKnown (tree_of world.now) from }
    requires known { KnowsAll world.now (res_holds here) }
    requires position { position ≤ 1 }
    ensures value { (L : LocalMap) →
        result ≡ stop (enter (tree_of world.now)) (tree_of world.now) from here position
        (map (read world.now L) segments.now) }
    ensures known { KnowsAll world.now (res_holds result.resolved_def) }
{
    walk(world, from, &here, position, segments)
}

/// A module, as what a path has resolved to so far.
fn root_item(world: &World, m: ModuleId) -> PerNs
    requires { IsKnown (tree_of world.now) m }
    ensures value { result ≡ root_item m }
    ensures known { KnowsAll world.now (res_holds result) }
{
    PerNs::types(ModuleDefId::ModuleId(m), Visibility::Public, None)
}

/// Resolves from the root of a crate.
#[tactic(auto, unfolding(dm_maps::specs::Readings::setting_of))]
fn from_root(world: &World, m: ModuleId, krate: Crate, segments: &[Name]) -> ResolvePathResult
    requires { IsKnown (tree_of world.now) m }
    ensures value { (L : LocalMap) →
        result ≡ from_root (setting_of world.now) m krate (map (read world.now L) segments.now) }
    ensures known { KnowsAll world.now (res_holds result.resolved_def) }
{
    match world.root_of(krate) {
        None => nothing_yes(),
        Some(root) => answer_from(world, m, root_item(world, root), 0, segments),
    }
}

/// What `self::` and the segments answer from a module.
fn enter(world: &World, m: ModuleId, segments: &[Name]) -> ResolvePathResult
    requires { IsKnown (tree_of world.now) m }
    ensures value { (L : LocalMap) →
        result ≡ enter (tree_of world.now) m (map (read world.now L) segments.now) }
    ensures known { KnowsAll world.now (res_holds result.resolved_def) }
{
    let inside = world.home(m);
    let answer = answer_from(world, inside, root_item(world, inside), 0, segments);
    yes_in_block(world.block(inside).is_some(), answer)
}

/// Resolves from ancestor `k`, as `k` times `super::`, and `self::` where it is 0; roots of blocks do not count. One of
/// another map is entered.
fn from_super(world: &World, m: ModuleId, k: u8, segments: &[Name]) -> ResolvePathResult
    requires { IsKnown (tree_of world.now) m }
    ensures value { (L : LocalMap) →
        result ≡ from_super (tree_of world.now) m k (map (read world.now L) segments.now) }
    ensures known { KnowsAll world.now (res_holds result.resolved_def) }
{
    match world.outer_member(m, k) {
        None => nothing_yes(),
        Some(outer) => if world.krate(outer) == world.krate(m)
            && world.block(outer) == world.block(m)
        {
            answer_from(world, m, root_item(world, outer), 0, segments)
        } else {
            enter(world, outer, segments)
        },
    }
}

/// The answer after a first segment, by what it selects.
fn after_first(
    world: &World,
    from: ModuleId,
    found: PerNs,
    missed: bool,
    rest: &[Name],
) -> ResolvePathResult
    requires from { IsKnown (tree_of world.now) from }
    requires known { KnowsAll world.now (res_holds found) }
    ensures value { (L : LocalMap) → result ≡ (if missed then nothing_no else
        stop (enter (tree_of world.now)) (tree_of world.now) from found 1
        (map (read world.now L) rest.now)) }
    ensures known { KnowsAll world.now (res_holds result.resolved_def) }
{
    if missed {
        nothing_no()
    } else {
        answer_from(world, from, found, 1, rest)
    }
}

/// The answer of a path that begins with a name or `::`, and goes on behind it: by the type alone that it selects.
#[tactic(auto, unfolding(dm_maps::specs::Readings::setting_of))]
fn through_first(
    world: &World,
    local: &LocalDefMap,
    ask: &Ask,
    place: Place,
    segment: &Name,
    rest: &[Name],
) -> ResolvePathResult
    requires place_known { IsKnownPlace (tree_of world.now) place }
    requires local_known { KnowsAll world.now (local_holds local.now) }
    requires goes_on { 0 < length rest.now }
    ensures value { result ≡ by_first_segment (setting_of world.now) ask.now place
        (map (read world.now local.now) (segment.now ∷ rest.now)) }
    ensures known { KnowsAll world.now (res_holds result.resolved_def) }
{
    let found = PerNs {
        types: first_type(world, local, ask, place, segment),
        values: None,
        macros: None,
    };
    let missed = is_missed(world, ask, place, &found);
    after_first(world, place.seen_from(), found, missed, rest)
}

/// A path that begins with a name or `::`: resolves its first segment, and goes on from there.
#[tactic(auto, unfolding(dm_maps::specs::Readings::setting_of))]
fn by_first_segment(
    world: &World,
    local: &LocalDefMap,
    ask: &Ask,
    place: Place,
    segments: &[Name],
) -> ResolvePathResult
    requires place_known { IsKnownPlace (tree_of world.now) place }
    requires local_known { KnowsAll world.now (local_holds local.now) }
    ensures value { result ≡ by_first_segment (setting_of world.now) ask.now place
        (map (read world.now local.now) segments.now) }
    ensures known { KnowsAll world.now (res_holds result.resolved_def) }
{
    match segments.split_first() {
        None => nothing_yes(),
        Some((segment, rest)) => if rest.is_empty() {
            let found = layers(world, local, ask, place, segment);
            let missed = is_missed(world, ask, place, &found);
            after_first(world, place.seen_from(), found, missed, rest)
        } else {
            through_first(world, local, ask, place, segment, rest)
        },
    }
}

/// Path resolution at one place: in a module, or in the preludes of a map.
#[tactic(auto, unfolding(dm_maps::specs::Readings::setting_of))]
pub(crate) fn single(
    world: &World,
    local: &LocalDefMap,
    ask: &Ask,
    place: Place,
    segments: &[Name],
) -> ResolvePathResult
    requires place_known { IsKnownPlace (tree_of world.now) place }
    requires local_known { KnowsAll world.now (local_holds local.now) }
    ensures value { result ≡
        single (setting_of world.now) ask.now (map (read world.now local.now) segments.now) place }
    ensures known { KnowsAll world.now (res_holds result.resolved_def) }
{
    match (place, ask.kind) {
        (Place::In(m), PathKind::Crate) => from_root(world, m, world.krate(m), segments),
        (Place::In(m), PathKind::DollarCrate(krate)) => from_root(world, m, krate, segments),
        (Place::In(m), PathKind::Super(k)) => from_super(world, m, k, segments),
        (_, PathKind::Plain | PathKind::Abs) => by_first_segment(
            world, local, ask, place, segments,
        ),
        _ => nothing_yes(),
    }
}
