//! Resolves the first segment of a path that goes on: as a type alone, by which it goes on.
ghost use Rattle.std.specs.Prelude.{◌≡◌, false};
ghost use Rattle.std.specs.Option.{option_or};
ghost use Rattle.dm_base.specs.PerNs.{overlay};
ghost use Rattle.dm_base.specs.Tree.{IsKnown};
ghost use Rattle.dm_maps.specs.Holding.{local_holds, res_holds};
ghost use Rattle.dm_def_map.specs.Maps.{LocalMap};
ghost use Rattle.dm_maps.specs.Known.{KnowsAll};
ghost use Rattle.dm_maps.specs.Readings.{read, setting_of};
ghost use Rattle.dm_maps.specs.Trees.{tree_of};
ghost use Rattle.hir_def_map.specs.Paths.{IsKnownPlace, builtins_of, extern_prelude, layers, plain_layers, prelude, unless_block_root};
ghost use Rattle.hir_def_map.specs.Walk.{in_types};
ghost use Rattle.hir_def_map.specs.declared.path_resolution.place.Place.TheVariants.{In};

use crate::path_resolution::first_segment::{builtins_of, by_2015_rule, layers_by_2015_rule};
use crate::path_resolution::layers::{extern_prelude, prelude};
use crate::path_resolution::place::Place;
use crate::path_resolution::question::Ask;
use dm_base::ids::{MapId, ModuleId};
use dm_base::mod_path::PathKind;
use dm_base::module_tree::ModuleTree;
use dm_base::name::Name;
use dm_base::per_ns::TypesItem;
use dm_maps::local_def_map::LocalDefMap;
use dm_maps::world::World;

/// The type that the preludes of a map have: that of the extern prelude, or of the prelude module.
fn prelude_type(world: &World, local: &LocalDefMap, id: MapId, segment: &Name) -> Option<TypesItem>
    requires { KnowsAll world.now (local_holds local.now) }
    ensures value { result ≡ option_or (extern_prelude (read world.now local.now segment.now)).types
        (prelude (setting_of world.now) id (read world.now local.now segment.now)).types }
    ensures known { KnowsAll world.now (res_holds (in_types result)) }
{
    let outer = extern_prelude(world, local, segment);
    if outer.types.is_some() {
        return outer.types;
    }
    prelude(world, id, segment).types
}

/// The type that a module sees behind its scope: a builtin one, or that of the preludes, which a block's root skips.
#[tactic(auto, unfolding(dm_maps::specs::Readings::setting_of))]
fn outer_type(world: &World, local: &LocalDefMap, m: ModuleId, segment: &Name) -> Option<TypesItem>
    requires module_known { IsKnown (tree_of world.now) m }
    requires local_known { KnowsAll world.now (local_holds local.now) }
    ensures value { result ≡ option_or
        (builtins_of (setting_of world.now) m (read world.now local.now segment.now)).types
        (option_or (unless_block_root (setting_of world.now) m
        (extern_prelude (read world.now local.now segment.now))).types
        (unless_block_root (setting_of world.now) m
        (prelude (setting_of world.now) ((setting_of world.now).tree.map_of m)
        (read world.now local.now segment.now))).types) }
    ensures known { KnowsAll world.now (res_holds (in_types result)) }
{
    let builtin = builtins_of(world, m, segment);
    if builtin.types.is_some() {
        return builtin.types;
    }
    if world.is_block_root(m) {
        return None;
    }
    let id = Place::In(m).map(world);
    prelude_type(world, local, id, segment)
}

/// The type of a path without `::`, at a module.
#[tactic(auto, unfolding(dm_maps::specs::Readings::read, dm_maps::specs::Readings::setting_of))]
fn plain_type_at(
    world: &World,
    local: &LocalDefMap,
    ask: &Ask,
    m: ModuleId,
    segment: &Name,
) -> Option<TypesItem>
    requires module_known { IsKnown (tree_of world.now) m }
    requires local_known { KnowsAll world.now (local_holds local.now) }
    ensures value { result ≡ (overlay (plain_layers (setting_of world.now) ask.now (In m)
        (read world.now local.now segment.now) false)).types }
    ensures known { KnowsAll world.now (res_holds (in_types result)) }
{
    match world.type_in(m, segment) {
        Some(item) => Some(*item),
        None => outer_type(world, local, m, segment),
    }
}

/// The type of a path without `::`.
#[tactic(auto, unfolding(dm_maps::specs::Readings::read, dm_maps::specs::Readings::setting_of))]
fn plain_type(
    world: &World,
    local: &LocalDefMap,
    ask: &Ask,
    place: Place,
    segment: &Name,
) -> Option<TypesItem>
    requires place_known { IsKnownPlace (tree_of world.now) place }
    requires local_known { KnowsAll world.now (local_holds local.now) }
    ensures value { result ≡ (overlay (plain_layers (setting_of world.now) ask.now place
        (read world.now local.now segment.now) false)).types }
    ensures known { KnowsAll world.now (res_holds (in_types result)) }
{
    match place {
        Place::In(m) => plain_type_at(world, local, ask, m, segment),
        Place::Preludes(id, _) => prelude_type(world, local, id, segment),
    }
}

/// The type that a first segment selects, where segments are left.
#[tactic(auto, unfolding(dm_maps::specs::Readings::read, dm_maps::specs::Readings::setting_of))]
pub(crate) fn first_type(
    world: &World,
    local: &LocalDefMap,
    ask: &Ask,
    place: Place,
    segment: &Name,
) -> Option<TypesItem>
    requires place_known { IsKnownPlace (tree_of world.now) place }
    requires local_known { KnowsAll world.now (local_holds local.now) }
    ensures value { result ≡ (overlay (layers (setting_of world.now) ask.now place
        (read world.now local.now segment.now) false)).types }
    ensures known { KnowsAll world.now (res_holds (in_types result)) }
{
    if by_2015_rule(world, ask, place) {
        return layers_by_2015_rule(world, local, place, segment).types;
    }
    match ask.kind {
        PathKind::Abs => extern_prelude(world, local, segment).types,
        _ => plain_type(world, local, ask, place, segment),
    }
}
