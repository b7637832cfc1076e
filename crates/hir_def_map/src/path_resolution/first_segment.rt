//! Resolves the first segment of a path of one name: layers of names, each of which shadows the next.
ghost use Rattle.std.specs.Prelude.{◌≡◌, ◌∷◌, [], not, true};
ghost use Rattle.dm_base.specs.PerNs.{over, overlay};
ghost use Rattle.dm_base.specs.Tree.{IsKnown};
ghost use Rattle.dm_maps.specs.Known.{KnowsAll};
ghost use Rattle.dm_maps.specs.Holding.{res_holds, local_holds};
ghost use Rattle.dm_def_map.specs.Maps.{LocalMap};
ghost use Rattle.dm_maps.specs.Readings.{setting_of, read};
ghost use Rattle.dm_maps.specs.Trees.{tree_of};
ghost use Rattle.dm_maps.specs.World.{scope_of};
ghost use Rattle.dm_scope.specs.Scope.{bound_in};
ghost use Rattle.hir_def_map.specs.Paths.{asks_root, are_builtins_first, builtins_of, builtins_or_scope, unless_block_root, by_2015_rule, layers_by_2015_rule, extern_prelude, macro_use_prelude, prelude, of_prelude, plain_layers, layers, missed, IsKnownPlace};
ghost use Rattle.hir_def_map.specs.declared.path_resolution.place.Place.TheVariants.{In};

use crate::path_resolution::layers::{
    builtin, extern_prelude, fitting, legacy, macro_use_layer, prelude_layer, root_scope,
};
use crate::path_resolution::place::Place;
use crate::path_resolution::question::Ask;
use crate::path_resolution::result::ResolveMode;
use crate::path_resolution::type_module::type_module;
use dm_base::ids::{MapId, ModuleId};
use dm_base::mod_path::PathKind;
use dm_base::module_tree::ModuleTree;
use dm_base::name::Name;
use dm_base::per_ns::PerNs;
use dm_maps::local_def_map::LocalDefMap;
use dm_maps::modes::{BuiltinShadowMode, MacroSubNs};
use dm_maps::world::World;

/// Whether edition 2015 answers the question from the crate's root.
fn asks_root(ask: &Ask) -> bool
    ensures { result ≡ asks_root ask.now }
{
    match ask.kind {
        PathKind::Abs => true,
        PathKind::Plain => matches!(ask.mode, ResolveMode::Import),
        _ => false,
    }
}

/// Whether builtin types shadow the scope, which binds `own`, for a path of one name.
fn are_builtins_first(ask: &Ask, own: &PerNs) -> bool
    ensures { result ≡ are_builtins_first ask.now own.now true }
{
    matches!(ask.shadow, BuiltinShadowMode::Other) && type_module(own.types).is_some()
}

/// The builtin type of a name, which no block's map has.
#[tactic(auto, unfolding(dm_maps::specs::Readings::read, dm_maps::specs::Readings::setting_of))]
pub(crate) fn builtins_of(world: &World, m: ModuleId, segment: &Name) -> PerNs
    requires { IsKnown (tree_of world.now) m }
    ensures value { (L : LocalMap) →
        result ≡ builtins_of (setting_of world.now) m (read world.now L segment.now) }
    ensures known { KnowsAll world.now (res_holds result) }
{
    match world.block(m) {
        Some(_) => PerNs::none(),
        None => builtin(world, segment),
    }
}

/// What was found, over the builtin types, which are types alone: they are looked up only while there is no type.
fn over_builtins(world: &World, m: ModuleId, segment: &Name, found: PerNs) -> PerNs
    requires module_known { IsKnown (tree_of world.now) m }
    requires known { KnowsAll world.now (res_holds found) }
    ensures value { (L : LocalMap) →
        result ≡ over found (builtins_of (setting_of world.now) m (read world.now L segment.now)) }
    ensures known { KnowsAll world.now (res_holds result) }
{
    if found.types.is_some() {
        return found;
    }
    found.or(builtins_of(world, m, segment))
}

/// What was found, over the module's scope, which binds `bound`, and the builtin types, in their order.
#[tactic(auto, unfolding(dm_maps::specs::Readings::read))]
fn over_scope(
    world: &World,
    ask: &Ask,
    m: ModuleId,
    segment: &Name,
    bound: PerNs,
    builtins_first: bool,
    found: PerNs,
) -> PerNs
    requires module_known { IsKnown (tree_of world.now) m }
    requires bound { bound ≡ bound_in (scope_of world.now m) segment.now }
    requires bound_known { KnowsAll world.now (res_holds bound) }
    requires known { KnowsAll world.now (res_holds found) }
    ensures value { (L : LocalMap) → result ≡ over (over found
        (builtins_or_scope (setting_of world.now) ask.now m (read world.now L segment.now) builtins_first))
        (builtins_or_scope (setting_of world.now) ask.now m (read world.now L segment.now) (not builtins_first)) }
    ensures known { KnowsAll world.now (res_holds result) }
{
    let own = fitting(world, ask.expected, bound);
    if builtins_first {
        over_builtins(world, m, segment, found).or(own)
    } else {
        over_builtins(world, m, segment, found.or(own))
    }
}

/// The extern prelude, which a block's root skips.
#[tactic(auto, unfolding(dm_maps::specs::Readings::setting_of))]
fn extern_layer(world: &World, local: &LocalDefMap, m: ModuleId, segment: &Name) -> PerNs
    requires module_known { IsKnown (tree_of world.now) m }
    requires local_known { KnowsAll world.now (local_holds local.now) }
    ensures value { result ≡ unless_block_root (setting_of world.now) m
        (extern_prelude (read world.now local.now segment.now)) }
    ensures known { KnowsAll world.now (res_holds result) }
{
    if world.is_block_root(m) {
        return PerNs::none();
    }
    extern_prelude(world, local, segment)
}

/// What was found, over the extern prelude, which has types alone: it is looked up only while there is no type.
fn over_extern(
    world: &World,
    local: &LocalDefMap,
    m: ModuleId,
    segment: &Name,
    found: PerNs,
) -> PerNs
    requires module_known { IsKnown (tree_of world.now) m }
    requires local_known { KnowsAll world.now (local_holds local.now) }
    requires known { KnowsAll world.now (res_holds found) }
    ensures value { result ≡ over found (unless_block_root (setting_of world.now) m
        (extern_prelude (read world.now local.now segment.now))) }
    ensures known { KnowsAll world.now (res_holds result) }
{
    if found.types.is_some() {
        return found;
    }
    found.or(extern_layer(world, local, m, segment))
}

/// What was found, over the macro_use prelude of a map, which has macros alone: it is looked up only while there is no
/// macro.
fn over_macro_use(
    world: &World,
    expected: Option<MacroSubNs>,
    id: MapId,
    segment: &Name,
    found: PerNs,
) -> PerNs
    requires { KnowsAll world.now (res_holds found) }
    ensures value { (L : LocalMap) →
        result ≡ over found (of_prelude (setting_of world.now) expected
        (macro_use_prelude id (read world.now L segment.now))) }
    ensures known { KnowsAll world.now (res_holds result) }
{
    if found.macros.is_some() {
        return found;
    }
    found.or(macro_use_layer(world, expected, id, segment))
}

/// What the prelude module of a module's map binds, which a block's root skips.
#[tactic(auto, unfolding(dm_maps::specs::Readings::setting_of))]
fn prelude_layer_at(
    world: &World,
    expected: Option<MacroSubNs>,
    m: ModuleId,
    id: MapId,
    segment: &Name,
) -> PerNs
    requires { IsKnown (tree_of world.now) m }
    ensures value { (L : LocalMap) →
        result ≡ unless_block_root (setting_of world.now) m
        (of_prelude (setting_of world.now) expected
        (prelude (setting_of world.now) id (read world.now L segment.now))) }
    ensures known { KnowsAll world.now (res_holds result) }
{
    if world.is_block_root(m) {
        return PerNs::none();
    }
    prelude_layer(world, expected, id, segment)
}

/// What was found, over the prelude module of a module's map: it is looked up only while an item is missing.
fn over_prelude(
    world: &World,
    expected: Option<MacroSubNs>,
    m: ModuleId,
    id: MapId,
    segment: &Name,
    found: PerNs,
) -> PerNs
    requires module_known { IsKnown (tree_of world.now) m }
    requires known { KnowsAll world.now (res_holds found) }
    ensures value { (L : LocalMap) →
        result ≡ over found (unless_block_root (setting_of world.now) m
        (of_prelude (setting_of world.now) expected
        (prelude (setting_of world.now) id (read world.now L segment.now)))) }
    ensures known { KnowsAll world.now (res_holds result) }
{
    if found.is_full() {
        return found;
    }
    found.or(prelude_layer_at(world, expected, m, id, segment))
}

/// What the layers of a path without `::` select at a module.
#[tactic(auto, unfolding(dm_maps::specs::Readings::read, dm_maps::specs::Readings::setting_of))]
fn plain_layers_at(
    world: &World,
    local: &LocalDefMap,
    ask: &Ask,
    m: ModuleId,
    segment: &Name,
) -> PerNs
    requires module_known { IsKnown (tree_of world.now) m }
    requires local_known { KnowsAll world.now (local_holds local.now) }
    ensures value { result ≡ overlay (plain_layers (setting_of world.now) ask.now (In m)
        (read world.now local.now segment.now) true) }
    ensures known { KnowsAll world.now (res_holds result) }
{
    let bound = world.bound_in(m, segment);
    let builtins_first = are_builtins_first(ask, &bound);
    let textual = legacy(world, ask.expected, m, segment);
    let own = over_scope(world, ask, m, segment, bound, builtins_first, textual);
    let outer = over_extern(world, local, m, segment, own);
    let id = Place::In(m).map(world);
    let used = over_macro_use(world, ask.expected, id, segment, outer);
    over_prelude(world, ask.expected, m, id, segment, used)
}

/// What the preludes of a map select, of a path without `::`.
#[tactic(auto, unfolding(dm_maps::specs::Readings::read, dm_maps::specs::Readings::setting_of))]
fn plain_preludes(
    world: &World,
    local: &LocalDefMap,
    expected: Option<MacroSubNs>,
    id: MapId,
    segment: &Name,
) -> PerNs
    requires { KnowsAll world.now (local_holds local.now) }
    ensures value { result ≡ overlay (extern_prelude (read world.now local.now segment.now)
        ∷ of_prelude (setting_of world.now) expected
        (macro_use_prelude id (read world.now local.now segment.now))
        ∷ of_prelude (setting_of world.now) expected
        (prelude (setting_of world.now) id (read world.now local.now segment.now)) ∷ []) }
    ensures known { KnowsAll world.now (res_holds result) }
{
    let outer = extern_prelude(world, local, segment);
    let used = over_macro_use(world, expected, id, segment, outer);
    used.or(prelude_layer(world, expected, id, segment))
}

/// What the layers of a path without `::` select.
#[tactic(auto, unfolding(dm_maps::specs::Readings::read, dm_maps::specs::Readings::setting_of))]
fn plain_layers(
    world: &World,
    local: &LocalDefMap,
    ask: &Ask,
    place: Place,
    segment: &Name,
) -> PerNs
    requires place_known { IsKnownPlace (tree_of world.now) place }
    requires local_known { KnowsAll world.now (local_holds local.now) }
    ensures value { result ≡ overlay (plain_layers (setting_of world.now) ask.now place
        (read world.now local.now segment.now) true) }
    ensures known { KnowsAll world.now (res_holds result) }
{
    match place {
        Place::In(m) => plain_layers_at(world, local, ask, m, segment),
        Place::Preludes(id, _) => plain_preludes(world, local, ask.expected, id, segment),
    }
}

/// Whether the question is answered by the rule of edition 2015, at a place.
#[tactic(auto, unfolding(dm_maps::specs::Readings::setting_of))]
pub(crate) fn by_2015_rule(world: &World, ask: &Ask, place: Place) -> bool
    requires { IsKnownPlace (tree_of world.now) place }
    ensures { result ≡ by_2015_rule (setting_of world.now) ask.now place }
{
    asks_root(ask) && world.is_2015(place.map(world).krate)
}

/// What edition 2015 selects: the scope of the crate's root, and the extern prelude.
pub(crate) fn layers_by_2015_rule(
    world: &World,
    local: &LocalDefMap,
    place: Place,
    segment: &Name,
) -> PerNs
    requires place_known { IsKnownPlace (tree_of world.now) place }
    requires local_known { KnowsAll world.now (local_holds local.now) }
    ensures value { result ≡ overlay (layers_by_2015_rule (setting_of world.now) place
        (read world.now local.now segment.now)) }
    ensures known { KnowsAll world.now (res_holds result) }
{
    match place {
        Place::In(m) => over_extern(world, local, m, segment, root_scope(world, m, segment)),
        Place::Preludes(..) => extern_prelude(world, local, segment),
    }
}

/// What the layers of a first segment select, which is the last, too.
#[tactic(auto, unfolding(dm_maps::specs::Readings::read, dm_maps::specs::Readings::setting_of))]
pub(crate) fn layers(
    world: &World,
    local: &LocalDefMap,
    ask: &Ask,
    place: Place,
    segment: &Name,
) -> PerNs
    requires place_known { IsKnownPlace (tree_of world.now) place }
    requires local_known { KnowsAll world.now (local_holds local.now) }
    ensures value { result ≡ overlay (layers (setting_of world.now) ask.now place
        (read world.now local.now segment.now) true) }
    ensures known { KnowsAll world.now (res_holds result) }
{
    if by_2015_rule(world, ask, place) {
        return layers_by_2015_rule(world, local, place, segment);
    }
    match ask.kind {
        PathKind::Abs => extern_prelude(world, local, segment),
        _ => plain_layers(world, local, ask, place, segment),
    }
}

/// Whether a path that begins with `::` finds nothing, where the rule of edition 2015 does not hold.
pub(crate) fn is_missed(world: &World, ask: &Ask, place: Place, found: &PerNs) -> bool
    requires { IsKnownPlace (tree_of world.now) place }
    ensures { result ≡ missed ask.now (by_2015_rule (setting_of world.now) ask.now place) found.now }
{
    match ask.kind {
        PathKind::Abs => !by_2015_rule(world, ask, place) && found.is_none(),
        _ => false,
    }
}
