//! The layers of names that a first segment is looked up in.
ghost use Rattle.std.specs.Prelude.{◌≡◌};
ghost use Rattle.dm_base.specs.PerNs.{keep};
ghost use Rattle.dm_base.specs.Tree.{IsKnown};
ghost use Rattle.dm_maps.specs.Trees.{tree_of};
ghost use Rattle.dm_maps.specs.Known.{KnowsAll};
ghost use Rattle.dm_maps.specs.Holding.{res_holds, local_holds};
ghost use Rattle.dm_def_map.specs.Maps.{LocalMap};
ghost use Rattle.dm_maps.specs.Readings.{setting_of, read};
ghost use Rattle.hir_def_map.specs.Paths.{fits, fitting, by_crate, legacy, extern_prelude, macro_use_prelude, prelude, of_prelude, builtin, root_scope};

use bitflags::Flags;
use dm_base::builtin_type::BuiltinType;
use dm_base::ids::{ExternCrateId, MapId, ModuleId};
use dm_base::imports::ImportOrExternCrate;
use dm_base::item_ids::{MacroId, ModuleDefId};
use dm_base::macros::MacroCallStyles;
use dm_base::module_tree::ModuleTree;
use dm_base::name::Name;
use dm_base::per_ns::{MacrosItem, PerNs};
use dm_base::visibility::Visibility;
use dm_maps::local_def_map::LocalDefMap;
use dm_maps::modes::MacroSubNs;
use dm_maps::rules::Rules;
use dm_maps::world::World;
use dm_maps::world::maps_of::macro_styles_from_id;

/// Whether a macro may be called as is expected.
#[tactic(auto, unfolding(dm_maps::specs::Readings::setting_of))]
fn fits(world: &World, expected: Option<MacroSubNs>, m: MacroId) -> bool
    ensures { result ≡ fits (setting_of world.now) expected m }
{
    match expected {
        None => true,
        Some(MacroSubNs::Bang) => macro_styles_from_id(world, m).contains(MacroCallStyles::FN_LIKE),
        Some(MacroSubNs::Attr) => {
            let styles = macro_styles_from_id(world, m);
            styles.contains(MacroCallStyles::ATTR) || styles.contains(MacroCallStyles::DERIVE)
        }
    }
}

fn fitting_macro(
    world: &World,
    expected: Option<MacroSubNs>,
    item: Option<MacrosItem>,
) -> Option<MacrosItem>
    ensures { result ≡ keep (λ i. fits (setting_of world.now) expected i.def) item }
{
    item.filter(|i| fits(world, expected, i.def))
}

/// The items without a macro that does not fit.
pub(crate) fn fitting(world: &World, expected: Option<MacroSubNs>, x: PerNs) -> PerNs
    requires { KnowsAll world.now (res_holds x) }
    ensures value { result ≡ fitting (setting_of world.now) expected x }
    ensures known { KnowsAll world.now (res_holds result) }
{
    PerNs {
        macros: fitting_macro(world, expected, x.macros),
        ..x
    }
}

/// What a prelude has, by the version of the rules: in the second without a macro that does not fit.
#[tactic(auto, unfolding(dm_maps::specs::Readings::setting_of))]
fn of_prelude(world: &World, expected: Option<MacroSubNs>, x: PerNs) -> PerNs
    requires { KnowsAll world.now (res_holds x) }
    ensures value { result ≡ of_prelude (setting_of world.now) expected x }
    ensures known { KnowsAll world.now (res_holds result) }
{
    match world.rules() {
        Rules::V1 => x,
        Rules::V2 => fitting(world, expected, x),
    }
}

fn by_crate(krate: Option<ExternCrateId>) -> Option<ImportOrExternCrate>
    ensures { result ≡ by_crate krate }
{
    krate.map(ImportOrExternCrate::ExternCrate)
}

/// The module of the extern prelude.
#[tactic(auto, unfolding(dm_maps::specs::Readings::read))]
pub(crate) fn extern_prelude(world: &World, local: &LocalDefMap, segment: &Name) -> PerNs
    requires { KnowsAll world.now (local_holds local.now) }
    ensures value { result ≡ extern_prelude (read world.now local.now segment.now) }
    ensures known { KnowsAll world.now (res_holds result) }
{
    match local.get(segment) {
        None => PerNs::none(),
        Some((m, krate)) => PerNs::types(
            ModuleDefId::ModuleId(m),
            Visibility::Public,
            by_crate(krate),
        ),
    }
}

/// The macro of a map's macro_use prelude, whatever is expected.
#[tactic(auto, unfolding(dm_maps::specs::Readings::read))]
fn macro_use_prelude(world: &World, id: MapId, segment: &Name) -> PerNs
    ensures value { (L : LocalMap) → result ≡ macro_use_prelude id (read world.now L segment.now) }
    ensures known { KnowsAll world.now (res_holds result) }
{
    match world.macro_use_of(id, segment) {
        None => PerNs::none(),
        Some(entry) => PerNs::macros(entry.0, Visibility::Public, by_crate(entry.1)),
    }
}

/// The macro of a map's macro_use prelude, by the version of the rules.
pub(crate) fn macro_use_layer(
    world: &World,
    expected: Option<MacroSubNs>,
    id: MapId,
    segment: &Name,
) -> PerNs
    ensures value { (L : LocalMap) →
        result ≡ of_prelude (setting_of world.now) expected
        (macro_use_prelude id (read world.now L segment.now)) }
    ensures known { KnowsAll world.now (res_holds result) }
{
    of_prelude(world, expected, macro_use_prelude(world, id, segment))
}

/// What the scope of a map's prelude module binds, whatever is expected.
#[tactic(auto, unfolding(dm_maps::specs::Readings::read, dm_maps::specs::Readings::setting_of))]
pub(crate) fn prelude(world: &World, id: MapId, segment: &Name) -> PerNs
    ensures value { (L : LocalMap) →
        result ≡ prelude (setting_of world.now) id (read world.now L segment.now) }
    ensures known { KnowsAll world.now (res_holds result) }
{
    match world.prelude_of(id) {
        None => PerNs::none(),
        Some(m) => world.bound_in(m, segment),
    }
}

/// What the scope of a map's prelude module binds, by the version of the rules.
pub(crate) fn prelude_layer(
    world: &World,
    expected: Option<MacroSubNs>,
    id: MapId,
    segment: &Name,
) -> PerNs
    ensures value { (L : LocalMap) →
        result ≡ of_prelude (setting_of world.now) expected
        (prelude (setting_of world.now) id (read world.now L segment.now)) }
    ensures known { KnowsAll world.now (res_holds result) }
{
    of_prelude(world, expected, prelude(world, id, segment))
}

/// The builtin type.
#[tactic(auto, unfolding(dm_maps::specs::Readings::read))]
pub(crate) fn builtin(world: &World, segment: &Name) -> PerNs
    ensures value { (L : LocalMap) → result ≡ builtin (read world.now L segment.now) }
    ensures known { KnowsAll world.now (res_holds result) }
{
    match BuiltinType::by_name(segment) {
        None => PerNs::none(),
        Some(ty) => PerNs::types(ModuleDefId::BuiltinType(ty), Visibility::Public, None),
    }
}

/// What the scope of the root of a module's crate binds.
#[tactic(auto, unfolding(dm_maps::specs::Readings::read, dm_maps::specs::Readings::setting_of))]
pub(crate) fn root_scope(world: &World, m: ModuleId, segment: &Name) -> PerNs
    requires { IsKnown (tree_of world.now) m }
    ensures value { (L : LocalMap) →
        result ≡ root_scope (setting_of world.now) m (read world.now L segment.now) }
    ensures known { KnowsAll world.now (res_holds result) }
{
    match world.root_of(world.krate(m)) {
        None => PerNs::none(),
        Some(root) => world.bound_in(root, segment),
    }
}

/// The last legacy macro of a name in a module, if it fits: in textual scope (`macro_rules!` and `#[macro_use]` before
/// macros 2.0, where a macro is visible in the text after it) a later macro shadows an earlier one.
#[tactic(auto, unfolding(dm_maps::specs::Readings::read))]
pub(crate) fn legacy(
    world: &World,
    expected: Option<MacroSubNs>,
    m: ModuleId,
    segment: &Name,
) -> PerNs
    ensures value { (L : LocalMap) →
        result ≡ legacy (setting_of world.now) expected m (read world.now L segment.now) }
    ensures known { KnowsAll world.now (res_holds result) }
{
    match world.legacy_of(m, segment) {
        None => PerNs::none(),
        Some(l) => if fits(world, expected, l) {
            PerNs::macros(l, Visibility::Public, None)
        } else {
            PerNs::none()
        },
    }
}
