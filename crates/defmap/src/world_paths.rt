//! What paths mean in a world, and who sees what. Nothing where the world has not what these name.
ghost use Rattle.std.specs.Prelude.{◌↔◌, IsTrue};
ghost use Rattle.dm_base.specs.Visibility.{NamesKnown};
ghost use Rattle.dm_maps.specs.Trees.{tree_of};

use dm_base::ids::ModuleId;
use dm_base::item_ids::ModuleDefId;
use dm_base::item_in_ns::ItemModules;
use dm_base::mod_path::ModPath;
use dm_base::module_tree::ModuleTree;
use dm_base::visibility::Visibility;
use dm_maps::modes::{BuiltinShadowMode, MacroSubNs};
use dm_maps::world::World;
use dm_maps::world::maps_of::local_def_map;
use hir_def_map::path_resolution::ResolvePath;
use hir_def_map::result::{ResolveMode, ResolvePathResult};

/// What a path means in a module, of an import or not, where a kind of macro is expected, or none.
fn meaning_with(
    world: &World,
    mode: ResolveMode,
    m: ModuleId,
    path: &ModPath,
    expected: Option<MacroSubNs>,
) -> Option<ResolvePathResult> {
    if !world.knows_def(ModuleDefId::ModuleId(m)) || !world.knows_path(path) {
        return None;
    }
    let krate = world.module_krate(m)?;
    let map = world.map_of(m)?;
    let local = local_def_map(world, krate);
    let shadow = BuiltinShadowMode::Module;
    Some(map.resolve_path_fp_with_macro(local, world, mode, m, path, shadow, expected))
}

/// What a path of a `use` means in a module.
pub(crate) fn import_meaning(
    world: &World,
    m: ModuleId,
    path: &ModPath,
) -> Option<ResolvePathResult> {
    meaning_with(world, ResolveMode::Import, m, path, None)
}

/// What a path that is no import's means in a module.
pub(crate) fn meaning(world: &World, m: ModuleId, path: &ModPath) -> Option<ResolvePathResult> {
    meaning_with(world, ResolveMode::Other, m, path, None)
}

/// What the path of a macro that is called means in a module.
pub(crate) fn macro_meaning(
    world: &World,
    m: ModuleId,
    path: &ModPath,
) -> Option<ResolvePathResult> {
    meaning_with(world, ResolveMode::Other, m, path, Some(MacroSubNs::Bang))
}

/// Whether the module that a visibility names, if it names one, is the world's.
#[tactic(auto, unfolding(dm_maps::specs::Trees::tree_of))]
fn is_named(world: &World, visibility: Visibility) -> bool
    ensures { IsTrue result ↔ NamesKnown (tree_of world.now) visibility }
{
    match visibility {
        Visibility::Module(m, _) => world.has(m),
        Visibility::PubCrate(_) => true,
        Visibility::Public => true,
    }
}

/// Whether a module sees what has a visibility.
pub(crate) fn sees(world: &World, from: ModuleId, visibility: Visibility) -> bool {
    if world.has(from) && is_named(world, visibility) {
        visibility.is_visible_from(world, from)
    } else {
        false
    }
}
