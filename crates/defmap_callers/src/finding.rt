//! Example callers, shown in docs/USING.md: what completion, import finding and bodies ask for, and dumps.
ghost use Rattle.std.specs.Prelude.{◌≡◌, IfOk, IsTrue, None, Some, map, slice_get, string_bytes};
ghost use Rattle.std.specs.List.{filter_map};
ghost use Rattle.dm_maps.specs.declared.check.held.HeldId.TheVariants as held;
ghost use Rattle.dm_maps.specs.Holding.{local_holds, path_holds};
ghost use Rattle.dm_maps.specs.Known.{knows, KnowsAll};
ghost use Rattle.dm_maps.specs.MapDumps.{map_dump};
ghost use Rattle.dm_maps.specs.World.{crate_map, scope_of};
ghost use Rattle.dm_def_map.specs.Maps.{Map};
ghost use Rattle.dm_def_map.specs.declared.modules.modes.BuiltinShadowMode.TheVariants.{Module};
ghost use Rattle.dm_scope.specs.Lookups.{names_for};
ghost use Rattle.dm_scope.specs.Sorted.{AreEntries, deref_entry};
ghost use Rattle.hir_def_map.specs.Paths.{answer_alone, asked};
ghost use Rattle.hir_def_map.specs.declared.path_resolution.result.ResolveMode.TheVariants.{Other};
ghost use Rattle.defmap_callers.specs.Finding.{public_name};

use dm_base::ids::{Crate, ModuleId};
use dm_base::item_in_ns::ItemInNs;
use dm_base::mod_path::ModPath;
use dm_base::name::Name;
use dm_base::per_ns::PerNs;
use dm_base::visibility::Visibility;
use dm_maps::local_def_map::LocalDefMap;
use dm_maps::modes::BuiltinShadowMode;
use dm_maps::world::World;
use dm_maps::world::maps_of::{AskWorld, crate_def_map};
use dm_scope::item_scope::ItemScope;
use dm_scope::scope_tables::ScopeTables;
use hir_def_map::path_resolution::ResolvePath;
use std::alloc::AllocError;

/// What completion offers of a module: its names in order, each with what it is bound to.
pub fn offered(world: &World, m: ModuleId) -> Result<Vec<(&Name, PerNs)>, AllocError>
    requires { IsTrue (knows world.now (held.Module m)) }
    ensures { IfOk result (λ v. AreEntries (map deref_entry v.items) (scope_of world.now m)) }
{
    let scope = world.scope_of(m).unwrap();
    scope.entries()
}

/// Whether a module shows an item to every crate, and then whether it declares it: what the first such name says.
pub fn is_exported(scope: &ItemScope, item: ItemInNs) -> Option<bool>
    ensures { result ≡ slice_get (filter_map public_name (names_for item scope.now)) 0 }
{
    scope.names_of(
        item,
        |_name: &Name, vis: Visibility, is_declared: bool| -> Option<bool> {
            if vis.is_public() {
                Some(is_declared)
            } else {
                None
            }
        },
    )
}

/// What a path in a body means in a block alone, without the modules around the block and without the preludes: a
/// resolver of bodies asks so at each block, between the local variables of one block and of the next.
pub fn meaning_in_block(world: &World, local: &LocalDefMap, m: ModuleId, path: &ModPath) -> PerNs
    requires m { IsTrue (knows world.now (held.Module m)) }
    requires local { KnowsAll world.now (local_holds local.now) }
    requires path { KnowsAll world.now (path_holds path.now.kind) }
    ensures { result ≡ (answer_alone world.now local.now (asked m Other Module None path.now.kind)
        path.now.segments).resolved_def }
{
    let map = world.map_of(m).unwrap();
    let (found, _left, _through) = map.resolve_path_locally(
        local,
        world,
        m,
        path,
        BuiltinShadowMode::Module,
    );
    found
}

/// The dump of the map of a crate.
pub fn dumped(world: &World, krate: Crate) -> Result<String, AllocError>
    requires { IsTrue (knows world.now (held.Crate krate)) }
    ensures { (map : Map) → crate_map world.now krate ≡ Some map →
        IfOk result (λ text. string_bytes text ≡ map_dump world.now map) }
{
    let map = crate_def_map(world, krate);
    map.dump(world)
}
