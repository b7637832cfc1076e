//! What the path of an import means in a world.
ghost use Rattle.std.specs.Prelude.{◌≡◌, IsTrue};
ghost use Rattle.dm_maps.specs.declared.check.held.HeldId.TheVariants as held;
ghost use Rattle.dm_maps.specs.Holding.{local_holds, path_holds, res_holds};
ghost use Rattle.dm_maps.specs.Known.{knows, KnowsAll};
ghost use Rattle.dm_retry.specs.Rounds.{local_of, path_meaning};

use dm_base::ids::ModuleId;
use dm_base::item_in_ns::ItemModules;
use dm_base::mod_path::ModPath;
use dm_maps::local_def_map::LocalDefMap;
use dm_maps::modes::BuiltinShadowMode;
use dm_maps::world::World;
use dm_maps::world::maps_of::local_def_map;
use hir_def_map::path_resolution::ResolvePath;
use hir_def_map::result::{ResolveMode, ResolvePathResult};

/// The extern prelude of a module's crate.
fn local_of(world: &World, m: ModuleId) -> &LocalDefMap
    requires { IsTrue (knows world.now (held.Module m)) }
    ensures value { result.now ≡ local_of world.now m }
    ensures known { KnowsAll world.now (local_holds result.now) }
{
    let krate = world.module_krate(m).unwrap();
    local_def_map(world, krate)
}

/// What a path resolves to for an import of a module, named or a glob. Does not allocate.
///
/// The module has to be the world's, and so has the crate of the path's `$crate`: `knows_def` and `knows_path` test it.
pub fn path_meaning(world: &World, m: ModuleId, path: &ModPath) -> ResolvePathResult
    requires module_known { IsTrue (knows world.now (held.Module m)) }
    requires path_known { KnowsAll world.now (path_holds path.now.kind) }
    ensures value { result ≡ path_meaning world.now m path.now }
    ensures known { KnowsAll world.now (res_holds result.resolved_def) }
{
    let map = world.map_of(m).unwrap();
    let local = local_of(world, m);
    let mode = ResolveMode::Import;
    let shadow = BuiltinShadowMode::Module;
    map.resolve_path_fp_with_macro(local, world, mode, m, path, shadow, None)
}
