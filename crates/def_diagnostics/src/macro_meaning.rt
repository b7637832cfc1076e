//! What the paths of macro calls mean in a world.
ghost use Rattle.std.specs.Prelude.{◌≡◌, ◌↔◌, IsTrue};
ghost use Rattle.def_diagnostics.specs.MacroMeanings as spec;
ghost use Rattle.dm_maps.specs.Holding.{local_holds, path_holds, res_holds};
ghost use Rattle.dm_maps.specs.declared.check.held.HeldId.TheVariants as held;
ghost use Rattle.dm_maps.specs.Known.{knows, KnowsAll};
ghost use Rattle.dm_retry.specs.Rounds.{local_of};

use dm_base::ids::ModuleId;
use dm_base::item_ids::{MacroId, ModuleDefId};
use dm_base::item_in_ns::ItemModules;
use dm_base::mod_path::{ModPath, PathKind};
use dm_maps::local_def_map::LocalDefMap;
use dm_maps::modes::{BuiltinShadowMode, MacroSubNs};
use dm_maps::world::World;
use dm_maps::world::maps_of::local_def_map;
use hir_def_map::path_resolution::ResolvePath;
use hir_def_map::result::{ResolveMode, ResolvePathResult};

/// The extern prelude of a module's crate.
fn local_of(world: &World, m: ModuleId) -> &LocalDefMap
    requires { IsTrue (knows world.now (held.Module m)) }
    ensures value { result.now ≡ local_of world.now m }
    ensures known { KnowsAll world.now (local_holds result.now) }
{
    let krate = world.module_krate(m).unwrap();
    local_def_map(world, krate)
}

/// Whether a module is the world's.
pub fn knows_module(world: &World, m: ModuleId) -> bool
    ensures { result ≡ knows world.now (held.Module m) }
{
    world.knows_def(ModuleDefId::ModuleId(m))
}

/// Whether the crate of a path's `$crate` is the world's, if the path has one.
pub(crate) fn knows_path(world: &World, path: &ModPath) -> bool
    ensures exact { result ≡ spec.knows_path world.now path.now.kind }
    ensures known { IsTrue result → KnowsAll world.now (path_holds path.now.kind) }
{
    match path.kind() {
        PathKind::DollarCrate(krate) => world.has_crate(krate),
        _ => true,
    }
}

/// What the path of a call `path!(..)` in a module resolves to, in the textual scope of the module's end. Does not
/// allocate.
///
/// The module has to be the world's, and so has the crate of the path's `$crate`: `knows_def` and `knows_path` test it.
pub fn macro_meaning(world: &World, m: ModuleId, path: &ModPath) -> ResolvePathResult
    requires module_known { IsTrue (knows world.now (held.Module m)) }
    requires path_known { KnowsAll world.now (path_holds path.now.kind) }
    ensures { result ≡ spec.macro_meaning world.now m path.now }
{
    let map = world.map_of(m).unwrap();
    let local = local_of(world, m);
    let mode = ResolveMode::Other;
    let shadow = BuiltinShadowMode::Module;
    let expected = Some(MacroSubNs::Bang);
    map.resolve_path_fp_with_macro(local, world, mode, m, path, shadow, expected)
}

/// The macro that an answer has, where no segment is left.
fn macro_in(answer: &ResolvePathResult) -> Option<MacroId>
    ensures { result ≡ spec.macro_in answer.now }
{
    if answer.segment_index.is_some() {
        return None;
    }
    let item = answer.resolved_def.macros?;
    Some(item.def)
}

/// The macro that a call of a path in a module calls; none where the path leads nowhere. Does not allocate.
///
/// The module has to be the world's, and so has the crate of the path's `$crate`.
pub fn called_macro(world: &World, m: ModuleId, path: &ModPath) -> Option<MacroId>
    requires module_known { IsTrue (knows world.now (held.Module m)) }
    requires path_known { KnowsAll world.now (path_holds path.now.kind) }
    ensures { result ≡ spec.called_macro world.now m path.now }
{
    macro_in(&macro_meaning(world, m, path))
}
