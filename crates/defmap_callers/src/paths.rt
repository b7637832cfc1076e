//! Example callers, shown in docs/USING.md: path resolution.
ghost use Rattle.std.specs.Prelude.{◌≡◌, false, IfOk, IsTrue, None, OnErr, Some, slice_get};
ghost use Rattle.dm_base.specs.declared.imports.ImportOrExternCrate.TheVariants.{Import};
ghost use Rattle.dm_maps.specs.declared.check.held.HeldId.TheVariants as held;
ghost use Rattle.dm_maps.specs.Holding.{local_holds, path_holds, res_holds};
ghost use Rattle.dm_maps.specs.Pushes.{push_holds};
ghost use Rattle.dm_maps.specs.Cut.{among};
ghost use Rattle.dm_maps.specs.Known.{knows, KnowsAll};
ghost use Rattle.dm_maps.specs.World.{crate_map, scope_of};
ghost use Rattle.dm_def_map.specs.Maps.{LocalMap, Map};
ghost use Rattle.dm_def_map.specs.declared.modules.modes.BuiltinShadowMode.TheVariants.{Module};
ghost use Rattle.dm_scope.specs.Shows.{PushShows, push_of};
ghost use Rattle.hir_def_map.specs.Paths.{answer, asked};
ghost use Rattle.hir_def_map.specs.declared.path_resolution.result.ResolveMode.TheVariants.{Other};

use dm_base::ids::{Crate, ModuleId};
use dm_base::imports::{ImportId, ImportOrExternCrate};
use dm_base::mod_path::ModPath;
use dm_base::name::Name;
use dm_base::per_ns::PerNs;
use dm_maps::local_def_map::LocalDefMap;
use dm_maps::modes::BuiltinShadowMode;
use dm_maps::world::World;
use dm_maps::world::maps_of::{crate_def_map, local_def_map};
use dm_scope::glob_imports::PerNsGlobImports;
use hir_def_map::laws::answers_alike;
use hir_def_map::path_resolution::ResolvePath;
use hir_def_map::result::{ResolveMode, ResolvePathResult};
use std::alloc::AllocError;

/// What a path means in the root of a crate, by the crate's own extern prelude.
pub fn meaning_in_root(world: &World, krate: Crate, path: &ModPath) -> PerNs
    requires krate { IsTrue (knows world.now (held.Crate krate)) }
    requires path { KnowsAll world.now (path_holds path.now.kind) }
    ensures value { (map : Map) (local : LocalMap) → crate_map world.now krate ≡ Some map →
        slice_get world.now.local_maps krate.0 ≡ Some local →
        result ≡ (answer world.now local (asked map.root Other Module None path.now.kind)
        path.now.segments).resolved_def }
    ensures known { KnowsAll world.now (res_holds result) }
{
    let map = crate_def_map(world, krate);
    let local = local_def_map(world, krate);
    let root = map.root_module_id();
    let (found, _left) = map.resolve_path(
        local,
        world,
        root,
        path,
        BuiltinShadowMode::Module,
        None,
    );
    found
}

/// What a path means in a module.
pub fn meaning(world: &World, local: &LocalDefMap, m: ModuleId, path: &ModPath) -> ResolvePathResult
    requires m { IsTrue (knows world.now (held.Module m)) }
    requires local { KnowsAll world.now (local_holds local.now) }
    requires path { KnowsAll world.now (path_holds path.now.kind) }
    ensures value { result
        ≡ answer world.now local.now (asked m Other Module None path.now.kind) path.now.segments }
    ensures known { KnowsAll world.now (res_holds result.resolved_def) }
{
    let map = world.map_of(m).unwrap();
    let mode = ResolveMode::Other;
    map.resolve_path_fp_with_macro(local, world, mode, m, path, BuiltinShadowMode::Module, None)
}

/// Brings what a path means in a module into it under a name, as an import does: the list of pushes that the module's
/// scope shows has it last.
pub fn bring_in(
    world: &mut World,
    globs: &mut PerNsGlobImports,
    local: &LocalDefMap,
    path: &ModPath,
    lookup: (ModuleId, Name),
    import: ImportId,
) -> Result<bool, AllocError>
    requires m { IsTrue (knows world.old (held.Module lookup.0)) }
    requires local { KnowsAll world.old (local_holds local.now) }
    requires path { KnowsAll world.old (path_holds path.now.kind) }
    requires import { IsTrue (knows world.old (held.Use import.use_)) }
    ensures shown { PushShows (scope_of world.old lookup.0) globs.old (scope_of world.new lookup.0) globs.new
        lookup.0 (push_of lookup.1 (answer world.old local.now
        (asked lookup.0 Other Module None path.now.kind) path.now.segments).resolved_def
        (Some (Import import))) result }
    ensures err { OnErr result (world.new ≡ world.old) }
{
    let found = meaning(world, local, lookup.0, path).resolved_def;
    world.push_res(
        globs,
        lookup,
        found,
        Some(ImportOrExternCrate::Import(import)),
    )
}

/// What a path means in a module, by the extern prelude of a crate, before and after a push under a name that is no
/// segment of it: the same.
pub fn before_and_after(
    world: &mut World,
    globs: &mut PerNsGlobImports,
    krate: Crate,
    m: ModuleId,
    path: &ModPath,
    lookup: (ModuleId, Name),
    items: PerNs,
) -> Result<(ResolvePathResult, ResolvePathResult), AllocError>
    requires krate { IsTrue (knows world.old (held.Crate krate)) }
    requires m { IsTrue (knows world.old (held.Module m)) }
    requires path { KnowsAll world.old (path_holds path.now.kind) }
    requires push { KnowsAll world.old (push_holds lookup.0 items None) }
    requires other { among path.now.segments lookup.1 ≡ false }
    ensures { IfOk result (λ answers. answers.0 ≡ answers.1) }
{
    let before = meaning(world, local_def_map(world, krate), m, path);
    world.push_res(globs, lookup, items, None)?;
    let after = meaning(world, local_def_map(world, krate), m, path);
    answers_alike();
    Ok((before, after))
}
