//! Example callers, shown in docs/USING.md: what stays where something is set, where a scope is written, and where a
//! world is pushed into.
ghost use Rattle.std.specs.Prelude.{◌≡◌, ◌↔◌, false, IfOk, IsTrue, None, OnErr, OnOk, Some, slice_get};
ghost use Rattle.dm_base.specs.declared.ids.ModuleId.{ModuleId};
ghost use Rattle.dm_base.specs.PerNs.{type_alone};
ghost use Rattle.dm_base.specs.Tree.{IsKnown, crate_of, same_module};
ghost use Rattle.dm_maps.specs.Holding.{path_holds};
ghost use Rattle.dm_maps.specs.TablesHold.{raw_holds};
ghost use Rattle.dm_maps.specs.declared.check.held.HeldId.TheVariants as held;
ghost use Rattle.dm_maps.specs.Pushes.{push_holds};
ghost use Rattle.dm_maps.specs.BuildMaps.{with_prelude};
ghost use Rattle.dm_maps.specs.Known.{knows, KnowsAll};
ghost use Rattle.dm_maps.specs.Trees.{tree_of};
ghost use Rattle.dm_maps.specs.World.{crate_map, scope_of};
ghost use Rattle.dm_def_map.specs.Maps.{LocalMap, Map};
ghost use Rattle.dm_def_map.specs.declared.modules.modes.BuiltinShadowMode.TheVariants.{Module};
ghost use Rattle.dm_scope.specs.Shows.{PushShows, push_of};
ghost use Rattle.hir_def_map.specs.Paths.{asked, prelude_answer};
ghost use Rattle.hir_def_map.specs.RawVisibilities.{raw_visibility};
ghost use Rattle.hir_def_map.specs.declared.path_resolution.result.ResolveMode.TheVariants.{Other};
ghost use Rattle.defmap_callers.specs.Maps.{LiesIn};

use crate::scopes;
use dm_base::ids::{Crate, MapId, ModuleId};
use dm_base::item_ids::ModuleDefId;
use dm_base::mod_path::ModPath;
use dm_base::name::Name;
use dm_base::per_ns::PerNs;
use dm_base::visibility::{RawVisibility, Visibility};
use dm_maps::build_fault::BuildFault;
use dm_maps::builder::WorldBuilder;
use dm_maps::laws::settings_keep_scopes;
use dm_maps::modes::BuiltinShadowMode;
use dm_maps::world::World;
use dm_maps::world::maps_of::{crate_def_map, local_def_map};
use dm_scope::glob_imports::PerNsGlobImports;
use hir_def_map::laws::questions_stay_known;
use hir_def_map::path_resolution::ResolvePath;
use hir_def_map::result::{ResolveMode, ResolvePathResult};
use std::alloc::AllocError;

/// Sets the prelude module of a map: no scope changes.
pub fn set_prelude_of(
    builder: &mut WorldBuilder,
    map: MapId,
    prelude: ModuleId,
) -> Result<(), BuildFault>
    ensures ok { OnOk result (builder.new ≡ with_prelude builder.old map (Some (prelude, None))) }
    ensures err { OnErr result (builder.new ≡ builder.old) }
    ensures scopes { (m : ModuleId) → scope_of builder.new m ≡ scope_of builder.old m }
{
    settings_keep_scopes();
    builder.set_prelude(map, Some((prelude, None)))?;
    Ok(())
}

/// Declares a public type in a module of tables that are not checked yet: no other scope changes.
pub fn declare_in_tables(
    builder: &mut WorldBuilder,
    globs: &mut PerNsGlobImports,
    lookup: (ModuleId, Name),
    def: ModuleDefId,
) -> Result<bool, AllocError>
    requires { IsTrue (knows builder.old (held.Module lookup.0)) }
    ensures shown { PushShows (scope_of builder.old lookup.0) globs.old (scope_of builder.new lookup.0)
        globs.new lookup.0 (push_of lookup.1 (type_alone def Visibility.Public None) None)
        result }
    ensures others { (k : ModuleId) → same_module lookup.0 k ≡ false
        → scope_of builder.new k ≡ scope_of builder.old k }
{
    builder.scope_facts_of(lookup.0);
    let scope = builder.scope_mut(lookup.0).unwrap();
    let written = scopes::declare_type(scope, globs, lookup, def)?;
    Ok(written)
}

/// What a path means in the preludes of a crate after a push, seen from a module of the crate. The question may be
/// asked, since it could be asked before the push.
pub fn in_preludes_after(
    world: &mut World,
    globs: &mut PerNsGlobImports,
    krate: Crate,
    m: ModuleId,
    path: &ModPath,
    lookup: (ModuleId, Name),
    items: PerNs,
) -> Result<ResolvePathResult, AllocError>
    requires krate { IsTrue (knows world.old (held.Crate krate)) }
    requires m { IsKnown (tree_of world.old) m }
    requires of_crate { crate_of (tree_of world.old) m ≡ krate }
    requires path { KnowsAll world.old (path_holds path.now.kind) }
    requires push { KnowsAll world.old (push_holds lookup.0 items None) }
    ensures { (M : Map) (L : LocalMap) → crate_map world.new krate ≡ Some M →
        slice_get world.new.local_maps krate.0 ≡ Some L →
        IfOk result (λ answer. answer ≡ prelude_answer world.new L M.id
        (asked m Other Module None path.now.kind) path.now.segments) }
{
    questions_stay_known();
    let _map = crate_def_map(world, krate);
    let _local = local_def_map(world, krate);
    world.push_res(globs, lookup, items, None)?;
    let map = crate_def_map(world, krate);
    let local = local_def_map(world, krate);
    let mode = ResolveMode::Other;
    let shadow = BuiltinShadowMode::Module;
    Ok(map.resolve_path_fp_in_all_preludes(local, world, mode, m, path, shadow))
}

/// Whether a module lies in the map of a crate itself, and in none of its blocks.
pub fn lies_in(world: &World, krate: Crate, m: ModuleId) -> bool
    requires { IsTrue (knows world.now (held.Crate krate)) }
    ensures { IsTrue result ↔ LiesIn world.now krate m }
{
    crate_def_map(world, krate).has(m)
}

/// What a visibility that is written in a module of a crate's map means after a push: it may be asked, since it could
/// be asked before.
pub fn visibility_after(
    world: &mut World,
    globs: &mut PerNsGlobImports,
    krate: Crate,
    m: ModuleId,
    written: &RawVisibility,
    lookup: (ModuleId, Name),
    items: PerNs,
) -> Result<Option<Visibility>, AllocError>
    requires krate { IsTrue (knows world.old (held.Crate krate)) }
    requires m { LiesIn world.old krate m }
    requires written { KnowsAll world.old (raw_holds written.now) }
    requires push { KnowsAll world.old (push_holds lookup.0 items None) }
    ensures { (M : Map) (L : LocalMap) → crate_map world.new krate ≡ Some M →
        slice_get world.new.local_maps krate.0 ≡ Some L →
        IfOk result (λ vis. vis ≡ raw_visibility world.new L M m false written.now) }
{
    questions_stay_known();
    let _map = crate_def_map(world, krate);
    let _local = local_def_map(world, krate);
    world.push_res(globs, lookup, items, None)?;
    let map = crate_def_map(world, krate);
    let local = local_def_map(world, krate);
    Ok(map.resolve_visibility(local, world, m, written, false))
}
