//! Path resolution over a checked world.
ghost use Rattle.std.specs.Prelude.{◌≡◌, None, Some, IsSome, IsTrue};
ghost use Rattle.std.specs.Option.{ForSome};
ghost use Rattle.dm_base.specs.Tree.{IsKnown};
ghost use Rattle.dm_maps.specs.declared.check.held.HeldId.TheVariants as held;
ghost use Rattle.dm_maps.specs.Known.{knows};
ghost use Rattle.dm_maps.specs.Trees.{tree_of};
ghost use Rattle.dm_maps.specs.World.{numbered_map};
ghost use Rattle.dm_def_map.specs.Maps.{Map, module_at};
ghost use Rattle.hir_def_map.specs.declared.path_resolution.result.ResolveMode.TheVariants.{Other};
ghost use Rattle.hir_def_map.specs.Laws.{Finds, Resolves};
ghost use Rattle.hir_def_map.specs.Paths.{asked, answer, answer_alone, prelude_answer};
ghost use Rattle.hir_def_map.specs.Questions.{IsKnownQuestion, IsKnownInCrate};
ghost use Rattle.hir_def_map.specs.RawVisibilities.{raw_visibility, IsKnownVisibility, IsOfWorld};

mod answers;
mod first_segment;
mod first_type;
mod layers;
mod overlays;
mod place;
mod places;
mod question;
pub mod result;
mod segments;
mod single;
pub(crate) mod type_module;

use crate::path_resolution::place::Place;
use crate::path_resolution::places::answer_outwards;
use crate::path_resolution::question::Ask;
use crate::path_resolution::result::{ResolveMode, ResolvePathResult, ResolvePathResultPrefixInfo};
use crate::path_resolution::single::single;
use crate::visibility::{RawVisibility, Visibility, module_reached, restricted};
use dm_base::ids::ModuleId;
use dm_base::mod_path::ModPath;
use dm_base::per_ns::PerNs;
use dm_maps::def_map::DefMap;
use dm_maps::local_def_map::LocalDefMap;
use dm_maps::modes::{BuiltinShadowMode, MacroSubNs};
use dm_maps::world::World;

/// What a map resolves. No call allocates (docs/RULES.md, "Paths").
///
/// The parameters are the origin, the module that the path is written in; the local map, which is the extern prelude,
/// as `local_def_map` gives a crate's; a mode, of an import or not; `shadow`, whether builtin types may shadow modules;
/// and what kind of macro is expected. All ids have to be the world's: the map is the world's of its id, the origin
/// lies in it, or for the calls on preludes in any map of its crate, and local map and path name only what the world
/// has (`World::knows_local`, `World::knows_path`).
pub trait ResolvePath {
    /// The map, as contracts see it.
    ghost map: { Self → Map };

    /// What a path resolves to from a module of this map: definitions per namespace, the first segment that is left
    /// unresolved, the status, and what the path went through.
    fn resolve_path_fp_with_macro(
        &self,
        local: &LocalDefMap,
        world: &World,
        mode: ResolveMode,
        original_module: ModuleId,
        path: &ModPath,
        shadow: BuiltinShadowMode,
        expected_macro_subns: Option<MacroSubNs>,
    ) -> ResolvePathResult
        requires { IsKnownQuestion world.now (map self.now) local.now
            original_module path.now.kind }
        ensures { Resolves answer world.now local.now
            (asked original_module mode shadow expected_macro_subns path.now.kind)
            path.now.segments result };

    /// What a path resolves to in the origin alone, without the modules outside its block and without the preludes.
    fn resolve_path_fp_with_macro_single(
        &self,
        local: &LocalDefMap,
        world: &World,
        mode: ResolveMode,
        original_module: ModuleId,
        path: &ModPath,
        shadow: BuiltinShadowMode,
        expected_macro_subns: Option<MacroSubNs>,
    ) -> ResolvePathResult
        requires { IsKnownQuestion world.now (map self.now) local.now
            original_module path.now.kind }
        ensures { Resolves answer_alone world.now local.now
            (asked original_module mode shadow expected_macro_subns path.now.kind)
            path.now.segments result };

    /// What a path resolves to in the preludes of this map alone, seen from a module, which may lie in any map of the
    /// crate.
    fn resolve_path_fp_in_all_preludes_with_macro(
        &self,
        local: &LocalDefMap,
        world: &World,
        mode: ResolveMode,
        original_module: ModuleId,
        path: &ModPath,
        shadow: BuiltinShadowMode,
        expected_macro_subns: Option<MacroSubNs>,
    ) -> ResolvePathResult
        requires { IsKnownInCrate world.now (map self.now) local.now
            original_module path.now.kind }
        ensures { Resolves (λ w L. prelude_answer w L (map self.now).id) world.now local.now
            (asked original_module mode shadow expected_macro_subns path.now.kind)
            path.now.segments result };

    /// What a path resolves to in the preludes of this map alone, where no kind of macro is expected.
    fn resolve_path_fp_in_all_preludes(
        &self,
        local: &LocalDefMap,
        world: &World,
        mode: ResolveMode,
        original_module: ModuleId,
        path: &ModPath,
        shadow: BuiltinShadowMode,
    ) -> ResolvePathResult
        requires { IsKnownInCrate world.now (map self.now) local.now
            original_module path.now.kind }
        ensures { Resolves (λ w L. prelude_answer w L (map self.now).id) world.now local.now
            (asked original_module mode shadow None path.now.kind)
            path.now.segments result };

    /// The definitions that a path, not of an import, resolves to, and the first segment that is left.
    fn resolve_path(
        &self,
        local: &LocalDefMap,
        world: &World,
        original_module: ModuleId,
        path: &ModPath,
        shadow: BuiltinShadowMode,
        expected_macro_subns: Option<MacroSubNs>,
    ) -> (PerNs, Option<usize>)
        requires { IsKnownQuestion world.now (map self.now) local.now
            original_module path.now.kind }
        ensures { Finds answer world.now local.now
            (asked original_module Other shadow expected_macro_subns path.now.kind)
            path.now.segments result.0 result.1 };

    /// The definitions that a path, not of an import, resolves to in the origin alone, where no kind of macro is
    /// expected, the first segment that is left, and what the path went through.
    fn resolve_path_locally(
        &self,
        local: &LocalDefMap,
        world: &World,
        original_module: ModuleId,
        path: &ModPath,
        shadow: BuiltinShadowMode,
    ) -> (PerNs, Option<usize>, ResolvePathResultPrefixInfo)
        requires { IsKnownQuestion world.now (map self.now) local.now
            original_module path.now.kind }
        ensures parts { Finds answer_alone world.now local.now
            (asked original_module Other shadow None path.now.kind)
            path.now.segments result.0 result.1 }
        ensures through { result.2 ≡ (answer_alone world.now local.now
            (asked original_module Other shadow None path.now.kind)
            path.now.segments).prefix_info };

    /// What a raw visibility in a module of this map resolves to; none where its path leads to no module. Within an
    /// `impl` it may name a module of any block; elsewhere a module of another block is replaced by the map's root.
    fn resolve_visibility(
        &self,
        local: &LocalDefMap,
        world: &World,
        original_module: ModuleId,
        visibility: &RawVisibility,
        within_impl: bool,
    ) -> Option<Visibility>
        requires { IsKnownVisibility world.now (map self.now) local.now
            original_module visibility.now }
        ensures value { result ≡ raw_visibility world.now local.now (map self.now)
            original_module within_impl visibility.now }
        ensures known { ForSome result (IsOfWorld world.now) };
}

impl ResolvePath for DefMap {
    ghost map = { λ m. m };

    fn resolve_path_fp_with_macro(
        &self,
        local: &LocalDefMap,
        world: &World,
        mode: ResolveMode,
        original_module: ModuleId,
        path: &ModPath,
        shadow: BuiltinShadowMode,
        expected_macro_subns: Option<MacroSubNs>,
    ) -> ResolvePathResult {
        origin_known(world, self, original_module);
        let ask = Ask::new(
            original_module,
            mode,
            shadow,
            expected_macro_subns,
            path.kind(),
        );
        answer_outwards(world, local, &ask, path.segments())
    }

    fn resolve_path_fp_with_macro_single(
        &self,
        local: &LocalDefMap,
        world: &World,
        mode: ResolveMode,
        original_module: ModuleId,
        path: &ModPath,
        shadow: BuiltinShadowMode,
        expected_macro_subns: Option<MacroSubNs>,
    ) -> ResolvePathResult {
        origin_known(world, self, original_module);
        let ask = Ask::new(
            original_module,
            mode,
            shadow,
            expected_macro_subns,
            path.kind(),
        );
        let origin = Place::In(original_module);
        single(world, local, &ask, origin, path.segments())
    }

    fn resolve_path_fp_in_all_preludes_with_macro(
        &self,
        local: &LocalDefMap,
        world: &World,
        mode: ResolveMode,
        original_module: ModuleId,
        path: &ModPath,
        shadow: BuiltinShadowMode,
        expected_macro_subns: Option<MacroSubNs>,
    ) -> ResolvePathResult {
        let ask = Ask::new(
            original_module,
            mode,
            shadow,
            expected_macro_subns,
            path.kind(),
        );
        let preludes = Place::Preludes(self.id(), original_module);
        single(world, local, &ask, preludes, path.segments())
    }

    fn resolve_path_fp_in_all_preludes(
        &self,
        local: &LocalDefMap,
        world: &World,
        mode: ResolveMode,
        original_module: ModuleId,
        path: &ModPath,
        shadow: BuiltinShadowMode,
    ) -> ResolvePathResult {
        self.resolve_path_fp_in_all_preludes_with_macro(
            local,
            world,
            mode,
            original_module,
            path,
            shadow,
            None,
        )
    }

    fn resolve_path(
        &self,
        local: &LocalDefMap,
        world: &World,
        original_module: ModuleId,
        path: &ModPath,
        shadow: BuiltinShadowMode,
        expected_macro_subns: Option<MacroSubNs>,
    ) -> (PerNs, Option<usize>) {
        let answer = self.resolve_path_fp_with_macro(
            local,
            world,
            ResolveMode::Other,
            original_module,
            path,
            shadow,
            expected_macro_subns,
        );
        (answer.resolved_def, answer.segment_index)
    }

    fn resolve_path_locally(
        &self,
        local: &LocalDefMap,
        world: &World,
        original_module: ModuleId,
        path: &ModPath,
        shadow: BuiltinShadowMode,
    ) -> (PerNs, Option<usize>, ResolvePathResultPrefixInfo) {
        let answer = self.resolve_path_fp_with_macro_single(
            local,
            world,
            ResolveMode::Other,
            original_module,
            path,
            shadow,
            None,
        );
        (
            answer.resolved_def,
            answer.segment_index,
            answer.prefix_info,
        )
    }

    fn resolve_visibility(
        &self,
        local: &LocalDefMap,
        world: &World,
        original_module: ModuleId,
        visibility: &RawVisibility,
        within_impl: bool,
    ) -> Option<Visibility> {
        origin_known(world, self, original_module);
        match visibility {
            RawVisibility::Public => Some(Visibility::Public),
            RawVisibility::PubCrate => Some(Visibility::PubCrate(self.krate())),
            RawVisibility::PubSelf(explicitness) => {
                Some(Visibility::Module(original_module, *explicitness))
            }
            RawVisibility::Module(path, explicitness) => {
                let (found, left) = self.resolve_path(
                    local,
                    world,
                    original_module,
                    path,
                    BuiltinShadowMode::Module,
                    None,
                );
                let m = module_reached(found, left)?;
                let seen_in = restricted(world, self, within_impl, m);
                Some(Visibility::Module(seen_in, *explicitness))
            }
        }
    }
}

/// A lemma, as a function without effect: a module of a map of the world is known, and so are the map's root and crate.
fn origin_known(world: &World, map: &DefMap, m: ModuleId)
    requires map { numbered_map world.now map.now.id ≡ Some map.now }
    requires lies { IsSome (module_at map.now.modules m) }
    ensures known { IsKnown (tree_of world.now) m }
    ensures root { IsKnown (tree_of world.now) map.now.root }
    ensures krate { IsTrue (knows world.now (held.Crate map.now.id.krate)) }
{
    world.facts_of(map);
}
