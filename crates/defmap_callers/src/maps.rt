//! Example callers, shown in docs/USING.md: builders, checked worlds, and their def maps.
ghost use Rattle.std.specs.Prelude.{◌≡◌, ◌∷◌, [], false, None, Some, IfOk, IfSome, IsSome, IsTrue, OnErr, OnOk, length, nat_lt, slice_get};
ghost use Rattle.std.specs.List.{filter_map};
ghost use Rattle.dm_base.specs.Names.{find_name};
ghost use Rattle.dm_base.specs.declared.ids.ModuleId.{ModuleId};
ghost use Rattle.dm_base.specs.declared.imports.ImportOrExternCrate.TheVariants.{Glob};
ghost use Rattle.dm_base.specs.PerNs.{type_alone};
ghost use Rattle.dm_base.specs.Tree.{same_module};
ghost use Rattle.dm_maps.specs.Build.{no_world, with_crate, with_rules};
ghost use Rattle.dm_maps.specs.BuildCrateData.{with_data};
ghost use Rattle.dm_maps.specs.ItemHomes.{homes_of};
ghost use Rattle.dm_maps.specs.Outwards.{maps_outwards};
ghost use Rattle.dm_maps.specs.PushRes.{StaysShown};
ghost use Rattle.dm_maps.specs.World.{map_of, scope_of};
ghost use Rattle.dm_def_map.specs.Maps.{Map};
ghost use Rattle.dm_scope.specs.Shows.{PushShows, push_of};
ghost use Rattle.dm_def_map.specs.CrateData.{with_feature};
ghost use Rattle.defmap_callers.specs.Maps.{child_in};

use dm_base::ids::{BlockId, Crate, ModuleId};
use dm_base::imports::{GlobId, ImportOrExternCrate};
use dm_base::item_ids::ModuleDefId;
use dm_base::item_in_ns::ItemModules;
use dm_base::name::Name;
use dm_base::per_ns::PerNs;
use dm_base::source::{Edition, EditionedFileId};
use dm_base::symbol::Symbol;
use dm_base::visibility::Visibility;
use dm_maps::build_fault::BuildFault;
use dm_maps::builder::WorldBuilder;
use dm_maps::crate_setting::CrateSetting;
use dm_maps::def_map::DefMap;
use dm_maps::module_data::ModuleData;
use dm_maps::rules::Rules;
use dm_maps::world::World;
use dm_maps::world::maps_of::{AskWorld, block_def_map, crate_def_map};
use dm_scope::glob_imports::PerNsGlobImports;
use std::alloc::{AllocError, Global};

/// The tables of one crate, empty but for its root.
pub fn one_crate(alloc: Global, file: EditionedFileId) -> Result<WorldBuilder, BuildFault>
    ensures { IfOk result (λ tables. tables ≡ with_crate no_world Edition.Edition2021 file) }
{
    let mut builder = WorldBuilder::new(alloc);
    builder.add_crate(Edition::Edition2021, file)?;
    Ok(builder)
}

/// The same world, made of its own tables anew: they were checked, so no fault can be found in them.
pub fn rechecked(world: World) -> World
    ensures { result ≡ world }
{
    match world.into_builder().check() {
        Ok(world) => world,
        Err(_fault) => unreachable!(),
    }
}

/// The world of the same tables that answers by another version of the scoping rules: they stay checked.
pub fn by_version(world: World, rules: Rules) -> World
    ensures { result ≡ with_rules world rules }
{
    let mut tables = world.into_builder();
    tables.set_rules(rules);
    match tables.check() {
        Ok(world) => world,
        Err(_fault) => unreachable!(),
    }
}

/// Two features, to be set in this order.
fn both_features(
    alloc: Global,
    first: Symbol,
    second: Symbol,
) -> Result<Vec<CrateSetting>, AllocError>
    ensures { IfOk result
        (λ features.
        features.items ≡ CrateSetting.Feature first ∷ CrateSetting.Feature second ∷ []) }
{
    let mut features = Vec::new(alloc);
    features.push(CrateSetting::Feature(first))?;
    features.push(CrateSetting::Feature(second))?;
    Ok(features)
}

/// Two features of a crate, by one call: the builder is as two calls of `add_feature` would leave it.
pub fn enable_both(
    builder: &mut WorldBuilder,
    alloc: Global,
    krate: Crate,
    first: Symbol,
    second: Symbol,
) -> Result<(), BuildFault>
    ensures ok { OnOk result (builder.new ≡ with_data
        (with_data builder.old krate (λ d. with_feature d first)) krate
        (λ d. with_feature d second)) }
    ensures err { OnErr result (builder.new ≡ builder.old) }
{
    let features = both_features(alloc, first, second)?;
    builder.set_crate_data(krate, features)?;
    Ok(())
}

/// Why a declaration fails.
#[derive(Clone, Copy, PartialEq, Eq, Debug)]
pub enum Refused {
    /// The module or the definition is not the world's.
    Unknown,
    OutOfMemory,
}

impl From<AllocError> for Refused {
    fn from(_refused: AllocError) -> Refused {
        Refused::OutOfMemory
    }
}

/// Declares a public type in a module of a world: the list of pushes that the module's scope shows has it last, and
/// what other scopes show stays.
pub fn declare_type(
    world: &mut World,
    globs: &mut PerNsGlobImports,
    lookup: (ModuleId, Name),
    def: ModuleDefId,
) -> Result<bool, Refused>
    ensures shown { PushShows (scope_of world.old lookup.0) globs.old (scope_of world.new lookup.0) globs.new
        lookup.0 (push_of lookup.1 (type_alone def Visibility.Public None) None) result }
    ensures elsewhere { (k : ModuleId) → same_module lookup.0 k ≡ false →
        StaysShown world.old globs.old world.new globs.new k }
    ensures err { OnErr result (world.new ≡ world.old) }
{
    let items = PerNs::types(def, Visibility::Public, None);
    if !world.knows_res(lookup.0, &items, None) {
        return Err(Refused::Unknown);
    }
    let written = world.push_res(globs, lookup, items, None)?;
    Ok(written)
}

/// Brings items into a module by a glob import. A name that is bound as a type stays bound to it: a glob shadows
/// nothing.
pub fn bring_by_glob(
    world: &mut World,
    globs: &mut PerNsGlobImports,
    lookup: (ModuleId, Name),
    items: PerNs,
    glob: GlobId,
) -> Result<bool, Refused>
    ensures shown { PushShows (scope_of world.old lookup.0) globs.old (scope_of world.new lookup.0) globs.new
        lookup.0 (push_of lookup.1 items (Some (Glob glob))) result }
    ensures shadowed { IsSome (find_name lookup.1 (scope_of world.old lookup.0).types.items) →
        (scope_of world.new lookup.0).types ≡ (scope_of world.old lookup.0).types }
    ensures err { OnErr result (world.new ≡ world.old) }
{
    let import = Some(ImportOrExternCrate::Glob(glob));
    if !world.knows_res(lookup.0, &items, import) {
        return Err(Refused::Unknown);
    }
    let written = world.push_res(globs, lookup, items, import)?;
    Ok(written)
}

/// The child of a module under a name.
pub fn child_of<'a>(world: &'a World, m: ModuleId, name: &Name) -> Option<&'a ModuleData>
    ensures { IfSome result (λ child. child.now.parent ≡ Some m) }
{
    let map = world.map_of(m)?;
    let child = map.get(m)?.child(name)?;
    Some(map.module(child))
}

/// The first child of a name that a module has, or one of those that contain its block and so on outwards. Each map
/// that the closure is called with has the module that it is called with, so the closure need not test that.
pub fn child_outwards(world: &World, m: ModuleId, name: &Name) -> Option<ModuleId>
    ensures { (map : Map) → map_of world.now m ≡ Some map →
        result ≡ slice_get (filter_map (child_in name.now) (maps_outwards world.now map m)) 0 }
{
    let map = world.map_of(m)?;
    map.with_ancestor_maps(world, m, |map: &DefMap, m: ModuleId| -> Option<ModuleId> {
        map.module(m).child(name)
    })
}

/// The map in which an item was declared: each item of a world has one.
pub fn map_of_item(world: &World, item: ModuleDefId) -> Option<&DefMap>
    ensures { IsSome ((homes_of world.now).item item) → IsSome result }
{
    let m = world.item_module(item)?;
    world.map_of(m)
}

/// The edition of the crate of a block, as the block's map and the map of its crate say: the same.
pub fn editions_of(world: &World, block: BlockId) -> (Edition, Edition)
    requires { IsTrue (nat_lt block.0 (length world.now.block_maps)) }
    ensures { result.0 ≡ result.1 }
{
    let inner = block_def_map(world, block);
    let krate = inner.krate();
    let outer = crate_def_map(world, krate);
    (inner.edition(), outer.edition())
}
