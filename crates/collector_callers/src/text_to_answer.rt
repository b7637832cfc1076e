//! From a text to a settled world, and from there to an answer.
ghost use Rattle.std.specs.Prelude.{◌≡◌, ◌↔◌, IfOk, IsTrue, Some, slice_get};
ghost use Rattle.dm_maps.specs.Holding.{path_holds, res_holds};
ghost use Rattle.dm_maps.specs.declared.check.held.HeldId.TheVariants as held;
ghost use Rattle.dm_collector.specs.Collecting.{AreRight, maps_in};
ghost use Rattle.dm_def_map.specs.Maps.{LocalMap, Map};
ghost use Rattle.dm_def_map.specs.declared.modules.modes.BuiltinShadowMode.TheVariants.{Module};
ghost use Rattle.dm_base.specs.declared.ids.Crate.{Crate};
ghost use Rattle.dm_maps.specs.Known.{knows, KnowsAll};
ghost use Rattle.dm_maps.specs.World.{crate_map};
ghost use Rattle.hir_def_map.specs.Paths.{answer, asked};
ghost use Rattle.hir_def_map.specs.declared.path_resolution.result.ResolveMode.TheVariants.{Other};

use crate_items::files::crate_data::CrateData;
use crate_items::files::crate_graph::CrateGraph;
use crate_items::files::file_table::FileTable;
use crate_tables::crate_filling::Reading;
use defmap_callers::paths::meaning_in_root;
use dm_base::ids::{Crate, FileId};
use dm_base::mod_path::ModPath;
use dm_base::per_ns::PerNs;
use dm_base::source::Edition;
use dm_collector::collect::collect;
use dm_collector::collect_fault::CollectFault;
use dm_collector::collected::Collected;
use dm_maps::world::World;
use item_tree::cfg::CfgOptions;
use std::alloc::{AllocError, Global};

/// The graph of one crate, in the edition 2021 and without dependencies.
fn one_crate(alloc: Global, root: FileId) -> Result<CrateGraph, AllocError> {
    let mut graph = CrateGraph::new(alloc);
    let options = CfgOptions::new(alloc);
    let described = CrateData::new(root, Edition::Edition2021, options, false, Vec::new(alloc));
    graph.add_crate(described)?;
    Ok(graph)
}

/// A crate of one text, collected. It tells exactly whether its names are what the rules of imports give.
pub fn world_of(alloc: Global, text: Vec<u8>) -> Result<Collected, CollectFault>
    ensures { IfOk result (λ made. IsTrue made.is_supported ↔ AreRight (maps_in made made.world)) }
{
    let mut files = FileTable::new(alloc);
    let path = Vec::from_slice(alloc, b"src/lib.rs")?;
    let Ok(root) = files.add(path, text) else {
        return Err(CollectFault::OutOfMemory);
    };
    let graph = one_crate(alloc, root)?;
    let limit = 8_192;
    let files = &files;
    collect(alloc, &graph, &Reading { files, limit })
}

/// What a path means in the root of the first crate; nothing where it begins with `$crate` of one that is not there.
pub fn meaning_in_first(world: &World, path: &ModPath) -> PerNs
    ensures value { IsTrue (knows world.now (held.Crate (record { 0 = 0 })))
        → KnowsAll world.now (path_holds path.now.kind)
        → (map : Map) (local : LocalMap) → crate_map world.now (record { 0 = 0 }) ≡ Some map →
        slice_get world.now.local_maps 0 ≡ Some local →
        result ≡ (answer world.now local (asked map.root Other Module None path.now.kind)
        path.now.segments).resolved_def }
    ensures known { KnowsAll world.now (res_holds result) }
{
    let krate = Crate(0);
    if world.has_crate(krate) && world.knows_path(path) {
        meaning_in_root(world, krate, path)
    } else {
        PerNs::none()
    }
}
