//! Dumps of the scopes and def maps of a world.
ghost use Rattle.std.specs.Prelude.{◌≡◌, IfSome, Some};
ghost use Rattle.std.specs.Option.{option_copied};
ghost use Rattle.dm_maps.specs.World.{numbered_map};
ghost use Rattle.defmap_script.specs.Dumping.{named_map, Dumps};
ghost use Rattle.defmap_script.specs.declared.dump_lines.Dumping.TheVariants.{Scope, Map};

use crate::build_words::MapName;
use crate::dump_lines::Dumping;
use crate::dump_text::DumpText;
use crate::engine::Reply;
use crate::fault::Fault;
use dm_base::ids::ModuleId;
use dm_maps::def_map::DefMap;
use dm_maps::laws::scope_is_dumped;
use dm_maps::world::World;
use dm_maps::world::maps_of::{AskWorld, block_def_map, crate_def_map};
use dm_scope::scope_tables::ScopeTables;
use std::alloc::Global;

/// The dump that is asked for, where it is of something that the world has.
pub(crate) fn dumped(world: &World, alloc: Global, dumping: Dumping) -> Result<Reply, Fault>
    ensures { Dumps world.now dumping result }
{
    match dumping {
        Dumping::Scope(m) => dumped_scope(world, alloc, m),
        Dumping::Map(name) => dumped_map(world, name),
    }
}

fn dumped_scope(world: &World, alloc: Global, m: ModuleId) -> Result<Reply, Fault>
    ensures { Dumps world.now (Scope m) result }
{
    let Some(scope) = world.scope_of(m) else {
        return Err(Fault::Unknown);
    };
    scope_is_dumped();
    let mut text = String::new(alloc);
    scope.dump(world, &mut text)?;
    Ok(Reply::Dumped(DumpText::new(text)))
}

fn dumped_map(world: &World, name: MapName) -> Result<Reply, Fault>
    ensures { Dumps world.now (Map name) result }
{
    let Some(map) = map_named(world, name) else {
        return Err(Fault::Unknown);
    };
    let text = map.dump(world)?;
    Ok(Reply::Dumped(DumpText::new(text)))
}

/// The map of a name, where the world has it.
fn map_named(world: &World, name: MapName) -> Option<&DefMap>
    ensures value { option_copied result ≡ named_map world.now name }
    ensures own { IfSome result (λ map. numbered_map world.now map.now.id ≡ Some map.now) }
{
    match name {
        MapName::Crate(krate) => {
            if world.has_crate(krate) {
                Some(crate_def_map(world, krate))
            } else {
                None
            }
        }
        MapName::Block(block) => {
            if world.has_block(block) {
                Some(block_def_map(world, block))
            } else {
                None
            }
        }
    }
}
