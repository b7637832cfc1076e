//! Queries on visibility in a world.
ghost use Rattle.std.specs.Prelude.{◌≡◌};
ghost use Rattle.defmap_script.specs.Seeing.{knows_visibility, map_of_name, sight, compares};

use crate::build_words::MapName;
use crate::engine::Reply;
use crate::fault::Fault;
use crate::seeing_lines::Sight;
use dm_base::ids::MapId;
use dm_base::module_tree::ModuleTree;
use dm_base::visibility::Visibility;
use dm_maps::world::World;
use dm_maps::world::maps_of::block_def_map;

/// What a question about visibilities answers, where all that it names is the world's.
#[tactic(auto, unfolding(dm_maps::specs::Trees::tree_of))]
pub(crate) fn sight(world: &World, question: Sight) -> Result<Reply, Fault>
    ensures { result ≡ sight world.now question }
{
    match question {
        Sight::Sees(visibility, m) => {
            if knows_visibility(world, visibility) && world.has(m) {
                Ok(Reply::Sees(visibility.is_visible_from(world, m)))
            } else {
                Err(Fault::Unknown)
            }
        }
        Sight::Max(map, one, two) => match compared(world, map, one, two) {
            Some(map) => Ok(Reply::Compared(one.max(world, two, map))),
            None => Err(Fault::Unknown),
        },
        Sight::Min(map, one, two) => match compared(world, map, one, two) {
            Some(map) => Ok(Reply::Compared(one.min(world, two, map))),
            None => Err(Fault::Unknown),
        },
    }
}

/// The map in which two visibilities are compared, where it and all that they name are the world's.
fn compared(world: &World, map: MapName, one: Visibility, two: Visibility) -> Option<MapId>
    ensures { result ≡ compares world.now map one two }
{
    if knows_visibility(world, one) && knows_visibility(world, two) {
        map_of_name(world, map)
    } else {
        None
    }
}

/// The map of a name, where the world has it.
fn map_of_name(world: &World, map: MapName) -> Option<MapId>
    ensures { result ≡ map_of_name world.now map }
{
    match map {
        MapName::Crate(krate) => {
            if world.has_crate(krate) {
                Some(MapId { krate, block: None })
            } else {
                None
            }
        }
        MapName::Block(block) => {
            if world.has_block(block) {
                Some(block_def_map(world, block).id())
            } else {
                None
            }
        }
    }
}

/// Whether all that a visibility names is the world's.
#[tactic(auto, unfolding(dm_maps::specs::Trees::tree_of))]
fn knows_visibility(world: &World, visibility: Visibility) -> bool
    ensures { result ≡ knows_visibility world.now visibility }
{
    match visibility {
        Visibility::Module(m, _) => world.has(m),
        Visibility::PubCrate(krate) => world.has_crate(krate),
        Visibility::Public => true,
    }
}
