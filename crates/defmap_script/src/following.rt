//! Follows an import through its chain of re-exports, in a world.
ghost use Rattle.defmap_script.specs.Following.{IsFollowed};

use crate::engine::Reply;
use crate::fault::Fault;
use dm_base::ids::ModuleId;
use dm_base::imports::ImportId;
use dm_maps::world::World;
use dm_scope::scope_tables::ScopeTables;

/// What an import resolves to in each namespace, from the scope of a module, where the module and the use are the
/// world's.
pub(crate) fn follow(world: &World, m: ModuleId, import: ImportId) -> Result<Reply, Fault>
    ensures { IsFollowed world.now m import result }
{
    if world.use_container(import.use_).is_none() {
        return Err(Fault::Unknown);
    }
    match world.scope_of(m) {
        Some(scope) => Ok(Reply::Ended(scope.fully_resolve_import(world, import))),
        None => Err(Fault::Unknown),
    }
}
