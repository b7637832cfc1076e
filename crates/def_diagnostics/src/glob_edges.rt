//! Which modules have globs of which modules.
ghost use Rattle.std.specs.Prelude.{◌≡◌};
ghost use Rattle.def_diagnostics.specs.GlobEdges as spec;

use crate::hidden::module_meant;
use crate::macro_meaning::{knows_module, knows_path};
use crate::open_modules::GlobEdge;
use dm_base::ids::ModuleId;
use dm_base::mod_path::ModPath;
use dm_maps::world::World;
use dm_retry::meaning::path_meaning;

/// The module of which the glob of a path is, if the world has what the path names.
fn source_of(world: &World, into: ModuleId, path: &ModPath) -> Option<ModuleId>
    ensures { result ≡ spec.source_of world.now into path.now }
{
    if knows_module(world, into) && knows_path(world, path) {
        module_meant(&path_meaning(world, into, path))
    } else {
        None
    }
}

/// What a glob of a path in a module leads from, and into; none where its path means no module. Does not allocate.
pub fn glob_edge(world: &World, into: ModuleId, path: &ModPath) -> Option<GlobEdge>
    ensures { result ≡ spec.glob_edge world.now into path.now }
{
    let from = source_of(world, into, path)?;
    Some(GlobEdge { into, from })
}
