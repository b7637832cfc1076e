//! The places where a first segment is looked up.
ghost use Rattle.std.specs.Prelude.{◌≡◌};
ghost use Rattle.dm_maps.specs.Readings.{setting_of};
ghost use Rattle.dm_maps.specs.Trees.{tree_of};
ghost use Rattle.hir_def_map.specs.Paths.{map_at, seen_from, IsKnownPlace};

use dm_base::ids::{MapId, ModuleId};
use dm_base::module_tree::ModuleTree;
use dm_maps::world::World;

/// Where a first segment is looked up: a module, or the preludes of a map, seen from a module.
#[derive(Clone, Copy)]
pub(crate) enum Place {
    In(ModuleId),
    Preludes(MapId, ModuleId),
}

impl Place {
    /// The module from which the place sees.
    pub(crate) fn seen_from(self) -> ModuleId
        ensures { result ≡ seen_from self }
    {
        match self {
            Place::In(m) | Place::Preludes(_, m) => m,
        }
    }

    /// The map whose preludes the place reads.
    #[tactic(auto, unfolding(dm_maps::specs::Readings::setting_of))]
    pub(crate) fn map(self, world: &World) -> MapId
        requires { IsKnownPlace (tree_of world.now) self }
        ensures { result ≡ map_at (setting_of world.now).tree self }
    {
        match self {
            Place::In(m) => MapId {
                krate: world.krate(m),
                block: world.block(m),
            },
            Place::Preludes(id, _) => id,
        }
    }
}
