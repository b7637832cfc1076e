//! The maps of a world, by crate and by block.
ghost use Rattle.std.specs.Prelude.{◌≡◌, IsTrue, IfOk, Some, None, nat_lt, length, slice_get, string_bytes};
ghost use Rattle.dm_maps.specs.declared.check.held.HeldId.TheVariants as held;
ghost use Rattle.dm_maps.specs.Known.{knows, KnowsAll};
ghost use Rattle.dm_maps.specs.Holding.{local_holds};
ghost use Rattle.dm_maps.specs.MapDumps.{map_dump};
ghost use Rattle.dm_maps.specs.MapFacts.{IsMapOf};
ghost use Rattle.dm_maps.specs.Outwards.{maps_outwards, AsksMaps, MayAskMaps};
ghost use Rattle.dm_maps.specs.Readings.{root_of, styles_of};
ghost use Rattle.dm_maps.specs.World.{crate_map, numbered_map};
ghost use Rattle.dm_def_map.specs.Maps.{Map};

use crate::builder::WorldBuilder;
use crate::world::World;
use crate::world::map_dump::dump_map;
use crate::world::outwards::ask_outwards;
use dm_base::ids::{BlockId, Crate, ModuleId};
use dm_base::item_ids::MacroId;
use dm_base::macros::MacroCallStyles;
use dm_def_map::def_map::DefMap;
use dm_def_map::modules::local_def_map::LocalDefMap;
use std::alloc::AllocError;

/// The map of a crate. The crate has to be the world's (`World::has_crate`).
pub fn crate_def_map(world: &World, krate: Crate) -> &DefMap
    requires { IsTrue (knows world.now (held.Crate krate)) }
    ensures map { crate_map world.now krate ≡ Some result.now }
    ensures id { result.now.id ≡ record { krate = krate; block = None } }
    ensures own { numbered_map world.now result.now.id ≡ Some result.now }
    ensures facts { IsMapOf world.now result.now }
{
    world.tables().crate_map_at(krate)
}

/// The map of a block. The block has to be the world's (`World::has_block`).
pub fn block_def_map(world: &World, block: BlockId) -> &DefMap
    requires { IsTrue (nat_lt block.0 (length world.now.block_maps)) }
    ensures map { slice_get world.now.block_maps block.0 ≡ Some result.now }
    ensures id { result.now.id.block ≡ Some block }
    ensures own { numbered_map world.now result.now.id ≡ Some result.now }
    ensures facts { IsMapOf world.now result.now }
{
    world.tables().block_map_at(block)
}

/// The extern prelude of a crate, which has to be the world's (`World::has_crate`).
pub fn local_def_map(world: &World, krate: Crate) -> &LocalDefMap
    requires { IsTrue (knows world.now (held.Crate krate)) }
    ensures map { slice_get world.now.local_maps krate.0 ≡ Some result.now }
    ensures known { KnowsAll world.now (local_holds result.now) }
{
    world.tables().local_map_at(krate)
}

/// The ways in which a macro may be called: none for one that is not the world's.
pub fn macro_styles_from_id(world: &World, m: MacroId) -> MacroCallStyles
    ensures { result ≡ styles_of world.now m }
{
    world.tables().styles_of(m)
}

/// The methods of a def map that read the world. Only `dump` allocates.
pub trait AskWorld {
    /// The map, as contracts see it.
    ghost map: { Self → Map };

    /// The root of the crate that the map belongs to. The map has to be the world's of its id.
    fn crate_root(&self, world: &World) -> ModuleId
        requires { numbered_map world.now (map self.now).id ≡ Some (map self.now) }
        ensures { root_of world.now (map self.now).id.krate ≡ Some result };

    /// The first `Some` that the closure `f` returns for a map, from this one outwards.
    ///
    /// It is called with this map and `m`, then with the map of the module that contains this map's block, and that
    /// module, and so on; and with none after it has returned `Some`. Only for these calls its preconditions have to
    /// hold, and it may rely on each map after the first being the world's and having the module.
    fn with_ancestor_maps<T, F: FnMut(&DefMap, ModuleId) -> Option<T> + Drop>(
        &self,
        world: &World,
        m: ModuleId,
        f: F,
    ) -> Option<T>
        requires { MayAskMaps world.now F.pre F.step (maps_outwards world.now (map self.now) m) f }
        ensures { (last : F) × AsksMaps F.step (maps_outwards world.now (map self.now) m) f result last };

    /// The dump of the map, and of those from it outwards (docs/RULES.md, "Dumps"). The map has to be the world's of
    /// its id.
    ///
    /// Fails where memory runs out.
    fn dump(&self, world: &World) -> Result<String, AllocError>
        requires { numbered_map world.now (map self.now).id ≡ Some (map self.now) }
        ensures { IfOk result (λ text. string_bytes text ≡ map_dump world.now (map self.now)) };
}

impl AskWorld for DefMap {
    ghost map = { λ m. m };

    fn crate_root(&self, world: &World) -> ModuleId {
        world.crate_root_of(self)
    }

    fn with_ancestor_maps<T, F: FnMut(&DefMap, ModuleId) -> Option<T> + Drop>(
        &self,
        world: &World,
        m: ModuleId,
        f: F,
    ) -> Option<T> {
        ask_outwards(world, self, m, f)
    }

    fn dump(&self, world: &World) -> Result<String, AllocError> {
        let text = dump_map(world, self)?;
        Ok(text)
    }
}

impl World {
    fn crate_root_of(&self, map: &DefMap) -> ModuleId
        requires { numbered_map self.now map.now.id ≡ Some map.now }
        ensures { root_of self.now map.now.id.krate ≡ Some result }
    {
        let _world = self.tables();
        let own = crate_def_map(self, map.krate());
        own.root_module_id()
    }
}

impl WorldBuilder {
    fn block_map_at(&self, block: BlockId) -> &DefMap
        requires { IsTrue (nat_lt block.0 (length self.now.block_maps)) }
        ensures { slice_get self.now.block_maps block.0 ≡ Some result.now }
    {
        &self.maps.blocks()[block.0 as usize]
    }

    fn local_map_at(&self, krate: Crate) -> &LocalDefMap
        requires { IsTrue (nat_lt krate.0 (length self.now.crate_maps)) }
        ensures { slice_get self.now.local_maps krate.0 ≡ Some result.now }
    {
        &self.local_maps[krate.0 as usize]
    }
}
