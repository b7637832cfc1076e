//! Tests whether ids that are handed in are the world's. None of them takes memory.
ghost use Rattle.std.specs.Prelude.{◌≡◌, ◌↔◌, IsTrue, nat_lt, length};
ghost use Rattle.dm_maps.specs.declared.check.held.HeldId.TheVariants as held;
ghost use Rattle.dm_maps.specs.Pushes.{push_holds};
ghost use Rattle.dm_maps.specs.Known.{knows, KnowsAll};
ghost use Rattle.dm_maps.specs.Holding.{def_holds, res_holds, local_holds};

use crate::builder::WorldBuilder;
use crate::check::held::HeldId;
use crate::check::known_ids::KnownIds;
use crate::check::note_maps::note_local_map;
use crate::check::note_pushes::note_push;
use crate::check::notes::def_fault;
use crate::world::World;
use dm_base::ids::{BlockId, Crate, ModuleId};
use dm_base::imports::ImportOrExternCrate;
use dm_base::item_ids::ModuleDefId;
use dm_base::per_ns::PerNs;
use dm_def_map::modules::local_def_map::LocalDefMap;

impl World {
    /// Whether the world has a crate of that number.
    pub fn has_crate(&self, krate: Crate) -> bool
        ensures { result ≡ knows self.now (held.Crate krate) }
    {
        self.tables().knows(HeldId::Crate(krate))
    }

    /// Whether the world has a block of that number.
    pub fn has_block(&self, block: BlockId) -> bool
        ensures { result ≡ nat_lt block.0 (length self.now.block_maps) }
    {
        self.tables().has_block(block)
    }

    /// Whether a definition is the world's, with its kind; builtin types are everyone's.
    pub fn knows_def(&self, def: ModuleDefId) -> bool
        ensures { IsTrue result ↔ KnowsAll self.now (def_holds def) }
    {
        let least = def_fault(self.tables(), def);
        least.is_none()
    }

    /// Whether each module of an extern prelude is the world's.
    pub fn knows_local(&self, local: &LocalDefMap) -> bool
        ensures { IsTrue result ↔ KnowsAll self.now (local_holds local.now) }
    {
        let least = note_local_map(self.tables(), local);
        least.is_none()
    }

    /// Whether all that a push holds is the world's: the module that it goes to, the definitions, visibilities and uses
    /// of what it resolves to, and the use of its import.
    pub fn knows_res(&self, m: ModuleId, res: &PerNs, import: Option<ImportOrExternCrate>) -> bool
        ensures { IsTrue result ↔ KnowsAll self.now (push_holds m res.now import) }
    {
        let least = note_push(self.tables(), m, res, import);
        least.is_none()
    }
}

impl WorldBuilder {
    /// Whether there is a block of that number.
    fn has_block(&self, block: BlockId) -> bool
        ensures { result ≡ nat_lt block.0 (length self.now.block_maps) }
    {
        (block.0 as usize) < self.maps.blocks().len()
    }
}
