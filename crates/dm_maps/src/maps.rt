//! The maps of a world, those of crates and those of blocks.
ghost use Rattle.std.specs.Prelude.{◌≡◌, [], false, IsOk, IsSome, OnOk, OnErr};
ghost use Rattle.std.specs.Option.{option_copied, option_copied_mut};
ghost use Rattle.std.specs.Borrow.{sem};
ghost use Rattle.dm_def_map.specs.MapChanges.{changed, grows};
ghost use Rattle.dm_maps.specs.LendingMaps.{LendsMap, LendsScopeIn};
ghost use Rattle.dm_maps.specs.Maps.{IsFree, map_at, maps_with, maps_with_child, maps_and, nth_module_in, nth_scope_in};

pub(crate) mod share;

use dm_base::ids::{BlockId, Crate, MapId, ModuleId};
use dm_base::name::Name;
use dm_def_map::building;
use dm_def_map::def_map::DefMap;
use dm_def_map::map_change::MapChange;
use dm_def_map::modules::module_data::ModuleData;
use dm_scope::item_scope::ItemScope;
use std::alloc::{AllocError, Global};
use std::marker::Model;

/// The maps of a world: those of crates and those of blocks, each by its number.
pub(crate) struct Maps {
    crates: Vec<DefMap>,
    blocks: Vec<DefMap>,
}

/// Hand-written `Drop`, to keep proofs small: dropping one is then a single call.
impl Drop for Maps {
    fn drop(self) {
        let Maps {
            crates: _crates,
            blocks: _blocks,
        } = self;
    }
}

impl Model for Maps {
    ghost use Rattle.dm_maps.specs.Maps.{Maps};

    ghost Value = { Maps };

    ghost view = { λ ms. record { crates = ms.crates.items; blocks = ms.blocks.items } };
}

impl Maps {
    /// No maps.
    pub(crate) fn new(alloc: Global) -> Maps
        ensures { result ≡ record { crates = []; blocks = [] } }
    {
        Maps {
            crates: Vec::new(alloc),
            blocks: Vec::new(alloc),
        }
    }

    /// Those of crates, by number.
    pub(crate) fn crates(&self) -> &[DefMap]
        ensures { result.now ≡ self.now.crates }
    {
        self.crates.as_slice()
    }

    /// Those of blocks, by number.
    pub(crate) fn blocks(&self) -> &[DefMap]
        ensures { result.now ≡ self.now.blocks }
    {
        self.blocks.as_slice()
    }

    /// The map of that id, by its number: a block's is found by the block alone, whatever crate the id names.
    pub(crate) fn get(&self, id: MapId) -> Option<&DefMap>
        ensures { option_copied result ≡ map_at self.now id }
    {
        match id.block {
            None => self.crates.get(id.krate.0 as usize),
            Some(b) => self.blocks.get(b.0 as usize),
        }
    }

    /// The same, to be changed.
    fn get_mut(&mut self, id: MapId) -> Option<&mut DefMap>
        ensures* writes_back { sem 𝓛 (LendsMap self.entry id result) }
        ensures value { option_copied_mut result ≡ map_at self.old id }
    {
        match id.block {
            None => self.crates.get_mut(id.krate.0 as usize),
            Some(b) => self.blocks.get_mut(b.0 as usize),
        }
    }

    /// The scope of the module at place `i` of that map, to be changed.
    #[tactic(auto, using(crate::proofs::MapWrites::put_own))]
    pub(crate) fn scope_mut(&mut self, id: MapId, i: usize) -> Option<&mut ItemScope>
        ensures* writes_back { sem 𝓛 (LendsScopeIn self.entry id i result) }
        ensures value { option_copied_mut result ≡ nth_scope_in self.old id i }
    {
        let map = self.get_mut(id)?;
        match building::scope_mut(map, i) {
            Some(scope) => Some(scope),
            None => None,
        }
    }

    /// Makes a change in that map, which has to be there.
    #[tactic(auto, using(crate::proofs::MapWrites::put_own))]
    pub(crate) fn change(
        &mut self,
        id: MapId,
        change: MapChange,
        alloc: Global,
    ) -> Result<(), AllocError>
        requires { IsSome (map_at self.old id) }
        ensures ok { OnOk result (self.new ≡ maps_with self.old id (changed change)) }
        ensures err { OnErr result (self.new ≡ self.old) }
        ensures free { grows change ≡ false → IsOk result }
    {
        match self.get_mut(id) {
            None => unreachable!(),
            Some(map) => building::change(map, change, alloc),
        }
    }

    /// Gives back memory that the tables of the maps do not need. The contents stay.
    pub(crate) fn shrink_to_fit(&mut self)
        ensures { self.new ≡ self.old }
    {
        self.shrink_crates();
        self.shrink_blocks();
    }

    fn shrink_crates(&mut self)
        ensures { self.new ≡ self.old }
    {
        for k in 0..self.crates.len() {
            if let Ok(number) = u32::try_from(k) {
                self.shrink_map(MapId {
                    krate: Crate(number),
                    block: None,
                });
            }
        }
    }

    fn shrink_blocks(&mut self)
        ensures { self.new ≡ self.old }
    {
        for b in 0..self.blocks.len() {
            if let Ok(number) = u32::try_from(b) {
                self.shrink_map(MapId {
                    krate: Crate(0),
                    block: Some(BlockId(number)),
                });
            }
        }
    }

    /// Gives back memory that the tables of that map do not need, if it is there.
    #[tactic(auto, using(crate::proofs::MapWrites::put_own))]
    fn shrink_map(&mut self, id: MapId)
        ensures { self.new ≡ self.old }
    {
        if let Some(map) = self.get_mut(id) {
            building::shrink_to_fit(map);
        }
    }

    /// Adds a module to that map, as a child of the one at place `i`, which has to be there.
    #[tactic(auto, using(crate::proofs::MapWrites::put_own))]
    pub(crate) fn add_child(
        &mut self,
        id: MapId,
        i: usize,
        name: Name,
        m: ModuleId,
        added: ModuleData,
    ) -> Result<(), AllocError>
        requires free { IsFree self.old id m }
        requires there { IsSome (nth_module_in self.old id i) }
        ensures ok { OnOk result (self.new ≡ maps_with_child self.old id i name m added) }
        ensures err { OnErr result (self.new ≡ self.old) }
    {
        match self.get_mut(id) {
            None => unreachable!(),
            Some(map) => building::add_child(map, i, name, m, added),
        }
    }

    /// Adds a map, the last of the crates' or of the blocks', as its id says.
    pub(crate) fn push(&mut self, map: DefMap) -> Result<(), AllocError>
        ensures ok { OnOk result (self.new ≡ maps_and self.old map) }
        ensures err { OnErr result (self.new ≡ self.old) }
    {
        match map.id().block {
            None => self.crates.push(map)?,
            Some(_) => self.blocks.push(map)?,
        }
        Ok(())
    }
}
