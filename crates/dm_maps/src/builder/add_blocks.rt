//! Blocks, added to a builder.
ghost use Rattle.std.specs.Prelude.{◌≡◌, ◌<◌, None, Some, IfOk, OnOk, OnErr, length, slice_get};
ghost use Rattle.dm_maps.specs.Added.{IsAddedBlock};
ghost use Rattle.dm_maps.specs.BuildBlocks.{with_block, next_block, crate_in, fresh_block, block_fault};
ghost use Rattle.dm_maps.specs.Build.{next_module};
ghost use Rattle.dm_maps.specs.Faults.{Answers};

use crate::build_fault::BuildFault;
use crate::builder::WorldBuilder;
use crate::builder::growth::{NewBlock, add_map_in};
use crate::maps::share::shared_of;
use crate::place::Place;
use dm_base::ids::{BlockId, Crate, MapId, ModuleId};
use dm_base::source::AstId;
use dm_base::visibility::{Visibility, VisibilityExplicitness};
use dm_def_map::building;
use dm_def_map::def_map::DefMap;
use dm_def_map::modules::module_data::ModuleData;
use dm_def_map::modules::module_origin::ModuleOrigin;
use std::alloc::{AllocError, Global};

impl WorldBuilder {
    /// Adds a block in the module `containing`, and answers its number.
    ///
    /// Its map is one of the crate of that module, and has its root alone, which is seen in that module. Errors, tested
    /// in this order: `NoSuchModule` of a module that is not the builder's, `OutOfNumbers` where there are
    /// 4,294,967,295 modules, and `OutOfMemory`; the builder is then as it was.
    pub fn add_block(&mut self, containing: ModuleId, block: AstId) -> Result<BlockId, BuildFault>
        ensures ok { OnOk result (self.new ≡ with_block self.old containing block) }
        ensures number { IfOk result (λ b. b ≡ next_block self.old) }
        ensures fault { Answers (block_fault self.old containing) result }
        ensures err { OnErr result (self.new ≡ self.old) }

        // The block was added with the root of its map, and what was there stays.
        ensures added { IfOk result (λ b. IsAddedBlock self.old self.new containing b) }
    {
        self.lawful();
        if !self.has(containing) {
            return Err(BuildFault::NoSuchModule);
        }
        if self.is_full() {
            return Err(BuildFault::OutOfNumbers);
        }
        let b = self.next_block();
        self.push_block(containing, b, block)?;
        Ok(b)
    }

    /// The number of the next block.
    fn next_block(&self) -> BlockId
        requires { length self.now.places < 4294967295 }
        ensures { result ≡ next_block self.now }
    {
        let _places = &self.places;
        BlockId(self.maps.blocks().len() as u32)
    }

    /// Adds the map of a block, with its root.
    fn push_block(
        &mut self,
        containing: ModuleId,
        b: BlockId,
        block: AstId,
    ) -> Result<(), AllocError>
        requires number { b ≡ next_block self.old }
        requires known { containing.0 < length self.old.places }
        requires room { length self.old.places < 4294967295 }
        ensures ok { OnOk result (self.new ≡ with_block self.old containing block) }
        ensures err { OnErr result (self.new ≡ self.old) }
    {
        self.lawful();
        let krate = self.map_id_of(containing).krate;
        let root = self.next_module();
        let of = self.crate_map_at(krate);
        let map = fresh_block(of, krate, b, containing, block, root, self.alloc)?;
        let id = MapId {
            krate,
            block: Some(b),
        };
        let place = Place {
            map: id,
            index: 0,
            parent: None,
        };
        add_map_in(
            &mut self.ladders,
            containing,
            &mut self.block_lists,
            &mut self.places,
            &mut self.maps,
            NewBlock {
                krate,
                b,
                place,
                map,
            },
        )?;
        Ok(())
    }
}

/// The map of a new block in a crate, whose own map is `of`.
fn fresh_block(
    of: &DefMap,
    krate: Crate,
    b: BlockId,
    containing: ModuleId,
    block: AstId,
    root: ModuleId,
    alloc: Global,
) -> Result<DefMap, AllocError>
    ensures { IfOk result (λ map. map ≡ fresh_block of.now krate b containing block root) }
{
    let origin = ModuleOrigin::BlockExpr { id: b, block };
    let visibility = Visibility::Module(containing, VisibilityExplicitness::Implicit);
    let added = ModuleData::fresh(origin, visibility, None, alloc);
    let id = MapId {
        krate,
        block: Some(b),
    };
    let shared = shared_of(of)?;
    let map = building::with_root(
        id,
        of.edition(),
        Some(containing),
        root,
        added,
        shared,
        alloc,
    )?;
    Ok(map)
}
