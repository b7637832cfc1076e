//! `WorldBuilder`: a world that is being built.
ghost use Rattle.std.specs.Prelude.{◌≡◌};
ghost use Rattle.dm_maps.specs.Build.{no_world, with_rules};
ghost use Rattle.dm_maps.specs.First.{IsChecked};

mod add_blocks;
mod add_diagnostics;
mod add_items;
mod add_modules;
mod add_uses;
mod add_variants;
mod ancestry;
mod block_list;
mod change_maps;
mod growth;
mod scopes;
mod set_crate_data;
mod set_tables;
mod spare_room;
mod tables;

use crate::builder::block_list::BlockList;
use crate::ladders::Ladders;
use crate::maps::Maps;
use crate::place::Place;
use crate::rules::Rules;
use dm_base::ids::{EnumId, ModuleId};
use dm_base::item_ids::ItemKind;
use dm_base::macros::MacroLoc;
use dm_def_map::item_tables::ItemTables;
use dm_def_map::item_tables::variants::EnumVariants;
use dm_def_map::modules::local_def_map::LocalDefMap;
use indexmap::IndexMap;
use std::alloc::Global;
use std::marker::Model;

/// The tables of a world, as they are filled.
pub struct WorldBuilder {
    pub(crate) maps: Maps,
    pub(crate) places: Vec<Place>,
    pub(crate) local_maps: Vec<LocalDefMap>,
    pub(crate) uses: Vec<ModuleId>,
    pub(crate) items: Vec<(ItemKind, ModuleId)>,
    pub(crate) enums: IndexMap<EnumId, EnumVariants>,
    pub(crate) variants: Vec<EnumId>,
    pub(crate) macros: Vec<(ModuleId, MacroLoc)>,
    pub(crate) item_tables: ItemTables,
    pub(crate) rules: Rules,
    /// The ladder of each module: its jump pointers to the modules around it, at distances of powers of two.
    pub(crate) ladders: Ladders,
    /// The blocks of each crate.
    pub(crate) block_lists: Vec<BlockList>,
    pub(crate) alloc: Global,
}

/// Hand-written `Drop`, to keep proofs small: dropping one is then a single call.
impl Drop for WorldBuilder {
    fn drop(self) {
        let WorldBuilder {
            maps: _maps,
            places: _places,
            local_maps: _local_maps,
            uses: _uses,
            items: _items,
            enums: _enums,
            variants: _variants,
            macros: _macros,
            item_tables: _item_tables,
            rules: _rules,
            ladders: _ladders,
            block_lists: _block_lists,
            alloc: _alloc,
        } = self;
    }
}

impl Model for WorldBuilder {
    ghost use Rattle.dm_maps.specs.World.{World};
    ghost use Rattle.dm_maps.specs.Built.{IsBuilt};
    ghost use Rattle.dm_maps.specs.Indexes.{AreIndexed};

    ghost Value = { World };

    ghost use Rattle.dm_maps.specs.Tables.{tables_of};

    ghost view = { tables_of };

    ghost invariant = { λ w. IsBuilt (tables_of w) × AreIndexed w.places.items w.maps.crates w.maps.blocks w.ladders w.block_lists.items };
}

impl WorldBuilder {
    /// A builder of nothing, by the first version of the rules, which takes its memory from `alloc`. It takes none yet.
    #[tactic(auto, unfolding(crate::specs::Family::AreFamilies, crate::specs::Lists::AreListed))]
    pub fn new(alloc: Global) -> WorldBuilder
        ensures { result ≡ no_world }
    {
        WorldBuilder {
            maps: Maps::new(alloc),
            places: Vec::new(alloc),
            local_maps: Vec::new(alloc),
            uses: Vec::new(alloc),
            items: Vec::new(alloc),
            enums: IndexMap::new(alloc),
            variants: Vec::new(alloc),
            macros: Vec::new(alloc),
            item_tables: ItemTables::new(alloc),
            rules: Rules::V1,
            ladders: Ladders::new(alloc),
            block_lists: Vec::new(alloc),
            alloc,
        }
    }

    /// Sets the version of the rules by which the world will answer. The last one set counts.
    pub fn set_rules(&mut self, rules: Rules)
        ensures value { self.new ≡ with_rules self.old rules }

        // Tables that were checked still are.
        ensures checked { IsChecked self.old → IsChecked self.new }
    {
        self.rules = rules;
    }
}
