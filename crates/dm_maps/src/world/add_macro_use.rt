//! Macros, added to the `macro_use` preludes of a checked world.
ghost use Rattle.std.specs.Prelude.{◌≡◌, false, OnOk, OnErr};
ghost use Rattle.dm_maps.specs.Holding.{def_holds};
ghost use Rattle.dm_base.specs.declared.item_ids.ModuleDefId.TheVariants as def;
ghost use Rattle.dm_maps.specs.Added.{IsGrown};
ghost use Rattle.dm_maps.specs.BuildMaps.{lacks_map, with_macro_use};
ghost use Rattle.dm_maps.specs.First.{IsChecked};
ghost use Rattle.dm_maps.specs.GoesOn.{StaysBeside};
ghost use Rattle.dm_maps.specs.Known.{KnowsAll};
ghost use Rattle.dm_maps.specs.Stays.{StaysKnown};

use crate::world::World;
use dm_base::ids::{ExternCrateId, MapId};
use dm_base::item_ids::MacroId;
use dm_base::name::Name;
use dm_def_map::map_change::MapChange;
use std::alloc::AllocError;

impl World {
    /// Adds a macro to the `macro_use` prelude of a map (what `#[macro_use] extern crate` brings), with the item that
    /// brought it. A name that is there takes the new macro.
    ///
    /// The map and the macro have to be the world's: `lacks_map` and `knows_def` test it. Other maps and all tables
    /// stay. Where an allocation fails, nothing changes.
    pub fn add_macro_use(
        &mut self,
        map: MapId,
        name: Name,
        m: MacroId,
        brought_by: Option<ExternCrateId>,
    ) -> Result<(), AllocError>
        requires there { lacks_map self.old map ≡ false }
        requires known { KnowsAll self.old (def_holds (def.MacroId m)) }
        ensures ok { OnOk result (self.new ≡ with_macro_use self.old map name m brought_by) }
        ensures err { OnErr result (self.new ≡ self.old) }

        // All that the world's tables hold is the world's.
        ensures checked { IsChecked self.new }

        // What was known is known, the name-independent part of the world is as before, and each scope and what it
        // shows. So is what the world has under other names than this one.
        ensures stays_known { StaysKnown self.old self.new }
        ensures grown { IsGrown self.old self.new }
        ensures others_stay { StaysBeside self.old self.new name }
    {
        self.tables
            .change_map(map, MapChange::MacroUse(name, (m, brought_by)))?;
        self.tables.lawful();
        Ok(())
    }
}
