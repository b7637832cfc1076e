//! Diagnostics, added to the maps of a checked world.
ghost use Rattle.std.specs.Prelude.{◌≡◌, false, List, OnOk, OnErr};
ghost use Rattle.dm_maps.specs.TablesHold.{diagnostic_holds};
ghost use Rattle.dm_base.specs.Names.{Name};
ghost use Rattle.dm_maps.specs.Added.{IsGrown};
ghost use Rattle.dm_maps.specs.BuildMaps.{lacks_map, with_diagnostic};
ghost use Rattle.dm_maps.specs.Cut.{cut};
ghost use Rattle.dm_maps.specs.First.{IsChecked};
ghost use Rattle.dm_maps.specs.Known.{KnowsAll};
ghost use Rattle.dm_maps.specs.Stays.{StaysKnown};

use crate::world::World;
use dm_base::ids::MapId;
use dm_def_map::map_change::MapChange;
use dm_scope::diagnostics::DefDiagnostic;
use std::alloc::AllocError;

impl World {
    /// Adds what went wrong while a map was made, the last of that map's list.
    ///
    /// The map has to be the world's, and all that the diagnostic holds: `lacks_map` and `knows_diagnostic`
    /// test it. Other maps and all tables stay. Where an allocation fails, nothing changes.
    pub fn add_diagnostic(
        &mut self,
        map: MapId,
        diagnostic: DefDiagnostic,
    ) -> Result<(), AllocError>
        requires there { lacks_map self.old map ≡ false }
        requires known { KnowsAll self.old (diagnostic_holds diagnostic) }
        ensures ok { OnOk result (self.new ≡ with_diagnostic self.old map diagnostic) }
        ensures err { OnErr result (self.new ≡ self.old) }

        // All that the world's tables hold is the world's.
        ensures checked { IsChecked self.new }

        // What was known is known, the name-independent part of the world is as before, and each scope and what it
        // shows. So is what the world has under any names.
        ensures stays_known { StaysKnown self.old self.new }
        ensures grown { IsGrown self.old self.new }
        ensures stays { (N : List Name) → cut self.new N ≡ cut self.old N }
    {
        self.tables
            .change_map(map, MapChange::Diagnostic(diagnostic))?;
        self.tables.lawful();
        Ok(())
    }
}
