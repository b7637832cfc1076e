//! Diagnostics of def maps, added to a builder.
ghost use Rattle.std.specs.Prelude.{◌≡◌, OnOk, OnErr};
ghost use Rattle.dm_maps.specs.BuildMaps.{with_diagnostic, map_fault};
ghost use Rattle.dm_maps.specs.Faults.{Answers};

use crate::build_fault::BuildFault;
use crate::builder::WorldBuilder;
use dm_base::ids::MapId;
use dm_def_map::map_change::MapChange;
use dm_scope::diagnostics::DefDiagnostic;

impl WorldBuilder {
    /// Adds what went wrong while a map was made, the last of that map's list.
    ///
    /// Errors, tested in this order: `NoSuchCrate` of a map that is not the builder's, and `OutOfMemory`; the builder
    /// is then as it was. The module and the `$crate` of a path may not be the builder's: `check` finds that.
    pub fn add_diagnostic(
        &mut self,
        map: MapId,
        diagnostic: DefDiagnostic,
    ) -> Result<(), BuildFault>
        ensures ok { OnOk result (self.new ≡ with_diagnostic self.old map diagnostic) }
        ensures fault { Answers (map_fault self.old map) result }
        ensures err { OnErr result (self.new ≡ self.old) }
    {
        if self.lacks_map(map) {
            return Err(BuildFault::NoSuchCrate);
        }
        self.change_map(map, MapChange::Diagnostic(diagnostic))?;
        Ok(())
    }
}
