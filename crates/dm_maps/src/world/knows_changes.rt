//! Tests whether what the calls that change a checked world take is the world's. None of them takes memory.
ghost use Rattle.std.specs.Prelude.{◌≡◌, ◌↔◌, IsTrue};
ghost use Rattle.dm_maps.specs.Holding.{vis_holds};
ghost use Rattle.dm_maps.specs.BuildMaps.{lacks_map};
ghost use Rattle.dm_maps.specs.GoesOn.{trait_import_holds};
ghost use Rattle.dm_maps.specs.Known.{KnowsAll};

use crate::check::notes::vis_fault;
use crate::world::World;
use dm_base::ids::{MapId, ModuleId, TraitId};
use dm_base::imports::{ImportId, ImportOrExternCrate};
use dm_base::item_ids::ModuleDefId;
use dm_base::per_ns::PerNs;
use dm_base::visibility::Visibility;

impl World {
    /// Whether there is no map of that number, or it is another crate's.
    pub fn lacks_map(&self, id: MapId) -> bool
        ensures { result ≡ lacks_map self.now id }
    {
        self.tables().lacks_map(id)
    }

    /// Whether the module or crate that a visibility names is the world's, if it names one.
    pub fn knows_vis(&self, vis: Visibility) -> bool
        ensures { IsTrue result ↔ KnowsAll self.now (vis_holds vis) }
    {
        let least = vis_fault(self.tables(), vis);
        least.is_none()
    }

    /// Whether all that an import of a trait without a name holds is the world's: the module that it goes to, the
    /// trait, the visibility, and the use of the import.
    pub fn knows_unnamed_trait(
        &self,
        m: ModuleId,
        tr: TraitId,
        vis: Visibility,
        import: Option<ImportId>,
    ) -> bool
        ensures { IsTrue result ↔ KnowsAll self.now (trait_import_holds m tr vis import) }
    {
        let res = PerNs::types(ModuleDefId::TraitId(tr), vis, None);
        match import {
            None => self.knows_res(m, &res, None),
            Some(id) => self.knows_res(m, &res, Some(ImportOrExternCrate::Import(id))),
        }
    }
}
