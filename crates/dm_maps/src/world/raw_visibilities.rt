//! `RawVisibility`: visibilities as they are written, before they are resolved. None of these look-ups takes memory.
//!
//! The crate of each `$crate` in what they lend is the world's.
ghost use Rattle.std.specs.Prelude.{◌≡◌, IfSome, Some, slice_get};
ghost use Rattle.std.specs.List.{AllByRecursion};
ghost use Rattle.std.specs.Option.{option_copied};
ghost use Rattle.dm_maps.specs.Holding.{local_holds};
ghost use Rattle.dm_maps.specs.TablesHold.{raw_holds, container_holds};
ghost use Rattle.dm_maps.specs.Known.{KnowsAll};
ghost use Rattle.dm_maps.specs.RawTables.{fields_in, assoc_in, trait_visibility_in};
ghost use Rattle.dm_maps.specs.World.{numbered_map};

use crate::builder::WorldBuilder;
use crate::world::World;
use crate::world::maps_of::local_def_map;
use dm_base::ids::TraitId;
use dm_base::item_ids::{AssocItemId, ItemContainerId, VariantId};
use dm_base::visibility::RawVisibility;
use dm_def_map::def_map::DefMap;
use dm_def_map::modules::local_def_map::LocalDefMap;

impl World {
    /// The visibilities of the fields of a variant, a struct or a union, in order, where they were set.
    pub fn raw_fields_of(&self, variant: VariantId) -> Option<&[RawVisibility]>
        ensures value { option_copied result ≡ fields_in self.now variant }
        ensures known { IfSome result
            (λ fields. AllByRecursion (λ v. KnowsAll self.now (raw_holds v)) fields.now) }
    {
        self.tables().raw_fields_of(variant)
    }

    /// What an associated item lies in, and its visibility, where they were set.
    pub fn raw_assoc_of(&self, id: AssocItemId) -> Option<&(ItemContainerId, RawVisibility)>
        ensures value { option_copied result ≡ assoc_in self.now id }
        ensures container { IfSome result (λ e. KnowsAll self.now (container_holds e.now.0)) }
        ensures known { IfSome result (λ e. KnowsAll self.now (raw_holds e.now.1)) }
    {
        self.tables().raw_assoc_of(id)
    }

    /// The visibility of a trait, where it was set.
    pub fn raw_trait_of(&self, id: TraitId) -> Option<&RawVisibility>
        ensures value { option_copied result ≡ trait_visibility_in self.now id }
        ensures known { IfSome result (λ v. KnowsAll self.now (raw_holds v.now)) }
    {
        self.tables().raw_trait_of(id)
    }

    /// The extern prelude of the crate that a map belongs to. The map has to be the world's of its id.
    pub fn local_map_of(&self, map: &DefMap) -> &LocalDefMap
        requires { numbered_map self.now map.now.id ≡ Some map.now }
        ensures value { slice_get self.now.local_maps map.now.id.krate.0 ≡ Some result.now }
        ensures known { KnowsAll self.now (local_holds result.now) }
    {
        let _world = self.tables();
        local_def_map(self, map.krate())
    }
}

impl WorldBuilder {
    fn raw_fields_of(&self, variant: VariantId) -> Option<&[RawVisibility]>
        ensures { option_copied result ≡ fields_in self.now variant }
    {
        Some(self.item_tables.fields().get(&variant)?.as_slice())
    }

    fn raw_assoc_of(&self, id: AssocItemId) -> Option<&(ItemContainerId, RawVisibility)>
        ensures { option_copied result ≡ assoc_in self.now id }
    {
        self.item_tables.assocs().get(&id)
    }

    fn raw_trait_of(&self, id: TraitId) -> Option<&RawVisibility>
        ensures { option_copied result ≡ trait_visibility_in self.now id }
    {
        self.item_tables.traits().get(&id)
    }
}
