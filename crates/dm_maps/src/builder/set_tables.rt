//! Setters for the tables of a builder that belong to no map and no module.
ghost use Rattle.std.specs.Prelude.{◌≡◌, None, OnOk, OnErr};
ghost use Rattle.dm_maps.specs.BuildTables.{with_raw, with_fields, with_assoc_item, with_trait_visibility};
ghost use Rattle.dm_maps.specs.Faults.{Answers};

use crate::build_fault::BuildFault;
use crate::builder::WorldBuilder;
use dm_base::ids::TraitId;
use dm_base::item_ids::{AssocItemId, ItemContainerId, VariantId};
use dm_base::name::Name;
use dm_base::visibility::RawVisibility;
use dm_def_map::item_tables::field_list::FieldList;

/// The only error of each call is `OutOfMemory`; the builder is then as it was. An entry that is there is replaced. The
/// ids that are handed in may not be the builder's: `check` finds that.
impl WorldBuilder {
    /// Adds a name that is printed as raw. One that is there stays.
    pub fn add_raw_name(&mut self, name: Name) -> Result<(), BuildFault>
        ensures ok { OnOk result (self.new ≡ with_raw self.old name) }
        ensures fault { Answers None result }
        ensures err { OnErr result (self.new ≡ self.old) }
    {
        self.item_tables.add_raw_name(name)?;
        Ok(())
    }

    /// Sets the visibilities of the fields of a variant, a struct or a union, in order.
    pub fn set_fields(
        &mut self,
        variant: VariantId,
        fields: Vec<RawVisibility>,
    ) -> Result<(), BuildFault>
        ensures ok { OnOk result (self.new ≡ with_fields self.old variant fields.items) }
        ensures fault { Answers None result }
        ensures err { OnErr result (self.new ≡ self.old) }
    {
        let list = FieldList::new(fields);
        self.item_tables.set_fields(variant, list)?;
        Ok(())
    }

    /// Sets what an associated item lies in, and its visibility.
    pub fn set_assoc(
        &mut self,
        id: AssocItemId,
        container: ItemContainerId,
        vis: RawVisibility,
    ) -> Result<(), BuildFault>
        ensures ok { OnOk result (self.new ≡ with_assoc_item self.old id container vis) }
        ensures fault { Answers None result }
        ensures err { OnErr result (self.new ≡ self.old) }
    {
        self.item_tables.set_assoc(id, container, vis)?;
        Ok(())
    }

    /// Sets the visibility of a trait.
    pub fn set_trait_visibility(
        &mut self,
        id: TraitId,
        vis: RawVisibility,
    ) -> Result<(), BuildFault>
        ensures ok { OnOk result (self.new ≡ with_trait_visibility self.old id vis) }
        ensures fault { Answers None result }
        ensures err { OnErr result (self.new ≡ self.old) }
    {
        self.item_tables.set_trait(id, vis)?;
        Ok(())
    }
}
