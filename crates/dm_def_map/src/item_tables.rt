//! Tables of items, outside all def maps: visibilities of fields and traits, containers of associated items, raw names.
ghost use Rattle.std.specs.Prelude.{◌≡◌, [], OnOk, OnErr};
ghost use Rattle.std.specs.List.{list_any};
ghost use Rattle.dm_base.specs.Names.{same_name};
ghost use Rattle.dm_def_map.specs.ItemTables.{no_tables, with_raw_name};
ghost use Rattle.dm_def_map.specs.TableChanges.{with_field_list, with_assoc, with_trait};

pub mod derive_helpers;
pub mod field_list;
pub mod keyed_tables;
pub mod variants;

use crate::growth::put;
use crate::item_tables::field_list::FieldList;
use crate::item_tables::keyed_tables::{put_assoc, put_fields};
use dm_base::ids::TraitId;
use dm_base::item_ids::{AssocItemId, ItemContainerId, VariantId};
use dm_base::name::Name;
use dm_base::visibility::RawVisibility;
use indexmap::{IndexMap, IndexSet};
use std::alloc::{AllocError, Global};
use std::marker::Model;

/// The visibilities of fields and traits, the container and visibility of each associated item, and the names that are
/// printed as raw identifiers (`r#name`).
pub struct ItemTables {
    fields: IndexMap<VariantId, FieldList>,
    assocs: IndexMap<AssocItemId, (ItemContainerId, RawVisibility)>,
    traits: IndexMap<TraitId, RawVisibility>,
    raw_names: IndexSet<Name>,
}

/// A hand-written `Drop`, to keep proofs small: code that drops a value has one call to prove.
impl Drop for ItemTables {
    fn drop(self) {
        let ItemTables {
            fields: _fields,
            assocs: _assocs,
            traits: _traits,
            raw_names: _raw_names,
        } = self;
    }
}

impl Model for ItemTables {
    ghost use Rattle.dm_def_map.specs.ItemTables.{ItemTables};

    ghost Value = { ItemTables };

    ghost view = { λ t. record { fields = t.fields.entries; assocs = t.assocs.entries; traits = t.traits.entries; raw_names = t.raw_names.keys } };
}

impl ItemTables {
    /// Tables with no entry.
    pub fn new(alloc: Global) -> ItemTables
        ensures { result ≡ no_tables }
    {
        ItemTables {
            fields: IndexMap::new(alloc),
            assocs: IndexMap::new(alloc),
            traits: IndexMap::new(alloc),
            raw_names: IndexSet::new(alloc),
        }
    }

    /// Adds a name that is printed as a raw identifier. One that is there stays at its place.
    pub fn add_raw_name(&mut self, name: Name) -> Result<(), AllocError>
        ensures ok { OnOk result (self.new ≡ with_raw_name self.old name) }
        ensures err { OnErr result (self.new ≡ self.old) }
    {
        self.raw_names.insert(name)?;
        Ok(())
    }

    /// Whether a name is printed as a raw identifier. One look-up, which does not allocate.
    pub fn has_raw_name(&self, name: &Name) -> bool
        ensures { result ≡ list_any (same_name name.now) self.now.raw_names }
    {
        self.raw_names.contains(name)
    }

    /// Sets the visibilities of fields.
    pub fn set_fields(&mut self, variant: VariantId, fields: FieldList) -> Result<(), AllocError>
        ensures ok { OnOk result (self.new ≡ with_field_list self.old variant fields) }
        ensures err { OnErr result (self.new ≡ self.old) }
    {
        put_fields(&mut self.fields, variant, fields)?;
        Ok(())
    }

    /// Sets the container of an associated item, and its visibility.
    pub fn set_assoc(
        &mut self,
        id: AssocItemId,
        container: ItemContainerId,
        vis: RawVisibility,
    ) -> Result<(), AllocError>
        ensures ok { OnOk result (self.new ≡ with_assoc self.old id container vis) }
        ensures err { OnErr result (self.new ≡ self.old) }
    {
        put_assoc(&mut self.assocs, id, (container, vis))?;
        Ok(())
    }

    /// Sets the visibility of a trait.
    pub fn set_trait(&mut self, id: TraitId, vis: RawVisibility) -> Result<(), AllocError>
        ensures ok { OnOk result (self.new ≡ with_trait self.old id vis) }
        ensures err { OnErr result (self.new ≡ self.old) }
    {
        put(&mut self.traits, id, vis)?;
        Ok(())
    }

    /// The visibilities of fields.
    pub fn fields(&self) -> &IndexMap<VariantId, FieldList>
        ensures { result.now.entries ≡ self.now.fields }
    {
        &self.fields
    }

    /// The containers of associated items, and their visibilities.
    pub fn assocs(&self) -> &IndexMap<AssocItemId, (ItemContainerId, RawVisibility)>
        ensures { result.now.entries ≡ self.now.assocs }
    {
        &self.assocs
    }

    /// The visibilities of traits.
    pub fn traits(&self) -> &IndexMap<TraitId, RawVisibility>
        ensures { result.now.entries ≡ self.now.traits }
    {
        &self.traits
    }
}
