//! Visibilities of fields and of traits, as they are written, set in a builder.
ghost use Rattle.std.specs.Prelude.{◌≡◌, true, IfErr, OnOk};
ghost use Rattle.crate_tables.specs.CrateTables.{IsTableOf};
ghost use Rattle.crate_tables.specs.RawVisibilities as spec;
ghost use Rattle.dm_maps.specs.Added.{IsGrown};
ghost use Rattle.crate_tables.specs.Numbers.{has_too_many, is_shortage};
ghost use Rattle.dm_maps.specs.BuildTables.{with_fields, with_trait_visibility};
ghost use Rattle.dm_maps.specs.declared.build_fault.BuildFault.TheVariants.{OutOfMemory};

use crate::crate_defs::add_items;
use crate::crate_table::CrateTable;
use crate::item_place::DefPlace;
use crate::new_module::CrateView;
use crate_items::items::declared_field::field_visibilities;
use crate_items::items::declared_item::DeclaredItem;
use crate_items::items::raw_visibilities::item_visibility;
use dm_base::ids::TraitId;
use dm_base::item_ids::{AdtId, ModuleDefId, VariantId};
use dm_base::visibility::RawVisibility;
use dm_maps::build_fault::BuildFault;
use dm_maps::builder::WorldBuilder;
use dm_maps::laws::settings_keep_scopes;
use std::alloc::Global;

/// Sets the visibilities of fields.
pub(crate) fn set_fields(
    builder: &mut WorldBuilder,
    variant: VariantId,
    fields: Vec<RawVisibility>,
) -> Result<(), BuildFault>
    ensures world { OnOk result (builder.new ≡ with_fields builder.old variant fields.items) }
    ensures grown { IsGrown builder.old builder.new }
    ensures fault { IfErr result (λ fault. fault ≡ OutOfMemory) }
{
    settings_keep_scopes();
    builder.set_fields(variant, fields)?;
    Ok(())
}

/// Sets the visibility of a trait.
fn set_trait(
    builder: &mut WorldBuilder,
    id: TraitId,
    visibility: RawVisibility,
) -> Result<(), BuildFault>
    ensures world { OnOk result (builder.new ≡ with_trait_visibility builder.old id visibility) }
    ensures grown { IsGrown builder.old builder.new }
    ensures fault { IfErr result (λ fault. fault ≡ OutOfMemory) }
{
    settings_keep_scopes();
    builder.set_trait_visibility(id, visibility)?;
    Ok(())
}

/// Sets the visibilities of the fields that are written at a place.
fn set_fields_at(
    builder: &mut WorldBuilder,
    alloc: Global,
    view: &CrateView<'_>,
    variant: VariantId,
    place: &DefPlace,
) -> Result<(), BuildFault>
    ensures world { OnOk result
        (builder.new ≡ spec.with_fields_at view.now builder.old variant place.now) }
    ensures grown { IsGrown builder.old builder.new }
    ensures fault { IfErr result (λ fault. fault ≡ OutOfMemory) }
{
    let (file, item) = (place.file, place.item);
    let fields = field_visibilities(alloc, view.options, view.list, view.files, file, item)?;
    set_fields(builder, variant, fields)
}

/// Sets what is written of a definition.
fn set_at(
    builder: &mut WorldBuilder,
    alloc: Global,
    view: &CrateView<'_>,
    place: &DefPlace,
) -> Result<(), BuildFault>
    ensures world { OnOk result
        (builder.new ≡ spec.with_raw_as view.now builder.old place.now place.now.def) }
    ensures grown { IsGrown builder.old builder.new }
    ensures fault { IfErr result (λ fault. fault ≡ OutOfMemory) }
{
    match place.def {
        ModuleDefId::AdtId(AdtId::StructId(id)) => {
            set_fields_at(builder, alloc, view, VariantId::StructId(id), place)
        }
        ModuleDefId::AdtId(AdtId::UnionId(id)) => {
            set_fields_at(builder, alloc, view, VariantId::UnionId(id), place)
        }
        ModuleDefId::TraitId(id) => {
            let raw = item_visibility(alloc, view.list, view.files, place.file, place.item)?;
            set_trait(builder, id, raw)
        }
        _ => Ok(()),
    }
}

/// Sets the visibilities that are written of some definitions of a crate, in order: those of the fields of structs and
/// unions, and those of traits. An entry that is there is replaced.
///
/// # Errors
///
/// Fails only where memory runs out. What was set before stays.
pub fn set_raw_visibilities(
    builder: &mut WorldBuilder,
    alloc: Global,
    view: &CrateView<'_>,
    places: &[DefPlace],
) -> Result<(), BuildFault>
    ensures world { OnOk result
        (builder.new ≡ spec.with_raw_visibilities view.now builder.old places.now) }
    ensures grown { IsGrown builder.old builder.new }
    ensures fault { IfErr result (λ fault. fault ≡ OutOfMemory) }
{
    for place in places {
        set_at(builder, alloc, view, place)?;
    }
    Ok(())
}

/// Adds the items of a crate, as `add_items` does, and sets the visibilities that are written of its definitions.
pub(crate) fn add_written_items(
    builder: &mut WorldBuilder,
    table: &mut CrateTable,
    alloc: Global,
    view: &CrateView<'_>,
    items: Vec<DeclaredItem>,
) -> Result<(), BuildFault>
    requires { IsTableOf builder.old view.now.krate table.old }
    ensures filled { OnOk result ((record { world = builder.new; table = table.new }) ≡
        spec.with_written_items view.now (record { world = builder.old; table = table.old }) items.items) }
    ensures kept { OnOk result (IsTableOf builder.new view.now.krate table.new) }
    ensures grown { IsGrown builder.old builder.new }
    ensures fault { IfErr result (λ fault. is_shortage (has_too_many
        (spec.with_written_items view.now (record { world = builder.old; table = table.old }) items.items).world) fault ≡ true) }
{
    add_items(builder, table, alloc, view, items)?;
    set_raw_visibilities(builder, alloc, view, table.defs())?;
    Ok(())
}
