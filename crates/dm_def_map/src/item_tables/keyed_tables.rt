//! Tables keyed by item ids, set entry by entry. Where an allocation fails, nothing changes.
ghost use Rattle.std.specs.Prelude.{◌≡◌, OnOk, OnErr, IfSome, slice_get, position, map};
ghost use Rattle.std.specs.Map.{lookup, keys_of};
ghost use Rattle.std.specs.Option.{option_copied};
ghost use Rattle.indexmap.specs.IndexMap.{insert_entry};
ghost use Rattle.dm_base.specs.Sameness.{same_ast};
ghost use Rattle.dm_def_map.specs.Keys.{same_variant, same_assoc};

use crate::growth::put;
use crate::item_tables::derive_helpers::{DeriveHelper, DeriveHelpers};
use crate::item_tables::field_list::FieldList;
use dm_base::item_ids::{AssocItemId, ItemContainerId, MacroId, VariantId};
use dm_base::source::AstId;
use dm_base::visibility::RawVisibility;
use indexmap::IndexMap;
use std::alloc::AllocError;

/// Sets the visibilities of the fields of a variant, a struct or a union.
pub(crate) fn put_fields(
    table: &mut IndexMap<VariantId, FieldList>,
    variant: VariantId,
    fields: FieldList,
) -> Result<(), AllocError>
    ensures ok { OnOk result (table.new.entries ≡ insert_entry same_variant table.old.entries variant fields) }
    ensures err { OnErr result (table.new.entries ≡ table.old.entries) }
{
    put(table, variant, fields)?;
    Ok(())
}

/// Sets the container of an associated item, and its visibility.
pub(crate) fn put_assoc(
    table: &mut IndexMap<AssocItemId, (ItemContainerId, RawVisibility)>,
    id: AssocItemId,
    place: (ItemContainerId, RawVisibility),
) -> Result<(), AllocError>
    ensures ok { OnOk result (table.new.entries ≡ insert_entry same_assoc table.old.entries id place) }
    ensures err { OnErr result (table.new.entries ≡ table.old.entries) }
{
    put(table, id, place)?;
    Ok(())
}

/// Sets the macro that an AST item defines.
pub fn put_macro_def(
    table: &mut IndexMap<AstId, MacroId>,
    ast: AstId,
    m: MacroId,
) -> Result<(), AllocError>
    ensures ok { OnOk result (table.new.entries ≡ insert_entry same_ast table.old.entries ast m) }
    ensures err { OnErr result (table.new.entries ≡ table.old.entries) }
{
    put(table, ast, m)?;
    Ok(())
}

/// Adds helpers of an item that had none.
pub(crate) fn put_helpers(
    table: &mut IndexMap<AstId, DeriveHelpers>,
    ast: AstId,
    helpers: DeriveHelpers,
) -> Result<(), AllocError>
    ensures ok { OnOk result (table.new.entries ≡ insert_entry same_ast table.old.entries ast helpers) }
    ensures err { OnErr result (table.new.entries ≡ table.old.entries) }
{
    put(table, ast, helpers)?;
    Ok(())
}

/// The place of an item that has helpers.
pub(crate) fn place_of_helpers(table: &IndexMap<AstId, DeriveHelpers>, ast: AstId) -> Option<usize>
    ensures index { result ≡ position (same_ast ast) (keys_of table.now.entries) }
    ensures value { IfSome result
        (λ i.
        slice_get (map (λ e. e.1) table.now.entries) i
        ≡ lookup (same_ast ast) table.now.entries) }
{
    table.get_index_of(&ast)
}

/// The helpers of an item, in order.
pub fn helpers_of(table: &IndexMap<AstId, DeriveHelpers>, ast: AstId) -> Option<&[DeriveHelper]>
    ensures { option_copied result ≡ lookup (same_ast ast) table.now.entries }
{
    let helpers = table.get(&ast)?;
    Some(helpers.as_slice())
}

/// The macro that an AST item defines.
pub fn macro_def_of(table: &IndexMap<AstId, MacroId>, ast: AstId) -> Option<MacroId>
    ensures { result ≡ lookup (same_ast ast) table.now.entries }
{
    table.get(&ast).copied()
}
