//! The shapes of structs and variants, as def maps know them.
ghost use Rattle.std.specs.Prelude.{◌≡◌, IfOk};
ghost use Rattle.crate_items.specs.Shapes as spec;

use crate::files::source::Source;
use dm_base::fields_shape::FieldsShape;
use item_tree::items::fields::item_fields;
use item_tree::items::item_kind::ItemKind;
use item_tree::items::{Item, members};
use std::alloc::{AllocError, Global};

/// A shape that was read, as def maps know it.
pub(crate) fn as_shape(shape: members::FieldsShape) -> FieldsShape
    ensures { result ≡ spec.as_shape shape }
{
    match shape {
        members::FieldsShape::Record => FieldsShape::Record,
        members::FieldsShape::Tuple => FieldsShape::Tuple,
        members::FieldsShape::Unit => FieldsShape::Unit,
    }
}

/// The shape of a struct; of any other item that of a record.
pub(crate) fn item_shape(
    alloc: Global,
    source: &Source,
    item: Item,
) -> Result<FieldsShape, AllocError>
    ensures { IfOk result (λ shape. shape ≡ spec.item_shape source.now item item.kind) }
{
    match item.kind {
        ItemKind::Struct => {
            let fields = item_fields(alloc, source.lexemes(), source.partners(), item)?;
            Ok(as_shape(fields.shape))
        }
        _ => Ok(FieldsShape::Record),
    }
}
