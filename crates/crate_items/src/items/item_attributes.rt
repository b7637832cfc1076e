//! The attributes of items, and of a crate, that are active.
ghost use Rattle.std.specs.Prelude.{◌≡◌, ◌++◌, IfOk, OnOk, slice_get};
ghost use Rattle.std.specs.List.{flat_map};
ghost use Rattle.crate_items.specs.ItemAttributes as spec;
ghost use Rattle.crate_items.specs.Sources.{source_at};

use crate::files::source::Source;
use crate::items::declared_item::DeclaredItem;
use crate::items::lookups::item_at;
use crate::modules::CrateModules;
use crate::modules::standing::body_attributes;
use dm_base::ids::FileId;
use item_tree::attributes::attribute_kind::AttributeKind;
use item_tree::attributes::item_attributes::{inner_attributes, outer_attributes};
use item_tree::attributes::{Attribute, is_active};
use item_tree::items::Range;
use std::alloc::{AllocError, Global};

/// Adds what an attribute says, if it is active.
fn push_active(
    kinds: &mut Vec<AttributeKind>,
    active: &[bool],
    attribute: Attribute,
) -> Result<(), AllocError>
    ensures { OnOk result (kinds.new.items ≡ kinds.old.items ++ spec.active_kind active.now attribute) }
{
    if is_active(active, attribute.condition) {
        kinds.push(attribute.kind)?;
    }
    Ok(())
}

/// What those of some attributes say that are active.
fn active_kinds(
    alloc: Global,
    active: &[bool],
    attributes: &[Attribute],
) -> Result<Vec<AttributeKind>, AllocError>
    ensures { IfOk result
        (λ kinds. kinds.items ≡ flat_map (spec.active_kind active.now) attributes.now) }
{
    let mut kinds = Vec::new(alloc);
    for attribute in attributes {
        push_active(&mut kinds, active, *attribute)?;
    }
    Ok(kinds)
}

/// What the active attributes say that begin in a range.
pub(crate) fn kinds_in(
    alloc: Global,
    source: &Source,
    range: Range,
) -> Result<Vec<AttributeKind>, AllocError>
    ensures { IfOk result (λ kinds. kinds.items ≡ spec.kinds_in source.now range) }
{
    let attributes = source.attributes().attributes_in(range);
    active_kinds(alloc, source.active_conditions(), attributes)
}

/// What the active attributes say that stand before the item of a number in a file, in order.
///
/// # Errors
///
/// Fails only where memory runs out.
pub fn attributes_at(
    alloc: Global,
    list: &CrateModules,
    file: FileId,
    item: usize,
) -> Result<Vec<AttributeKind>, AllocError>
    ensures { IfOk result
        (λ kinds. kinds.items ≡ spec.kinds_from (source_at list.now.sources file) item) }
{
    match list.sources().get(file) {
        None => Ok(Vec::new(alloc)),
        Some(source) => match item_at(source, item) {
            None => Ok(Vec::new(alloc)),
            Some(read) => kinds_in(alloc, source, outer_attributes(read)),
        },
    }
}

/// What the active attributes say that the body of the item of a number begins with.
fn body_kinds(
    alloc: Global,
    source: &Source,
    number: usize,
) -> Result<Vec<AttributeKind>, AllocError>
    ensures { IfOk result (λ kinds. kinds.items ≡
        spec.body_kinds source.now number (slice_get source.now.items number)) }
{
    let items = source.items();
    if number < items.len() {
        kinds_in(
            alloc,
            source,
            body_attributes(items, number, items[number].body),
        )
    } else {
        Ok(Vec::new(alloc))
    }
}

/// What the active attributes say, in order, that the body of the item of a number begins with.
///
/// # Errors
///
/// Fails only where memory runs out.
pub fn body_attributes_at(
    alloc: Global,
    list: &CrateModules,
    file: FileId,
    item: usize,
) -> Result<Vec<AttributeKind>, AllocError>
    ensures { IfOk result (λ kinds. kinds.items ≡
        spec.body_kinds_from (source_at list.now.sources file) item) }
{
    match list.sources().get(file) {
        None => Ok(Vec::new(alloc)),
        Some(source) => body_kinds(alloc, source, item),
    }
}

/// What the active attributes say that stand before an item, in order.
///
/// # Errors
///
/// Fails only where memory runs out.
pub fn item_attributes(
    alloc: Global,
    list: &CrateModules,
    item: &DeclaredItem,
) -> Result<Vec<AttributeKind>, AllocError>
    ensures { IfOk result (λ kinds. kinds.items ≡ spec.item_attributes list.now item.now) }
{
    attributes_at(alloc, list, item.file, item.item)
}

/// What the active attributes say that a file begins with, in order.
///
/// # Errors
///
/// Fails only where memory runs out.
pub fn file_attributes(
    alloc: Global,
    list: &CrateModules,
    file: FileId,
) -> Result<Vec<AttributeKind>, AllocError>
    ensures { IfOk result
        (λ kinds. kinds.items ≡ spec.file_attributes (source_at list.now.sources file)) }
{
    match list.sources().get(file) {
        None => Ok(Vec::new(alloc)),
        Some(source) => kinds_in(alloc, source, inner_attributes(0, source.items())),
    }
}
