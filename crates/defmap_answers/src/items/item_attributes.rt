//! The attributes of items, and the inner ones of their bodies.
ghost use Rattle.item_tree.specs.Children.{ByParent};

use crate::items::Manner;
use crate::items::parsed::Parsed;
use item_tree::attributes::item_attributes::{inner_attributes, outer_attributes};
use item_tree::attributes::{Attributes, read_attributes};
use item_tree::items::{Item, Range};
use item_tree::lexer::children::children_of;
use std::alloc::{AllocError, Global};
use std::fmt::Write;

/// Where the inner attributes of an item stand, which has these items in its body.
fn inside(item: Item, own: &[Item]) -> Range {
    let first = match item.body {
        None => 0,
        Some(body) => body.first,
    };
    inner_attributes(first, own)
}

/// Where the inner attributes of each item stand.
fn insides(alloc: Global, items: &[Item]) -> Result<Vec<Range>, AllocError>
    requires { ByParent items.now }
{
    let mut ranges = Vec::new(alloc);
    for (number, item) in items.iter().enumerate() {
        ranges.push(inside(*item, children_of(items, number)))?;
    }
    Ok(ranges)
}

/// Adds how many attributes begin in a range, and whether they leave there what they belong to.
fn push_range(
    out: &mut String,
    manner: Manner<'_>,
    text: &[u8],
    table: &Attributes,
    active: &[bool],
    range: Range,
) -> Result<(), AllocError> {
    let count = table.attributes_in(range).len();
    let is_there = table.is_cfg_enabled(manner.options, text, active, range);
    write!(out, " {count} {is_there}")
}

/// Adds those of each item.
pub(crate) fn push_item_attributes(
    out: &mut String,
    alloc: Global,
    manner: Manner<'_>,
    text: &str,
    read: &Parsed,
) -> Result<(), AllocError>
    requires { ByParent read.now.tree.items.items }
{
    let bytes = text.as_bytes();
    let insides = insides(alloc, read.tree.items.as_slice())?;
    let table = read_attributes(alloc, bytes, read.lexemes.as_slice())?;
    let active = table.active_conditions(alloc, manner.options, bytes)?;
    let active = active.as_slice();
    for (item, inner) in read.tree.items.iter().zip(&insides) {
        write!(out, "{:?}", item.kind)?;
        let outer = outer_attributes(*item);
        push_range(out, manner, bytes, &table, active, outer)?;
        push_range(out, manner, bytes, &table, active, *inner)?;
        out.push_str("\n")?;
    }
    Ok(())
}
