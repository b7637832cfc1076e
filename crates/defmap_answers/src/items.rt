//! What is read of one file: its tokens, items, members, use trees, attributes, predicates or
//! syntax errors, in lines.
ghost use Rattle.item_tree.specs.Children.{ByParent};

mod attributes;
mod errors;
mod item_attributes;
mod item_lines;
mod members;
mod parsed;
mod predicates;
mod tokens;
mod uses;

use crate::items::parsed::{Parsed, read_text};
use defmap_inputs::item_tables::ItemTable;
use dm_base::edition::Edition;
use item_tree::cfg::CfgOptions;
use std::alloc::{AllocError, Global};

/// How a file is read: its edition, and the options that are set.
#[derive(Clone, Copy)]
pub struct Manner<'a> {
    pub edition: Edition,
    pub options: &'a CfgOptions,
}

/// Adds a table of what was read.
fn push_read(
    out: &mut String,
    alloc: Global,
    manner: Manner<'_>,
    table: ItemTable,
    text: &str,
    read: &Parsed,
) -> Result<(), AllocError>
    requires { ByParent read.now.tree.items.items }
{
    match table {
        ItemTable::Visibilities => item_lines::push_visibilities(out, read),
        ItemTable::Implementations => item_lines::push_implementations(out, alloc, text, read),
        ItemTable::Members => members::push_members(out, alloc, text, read),
        ItemTable::Uses => uses::push_uses(out, alloc, text, read),
        ItemTable::Errors => errors::push_errors(out, alloc, text, read),
        ItemTable::ItemAttributes => item_attributes::push_item_attributes(
            out, alloc, manner, text, read,
        ),
        _ => item_lines::push_items(out, text, read),
    }
}

/// Adds a table of a text.
fn push_table(
    out: &mut String,
    alloc: Global,
    manner: Manner<'_>,
    table: ItemTable,
    text: &str,
) -> Result<(), AllocError> {
    match table {
        ItemTable::Tokens => tokens::push_tokens(out, alloc, manner.edition, text),
        ItemTable::Lexemes => tokens::push_lexemes(out, alloc, manner.edition, text),
        ItemTable::Predicates => predicates::push_predicates(out, alloc, manner, text),
        ItemTable::Attributes => attributes::push_attributes(out, alloc, manner, text),
        _ => {
            let read = read_text(alloc, manner.edition, text)?;
            push_read(out, alloc, manner, table, text, &read)
        }
    }
}

/// A table of a text, in lines.
pub fn items_text(
    alloc: Global,
    manner: Manner<'_>,
    table: ItemTable,
    text: &str,
) -> Result<String, AllocError> {
    let mut out = String::new(alloc);
    push_table(&mut out, alloc, manner, table, text)?;
    Ok(out)
}
