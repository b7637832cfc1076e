//! The items of a text, what is written before each, and of which kind its implementations are.
use crate::items::parsed::{Parsed, lexeme_text, text_in};
use item_tree::ids::item_range;
use item_tree::items::implementations::is_of_trait;
use item_tree::items::item_kind::ItemKind;
use item_tree::items::visibility::raw_visibility;
use item_tree::items::{Item, Range};
use item_tree::lexer::lexeme::Lexeme;
use std::alloc::{AllocError, Global};
use std::fmt::Write;

/// Adds an item: its kind and name, the number of the item that it stands in, and its own text.
fn push_item(
    out: &mut String,
    text: &str,
    lexemes: &[Lexeme],
    item: Item,
) -> Result<(), AllocError> {
    let name = match item.name {
        None => "",
        Some(place) => lexeme_text(text, lexemes, place),
    };
    write!(out, "{:?} {name}", item.kind)?;
    if let Some(parent) = item.parent {
        write!(out, " in {parent}")?;
    }
    write!(out, ": {}\n", text_in(text, item_range(lexemes, item)))
}

/// Adds each item.
pub(crate) fn push_items(out: &mut String, text: &str, read: &Parsed) -> Result<(), AllocError> {
    for item in &read.tree.items {
        push_item(out, text, read.lexemes.as_slice(), *item)?;
    }
    Ok(())
}

/// Adds what is written before each item.
pub(crate) fn push_visibilities(out: &mut String, read: &Parsed) -> Result<(), AllocError> {
    for item in &read.tree.items {
        let range = Range {
            first: item.visibility,
            behind: item.qualifiers,
        };
        let visibility = raw_visibility(read.lexemes.as_slice(), range);
        write!(out, "{visibility:?}\n")?;
    }
    Ok(())
}

/// Adds an implementation, and whether it is one of a trait.
fn push_implementation(
    out: &mut String,
    alloc: Global,
    text: &str,
    read: &Parsed,
    item: &Item,
) -> Result<(), AllocError> {
    let lexemes = read.lexemes.as_slice();
    let is_of_trait = is_of_trait(alloc, lexemes, read.partners.as_slice(), item)?;
    let word = if is_of_trait {
        "of a trait"
    } else {
        "inherent"
    };
    write!(
        out,
        "{word}: {}\n",
        text_in(text, item_range(lexemes, *item))
    )
}

/// Adds each implementation, and whether it is one of a trait.
pub(crate) fn push_implementations(
    out: &mut String,
    alloc: Global,
    text: &str,
    read: &Parsed,
) -> Result<(), AllocError> {
    for item in &read.tree.items {
        if let ItemKind::Impl = item.kind {
            push_implementation(out, alloc, text, read, item)?;
        }
    }
    Ok(())
}
