//! The use trees of the `use` items of a text: each with the number of the list that it stands in,
//! its text, and what it imports.
use crate::items::parsed::{Parsed, lexeme_text, text_in};
use item_tree::ids::use_tree_range;
use item_tree::items::imports::{import_kind, import_path};
use item_tree::items::item_kind::ItemKind;
use item_tree::items::use_tree::{UseTree, use_trees};
use item_tree::items::{Item, Range};
use item_tree::lexer::lexeme::Lexeme;
use std::alloc::{AllocError, Global};
use std::fmt::Write;

/// Adds what a use tree imports.
fn push_import(
    out: &mut String,
    alloc: Global,
    text: &str,
    lexemes: &[Lexeme],
    trees: &[UseTree],
    number: usize,
    tree: UseTree,
) -> Result<(), AllocError> {
    let Some(kind) = import_kind(lexemes, tree) else {
        return Ok(());
    };
    write!(out, " = {kind:?}")?;
    for place in &import_path(alloc, lexemes, trees, number)? {
        write!(out, " {}", lexeme_text(text, lexemes, *place))?;
    }
    match tree.alias {
        None => Ok(()),
        Some(place) => write!(out, " as {}", lexeme_text(text, lexemes, place)),
    }
}

/// Adds a use tree of an item: what it is, the number of the list that it stands in, and its text.
fn push_tree(out: &mut String, text: &str, read: &Parsed, tree: UseTree) -> Result<(), AllocError> {
    let range = use_tree_range(read.lexemes.as_slice(), read.partners.as_slice(), tree);
    let own = text_in(text, range);
    let (kind, parent) = (tree.kind, tree.parent);
    write!(out, "{kind:?} {parent:?} {own}")
}

/// Adds the use trees of an item, those in a list behind it.
fn push_trees(
    out: &mut String,
    alloc: Global,
    text: &str,
    read: &Parsed,
    item: &Item,
) -> Result<(), AllocError> {
    let lexemes = read.lexemes.as_slice();
    let behind_word = Range {
        first: item.word.saturating_add(1),
        behind: item.behind,
    };
    let trees = use_trees(alloc, lexemes, behind_word)?;
    for (number, tree) in trees.iter().enumerate() {
        push_tree(out, text, read, *tree)?;
        push_import(out, alloc, text, lexemes, trees.as_slice(), number, *tree)?;
        out.push_str("\n")?;
    }
    Ok(())
}

/// Adds the use trees of each `use` item.
pub(crate) fn push_uses(
    out: &mut String,
    alloc: Global,
    text: &str,
    read: &Parsed,
) -> Result<(), AllocError> {
    for item in &read.tree.items {
        if let ItemKind::Use = item.kind {
            push_trees(out, alloc, text, read, item)?;
        }
    }
    Ok(())
}
