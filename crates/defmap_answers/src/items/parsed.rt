//! A text that is read, and pieces of it.
ghost use Rattle.std.specs.Prelude.{IfOk};
ghost use Rattle.item_tree.specs.Children.{ByParent};

use dm_base::edition::Edition;
use item_tree::ids::TextRange;
use item_tree::items::{ItemTree, item_tree};
use item_tree::lexer::delimiters::partners;
use item_tree::lexer::lexeme::{Lexeme, read_lexemes};
use std::alloc::{AllocError, Global};

/// A text's lexemes, their partners and its items.
#[derive(Drop)]
pub(crate) struct Parsed {
    pub(crate) lexemes: Vec<Lexeme>,
    pub(crate) partners: Vec<usize>,
    pub(crate) tree: ItemTree,
}

/// Reads a text.
pub(crate) fn read_text(alloc: Global, edition: Edition, text: &str) -> Result<Parsed, AllocError>
    ensures { IfOk result (λ read. ByParent read.tree.items.items) }
{
    let lexemes = read_lexemes(alloc, text.as_bytes(), edition)?;
    let partners = partners(alloc, lexemes.as_slice())?;
    let tree = item_tree(alloc, lexemes.as_slice(), partners.as_slice())?;
    Ok(Parsed {
        lexemes,
        partners,
        tree,
    })
}

/// The text of some bytes.
pub(crate) fn text_in(text: &str, range: TextRange) -> &str {
    text.get(range.start..range.end).unwrap_or("?")
}

/// So many bytes of a text.
fn bytes_in(text: &str, start: usize, len: usize) -> &str {
    text.get(start..start.saturating_add(len)).unwrap_or("?")
}

/// The text of a lexeme.
pub(crate) fn lexeme_text<'a>(text: &'a str, lexemes: &[Lexeme], place: usize) -> &'a str {
    match lexemes.get(place) {
        Some(lexeme) => bytes_in(text, lexeme.start, lexeme.len),
        None => "?",
    }
}
