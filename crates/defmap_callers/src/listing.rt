//! The public items of a text.
ghost use Rattle.std.specs.Prelude.{◌≡◌, IfOk, filter};
ghost use Rattle.defmap_callers.specs.Listing.{AreItemsOf, AreLexemesOf, is_public, name_of};

use dm_base::edition::Edition;
use item_tree::items::visibility::{RawVisibility, raw_visibility};
use item_tree::items::{Item, ItemTree, Range, item_tree};
use item_tree::lexer::delimiters::partners;
use item_tree::lexer::lexeme::{Lexeme, read_lexemes};
use item_tree::lexer::span::{Span, name_text};
use std::alloc::{AllocError, Global};

/// Whether `pub` alone is written before an item.
pub fn is_public(lexemes: &[Lexeme], item: Item) -> bool
    ensures { result ≡ is_public lexemes.now item }
{
    let written = Range {
        first: item.visibility,
        behind: item.qualifiers,
    };
    matches!(raw_visibility(lexemes, written), RawVisibility::Public)
}

/// The public ones among some items of a text.
pub fn public_items(
    alloc: Global,
    lexemes: &[Lexeme],
    items: &[Item],
) -> Result<Vec<Item>, AllocError>
    ensures { IfOk result (λ found. found.items ≡ filter (is_public lexemes.now) items.now) }
{
    items
        .iter()
        .copied()
        .filter(|item| is_public(lexemes, *item))
        .collect(alloc)
}

/// What a text declares: its lexemes, its items, and the public ones among these.
#[derive(Drop)]
pub struct Listing {
    pub lexemes: Vec<Lexeme>,
    pub tree: ItemTree,
    pub public: Vec<Item>,
}

/// Reads a text, and lists its public items: those of modules behind those of the modules around.
pub fn listed(alloc: Global, text: &[u8]) -> Result<Listing, AllocError>
    ensures lexemes { IfOk result (λ listing. AreLexemesOf text.now listing.lexemes.items) }
    ensures items { IfOk result
        (λ listing. AreItemsOf listing.lexemes.items listing.tree.items.items) }
    ensures public { IfOk result (λ listing. listing.public.items
        ≡ filter (is_public listing.lexemes.items) listing.tree.items.items) }
{
    let lexemes = read_lexemes(alloc, text, Edition::Edition2021)?;
    let partners = partners(alloc, lexemes.as_slice())?;
    let tree = item_tree(alloc, lexemes.as_slice(), partners.as_slice())?;
    let public = public_items(alloc, lexemes.as_slice(), tree.items.as_slice())?;
    Ok(Listing {
        lexemes,
        tree,
        public,
    })
}

/// The name of an item in its text, without the `r#` of a raw one; nothing where it has none.
pub fn name_of<'a>(text: &'a [u8], lexemes: &[Lexeme], item: Item) -> &'a [u8]
    ensures { result.now ≡ name_of text.now lexemes.now item }
{
    match item.name {
        None => &[],
        Some(place) => match lexemes.get(place) {
            None => &[],
            Some(lexeme) => {
                let (start, len) = (lexeme.start, lexeme.len);
                name_text(text, Span { start, len })
            }
        },
    }
}
