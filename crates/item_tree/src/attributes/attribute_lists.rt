//! The lists of attributes, as those of `derive`, `feature` and `proc_macro_derive`.
ghost use Rattle.std.specs.Prelude.{◌≡◌, ◌+◌, ◌<◌, ◌^◌, ◌++◌, IfOk, OnOk, length};
ghost use Rattle.item_tree.specs.AttributeLists as spec;

use crate::attributes::attribute_kind::{AttributeInput, input_of, lexemes_in};
use crate::cfg::cfg_parser::span_of;
use crate::items::Range;
use crate::lexer::lexeme::{Lexeme, LexemeKind};
use crate::lexer::span::name_text;
use std::alloc::{AllocError, Global};

/// How many brackets are open behind a lexeme.
fn depth_behind(depth: usize, kind: LexemeKind) -> usize
    requires { depth < 2 ^ 63 }
    ensures { result ≡ spec.depth_behind depth kind }
{
    match kind {
        LexemeKind::Open(_) => depth + 1,
        LexemeKind::Close(_) => depth.saturating_sub(1),
        _ => depth,
    }
}

/// Whether a lexeme is a comma that is in no brackets.
fn is_separator(depth: usize, kind: LexemeKind) -> bool
    ensures { result ≡ spec.is_separator depth kind }
{
    depth == 0 && matches!(kind, LexemeKind::Mark(b','))
}

/// Adds an item, unless it is empty.
fn push_item(items: &mut Vec<Range>, start: usize, end: usize) -> Result<(), AllocError>
    ensures { OnOk result (items.new.items ≡ items.old.items ++ spec.item start end) }
{
    if start < end {
        items.push(Range {
            first: start,
            behind: end,
        })?;
    }
    Ok(())
}

/// The items of a list, of which so many lexemes stand before it.
fn split(alloc: Global, list: &[Lexeme], before: usize) -> Result<Vec<Range>, AllocError>
    requires { before + length list.now < 2 ^ 63 }
    ensures { IfOk result (λ items. items.items ≡ spec.split before 0 before list.now) }
{
    let mut items = Vec::new(alloc);
    let mut start = before;
    let mut depth: usize = 0;
    for (i, lexeme) in list.iter().enumerate() {
        if is_separator(depth, lexeme.kind) {
            push_item(&mut items, start, before + i)?;
            start = before + i + 1;
        } else {
            depth = depth_behind(depth, lexeme.kind);
        }
    }
    push_item(&mut items, start, before + list.len())?;
    Ok(items)
}

/// The items between the commas of a list, each by the numbers of its lexemes. What stands in brackets of its own is
/// not parted, and empty items are left out. The time is linear in the lexemes.
///
/// # Errors
///
/// Fails only where memory runs out.
pub fn list_items(alloc: Global, lexemes: &[Lexeme], list: Range) -> Result<Vec<Range>, AllocError>
    ensures { IfOk result (λ items. items.items ≡ spec.items_of lexemes.now list) }
{
    let inside = lexemes_in(lexemes, list);
    if inside.is_empty() {
        return Ok(Vec::new(alloc));
    }
    split(alloc, inside, list.first)
}

/// Whether a lexeme is the name `attributes`.
fn is_attributes(text: &[u8], lexeme: Lexeme) -> bool
    ensures { result ≡ spec.is_attributes text.now lexeme }
{
    match lexeme.kind {
        LexemeKind::Word(_) => name_text(text, span_of(lexeme)) == b"attributes".as_slice(),
        _ => false,
    }
}

/// The list of the item `attributes(..)` of a derive macro, which names its helpers.
pub fn helper_list(text: &[u8], lexemes: &[Lexeme], item: Range) -> Option<Range>
    ensures { result ≡ spec.helper_list text.now lexemes.now item }
{
    match lexemes_in(lexemes, item).first() {
        Some(first) if is_attributes(text, *first) => {
            let first = item.first + 1;
            match input_of(
                text,
                lexemes,
                Range {
                    first,
                    behind: item.behind,
                },
            ) {
                AttributeInput::List(list) => Some(list),
                _ => None,
            }
        }
        _ => None,
    }
}
