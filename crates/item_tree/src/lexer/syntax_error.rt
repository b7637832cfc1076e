//! What a text lacks, as its items and its delimiters tell.
ghost use Rattle.std.specs.Prelude.{◌≡◌, ◌++◌, IfOk, OnOk};
ghost use Rattle.std.specs.List.Sorted.{IsPermutation, IsSortedByKey, IsStableByKey};
ghost use Rattle.std.specs.Ordering.{nat_cmp};
ghost use Rattle.item_tree.specs.SyntaxErrors as spec;

use crate::items::expected::Expected;
use crate::items::item_kind::ItemKind;
use crate::items::{Item, ItemTree};
use crate::lexer::lexeme::{Lexeme, LexemeKind};
use crate::lexer::trees::partner_at;
use std::alloc::{AllocError, Global};

/// What should stand at the place of a lexeme, or behind the last one, and does not.
#[derive(Clone, Copy, PartialEq, Eq, Debug)]
pub struct SyntaxError {
    pub at: usize,
    pub expected: Expected,
}

fn error_at(at: usize, expected: Expected) -> SyntaxError
    ensures { result ≡ spec.error_at at expected }
{
    SyntaxError { at, expected }
}

fn is_error(kind: ItemKind) -> bool
    ensures { result ≡ spec.is_error kind }
{
    matches!(kind, ItemKind::Error)
}

fn lacks(at: usize, missing: Option<Expected>) -> Option<SyntaxError>
    ensures { result ≡ spec.lacks at missing }
{
    match missing {
        None => None,
        Some(expected) => Some(error_at(at, expected)),
    }
}

/// What stands in the place of an item, or what the item misses.
fn item_error(item: Item) -> Option<SyntaxError>
    ensures { result ≡ spec.item_error item }
{
    if is_error(item.kind) {
        Some(error_at(item.first, Expected::Item))
    } else {
        lacks(item.behind, item.missing)
    }
}

/// What the lexeme at a place lacks.
fn lexeme_error(kind: LexemeKind, at: usize, partner: usize) -> Option<SyntaxError>
    ensures { result ≡ spec.lexeme_error kind at partner }
{
    match kind {
        LexemeKind::Open(delimiter) => {
            if partner == at {
                Some(error_at(at, Expected::Closing(delimiter)))
            } else {
                None
            }
        }
        LexemeKind::Close(delimiter) => {
            if partner == at {
                Some(error_at(at, Expected::Opening(delimiter)))
            } else {
                None
            }
        }
        LexemeKind::Error => Some(error_at(at, Expected::Token)),
        _ => None,
    }
}

fn push_error(errors: &mut Vec<SyntaxError>, error: Option<SyntaxError>) -> Result<(), AllocError>
    ensures { OnOk result (errors.new.items ≡ errors.old.items ++ spec.listed error) }
{
    match error {
        None => Ok(()),
        Some(error) => {
            errors.push(error)?;
            Ok(())
        }
    }
}

fn add_item_errors(errors: &mut Vec<SyntaxError>, items: &[Item]) -> Result<(), AllocError>
    ensures { OnOk result (errors.new.items ≡ errors.old.items ++ spec.item_errors items.now) }
{
    for item in items {
        push_error(errors, item_error(*item))?;
    }
    Ok(())
}

fn add_lexeme_errors(
    errors: &mut Vec<SyntaxError>,
    lexemes: &[Lexeme],
    partners: &[usize],
) -> Result<(), AllocError>
    ensures { OnOk result (errors.new.items ≡ errors.old.items ++ spec.lexeme_errors partners.now 0 lexemes.now) }
{
    for (at, lexeme) in lexemes.iter().enumerate() {
        push_error(
            errors,
            lexeme_error(lexeme.kind, at, partner_at(partners, at)),
        )?;
    }
    Ok(())
}

/// All errors: those of the items, and those of the lexemes.
fn all_errors(
    alloc: Global,
    lexemes: &[Lexeme],
    partners: &[usize],
    items: &[Item],
) -> Result<Vec<SyntaxError>, AllocError>
    ensures { IfOk result (λ found. found.items ≡ spec.errors_of lexemes.now partners.now items.now) }
{
    let mut errors = Vec::new(alloc);
    add_item_errors(&mut errors, items)?;
    add_lexeme_errors(&mut errors, lexemes, partners)?;
    Ok(errors)
}

/// The errors of a text, in order of place: what is no item, what an item misses at its end, delimiters without a
/// partner, and what is no token. At one place those of items stand first, in the order of the tree.
///
/// # Errors
///
/// Fails only where memory runs out.
pub fn syntax_errors(
    alloc: Global,
    lexemes: &[Lexeme],
    partners: &[usize],
    tree: &ItemTree,
) -> Result<Vec<SyntaxError>, AllocError>
    ensures each_once { IfOk result (λ found. IsPermutation (spec.errors_of lexemes.now partners.now tree.now.items.items) found.items) }
    ensures in_order { IfOk result (λ found. IsSortedByKey spec.place nat_cmp found.items) }
    ensures stable { IfOk result (λ found. IsStableByKey spec.place nat_cmp (spec.errors_of lexemes.now partners.now tree.now.items.items) found.items) }
{
    let mut errors = all_errors(alloc, lexemes, partners, tree.items.as_slice())?;
    errors.sort_by_key(|error| error.at)?;
    Ok(errors)
}
