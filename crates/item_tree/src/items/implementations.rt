//! Implementations of a trait, and inherent ones.
ghost use Rattle.std.specs.Prelude.{◌≡◌, ◌≤◌, IfOk, drop, length};
ghost use Rattle.item_tree.specs.Implementations as spec;
ghost use Rattle.item_tree.specs.Heads.{nothing};

use crate::items::Item;
use crate::items::head::{is_brace, is_mark};
use crate::items::item_end::depth_behind;
use crate::items::item_kind::ItemKind;
use crate::lexer::lexeme::{Lexeme, LexemeKind};
use crate::lexer::trees::{Tree, trees};
use crate::lexer::word::Word;
use std::alloc::{AllocError, Global};

/// Whether a `for` behind a tree begins a type, as in `impl dyn for<'a> Read<'a> {}`.
fn begins_type(before: LexemeKind) -> bool
    ensures { result ≡ spec.begins_type before }
{
    match before {
        LexemeKind::Word(word) => matches!(word, Word::Impl | Word::Dyn),
        _ => is_mark(b'+', before),
    }
}

pub(crate) fn is_for(kind: LexemeKind) -> bool
    ensures { result ≡ spec.is_for kind }
{
    matches!(kind, LexemeKind::Word(Word::For))
}

/// Whether a tree stands between a trait and the type that has it.
fn parts_trait(before: LexemeKind, depth: usize, kind: LexemeKind) -> bool
    ensures { result ≡ spec.parts_trait before depth kind }
{
    depth == 0 && is_for(kind) && !begins_type(before)
}

/// Whether neither a trait nor a type can stand behind a tree.
fn ends_types(depth: usize, kind: LexemeKind) -> bool
    ensures { result ≡ spec.ends_types depth kind }
{
    depth == 0 && (is_brace(kind) || matches!(kind, LexemeKind::Word(Word::Where)))
}

/// Whether a trait is named in trees from `impl` on.
fn names_trait(trees: &[Tree]) -> bool
    ensures { result ≡ spec.names_trait nothing 0 trees.now }
{
    let mut before = LexemeKind::Error;
    let mut depth: usize = 0;
    let mut at: usize = 0;
    while at < trees.len() {
        let kind = trees[at].kind;
        if ends_types(depth, kind) {
            return false;
        }
        if parts_trait(before, depth, kind) {
            return true;
        }
        depth = depth_behind(before, depth, kind);
        before = kind;
        at += 1;
    }
    false
}

/// Whether an item of a text is the implementation of a trait: `for` stands behind `impl` and before `where` and the body,
/// outside of brackets of all kinds, and not where it begins a type.
///
/// # Errors
///
/// Fails only where memory runs out.
pub fn is_of_trait(
    alloc: Global,
    lexemes: &[Lexeme],
    partners: &[usize],
    item: &Item,
) -> Result<bool, AllocError>
    ensures { IfOk result (λ found. found ≡ spec.is_of_trait lexemes.now partners.now item.now) }
{
    match item.kind {
        ItemKind::Impl => {
            let level = trees(alloc, lexemes, partners, item.word, item.behind)?;
            Ok(names_trait(level.as_slice()))
        }
        _ => Ok(false),
    }
}
