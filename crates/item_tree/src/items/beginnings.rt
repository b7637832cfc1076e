//! What surely begins another item, where one that misses its end goes on.
ghost use Rattle.std.specs.Prelude.{◌≡◌};
ghost use Rattle.item_tree.specs.Beginnings as spec;

use crate::items::head::{is_bracket, is_const, is_mark, kind_at};
use crate::items::item_kind::{ItemKind, PathPart, is_mutable, is_name, takes};
use crate::lexer::lexeme::LexemeKind;
use crate::lexer::trees::Tree;
use crate::lexer::word::Word;

fn is_crate(kind: LexemeKind) -> bool
    ensures { result ≡ spec.is_crate kind }
{
    matches!(kind, LexemeKind::Word(Word::Crate))
}

/// Whether a word and what stands behind it begin an item, wherever they stand.
fn word_begins(word: Word, behind: &[Tree]) -> bool
    ensures { result ≡ spec.word_begins word behind.now }
{
    let next = kind_at(behind, 0);
    match word {
        Word::Pub => true,
        Word::Mod | Word::Struct | Word::Enum | Word::Fn | Word::Trait => is_name(next),
        Word::Type => is_name(next) || (is_const(next) && is_constant_name(kind_at(behind, 1))),
        Word::Use => takes(PathPart::Start, next),
        Word::Static => is_name(next) || (is_mutable(next) && is_name(kind_at(behind, 1))),
        Word::Extern => is_crate(next),
        Word::MacroRules => is_mark(b'!', next) && is_name(kind_at(behind, 1)),
        _ => false,
    }
}

fn is_constant_name(kind: LexemeKind) -> bool
    ensures { result ≡ spec.is_constant_name kind }
{
    match kind {
        LexemeKind::Word(Word::Underscore) => true,
        _ => is_name(kind),
    }
}

/// Whether `const` begins a constant: it is neither that of a pointer nor that of a parameter.
fn const_begins(before: LexemeKind, behind: &[Tree]) -> bool
    ensures { result ≡ spec.const_begins before behind.now }
{
    is_constant_name(kind_at(behind, 0))
        && is_mark(b':', kind_at(behind, 1))
        && !is_mark(b':', kind_at(behind, 2))
        && !(is_mark(b'*', before) || is_mark(b'<', before) || is_mark(b',', before))
}

/// Whether no type can stand in an item, outside of angle brackets, that begins with `impl`.
fn impl_ends(kind: ItemKind) -> bool
    ensures { result ≡ spec.impl_ends kind }
{
    matches!(
        kind,
        ItemKind::Use
            | ItemKind::ExternCrate
            | ItemKind::Mod
            | ItemKind::Struct
            | ItemKind::Union
            | ItemKind::Enum
    )
}

/// Whether a tree is a mark behind which an operand of a value begins.
fn is_operator(kind: LexemeKind) -> bool
    ensures { result ≡ spec.is_operator kind }
{
    match kind {
        LexemeKind::Mark(mark) => mark != b'>' && mark != b'?',
        _ => false,
    }
}

/// Whether an attribute behind a tree is that of a parameter or an operand, and of no other item.
fn takes_attribute(item: ItemKind, before: LexemeKind) -> bool
    ensures { result ≡ spec.takes_attribute item before }
{
    match item {
        ItemKind::Const | ItemKind::Static => is_operator(before),
        _ => is_mark(b',', before) || matches!(before, LexemeKind::Word(Word::Where)),
    }
}

/// Whether a tree begins an item outside of angle brackets.
fn begins_outside(item: ItemKind, before: LexemeKind, kind: LexemeKind, behind: &[Tree]) -> bool
    ensures { result ≡ spec.begins_outside item before kind behind.now }
{
    match kind {
        LexemeKind::Mark(mark) => {
            mark == b'#' && is_bracket(kind_at(behind, 0)) && !takes_attribute(item, before)
        }
        LexemeKind::Word(Word::Const) => const_begins(before, behind),
        LexemeKind::Word(Word::Impl) => impl_ends(item),
        _ => false,
    }
}

fn begins_anywhere(kind: LexemeKind, behind: &[Tree]) -> bool
    ensures { result ≡ spec.begins_anywhere kind behind.now }
{
    match kind {
        LexemeKind::Word(word) => word_begins(word, behind),
        _ => false,
    }
}

/// Whether a tree surely begins another item than the one of a kind that goes on there, with so many angle brackets
/// open.
pub(crate) fn begins_another(
    item: ItemKind,
    depth: usize,
    before: LexemeKind,
    kind: LexemeKind,
    behind: &[Tree],
) -> bool
    ensures { result ≡ spec.begins_another item depth before kind behind.now }
{
    begins_anywhere(kind, behind) || (depth == 0 && begins_outside(item, before, kind, behind))
}
