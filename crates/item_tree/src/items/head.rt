//! What stands in an item before its own word: attributes, a visibility, qualifiers.
ghost use Rattle.std.specs.Prelude.{◌≡◌, ◌≤◌, length};
ghost use Rattle.item_tree.specs.Heads as spec;

use crate::lexer::lexeme::{Delimiter, LexemeKind};
use crate::lexer::trees::Tree;
use crate::lexer::word::Word;

/// The kind of the tree at a place; `Error` past the last.
pub(crate) fn kind_at(trees: &[Tree], at: usize) -> LexemeKind
    ensures { result ≡ spec.kind_at trees.now at }
{
    match trees.get(at) {
        None => LexemeKind::Error,
        Some(tree) => tree.kind,
    }
}

pub(crate) fn is_mark(byte: u8, kind: LexemeKind) -> bool
    ensures { result ≡ spec.is_mark byte kind }
{
    match kind {
        LexemeKind::Mark(mark) => mark == byte,
        _ => false,
    }
}

/// Whether a tree is a group between brackets.
pub(crate) fn is_bracket(kind: LexemeKind) -> bool
    ensures { result ≡ spec.is_bracket kind }
{
    matches!(kind, LexemeKind::Open(Delimiter::Bracket))
}

pub(crate) fn is_parenthesis(kind: LexemeKind) -> bool
    ensures { result ≡ spec.is_parenthesis kind }
{
    matches!(kind, LexemeKind::Open(Delimiter::Parenthesis))
}

pub(crate) fn is_brace(kind: LexemeKind) -> bool
    ensures { result ≡ spec.is_brace kind }
{
    matches!(kind, LexemeKind::Open(Delimiter::Brace))
}

pub(crate) fn is_function(kind: LexemeKind) -> bool
    ensures { result ≡ spec.is_function kind }
{
    matches!(kind, LexemeKind::Word(Word::Fn))
}

fn is_trait(kind: LexemeKind) -> bool
    ensures { result ≡ spec.is_trait kind }
{
    matches!(kind, LexemeKind::Word(Word::Trait))
}

pub(crate) fn is_const(kind: LexemeKind) -> bool
    ensures { result ≡ spec.is_const kind }
{
    matches!(kind, LexemeKind::Word(Word::Const))
}

fn is_extern(kind: LexemeKind) -> bool
    ensures { result ≡ spec.is_extern kind }
{
    matches!(kind, LexemeKind::Word(Word::Extern))
}

pub(crate) fn is_string(kind: LexemeKind) -> bool
    ensures { result ≡ spec.is_string kind }
{
    matches!(kind, LexemeKind::Str)
}

/// Whether a word goes on what `default`, `final` or `safe` begin.
fn goes_on_item(kind: LexemeKind) -> bool
    ensures { result ≡ spec.goes_on_item kind }
{
    match kind {
        LexemeKind::Word(word) => matches!(
            word,
            Word::Fn
                | Word::Type
                | Word::Const
                | Word::Static
                | Word::Impl
                | Word::Trait
                | Word::Async
                | Word::Gen
                | Word::Unsafe
                | Word::Extern
        ),
        _ => false,
    }
}

/// Whether what stands behind `const` goes on an item that is no constant.
fn goes_on_const(behind: &[Tree]) -> bool
    ensures { result ≡ spec.goes_on_const behind.now }
{
    match kind_at(behind, 0) {
        LexemeKind::Word(word) => match word {
            Word::Fn | Word::Async | Word::Gen | Word::Unsafe | Word::Extern => true,
            Word::Trait | Word::Impl => true,
            Word::Auto => is_trait(kind_at(behind, 1)),
            _ => false,
        },
        _ => false,
    }
}

/// Whether a word is a qualifier of the item that goes on behind it.
fn qualifies(word: Word, behind: &[Tree]) -> bool
    ensures { result ≡ spec.qualifies word behind.now }
{
    match word {
        Word::Unsafe | Word::Async | Word::Gen => true,
        Word::Default | Word::Final | Word::Safe => goes_on_item(kind_at(behind, 0)),
        Word::Auto => is_trait(kind_at(behind, 0)),
        Word::Const => goes_on_const(behind),
        Word::Extern => {
            is_function(kind_at(behind, 0))
                || (is_string(kind_at(behind, 0)) && is_function(kind_at(behind, 1)))
        }
        _ => false,
    }
}

/// Whether a tree is a qualifier, or the name of an interface behind `extern`.
pub(crate) fn is_qualifier(before: LexemeKind, kind: LexemeKind, behind: &[Tree]) -> bool
    ensures { result ≡ spec.is_qualifier before kind behind.now }
{
    match kind {
        LexemeKind::Word(word) => qualifies(word, behind),
        LexemeKind::Str => is_extern(before) && is_function(kind_at(behind, 0)),
        _ => false,
    }
}

/// Whether a tree is a hash with brackets behind it, or brackets behind a hash.
fn is_in_attribute(before: LexemeKind, kind: LexemeKind, behind: &[Tree]) -> bool
    ensures { result ≡ spec.is_in_attribute before kind behind.now }
{
    if is_mark(b'#', kind) {
        is_bracket(kind_at(behind, 0))
    } else {
        is_bracket(kind) && is_mark(b'#', before)
    }
}

/// How many trees of outer attributes the trees begin with.
pub(crate) fn attributes_len(trees: &[Tree]) -> usize
    ensures in_range { result ≤ length trees.now }
    ensures exact { result ≡ spec.attributes_len spec.nothing trees.now }
{
    let mut before = LexemeKind::Error;
    let mut at: usize = 0;
    while at < trees.len() && is_in_attribute(before, trees[at].kind, &trees[at + 1..]) {
        before = trees[at].kind;
        at += 1;
    }
    at
}

/// How many trees of a visibility the trees begin with: `pub`, and parentheses behind it.
pub(crate) fn visibility_len(trees: &[Tree]) -> usize
    ensures small { result ≤ 2 }
    ensures exact { result ≡ spec.visibility_len trees.now }
{
    match kind_at(trees, 0) {
        LexemeKind::Word(Word::Pub) => {
            if is_parenthesis(kind_at(trees, 1)) {
                2
            } else {
                1
            }
        }
        _ => 0,
    }
}

/// How many qualifiers the trees begin with.
pub(crate) fn qualifiers_len(trees: &[Tree]) -> usize
    ensures in_range { result ≤ length trees.now }
    ensures exact { result ≡ spec.qualifiers_len spec.nothing trees.now }
{
    let mut before = LexemeKind::Error;
    let mut at: usize = 0;
    while at < trees.len() && is_qualifier(before, trees[at].kind, &trees[at + 1..]) {
        before = trees[at].kind;
        at += 1;
    }
    at
}
