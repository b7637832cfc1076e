//! How paths, types and metas are read.
ghost use Rattle.std.specs.Prelude.{◌≡◌, ◌≤◌, IfSome};
ghost use Rattle.macro_rules.specs.Types as spec;

use crate::extents::{
    angles_len, behind, is_lifetime, is_literal, is_mark, is_pair, is_segment, kind_at, opens,
    opens_angles, opens_parenthesis, tree_len,
};
use crate::goal::{Goal, Mode, Move, Style, impossible, takes, takes_both, takes_then};
use crate::token::{FragmentKind, Token, TokenKind};
use item_tree::lexer::lexeme::Delimiter;
use item_tree::lexer::word::Word;

/// The place behind the angle brackets that begin so many tokens on.
pub(crate) fn angles_at(ahead: usize, tokens: &[Token]) -> usize
    requires { ahead ≤ 2 }
    ensures { result ≡ spec.angles_at ahead tokens.now }
{
    ahead + angles_len(behind(tokens, ahead))
}

/// The place behind the tree that begins so many tokens on.
pub(crate) fn tree_at(ahead: usize, tokens: &[Token]) -> usize
    requires { ahead ≤ 2 }
    ensures { result ≡ spec.tree_at ahead tokens.now }
{
    ahead + tree_len(behind(tokens, ahead))
}

pub(crate) fn is_colons(kind: TokenKind) -> bool
    ensures { result ≡ spec.is_colons kind }
{
    is_pair(b':', b':', kind)
}

fn is_path_fragment(kind: TokenKind) -> bool
    ensures { result ≡ spec.is_path_fragment kind }
{
    matches!(
        kind,
        TokenKind::FragmentOpen(FragmentKind::Path | FragmentKind::Ty)
    )
}

/// A path.
pub(crate) fn path_move(style: Style, tokens: &[Token]) -> Move
    ensures { result ≡ spec.path_move style tokens.now }
{
    let first = kind_at(tokens, 0);
    if is_path_fragment(first) {
        takes(tree_len(tokens))
    } else {
        let colons = if is_colons(first) { 1 } else { 0 };
        takes_then(colons, Goal::Segment(style))
    }
}

/// A segment of a path.
pub(crate) fn segment_move(style: Style, tokens: &[Token]) -> Move
    ensures { result ≡ spec.segment_move style tokens.now }
{
    if is_segment(kind_at(tokens, 0)) {
        takes_then(1, Goal::Arguments(style))
    } else {
        impossible()
    }
}

/// What may follow a segment with its arguments.
pub(crate) fn tail_move(style: Style, tokens: &[Token]) -> Move
    ensures { result ≡ spec.tail_move style tokens.now }
{
    if is_colons(kind_at(tokens, 0)) && is_segment(kind_at(tokens, 1)) {
        takes_then(1, Goal::Segment(style))
    } else {
        takes(0)
    }
}

fn opens_arguments(kind: TokenKind) -> bool
    ensures { result ≡ spec.opens_arguments kind }
{
    opens_angles(kind) || opens_parenthesis(kind)
}

/// Where the arguments of a segment begin.
fn arguments_place(style: Style, tokens: &[Token]) -> Option<usize>
    ensures small { IfSome result (λ place. place ≤ 1) }
    ensures exact { result ≡ spec.arguments_place style tokens.now }
{
    let first = kind_at(tokens, 0);
    match style {
        Style::Names => None,
        Style::Types => {
            if opens_arguments(first) {
                Some(0)
            } else if is_colons(first) && opens_arguments(kind_at(tokens, 1)) {
                Some(1)
            } else {
                None
            }
        }
        Style::Values => {
            if is_colons(first) && opens_arguments(kind_at(tokens, 1)) {
                Some(1)
            } else {
                None
            }
        }
    }
}

/// What may follow a segment.
pub(crate) fn arguments_move(style: Style, tokens: &[Token]) -> Move
    ensures { result ≡ spec.arguments_move style tokens.now }
{
    match arguments_place(style, tokens) {
        None => tail_move(style, tokens),
        Some(ahead) => {
            if opens_parenthesis(kind_at(tokens, ahead)) {
                takes_both(tree_at(ahead, tokens), Goal::Output, Goal::Tail(style))
            } else {
                takes_then(angles_at(ahead, tokens), Goal::Tail(style))
            }
        }
    }
}

/// What a function type may give.
pub(crate) fn output_move(tokens: &[Token]) -> Move
    ensures { result ≡ spec.output_move tokens.now }
{
    if is_pair(b'-', b'>', kind_at(tokens, 0)) {
        takes_then(1, Goal::Type(false))
    } else {
        takes(0)
    }
}

pub(crate) fn is_mut(kind: TokenKind) -> bool
    ensures { result ≡ spec.is_mut kind }
{
    matches!(kind, TokenKind::Word(Word::Mut))
}

/// The tokens of a reference before its type.
fn reference_len(tokens: &[Token]) -> usize
    ensures { result ≡ spec.reference_len tokens.now }
{
    if is_lifetime(kind_at(tokens, 1)) {
        if is_mut(kind_at(tokens, 2)) { 3 } else { 2 }
    } else if is_mut(kind_at(tokens, 1)) {
        2
    } else {
        1
    }
}

/// A type that is a path.
fn type_path(plus: bool) -> Move
    ensures { result ≡ spec.type_path plus }
{
    takes_both(0, Goal::Path(Style::Types), Goal::TypeEnd(plus))
}

fn type_mark_move(kind: TokenKind, plus: bool, tokens: &[Token]) -> Move
    ensures { result ≡ spec.type_mark_move kind plus tokens.now }
{
    if is_mark(b'!', kind) {
        takes(1)
    } else if is_mark(b'*', kind) {
        takes_then(2, Goal::Type(false))
    } else if is_mark(b'&', kind) || is_pair(b'&', b'&', kind) {
        takes_then(reference_len(tokens), Goal::Type(false))
    } else if is_mark(b'?', kind) {
        takes_then(1, Goal::Type(plus))
    } else if opens_angles(kind) {
        takes_both(
            angles_len(tokens),
            Goal::Tail(Style::Types),
            Goal::TypeEnd(plus),
        )
    } else if is_colons(kind) {
        type_path(plus)
    } else {
        impossible()
    }
}

fn type_word_move(word: Word, plus: bool, tokens: &[Token]) -> Move
    ensures { result ≡ spec.type_word_move word plus tokens.now }
{
    match word {
        Word::Underscore => takes(1),
        Word::For => takes_then(angles_at(1, tokens), Goal::Type(plus)),
        Word::Unsafe => takes_then(1, Goal::Type(plus)),
        Word::Extern => {
            let len = if is_literal(kind_at(tokens, 1)) { 2 } else { 1 };
            takes_then(len, Goal::Type(plus))
        }
        Word::Fn => takes_then(tree_at(1, tokens), Goal::Output),
        Word::Impl | Word::Dyn => takes_then(1, Goal::Bounds),
        _ => type_path(plus),
    }
}

/// A type, behind which more bounds may follow.
pub(crate) fn type_move(plus: bool, tokens: &[Token]) -> Move
    ensures { result ≡ spec.type_move plus tokens.now }
{
    match kind_at(tokens, 0) {
        TokenKind::Word(word) => type_word_move(word, plus, tokens),
        TokenKind::DollarCrate(_) => type_path(plus),
        TokenKind::Lifetime => takes_then(1, Goal::Plus(plus)),
        TokenKind::Open(Delimiter::Parenthesis) => takes_then(tree_len(tokens), Goal::Plus(plus)),
        TokenKind::Open(Delimiter::Bracket) => takes(tree_len(tokens)),
        TokenKind::FragmentOpen(FragmentKind::Ty) => takes(tree_len(tokens)),
        TokenKind::FragmentOpen(FragmentKind::Path) => type_path(plus),
        kind => type_mark_move(kind, plus, tokens),
    }
}

/// More bounds, where they may follow.
pub(crate) fn plus_move(plus: bool, tokens: &[Token]) -> Move
    ensures { result ≡ spec.plus_move plus tokens.now }
{
    if plus && is_mark(b'+', kind_at(tokens, 0)) {
        takes_then(1, Goal::Bounds)
    } else {
        takes(0)
    }
}

/// What may follow the path of a type.
pub(crate) fn type_end_move(plus: bool, tokens: &[Token]) -> Move
    ensures { result ≡ spec.type_end_move plus tokens.now }
{
    if is_mark(b'!', kind_at(tokens, 0)) && opens(kind_at(tokens, 1)) {
        takes(tree_at(1, tokens))
    } else {
        plus_move(plus, tokens)
    }
}

fn bound_mark_move(kind: TokenKind) -> Move
    ensures { result ≡ spec.bound_mark_move kind }
{
    if is_mark(b'?', kind) || is_mark(b'!', kind) || is_mark(b'~', kind) {
        takes_then(1, Goal::Bounds)
    } else if is_colons(kind) {
        takes_both(0, Goal::Path(Style::Types), Goal::Plus(true))
    } else {
        takes(0)
    }
}

fn bound_word_move(kind: TokenKind, word: Word, tokens: &[Token]) -> Move
    ensures { result ≡ spec.bound_word_move kind word tokens.now }
{
    match word {
        Word::For => takes_then(angles_at(1, tokens), Goal::Bounds),
        Word::Use => takes_then(angles_at(1, tokens), Goal::Plus(true)),
        Word::Const | Word::Async => takes_then(1, Goal::Bounds),
        _ => {
            if is_segment(kind) {
                takes_both(0, Goal::Path(Style::Types), Goal::Plus(true))
            } else {
                takes(0)
            }
        }
    }
}

/// Bounds, or nothing.
pub(crate) fn bounds_move(tokens: &[Token]) -> Move
    ensures { result ≡ spec.bounds_move tokens.now }
{
    match kind_at(tokens, 0) {
        TokenKind::Lifetime => takes_then(1, Goal::Plus(true)),
        TokenKind::Open(Delimiter::Parenthesis) => takes_then(tree_len(tokens), Goal::Plus(true)),
        TokenKind::FragmentOpen(FragmentKind::Path | FragmentKind::Ty) => {
            takes_then(tree_len(tokens), Goal::Plus(true))
        }
        TokenKind::DollarCrate(_) => takes_both(0, Goal::Path(Style::Types), Goal::Plus(true)),
        TokenKind::Word(word) => bound_word_move(TokenKind::Word(word), word, tokens),
        kind => bound_mark_move(kind),
    }
}

/// What is in an attribute.
pub(crate) fn meta_move(tokens: &[Token]) -> Move
    ensures { result ≡ spec.meta_move tokens.now }
{
    match kind_at(tokens, 0) {
        TokenKind::FragmentOpen(FragmentKind::Meta) => takes(tree_len(tokens)),
        TokenKind::Word(Word::Unsafe) => takes(tree_at(1, tokens)),
        _ => takes_both(0, Goal::Path(Style::Names), Goal::MetaValue),
    }
}

/// What may follow the path of an attribute.
pub(crate) fn meta_value_move(tokens: &[Token]) -> Move
    ensures { result ≡ spec.meta_value_move tokens.now }
{
    if opens(kind_at(tokens, 0)) {
        takes(tree_len(tokens))
    } else if is_mark(b'=', kind_at(tokens, 0)) {
        takes_then(1, Goal::Operand(Mode::First))
    } else {
        takes(0)
    }
}
