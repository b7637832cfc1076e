//! How patterns are read.
ghost use Rattle.std.specs.Prelude.{◌≡◌};
ghost use Rattle.macro_rules.specs.Patterns as spec;

use crate::expressions::{is_borrow, is_range};
use crate::extents::{
    angles_len, is_literal, is_mark, is_segment, kind_at, opens, opens_angles, opens_brace,
    opens_parenthesis, tree_len,
};
use crate::goal::{Goal, Move, Style, impossible, takes, takes_both, takes_then};
use crate::token::{FragmentKind, Keyword, Token, TokenKind};
use crate::types::{is_colons, is_mut, tree_at};
use item_tree::lexer::lexeme::Delimiter;
use item_tree::lexer::word::Word;

/// Patterns with bars between, or one without.
pub(crate) fn pattern_move(bars: bool, tokens: &[Token]) -> Move
    ensures { result ≡ spec.pattern_move bars tokens.now }
{
    if bars {
        let len = if is_mark(b'|', kind_at(tokens, 0)) {
            1
        } else {
            0
        };
        takes_both(len, Goal::Atom, Goal::Bars)
    } else {
        takes_then(0, Goal::Atom)
    }
}

/// More patterns behind bars.
pub(crate) fn bars_move(tokens: &[Token]) -> Move
    ensures { result ≡ spec.bars_move tokens.now }
{
    if is_mark(b'|', kind_at(tokens, 0)) {
        takes_both(1, Goal::Atom, Goal::Bars)
    } else {
        takes(0)
    }
}

fn pattern_path() -> Move
    ensures { result ≡ spec.pattern_path }
{
    takes_both(0, Goal::Path(Style::Values), Goal::PatternEnd)
}

fn atom_word_move(word: Word) -> Move
    ensures { result ≡ spec.atom_word_move word }
{
    match word {
        Word::Mut | Word::Ref => takes_then(1, Goal::Atom),
        Word::Underscore => takes(1),
        Word::True | Word::False => takes_then(1, Goal::Range),
        Word::Const => takes_both(1, Goal::Block, Goal::Range),
        _ => pattern_path(),
    }
}

fn atom_mark_move(kind: TokenKind, tokens: &[Token]) -> Move
    ensures { result ≡ spec.atom_mark_move kind tokens.now }
{
    if is_borrow(kind) {
        let len = if is_mut(kind_at(tokens, 1)) { 2 } else { 1 };
        takes_then(len, Goal::Atom)
    } else if is_mark(b'-', kind) {
        takes_then(tree_at(1, tokens), Goal::Range)
    } else if is_range(kind) {
        takes_then(1, Goal::RangeEnd)
    } else if opens_angles(kind) {
        takes_both(
            angles_len(tokens),
            Goal::Tail(Style::Values),
            Goal::PatternEnd,
        )
    } else if is_colons(kind) {
        pattern_path()
    } else {
        impossible()
    }
}

fn atom_fragment_move(kind: FragmentKind, tokens: &[Token]) -> Move
    ensures { result ≡ spec.atom_fragment_move kind tokens.now }
{
    match kind {
        FragmentKind::Pat | FragmentKind::PatParam => takes(tree_len(tokens)),
        FragmentKind::Expr | FragmentKind::Expr2021 => takes_then(tree_len(tokens), Goal::Range),
        FragmentKind::Literal => takes_then(tree_len(tokens), Goal::Range),
        FragmentKind::Path | FragmentKind::Ty => pattern_path(),
        _ => impossible(),
    }
}

/// A pattern without bars.
pub(crate) fn atom_move(tokens: &[Token]) -> Move
    ensures { result ≡ spec.atom_move tokens.now }
{
    match kind_at(tokens, 0) {
        TokenKind::Word(word) => atom_word_move(word),
        TokenKind::Keyword(Keyword::Do) => takes_then(1, Goal::Atom),
        TokenKind::FragmentOpen(kind) => atom_fragment_move(kind, tokens),
        TokenKind::DollarCrate(_) => pattern_path(),
        TokenKind::Literal | TokenKind::Doc => takes_then(1, Goal::Range),
        TokenKind::Open(Delimiter::Parenthesis | Delimiter::Bracket) => takes(tree_len(tokens)),
        kind => atom_mark_move(kind, tokens),
    }
}

/// What may follow the begin of a range.
pub(crate) fn range_move(tokens: &[Token]) -> Move
    ensures { result ≡ spec.range_move tokens.now }
{
    if is_range(kind_at(tokens, 0)) {
        takes_then(1, Goal::RangeEnd)
    } else {
        takes(0)
    }
}

/// What may follow the path of a pattern.
pub(crate) fn pattern_end_move(tokens: &[Token]) -> Move
    ensures { result ≡ spec.pattern_end_move tokens.now }
{
    let first = kind_at(tokens, 0);
    if opens_parenthesis(first) || opens_brace(first) {
        takes(tree_len(tokens))
    } else if is_mark(b'!', first) && opens(kind_at(tokens, 1)) {
        takes(tree_at(1, tokens))
    } else if is_mark(b'@', first) {
        takes_then(1, Goal::Atom)
    } else {
        range_move(tokens)
    }
}

fn range_fragment_move(kind: FragmentKind, tokens: &[Token]) -> Move
    ensures { result ≡ spec.range_fragment_move kind tokens.now }
{
    match kind {
        FragmentKind::Expr | FragmentKind::Expr2021 => takes(tree_len(tokens)),
        FragmentKind::Literal | FragmentKind::Path => takes(tree_len(tokens)),
        _ => takes(0),
    }
}

fn range_mark_move(kind: TokenKind, tokens: &[Token]) -> Move
    ensures { result ≡ spec.range_mark_move kind tokens.now }
{
    if is_literal(kind) {
        takes(1)
    } else if is_mark(b'-', kind) {
        takes(tree_at(1, tokens))
    } else if is_segment(kind) || is_colons(kind) {
        takes_then(0, Goal::Path(Style::Values))
    } else if opens_angles(kind) {
        takes_then(angles_len(tokens), Goal::Tail(Style::Values))
    } else {
        takes(0)
    }
}

/// The end of a range, if it has one.
pub(crate) fn range_end_move(tokens: &[Token]) -> Move
    ensures { result ≡ spec.range_end_move tokens.now }
{
    match kind_at(tokens, 0) {
        TokenKind::FragmentOpen(kind) => range_fragment_move(kind, tokens),
        kind => range_mark_move(kind, tokens),
    }
}
