//! How expressions are read: an operand is to come, or an operator may.
ghost use Rattle.std.specs.Prelude.{◌≡◌};
ghost use Rattle.macro_rules.specs.Expressions as spec;

use crate::beginnings::begins_expression;
use crate::extents::{
    angles_len, block_len, is_lifetime, is_mark, is_pair, kind_at, opens, opens_angles,
    opens_brace, tree_len, width,
};
use crate::goal::{Goal, Mode, Move, Style, impossible, takes, takes_all, takes_both, takes_then};
use crate::token::{FragmentKind, Keyword, Token, TokenKind};
use crate::types::{angles_at, is_colons, is_mut, tree_at};
use item_tree::lexer::lexeme::Delimiter;
use item_tree::lexer::word::Word;

/// What stands within an expression is no statement.
fn within(mode: Mode) -> Mode
    ensures { result ≡ spec.within mode }
{
    match mode {
        Mode::First | Mode::Statement => Mode::Later,
        mode => mode,
    }
}

/// Where a whole expression stands in another, which goes on behind it.
fn whole(mode: Mode) -> Mode
    ensures { result ≡ spec.whole mode }
{
    match mode {
        Mode::Head => Mode::Head,
        _ => Mode::Plain,
    }
}

/// Where stands what is behind a range without a begin.
fn prefixed(mode: Mode) -> Mode
    ensures { result ≡ spec.prefixed mode }
{
    match mode {
        Mode::Head => Mode::Head,
        Mode::First | Mode::Statement => Mode::Range,
        _ => Mode::Plain,
    }
}

/// Where stands what is behind another range, with which the first part of an expression ends.
fn ranged(mode: Mode) -> Mode
    ensures { result ≡ spec.ranged mode }
{
    match mode {
        Mode::Head => Mode::Head,
        Mode::Plain => Mode::Plain,
        _ => Mode::Range,
    }
}

/// The tokens of a `&`, with `mut`, `raw const` or `raw mut`.
fn borrow_len(tokens: &[Token]) -> usize
    ensures { result ≡ spec.borrow_len tokens.now }
{
    let next = kind_at(tokens, 2);
    match kind_at(tokens, 1) {
        TokenKind::Word(Word::Mut) => 2,
        TokenKind::Word(Word::Other) => {
            if matches!(next, TokenKind::Word(Word::Const | Word::Mut)) {
                3
            } else {
                1
            }
        }
        _ => 1,
    }
}

pub(crate) fn is_range(kind: TokenKind) -> bool
    ensures { result ≡ spec.is_range kind }
{
    match kind {
        TokenKind::Pair(first, second) => first == b'.' && second == b'.',
        TokenKind::Triple(first, _, _) => first == b'.',
        _ => false,
    }
}

/// An expression that is a path, a macro call or a struct.
fn expression_path(mode: Mode) -> Move
    ensures { result ≡ spec.expression_path mode }
{
    takes_both(0, Goal::Path(Style::Values), Goal::PathEnd(mode))
}

pub(crate) fn is_borrow(kind: TokenKind) -> bool
    ensures { result ≡ spec.is_borrow kind }
{
    is_mark(b'&', kind) || is_pair(b'&', b'&', kind)
}

fn is_prefix(kind: TokenKind) -> bool
    ensures { result ≡ spec.is_prefix kind }
{
    is_mark(b'!', kind) || is_mark(b'-', kind) || is_mark(b'*', kind)
}

fn operand_mark_move(kind: TokenKind, mode: Mode, tokens: &[Token]) -> Move
    ensures { result ≡ spec.operand_mark_move kind mode tokens.now }
{
    if is_prefix(kind) {
        takes_then(1, Goal::Operand(within(mode)))
    } else if is_borrow(kind) {
        takes_then(borrow_len(tokens), Goal::Operand(within(mode)))
    } else if is_mark(b'#', kind) {
        takes_then(tree_at(1, tokens), Goal::Operand(mode))
    } else if is_mark(b'|', kind) {
        takes_then(1, Goal::Parameters(whole(mode)))
    } else if is_pair(b'|', b'|', kind) {
        takes_then(1, Goal::Body(whole(mode)))
    } else if is_range(kind) {
        takes_then(1, Goal::Optional(prefixed(mode)))
    } else if opens_angles(kind) {
        takes_both(
            angles_len(tokens),
            Goal::Tail(Style::Values),
            Goal::PathEnd(mode),
        )
    } else if is_colons(kind) {
        expression_path(mode)
    } else {
        impossible()
    }
}

/// The tokens of a `break` or a `continue` with its label.
fn label_len(tokens: &[Token]) -> usize
    ensures { result ≡ spec.label_len tokens.now }
{
    if is_lifetime(kind_at(tokens, 1)) {
        2
    } else {
        1
    }
}

/// Whether a `for` binds lifetimes.
fn binds_lifetimes(tokens: &[Token]) -> bool
    ensures { result ≡ spec.binds_lifetimes tokens.now }
{
    let first = kind_at(tokens, 2);
    is_mark(b'<', kind_at(tokens, 1)) && (is_lifetime(first) || is_mark(b'>', first))
}

/// `for<'a, ..>` before a closure, or a loop.
fn for_move(mode: Mode, tokens: &[Token]) -> Move
    ensures { result ≡ spec.for_move mode tokens.now }
{
    if binds_lifetimes(tokens) {
        takes_then(angles_at(1, tokens), Goal::Operand(within(mode)))
    } else {
        takes_both(1, Goal::Pattern(true), Goal::Each(mode))
    }
}

fn operand_word_move(word: Word, mode: Mode, tokens: &[Token]) -> Move
    ensures { result ≡ spec.operand_word_move word mode tokens.now }
{
    match word {
        Word::True | Word::False | Word::Underscore => takes_then(1, Goal::Operator(mode)),
        Word::If => takes_all(1, Goal::Operand(Mode::Head), Goal::Block, Goal::Else(mode)),
        Word::While | Word::Match => { takes_both(1, Goal::Operand(Mode::Head), Goal::Ended(mode)) }
        Word::For => for_move(mode, tokens),
        Word::Unsafe | Word::Const => takes_then(1, Goal::Ended(mode)),
        Word::Static | Word::Move => takes_then(1, Goal::Operand(within(mode))),
        Word::Async | Word::Gen => takes_then(1, Goal::Operand(within(mode))),
        Word::Let => takes_both(1, Goal::Pattern(true), Goal::Value(mode)),
        Word::Return => takes_then(1, Goal::Optional(whole(mode))),
        Word::Break => takes_then(label_len(tokens), Goal::Optional(whole(mode))),
        _ => expression_path(mode),
    }
}

fn operand_keyword_move(keyword: Keyword, mode: Mode, tokens: &[Token]) -> Move
    ensures { result ≡ spec.operand_keyword_move keyword mode tokens.now }
{
    match keyword {
        Keyword::Loop | Keyword::Try => takes_then(1, Goal::Ended(mode)),
        Keyword::Continue => takes_then(label_len(tokens), Goal::Operator(mode)),
        Keyword::Yield => takes_then(1, Goal::Optional(whole(mode))),
        _ => impossible(),
    }
}

/// A fragment of a path is whole, but at the begin of a statement.
fn path_fragment_end(mode: Mode) -> Goal
    ensures { result ≡ spec.path_fragment_end mode }
{
    match mode {
        Mode::Statement => Goal::PathEnd(Mode::Statement),
        _ => Goal::Operator(mode),
    }
}

fn operand_fragment_move(kind: FragmentKind, mode: Mode, tokens: &[Token]) -> Move
    ensures { result ≡ spec.operand_fragment_move kind mode tokens.now }
{
    match kind {
        FragmentKind::Expr | FragmentKind::Expr2021 => {
            takes_then(tree_len(tokens), Goal::Operator(mode))
        }
        FragmentKind::Literal => takes_then(tree_len(tokens), Goal::Operator(mode)),
        FragmentKind::Path => takes_then(tree_len(tokens), path_fragment_end(mode)),
        FragmentKind::Block => takes_then(tree_len(tokens), Goal::Behind(mode)),
        _ => impossible(),
    }
}

/// An operand.
pub(crate) fn operand_move(mode: Mode, tokens: &[Token]) -> Move
    ensures { result ≡ spec.operand_move mode tokens.now }
{
    match kind_at(tokens, 0) {
        TokenKind::Word(word) => operand_word_move(word, mode, tokens),
        TokenKind::Keyword(keyword) => operand_keyword_move(keyword, mode, tokens),
        TokenKind::FragmentOpen(kind) => operand_fragment_move(kind, mode, tokens),
        TokenKind::DollarCrate(_) => expression_path(mode),
        TokenKind::Literal | TokenKind::Doc => takes_then(1, Goal::Operator(mode)),
        TokenKind::Lifetime => takes_then(2, Goal::Operand(mode)),
        TokenKind::Open(Delimiter::Brace) => takes_then(tree_len(tokens), Goal::Behind(mode)),
        TokenKind::Open(_) => takes_then(tree_len(tokens), Goal::Operator(mode)),
        kind => operand_mark_move(kind, mode, tokens),
    }
}

fn is_binary_mark(mark: u8) -> bool
    ensures { result ≡ spec.is_binary_mark mark }
{
    mark == b'+'
        || mark == b'-'
        || mark == b'*'
        || mark == b'/'
        || mark == b'%'
        || mark == b'^'
        || mark == b'&'
        || mark == b'|'
        || mark == b'='
        || mark == b'<'
        || mark == b'>'
}

fn is_doubled(mark: u8) -> bool
    ensures { result ≡ spec.is_doubled mark }
{
    mark == b'&' || mark == b'|' || mark == b'<' || mark == b'>'
}

/// Whether a token is an operator between operands.
fn is_binary(kind: TokenKind) -> bool
    ensures { result ≡ spec.is_binary kind }
{
    match kind {
        TokenKind::Mark(mark) => is_binary_mark(mark),
        TokenKind::Pair(first, second) => {
            second == b'=' || (first == second && is_doubled(first))
        }
        TokenKind::Triple(first, _, third) => third == b'=' && !(first == b'.'),
        _ => false,
    }
}

fn is_assignment(kind: TokenKind) -> bool
    ensures { result ≡ spec.is_assignment kind }
{
    match kind {
        TokenKind::Mark(mark) => mark == b'=',
        TokenKind::Pair(first, second) => {
            second == b'=' && !(first == b'=' || first == b'!' || first == b'<' || first == b'>')
        }
        TokenKind::Triple(_, _, third) => third == b'=',
        _ => false,
    }
}

/// Whether a range ends before a token.
fn is_ended_range(mode: Mode, kind: TokenKind) -> bool
    ensures { result ≡ spec.is_ended_range mode kind }
{
    match mode {
        Mode::Range => is_range(kind) || is_assignment(kind),
        _ => false,
    }
}

fn operator_mark_move(kind: TokenKind, mode: Mode, tokens: &[Token]) -> Move
    ensures { result ≡ spec.operator_mark_move kind mode tokens.now }
{
    if is_mark(b'.', kind) {
        takes_then(tree_at(1, tokens), Goal::Operator(within(mode)))
    } else if is_mark(b'?', kind) {
        takes_then(1, Goal::Operator(within(mode)))
    } else if is_colons(kind) && opens_angles(kind_at(tokens, 1)) {
        takes_then(angles_at(1, tokens), Goal::Operator(within(mode)))
    } else if is_ended_range(mode, kind) {
        takes(0)
    } else if is_range(kind) {
        takes_then(1, Goal::Optional(ranged(mode)))
    } else if is_assignment(kind) {
        takes_then(width(kind), Goal::Operand(whole(mode)))
    } else if is_binary(kind) {
        takes_then(width(kind), Goal::Operand(within(mode)))
    } else {
        takes(0)
    }
}

/// What may follow an operand.
pub(crate) fn operator_move(mode: Mode, tokens: &[Token]) -> Move
    ensures { result ≡ spec.operator_move mode tokens.now }
{
    match kind_at(tokens, 0) {
        TokenKind::Open(Delimiter::Parenthesis | Delimiter::Bracket) => {
            takes_then(tree_len(tokens), Goal::Operator(within(mode)))
        }
        TokenKind::Word(Word::As) => {
            takes_both(1, Goal::Type(false), Goal::Operator(within(mode)))
        }
        kind => operator_mark_move(kind, mode, tokens),
    }
}

fn is_head(mode: Mode) -> bool
    ensures { result ≡ spec.is_head mode }
{
    matches!(mode, Mode::Head)
}

/// A range without an end is whole.
fn without_operand(mode: Mode) -> Move
    ensures { result ≡ spec.without_operand mode }
{
    match mode {
        Mode::Range => takes(0),
        _ => takes_then(0, Goal::Operator(mode)),
    }
}

/// An operand, if the next token begins one.
pub(crate) fn optional_move(mode: Mode, tokens: &[Token]) -> Move
    ensures { result ≡ spec.optional_move mode tokens.now }
{
    let next = kind_at(tokens, 0);
    if begins_expression(next) && !(is_head(mode) && opens_brace(next)) {
        takes_then(0, Goal::Operand(mode))
    } else {
        without_operand(mode)
    }
}

/// What may follow the path of an expression.
pub(crate) fn path_end_move(mode: Mode, tokens: &[Token]) -> Move
    ensures { result ≡ spec.path_end_move mode tokens.now }
{
    let first = kind_at(tokens, 0);
    let next = kind_at(tokens, 1);
    if is_mark(b'!', first) && opens_brace(next) {
        takes_then(tree_at(1, tokens), Goal::Behind(mode))
    } else if is_mark(b'!', first) && opens(next) {
        takes_then(tree_at(1, tokens), Goal::Operator(mode))
    } else if opens_brace(first) && !is_head(mode) {
        takes_then(tree_len(tokens), Goal::Operator(mode))
    } else {
        takes_then(0, Goal::Operator(mode))
    }
}

/// A block, with which an expression ends.
pub(crate) fn ended_move(mode: Mode) -> Move
    ensures { result ≡ spec.ended_move mode }
{
    takes_both(0, Goal::Block, Goal::Behind(mode))
}

/// What may follow that.
pub(crate) fn behind_move(mode: Mode, tokens: &[Token]) -> Move
    ensures { result ≡ spec.behind_move mode tokens.now }
{
    let next = kind_at(tokens, 0);
    match mode {
        Mode::Statement => {
            if is_mark(b'.', next) || is_mark(b'?', next) {
                takes_then(0, Goal::Operator(Mode::First))
            } else {
                takes(0)
            }
        }
        _ => takes_then(0, Goal::Operator(mode)),
    }
}

pub(crate) fn is_else(kind: TokenKind) -> bool
    ensures { result ≡ spec.is_else kind }
{
    matches!(kind, TokenKind::Word(Word::Else))
}

fn is_if(kind: TokenKind) -> bool
    ensures { result ≡ spec.is_if kind }
{
    matches!(kind, TokenKind::Word(Word::If))
}

/// What may follow the block of an `if`.
pub(crate) fn else_move(mode: Mode, tokens: &[Token]) -> Move
    ensures { result ≡ spec.else_move mode tokens.now }
{
    if !is_else(kind_at(tokens, 0)) {
        takes_then(0, Goal::Behind(mode))
    } else if is_if(kind_at(tokens, 1)) {
        takes_all(2, Goal::Operand(Mode::Head), Goal::Block, Goal::Else(mode))
    } else {
        takes_then(1, Goal::Ended(mode))
    }
}

/// The parameters of a closure.
pub(crate) fn parameters_move(mode: Mode, tokens: &[Token]) -> Move
    ensures { result ≡ spec.parameters_move mode tokens.now }
{
    let first = kind_at(tokens, 0);
    if is_mark(b'|', first) {
        takes_then(1, Goal::Body(mode))
    } else if is_pair(b'|', b'|', first) {
        takes_then(1, Goal::Parameters(mode))
    } else if opens_angles(first) {
        takes_then(angles_len(tokens), Goal::Parameters(mode))
    } else {
        takes_then(tree_len(tokens), Goal::Parameters(mode))
    }
}

/// The body of a closure.
pub(crate) fn body_move(mode: Mode, tokens: &[Token]) -> Move
    ensures { result ≡ spec.body_move mode tokens.now }
{
    if is_pair(b'-', b'>', kind_at(tokens, 0)) {
        takes_both(1, Goal::Type(true), Goal::Ended(mode))
    } else {
        takes_then(0, Goal::Operand(mode))
    }
}

/// What a `let` is of.
pub(crate) fn value_move(mode: Mode, tokens: &[Token]) -> Move
    ensures { result ≡ spec.value_move mode tokens.now }
{
    if is_mark(b'=', kind_at(tokens, 0)) {
        takes_then(1, Goal::Operand(mode))
    } else {
        impossible()
    }
}

fn is_in(kind: TokenKind) -> bool
    ensures { result ≡ spec.is_in kind }
{
    matches!(kind, TokenKind::Word(Word::In))
}

/// What a `for` goes over, and its block.
pub(crate) fn each_move(mode: Mode, tokens: &[Token]) -> Move
    ensures { result ≡ spec.each_move mode tokens.now }
{
    if is_in(kind_at(tokens, 0)) {
        takes_both(1, Goal::Operand(Mode::Head), Goal::Ended(mode))
    } else {
        impossible()
    }
}

/// Braces.
pub(crate) fn block_move(tokens: &[Token]) -> Move
    ensures { result ≡ spec.block_move tokens.now }
{
    match block_len(tokens) {
        None => impossible(),
        Some(len) => takes(len),
    }
}
