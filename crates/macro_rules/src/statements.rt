//! How statements and items are read.
ghost use Rattle.std.specs.Prelude.{◌≡◌};
ghost use Rattle.macro_rules.specs.Statements as spec;

use crate::expressions::is_else;
use crate::extents::{
    WordClass, angles_len, block_len, closes, is_mark, is_pair, is_segment, kind_at, opens,
    opens_angles, opens_brace, tree_len, visibility_len, word_class,
};
use crate::goal::{Goal, Mode, Move, Style, impossible, takes, takes_both, takes_then};
use crate::token::{FragmentKind, Token, TokenKind};
use crate::types::tree_at;
use item_tree::lexer::word::Word;

fn is_item_word(word: Word) -> bool
    ensures { result ≡ spec.is_item_word word }
{
    match word {
        Word::Fn | Word::Unsafe | Word::Extern | Word::Async | Word::Gen | Word::Trait => true,
        Word::Auto | Word::Impl | Word::Mod | Word::Type | Word::Const | Word::Static => true,
        _ => false,
    }
}

/// Whether a word goes on what a qualifier begins.
fn goes_on_item(kind: TokenKind) -> bool
    ensures { result ≡ spec.goes_on_item kind }
{
    match kind {
        TokenKind::Word(word) => is_item_word(word),
        _ => false,
    }
}

fn is_name(kind: TokenKind) -> bool
    ensures { result ≡ spec.is_name kind }
{
    match kind {
        TokenKind::Word(word) => matches!(word_class(word), WordClass::Name),
        _ => false,
    }
}

/// Whether a `macro_rules` defines a macro.
fn defines_macro(tokens: &[Token]) -> bool
    ensures { result ≡ spec.defines_macro tokens.now }
{
    is_mark(b'!', kind_at(tokens, 1)) && is_name(kind_at(tokens, 2))
}

fn begins_closure(kind: TokenKind) -> bool
    ensures { result ≡ spec.begins_closure kind }
{
    match kind {
        TokenKind::Word(Word::Move) => true,
        _ => is_mark(b'|', kind) || is_pair(b'|', b'|', kind),
    }
}

/// Whether a word begins an item.
fn begins_item(word: Word, tokens: &[Token]) -> bool
    ensures { result ≡ spec.begins_item word tokens.now }
{
    let next = kind_at(tokens, 1);
    match word {
        Word::Use | Word::Struct | Word::Enum | Word::Fn | Word::Mod | Word::Trait => true,
        Word::Impl | Word::Type | Word::Pub | Word::Macro | Word::Extern => true,
        Word::Const => !opens_brace(next),
        Word::Static => !begins_closure(next),
        Word::Union => is_name(next),
        Word::MacroRules => defines_macro(tokens),
        Word::Unsafe | Word::Async | Word::Gen | Word::Auto => goes_on_item(next),
        Word::Default | Word::Safe | Word::Final => goes_on_item(next),
        _ => false,
    }
}

fn statement_word_move(word: Word, tokens: &[Token]) -> Move
    ensures { result ≡ spec.statement_word_move word tokens.now }
{
    match word {
        Word::Let => takes_both(1, Goal::Pattern(true), Goal::LocalType),
        _ => {
            if begins_item(word, tokens) {
                takes_then(0, Goal::Item)
            } else {
                takes_then(0, Goal::Operand(Mode::Statement))
            }
        }
    }
}

fn statement_mark_move(kind: TokenKind, tokens: &[Token]) -> Move
    ensures { result ≡ spec.statement_mark_move kind tokens.now }
{
    if is_mark(b'#', kind) {
        takes_then(tree_at(1, tokens), Goal::Statement)
    } else if is_mark(b';', kind) {
        takes(1)
    } else {
        takes_then(0, Goal::Operand(Mode::Statement))
    }
}

/// A statement, without its semicolon.
pub(crate) fn statement_move(tokens: &[Token]) -> Move
    ensures { result ≡ spec.statement_move tokens.now }
{
    match kind_at(tokens, 0) {
        TokenKind::Word(word) => statement_word_move(word, tokens),
        TokenKind::FragmentOpen(FragmentKind::Stmt | FragmentKind::Item) => {
            takes(tree_len(tokens))
        }
        TokenKind::FragmentOpen(FragmentKind::Vis) => takes_then(0, Goal::Item),
        kind => statement_mark_move(kind, tokens),
    }
}

/// The type of a `let`.
pub(crate) fn local_type_move(tokens: &[Token]) -> Move
    ensures { result ≡ spec.local_type_move tokens.now }
{
    if is_mark(b':', kind_at(tokens, 0)) {
        takes_both(1, Goal::Type(true), Goal::LocalValue)
    } else {
        takes_then(0, Goal::LocalValue)
    }
}

/// The value of a `let`.
pub(crate) fn local_value_move(tokens: &[Token]) -> Move
    ensures { result ≡ spec.local_value_move tokens.now }
{
    if is_mark(b'=', kind_at(tokens, 0)) {
        takes_both(1, Goal::Operand(Mode::First), Goal::LocalElse)
    } else {
        takes(0)
    }
}

/// What a `let` does else.
pub(crate) fn local_else_move(tokens: &[Token]) -> Move
    ensures { result ≡ spec.local_else_move tokens.now }
{
    if is_else(kind_at(tokens, 0)) {
        takes_then(1, Goal::Block)
    } else {
        takes(0)
    }
}

/// A macro call among items.
fn item_call() -> Move
    ensures { result ≡ spec.item_call }
{
    takes_both(0, Goal::Path(Style::Names), Goal::Call)
}

fn is_crate(kind: TokenKind) -> bool
    ensures { result ≡ spec.is_crate kind }
{
    matches!(kind, TokenKind::Word(Word::Crate))
}

/// A `const` may be a qualifier.
fn const_goal(next: TokenKind) -> Goal
    ensures { result ≡ spec.const_goal next }
{
    if goes_on_item(next) {
        Goal::Item
    } else {
        Goal::Semicolon
    }
}

fn extern_goal(next: TokenKind) -> Goal
    ensures { result ≡ spec.extern_goal next }
{
    if is_crate(next) {
        Goal::Semicolon
    } else {
        Goal::ItemBody
    }
}

fn item_word_move(word: Word, tokens: &[Token]) -> Move
    ensures { result ≡ spec.item_word_move word tokens.now }
{
    let next = kind_at(tokens, 1);
    match word {
        Word::Pub => takes_then(visibility_len(tokens), Goal::Item),
        Word::Use | Word::Type | Word::Static => takes_then(1, Goal::Semicolon),
        Word::Struct | Word::Enum | Word::Fn | Word::Mod => takes_then(1, Goal::ItemBody),
        Word::Trait | Word::Impl | Word::Macro => takes_then(1, Goal::ItemBody),
        Word::Const => takes_then(1, const_goal(next)),
        Word::Extern => takes_then(1, extern_goal(next)),
        Word::MacroRules => {
            if defines_macro(tokens) {
                takes_then(3, Goal::Group)
            } else {
                item_call()
            }
        }
        Word::Union => {
            if is_name(next) {
                takes_then(1, Goal::ItemBody)
            } else {
                item_call()
            }
        }
        _ => {
            if begins_item(word, tokens) {
                takes_then(1, Goal::Item)
            } else {
                item_call()
            }
        }
    }
}

fn item_mark_move(kind: TokenKind, tokens: &[Token]) -> Move
    ensures { result ≡ spec.item_mark_move kind tokens.now }
{
    if is_mark(b'#', kind) {
        takes_then(tree_at(1, tokens), Goal::Item)
    } else {
        item_call()
    }
}

/// An item, with its attributes.
pub(crate) fn item_move(tokens: &[Token]) -> Move
    ensures { result ≡ spec.item_move tokens.now }
{
    match kind_at(tokens, 0) {
        TokenKind::Word(word) => item_word_move(word, tokens),
        TokenKind::FragmentOpen(FragmentKind::Item) => takes(tree_len(tokens)),
        TokenKind::FragmentOpen(FragmentKind::Vis) => takes_then(tree_len(tokens), Goal::Item),
        kind => item_mark_move(kind, tokens),
    }
}

/// The `!` of a macro call among items, and what follows.
pub(crate) fn call_move(tokens: &[Token]) -> Move
    ensures { result ≡ spec.call_move tokens.now }
{
    if is_mark(b'!', kind_at(tokens, 0)) {
        takes_then(1, Goal::Group)
    } else {
        impossible()
    }
}

/// The group of a macro among items, with the semicolon of one that is not of braces.
pub(crate) fn group_move(tokens: &[Token]) -> Move
    ensures { result ≡ spec.group_move tokens.now }
{
    let group = kind_at(tokens, 0);
    if opens_brace(group) {
        takes(tree_len(tokens))
    } else if opens(group) {
        takes_then(tree_len(tokens), Goal::Semicolon)
    } else {
        impossible()
    }
}

/// All up to a semicolon.
pub(crate) fn semicolon_move(tokens: &[Token]) -> Move
    ensures { result ≡ spec.semicolon_move tokens.now }
{
    let first = kind_at(tokens, 0);
    if is_mark(b';', first) {
        takes(1)
    } else if closes(first) {
        impossible()
    } else {
        takes_then(tree_len(tokens), Goal::Semicolon)
    }
}

/// Whether a name, `!` and a group follow.
fn calls_macro(tokens: &[Token]) -> bool
    ensures { result ≡ spec.calls_macro tokens.now }
{
    is_segment(kind_at(tokens, 0)) && is_mark(b'!', kind_at(tokens, 1)) && opens(kind_at(tokens, 2))
}

/// All up to a semicolon or a body.
pub(crate) fn item_body_move(tokens: &[Token]) -> Move
    ensures { result ≡ spec.item_body_move tokens.now }
{
    let first = kind_at(tokens, 0);
    if block_len(tokens).is_some() {
        takes(tree_len(tokens))
    } else if opens_angles(first) {
        takes_then(angles_len(tokens), Goal::ItemBody)
    } else if calls_macro(tokens) {
        takes_then(tree_at(2, tokens), Goal::ItemBody)
    } else if is_mark(b';', first) {
        takes(1)
    } else if closes(first) {
        impossible()
    } else {
        takes_then(tree_len(tokens), Goal::ItemBody)
    }
}
