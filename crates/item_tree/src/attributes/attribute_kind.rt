//! What an attribute says, so far as it matters to names.
ghost use Rattle.std.specs.Prelude.{◌≡◌, ◌-◌, length, slice_get};
ghost use Rattle.item_tree.specs.AttributeKinds as spec;

use crate::cfg::cfg_parser::{is_text, span_of};
use crate::items::Range;
use crate::lexer::lexeme::{Delimiter, Lexeme, LexemeKind};
use crate::lexer::span::Span;
use crate::lexer::word::Word;

/// The nodes of a predicate in a list of nodes.
#[derive(Clone, Copy, PartialEq, Eq, Debug)]
pub struct NodeRange {
    pub start: usize,
    pub len: usize,
}

/// What stands behind the name of an attribute.
#[derive(Clone, Copy, PartialEq, Eq, Debug)]
pub enum AttributeInput {
    Empty,
    /// `= "..."`
    Value(Span),
    /// What stands between parentheses.
    List(Range),
    /// Anything else.
    Other,
}

/// What an attribute says. A list is what stands between its parentheses.
#[derive(Clone, Copy, PartialEq, Eq, Debug)]
pub enum AttributeKind {
    Cfg(NodeRange),
    Path(Span),
    /// `macro_use` of all macros.
    MacroUse,
    /// `macro_use` of some macros.
    MacroUseOf(Range),
    MacroExport,
    Derive(Range),
    NoStd,
    NoCore,
    NoImplicitPrelude,
    PreludeImport,
    RecursionLimit(Span),
    Feature(Range),
    RustcCoherenceIsCore,
    ProcMacro,
    /// With the name and the helpers: `Name, attributes(a, b)`.
    ProcMacroDerive(Range),
    ProcMacroAttribute,
    RustcBuiltinMacro,
    /// With the name and the helpers, as in `ProcMacroDerive`.
    RustcBuiltinMacroOf(Range),
    NonExhaustive,
    Test,
    Bench,
    /// An attribute of those above that has not what it takes.
    Malformed,
    /// Any other attribute.
    Unknown,
}

/// Lexemes by their numbers, so far as there are some.
pub fn lexemes_in(lexemes: &[Lexeme], range: Range) -> &[Lexeme]
    ensures { result.now ≡ spec.lexemes_in lexemes.now range }
{
    let rest = &lexemes[range.first.min(lexemes.len())..];
    &rest[..range.behind.saturating_sub(range.first).min(rest.len())]
}

fn begins_with_equals(input: &[Lexeme]) -> bool
    ensures { result ≡ spec.begins_with_equals input.now }
{
    match input.first() {
        None => false,
        Some(first) => matches!(first.kind, LexemeKind::Mark(b'=')),
    }
}

fn begins_with_open(input: &[Lexeme]) -> bool
    ensures { result ≡ spec.begins_with_open input.now }
{
    match input.first() {
        None => false,
        Some(first) => matches!(first.kind, LexemeKind::Open(Delimiter::Parenthesis)),
    }
}

fn ends_with_close(input: &[Lexeme]) -> bool
    ensures { result ≡ spec.is_close (slice_get input.now (length input.now - 1)) }
{
    match input.last() {
        None => false,
        Some(last) => matches!(last.kind, LexemeKind::Close(Delimiter::Parenthesis)),
    }
}

/// Whether the lexemes are in parentheses.
fn is_list(input: &[Lexeme]) -> bool
    ensures { result ≡ spec.is_list input.now }
{
    input.len() >= 2 && begins_with_open(input) && ends_with_close(input)
}

fn is_str(kind: LexemeKind) -> bool
    ensures { result ≡ spec.is_str kind }
{
    matches!(kind, LexemeKind::Str)
}

/// The string behind `=`, where the lexemes are these two.
fn value_in(text: &[u8], input: &[Lexeme]) -> Option<Span>
    ensures { result ≡ spec.value_in text.now input.now }
{
    if input.len() != 2 || !begins_with_equals(input) {
        return None;
    }
    let value = input[1];
    if is_str(value.kind) && is_text(text, value) {
        Some(span_of(value))
    } else {
        None
    }
}

/// What stands behind the first of some lexemes.
pub(crate) fn input_of(text: &[u8], lexemes: &[Lexeme], range: Range) -> AttributeInput
    ensures { result ≡ spec.input_of text.now lexemes.now range }
{
    let input = lexemes_in(lexemes, range);
    if input.is_empty() {
        return AttributeInput::Empty;
    }
    if is_list(input) {
        return AttributeInput::List(Range {
            first: range.first + 1,
            behind: range.behind.saturating_sub(1),
        });
    }
    match value_in(text, input) {
        Some(value) => AttributeInput::Value(value),
        None => AttributeInput::Other,
    }
}

/// What an attribute says that has nothing behind its name.
fn empty_kind(name: Word) -> AttributeKind
    ensures { result ≡ spec.empty_kind name }
{
    match name {
        Word::MacroUse => AttributeKind::MacroUse,
        Word::MacroExport => AttributeKind::MacroExport,
        Word::NoStd => AttributeKind::NoStd,
        Word::NoCore => AttributeKind::NoCore,
        Word::NoImplicitPrelude => AttributeKind::NoImplicitPrelude,
        Word::PreludeImport => AttributeKind::PreludeImport,
        Word::RustcCoherenceIsCore => AttributeKind::RustcCoherenceIsCore,
        Word::ProcMacro => AttributeKind::ProcMacro,
        Word::ProcMacroAttribute => AttributeKind::ProcMacroAttribute,
        Word::RustcBuiltinMacro => AttributeKind::RustcBuiltinMacro,
        Word::NonExhaustive => AttributeKind::NonExhaustive,
        Word::Test => AttributeKind::Test,
        Word::Bench => AttributeKind::Bench,
        _ => unfit_kind(name),
    }
}

/// What an attribute says that has a string.
fn value_kind(name: Word, value: Span) -> AttributeKind
    ensures { result ≡ spec.value_kind name value }
{
    match name {
        Word::Path => AttributeKind::Path(value),
        Word::RecursionLimit => AttributeKind::RecursionLimit(value),
        _ => unfit_kind(name),
    }
}

/// What an attribute other than `cfg` says that has a list.
fn list_kind(name: Word, list: Range) -> AttributeKind
    ensures { result ≡ spec.list_kind name list }
{
    match name {
        Word::MacroUse => AttributeKind::MacroUseOf(list),
        Word::MacroExport => AttributeKind::MacroExport,
        Word::Derive => AttributeKind::Derive(list),
        Word::Feature => AttributeKind::Feature(list),
        Word::ProcMacroDerive => AttributeKind::ProcMacroDerive(list),
        Word::RustcBuiltinMacro => AttributeKind::RustcBuiltinMacroOf(list),
        _ => unfit_kind(name),
    }
}

/// An attribute that has not what it takes, where it is one that is known. `test` and `bench` with anything behind are
/// those of some crate.
fn unfit_kind(name: Word) -> AttributeKind
    ensures { result ≡ spec.unfit_kind name }
{
    match name {
        Word::Cfg | Word::CfgAttr | Word::Path | Word::MacroUse => AttributeKind::Malformed,
        Word::MacroExport | Word::Derive | Word::NoStd | Word::NoCore => AttributeKind::Malformed,
        Word::NoImplicitPrelude | Word::PreludeImport => AttributeKind::Malformed,
        Word::RecursionLimit | Word::Feature => AttributeKind::Malformed,
        Word::RustcCoherenceIsCore | Word::ProcMacro => AttributeKind::Malformed,
        Word::ProcMacroDerive | Word::ProcMacroAttribute => AttributeKind::Malformed,
        Word::RustcBuiltinMacro | Word::NonExhaustive => AttributeKind::Malformed,
        _ => AttributeKind::Unknown,
    }
}

/// What an attribute other than `cfg` says.
pub(crate) fn kind_of(name: Word, input: AttributeInput) -> AttributeKind
    ensures { result ≡ spec.kind_of name input }
{
    match input {
        AttributeInput::Empty => empty_kind(name),
        AttributeInput::Value(value) => value_kind(name, value),
        AttributeInput::List(list) => list_kind(name, list),
        AttributeInput::Other => unfit_kind(name),
    }
}
