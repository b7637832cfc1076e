//! How tokens begin.
ghost use Rattle.std.specs.Prelude.{◌≡◌, ◌<◌, ◌≤◌, length, true};
ghost use Rattle.item_tree.specs.Shapes.{begins};
ghost use Rattle.std.specs.Char.{is_ascii_digit};
ghost use Rattle.item_tree.specs.Openings as spec;

use crate::items::bodies::hash_end;
use crate::lexer::characters::{
    begins_blank, begins_with, begins_word, begins_word_char, blank_end, word_end,
};
use crate::lexer::token::TokenKind;
use dm_base::edition::Edition;

/// What stands in a token behind its opening.
#[derive(Clone, Copy)]
pub enum Body {
    /// Nothing.
    Empty,
    /// The bytes behind the first one of a character.
    Following,
    /// As many blanks as there are.
    Blanks,
    /// All up to the newline.
    Line,
    /// As many bytes of identifiers as there are.
    Word,
    /// What goes on a number, behind its first digit.
    Number,
    /// All up to the `*/`, with comments in it.
    Comment,
    /// All up to this quote, where no backslash takes its meaning.
    Quoted(u8),
    /// All up to a quote with so many hashes.
    Raw(usize),
}

/// The first bytes of a token, which tell its kind and what follows them in it.
#[derive(Clone, Copy)]
pub struct Opening {
    pub kind: TokenKind,
    pub len: usize,
    pub body: Body,
}

/// A token of the kind opens with so many bytes, and the body follows.
fn opens(kind: TokenKind, len: usize, body: Body) -> Opening
    ensures { result ≡ spec.opens kind len body }
{
    Opening { kind, len, body }
}

fn begins_digit(text: &[u8]) -> bool
    ensures { result ≡ begins is_ascii_digit text.now }
{
    match text.first() {
        None => false,
        Some(first) => first.is_ascii_digit(),
    }
}

fn begins_mark(text: &[u8]) -> bool
    ensures { result ≡ begins spec.is_mark text.now }
{
    match text.first() {
        None => false,
        Some(first) => first.is_ascii_punctuation() && *first != b'\\' && *first != b'`',
    }
}

/// Whether the edition has strings of C and raw lifetimes.
fn since_2021(edition: Edition) -> bool
    ensures { result ≡ spec.since_2021 edition }
{
    match edition {
        Edition::Edition2015 | Edition::Edition2018 => false,
        Edition::Edition2021 | Edition::Edition2024 => true,
    }
}

/// Whether `async` is a keyword of the edition.
pub(crate) fn since_2018(edition: Edition) -> bool
    ensures { result ≡ spec.since_2018 edition }
{
    match edition {
        Edition::Edition2015 => false,
        Edition::Edition2018 | Edition::Edition2021 | Edition::Edition2024 => true,
    }
}

/// Whether `gen` is a keyword of the edition.
pub(crate) fn since_2024(edition: Edition) -> bool
    ensures { result ≡ spec.since_2024 edition }
{
    matches!(edition, Edition::Edition2024)
}

/// Whether the text begins with a byte order mark.
pub(crate) fn begins_order_mark(text: &[u8]) -> bool
    ensures { result ≡ spec.begins_order_mark text.now }
{
    text.starts_with(&[0xEF, 0xBB, 0xBF])
}

/// Whether the text begins with `#!`, and not as an attribute does.
fn opens_shebang(text: &[u8]) -> bool
    ensures { result ≡ spec.opens_shebang text.now }
{
    if !text.starts_with(b"#!") {
        return false;
    }
    let blanks = blank_end(&text[2..]);
    !begins_with(&text[2 + blanks..], b'[')
}

/// How many bytes of a raw string stand before its hashes; none where none begins.
fn raw_prefix(text: &[u8], edition: Edition) -> usize
    ensures in_range { result ≤ length text.now }
    ensures exact { result ≡ spec.raw_prefix edition text.now }
{
    if begins_with(text, b'r') {
        1
    } else if text.starts_with(b"br") {
        2
    } else if since_2021(edition) && text.starts_with(b"cr") {
        2
    } else {
        0
    }
}

/// Whether a prefix, hashes and a quote begin the text.
fn opens_raw(text: &[u8], edition: Edition) -> bool
    ensures { result ≡ spec.opens_raw edition text.now }
{
    let prefix = raw_prefix(text, edition);
    if prefix == 0 {
        return false;
    }
    let hashes = hash_end(&text[prefix..]);
    begins_with(&text[prefix + hashes..], b'"')
}

/// The opening of a raw string.
fn raw_opening(text: &[u8], edition: Edition) -> Opening
    requires { spec.opens_raw edition text.now ≡ true }
    ensures exact { result ≡ spec.raw_opening edition text.now }
    ensures some { 0 < result.len }
    ensures in_range { result.len ≤ length text.now }
{
    let prefix = raw_prefix(text, edition);
    let hashes = hash_end(&text[prefix..]);
    opens(TokenKind::RawStr, prefix + hashes + 1, Body::Raw(hashes))
}

/// Whether a word stands behind the first byte, and no quote behind that word.
fn opens_lifetime(text: &[u8]) -> bool
    requires { 0 < length text.now }
    ensures { result ≡ spec.opens_lifetime text.now }
{
    if !begins_word_char(&text[1..]) {
        return false;
    }
    let word = word_end(&text[1..]);
    !begins_with(&text[1 + word..], b'\'')
}

/// Whether `'r#` and a word begin the text.
fn opens_raw_lifetime(text: &[u8], edition: Edition) -> bool
    ensures { result ≡ spec.opens_raw_lifetime edition text.now }
{
    if !since_2021(edition) || !text.starts_with(b"'r#") {
        return false;
    }
    begins_word(&text[3..])
}

/// The opening of what begins with a quote.
#[tactic(auto, unfolding(crate::specs::Openings::quote_opening))]
fn quote_opening(text: &[u8], edition: Edition) -> Opening
    requires { 0 < length text.now }
    ensures exact { result ≡ spec.quote_opening edition text.now }
    ensures some { 0 < result.len }
    ensures in_range { result.len ≤ length text.now }
{
    if opens_raw_lifetime(text, edition) {
        opens(TokenKind::Lifetime, 3, Body::Word)
    } else if opens_lifetime(text) {
        opens(TokenKind::Lifetime, 1, Body::Word)
    } else {
        opens(TokenKind::Char, 1, Body::Quoted(b'\''))
    }
}

/// Whether `r#` and a word begin the text.
fn opens_raw_identifier(text: &[u8]) -> bool
    ensures { result ≡ spec.opens_raw_identifier text.now }
{
    if !text.starts_with(b"r#") {
        return false;
    }
    begins_word(&text[2..])
}

/// The opening of a name, a mark, or of what is no token.
#[tactic(auto, unfolding(crate::specs::Openings::word_opening))]
fn word_opening(text: &[u8]) -> Opening
    requires { 0 < length text.now }
    ensures exact { result ≡ spec.word_opening text.now }
    ensures some { 0 < result.len }
    ensures in_range { result.len ≤ length text.now }
{
    if opens_raw_identifier(text) {
        opens(TokenKind::Identifier, 2, Body::Word)
    } else if begins_word(text) {
        opens(TokenKind::Identifier, 1, Body::Word)
    } else if begins_mark(text) {
        opens(TokenKind::Punctuation, 1, Body::Empty)
    } else {
        opens(TokenKind::Error, 1, Body::Following)
    }
}

/// The opening of a literal with a prefix or a double quote, or of a word.
#[tactic(auto, unfolding(crate::specs::Openings::literal_opening))]
fn literal_opening(text: &[u8], edition: Edition) -> Opening
    requires { 0 < length text.now }
    ensures exact { result ≡ spec.literal_opening edition text.now }
    ensures some { 0 < result.len }
    ensures in_range { result.len ≤ length text.now }
{
    if begins_with(text, b'"') {
        opens(TokenKind::Str, 1, Body::Quoted(b'"'))
    } else if text.starts_with(b"b\"") {
        opens(TokenKind::Str, 2, Body::Quoted(b'"'))
    } else if since_2021(edition) && text.starts_with(b"c\"") {
        opens(TokenKind::Str, 2, Body::Quoted(b'"'))
    } else if text.starts_with(b"b'") {
        opens(TokenKind::Char, 2, Body::Quoted(b'\''))
    } else if opens_raw(text, edition) {
        raw_opening(text, edition)
    } else {
        word_opening(text)
    }
}

/// The opening of the token that the text begins with; `at_start` tells that nothing stands before the text.
#[tactic(auto, unfolding(crate::specs::Openings::opening))]
pub fn first_opening(text: &[u8], edition: Edition, at_start: bool) -> Opening
    requires { 0 < length text.now }
    ensures exact { result ≡ spec.opening edition at_start text.now }
    ensures some { 0 < result.len }
    ensures in_range { result.len ≤ length text.now }
{
    if at_start && begins_order_mark(text) {
        opens(TokenKind::Blank, 3, Body::Empty)
    } else if at_start && opens_shebang(text) {
        opens(TokenKind::Shebang, 2, Body::Line)
    } else if begins_blank(text) {
        opens(TokenKind::Blank, 1, Body::Blanks)
    } else if text.starts_with(b"//") {
        opens(TokenKind::LineComment, 2, Body::Line)
    } else if text.starts_with(b"/*") {
        opens(TokenKind::BlockComment, 2, Body::Comment)
    } else if begins_digit(text) {
        opens(TokenKind::Number, 1, Body::Number)
    } else if begins_with(text, b'\'') {
        quote_opening(text, edition)
    } else {
        literal_opening(text, edition)
    }
}
