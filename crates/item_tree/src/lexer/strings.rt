//! What strings stand for, with their escapes.
ghost use Rattle.std.specs.Prelude.{◌≡◌, ◌+◌, ◌<◌, ◌≤◌, ◌++◌, IfOk, OnOk, drop, length};
ghost use Rattle.std.specs.Str.{bytes_eq};
ghost use Rattle.item_tree.specs.Strings as spec;

use crate::lexer::span::{Span, before_quote, piece, string_text};
use std::alloc::{AllocError, Global};

/// What a byte or an escape of a string stands for.
#[derive(Clone, Copy)]
pub enum Unescaped {
    /// Nothing: a line end behind a backslash.
    Nothing,
    Byte(u8),
    Char(char),
}

/// A byte or an escape, with its length.
#[derive(Clone, Copy)]
pub struct StringPiece {
    pub len: usize,
    pub stands_for: Unescaped,
}

fn made(len: usize, stands_for: Unescaped) -> StringPiece
    ensures { result ≡ spec.made len stands_for }
{
    StringPiece { len, stands_for }
}

/// A backslash that begins no escape.
fn itself() -> StringPiece
    ensures { result ≡ spec.itself }
{
    made(1, Unescaped::Byte(b'\\'))
}

/// The byte at a place; zero past the last.
fn byte_at(bytes: &[u8], at: usize) -> u8
    ensures { result ≡ spec.byte_at bytes.now at }
{
    match bytes.get(at) {
        None => 0,
        Some(byte) => *byte,
    }
}

/// The value of a digit of base 16, and 16 where it is none.
fn hex_digit(byte: u8) -> u8
    ensures low { result ≤ 16 }
    ensures exact { result ≡ spec.hex_digit byte }
{
    if 48 <= byte && byte <= 57 {
        byte - 48
    } else if 97 <= byte && byte <= 102 {
        byte - 87
    } else if 65 <= byte && byte <= 70 {
        byte - 55
    } else {
        16
    }
}

fn may_be_digit(byte: u8) -> bool
    ensures { result ≡ spec.may_be_digit byte }
{
    byte == b'_' || hex_digit(byte) < 16
}

/// A number with one more digit. A number that is that of no character stays.
fn with_digit(number: u32, byte: u8) -> u32
    requires { number ≤ 17825792 }
    ensures low { result ≤ 17825792 }
    ensures exact { result ≡ spec.with_digit number byte }
{
    if byte == b'_' || 1_114_111 < number {
        number
    } else {
        number * 16 + hex_digit(byte) as u32
    }
}

/// The number that digits of base 16 write, with underscores between.
fn number_of(digits: &[u8]) -> u32
    ensures { result ≡ spec.number_behind 0 digits.now }
{
    let mut number: u32 = 0;
    for byte in digits {
        number = with_digit(number, *byte);
    }
    number
}

fn is_skipped(byte: u8) -> bool
    ensures { result ≡ spec.is_skipped byte }
{
    byte == b' ' || byte == b'\t' || byte == b'\n' || byte == b'\r'
}

/// An escape of one byte.
fn simple_escape(byte: u8) -> StringPiece
    ensures { result ≡ spec.simple_escape byte }
{
    if byte == b'n' {
        made(2, Unescaped::Byte(10))
    } else if byte == b'r' {
        made(2, Unescaped::Byte(13))
    } else if byte == b't' {
        made(2, Unescaped::Byte(9))
    } else if byte == b'0' {
        made(2, Unescaped::Byte(0))
    } else if byte == b'\\' || byte == b'\'' || byte == b'"' {
        made(2, Unescaped::Byte(byte))
    } else {
        itself()
    }
}

fn hex_escape(high: u8, low: u8) -> StringPiece
    ensures { result ≡ spec.hex_escape high low }
{
    if high < 8 && low < 16 {
        made(4, Unescaped::Byte(high * 16 + low))
    } else {
        itself()
    }
}

/// What is behind so many bytes.
fn behind(bytes: &[u8], count: usize) -> &[u8]
    ensures { result.now ≡ drop count bytes.now }
{
    &bytes[count.min(bytes.len())..]
}

/// How many digits and underscores the bytes begin with.
fn digits_len(bytes: &[u8]) -> usize
    ensures in_range { result ≤ length bytes.now }
    ensures exact { result ≡ spec.digits_len bytes.now }
{
    bytes.iter().take_while(|byte| may_be_digit(**byte)).count()
}

/// How many bytes stand for nothing, where a line end begins them.
fn skipped_len(bytes: &[u8]) -> usize
    ensures in_range { result ≤ length bytes.now }
    ensures exact { result ≡ spec.skipped_len bytes.now }
{
    bytes.iter().take_while(|byte| is_skipped(**byte)).count()
}

fn character_of(number: u32) -> Option<char>
    ensures { result ≡ spec.character_of number }
{
    if number < 55296 || (57344 <= number && number <= 1_114_111) {
        char::from_u32(number)
    } else {
        None
    }
}

/// An escape by the number of a character.
fn character_escape(rest: &[u8]) -> StringPiece
    ensures some { 0 < result.len }
    ensures small { result.len ≤ length rest.now + 4 }
    ensures exact { result ≡ spec.character_escape rest.now }
{
    let digits = behind(rest, 3);
    let len = digits_len(digits);
    if byte_at(rest, 2) == b'{' && byte_at(rest, len + 3) == b'}' {
        match character_of(number_of(&digits[..len])) {
            None => itself(),
            Some(character) => made(len + 4, Unescaped::Char(character)),
        }
    } else {
        itself()
    }
}

/// The escape that begins with a backslash.
fn escape(rest: &[u8]) -> StringPiece
    ensures some { 0 < result.len }
    ensures small { result.len ≤ length rest.now + 4 }
    ensures exact { result ≡ spec.escape rest.now }
{
    let next = byte_at(rest, 1);
    if next == b'x' {
        hex_escape(hex_digit(byte_at(rest, 2)), hex_digit(byte_at(rest, 3)))
    } else if next == b'u' {
        character_escape(rest)
    } else if next == b'\n' || (next == b'\r' && byte_at(rest, 2) == b'\n') {
        made(1 + skipped_len(behind(rest, 1)), Unescaped::Nothing)
    } else {
        simple_escape(next)
    }
}

/// The byte or escape that begins what a string has.
fn first_piece(is_raw: bool, rest: &[u8]) -> StringPiece
    ensures some { 0 < result.len }
    ensures small { result.len ≤ length rest.now + 4 }
    ensures exact { result ≡ spec.first_piece is_raw rest.now }
{
    let first = byte_at(rest, 0);
    if first == b'\r' && byte_at(rest, 1) == b'\n' {
        made(2, Unescaped::Byte(b'\n'))
    } else if first == b'\\' && !is_raw {
        escape(rest)
    } else {
        made(1, Unescaped::Byte(first))
    }
}

/// How many bytes of a value a piece is, where it begins the value.
fn matched_len(value: &[u8], stands_for: Unescaped) -> Option<usize>
    ensures { result ≡ spec.matched_len value.now stands_for }
{
    match stands_for {
        Unescaped::Nothing => Some(0),
        Unescaped::Byte(byte) => prefix_len(value, &[byte]),
        Unescaped::Char(character) => {
            let mut room = [0; 4];
            prefix_len(value, character.encode_utf8(&mut room).as_bytes())
        }
    }
}

fn prefix_len(value: &[u8], prefix: &[u8]) -> Option<usize>
    ensures { result ≡ spec.prefix_len_of value.now prefix.now }
{
    if value.starts_with(prefix) {
        Some(prefix.len())
    } else {
        None
    }
}

/// Whether what a string has between its quotes stands for a value.
fn stands_for(is_raw: bool, contents: &[u8], value: &[u8]) -> bool
    ensures { result ≡ bytes_eq (spec.value_from is_raw 0 contents.now) value.now }
{
    let mut rest = value;
    let mut at: usize = 0;
    while at < contents.len() {
        let piece = first_piece(is_raw, &contents[at..]);
        match matched_len(rest, piece.stands_for) {
            None => return false,
            Some(len) => rest = behind(rest, len),
        }
        at += piece.len;
    }
    rest.is_empty()
}

fn is_raw(text: &[u8], span: Span) -> bool
    ensures { result ≡ spec.is_raw text.now span }
{
    before_quote(piece(text, span)) != 0
}

/// Whether a string of a text stands for a value.
pub fn string_is(text: &[u8], span: Span, value: &[u8]) -> bool
    ensures { result ≡ bytes_eq (spec.string_value text.now span) value.now }
{
    stands_for(is_raw(text, span), string_text(text, span), value)
}

/// Adds what a piece stands for.
fn push_piece(value: &mut Vec<u8>, stands_for: Unescaped) -> Result<(), AllocError>
    ensures { OnOk result (value.new.items ≡ value.old.items ++ spec.bytes_of stands_for) }
{
    match stands_for {
        Unescaped::Nothing => {}
        Unescaped::Byte(byte) => value.push(byte)?,
        Unescaped::Char(character) => {
            let mut room = [0; 4];
            value.extend_from_slice(character.encode_utf8(&mut room).as_bytes())?;
        }
    }
    Ok(())
}

/// What a string stands for, by what it has between its quotes.
fn value_of(alloc: Global, is_raw: bool, contents: &[u8]) -> Result<Vec<u8>, AllocError>
    ensures { IfOk result (λ value. value.items ≡ spec.value_from is_raw 0 contents.now) }
{
    let mut value = Vec::new(alloc);
    let mut at: usize = 0;
    while at < contents.len() {
        let piece = first_piece(is_raw, &contents[at..]);
        push_piece(&mut value, piece.stands_for)?;
        at += piece.len;
    }
    Ok(value)
}

/// What a string of a text stands for, with its escapes, as that of a `path`.
///
/// # Errors
///
/// Fails only where memory runs out.
pub fn string_value(alloc: Global, text: &[u8], span: Span) -> Result<Vec<u8>, AllocError>
    ensures { IfOk result (λ value. value.items ≡ spec.string_value text.now span) }
{
    value_of(alloc, is_raw(text, span), string_text(text, span))
}
