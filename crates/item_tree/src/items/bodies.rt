//! Where the body of each shape of token ends.
ghost use Rattle.std.specs.Prelude.{◌≡◌, ◌==◌, ◌≤◌, ◌+◌, ◌^◌, ◌<◌, Some, None, IfSome, IfNone, length, take, drop, false, [], true};
ghost use Rattle.item_tree.specs.Shapes.{is_no_newline, past_quote, past_comment, past_raw, is_escape, matched_with};
ghost use Rattle.item_tree.specs.Characters.{is_following};
ghost use Rattle.item_tree.specs.Numbers as numbers;
ghost use Rattle.item_tree.specs.Tokens.{fills, never_ends};
ghost use Rattle.item_tree.specs.declared.items.bodies.NumberPart.TheVariants as part;
ghost use Rattle.std.specs.List.{prefix_len};

use crate::items::openings::Body;
use crate::lexer::characters::{
    begins_with, begins_word, blank_end, goes_on_word, is_following, word_end,
};

/// How far a number has been read.
#[derive(Clone, Copy)]
pub(crate) enum NumberPart {
    /// Digits alone.
    Digits,
    /// Digits, a dot, digits.
    Fraction,
    /// Up to the `e` that may have a sign behind it.
    Exponent,
    /// What is behind all these: digits of an exponent or of another base, and suffixes.
    Suffix,
}

/// How many hashes the text begins with.
pub(crate) fn hash_end(text: &[u8]) -> usize
    ensures in_range { result ≤ length text.now }
    ensures exact { result ≡ prefix_len (λ b. b == 35) text.now }
{
    text.iter().take_while(|byte| **byte == b'#').count()
}

/// How many bytes the text begins with that are not the first of a character.
fn following_end(text: &[u8]) -> usize
    ensures in_range { result ≤ length text.now }
    ensures exact { result ≡ prefix_len is_following text.now }
{
    text.iter().take_while(|byte| is_following(**byte)).count()
}

/// Before the first newline, or the whole text.
fn line_end(text: &[u8]) -> usize
    ensures in_range { result ≤ length text.now }
    ensures exact { result ≡ prefix_len is_no_newline text.now }
{
    text.iter().take_while(|byte| **byte != b'\n').count()
}

/// Whether a number goes on with a byte, and what follows it.
fn takes(part: NumberPart, byte: u8, behind: &[u8]) -> bool
    ensures { result ≡ numbers.takes part byte behind.now }
{
    goes_on_word(byte, behind)
        || (byte == b'.' && takes_dot(part, behind))
        || takes_sign(part, byte)
}

/// A dot belongs to a number of digits alone, unless a dot or a name follows it.
fn takes_dot(part: NumberPart, behind: &[u8]) -> bool
    ensures { result ≡ numbers.takes_dot part behind.now }
{
    match part {
        NumberPart::Digits => !begins_with(behind, b'.') && !begins_word(behind),
        NumberPart::Fraction | NumberPart::Exponent | NumberPart::Suffix => false,
    }
}

/// A sign belongs to a number right behind the `e` of an exponent.
fn takes_sign(part: NumberPart, byte: u8) -> bool
    ensures { result ≡ numbers.takes_sign part byte }
{
    match part {
        NumberPart::Exponent => byte == b'+' || byte == b'-',
        NumberPart::Digits | NumberPart::Fraction | NumberPart::Suffix => false,
    }
}

/// How far a number is read with one more byte.
fn part_after(part: NumberPart, byte: u8) -> NumberPart
    ensures { result ≡ numbers.after part byte }
{
    match part {
        NumberPart::Digits => {
            if byte == b'.' {
                NumberPart::Fraction
            } else {
                part_after_digit(NumberPart::Digits, byte)
            }
        }
        NumberPart::Fraction => part_after_digit(NumberPart::Fraction, byte),
        NumberPart::Exponent | NumberPart::Suffix => NumberPart::Suffix,
    }
}

fn part_after_digit(part: NumberPart, byte: u8) -> NumberPart
    ensures { result ≡ numbers.after_digit part byte }
{
    if byte.is_ascii_digit() || byte == b'_' {
        part
    } else if byte == b'e' || byte == b'E' {
        NumberPart::Exponent
    } else {
        NumberPart::Suffix
    }
}

/// How many bytes go on a number, behind its first digit.
fn number_end(text: &[u8]) -> usize
    ensures in_range { result ≤ length text.now }
    ensures exact { result ≡ numbers.number_len part.Digits text.now }
{
    let mut part = NumberPart::Digits;
    let mut i: usize = 0;
    while i < text.len() && takes(part, text[i], &text[i + 1..]) {
        part = part_after(part, text[i]);
        i += 1;
    }
    i
}

/// Behind the quote that ends a string, where one does.
fn quote_end(text: &[u8], quote: u8) -> Option<usize>
    ensures found { IfSome result (λ n. n ≤ length text.now) }
    ensures exact { IfSome result (λ n. past_quote quote false (take n text.now) ≡ Some []) }
    ensures open { IfNone result (past_quote quote false text.now ≡ None) }
{
    let mut escaped = false;
    for (i, byte) in text.iter().enumerate() {
        if !escaped && *byte == quote {
            return Some(i + 1);
        }
        escaped = is_escape(escaped, *byte);
    }
    None
}

/// Whether a byte takes the meaning from the one behind it.
fn is_escape(escaped: bool, byte: u8) -> bool
    ensures { result ≡ is_escape escaped byte }
{
    !escaped && byte == b'\\'
}

/// Behind the end of a comment, where it has one.
fn comment_end(text: &[u8]) -> Option<usize>
    ensures found { IfSome result (λ n. n ≤ length text.now) }
    ensures exact { IfSome result (λ n. past_comment 0 0 (take n text.now) ≡ Some []) }
    ensures open { IfNone result (past_comment 0 0 text.now ≡ None) }
{
    let mut depth: usize = 0;
    let mut before: u8 = 0;
    for (i, byte) in text.iter().enumerate() {
        if before == b'/' && *byte == b'*' {
            depth += 1;
            before = 0;
        } else if before == b'*' && *byte == b'/' {
            if depth == 0 {
                return Some(i + 1);
            }
            depth -= 1;
            before = 0;
        } else {
            before = *byte;
        }
    }
    None
}

/// Behind the first quote that `hashes` hashes follow, and those.
fn raw_end(text: &[u8], hashes: usize) -> Option<usize>
    ensures found { IfSome result (λ n. n ≤ length text.now) }
    ensures exact { IfSome result (λ n. past_raw hashes 0 (take n text.now) ≡ Some []) }
    ensures open { IfNone result (past_raw hashes 0 text.now ≡ None) }
{
    let mut matched: usize = 0;
    for (i, byte) in text.iter().enumerate() {
        matched = matched_with(matched, *byte);
        if matched > hashes {
            return Some(i + 1);
        }
    }
    None
}

/// How many bytes of a quote and hashes are matched behind one more byte.
fn matched_with(matched: usize, byte: u8) -> usize
    requires { matched < 2 ^ 63 }
    ensures { result ≡ matched_with matched byte }
{
    if byte == b'"' {
        1
    } else if byte == b'#' && matched != 0 {
        matched + 1
    } else {
        0
    }
}

/// Behind the body that the text begins with, where it has an end.
#[tactic(auto, using(crate::proofs::Runs::longest_run, crate::proofs::Runs::all_chars, crate::proofs::Runs::number_goes_on))]
pub(crate) fn body_end(text: &[u8], body: Body) -> Option<usize>
    ensures found { IfSome result (λ n. n ≤ length text.now) }
    ensures exact { IfSome result (λ n. fills body (take n text.now) (drop n text.now) ≡ true) }
    ensures open { IfNone result (never_ends body text.now ≡ true) }
{
    match body {
        Body::Empty => Some(0),
        Body::Following => Some(following_end(text)),
        Body::Blanks => Some(blank_end(text)),
        Body::Line => Some(line_end(text)),
        Body::Word => Some(word_end(text)),
        Body::Number => Some(number_end(text)),
        Body::Comment => comment_end(text),
        Body::Quoted(quote) => quote_end(text, quote),
        Body::Raw(hashes) => raw_end(text, hashes),
    }
}
