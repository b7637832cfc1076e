//! Tokens, read from a text.
ghost use Rattle.std.specs.Prelude.{◌≡◌, ◌+◌, ◌<◌, ◌≤◌, ◌^◌, ◌++◌, List, true, IfOk, OnOk, OnErr, codes, length, sum_by};
ghost use Rattle.item_tree.specs.Tokens.{are_tokens};
ghost use Rattle.item_tree.specs.declared.lexer.token.Token as lexed;
ghost use Rattle.macro_rules.specs.TokensRead as spec;

use crate::token::{Keyword, Token, TokenKind};
use dm_base::edition::Edition;
use item_tree::lexer::lexeme::Delimiter;
use item_tree::lexer::span::Span;
use item_tree::lexer::word::{Word, word_of};
use item_tree::lexer::{lex, token};
use std::alloc::{AllocError, Global};

/// Operators of three marks.
#[tactic(auto, unfolding(crate::specs::TokensRead::is_triple))]
fn is_triple(marks: &[u8]) -> bool
    ensures { result ≡ spec.is_triple marks.now }
{
    marks == b"<<=".as_slice()
        || marks == b">>=".as_slice()
        || marks == b"...".as_slice()
        || marks == b"..=".as_slice()
}

/// Operators of two marks.
#[tactic(auto, unfolding(crate::specs::TokensRead::is_double))]
fn is_double(marks: &[u8]) -> bool
    ensures { result ≡ spec.is_double marks.now }
{
    marks == b"&&".as_slice()
        || marks == b"||".as_slice()
        || marks == b"<<".as_slice()
        || marks == b">>".as_slice()
        || marks == b"->".as_slice()
        || marks == b"=>".as_slice()
        || marks == b"::".as_slice()
        || marks == b"..".as_slice()
        || marks == b"<-".as_slice()
        || is_assigning(marks)
}

/// Those that end with `=`.
#[tactic(auto, unfolding(crate::specs::TokensRead::is_assigning))]
fn is_assigning(marks: &[u8]) -> bool
    ensures { result ≡ spec.is_assigning marks.now }
{
    marks == b"==".as_slice()
        || marks == b"!=".as_slice()
        || marks == b"<=".as_slice()
        || marks == b">=".as_slice()
        || marks == b"+=".as_slice()
        || marks == b"-=".as_slice()
        || marks == b"*=".as_slice()
        || marks == b"/=".as_slice()
        || marks == b"%=".as_slice()
        || marks == b"^=".as_slice()
        || marks == b"&=".as_slice()
        || marks == b"|=".as_slice()
}

/// How many marks the longest operator has that a mark begins.
fn operator_len(rest: &[u8]) -> usize
    ensures some { 0 < result }
    ensures exact { result ≡ spec.operator_len rest.now }
{
    if 3 <= rest.len() && is_triple(&rest[..3]) {
        3
    } else if 2 <= rest.len() && is_double(&rest[..2]) {
        2
    } else {
        1
    }
}

fn byte_at(bytes: &[u8], at: usize) -> u8
    ensures { result ≡ spec.byte_at bytes.now at }
{
    match bytes.get(at) {
        None => 0,
        Some(byte) => *byte,
    }
}

fn mark_kind(byte: u8) -> TokenKind
    ensures { result ≡ spec.mark_kind byte }
{
    match byte {
        b'(' => TokenKind::Open(Delimiter::Parenthesis),
        b')' => TokenKind::Close(Delimiter::Parenthesis),
        b'[' => TokenKind::Open(Delimiter::Bracket),
        b']' => TokenKind::Close(Delimiter::Bracket),
        b'{' => TokenKind::Open(Delimiter::Brace),
        b'}' => TokenKind::Close(Delimiter::Brace),
        _ => TokenKind::Mark(byte),
    }
}

/// The kind of an operator of so many marks.
fn operator_kind(rest: &[u8], len: usize) -> TokenKind
    ensures { result ≡ spec.operator_kind rest.now len }
{
    let first = byte_at(rest, 0);
    let second = byte_at(rest, 1);
    if len == 3 {
        TokenKind::Triple(first, second, byte_at(rest, 2))
    } else if len == 2 {
        TokenKind::Pair(first, second)
    } else {
        mark_kind(first)
    }
}

/// Keywords that no text has.
#[tactic(auto, unfolding(crate::specs::TokensRead::is_reserved))]
fn is_reserved(name: &[u8]) -> bool
    ensures { result ≡ spec.is_reserved name.now }
{
    name == b"abstract".as_slice()
        || name == b"become".as_slice()
        || name == b"override".as_slice()
        || name == b"priv".as_slice()
        || name == b"unsized".as_slice()
        || name == b"virtual".as_slice()
}

/// Whether keywords are that were names in the edition 2015.
fn is_newer(edition: Edition) -> bool
    ensures { result ≡ spec.is_newer edition }
{
    !matches!(edition, Edition::Edition2015)
}

/// Keywords that the grammar of items has no word for.
#[tactic(auto, unfolding(crate::specs::TokensRead::keyword_of))]
fn keyword_of(name: &[u8], edition: Edition) -> Option<Keyword>
    ensures { result ≡ spec.keyword_of edition name.now }
{
    if name == b"loop".as_slice() {
        Some(Keyword::Loop)
    } else if name == b"continue".as_slice() {
        Some(Keyword::Continue)
    } else if name == b"await".as_slice() && is_newer(edition) {
        Some(Keyword::Await)
    } else if name == b"yield".as_slice() {
        Some(Keyword::Yield)
    } else if name == b"try".as_slice() && is_newer(edition) {
        Some(Keyword::Try)
    } else if name == b"do".as_slice() || name == b"box".as_slice() {
        Some(Keyword::Do)
    } else if name == b"typeof".as_slice() {
        Some(Keyword::Typeof)
    } else if is_reserved(name) {
        Some(Keyword::Reserved)
    } else {
        None
    }
}

fn word_kind(name: &[u8], edition: Edition) -> TokenKind
    ensures { result ≡ spec.word_kind edition name.now }
{
    match word_of(name, edition) {
        Word::Other => match keyword_of(name, edition) {
            Some(keyword) => TokenKind::Keyword(keyword),
            None => TokenKind::Word(Word::Other),
        },
        word => TokenKind::Word(word),
    }
}

/// What a token of a text is, if it is neither a comment, a blank nor a mark.
fn plain_kind(kind: token::TokenKind, piece: &[u8], edition: Edition) -> Option<TokenKind>
    ensures { result ≡ spec.plain_kind edition kind piece.now }
{
    match kind {
        token::TokenKind::Identifier => Some(word_kind(piece, edition)),
        token::TokenKind::Lifetime => Some(TokenKind::Lifetime),
        token::TokenKind::Char | token::TokenKind::Number => Some(TokenKind::Literal),
        token::TokenKind::Str | token::TokenKind::RawStr => Some(TokenKind::Literal),
        token::TokenKind::Error => Some(TokenKind::Error),
        _ => None,
    }
}

/// A comment that documents.
#[derive(Clone, Copy)]
enum Doc {
    Inner,
    Outer,
}

/// Whether a comment documents.
fn doc_of(kind: token::TokenKind, piece: &[u8]) -> Option<Doc>
    ensures { result ≡ spec.doc_of kind piece.now }
{
    match kind {
        token::TokenKind::LineComment => {
            if piece.starts_with(b"//!") {
                Some(Doc::Inner)
            } else if piece.starts_with(b"///") && !piece.starts_with(b"////") {
                Some(Doc::Outer)
            } else {
                None
            }
        }
        token::TokenKind::BlockComment => {
            if piece.starts_with(b"/*!") {
                Some(Doc::Inner)
            } else if piece.starts_with(b"/**") && !piece.starts_with(b"/***") && 4 < piece.len() {
                Some(Doc::Outer)
            } else {
                None
            }
        }
        _ => None,
    }
}

/// A token at a place.
fn placed(kind: TokenKind, start: usize, len: usize) -> Token
    ensures { result ≡ spec.placed kind start len }
{
    Token {
        kind,
        span: Span { start, len },
    }
}

/// Adds the attribute that a doc comment stands for, in the words that stand at a place of the bytes.
fn add_doc(tokens: &mut Vec<Token>, words: usize, doc: Doc) -> Result<(), AllocError>
    requires { words < 2 ^ 63 }
    ensures { OnOk result (tokens.new.items ≡ tokens.old.items ++ spec.doc_tokens words doc) }
{
    tokens.push(placed(TokenKind::Mark(b'#'), words, 1))?;
    if let Doc::Inner = doc {
        tokens.push(placed(TokenKind::Mark(b'!'), words + 1, 1))?;
    }
    tokens.extend_from_slice(&[
        placed(TokenKind::Open(Delimiter::Bracket), words + 2, 1),
        placed(TokenKind::Word(Word::Other), words + 3, 3),
        placed(TokenKind::Mark(b'='), words + 6, 1),
        placed(TokenKind::Doc, words + 7, 2),
        placed(TokenKind::Close(Delimiter::Bracket), words + 9, 1),
    ])
}

/// How many marks behind a token belong to its operator, where so many of those before belong to another.
fn marks_behind(kind: token::TokenKind, rest: &[u8], skipped: usize) -> usize
    ensures { result ≡ spec.marks_behind kind rest.now skipped }
{
    match kind {
        token::TokenKind::Punctuation => {
            if skipped == 0 {
                operator_len(rest) - 1
            } else {
                skipped - 1
            }
        }
        _ => 0,
    }
}

/// Adds what is left of an operator that begins with `>`, without its first mark and without its first two.
fn add_left(tokens: &mut Vec<Token>, start: usize, kind: TokenKind) -> Result<(), AllocError>
    requires { start < 2 ^ 63 }
    ensures { OnOk result (tokens.new.items ≡ tokens.old.items ++ spec.left_of kind start) }
{
    match kind {
        TokenKind::Pair(first, second) => {
            if first == b'>' {
                tokens.push(placed(TokenKind::Mark(second), start + 1, 1))?;
            }
        }
        TokenKind::Triple(first, second, third) => {
            if first == b'>' {
                tokens.push(placed(TokenKind::Pair(second, third), start + 1, 2))?;
                tokens.push(placed(TokenKind::Mark(third), start + 2, 1))?;
            }
        }
        _ => {}
    }
    Ok(())
}

/// Adds the operator that a mark begins, unless the mark belongs to one before.
fn add_operator(
    tokens: &mut Vec<Token>,
    start: usize,
    rest: &[u8],
    skipped: usize,
) -> Result<(), AllocError>
    requires { start < 2 ^ 63 }
    ensures { OnOk result (tokens.new.items ≡ tokens.old.items ++ spec.operator_tokens start rest.now skipped) }
{
    if skipped == 0 {
        let len = operator_len(rest);
        let kind = operator_kind(rest, len);
        tokens.push(placed(kind, start, len))?;
        add_left(tokens, start, kind)?;
    }
    Ok(())
}

/// Adds what a token is that is no mark.
fn add_plain(
    tokens: &mut Vec<Token>,
    words: usize,
    start: usize,
    kind: token::TokenKind,
    piece: &[u8],
    edition: Edition,
) -> Result<(), AllocError>
    requires { words < 2 ^ 63 }
    ensures { OnOk result (tokens.new.items ≡ tokens.old.items ++ spec.plain_tokens edition words start kind piece.now) }
{
    match plain_kind(kind, piece, edition) {
        Some(own) => {
            tokens.push(placed(own, start, piece.len()))?;
            Ok(())
        }
        None => match doc_of(kind, piece) {
            Some(doc) => add_doc(tokens, words, doc),
            None => Ok(()),
        },
    }
}

/// Adds what the token is that begins the rest of a text.
fn add_token(
    tokens: &mut Vec<Token>,
    words: usize,
    start: usize,
    own: token::Token,
    rest: &[u8],
    skipped: usize,
    edition: Edition,
) -> Result<(), AllocError>
    requires low { words < 2 ^ 63 }
    requires before { start < 2 ^ 63 }
    requires within { own.len ≤ length rest.now }
    ensures { OnOk result (tokens.new.items ≡ tokens.old.items ++ spec.tokens_at edition words start own rest.now skipped) }
{
    match own.kind {
        token::TokenKind::Punctuation => add_operator(tokens, start, rest, skipped),
        kind => add_plain(tokens, words, start, kind, &rest[..own.len], edition),
    }
}

/// The tokens of a text that was cut, which stands at a place of the bytes, behind the words of doc comments.
fn place_tokens(
    alloc: Global,
    words: usize,
    base: usize,
    text: &[u8],
    cut: &[token::Token],
    edition: Edition,
) -> Result<Vec<Token>, AllocError>
    requires low { words < 2 ^ 63 }
    requires whole { sum_by (λ (t : lexed.Token). t.len) cut.now ≡ length text.now }
    requires small { base + length text.now < 2 ^ 63 }
    ensures { IfOk result (λ found. found.items ≡ spec.tokens_of edition words base 0 cut.now text.now) }
{
    let mut tokens = Vec::new(alloc);
    let mut at: usize = 0;
    let mut skipped: usize = 0;
    for own in cut {
        add_token(
            &mut tokens,
            words,
            base + at,
            *own,
            &text[at..],
            skipped,
            edition,
        )?;
        skipped = marks_behind(own.kind, &text[at..], skipped);
        at += own.len;
    }
    Ok(tokens)
}

/// Reads the tokens of a text, which is added to the bytes that they stand in, behind the words of doc comments.
///
/// # Errors
///
/// Fails only where memory runs out, and leaves the bytes as they were.
pub fn read_tokens(
    alloc: Global,
    bytes: &mut Vec<u8>,
    text: &[u8],
    edition: Edition,
) -> Result<Vec<Token>, AllocError>
    requires { length bytes.old.items + length text.now < 2 ^ 62 }
    ensures exact { IfOk result (λ found. (cut : List lexed.Token) → are_tokens edition true cut text.now ≡ true → found.items ≡ spec.tokens_of edition (length bytes.old.items) (length bytes.old.items + 10) 0 cut text.now) }
    ensures ok { OnOk result (bytes.new.items ≡ bytes.old.items ++ (spec.doc_words ++ text.now)) }
    ensures err { OnErr result (bytes.new.items ≡ bytes.old.items) }
{
    let words = bytes.len();
    let cut = lex(alloc, text, edition)?;
    let tokens = place_tokens(alloc, words, words + 10, text, cut.as_slice(), edition)?;
    let mut own = Vec::from_slice(alloc, b"#![doc=\"\"]")?;
    own.extend_from_slice(text)?;
    bytes.extend_from_slice(own.as_slice())?;
    Ok(tokens)
}
