//! The tokens that are neither blanks nor comments, told apart.
ghost use Rattle.std.specs.Prelude.{◌≡◌, ◌+◌, ◌≤◌, ◌++◌, List, IfOk, OnOk, OnErr, length, drop, sum_by, true, All};
ghost use Rattle.item_tree.specs.Lexemes as spec;
ghost use Rattle.item_tree.specs.Tokens.{are_tokens};
ghost use Rattle.item_tree.specs.declared.lexer.token.Token.{Token};

use crate::lexer::lex;
use crate::lexer::token::{Token, TokenKind};
use crate::lexer::word::{Word, word_of};
use dm_base::edition::Edition;
use std::alloc::{AllocError, Global};

/// The kind of brackets.
#[derive(Clone, Copy, PartialEq, Eq, Debug)]
pub enum Delimiter {
    Parenthesis,
    Bracket,
    Brace,
}

/// What a lexeme is: all that is ever asked of its text but the name itself.
#[derive(Clone, Copy, PartialEq, Eq, Debug)]
pub enum LexemeKind {
    /// A name.
    Word(Word),
    Open(Delimiter),
    Close(Delimiter),
    /// Another byte of punctuation.
    Mark(u8),
    Lifetime,
    /// A string, raw or plain.
    Str,
    /// A character or a number.
    Literal,
    /// What is no token.
    Error,
}

/// A token that is neither a blank nor a comment, with its place in the text.
#[derive(Clone, Copy, PartialEq, Eq, Debug)]
pub struct Lexeme {
    pub kind: LexemeKind,
    pub start: usize,
    pub len: usize,
}

fn punctuation(byte: u8) -> LexemeKind
    ensures { result ≡ spec.punctuation byte }
{
    match byte {
        b'(' => LexemeKind::Open(Delimiter::Parenthesis),
        b')' => LexemeKind::Close(Delimiter::Parenthesis),
        b'[' => LexemeKind::Open(Delimiter::Bracket),
        b']' => LexemeKind::Close(Delimiter::Bracket),
        b'{' => LexemeKind::Open(Delimiter::Brace),
        b'}' => LexemeKind::Close(Delimiter::Brace),
        _ => LexemeKind::Mark(byte),
    }
}

/// The lexeme that a piece of punctuation is.
fn first_mark(piece: &[u8]) -> LexemeKind
    ensures { result ≡ spec.first_mark piece.now }
{
    match piece.first() {
        None => LexemeKind::Error,
        Some(byte) => punctuation(*byte),
    }
}

/// What a token is as a lexeme; nothing where it is a blank or a comment.
fn classify(kind: TokenKind, piece: &[u8], edition: Edition) -> Option<LexemeKind>
    ensures { result ≡ spec.classify edition kind piece.now }
{
    match kind {
        TokenKind::Blank => None,
        TokenKind::LineComment | TokenKind::BlockComment => None,
        TokenKind::Shebang => None,
        TokenKind::Identifier => Some(LexemeKind::Word(word_of(piece, edition))),
        TokenKind::Lifetime => Some(LexemeKind::Lifetime),
        TokenKind::Str | TokenKind::RawStr => Some(LexemeKind::Str),
        TokenKind::Char | TokenKind::Number => Some(LexemeKind::Literal),
        TokenKind::Punctuation => Some(first_mark(piece)),
        TokenKind::Error => Some(LexemeKind::Error),
    }
}

/// Adds the lexeme that a token at the start of the rest is, if it is one.
fn push_lexeme(
    lexemes: &mut Vec<Lexeme>,
    token: Token,
    start: usize,
    rest: &[u8],
    edition: Edition,
) -> Result<(), AllocError>
    requires { token.len ≤ length rest.now }
    ensures ok { OnOk result (lexemes.new.items ≡ lexemes.old.items ++ spec.lexeme_of edition start token rest.now) }
    ensures err { OnErr result (lexemes.new.items ≡ lexemes.old.items) }
{
    match classify(token.kind, &rest[..token.len], edition) {
        None => Ok(()),
        Some(kind) => {
            let len = token.len;
            lexemes.push(Lexeme { kind, start, len })?;
            Ok(())
        }
    }
}

/// The lexemes of tokens that add up to a text.
fn classify_all(
    alloc: Global,
    text: &[u8],
    tokens: &[Token],
    edition: Edition,
) -> Result<Vec<Lexeme>, AllocError>
    requires { sum_by (λ (t : Token). t.len) tokens.now ≡ length text.now }
    ensures { IfOk result (λ found. found.items ≡ spec.lexemes_of edition 0 tokens.now text.now) }
{
    let mut lexemes = Vec::new(alloc);
    let mut start: usize = 0;
    for token in tokens {
        push_lexeme(&mut lexemes, *token, start, &text[start..], edition)?;
        start += token.len;
    }
    Ok(lexemes)
}

/// The lexemes of a text, in order. Each lies in the text.
///
/// # Errors
///
/// Fails only where memory runs out.
pub fn read_lexemes(alloc: Global, text: &[u8], edition: Edition) -> Result<Vec<Lexeme>, AllocError>
    ensures exact { IfOk result (λ found. (tokens : List Token) → are_tokens edition true tokens text.now ≡ true → found.items ≡ spec.lexemes_of edition 0 tokens text.now) }
    ensures in_text { IfOk result (λ found. All (spec.LiesIn (length text.now)) found.items) }
{
    let tokens = lex(alloc, text, edition)?;
    classify_all(alloc, text, tokens.as_slice(), edition)
}
