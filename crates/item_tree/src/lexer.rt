//! The tokens of a text.
ghost use Rattle.std.specs.Prelude.{◌≡◌, ◌<◌, true, IfOk, length, sum_by};
ghost use Rattle.item_tree.specs.Tokens.{IsFirst, are_tokens, IsOnlyCut};

pub(crate) mod characters;
pub mod children;
pub mod delimiters;
pub mod lexeme;
pub mod span;
pub mod strings;
pub mod syntax_error;
pub mod token;
pub mod trees;
pub mod word;

use crate::items::bodies::body_end;
use crate::items::openings::{begins_order_mark, first_opening};
use crate::lexer::token::{Token, TokenKind};
use dm_base::edition::Edition;
use std::alloc::{AllocError, Global};

/// The token that the text begins with.
fn first_token(text: &[u8], edition: Edition, at_start: bool) -> Token
    requires { 0 < length text.now }
    ensures { IsFirst edition at_start result text.now }
{
    let start = first_opening(text, edition, at_start);
    match body_end(&text[start.len..], start.body) {
        Some(end) => Token {
            kind: start.kind,
            len: start.len + end,
        },
        None => Token {
            kind: TokenKind::Error,
            len: text.len(),
        },
    }
}

/// The tokens of a text, in order: each byte is in one. The time is linear in the length of the text.
///
/// # Errors
///
/// Fails only where memory runs out.
pub fn lex(alloc: Global, text: &[u8], edition: Edition) -> Result<Vec<Token>, AllocError>
    ensures cut { IfOk result (λ tokens. are_tokens edition true tokens.items text.now ≡ true) }
    ensures whole { IfOk result (λ tokens. sum_by (λ t. t.len) tokens.items ≡ length text.now) }
    ensures only { IfOk result (λ tokens. IsOnlyCut edition tokens.items text.now) }
{
    let mut tokens = Vec::new(alloc);
    let mut at: usize = 0;
    let mut at_start = true;
    while at < text.len() {
        let token = first_token(&text[at..], edition, at_start);
        tokens.push(token)?;
        at_start = at_start && begins_order_mark(&text[at..]);
        at += token.len;
    }
    Ok(tokens)
}
