//! Tokens as text: to be read again, and for people.
use item_tree::lexer::lexeme::Delimiter;
use item_tree::lexer::span::piece;
use macro_rules::token::{Token, TokenKind};
use std::alloc::{AllocError, Global};

/// The text of some tokens, with a blank behind each, and where each stands in it. Borders of fragments have no text, and
/// what is left of an operator behind it has none of its own.
#[derive(Drop)]
pub(crate) struct TokenText {
    pub(crate) text: Vec<u8>,
    places: Vec<usize>,
}

/// How a token is written.
pub(crate) fn written<'a>(bytes: &'a [u8], token: Token) -> &'a [u8] {
    match token.kind {
        TokenKind::FragmentOpen(_) | TokenKind::FragmentClose(_) => b"",
        TokenKind::DollarCrate(_) => b"crate",
        _ => piece(bytes, token.span),
    }
}

/// How many tokens behind an operator are what is left of it.
pub(crate) fn left_behind(kind: TokenKind) -> usize {
    match kind {
        TokenKind::Pair(b'>', _) => 1,
        TokenKind::Triple(b'>', _, _) => 2,
        _ => 0,
    }
}

impl TokenText {
    pub(crate) fn of(
        alloc: Global,
        bytes: &[u8],
        tokens: &[Token],
    ) -> Result<TokenText, AllocError> {
        let mut text = Vec::new(alloc);
        let mut places = Vec::new(alloc);
        let mut left = 0usize;
        for token in tokens {
            places.push(text.len())?;
            if left != 0 {
                left = left.saturating_sub(1);
                continue;
            }
            left = left_behind(token.kind);
            let written = written(bytes, *token);
            if !written.is_empty() {
                text.extend_from_slice(written)?;
                text.push(b' ')?;
            }
        }
        Ok(TokenText { text, places })
    }

    /// The number of the token that stands at a byte, or of the last before it.
    pub(crate) fn token_at(&self, start: usize) -> usize {
        let behind = self.places.partition_point(|place| *place <= start);
        behind.saturating_sub(1)
    }
}

/// Whether a token stands right behind the one before it.
fn is_close_behind(kind: TokenKind) -> bool {
    match kind {
        TokenKind::Mark(mark) => matches!(mark, b',' | b';' | b'.' | b'?' | b':' | b'>'),
        TokenKind::Pair(first, _) => matches!(first, b':' | b'>'),
        TokenKind::Close(Delimiter::Parenthesis | Delimiter::Bracket) => true,
        _ => false,
    }
}

/// Whether a token stands right before the one behind it.
fn is_close_before(kind: TokenKind) -> bool {
    match kind {
        TokenKind::Mark(mark) => matches!(mark, b'.' | b'#' | b'$' | b'<' | b'&'),
        TokenKind::Pair(b':', b':') => true,
        TokenKind::Open(Delimiter::Parenthesis | Delimiter::Bracket) => true,
        _ => false,
    }
}

/// Whether a token stands right behind a name.
fn is_close_to_name(kind: TokenKind) -> bool {
    match kind {
        TokenKind::Mark(mark) => matches!(mark, b'<' | b'!'),
        TokenKind::Open(Delimiter::Parenthesis | Delimiter::Bracket) => true,
        _ => false,
    }
}

fn is_name(kind: TokenKind) -> bool {
    matches!(kind, TokenKind::Word(_) | TokenKind::DollarCrate(_))
}

/// Whether a blank stands between two tokens of different texts.
fn has_blank(before: TokenKind, kind: TokenKind) -> bool {
    !(is_close_before(before) || is_close_behind(kind) || is_name(before) && is_close_to_name(kind))
}

fn is_blank(byte: u8) -> bool {
    matches!(byte, b' ' | b'\t' | b'\n' | b'\r')
}

/// Whether a blank stands between two tokens: as where they follow each other in a text, and else as a person writes them.
fn is_parted(bytes: &[u8], before: Token, token: Token) -> bool {
    let end = before.span.start.saturating_add(before.span.len);
    match bytes.get(end..token.span.start) {
        Some(between) if between.iter().all(|byte| is_blank(*byte)) => !between.is_empty(),
        _ => has_blank(before.kind, token.kind),
    }
}

/// Adds tokens, with blanks where a person writes them.
pub(crate) fn push_tokens(
    out: &mut String,
    bytes: &[u8],
    tokens: &[Token],
) -> Result<(), AllocError> {
    let mut before: Option<Token> = None;
    let mut left = 0usize;
    for token in tokens {
        let written = written(bytes, *token);
        if left != 0 || written.is_empty() {
            left = left.saturating_sub(1);
            continue;
        }
        if let Some(before) = before {
            if is_parted(bytes, before, *token) {
                out.push_str(" ")?;
            }
        }
        out.push_str(std::str::from_utf8(written).unwrap_or("?"))?;
        left = left_behind(token.kind);
        before = Some(*token);
    }
    Ok(())
}
