//! Tokens and lexemes of a text.
use dm_base::edition::Edition;
use item_tree::lexer::lex;
use item_tree::lexer::lexeme::read_lexemes;
use std::alloc::{AllocError, Global};
use std::fmt::Write;

/// Adds each token with its length.
pub(crate) fn push_tokens(
    out: &mut String,
    alloc: Global,
    edition: Edition,
    text: &str,
) -> Result<(), AllocError> {
    for token in &lex(alloc, text.as_bytes(), edition)? {
        write!(out, "{:?} {}\n", token.kind, token.len)?;
    }
    Ok(())
}

/// Adds each lexeme with its start and its length.
pub(crate) fn push_lexemes(
    out: &mut String,
    alloc: Global,
    edition: Edition,
    text: &str,
) -> Result<(), AllocError> {
    for lexeme in &read_lexemes(alloc, text.as_bytes(), edition)? {
        let (kind, start, len) = (lexeme.kind, lexeme.start, lexeme.len);
        write!(out, "{kind:?} {start} {len}\n")?;
    }
    Ok(())
}
