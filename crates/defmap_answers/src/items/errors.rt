//! The syntax errors of a text.
use crate::items::parsed::Parsed;
use item_tree::lexer::syntax_error::syntax_errors;
use std::alloc::{AllocError, Global};
use std::fmt::Write;

/// Adds each error, behind the byte where it stands.
pub(crate) fn push_errors(
    out: &mut String,
    alloc: Global,
    text: &str,
    read: &Parsed,
) -> Result<(), AllocError> {
    let lexemes = read.lexemes.as_slice();
    for error in &syntax_errors(alloc, lexemes, read.partners.as_slice(), &read.tree)? {
        let start = match lexemes.get(error.at) {
            None => text.len(),
            Some(lexeme) => lexeme.start,
        };
        write!(out, "{start}: {}\n", error.expected)?;
    }
    Ok(())
}
