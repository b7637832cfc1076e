//! The lines of a text as predicates of `cfg`.
use crate::items::Manner;
use item_tree::cfg::cfg_parser::{CfgParse, parse_cfg};
use item_tree::lexer::lexeme::read_lexemes;
use std::alloc::{AllocError, Global};
use std::fmt::Write;

/// Adds a line, and whether it holds as a predicate, or the lexeme at which it is none.
fn push_predicate(
    out: &mut String,
    alloc: Global,
    manner: Manner<'_>,
    line: &str,
) -> Result<(), AllocError> {
    let bytes = line.as_bytes();
    let lexemes = read_lexemes(alloc, bytes, manner.edition)?;
    match parse_cfg(alloc, bytes, lexemes.as_slice())? {
        CfgParse::Predicate(nodes) => {
            let holds = manner.options.check(bytes, nodes.as_slice());
            let word = if holds == Some(true) { "yes" } else { "no" };
            write!(out, "{line}: {word}\n")
        }
        CfgParse::Malformed(at) => write!(out, "{line}: at {at}\n"),
    }
}

/// Adds each line.
pub(crate) fn push_predicates(
    out: &mut String,
    alloc: Global,
    manner: Manner<'_>,
    text: &str,
) -> Result<(), AllocError> {
    for line in text.lines() {
        push_predicate(out, alloc, manner, line)?;
    }
    Ok(())
}
