//! What the macro calls among the items of a file make, by the macros of that file.
mod events;
mod expander;
mod faults;
mod limits;
mod rows;
mod scopes;
mod token_text;
mod told;

use crate::expand::expander::{Expander, Outermost};
use crate::expand::limits::DEEPEST;
use crate::expand::scopes::Scopes;
use crate::places::file_lines;
use crate::rows::Style;
use dm_base::edition::Edition;
use item_tree::cfg::CfgOptions;
use macro_rules::tokens::read_tokens;
use std::alloc::{AllocError, Global};

/// No text is as long as this.
const LONGEST: usize = 1 << 61;

/// How a file is expanded: how its text is read, how the answer is written, and the line and column that is asked for, if one
/// is.
#[derive(Clone, Copy)]
pub struct ExpandManner<'o> {
    pub edition: Edition,
    pub options: &'o CfgOptions,
    pub style: Style,
    pub wanted: Option<(usize, usize)>,
}

/// What calls make, in rows; what is told beside it; and whether each call has an expansion.
#[derive(Drop)]
pub struct Expanded {
    pub out: String,
    pub told: String,
    pub is_whole: bool,
}

/// What each macro call among the items of a text makes, by the macros of that text.
///
/// # Errors
///
/// Fails only where memory runs out.
pub fn expand_text(
    alloc: Global,
    manner: ExpandManner<'_>,
    path: &str,
    text: &str,
) -> Result<Expanded, AllocError> {
    let mut bytes = Vec::new(alloc);
    if text.len() >= LONGEST {
        return Err(AllocError);
    }
    let tokens = read_tokens(alloc, &mut bytes, text.as_bytes(), manner.edition)?;
    let base = bytes.len().saturating_sub(text.len());
    let mut expander = Expander {
        alloc,
        manner,
        lines: file_lines(alloc, path.as_bytes(), text.as_bytes())?,
        bytes,
        base,
        definitions: Vec::new(alloc),
        scopes: Scopes::new(alloc),
        limit: 0,
        call: Outermost {
            at: 0,
            is_wanted: false,
        },
        made: 0,
        is_over: false,
        answer: Expanded {
            out: String::new(alloc),
            told: String::new(alloc),
            is_whole: true,
        },
        has_found: manner.wanted.is_none(),
    };
    let read = expander.read(tokens.as_slice())?;
    expander.limit = read.recursion_limit().unwrap_or(DEEPEST);
    let level = expander.level(tokens, &read, 0)?;
    expander.run(level)?;
    expander.tell_absent(path)?;
    Ok(expander.into_answer())
}
