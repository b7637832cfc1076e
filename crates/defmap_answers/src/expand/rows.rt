//! The rows of expansions.
use crate::rows::{Location, Row, push_location};
use serde::Serialize;
use std::alloc::AllocError;
use std::fmt::Write;

/// A token, and the line and the column that it is from; 0 where it stands in no text.
#[derive(Drop, Serialize)]
pub(crate) struct TokenRow<'a> {
    pub(crate) text: &'a str,
    pub(crate) line: usize,
    pub(crate) column: usize,
}

/// An item that a call makes; its tokens where they are asked for.
#[derive(Drop, Serialize)]
pub(crate) struct ItemRow<'a> {
    pub(crate) text: String,
    pub(crate) tokens: Vec<TokenRow<'a>>,
}

/// What a call makes: where the outermost call begins that it is within, how many calls deep it is, where it is written, and
/// the items, or why there are none.
#[derive(Drop, Serialize)]
pub(crate) struct ExpansionRow<'a> {
    pub(crate) reason: &'static str,
    pub(crate) name: String,
    pub(crate) at: Location<'a>,
    pub(crate) depth: u32,
    pub(crate) written: Location<'a>,
    pub(crate) items: Vec<ItemRow<'a>>,
    pub(crate) fault: Option<&'static str>,
    pub(crate) fault_at: Option<Location<'a>>,
}

impl<'a> Row for ExpansionRow<'a> {
    fn push_text(&self, out: &mut String) -> Result<(), AllocError> {
        push_location(out, self.at)?;
        write!(out, ": {}!", self.name)?;
        if self.depth > 1 {
            let Location { line, column, .. } = self.written;
            write!(out, ", {} calls deep, of {line}:{column}", self.depth)?;
        }
        if let Some(fault) = self.fault {
            write!(out, ": {fault}")?;
        }
        if let Some(Location { line, column, .. }) = self.fault_at {
            write!(out, ", at {line}:{column}")?;
        }
        out.push_str("\n")?;
        for item in &self.items {
            write!(out, "    {}\n", item.text)?;
        }
        Ok(())
    }
}
