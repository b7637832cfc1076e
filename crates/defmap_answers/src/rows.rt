//! Rows of answers: each a line of text, or an object of JSON in a line.
use serde::Serialize;
use std::alloc::{AllocError, Global};
use std::fmt::Write;

/// How answers are written.
#[derive(Clone, Copy, PartialEq, Eq, Debug)]
pub enum Style {
    Text,
    /// Text with colours, for a terminal.
    Coloured,
    /// An object a line.
    Json,
}

/// Where something is written.
#[derive(Clone, Copy, Serialize)]
pub struct Location<'a> {
    pub file: &'a str,
    pub line: usize,
    pub column: usize,
}

/// A row of an answer.
pub trait Row: Serialize {
    /// Adds it as text, in a line that ends.
    fn push_text(&self, out: &mut String) -> Result<(), AllocError>;

    /// The same in colours, where it has any.
    fn push_coloured(&self, out: &mut String) -> Result<(), AllocError> {
        self.push_text(out)
    }
}

/// Adds a row as an object of JSON.
fn push_json<R: Row>(out: &mut String, alloc: Global, row: &R) -> Result<(), AllocError> {
    match serde_json::to_string(alloc, row) {
        Ok(line) => {
            out.push_str(line.as_str())?;
            out.push_str("\n")
        }
        Err(_error) => Err(AllocError),
    }
}

/// Adds a row. What is written is text and numbers, so that only memory can lack.
pub fn push_row<R: Row>(
    out: &mut String,
    alloc: Global,
    style: Style,
    row: &R,
) -> Result<(), AllocError> {
    match style {
        Style::Text => row.push_text(out),
        Style::Coloured => row.push_coloured(out),
        Style::Json => push_json(out, alloc, row),
    }
}

/// Adds a location, as FILE:LINE:COLUMN.
pub(crate) fn push_location(out: &mut String, at: Location<'_>) -> Result<(), AllocError> {
    let Location { file, line, column } = at;
    if line == 0 {
        out.push_str(file)
    } else {
        write!(out, "{file}:{line}:{column}")
    }
}
