//! What a transcriber writes, position by position.
ghost use Rattle.std.specs.Prelude.{◌≡◌, IfOk, OnOk, slice_get};
ghost use Rattle.macro_rules.specs.Writings as spec;

use crate::row::Row;
use crate::token::Token;
use crate::visits::RowVisits;
use crate::writing::levels::is_separator;
use crate::writing::{WriteFault, Writing};
use std::alloc::{AllocError, Global};

/// The positions from one up to another.
fn between(rows: &[Row], from: usize, end: usize) -> &[Row]
    ensures { result.now ≡ spec.between from end rows.now }
{
    let rest = &rows[from.min(rows.len())..];
    &rest[..end.saturating_sub(from).min(rest.len())]
}

impl Writing {
    /// Writes what one position says.
    #[tactic(auto, unfolding(crate::specs::Writings::step))]
    fn step(
        &mut self,
        rows: &[Row],
        matcher: &[Row],
        table: &[RowVisits],
        input: &[Token],
    ) -> Result<(), AllocError>
        ensures { OnOk result (self.new ≡ spec.step rows.now matcher.now table.now input.now self.old) }
    {
        let at = self.at;
        match rows.get(at) {
            None => Ok(()),
            Some(Row::Token(token)) => self.write(*token, at + 1),
            Some(Row::Separator(token, start)) => self.write(*token, *start),
            Some(Row::Variable(_) | Row::Iteration) => {
                self.at = at + 1;
                Ok(())
            }
            Some(Row::Capture(row)) => {
                self.write_capture(matcher, table, input, *row)?;
                self.at = at + 1;
                Ok(())
            }
            Some(Row::Begin(repetition)) => {
                let body = between(rows, at, repetition.end);
                self.open(matcher, table, at, repetition.behind, body)
            }
            Some(Row::End(_)) => self.end(at, is_separator(rows, at + 1)),
        }
    }

    fn is_done(&self, rows: &[Row]) -> bool
        ensures { result ≡ spec.is_done rows.now self.now }
    {
        self.fault.is_some() || rows.len() <= self.at
    }
}

/// What a transcriber writes for a match, in at most so many steps.
pub(crate) fn transcribe(
    alloc: Global,
    rows: &[Row],
    matcher: &[Row],
    table: &[RowVisits],
    input: &[Token],
    limit: usize,
) -> Result<Writing, AllocError>
    ensures { IfOk result (λ w. w ≡ spec.transcribed rows.now matcher.now table.now input.now limit) }
{
    let mut writing = Writing::new(alloc, matcher.len())?;
    let mut left = limit;
    while left != 0 && !writing.is_done(rows) {
        writing.step(rows, matcher, table, input)?;
        left -= 1;
    }
    if !writing.is_done(rows) {
        writing.fail(WriteFault::TooGreat);
    }
    Ok(writing)
}
