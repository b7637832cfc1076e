//! Lines and columns of offsets in a text.
ghost use Rattle.std.specs.Prelude.{◌≡◌, ◌+◌, ◌<◌, ◌≤◌, ◌++◌, ◌∷◌, [], ℕ, length, count_by, drop, fold, take, if◌then◌else◌, slice_index, IfOk, OnOk};
ghost use Rattle.std.specs.List.Sorted.{IsNonDecreasing};
ghost use Rattle.crate_items.specs.LineIndexes as spec;

use std::alloc::{AllocError, Global};
use std::marker::Model;

/// A line and a column, both from 1 on.
#[derive(Clone, Copy, PartialEq, Eq, Debug)]
pub struct LineCol {
    pub line: usize,
    pub col: usize,
}

/// A text, with a table of where its lines begin. A contract sees the text.
#[derive(Drop)]
pub struct LineIndex<'a> {
    text: &'a [u8],
    starts: Vec<usize>,
}

impl<'a> Model for LineIndex<'a> {
    ghost use Rattle.std.specs.Prelude.{ℕ, List, ◌≡◌};
    ghost use Rattle.crate_items.specs.LineIndexes.{starts_from};

    ghost Value = { List ℕ };

    ghost view = { λ i. i.text.now };

    ghost invariant = { λ i. i.starts.items ≡ starts_from 0 i.text.now };
}

impl<'a> LineIndex<'a> {
    /// The index of a text. The time is linear.
    ///
    /// # Errors
    ///
    /// Fails only where memory runs out.
    pub fn new(alloc: Global, text: &'a [u8]) -> Result<LineIndex<'a>, AllocError>
        ensures { IfOk result (λ index. index ≡ text.now) }
    {
        let starts = line_starts(alloc, text)?;
        Ok(LineIndex { text, starts })
    }

    /// The line and the column of an offset: a binary search, and a walk along the line.
    pub fn line_col(&self, offset: usize) -> LineCol
        requires { offset ≤ length self.now }
        ensures { result ≡ spec.line_col self.now offset }
    {
        let at = read_at(self.text, offset);
        line_col_by(self.text, self.starts.as_slice(), at)
    }
}

/// Adds where a line begins, behind a byte that is a newline.
fn add_start(starts: &mut Vec<usize>, byte: u8, behind: usize) -> Result<(), AllocError>
    ensures { OnOk result (starts.new.items ≡ (if spec.is_newline byte then starts.old.items ++ behind ∷ [] else starts.old.items)) }
{
    if byte == b'\n' {
        starts.push(behind)?;
    }
    Ok(())
}

/// Where the lines but the first begin.
fn line_starts(alloc: Global, text: &[u8]) -> Result<Vec<usize>, AllocError>
    ensures { IfOk result (λ starts. starts.items ≡ spec.starts_from 0 text.now) }
{
    let mut starts = Vec::new(alloc);
    for place in 0..text.len() {
        add_start(&mut starts, text[place], place + 1)?;
    }
    Ok(starts)
}

/// Whether an offset lies between a carriage return and its newline.
fn is_split(text: &[u8], offset: usize) -> bool
    requires { offset ≤ length text.now }
    ensures { result ≡ spec.is_split text.now offset }
{
    0 < offset && text[offset - 1..].starts_with(b"\r\n")
}

/// The offset that is read in place of another.
fn read_at(text: &[u8], offset: usize) -> usize
    requires { offset ≤ length text.now }
    ensures within { result ≤ length text.now }
    ensures exact { result ≡ spec.read_at text.now offset }
{
    if is_split(text, offset) {
        offset - 1
    } else {
        offset
    }
}

/// How many of these are not past an offset.
fn count_through(starts: &[usize], offset: usize) -> usize
    requires { IsNonDecreasing starts.now }
    ensures bound { result ≤ length starts.now }
    ensures through { (k : ℕ) → k < result → slice_index starts.now k ≤ offset }
    ensures past { (k : ℕ) → result ≤ k → k < length starts.now → offset < slice_index starts.now k }
{
    starts.partition_point(|start| *start <= offset)
}

/// How many characters begin in some bytes.
fn characters(bytes: &[u8]) -> usize
    ensures bound { result ≤ length bytes.now }
    ensures exact { result ≡ count_by spec.begins_char bytes.now }
{
    bytes
        .iter()
        .filter(|byte| **byte < 128 || 192 <= **byte)
        .count()
}

/// The column that a text begins at.
fn first_column(text: &[u8]) -> usize
    ensures { result ≡ spec.first_column text.now }
{
    if text.starts_with(b"\xef\xbb\xbf") {
        0
    } else {
        1
    }
}

/// What stands before an offset.
fn front(text: &[u8], offset: usize) -> &[u8]
    requires { offset ≤ length text.now }
    ensures { result.now ≡ take offset text.now }
{
    &text[..offset]
}

/// What stands from a place on.
fn behind(text: &[u8], place: usize) -> &[u8]
    requires { place ≤ length text.now }
    ensures { result.now ≡ drop place text.now }
{
    &text[place..]
}

/// The column of an offset, by where its line begins.
fn column(text: &[u8], starts: &[usize], line: usize, offset: usize) -> usize
    requires starts { starts.now ≡ spec.starts_from 0 text.now }
    requires within { offset ≤ length text.now }
    requires bound { line ≤ length starts.now }
    requires line { count_by spec.is_newline (take offset text.now) ≡ line }
    requires through { (k : ℕ) → k < line → slice_index starts.now k ≤ offset }
    ensures { result ≡ fold spec.next_column (spec.first_column text.now) (take offset text.now) }
{
    if line == 0 {
        return first_column(text) + characters(front(text, offset));
    }
    let start = starts[line - 1];
    1 + characters(behind(front(text, offset), start))
}

/// The line and the column of an offset, by where the lines begin.
fn line_col_by(text: &[u8], starts: &[usize], offset: usize) -> LineCol
    requires starts { starts.now ≡ spec.starts_from 0 text.now }
    requires within { offset ≤ length text.now }
    ensures { result ≡ spec.line_col_at text.now offset }
{
    let line = count_through(starts, offset);
    let col = column(text, starts, line, offset);
    LineCol {
        line: line + 1,
        col: col.max(1),
    }
}
