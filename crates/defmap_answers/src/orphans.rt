//! The files that nothing reaches, and how many were left out, by their reasons.
ghost use Rattle.std.specs.Prelude.{◌≡◌, codes};
ghost use Rattle.defmap_answers.specs.Orphans.{words_of};

use crate::places::file_location;
use crate::rows::{Location, Row, Style, push_location, push_row};
use defmap_inputs::orphans::{LeftOut, Orphans};
use serde::Serialize;
use std::alloc::{AllocError, Global};
use std::fmt::Write;

/// All reasons, in the order in which they are told.
const REASONS: [LeftOut; 7] = [
    LeftOut::Hidden,
    LeftOut::Target,
    LeftOut::Package,
    LeftOut::Link,
    LeftOut::OddName,
    LeftOut::OtherTarget,
    LeftOut::Named,
];

/// A file that nothing reaches.
#[derive(Clone, Copy, Serialize)]
struct OrphanRow<'a> {
    reason: &'static str,
    at: Location<'a>,
}

impl<'a> Row for OrphanRow<'a> {
    fn push_text(&self, out: &mut String) -> Result<(), AllocError> {
        push_location(out, self.at)?;
        out.push_str("\n")
    }
}

/// How many files and folders were left out by one reason.
#[derive(Clone, Copy, Serialize)]
struct LeftOutRow {
    reason: &'static str,
    what: &'static str,
    count: usize,
}

impl Row for LeftOutRow {
    fn push_text(&self, out: &mut String) -> Result<(), AllocError> {
        write!(out, "left out: {}: {}\n", self.what, self.count)
    }
}

/// What was left out, in words.
pub fn left_out_words(reason: LeftOut) -> &'static str
    ensures { result.now ≡ words_of reason }
{
    match reason {
        LeftOut::Hidden => "hidden folders",
        LeftOut::Target => "folders named target",
        LeftOut::Package => "folders of other packages",
        LeftOut::Link => "links",
        LeftOut::OddName => "names that are no UTF-8",
        LeftOut::OtherTarget => "files of other targets",
        LeftOut::Named => "files that cfg, a macro call or an include may bring",
    }
}

/// How many were left out by a reason.
fn count_of(left_out: &[LeftOut], reason: LeftOut) -> usize {
    left_out.iter().filter(|one| **one == reason).count()
}

/// Adds how many were left out, by each reason.
fn push_left_out(
    out: &mut String,
    alloc: Global,
    style: Style,
    left_out: &[LeftOut],
) -> Result<(), AllocError> {
    for reason in &REASONS {
        let row = LeftOutRow {
            reason: "left_out",
            what: left_out_words(*reason),
            count: count_of(left_out, *reason),
        };
        if row.count > 0 {
            push_row(out, alloc, style, &row)?;
        }
    }
    Ok(())
}

/// Adds the files that nothing reaches.
fn push_files(
    out: &mut String,
    alloc: Global,
    style: Style,
    files: &[String],
) -> Result<(), AllocError> {
    for path in files {
        let at = file_location(path.as_str().as_bytes());
        let reason = "orphan";
        push_row(out, alloc, style, &OrphanRow { reason, at })?;
    }
    Ok(())
}

/// Adds the files that nothing reaches, and to what is told how many were left out; as JSON both stand in the answer.
pub fn push_orphans(
    out: &mut String,
    told: &mut String,
    alloc: Global,
    style: Style,
    orphans: &Orphans,
) -> Result<(), AllocError> {
    push_files(out, alloc, style, orphans.files())?;
    if style == Style::Json {
        push_left_out(out, alloc, style, orphans.left_out())?;
    }
    push_left_out(told, alloc, Style::Text, orphans.left_out())
}
