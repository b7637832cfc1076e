//! The rows of a tree.
use crate::paint::{Paint, Pen};
use crate::rows::{Location, Row, push_location};
use serde::Serialize;
use std::alloc::AllocError;
use std::fmt::Write;

/// So many levels are told apart by blanks: a line costs no more the deeper it stands.
const DEEPEST: u32 = 40;

/// Begins a line at a depth.
fn begin(out: &mut String, depth: u32) -> Result<(), AllocError> {
    for _level in 0..depth.min(DEEPEST) {
        out.push_str("  ")?;
    }
    Ok(())
}

/// What a tree begins with: a crate, or a module of one.
#[derive(Drop, Serialize)]
pub(crate) struct Heading<'a> {
    pub(crate) reason: &'static str,
    pub(crate) kind: &'static str,
    pub(crate) name: String,
    pub(crate) at: Option<Location<'a>>,
}

impl<'a> Heading<'a> {
    fn push(&self, out: &mut String, pen: Pen) -> Result<(), AllocError> {
        pen.push(out, Paint::Kind, self.kind)?;
        if self.name.as_str() != self.kind {
            out.push_str(" ")?;
            pen.push(out, Paint::Name, self.name.as_str())?;
        }
        if let Some(at) = self.at {
            out.push_str(", ")?;
            push_location(out, at)?;
        }
        out.push_str("\n")
    }
}

impl<'a> Row for Heading<'a> {
    fn push_text(&self, out: &mut String) -> Result<(), AllocError> {
        self.push(out, Pen::Plain)
    }

    fn push_coloured(&self, out: &mut String) -> Result<(), AllocError> {
        self.push(out, Pen::Coloured)
    }
}

/// What a name is in a namespace: its kind, who sees it, the import that brought it, if one did, and where that or the
/// definition is written.
#[derive(Drop, Serialize)]
pub(crate) struct NameRow<'a> {
    pub(crate) reason: &'static str,
    pub(crate) depth: u32,
    pub(crate) kind: &'static str,
    pub(crate) name: &'a str,
    pub(crate) visibility: String,
    pub(crate) import: Option<&'static str>,
    pub(crate) at: Option<Location<'a>>,
    pub(crate) by_order: bool,
}

impl<'a> NameRow<'a> {
    /// Adds the import that brought the name, and where that or the definition is written.
    fn push_origin(&self, out: &mut String) -> Result<(), AllocError> {
        if let Some(import) = self.import {
            write!(out, ", {import}")?;
        }
        let Some(at) = self.at else {
            return Ok(());
        };
        out.push_str(if self.import.is_some() { " " } else { ", " })?;
        push_location(out, at)
    }

    fn push(&self, out: &mut String, pen: Pen) -> Result<(), AllocError> {
        begin(out, self.depth)?;
        pen.push(out, Paint::Kind, self.kind)?;
        out.push_str(" ")?;
        pen.push(out, Paint::Name, self.name)?;
        out.push_str(": ")?;
        pen.push(out, Paint::Visibility, self.visibility.as_str())?;
        self.push_origin(out)?;
        out.push_str(if self.by_order {
            ", by the order of imports\n"
        } else {
            "\n"
        })
    }
}

impl<'a> Row for NameRow<'a> {
    fn push_text(&self, out: &mut String) -> Result<(), AllocError> {
        self.push(out, Pen::Plain)
    }

    fn push_coloured(&self, out: &mut String) -> Result<(), AllocError> {
        self.push(out, Pen::Coloured)
    }
}

/// A name of which no more is known: a variant, or what an import would bind that leads nowhere.
#[derive(Drop, Serialize)]
pub(crate) struct BareRow<'a> {
    pub(crate) reason: &'static str,
    pub(crate) depth: u32,
    pub(crate) kind: &'static str,
    pub(crate) name: &'a str,
}

/// What the kind of a bare name tells.
fn paint_of(kind: &str) -> Paint {
    match kind {
        "unknown" => Paint::Unknown,
        "unresolved" => Paint::Wrong,
        _ => Paint::Kind,
    }
}

impl<'a> BareRow<'a> {
    fn push(&self, out: &mut String, pen: Pen) -> Result<(), AllocError> {
        begin(out, self.depth)?;
        pen.push(out, paint_of(self.kind), self.kind)?;
        out.push_str(" ")?;
        pen.push(out, Paint::Name, self.name)?;
        out.push_str("\n")
    }
}

impl<'a> Row for BareRow<'a> {
    fn push_text(&self, out: &mut String) -> Result<(), AllocError> {
        self.push(out, Pen::Plain)
    }

    fn push_coloured(&self, out: &mut String) -> Result<(), AllocError> {
        self.push(out, Pen::Coloured)
    }
}

/// That a module may have more names, and by what.
#[derive(Drop, Serialize)]
pub(crate) struct HiddenRow {
    pub(crate) reason: &'static str,
    pub(crate) depth: u32,
    pub(crate) by: String,
}

impl HiddenRow {
    fn push(&self, out: &mut String, pen: Pen) -> Result<(), AllocError> {
        begin(out, self.depth)?;
        out.push_str(".. ")?;
        pen.push(out, Paint::Unknown, "unknown")?;
        write!(out, ", by {}\n", self.by)
    }
}

impl Row for HiddenRow {
    fn push_text(&self, out: &mut String) -> Result<(), AllocError> {
        self.push(out, Pen::Plain)
    }

    fn push_coloured(&self, out: &mut String) -> Result<(), AllocError> {
        self.push(out, Pen::Coloured)
    }
}
