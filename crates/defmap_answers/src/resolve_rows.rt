//! The rows of what a path means.
use crate::rows::{Location, Row, push_location};
use serde::Serialize;
use std::alloc::AllocError;
use std::fmt::Write;

/// What is said of what is not to be seen where the path stands.
fn reservation(is_private: bool) -> &'static str {
    if is_private { ": private here" } else { "" }
}

/// What a path is in a namespace, and who sees that.
#[derive(Drop, Serialize)]
pub(crate) struct MeaningRow {
    pub(crate) reason: &'static str,
    pub(crate) namespace: &'static str,
    pub(crate) definition: String,
    pub(crate) visibility: String,
    pub(crate) is_private: bool,
}

impl Row for MeaningRow {
    fn push_text(&self, out: &mut String) -> Result<(), AllocError> {
        let between = if self.namespace == "type" { "  " } else { " " };
        write!(
            out,
            "{}{between}{}, {}",
            self.namespace, self.definition, self.visibility
        )?;
        write!(out, "{}\n", reservation(self.is_private))
    }
}

/// A beginning of a path, and what it is.
#[derive(Drop, Serialize)]
pub(crate) struct ThroughRow {
    pub(crate) reason: &'static str,
    pub(crate) path: String,
    pub(crate) definition: String,
    pub(crate) is_private: bool,
}

impl Row for ThroughRow {
    fn push_text(&self, out: &mut String) -> Result<(), AllocError> {
        let reservation = reservation(self.is_private);
        write!(
            out,
            "through {}, {}{reservation}\n",
            self.path, self.definition
        )
    }
}

/// An import that something came by.
#[derive(Drop, Serialize)]
pub(crate) struct StepRow<'a> {
    pub(crate) reason: &'static str,
    pub(crate) import: &'static str,
    pub(crate) at: Option<Location<'a>>,
    pub(crate) path: Option<String>,
}

impl<'a> Row for StepRow<'a> {
    fn push_text(&self, out: &mut String) -> Result<(), AllocError> {
        write!(out, "    by {}", self.import)?;
        if let Some(at) = self.at {
            out.push_str(" ")?;
            push_location(out, at)?;
        }
        match &self.path {
            None => out.push_str("\n"),
            Some(path) => write!(out, ": {path}\n"),
        }
    }
}

/// The name at which a path is left, and why.
#[derive(Drop, Serialize)]
pub(crate) struct LeftRow<'a> {
    pub(crate) reason: &'static str,
    pub(crate) name: &'a str,
    pub(crate) why: String,
}

impl<'a> Row for LeftRow<'a> {
    fn push_text(&self, out: &mut String) -> Result<(), AllocError> {
        write!(out, "left at {}: {}\n", self.name, self.why)
    }
}

/// That a path comes to an ambiguous name, and which.
#[derive(Drop, Serialize)]
pub(crate) struct AmbiguousRow {
    pub(crate) reason: &'static str,
    pub(crate) why: String,
}

impl Row for AmbiguousRow {
    fn push_text(&self, out: &mut String) -> Result<(), AllocError> {
        write!(out, "{}\n", self.why)
    }
}
