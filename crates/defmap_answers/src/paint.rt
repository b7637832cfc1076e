//! Words in colours, as terminals show them.
ghost use Rattle.std.specs.Prelude.{◌≡◌, ◌++◌, OnOk, codes};
ghost use Rattle.std.specs.String.{string_bytes};
ghost use Rattle.defmap_answers.specs.Paints as spec;

use std::alloc::{AllocError, Global};

/// What a word is, by which it has its colour.
#[derive(Clone, Copy, PartialEq, Eq, Debug)]
pub enum Paint {
    /// A kind of items.
    Kind,
    Name,
    Visibility,
    /// What is not known.
    Unknown,
    /// What is wrong.
    Wrong,
}

impl Paint {
    /// The number of the colour, as terminals take it: blue, bold, green, yellow, bold red.
    fn code(self) -> &'static str
        ensures { result.now ≡ spec.code_of self }
    {
        match self {
            Paint::Kind => "34",
            Paint::Name => "1",
            Paint::Visibility => "32",
            Paint::Unknown => "33",
            Paint::Wrong => "1;31",
        }
    }
}

/// Adds a word in its colour.
pub fn push_painted(out: &mut String, paint: Paint, word: &str) -> Result<(), AllocError>
    ensures { OnOk result (string_bytes out.new ≡ string_bytes out.old ++ spec.painted paint word.now) }
{
    out.push_str("\x1b[")?;
    out.push_str(paint.code())?;
    out.push_str("m")?;
    out.push_str(word)?;
    out.push_str("\x1b[0m")
}

/// How words are written.
#[derive(Clone, Copy, PartialEq, Eq, Debug)]
pub(crate) enum Pen {
    Plain,
    Coloured,
}

impl Pen {
    /// Adds a word.
    pub(crate) fn push(self, out: &mut String, paint: Paint, word: &str) -> Result<(), AllocError>
        ensures { OnOk result (string_bytes out.new ≡ string_bytes out.old ++ spec.written self paint word.now) }
    {
        match self {
            Pen::Plain => out.push_str(word),
            Pen::Coloured => push_painted(out, paint, word),
        }
    }
}

/// What the words are by which a line that is told begins.
fn paint_of(head: &str) -> Paint {
    match head {
        "error" | "defmap" => Paint::Wrong,
        "incomplete" | "left out" => Paint::Unknown,
        _ => Paint::Name,
    }
}

/// Adds a line that is told: what stands before its first colon and blank has a colour, and a syntax error.
fn push_told(out: &mut String, line: &str) -> Result<(), AllocError> {
    let Some((head, rest)) = line.split_once(": ") else {
        return out.push_str(line);
    };
    push_painted(out, paint_of(head), head)?;
    out.push_str(": ")?;
    match rest.strip_prefix("syntax error") {
        None => out.push_str(rest),
        Some(rest) => {
            push_painted(out, Paint::Wrong, "syntax error")?;
            out.push_str(rest)
        }
    }
}

/// Lines for the standard error, in colours.
pub fn told_in_colours(alloc: Global, told: &str) -> Result<String, AllocError> {
    let mut out = String::new(alloc);
    for line in told.split_inclusive('\n') {
        push_told(&mut out, line)?;
    }
    Ok(out)
}
