//! Runs a script line by line.
ghost use Rattle.std.specs.Prelude.{ℕ, List, ◌≡◌, ◌==◌, ◌<◌, ◌++◌, ◌⊎◌, IfSome, OnErr, OnOk, length, position};
ghost use Rattle.std.specs.Iterator.{YieldsFirstRef, item_count};
ghost use Rattle.std.specs.Option.{option_map};
ghost use Rattle.defmap_script.specs.Engine.{fresh, LineSteps, reply_text};
ghost use Rattle.defmap_script.specs.Faults.{refusal};
ghost use Rattle.defmap_script.specs.Runs.{lines, lines_left, end_of, Runs};
ghost use Rattle.defmap_script.specs.Words.{cut};

use crate::engine::{Engine, Reply, text_of};
use crate::fault::Fault;
use crate::lines::read_line;
use std::alloc::AllocError;

/// How a run ended.
#[derive(Clone, Copy, PartialEq, Eq, Debug)]
pub enum RunEnd {
    /// At the end of the script.
    Done,
    /// At a line that is refused.
    Refused,
    OutOfMemory,
}

/// Runs a script, and appends what it prints (docs/SCRIPT.md).
///
/// The first line that is refused ends the run with a line that names its fault; where that line cannot be allocated
/// either, it is missing. A line is appended whole or not at all. All allocations use the output's allocator.
pub fn run_script(input: &[u8], out: &mut Vec<u8>) -> RunEnd
    ensures { (printed : List ℕ) × (out.new.items ≡ out.old.items ++ printed)
        × Runs fresh 1 (lines input.now) printed result }
{
    let mut engine = Engine::new(*out.allocator());
    let mut number = 1usize;
    for line in (Lines { rest: Some(input) }) {
        if let Err(fault) = run_line(&mut engine, line, out) {
            return refuse(number, fault, out);
        }
        number += 1;
    }
    RunEnd::Done
}

/// Runs one line, and appends what it prints, whole or not at all.
fn run_line(engine: &mut Engine, line: &[u8], out: &mut Vec<u8>) -> Result<(), Fault>
    ensures { LineSteps engine.old line.now out.old.items result engine.new out.new.items }
{
    let Some(command) = read_line(line)? else {
        return Ok(());
    };
    let reply = engine.run(command)?;
    print(reply, out)?;
    Ok(())
}

/// Appends what a line prints, whole or not at all. A word is appended at once, and a longer text is written first.
fn print(reply: Reply, out: &mut Vec<u8>) -> Result<(), AllocError>
    ensures ok { OnOk result (out.new.items ≡ out.old.items ++ reply_text reply) }
    ensures err { OnErr result (out.new.items ≡ out.old.items) }
{
    if let Some(word) = reply.word() {
        return append(out, word);
    }
    let text = text_of(*out.allocator(), reply)?;
    append(out, text.as_str())
}

/// Appends a text, whole or not at all.
fn append(out: &mut Vec<u8>, text: &str) -> Result<(), AllocError>
    ensures ok { OnOk result (out.new.items ≡ out.old.items ++ text.now) }
    ensures err { OnErr result (out.new.items ≡ out.old.items) }
{
    out.extend_from_slice(text.as_bytes())?;
    Ok(())
}

/// Appends the line that refuses a line, whole or not at all.
fn refuse(number: usize, fault: Fault, out: &mut Vec<u8>) -> RunEnd
    ensures end { result ≡ end_of fault }
    ensures line { (out.new.items ≡ out.old.items ++ refusal number fault) ⊎ (out.new.items ≡ out.old.items) }
{
    if let Ok(text) = format!(in *out.allocator(); "refused {number} {fault}\n") {
        let _ = out.extend_from_slice(text.as_bytes());
    }
    match fault {
        Fault::OutOfMemory => RunEnd::OutOfMemory,
        Fault::BadLine
        | Fault::NeedsWorld
        | Fault::NeedsBuilder
        | Fault::Unknown
        | Fault::Build(_)
        | Fault::World(_) => RunEnd::Refused,
    }
}

/// The lines of an input, separated by line feeds.
#[derive(Clone, Copy)]
struct Lines<'a> {
    /// What is behind the last line feed that was met; none once the last line was given.
    rest: Option<&'a [u8]>,
}

impl<'a> Iterator for Lines<'a> {
    type Item = &'a [u8];

    ghost next_gives = { YieldsFirstRef lines_left };

    ghost remaining = { item_count lines_left };

    fn next(&mut self) -> Option<&'a [u8]> {
        let rest = self.rest?;
        match cut_at_line_feed(rest) {
            Some((line, behind)) => {
                self.rest = Some(behind);
                Some(line)
            }
            None => {
                self.rest = None;
                Some(rest)
            }
        }
    }
}

/// The parts before and behind the first line feed.
fn cut_at_line_feed(bytes: &[u8]) -> Option<(&[u8], &[u8])>
    ensures { option_map (λ p. (p.0.now, p.1.now)) result ≡ cut 10 bytes.now }
{
    let at = first_line_feed(bytes)?;
    Some((&bytes[..at], &bytes[at + 1..]))
}

fn first_line_feed(bytes: &[u8]) -> Option<usize>
    ensures value { result ≡ position (λ b. b == 10) bytes.now }
    ensures within { IfSome result (λ at. at < length bytes.now) }
{
    bytes.iter().position(|byte| *byte == b'\n')
}
