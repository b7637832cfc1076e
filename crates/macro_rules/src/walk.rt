//! What a rule makes of the tokens of a call.
ghost use Rattle.std.specs.Prelude.{◌≡◌, ◌+◌, ◌-◌, ◌<◌, ◌≤◌, ◌^◌, IfOk, OnOk, drop, length, slice_get};
ghost use Rattle.macro_rules.specs.Runs.{IsParsed};
ghost use Rattle.macro_rules.specs.Threads as thread;
ghost use Rattle.macro_rules.specs.Walks as spec;

use crate::matching::{Outcome, Thread, Turn, at_end, close, next_turn, read_fragment, take_token};
use crate::row::Row;
use crate::token::Token;
use std::alloc::{AllocError, Global};

/// What comes of the threads at a place.
#[derive(Clone, Copy)]
pub enum Step {
    Ends(Outcome),
    /// The number of the first thread that goes on, and the place where those stand.
    GoesOn(usize, usize),
}

/// What a rule made of an input: all threads that there were, and how it ended.
pub struct Walk {
    pub log: Vec<Thread>,
    pub outcome: Outcome,
}

/// Hand-written `Drop`, to keep proofs small: dropping one is then a single call.
impl Drop for Walk {
    fn drop(self) {
        let Walk {
            log: _log,
            outcome: _outcome,
        } = self;
    }
}

/// Takes a token, in the threads from a number on.
fn step_by_token(
    bytes: &[u8],
    rows: &[Row],
    log: &mut Vec<Thread>,
    from: usize,
    place: usize,
    token: Token,
) -> Result<Step, AllocError>
    requires { from ≤ length log.old.items }
    ensures step { IfOk result (λ step. step ≡ spec.goes_on (length log.old.items) place) }
    ensures ok { OnOk result (log.new.items ≡ thread.taken bytes.now rows.now token (length log.old.items) place (length log.old.items - from) from log.old.items) }
    ensures grown { length log.old.items ≤ length log.new.items }
{
    let behind = log.len();
    take_token(bytes, rows, log, from, place, token)?;
    Ok(Step::GoesOn(behind, place))
}

/// Reads a fragment, in the thread of a number.
fn step_by_fragment(
    alloc: Global,
    rows: &[Row],
    log: &mut Vec<Thread>,
    reader: usize,
    place: usize,
    tokens: &[Token],
) -> Result<Step, AllocError>
    requires there { reader < length log.old.items }
    requires low { place < 2 ^ 63 }
    ensures step { IfOk result (λ step. step ≡ spec.reads_on (length log.old.items) place (thread.fragment_end rows.now place tokens.now (slice_get log.old.items reader))) }
    ensures ok { OnOk result (log.new.items ≡ thread.with_reader rows.now place tokens.now reader (slice_get log.old.items reader) log.old.items) }
    ensures grown { length log.old.items ≤ length log.new.items }
{
    let behind = log.len();
    let end = read_fragment(alloc, rows, log, reader, place, tokens)?;
    match end {
        None => Ok(Step::Ends(Outcome::BadFragment(place))),
        Some(end) => Ok(Step::GoesOn(behind, end)),
    }
}

/// Does what the threads at a place do with the token there, and those behind it.
#[tactic(auto, unfolding(crate::specs::Walks::by_turn))]
fn take_turn(
    alloc: Global,
    bytes: &[u8],
    rows: &[Row],
    log: &mut Vec<Thread>,
    from: usize,
    place: usize,
    tokens: &[Token],
    token: Token,
    turn: Turn,
) -> Result<Step, AllocError>
    requires below { from ≤ length log.old.items }
    requires low { place < 2 ^ 63 }
    requires there { thread.IsWithin (length log.old.items - from) turn }
    ensures step { IfOk result (λ step. step ≡ (spec.by_turn bytes.now rows.now tokens.now from place token turn log.old.items).step) }
    ensures ok { OnOk result (log.new.items ≡ (spec.by_turn bytes.now rows.now tokens.now from place token turn log.old.items).log) }
    ensures grown { length log.old.items ≤ length log.new.items }
    ensures within { IfOk result (λ step. spec.BeginsWithin (length log.new.items) step) }
{
    match turn {
        Turn::Fails => Ok(Step::Ends(Outcome::Fails(place))),
        Turn::Ambiguous => Ok(Step::Ends(Outcome::Ambiguous(place))),
        Turn::Takes => {
            let step = step_by_token(bytes, rows, log, from, place + 1, token)?;
            Ok(step)
        }
        Turn::Reads(reader) => {
            let step = step_by_fragment(alloc, rows, log, from + reader, place, tokens)?;
            Ok(step)
        }
    }
}

/// Takes the token at a place, reads a fragment there, or ends.
fn advance(
    alloc: Global,
    bytes: &[u8],
    rows: &[Row],
    tokens: &[Token],
    log: &mut Vec<Thread>,
    from: usize,
    place: usize,
) -> Result<Step, AllocError>
    requires { from ≤ length log.old.items }
    ensures step { IfOk result (λ step. step ≡ (spec.advanced bytes.now rows.now tokens.now from place log.old.items).step) }
    ensures ok { OnOk result (log.new.items ≡ (spec.advanced bytes.now rows.now tokens.now from place log.old.items).log) }
    ensures grown { length log.old.items ≤ length log.new.items }
    ensures within { IfOk result (λ step. spec.BeginsWithin (length log.new.items) step) }
{
    match tokens.get(place) {
        None => {
            let outcome = at_end(&log.as_slice()[from..], rows.len(), from, place);
            Ok(Step::Ends(outcome))
        }
        Some(token) => {
            let rest = &tokens[place..];
            let turn = next_turn(bytes, rows, &log.as_slice()[from..], *token, rest);
            let step = take_turn(alloc, bytes, rows, log, from, place, rest, *token, turn)?;
            Ok(step)
        }
    }
}

/// What a rule makes of some tokens, in at most so many turns, each of which follows so many threads at most.
///
/// # Errors
///
/// Fails only where memory runs out.
pub fn match_tokens(
    alloc: Global,
    bytes: &[u8],
    rows: &[Row],
    tokens: &[Token],
    steps: usize,
    turns: usize,
) -> Result<Walk, AllocError>
    ensures log { IfOk result (λ walk. walk.log.items ≡ (spec.walk bytes.now rows.now tokens.now steps turns).log) }
    ensures outcome { IfOk result (λ walk. walk.outcome ≡ (spec.walk bytes.now rows.now tokens.now steps turns).outcome) }
    ensures parsed { IfOk result (λ walk. IsParsed bytes.now rows.now tokens.now walk.log.items walk.outcome) }
{
    let walk = walk_tokens(alloc, bytes, rows, tokens, steps, turns)?;
    Ok(walk)
}

fn walk_tokens(
    alloc: Global,
    bytes: &[u8],
    rows: &[Row],
    tokens: &[Token],
    steps: usize,
    turns: usize,
) -> Result<Walk, AllocError>
    ensures log { IfOk result (λ walk. walk.log.items ≡ (spec.walk bytes.now rows.now tokens.now steps turns).log) }
    ensures outcome { IfOk result (λ walk. walk.outcome ≡ (spec.walk bytes.now rows.now tokens.now steps turns).outcome) }
{
    let mut log = Vec::new(alloc);
    log.push(Thread {
        row: 0,
        place: 0,
        before: 0,
    })?;
    let mut from: usize = 0;
    let mut place: usize = 0;
    let mut left = turns;
    while left != 0 {
        close(rows, &mut log, from, place, steps)?;
        match advance(alloc, bytes, rows, tokens, &mut log, from, place)? {
            Step::Ends(outcome) => return Ok(Walk { log, outcome }),
            Step::GoesOn(next, end) => {
                from = next;
                place = end;
            }
        }
        left -= 1;
    }
    Ok(Walk {
        log,
        outcome: Outcome::TooLong,
    })
}
