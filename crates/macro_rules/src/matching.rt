//! Which rule matches a call, by sets of positions.
ghost use Rattle.std.specs.Prelude.{◌≡◌, ◌+◌, ◌-◌, ◌<◌, ◌≤◌, ◌^◌, IfOk, IfSome, OnOk, length, slice_get};
ghost use Rattle.macro_rules.specs.Threads as spec;

use crate::beginnings::begins;
use crate::fragments::fragment_len;
use crate::row::Row;
use crate::token::{Token, same};
use std::alloc::{AllocError, Global};

/// A position that was reached at a place of the input, and the number of the thread before it.
#[derive(Clone, Copy)]
pub struct Thread {
    pub row: usize,
    pub place: usize,
    pub before: usize,
}

/// What the threads at a place of the input do with it.
#[derive(Clone, Copy)]
pub enum Turn {
    /// None goes on.
    Fails,
    /// More than one could, and one of them by a fragment.
    Ambiguous,
    /// Those go on that stand at a token that equals the one there.
    Takes,
    /// The thread of that number reads a fragment.
    Reads(usize),
}

/// What a rule makes of an input.
#[derive(Clone, Copy)]
pub enum Outcome {
    /// It matches: the number of the thread that ends with the input.
    Matches(usize),
    /// It does not match, as the token at that place shows, or the end.
    Fails(usize),
    /// More than one way leads on from that place.
    Ambiguous(usize),
    /// A fragment begins at that place, and cannot be read.
    BadFragment(usize),
    /// More turns were taken than are allowed.
    TooLong,
}

/// How many of the threads stand at a position.
fn standing(threads: &[Thread], row: usize) -> usize
    ensures { result ≡ spec.standing row threads.now }
{
    threads.iter().filter(|t| t.row == row).count()
}

/// Adds a thread to those from a number on, unless two of them stand at its position already.
fn enter(log: &mut Vec<Thread>, from: usize, thread: Thread) -> Result<(), AllocError>
    requires { from ≤ length log.old.items }
    ensures ok { OnOk result (log.new.items ≡ spec.entered from thread log.old.items) }
    ensures grown { length log.old.items ≤ length log.new.items }
{
    if standing(&log.as_slice()[from..], thread.row) < 2 {
        log.push(thread)?;
    }
    Ok(())
}

/// The positions that are reached from one without a token.
#[derive(Clone, Copy)]
struct Ways {
    next: Option<usize>,
    other: Option<usize>,
}

fn ways_from(rows: &[Row], row: usize) -> Ways
    ensures { result ≡ spec.ways_from (slice_get rows.now row) row }
{
    match rows.get(row) {
        Some(Row::Begin(repetition)) => Ways {
            next: Some(row + 1),
            other: repetition.behind,
        },
        Some(Row::End(other)) => Ways {
            next: Some(row + 1),
            other: *other,
        },
        Some(Row::Iteration) => Ways {
            next: Some(row + 1),
            other: None,
        },
        _ => Ways {
            next: None,
            other: None,
        },
    }
}

/// Adds the thread that goes on from one at a position, if there is such a way.
fn go(
    log: &mut Vec<Thread>,
    from: usize,
    way: Option<usize>,
    place: usize,
    before: usize,
) -> Result<(), AllocError>
    requires { from ≤ length log.old.items }
    ensures ok { OnOk result (log.new.items ≡ spec.gone from way place before log.old.items) }
    ensures grown { length log.old.items ≤ length log.new.items }
{
    match way {
        None => Ok(()),
        Some(row) => enter(log, from, Thread { row, place, before }),
    }
}

/// Follows what takes no token, from the thread of a number.
fn follow(
    rows: &[Row],
    log: &mut Vec<Thread>,
    from: usize,
    at: usize,
    place: usize,
) -> Result<(), AllocError>
    requires below { from ≤ length log.old.items }
    requires there { at < length log.old.items }
    ensures ok { OnOk result (log.new.items ≡ spec.followed rows.now from at place (slice_get log.old.items at) log.old.items) }
    ensures grown { length log.old.items ≤ length log.new.items }
{
    let found = ways_from(rows, log[at].row);
    go(log, from, found.next, place, at)?;
    go(log, from, found.other, place, at)
}

/// Closes the threads from a number on: what is reached from them without a token is added. At most `steps` of them
/// are followed, which is enough where it is twice the number of positions.
pub(crate) fn close(
    rows: &[Row],
    log: &mut Vec<Thread>,
    from: usize,
    place: usize,
    steps: usize,
) -> Result<(), AllocError>
    requires { from ≤ length log.old.items }
    ensures ok { OnOk result (log.new.items ≡ spec.closed rows.now from place steps from log.old.items) }
    ensures grown { length log.old.items ≤ length log.new.items }
{
    let mut left = steps;
    let mut at = from;
    while left != 0 && at < log.len() {
        follow(rows, log, from, at, place)?;
        at += 1;
        left -= 1;
    }
    Ok(())
}

/// The position behind a token, where one that equals it stands at the position.
fn behind_token(bytes: &[u8], rows: &[Row], row: usize, token: Token) -> Option<usize>
    ensures { result ≡ spec.behind_token bytes.now token (slice_get rows.now row) row }
{
    match rows.get(row) {
        Some(Row::Token(own)) => if same(bytes, *own, token) {
            Some(row + 1)
        } else {
            None
        },
        Some(Row::Separator(own, start)) => if same(bytes, *own, token) {
            Some(*start)
        } else {
            None
        },
        _ => None,
    }
}

/// Whether a fragment of the variable at a position may begin the tokens.
fn reads(rows: &[Row], row: usize, tokens: &[Token]) -> bool
    ensures { result ≡ spec.reads (slice_get rows.now row) tokens.now }
{
    match rows.get(row) {
        Some(Row::Variable(variable)) => begins(variable.kind, tokens),
        _ => false,
    }
}

fn count_taking(bytes: &[u8], rows: &[Row], threads: &[Thread], token: Token) -> usize
    ensures { result ≡ spec.count_taking bytes.now rows.now token threads.now }
{
    threads
        .iter()
        .filter(|t| behind_token(bytes, rows, t.row, token).is_some())
        .count()
}

fn count_reading(rows: &[Row], threads: &[Thread], tokens: &[Token]) -> usize
    ensures { result ≡ spec.count_reading rows.now tokens.now threads.now }
{
    threads
        .iter()
        .filter(|t| reads(rows, t.row, tokens))
        .count()
}

/// The first thread that stands at a variable which may begin the tokens.
fn first_reading(rows: &[Row], threads: &[Thread], tokens: &[Token]) -> Option<usize>
    ensures within { IfSome result (λ i. i < length threads.now) }
    ensures exact { result ≡ spec.first_reading rows.now tokens.now threads.now }
{
    threads.iter().position(|t| reads(rows, t.row, tokens))
}

fn first_standing(threads: &[Thread], row: usize) -> Option<usize>
    ensures within { IfSome result (λ i. i < length threads.now) }
    ensures exact { result ≡ spec.first_standing row threads.now }
{
    threads.iter().position(|t| t.row == row)
}

/// What the threads at a place of the input do, where these tokens follow.
#[tactic(auto, unfolding(crate::specs::Threads::turn_at))]
pub(crate) fn next_turn(
    bytes: &[u8],
    rows: &[Row],
    threads: &[Thread],
    token: Token,
    tokens: &[Token],
) -> Turn
    ensures within { spec.IsWithin (length threads.now) result }
    ensures exact { result ≡ spec.turn_at bytes.now rows.now tokens.now threads.now token }
{
    let readers = count_reading(rows, threads, tokens);
    let takers = count_taking(bytes, rows, threads, token);
    if readers == 0 {
        if takers == 0 {
            Turn::Fails
        } else {
            Turn::Takes
        }
    } else if readers == 1 && takers == 0 {
        match first_reading(rows, threads, tokens) {
            None => Turn::Fails,
            Some(reader) => Turn::Reads(reader),
        }
    } else {
        Turn::Ambiguous
    }
}

/// What comes of the threads at the end of the input, of which the first has that number.
pub(crate) fn at_end(threads: &[Thread], end: usize, from: usize, place: usize) -> Outcome
    requires { from + length threads.now < 2 ^ 64 }
    ensures { result ≡ spec.at_end end from place threads.now }
{
    if 1 < standing(threads, end) {
        return Outcome::Ambiguous(place);
    }
    match first_standing(threads, end) {
        None => Outcome::Fails(place),
        Some(last) => Outcome::Matches(from + last),
    }
}

/// How many tokens the variable at a position takes of those.
fn variable_len(
    alloc: Global,
    rows: &[Row],
    row: usize,
    tokens: &[Token],
) -> Result<Option<usize>, AllocError>
    ensures small { IfOk result (λ found. IfSome found (λ len. len ≤ length tokens.now + 4)) }
    ensures exact { IfOk result (λ found. found ≡ spec.variable_len (slice_get rows.now row) tokens.now) }
{
    match rows.get(row) {
        Some(Row::Variable(variable)) => fragment_len(alloc, variable.kind, tokens),
        _ => Ok(None),
    }
}

/// Adds the thread behind the token before a place, of the thread of a number, if it takes that token.
fn take_one(
    bytes: &[u8],
    rows: &[Row],
    log: &mut Vec<Thread>,
    behind: usize,
    at: usize,
    place: usize,
    token: Token,
) -> Result<(), AllocError>
    requires below { behind ≤ length log.old.items }
    requires there { at < length log.old.items }
    ensures ok { OnOk result (log.new.items ≡ spec.gone behind (spec.token_way bytes.now rows.now token (slice_get log.old.items at)) place at log.old.items) }
    ensures grown { length log.old.items ≤ length log.new.items }
{
    let way = behind_token(bytes, rows, log[at].row, token);
    go(log, behind, way, place, at)
}

/// Adds the threads behind the token before a place, of the threads from a number on.
pub(crate) fn take_token(
    bytes: &[u8],
    rows: &[Row],
    log: &mut Vec<Thread>,
    from: usize,
    place: usize,
    token: Token,
) -> Result<(), AllocError>
    requires { from ≤ length log.old.items }
    ensures ok { OnOk result (log.new.items ≡ spec.taken bytes.now rows.now token (length log.old.items) place (length log.old.items - from) from log.old.items) }
    ensures grown { length log.old.items ≤ length log.new.items }
{
    let behind = log.len();
    let mut at = from;
    while at < behind {
        take_one(bytes, rows, log, behind, at, place, token)?;
        at += 1;
    }
    Ok(())
}

/// Adds the thread behind a fragment that one of the threads reads, and says where the fragment ends; nothing where
/// the fragment cannot be read.
pub(crate) fn read_fragment(
    alloc: Global,
    rows: &[Row],
    log: &mut Vec<Thread>,
    reader: usize,
    place: usize,
    tokens: &[Token],
) -> Result<Option<usize>, AllocError>
    requires there { reader < length log.old.items }
    requires low { place < 2 ^ 63 }
    ensures read { IfOk result (λ end. end ≡ spec.fragment_end rows.now place tokens.now (slice_get log.old.items reader)) }
    ensures ok { OnOk result (log.new.items ≡ spec.with_reader rows.now place tokens.now reader (slice_get log.old.items reader) log.old.items) }
    ensures grown { length log.old.items ≤ length log.new.items }
{
    let row = log[reader].row;
    match variable_len(alloc, rows, row, tokens)? {
        None => Ok(None),
        Some(len) => {
            let end = place + len;
            log.push(Thread {
                row: row + 1,
                place: end,
                before: reader,
            })?;
            Ok(Some(end))
        }
    }
}
