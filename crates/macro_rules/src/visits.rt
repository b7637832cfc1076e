//! Where a rule that matched was: the visits of each position of its matcher.
ghost use Rattle.std.specs.Prelude.{◌≡◌, ◌++◌, IfOk, OnOk, [], ◌∷◌, drop, length, slice_get};
ghost use Rattle.macro_rules.specs.Visits as spec;

use crate::matching::Thread;
use std::alloc::{AllocError, Global};
use std::marker::Model;

/// What a position took of the input.
#[derive(Clone, Copy)]
pub struct Passage {
    pub row: usize,
    pub first: usize,
    pub behind: usize,
}

/// A visit of a position: what it took of the input, and how many visits the next position had before. At the begin of a
/// repetition these are its iterations.
#[derive(Clone, Copy)]
pub struct Visit {
    pub first: usize,
    pub behind: usize,
    pub iterations: usize,
}

/// The visits of a position, in order, as which a contract sees them.
pub struct RowVisits {
    visits: Vec<Visit>,
}

/// Hand-written `Drop`, to keep proofs small: dropping one is then a single call.
impl Drop for RowVisits {
    fn drop(self) {
        let RowVisits { visits: _visits } = self;
    }
}

impl Model for RowVisits {
    ghost use Rattle.std.specs.Prelude.{List};
    ghost use Rattle.macro_rules.specs.declared.visits.Visit.{Visit};

    ghost Value = { List Visit };

    ghost view = { λ r. r.visits.items };
}

impl RowVisits {
    fn new(alloc: Global) -> RowVisits
        ensures { result ≡ [] }
    {
        RowVisits {
            visits: Vec::new(alloc),
        }
    }

    fn add(&mut self, visit: Visit) -> Result<(), AllocError>
        ensures { OnOk result (self.new ≡ self.old ++ visit ∷ []) }
    {
        self.visits.push(visit)?;
        Ok(())
    }

    /// How many there are.
    pub fn count(&self) -> usize
        ensures { result ≡ length self.now }
    {
        self.visits.len()
    }

    /// The visit behind that of a number.
    pub fn next(&self, number: usize) -> Option<Visit>
        ensures { result ≡ slice_get (drop number self.now) 1 }
    {
        match self.visits.get(number..) {
            None => None,
            Some(rest) => rest.get(1).copied(),
        }
    }

    /// The visit of that number.
    pub fn get(&self, number: usize) -> Option<Visit>
        ensures { result ≡ slice_get self.now number }
    {
        self.visits.get(number).copied()
    }
}

/// How many visits a position had.
pub fn visits_of(table: &[RowVisits], row: usize) -> usize
    ensures { result ≡ length (spec.at_row table.now row) }
{
    match table.get(row) {
        None => 0,
        Some(visits) => visits.count(),
    }
}

/// The visit of that number at a position.
pub fn visit_at(table: &[RowVisits], row: usize, number: usize) -> Option<Visit>
    ensures { result ≡ slice_get (spec.at_row table.now row) number }
{
    match table.get(row) {
        None => None,
        Some(visits) => visits.get(number),
    }
}

/// Adds a visit.
fn note(table: &mut Vec<RowVisits>, passage: Passage) -> Result<(), AllocError>
    ensures { OnOk result (table.new.items ≡ spec.noted passage table.old.items) }
{
    if passage.row < table.len() {
        let next = visits_of(table.as_slice(), passage.row + 1);
        let visit = Visit {
            first: passage.first,
            behind: passage.behind,
            iterations: next,
        };
        table[passage.row].add(visit)?;
    }
    Ok(())
}

/// No visits yet, of so many positions.
fn no_visits(alloc: Global, rows: usize) -> Result<Vec<RowVisits>, AllocError>
    ensures { IfOk result (λ table. table.items ≡ spec.no_visits rows) }
{
    let mut table = Vec::new(alloc);
    let mut left = rows;
    while left != 0 {
        table.push(RowVisits::new(alloc))?;
        left -= 1;
    }
    Ok(table)
}

fn thread_of(log: &[Thread], at: usize) -> Option<Thread>
    ensures { result ≡ slice_get log.now at }
{
    log.get(at).copied()
}

/// What each thread took that leads to the one of a number, at a place; the last first.
fn passages(
    alloc: Global,
    log: &[Thread],
    last: usize,
    place: usize,
) -> Result<Vec<Passage>, AllocError>
    ensures { IfOk result (λ found. found.items ≡ spec.passages log.now last place) }
{
    let mut found = Vec::new(alloc);
    let mut at = last;
    let mut behind = place;
    let mut left = log.len();
    while left != 0 {
        match thread_of(log, at) {
            None => return Ok(found),
            Some(thread) => {
                found.push(Passage {
                    row: thread.row,
                    first: thread.place,
                    behind,
                })?;
                if at == 0 {
                    return Ok(found);
                }
                at = thread.before;
                behind = thread.place;
                left -= 1;
            }
        }
    }
    Ok(found)
}

/// The visits of each of so many positions by the threads that lead to the one of a number.
pub fn visits(
    alloc: Global,
    log: &[Thread],
    last: usize,
    place: usize,
    rows: usize,
) -> Result<Vec<RowVisits>, AllocError>
    ensures { IfOk result (λ table. table.items ≡ spec.visits log.now last place rows) }
{
    let mut table = no_visits(alloc, rows)?;
    let found = passages(alloc, log, last, place)?;
    let mut left = found.len();
    while left != 0 {
        left -= 1;
        note(&mut table, found[left])?;
    }
    Ok(table)
}
