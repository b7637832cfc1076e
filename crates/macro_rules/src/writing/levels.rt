//! Repetitions of a transcriber, and all that it writes.
ghost use Rattle.std.specs.Prelude.{◌≡◌, ◌+◌, ◌<◌, ◌≤◌, ◌-◌, ◌^◌, ◌++◌, None, IfOk, OnOk, length, slice_get, drop};
ghost use Rattle.macro_rules.specs.Writings as spec;

use crate::row::Row;
use crate::token::Token;
use crate::visits::RowVisits;
use crate::writing::{Leader, Level, WriteFault, Writing};
use std::alloc::{AllocError, Global};

fn agree(count: usize, leaders: &[Leader]) -> bool
    ensures { result ≡ spec.agree count leaders.now }
{
    leaders.iter().all(|leader| leader.count == count)
}

/// How often a repetition with these leaders is written.
fn common(leaders: &[Leader]) -> Result<usize, WriteFault>
    ensures { result ≡ spec.common leaders.now }
{
    match leaders.split_first() {
        None => Err(WriteFault::NothingRepeats),
        Some((first, others)) => if agree(first.count, others) {
            Ok(first.count)
        } else {
            Err(WriteFault::Uneven)
        },
    }
}

/// Lets the leaders stand at an iteration, counted from their first.
fn lead(leaders: &[Leader], index: usize, current: &mut Vec<Option<usize>>)
    ensures { current.new.items ≡ spec.led leaders.now index current.old.items }
{
    for leader in leaders {
        if leader.repetition < current.len() {
            current[leader.repetition] = Some(leader.first.saturating_add(index));
        }
    }
}

/// Lets the leaders lead no longer.
fn unlead(leaders: &[Leader], current: &mut Vec<Option<usize>>)
    ensures { current.new.items ≡ spec.unled leaders.now current.old.items }
{
    for leader in leaders {
        if leader.repetition < current.len() {
            current[leader.repetition] = None;
        }
    }
}

/// Whether a separator stands at a position.
pub(crate) fn is_separator(rows: &[Row], at: usize) -> bool
    ensures { result ≡ spec.is_separator (slice_get rows.now at) }
{
    matches!(rows.get(at), Some(Row::Separator(_, _)))
}

/// No iterations yet, of so many positions.
fn idle(alloc: Global, rows: usize) -> Result<Vec<Option<usize>>, AllocError>
    ensures { IfOk result (λ current. current.items ≡ spec.idle rows) }
{
    let mut current = Vec::new(alloc);
    let mut left = rows;
    while left != 0 {
        current.push(None)?;
        left -= 1;
    }
    Ok(current)
}

impl Writing {
    pub(super) fn new(alloc: Global, rows: usize) -> Result<Writing, AllocError>
        ensures { IfOk result (λ w. w ≡ spec.nothing_written rows) }
    {
        let current = idle(alloc, rows)?;
        Ok(Writing {
            tokens: Vec::new(alloc),
            levels: Vec::new(alloc),
            leaders: Vec::new(alloc),
            current,
            at: 0,
            fault: None,
        })
    }

    /// Adds what leads a repetition by the variables among these positions.
    fn gather(
        &mut self,
        matcher: &[Row],
        table: &[RowVisits],
        from: usize,
        body: &[Row],
    ) -> Result<(), AllocError>
        ensures { OnOk result (self.new ≡ spec.gathered matcher.now table.now from body.now self.old) }
    {
        for row in body {
            self.add_leader_of(matcher, table, from, row)?;
        }
        Ok(())
    }

    /// Starts the first of so many iterations, with the leaders from a number on.
    fn start(&mut self, begin: usize, from: usize, count: usize) -> Result<(), AllocError>
        requires { begin < 2 ^ 63 }
        ensures { OnOk result (self.new ≡ spec.started begin from count self.old) }
    {
        self.levels.push(Level {
            begin,
            index: 0,
            count,
            leaders: from,
        })?;
        let first = from.min(self.leaders.len());
        lead(&self.leaders.as_slice()[first..], 0, &mut self.current);
        self.at = begin + 1;
        Ok(())
    }

    /// Passes over a repetition.
    fn skip(&mut self, behind: Option<usize>, from: usize)
        ensures { self.new ≡ spec.skipped_to behind from self.old }
    {
        match behind {
            None => self.fail(WriteFault::NeedsOne),
            Some(behind) => {
                self.leaders.truncate(from);
                self.at = behind;
            }
        }
    }

    /// Begins a repetition with the leaders from a number on.
    fn open_with(
        &mut self,
        begin: usize,
        behind: Option<usize>,
        from: usize,
    ) -> Result<(), AllocError>
        requires { begin < 2 ^ 63 }
        ensures { OnOk result (self.new ≡ spec.opened_with begin behind from self.old) }
    {
        let first = from.min(self.leaders.len());
        match common(&self.leaders.as_slice()[first..]) {
            Err(fault) => {
                self.fail(fault);
                Ok(())
            }
            Ok(count) => {
                if count == 0 {
                    self.skip(behind, from);
                    Ok(())
                } else {
                    self.start(begin, from, count)
                }
            }
        }
    }

    /// Goes on with the next iteration.
    fn repeat(&mut self, level: Level, at: usize, separated: bool) -> Result<(), AllocError>
        requires small { at < 2 ^ 63 }
        requires more { 1 < level.count - level.index }
        ensures { OnOk result (self.new ≡ spec.again level at separated self.old) }
    {
        self.levels.push(Level {
            begin: level.begin,
            index: level.index + 1,
            count: level.count,
            leaders: level.leaders,
        })?;
        if level.leaders <= self.leaders.len() {
            lead(
                &self.leaders.as_slice()[level.leaders..],
                level.index + 1,
                &mut self.current,
            );
        }
        self.at = if separated {
            at + 1
        } else {
            level.begin.saturating_add(1)
        };
        Ok(())
    }

    /// Ends a repetition.
    fn leave(&mut self, level: Level, at: usize, separated: bool)
        requires { at < 2 ^ 63 }
        ensures { self.new ≡ spec.left_level level at separated self.old }
    {
        if level.leaders <= self.leaders.len() {
            unlead(&self.leaders.as_slice()[level.leaders..], &mut self.current);
        }
        self.leaders.truncate(level.leaders);
        self.at = if separated { at + 2 } else { at + 1 };
    }

    /// Ends an iteration at a position.
    pub(super) fn end(&mut self, at: usize, separated: bool) -> Result<(), AllocError>
        requires { at < 2 ^ 63 }
        ensures { OnOk result (self.new ≡ spec.ended at separated self.old) }
    {
        match self.levels.pop() {
            None => {
                self.fail(WriteFault::NothingRepeats);
                Ok(())
            }
            Some(level) => {
                if 1 < level.count.saturating_sub(level.index) {
                    self.repeat(level, at, separated)
                } else {
                    self.leave(level, at, separated);
                    Ok(())
                }
            }
        }
    }

    /// Begins a repetition at a position, with what is repeated.
    pub(super) fn open(
        &mut self,
        matcher: &[Row],
        table: &[RowVisits],
        begin: usize,
        behind: Option<usize>,
        body: &[Row],
    ) -> Result<(), AllocError>
        requires { begin < 2 ^ 63 }
        ensures { OnOk result (self.new ≡ spec.opened matcher.now table.now begin behind body.now self.old) }
    {
        let from = self.leaders.len();
        self.gather(matcher, table, from, body)?;
        self.open_with(begin, behind, from)
    }
}
