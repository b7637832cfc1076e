//! Matchers and transcribers, read into rows.
ghost use Rattle.std.specs.Prelude.{◌≡◌, ◌<◌, ◌^◌, OnOk, length};
ghost use Rattle.macro_rules.specs.Readings as spec;

pub(crate) mod dollars;

use crate::extents::{is_mark, kind_at, width};
use crate::row::{Repetition, Row};
use crate::token::{Token, TokenKind};
use std::alloc::{AllocError, Global};
use std::marker::Model;

/// Why a definition has no meaning.
#[derive(Clone, Copy, PartialEq, Eq, Debug)]
pub enum RuleFault {
    /// It is not of the grammar.
    BadRule,
    /// A matcher has two variables of a name.
    TwoOfAName,
    /// A variable of a matcher has no kind that there is.
    NoKind,
    /// What is repeated may be empty, so that the matcher would not end.
    EmptyRepetition,
    /// It has what is not read here.
    Unsupported,
}

/// A group that is open: the position where the repetition begins that it is, if it is one, and what was so before it.
#[derive(Clone, Copy)]
pub struct Opening {
    pub repetition: Option<usize>,
    pub within: Option<usize>,
    pub bare: bool,
}

/// Where reading stands.
#[derive(Clone, Copy)]
pub struct State {
    /// How many tokens are read already.
    pub skipped: usize,
    /// Where the innermost open repetition begins.
    pub within: Option<usize>,
    /// Whether all may be empty that was read in the innermost open group.
    pub bare: bool,
    pub fault: Option<RuleFault>,
}

/// The positions that were read, the groups that are open, and where reading stands.
pub struct Reading {
    rows: Vec<Row>,
    groups: Vec<Opening>,
    state: State,
}

/// Hand-written `Drop`, to keep proofs small: dropping one is then a single call.
impl Drop for Reading {
    fn drop(self) {
        let Reading {
            rows: _rows,
            groups: _groups,
            state: _state,
        } = self;
    }
}

impl Model for Reading {
    ghost use Rattle.macro_rules.specs.Read.{Read};

    ghost Value = { Read };

    ghost view = { λ r. record { rows = r.rows.items; groups = r.groups.items; state = r.state } };
}

/// What is repeated how often: `*`, `+` or `?`, with a token between or without.
#[derive(Clone, Copy)]
struct Tail {
    /// Whether there may be none.
    skips: bool,
    /// Whether there may be more than one.
    again: bool,
    separated: bool,
}

fn tail_of(kind: TokenKind, separated: bool) -> Option<Tail>
    ensures { result ≡ spec.tail_of kind separated }
{
    if is_mark(b'*', kind) {
        Some(Tail {
            skips: true,
            again: true,
            separated,
        })
    } else if is_mark(b'+', kind) {
        Some(Tail {
            skips: false,
            again: true,
            separated,
        })
    } else if is_mark(b'?', kind) && !separated {
        Some(Tail {
            skips: true,
            again: false,
            separated,
        })
    } else {
        None
    }
}

/// The tail of a repetition, behind its closing delimiter, which begins the tokens.
fn read_tail(tokens: &[Token]) -> Option<Tail>
    ensures { result ≡ spec.tail tokens.now }
{
    match tail_of(kind_at(tokens, 1), false) {
        None => tail_of(kind_at(tokens, 2), true),
        Some(tail) => Some(tail),
    }
}

impl Reading {
    fn new(alloc: Global) -> Reading
        ensures { result ≡ spec.nothing_read }
    {
        Reading {
            rows: Vec::new(alloc),
            groups: Vec::new(alloc),
            state: State {
                skipped: 0,
                within: None,
                bare: true,
                fault: None,
            },
        }
    }

    fn fail(&mut self, fault: RuleFault)
        ensures { self.new ≡ spec.failed fault self.old }
    {
        self.state.fault = Some(fault);
    }

    /// What was wrong.
    pub(crate) fn fault(&self) -> Option<RuleFault>
        ensures { result ≡ self.now.state.fault }
    {
        self.state.fault
    }

    /// The positions that were read.
    pub(crate) fn rows(&self) -> &[Row]
        ensures { result.now ≡ self.now.rows }
    {
        self.rows.as_slice()
    }

    pub(crate) fn into_rows(self) -> Vec<Row>
        ensures { result.items ≡ self.rows }
    {
        let Reading {
            rows,
            groups: _groups,
            state: _state,
        } = self;
        rows
    }

    /// Adds a position that is not empty, where so many tokens behind it belong to it.
    fn add(&mut self, row: Row, skipped: usize) -> Result<(), AllocError>
        ensures { OnOk result (self.new ≡ spec.added row skipped self.old) }
    {
        self.rows.push(row)?;
        self.state.skipped = skipped;
        self.state.bare = false;
        Ok(())
    }

    /// Opens a group that is no repetition.
    fn open_group(&mut self, token: Token) -> Result<(), AllocError>
        ensures { OnOk result (self.new ≡ spec.group_opened token self.old) }
    {
        self.groups.push(Opening {
            repetition: None,
            within: self.state.within,
            bare: false,
        })?;
        self.add(Row::Token(token), 0)
    }

    /// Opens a repetition, at its `$` before the delimiter. In a transcriber it may be empty.
    fn open_repetition(&mut self, is_matcher: bool) -> Result<(), AllocError>
        ensures { OnOk result (self.new ≡ spec.repetition_opened is_matcher self.old) }
    {
        let begin = self.rows.len();
        let within = self.state.within;
        self.groups.push(Opening {
            repetition: Some(begin),
            within,
            bare: self.state.bare,
        })?;
        self.rows.push(Row::Begin(Repetition {
            end: begin,
            behind: None,
            within,
        }))?;
        self.rows.push(Row::Iteration)?;
        self.state.skipped = 1;
        self.state.bare = is_matcher;
        self.state.within = Some(begin);
        Ok(())
    }

    /// Lays out the end of a repetition: where it goes on, and its separator.
    fn end_repetition(
        &mut self,
        begin: usize,
        tail: Tail,
        separator: Token,
    ) -> Result<(), AllocError>
        requires { begin < 2 ^ 63 }
        ensures { OnOk result (self.new ≡ spec.ended begin tail separator self.old) }
    {
        let start = begin + 1;
        let end = self.rows.len();
        if tail.separated {
            self.rows.push(Row::End(Some(end + 2)))?;
            self.rows.push(Row::Separator(separator, start))?;
        } else if tail.again {
            self.rows.push(Row::End(Some(start)))?;
        } else {
            self.rows.push(Row::End(None))?;
        }
        Ok(())
    }

    /// Says at the begin of a repetition where its iterations end, and where it goes on if it is left out.
    fn note_end(&mut self, begin: usize, end: usize, tail: Tail, within: Option<usize>)
        requires { begin < length self.old.rows }
        ensures { self.new ≡ spec.end_noted begin end tail within self.old }
    {
        let behind = if tail.skips {
            Some(self.rows.len())
        } else {
            None
        };
        self.rows[begin] = Row::Begin(Repetition {
            end,
            behind,
            within,
        });
    }

    /// Ends a repetition, which began at a position, in a group that was so before.
    fn close_repetition(
        &mut self,
        begin: usize,
        opening: Opening,
        tail: Tail,
        separator: Token,
    ) -> Result<(), AllocError>
        ensures { OnOk result (self.new ≡ spec.repetition_closed begin opening tail separator self.old) }
    {
        if self.rows.len() <= begin || (self.state.bare && !tail.separated) {
            self.fail(RuleFault::EmptyRepetition);
            return Ok(());
        }
        let end = self.rows.len();
        self.end_repetition(begin, tail, separator)?;
        self.note_end(begin, end, tail, opening.within);
        self.state.bare = opening.bare && (tail.skips || self.state.bare);
        self.state.within = opening.within;
        self.state.skipped = if tail.separated { 2 } else { 1 };
        Ok(())
    }

    /// Ends the innermost open group, at its closing delimiter, which begins the tokens.
    fn close_group(&mut self, token: Token, tokens: &[Token]) -> Result<(), AllocError>
        ensures { OnOk result (self.new ≡ spec.group_closed token tokens.now self.old) }
    {
        match self.groups.pop() {
            None => self.fail(RuleFault::BadRule),
            Some(opening) => match opening.repetition {
                None => self.add(Row::Token(token), 0)?,
                Some(begin) => match read_tail(tokens) {
                    None => self.fail(fault_of(kind_at(tokens, 1))),
                    Some(found) => {
                        let separator = token_at(tokens, 1, token);
                        self.close_repetition(begin, opening, found, separator)?;
                    }
                },
            },
        }
        Ok(())
    }
}

/// Why a repetition cannot be read: an operator that has a token for each mark is not read as a separator.
fn fault_of(kind: TokenKind) -> RuleFault
    ensures { result ≡ spec.fault_of kind }
{
    if 1 < width(kind) {
        RuleFault::Unsupported
    } else {
        RuleFault::BadRule
    }
}

/// The token at a place, or another where there is none.
fn token_at(tokens: &[Token], at: usize, other: Token) -> Token
    ensures { result ≡ spec.token_at tokens.now at other }
{
    match tokens.get(at) {
        None => other,
        Some(token) => *token,
    }
}
