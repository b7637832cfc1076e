//! What a transcriber writes.
ghost use Rattle.std.specs.Prelude.{◌≡◌, ◌+◌, ◌<◌, ◌≤◌, ◌^◌, ◌++◌, OnOk, is_some, slice_get};
ghost use Rattle.macro_rules.specs.Writings as spec;

mod levels;
pub(crate) mod transcribing;

use crate::extents::{kind_at, tree_len, width};
use crate::row::Row;
use crate::token::{FragmentKind, Token, TokenKind};
use crate::visits::{RowVisits, Visit, visit_at, visits_of};
use item_tree::lexer::span::Span;
use std::alloc::{AllocError, Global};
use std::marker::Model;

/// Why nothing is written.
#[derive(Clone, Copy, PartialEq, Eq, Debug)]
pub enum WriteFault {
    /// Two variables of a repetition were captured in different numbers.
    Uneven,
    /// A repetition has no variable that repeats there.
    NothingRepeats,
    /// A variable stands in fewer repetitions than in its matcher.
    StillRepeats,
    /// A repetition by `+` has nothing to repeat.
    NeedsOne,
    /// More tokens, or more repetitions, than are allowed.
    TooGreat,
}

/// A repetition that is written: its iteration, of how many, and how many repetitions of the matcher lead those outside.
#[derive(Clone, Copy)]
pub struct Level {
    pub begin: usize,
    pub index: usize,
    pub count: usize,
    pub leaders: usize,
}

/// A repetition of the matcher that one of the transcriber goes along with, and its first iteration there.
#[derive(Clone, Copy)]
pub struct Leader {
    pub repetition: usize,
    pub first: usize,
    pub count: usize,
}

/// What was written, the repetitions that are open, what leads them, and for each position of the matcher where a
/// repetition begins that is led, its iteration.
pub struct Writing {
    tokens: Vec<Token>,
    levels: Vec<Level>,
    leaders: Vec<Leader>,
    current: Vec<Option<usize>>,
    /// The position of the transcriber that is next.
    at: usize,
    fault: Option<WriteFault>,
}

/// Hand-written `Drop`, to keep proofs small: dropping one is then a single call.
impl Drop for Writing {
    fn drop(self) {
        let Writing {
            tokens: _tokens,
            levels: _levels,
            leaders: _leaders,
            current: _current,
            at: _at,
            fault: _fault,
        } = self;
    }
}

impl Model for Writing {
    ghost use Rattle.macro_rules.specs.Written.{Written};

    ghost Value = { Written };

    ghost view = { λ w. record {
      tokens = w.tokens.items;
      levels = w.levels.items;
      leaders = w.leaders.items;
      current = w.current.items;
      at = w.at;
      fault = w.fault;
    } };
}

/// A number for each kind; an edition makes none.
fn kind_number(kind: FragmentKind) -> u8
    ensures { result ≡ spec.kind_number kind }
{
    match kind {
        FragmentKind::Ident => 0,
        FragmentKind::Lifetime => 1,
        FragmentKind::Tt => 2,
        FragmentKind::Literal => 3,
        FragmentKind::Vis => 4,
        FragmentKind::Block => 5,
        FragmentKind::Path => 6,
        FragmentKind::Ty => 7,
        FragmentKind::Meta => 8,
        FragmentKind::Item => 9,
        FragmentKind::Expr => 10,
        FragmentKind::Expr2021 => 10,
        FragmentKind::Pat => 12,
        FragmentKind::PatParam => 12,
        FragmentKind::Stmt => 14,
    }
}

/// Whether a token begins a fragment of the kind.
fn has_kind(kind: FragmentKind, first: TokenKind) -> bool
    ensures { result ≡ spec.has_kind kind first }
{
    match first {
        TokenKind::FragmentOpen(own) => kind_number(kind) == kind_number(own),
        _ => false,
    }
}

/// Whether a fragment is put back as it is: a name, a lifetime, a tree, or what is one fragment of its kind already.
fn stays(kind: FragmentKind, piece: &[Token]) -> bool
    ensures { result ≡ spec.stays kind piece.now }
{
    kind_number(kind) < 3 || (has_kind(kind, kind_at(piece, 0)) && tree_len(piece) == piece.len())
}

/// The token that has so many in a fragment from its own on: an operator whose marks were not all taken is single marks.
fn parted_at(token: Token, size: usize) -> Token
    ensures { result ≡ spec.parted_at token size }
{
    if width(token.kind) <= size {
        return token;
    }
    let kind = match token.kind {
        TokenKind::Pair(first, _) => TokenKind::Mark(first),
        TokenKind::Triple(first, _, _) => TokenKind::Mark(first),
        kind => kind,
    };
    Token {
        kind,
        span: Span {
            start: token.span.start,
            len: 1,
        },
    }
}

/// Adds the tokens of a fragment.
fn add_parted(tokens: &mut Vec<Token>, piece: &[Token]) -> Result<(), AllocError>
    ensures { OnOk result (tokens.new.items ≡ tokens.old.items ++ spec.parted piece.now) }
{
    let mut at: usize = 0;
    while at < piece.len() {
        tokens.push(parted_at(piece[at], piece.len() - at))?;
        at += 1;
    }
    Ok(())
}

/// The iteration of the innermost repetition of the matcher around a variable or a repetition, if it is led there.
fn iteration(current: &[Option<usize>], within: Option<usize>) -> Option<usize>
    ensures { result ≡ spec.iteration current.now within }
{
    match within {
        None => Some(0),
        Some(begin) => match current.get(begin) {
            None => None,
            Some(number) => *number,
        },
    }
}

/// The tokens of a visit.
fn taken(input: &[Token], visit: Visit) -> &[Token]
    ensures { result.now ≡ spec.taken input.now visit }
{
    let rest = &input[visit.first.min(input.len())..];
    &rest[..visit.behind.saturating_sub(visit.first).min(rest.len())]
}

/// Where the innermost repetition begins around a position of the matcher.
fn outside(matcher: &[Row], row: usize) -> Option<usize>
    ensures { result ≡ spec.outside (slice_get matcher.now row) }
{
    match matcher.get(row) {
        Some(Row::Variable(variable)) => variable.within,
        Some(Row::Begin(repetition)) => repetition.within,
        _ => None,
    }
}

/// How many iterations a repetition has had behind its visit of a number.
fn iterations_behind(table: &[RowVisits], repetition: usize, number: usize) -> usize
    ensures { result ≡ spec.iterations_behind table.now repetition number }
{
    match table.get(repetition) {
        None => 0,
        Some(visits) => match visits.next(number) {
            None => visits_of(table, repetition + 1),
            Some(visit) => visit.iterations,
        },
    }
}

/// The iterations of a repetition of the matcher in the iteration of the one around it.
fn leader_now(
    matcher: &[Row],
    table: &[RowVisits],
    current: &[Option<usize>],
    repetition: usize,
) -> Leader
    ensures { result ≡ spec.leader matcher.now table.now current.now repetition }
{
    match iteration(current, outside(matcher, repetition)) {
        None => Leader {
            repetition,
            first: 0,
            count: 0,
        },
        Some(number) => leader_at(table, repetition, number),
    }
}

/// The iterations of a repetition of the matcher at its visit of a number.
fn leader_at(table: &[RowVisits], repetition: usize, number: usize) -> Leader
    ensures { result ≡ spec.leader_at table.now repetition number }
{
    match visit_at(table, repetition, number) {
        None => Leader {
            repetition,
            first: 0,
            count: 0,
        },
        Some(visit) => Leader {
            repetition,
            first: visit.iterations,
            count: iterations_behind(table, repetition, number).saturating_sub(visit.iterations),
        },
    }
}

/// Whether the innermost repetition around something is led.
fn is_led(current: &[Option<usize>], around: Option<usize>) -> bool
    ensures { result ≡ is_some (spec.iteration current.now around) }
{
    iteration(current, around).is_some()
}

/// The repetition of the matcher that leads one of the transcriber by a variable: the outermost around the variable that
/// does not lead yet.
fn find_leader(matcher: &[Row], current: &[Option<usize>], within: Option<usize>) -> Option<usize>
    ensures { result ≡ spec.find_leader matcher.now current.now within }
{
    let mut found = None;
    let mut around = within;
    let mut left = matcher.len();
    while left != 0 {
        match around {
            None => return found,
            Some(begin) => {
                if is_led(current, around) {
                    return found;
                }
                found = around;
                around = outside(matcher, begin);
                left -= 1;
            }
        }
    }
    found
}

impl Writing {
    fn fail(&mut self, fault: WriteFault)
        ensures { self.new ≡ spec.failed fault self.old }
    {
        self.fault = Some(fault);
    }

    /// Why it was not written.
    pub(crate) fn fault(&self) -> Option<WriteFault>
        ensures { result ≡ self.now.fault }
    {
        self.fault
    }

    /// What was written.
    pub(crate) fn into_tokens(self) -> Vec<Token>
        ensures { result.items ≡ self.tokens }
    {
        let Writing {
            tokens,
            levels: _levels,
            leaders: _leaders,
            current: _current,
            at: _at,
            fault: _fault,
        } = self;
        tokens
    }

    /// Writes a token, and goes on at a position.
    fn write(&mut self, token: Token, next: usize) -> Result<(), AllocError>
        ensures { OnOk result (self.new ≡ spec.written token next self.old) }
    {
        self.tokens.push(token)?;
        self.at = next;
        Ok(())
    }

    /// Writes a fragment of a kind, with its borders where it stays one tree.
    fn write_fragment(&mut self, kind: FragmentKind, piece: &[Token]) -> Result<(), AllocError>
        ensures { OnOk result (self.new ≡ spec.fragment_written kind piece.now self.old) }
    {
        if stays(kind, piece) {
            self.tokens.extend_from_slice(piece)?;
            return Ok(());
        }
        self.tokens.push(border(TokenKind::FragmentOpen(kind)))?;
        add_parted(&mut self.tokens, piece)?;
        self.tokens.push(border(TokenKind::FragmentClose(kind)))?;
        Ok(())
    }

    /// Writes what a variable at a position of the matcher captured.
    fn write_capture(
        &mut self,
        matcher: &[Row],
        table: &[RowVisits],
        input: &[Token],
        row: usize,
    ) -> Result<(), AllocError>
        ensures { OnOk result (self.new ≡ spec.capture_written (slice_get matcher.now row) table.now input.now row self.old) }
    {
        match matcher.get(row) {
            Some(Row::Variable(variable)) => {
                match capture_of(table, self.current.as_slice(), row, variable.within) {
                    None => {
                        self.fail(WriteFault::StillRepeats);
                        Ok(())
                    }
                    Some(visit) => self.write_fragment(variable.kind, taken(input, visit)),
                }
            }
            _ => {
                self.fail(WriteFault::StillRepeats);
                Ok(())
            }
        }
    }

    /// Lets a repetition of the matcher lead one of the transcriber, whose leaders begin at a number.
    fn add_leader(&mut self, from: usize, leader: Leader) -> Result<(), AllocError>
        ensures { OnOk result (self.new ≡ spec.leader_added from leader self.old) }
    {
        if !leads(self.leaders.as_slice(), from, leader.repetition) {
            self.leaders.push(leader)?;
        }
        Ok(())
    }

    /// Adds what leads a repetition by a variable that stands in it.
    fn add_leader_of(
        &mut self,
        matcher: &[Row],
        table: &[RowVisits],
        from: usize,
        row: &Row,
    ) -> Result<(), AllocError>
        ensures { OnOk result (self.new ≡ spec.leader_of_added matcher.now table.now from row.now self.old) }
    {
        match row {
            Row::Capture(variable) => {
                let within = outside(matcher, *variable);
                match find_leader(matcher, self.current.as_slice(), within) {
                    None => Ok(()),
                    Some(repetition) => {
                        let number = leader_now(
                            matcher,
                            table,
                            self.current.as_slice(),
                            repetition,
                        );
                        self.add_leader(from, number)
                    }
                }
            }
            _ => Ok(()),
        }
    }
}

/// A border of a fragment.
fn border(kind: TokenKind) -> Token
    ensures { result ≡ spec.border kind }
{
    Token {
        kind,
        span: Span { start: 0, len: 0 },
    }
}

/// What the variable at a position of the matcher captured in the iteration that is led.
fn capture_of(
    table: &[RowVisits],
    current: &[Option<usize>],
    row: usize,
    within: Option<usize>,
) -> Option<Visit>
    ensures { result ≡ spec.capture_of table.now current.now row within }
{
    match iteration(current, within) {
        None => None,
        Some(number) => visit_at(table, row, number),
    }
}

/// Whether a repetition is one of the leaders from a number on.
fn leads(leaders: &[Leader], from: usize, repetition: usize) -> bool
    ensures { result ≡ spec.leads leaders.now from repetition }
{
    leads_in(&leaders[from.min(leaders.len())..], repetition)
}

fn leads_in(leaders: &[Leader], repetition: usize) -> bool
    ensures { result ≡ spec.leads_in leaders.now repetition }
{
    leaders.iter().any(|leader| leader.repetition == repetition)
}
