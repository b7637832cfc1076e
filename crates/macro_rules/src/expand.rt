//! What a macro makes of a call.
ghost use Rattle.std.specs.Prelude.{◌≡◌, ◌+◌, IfOk, length};
ghost use Rattle.macro_rules.specs.Expansions as spec;

use crate::matching::{Outcome, Thread};
use crate::rules::Rule;
use crate::token::Token;
use crate::visits::visits;
use crate::walk::match_tokens;
use crate::writing::transcribing::transcribe;
use crate::writing::{WriteFault, Writing};
use std::alloc::{AllocError, Global};
use std::marker::Model;

/// Why a call has no expansion.
#[derive(Clone, Copy, PartialEq, Eq, Debug)]
pub enum ExpandFault {
    /// No rule matches.
    NoRule,
    /// A rule could go on in more than one way at that place of the call.
    Ambiguous(usize),
    /// A fragment begins at that place of the call, and cannot be read.
    BadFragment(usize),
    /// Matching took more turns than are allowed.
    TooLong,
    /// The rule matches, and its transcriber cannot be written.
    Unwritten(WriteFault),
}

/// How much a call may take.
#[derive(Clone, Copy)]
pub struct Limits {
    /// Turns of matching: one for each token or fragment, for each rule.
    pub turns: usize,
    /// Positions of the transcriber, for each time that they are written.
    pub steps: usize,
}

/// What a macro makes of a call: the tokens that it writes, and else why there are none.
pub struct Expansion {
    tokens: Vec<Token>,
    fault: Option<ExpandFault>,
}

/// Hand-written `Drop`, to keep proofs small: dropping one is then a single call.
impl Drop for Expansion {
    fn drop(self) {
        let Expansion {
            tokens: _tokens,
            fault: _fault,
        } = self;
    }
}

impl Model for Expansion {
    ghost use Rattle.macro_rules.specs.Expanded.{Expanded};

    ghost Value = { Expanded };

    ghost view = { λ e. record { tokens = e.tokens.items; fault = e.fault } };
}

impl Expansion {
    fn without(alloc: Global, fault: ExpandFault) -> Expansion
        ensures { result ≡ spec.without fault }
    {
        Expansion {
            tokens: Vec::new(alloc),
            fault: Some(fault),
        }
    }

    /// What was written, or why it was not.
    fn of(alloc: Global, writing: Writing) -> Expansion
        ensures { result ≡ spec.of writing }
    {
        match writing.fault() {
            None => Expansion {
                tokens: writing.into_tokens(),
                fault: None,
            },
            Some(fault) => Expansion::without(alloc, ExpandFault::Unwritten(fault)),
        }
    }

    /// The tokens that are written.
    pub fn tokens(&self) -> &[Token]
        ensures { result.now ≡ self.now.tokens }
    {
        self.tokens.as_slice()
    }

    /// Why there are none.
    pub fn fault(&self) -> Option<ExpandFault>
        ensures { result ≡ self.now.fault }
    {
        self.fault
    }
}

/// What the transcriber of a rule writes, where its matcher matched by the thread of a number.
#[tactic(auto, unfolding(crate::specs::Expansions::written))]
fn write(
    alloc: Global,
    rule: &Rule,
    log: &[Thread],
    last: usize,
    call: &[Token],
    steps: usize,
) -> Result<Expansion, AllocError>
    ensures { IfOk result (λ e. e ≡ spec.written rule.now log.now last call.now steps) }
{
    let table = visits(alloc, log, last, call.len(), rule.matcher().len())?;
    let writing = transcribe(
        alloc,
        rule.transcriber(),
        rule.matcher(),
        table.as_slice(),
        call,
        steps,
    )?;
    Ok(Expansion::of(alloc, writing))
}

/// What a rule makes of a call.
#[tactic(auto, unfolding(crate::specs::Expansions::applied))]
fn apply(
    alloc: Global,
    bytes: &[u8],
    rule: &Rule,
    call: &[Token],
    limits: Limits,
) -> Result<Expansion, AllocError>
    ensures { IfOk result (λ e. e ≡ spec.applied bytes.now rule.now call.now limits) }
{
    let rows = rule.matcher();
    let closing = rows.len() + rows.len() + 2;
    let walk = match_tokens(alloc, bytes, rows, call, closing, limits.turns)?;
    match walk.outcome {
        Outcome::Matches(last) => {
            let found = write(alloc, rule, walk.log.as_slice(), last, call, limits.steps)?;
            Ok(found)
        }
        Outcome::Fails(_) => Ok(Expansion::without(alloc, ExpandFault::NoRule)),
        Outcome::Ambiguous(place) => Ok(Expansion::without(alloc, ExpandFault::Ambiguous(place))),
        Outcome::BadFragment(place) => {
            Ok(Expansion::without(alloc, ExpandFault::BadFragment(place)))
        }
        Outcome::TooLong => Ok(Expansion::without(alloc, ExpandFault::TooLong)),
    }
}

/// Whether a rule does not match, so that the next one is tried.
fn hands_on(fault: Option<ExpandFault>) -> bool
    ensures { result ≡ spec.hands_on fault }
{
    matches!(fault, Some(ExpandFault::NoRule))
}

/// What a macro of these rules makes of a call: what the first rule does that does not fail.
///
/// # Errors
///
/// Fails only where memory runs out.
pub fn expand(
    alloc: Global,
    bytes: &[u8],
    rules: &[Rule],
    call: &[Token],
    limits: Limits,
) -> Result<Expansion, AllocError>
    ensures exact { IfOk result (λ e. e ≡ spec.expanded bytes.now rules.now call.now limits) }
{
    for rule in rules {
        let found = apply(alloc, bytes, rule, call, limits)?;
        if !hands_on(found.fault()) {
            return Ok(found);
        }
    }
    Ok(Expansion::without(alloc, ExpandFault::NoRule))
}
