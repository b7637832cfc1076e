//! The rules of a macro.
ghost use Rattle.std.specs.Prelude.{◌≡◌, ◌+◌, ◌<◌, ◌≤◌, ◌^◌, IfOk, OnOk, length};
ghost use Rattle.macro_rules.specs.Rules as spec;

use crate::extents::{is_mark, is_pair, kind_at, tree_len};
use crate::reading::dollars::{Part, read_rows};
use crate::reading::{Reading, RuleFault};
use crate::row::Row;
use crate::token::{Home, Token, TokenKind};
use std::alloc::{AllocError, Global};
use std::marker::Model;

/// A rule: its matcher and its transcriber, as which a contract sees it.
pub struct Rule {
    matcher: Vec<Row>,
    transcriber: Vec<Row>,
}

/// Hand-written `Drop`, to keep proofs small: dropping one is then a single call.
impl Drop for Rule {
    fn drop(self) {
        let Rule {
            matcher: _matcher,
            transcriber: _transcriber,
        } = self;
    }
}

impl Model for Rule {
    ghost use Rattle.macro_rules.specs.RuleRows.{RuleRows};

    ghost Value = { RuleRows };

    ghost view = { λ r. record { matcher = r.matcher.items; transcriber = r.transcriber.items } };
}

impl Rule {
    pub fn matcher(&self) -> &[Row]
        ensures { result.now ≡ self.now.matcher }
    {
        self.matcher.as_slice()
    }

    pub fn transcriber(&self) -> &[Row]
        ensures { result.now ≡ self.now.transcriber }
    {
        self.transcriber.as_slice()
    }
}

/// The rules of a macro, in order, and what is wrong with them.
pub struct Rules {
    rules: Vec<Rule>,
    fault: Option<RuleFault>,
}

/// Hand-written `Drop`, to keep proofs small: dropping one is then a single call.
impl Drop for Rules {
    fn drop(self) {
        let Rules {
            rules: _rules,
            fault: _fault,
        } = self;
    }
}

impl Model for Rules {
    ghost use Rattle.macro_rules.specs.RulesRead.{RulesRead};

    ghost Value = { RulesRead };

    ghost view = { λ r. record { rules = r.rules.items; fault = r.fault } };
}

/// Where a rule is cut: behind its matcher, and behind its transcriber.
#[derive(Clone, Copy)]
struct Cut {
    matcher: usize,
    transcriber: usize,
}

fn opens(kind: TokenKind) -> bool
    ensures { result ≡ spec.opens kind }
{
    matches!(kind, TokenKind::Open(_))
}

/// Where the rule is cut that begins the tokens, as far as it is one.
fn cut_rule(tokens: &[Token]) -> Option<Cut>
    ensures { result ≡ spec.cut tokens.now }
{
    let matcher = tree_len(tokens);
    if !opens(kind_at(tokens, 0)) || !is_pair(b'=', b'>', kind_at(tokens, matcher)) {
        return None;
    }
    match tokens.get(matcher + 1..) {
        None => None,
        Some(rest) => if opens(kind_at(rest, 0)) {
            Some(Cut {
                matcher,
                transcriber: matcher + 1 + tree_len(rest),
            })
        } else {
            None
        },
    }
}

/// The tokens between the delimiters of a group that goes from one place up to another.
fn inside(tokens: &[Token], from: usize, behind: usize) -> &[Token]
    requires { from < 2 ^ 63 }
    ensures { result.now ≡ spec.inside from behind tokens.now }
{
    let rest = &tokens[(from + 1).min(tokens.len())..];
    &rest[..behind.saturating_sub(from + 2).min(rest.len())]
}

impl Rules {
    fn new(alloc: Global) -> Rules
        ensures { result ≡ spec.no_rules }
    {
        Rules {
            rules: Vec::new(alloc),
            fault: None,
        }
    }

    fn fail(&mut self, fault: RuleFault)
        ensures { self.new ≡ spec.failed fault self.old }
    {
        self.fault = Some(fault);
    }

    /// The rules, in order.
    pub fn rules(&self) -> &[Rule]
        ensures { result.now ≡ self.now.rules }
    {
        self.rules.as_slice()
    }

    /// What is wrong with them.
    pub fn fault(&self) -> Option<RuleFault>
        ensures { result ≡ self.now.fault }
    {
        self.fault
    }

    /// Adds a rule whose parts were read.
    fn add(&mut self, matcher: Reading, transcriber: Reading) -> Result<(), AllocError>
        ensures { OnOk result (self.new ≡ spec.added matcher transcriber self.old) }
    {
        let fault = match matcher.fault() {
            None => transcriber.fault(),
            found => found,
        };
        self.rules.push(Rule {
            matcher: matcher.into_rows(),
            transcriber: transcriber.into_rows(),
        })?;
        self.fault = fault;
        Ok(())
    }

    /// Reads both parts of a rule that was cut.
    #[tactic(auto, unfolding(crate::specs::Rules::parts_read))]
    fn read_parts(
        &mut self,
        alloc: Global,
        home: Home,
        bytes: &[u8],
        tokens: &[Token],
        found: Cut,
    ) -> Result<(), AllocError>
        requires { found.matcher < 2 ^ 62 }
        ensures { OnOk result (self.new ≡ spec.parts_read home bytes.now tokens.now found self.old) }
    {
        let part = Part {
            is_matcher: true,
            home,
        };
        let other = Part {
            is_matcher: false,
            home,
        };
        let matcher = read_rows(alloc, part, bytes, &[], inside(tokens, 0, found.matcher))?;
        let written = inside(tokens, found.matcher + 1, found.transcriber);
        let transcriber = read_rows(alloc, other, bytes, matcher.rows(), written)?;
        self.add(matcher, transcriber)
    }

    /// Reads the rule that begins the tokens.
    #[tactic(auto, unfolding(crate::specs::Rules::rule_read))]
    fn read_rule(
        &mut self,
        alloc: Global,
        home: Home,
        bytes: &[u8],
        tokens: &[Token],
    ) -> Result<(), AllocError>
        ensures { OnOk result (self.new ≡ spec.rule_read home bytes.now tokens.now self.old) }
    {
        match cut_rule(tokens) {
            None => self.fail(RuleFault::BadRule),
            Some(found) => {
                self.read_parts(alloc, home, bytes, tokens, found)?;
                if self.fault.is_none() && !ends_rule(tokens, found.transcriber) {
                    self.fail(RuleFault::BadRule);
                }
            }
        }
        Ok(())
    }
}

impl Rules {
    /// Reads the rule that begins at a place, if one may, and says where the next one does.
    fn read_next(
        &mut self,
        alloc: Global,
        home: Home,
        bytes: &[u8],
        tokens: &[Token],
        at: usize,
    ) -> Result<usize, AllocError>
        ensures next { IfOk result (λ next. next ≡ spec.next_at tokens.now at self.old) }
        ensures ok { OnOk result (self.new ≡ spec.next_read home bytes.now tokens.now at self.old) }
    {
        if self.fault.is_some() || tokens.len() <= at {
            return Ok(at);
        }
        let rest = &tokens[at..];
        self.read_rule(alloc, home, bytes, rest)?;
        Ok(at + rule_len(rest))
    }

    /// Finds that there are none.
    fn end(&mut self)
        ensures { self.new ≡ spec.at_end self.old }
    {
        if self.rules.is_empty() && self.fault.is_none() {
            self.fail(RuleFault::BadRule);
        }
    }
}

/// Whether a rule may end at a place: before a semicolon, or with the tokens.
fn ends_rule(tokens: &[Token], at: usize) -> bool
    ensures { result ≡ spec.ends_rule tokens.now at }
{
    tokens.len() <= at || is_mark(b';', kind_at(tokens, at))
}

/// How many tokens the rule has that begins the tokens, with its semicolon.
#[tactic(auto, unfolding(crate::specs::Rules::rule_len))]
fn rule_len(tokens: &[Token]) -> usize
    ensures small { result ≤ length tokens.now + 1 }
    ensures exact { result ≡ spec.rule_len tokens.now }
{
    match cut_rule(tokens) {
        None => tokens.len(),
        Some(found) => found.transcriber.min(tokens.len()) + 1,
    }
}

/// Reads the rules of a macro of a crate, from the tokens of its body.
///
/// # Errors
///
/// Fails only where memory runs out.
pub fn read_rules(
    alloc: Global,
    home: Home,
    bytes: &[u8],
    tokens: &[Token],
) -> Result<Rules, AllocError>
    ensures exact { IfOk result (λ rules. rules ≡ spec.rules_read home bytes.now tokens.now) }
{
    let mut rules = Rules::new(alloc);
    let mut at: usize = 0;
    let mut left = tokens.len();
    while left != 0 {
        at = rules.read_next(alloc, home, bytes, tokens, at)?;
        left -= 1;
    }
    rules.end();
    Ok(rules)
}
