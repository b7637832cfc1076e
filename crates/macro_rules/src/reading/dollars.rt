//! What stands behind a `$`, and each token of a matcher or a transcriber.
ghost use Rattle.std.specs.Prelude.{◌≡◌, IfOk, OnOk, true, false, position};
ghost use Rattle.macro_rules.specs.Readings as spec;

use crate::extents::{is_mark, kind_at};
use crate::fragment_names::kind_named;
use crate::reading::{Reading, RuleFault, token_at};
use crate::row::{Row, Variable};
use crate::token::{FragmentKind, Home, Token, TokenKind};
use dm_base::edition::Edition;
use item_tree::lexer::lexeme::Delimiter;
use item_tree::lexer::span::{name_text, piece};
use item_tree::lexer::word::Word;
use std::alloc::{AllocError, Global};

/// What is read: a matcher or a transcriber, of a macro of that crate.
#[derive(Clone, Copy)]
pub struct Part {
    pub is_matcher: bool,
    pub home: Home,
}

fn dollar_crate(krate: u32, token: Token) -> Row
    ensures { result ≡ spec.dollar_crate krate token }
{
    Row::Token(Token {
        kind: TokenKind::DollarCrate(krate),
        span: token.span,
    })
}

/// Whether a position is a variable of that name.
fn names(bytes: &[u8], name: Token, row: &Row) -> bool
    ensures { result ≡ spec.names bytes.now name row.now }
{
    match row {
        Row::Variable(variable) => {
            name_text(bytes, variable.name.span) == name_text(bytes, name.span)
        }
        _ => false,
    }
}

/// The position of the variable of that name.
fn find(bytes: &[u8], rows: &[Row], name: Token) -> Option<usize>
    ensures { result ≡ spec.found bytes.now rows.now name }
{
    rows.iter().position(|row| names(bytes, name, row))
}

fn is_vis(kind: FragmentKind) -> bool
    ensures { result ≡ spec.is_vis kind }
{
    matches!(kind, FragmentKind::Vis)
}

fn is_doc(kind: TokenKind) -> bool
    ensures { result ≡ spec.is_doc kind }
{
    matches!(kind, TokenKind::Doc)
}

/// How many tokens of a doc comment stand behind its first.
fn doc_len(tokens: &[Token]) -> usize
    ensures { result ≡ spec.doc_len tokens.now }
{
    if is_doc(kind_at(tokens, 4)) {
        5
    } else if is_mark(b'!', kind_at(tokens, 1)) && is_doc(kind_at(tokens, 5)) {
        6
    } else {
        0
    }
}

impl Reading {
    fn add_variable(&mut self, name: Token, kind: FragmentKind) -> Result<(), AllocError>
        ensures { OnOk result (self.new ≡ spec.variable_added name kind self.old) }
    {
        let bare = self.state.bare && is_vis(kind);
        let within = self.state.within;
        self.rows
            .push(Row::Variable(Variable { name, kind, within }))?;
        self.state.skipped = 3;
        self.state.bare = bare;
        Ok(())
    }

    /// Adds a variable of a kind, if its name is new.
    fn try_variable(
        &mut self,
        bytes: &[u8],
        name: Token,
        kind: Option<FragmentKind>,
    ) -> Result<(), AllocError>
        ensures { OnOk result (self.new ≡ spec.variable_with bytes.now name kind self.old) }
    {
        match kind {
            None => self.fail(RuleFault::NoKind),
            Some(kind) => {
                if find(bytes, self.rows.as_slice(), name).is_some() {
                    self.fail(RuleFault::TwoOfAName);
                } else {
                    self.add_variable(name, kind)?;
                }
            }
        }
        Ok(())
    }

    /// Reads `$name:kind`, where the `$` begins the tokens.
    fn read_variable(
        &mut self,
        bytes: &[u8],
        edition: Edition,
        name: Token,
        tokens: &[Token],
    ) -> Result<(), AllocError>
        ensures { OnOk result (self.new ≡ spec.variable_read bytes.now edition name tokens.now self.old) }
    {
        if !is_mark(b':', kind_at(tokens, 2)) {
            self.fail(RuleFault::NoKind);
            return Ok(());
        }
        let specifier = token_at(tokens, 3, name);
        let kind = kind_named(piece(bytes, specifier.span), edition);
        self.try_variable(bytes, name, kind)
    }

    /// Adds what a variable captured, or the `$` before a name that is none of its variables.
    fn add_capture(&mut self, token: Token, variable: Option<usize>) -> Result<(), AllocError>
        ensures { OnOk result (self.new ≡ spec.captured token variable self.old) }
    {
        match variable {
            None => self.add(Row::Token(token), 0),
            Some(row) => self.add(Row::Capture(row), 1),
        }
    }

    /// Reads `$name`, whose `$` begins the tokens.
    fn read_name(
        &mut self,
        part: Part,
        bytes: &[u8],
        matcher: &[Row],
        token: Token,
        tokens: &[Token],
    ) -> Result<(), AllocError>
        ensures { OnOk result (self.new ≡ spec.name_read part bytes.now matcher.now token (spec.token_at tokens.now 1 token) tokens.now self.old) }
    {
        let name = token_at(tokens, 1, token);
        if part.is_matcher {
            self.read_variable(bytes, part.home.edition, name, tokens)
        } else {
            self.add_capture(token, find(bytes, matcher, name))
        }
    }

    /// Reads what stands behind a `$`, which begins the tokens.
    #[tactic(auto, unfolding(crate::specs::Readings::dollar_read))]
    fn read_dollar(
        &mut self,
        part: Part,
        bytes: &[u8],
        matcher: &[Row],
        token: Token,
        tokens: &[Token],
    ) -> Result<(), AllocError>
        ensures { OnOk result (self.new ≡ spec.dollar_read part bytes.now matcher.now token tokens.now self.old) }
    {
        match kind_at(tokens, 1) {
            TokenKind::Open(Delimiter::Parenthesis) => self.open_repetition(part.is_matcher),
            TokenKind::Open(Delimiter::Brace) => {
                self.fail(RuleFault::Unsupported);
                Ok(())
            }
            TokenKind::Word(Word::Crate) => {
                let name = token_at(tokens, 1, token);
                self.add(dollar_crate(part.home.krate, name), 1)
            }
            TokenKind::Word(_) | TokenKind::Keyword(_) => {
                self.read_name(part, bytes, matcher, token, tokens)
            }
            TokenKind::Close(_) => self.add(Row::Token(token), 0),
            kind => self.read_other(kind, token, tokens.len()),
        }
    }

    /// Reads a `$` before a token that begins nothing with it, or at the end of so many tokens.
    fn read_other(&mut self, kind: TokenKind, token: Token, len: usize) -> Result<(), AllocError>
        ensures { OnOk result (self.new ≡ spec.other_read kind token len self.old) }
    {
        if is_mark(b'$', kind) {
            self.fail(RuleFault::Unsupported);
            Ok(())
        } else if 1 < len {
            self.fail(RuleFault::BadRule);
            Ok(())
        } else {
            self.add(Row::Token(token), 0)
        }
    }

    /// Reads a `#`, which begins the tokens.
    fn read_hash(
        &mut self,
        is_matcher: bool,
        token: Token,
        tokens: &[Token],
    ) -> Result<(), AllocError>
        ensures { OnOk result (self.new ≡ spec.hash_read is_matcher token tokens.now self.old) }
    {
        let len = doc_len(tokens);
        if is_matcher && len != 0 {
            self.state.skipped = len;
            Ok(())
        } else {
            self.add(Row::Token(token), 0)
        }
    }

    /// Reads the token that begins the tokens.
    fn read_kind(
        &mut self,
        part: Part,
        bytes: &[u8],
        matcher: &[Row],
        token: Token,
        tokens: &[Token],
    ) -> Result<(), AllocError>
        ensures { OnOk result (self.new ≡ spec.kind_read token.kind part bytes.now matcher.now token tokens.now self.old) }
    {
        match token.kind {
            TokenKind::Open(_) => self.open_group(token),
            TokenKind::Close(_) => self.close_group(token, tokens),
            kind => {
                if is_mark(b'$', kind) {
                    self.read_dollar(part, bytes, matcher, token, tokens)
                } else if is_mark(b'#', kind) {
                    self.read_hash(part.is_matcher, token, tokens)
                } else {
                    self.add(Row::Token(token), 0)
                }
            }
        }
    }

    /// Reads one token, unless something was wrong before, or it belongs to what was read before.
    #[tactic(auto, unfolding(crate::specs::Readings::one_read))]
    fn read_one(
        &mut self,
        part: Part,
        bytes: &[u8],
        matcher: &[Row],
        token: Token,
        tokens: &[Token],
    ) -> Result<(), AllocError>
        ensures { OnOk result (self.new ≡ spec.one_read part bytes.now matcher.now token tokens.now self.old) }
    {
        if self.state.fault.is_some() {
            return Ok(());
        }
        if self.state.skipped != 0 {
            self.state.skipped -= 1;
            return Ok(());
        }
        self.read_kind(part, bytes, matcher, token, tokens)
    }

    /// Finds what is lacking where the tokens end.
    fn end(&mut self)
        ensures { self.new ≡ spec.at_end self.old }
    {
        if self.state.fault.is_none() && (!self.groups.is_empty() || self.state.skipped != 0) {
            self.fail(RuleFault::BadRule);
        }
    }
}

/// Reads a matcher, or the transcriber to a matcher that was read.
pub(crate) fn read_rows(
    alloc: Global,
    part: Part,
    bytes: &[u8],
    matcher: &[Row],
    tokens: &[Token],
) -> Result<Reading, AllocError>
    ensures { IfOk result (λ reading. reading ≡ spec.rows_read part bytes.now matcher.now tokens.now) }
{
    let mut reading = Reading::new(alloc);
    let mut at: usize = 0;
    while at < tokens.len() {
        reading.read_one(part, bytes, matcher, tokens[at], &tokens[at..])?;
        at += 1;
    }
    reading.end();
    Ok(reading)
}
