//! What expands the calls of a file.
use crate::expand::events::{Event, Met, ReadItems, Reading};
use crate::expand::faults::{
    Fault, TOO_DEEP, TOO_GREAT, TOO_MANY, UNKNOWN, call_fault, rule_words,
};
use crate::expand::limits::{FILE, RESULT, limits_of};
use crate::expand::scopes::{Definition, Scopes};
use crate::expand::{ExpandManner, Expanded};
use crate::places::FileLines;
use item_tree::items::Range;
use item_tree::lexer::span::{name_text, piece};
use macro_rules::expand::{Expansion, expand};
use macro_rules::rules::read_rules;
use macro_rules::token::{Home, Token, TokenKind};
use std::alloc::{AllocError, Global};

/// Tokens that are read as items, and what is met among them that is still to be looked at, the next last.
pub(crate) struct Level {
    pub(crate) tokens: Vec<Token>,
    events: Vec<Event>,
    /// The number of the definition that is met next.
    next: usize,
    /// How many calls it stands within.
    pub(crate) depth: u32,
}

/// A hand-written `Drop`, to keep proofs small: what drops one has one call to prove.
impl Drop for Level {
    fn drop(self) {
        let Level {
            tokens: _tokens,
            events: _events,
            next: _next,
            depth: _depth,
        } = self;
    }
}

/// The outermost call that is looked at: where it begins in the bytes of all tokens, and whether it is told.
#[derive(Clone, Copy)]
pub(crate) struct Outermost {
    pub(crate) at: usize,
    pub(crate) is_wanted: bool,
}

/// What expands the calls of a file.
pub(crate) struct Expander<'f, 'o> {
    pub(crate) alloc: Global,
    pub(crate) manner: ExpandManner<'o>,
    pub(crate) lines: FileLines<'f>,
    /// The bytes of all tokens, and where the text of the file begins in them.
    pub(crate) bytes: Vec<u8>,
    pub(crate) base: usize,
    pub(crate) definitions: Vec<Definition>,
    pub(crate) scopes: Scopes,
    /// So many calls may stand within each other.
    pub(crate) limit: u32,
    pub(crate) call: Outermost,
    pub(crate) made: usize,
    /// Whether a limit of the file was reached.
    pub(crate) is_over: bool,
    /// Whether a call stands where one is asked for.
    pub(crate) has_found: bool,
    pub(crate) answer: Expanded,
}

/// A hand-written `Drop`, to keep proofs small: what drops one has one call to prove.
impl<'f, 'o> Drop for Expander<'f, 'o> {
    fn drop(self) {
        let Expander {
            alloc: _alloc,
            manner: _manner,
            lines: _lines,
            bytes: _bytes,
            base: _base,
            definitions: _definitions,
            scopes: _scopes,
            limit: _limit,
            call: _call,
            made: _made,
            is_over: _is_over,
            has_found: _has_found,
            answer: _answer,
        } = self;
    }
}

/// The tokens of a range.
pub(crate) fn tokens_in(tokens: &[Token], range: Range) -> &[Token] {
    tokens.get(range.first..range.behind).unwrap_or(&[])
}

/// Where some tokens begin.
pub(crate) fn start_of(tokens: &[Token]) -> usize {
    match tokens.first() {
        None => 0,
        Some(token) => token.span.start,
    }
}

/// Where some tokens end.
pub(crate) fn end_of(tokens: &[Token]) -> usize {
    match tokens.iter().rev().find(|token| !is_border(token.kind)) {
        None => 0,
        Some(token) => token.span.start.saturating_add(token.span.len),
    }
}

/// The last name of a path.
fn last_name<'b>(bytes: &'b [u8], path: &[Token]) -> &'b [u8] {
    match path.last() {
        None => b"",
        Some(token) => name_text(bytes, token.span),
    }
}

/// Whether a path begins in the root of the crate.
fn is_of_root(bytes: &[u8], path: &[Token]) -> bool {
    match path {
        [first, colons, _name] => {
            let is_crate = match first.kind {
                TokenKind::DollarCrate(_) => true,
                _ => piece(bytes, first.span) == b"crate".as_slice(),
            };
            is_crate && colons.kind == TokenKind::Pair(b':', b':')
        }
        _ => false,
    }
}

impl<'f, 'o> Expander<'f, 'o> {
    /// Reads the definitions that are met among some tokens, in order.
    fn define_all(&mut self, tokens: &[Token], events: &[Event]) -> Result<(), AllocError> {
        for event in events.iter().rev() {
            if event.met == Met::Definition {
                self.define(tokens, *event)?;
            }
        }
        Ok(())
    }

    fn define(&mut self, tokens: &[Token], event: Event) -> Result<(), AllocError> {
        let home = Home {
            krate: 0,
            edition: self.manner.edition,
        };
        let name = tokens_in(tokens, event.path);
        let body = tokens_in(tokens, event.group);
        let number = self.definitions.len();
        if event.is_exported {
            let name = last_name(self.bytes.as_slice(), name);
            self.scopes.export(self.alloc, name, number)?;
        }
        if event.is_local {
            self.scopes.add_body(start_of(body), end_of(body))?;
        }
        self.definitions.push(Definition {
            rules: read_rules(self.alloc, home, self.bytes.as_slice(), body)?,
            at: start_of(name),
        })?;
        Ok(())
    }

    /// The level of tokens that were read as items.
    pub(crate) fn level(
        &mut self,
        tokens: Vec<Token>,
        read: &ReadItems,
        depth: u32,
    ) -> Result<Level, AllocError> {
        let events = read.events(self.alloc)?;
        let next = self.definitions.len();
        self.define_all(tokens.as_slice(), events.as_slice())?;
        Ok(Level {
            tokens,
            events,
            next,
            depth,
        })
    }

    pub(crate) fn read(&self, tokens: &[Token]) -> Result<ReadItems, AllocError> {
        let reading = Reading {
            edition: self.manner.edition,
            options: self.manner.options,
        };
        ReadItems::of(self.alloc, reading, self.bytes.as_slice(), tokens)
    }

    /// The macro that a path means: one in scope or, in the root of the crate, an exported one.
    fn meant(&self, path: &[Token]) -> Option<&Definition> {
        let bytes = self.bytes.as_slice();
        let name = last_name(bytes, path);
        let is_single = path.len() == 1;
        let number = if is_of_root(bytes, path)
            || is_single && self.scopes.is_local(start_of(path))
        {
            self.scopes.exported(name)?
        } else if is_single {
            self.scopes.in_scope(name)?
        } else {
            return None;
        };
        self.definitions.get(number)
    }

    /// What a definition makes of the tokens of a call, or why there is nothing.
    fn applied(
        &self,
        definition: &Definition,
        call: &[Token],
    ) -> Result<Result<Expansion, Fault>, AllocError> {
        let rules = definition.rules.rules();
        let limits = limits_of(rules);
        let made = expand(self.alloc, self.bytes.as_slice(), rules, call, limits)?;
        if made.tokens().len() > RESULT {
            return Ok(Err(Fault::new(TOO_GREAT)));
        }
        match made.fault() {
            None => Ok(Ok(made)),
            Some(fault) => {
                let (words, place) = call_fault(fault);
                let at = place.map(|place| place_of(call, place));
                Ok(Err(Fault {
                    words,
                    at,
                    is_last: false,
                }))
            }
        }
    }

    /// What a call makes, or why there is nothing.
    fn expansion(
        &self,
        level: &Level,
        event: Event,
    ) -> Result<Result<Expansion, Fault>, AllocError> {
        let Some(definition) = self.meant(tokens_in(level.tokens.as_slice(), event.path)) else {
            return Ok(Err(Fault::new(UNKNOWN)));
        };
        if let Some(fault) = definition.rules.fault() {
            return Ok(Err(Fault {
                words: rule_words(fault),
                at: Some(definition.at),
                is_last: false,
            }));
        }
        if level.depth >= self.limit {
            return Ok(Err(Fault::last(TOO_DEEP)));
        }
        if self.made > FILE {
            return Ok(Err(Fault::last(TOO_MANY)));
        }
        self.applied(definition, tokens_in(level.tokens.as_slice(), event.group))
    }
}

fn is_border(kind: TokenKind) -> bool {
    matches!(
        kind,
        TokenKind::FragmentOpen(_) | TokenKind::FragmentClose(_)
    )
}

/// Where the first token from a number on stands that is no border of a fragment, or the end of all.
pub(crate) fn place_of(tokens: &[Token], number: usize) -> usize {
    let behind = tokens.get(number..).unwrap_or(&[]);
    match behind.iter().find(|token| !is_border(token.kind)) {
        None => end_of(tokens),
        Some(token) => token.span.start,
    }
}

impl<'f, 'o> Expander<'f, 'o> {
    /// Tells what a call made, and reads that.
    fn enter(
        &mut self,
        level: &Level,
        event: Event,
        made: &Expansion,
    ) -> Result<Level, AllocError> {
        self.made = self.made.saturating_add(made.tokens().len());
        let read = self.read(made.tokens())?;
        let fault = self.item_fault(&read, made.tokens());
        if self.call.is_wanted {
            let items = self.item_rows(&read, made.tokens())?;
            let row = self.row(level, event, items, fault)?;
            self.add(row.as_str(), fault)?;
        }
        let tokens = Vec::from_slice(self.alloc, made.tokens())?;
        self.level(tokens, &read, level.depth.saturating_add(1))
    }

    /// Expands a call: what it makes, if it makes anything.
    fn call(&mut self, level: &Level, event: Event) -> Result<Option<Level>, AllocError> {
        if level.depth == 0 {
            let whole = Range {
                first: event.path.first,
                behind: event.behind,
            };
            let tokens = tokens_in(level.tokens.as_slice(), whole);
            self.call = Outermost {
                at: start_of(tokens),
                is_wanted: self.is_wanted(tokens),
            };
        }
        match self.expansion(level, event)? {
            Ok(made) => Ok(Some(self.enter(level, event, &made)?)),
            Err(fault) => {
                let row = self.row(level, event, Vec::new(self.alloc), Some(fault))?;
                self.add(row.as_str(), Some(fault))?;
                Ok(None)
            }
        }
    }

    /// Looks at what is met: what a call makes, if it is one.
    fn step(&mut self, level: &mut Level, event: Event) -> Result<Option<Level>, AllocError> {
        match event.met {
            Met::Call => return self.call(level, event),
            Met::Begin => self.scopes.begin_module()?,
            Met::End => self.scopes.end_module(),
            Met::Definition => {
                let name = tokens_in(level.tokens.as_slice(), event.path);
                let name = last_name(self.bytes.as_slice(), name);
                self.scopes.bind(self.alloc, name, level.next)?;
                level.next = level.next.saturating_add(1);
            }
        }
        Ok(None)
    }

    /// Looks at all that is met, and at what is met in the result of a call before what follows that.
    pub(crate) fn run(&mut self, outermost: Level) -> Result<(), AllocError> {
        let mut levels = Vec::new(self.alloc);
        levels.push(outermost)?;
        for _event in 0..u64::MAX {
            let Some(mut level) = levels.pop() else {
                break;
            };
            let Some(event) = level.events.pop() else {
                continue;
            };
            let inner = self.step(&mut level, event)?;
            if self.is_over {
                break;
            }
            if !level.events.is_empty() {
                levels.push(level)?;
            }
            if let Some(inner) = inner {
                levels.push(inner)?;
            }
        }
        Ok(())
    }

    pub(crate) fn into_answer(self) -> Expanded {
        let Expander {
            alloc: _alloc,
            manner: _manner,
            lines: _lines,
            bytes: _bytes,
            base: _base,
            definitions: _definitions,
            scopes: _scopes,
            limit: _limit,
            call: _call,
            made: _made,
            is_over: _is_over,
            has_found: _has_found,
            answer,
        } = self;
        answer
    }
}
