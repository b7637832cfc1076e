//! Where the attributes of a file are, with those in `cfg_attr` and `unsafe` taken out, without recursion.
ghost use Rattle.std.specs.Prelude.{◌≡◌, ◌<◌, ◌^◌, IfOk, OnOk};
ghost use Rattle.item_tree.specs.AttributeReading as spec;

use crate::items::Range;
use crate::lexer::lexeme::{Delimiter, Lexeme, LexemeKind};
use crate::lexer::word::Word;
use std::alloc::{AllocError, Global};
use std::marker::Model;

/// An attribute, by the numbers of its lexemes.
#[derive(Clone, Copy, PartialEq, Eq, Debug)]
pub struct AttributePlace {
    /// Its name, if that is one word; else `Word::Other`.
    pub name: Word,
    /// Whether it stands in `#![..]`.
    pub inner: bool,
    /// The number of the condition that it is under.
    pub condition: Option<usize>,
    /// What stands behind its first lexeme.
    pub input: Range,
}

/// The predicate of a `cfg_attr`, by the numbers of its lexemes.
#[derive(Clone, Copy, PartialEq, Eq, Debug)]
pub struct ConditionPlace {
    /// The condition that the `cfg_attr` is under itself.
    pub outer: Option<usize>,
    pub predicate: Range,
}

/// What is open in an attribute.
#[derive(Clone, Copy)]
pub enum AttributeLevel {
    /// Brackets that belong to an attribute or a predicate.
    Group,
    /// Those of `cfg_attr` or `unsafe`, which stand under this condition.
    Wrapped(Option<usize>),
}

/// What is being read.
#[derive(Clone, Copy)]
pub enum AttributePhase {
    /// What is no attribute.
    Outside,
    /// Behind a `#`.
    Hash,
    /// Behind `#!`.
    Bang,
    /// Where an attribute begins.
    Start,
    /// Behind its first word, where the lexeme of this number comes next.
    Named(Word, usize),
    /// In what stands behind its first lexeme, from this number on.
    Input(Word, usize),
    /// In a predicate from the lexeme of this number on.
    Predicate(usize),
    /// Behind the parenthesis that closes `cfg_attr` or `unsafe`.
    Behind,
}

/// The attributes of a file.
#[derive(Drop)]
pub struct AttributePlaces {
    pub attributes: Vec<AttributePlace>,
    pub conditions: Vec<ConditionPlace>,
}

/// A file's attributes, so far as they are read.
#[derive(Drop)]
pub(crate) struct AttributeReader {
    attributes: Vec<AttributePlace>,
    conditions: Vec<ConditionPlace>,
    levels: Vec<AttributeLevel>,
    condition: Option<usize>,
    inner: bool,
    phase: AttributePhase,
}

impl Model for AttributeReader {
    ghost use Rattle.item_tree.specs.AttributeReading.{Reading};

    ghost Value = { Reading };

    ghost view = { λ r. record {
      attributes = r.attributes.items;
      conditions = r.conditions.items;
      levels = r.levels.items;
      condition = r.condition;
      inner = r.inner;
      phase = r.phase;
    } };
}

impl AttributeReader {
    fn new(alloc: Global) -> AttributeReader
        ensures { result ≡ spec.start }
    {
        AttributeReader {
            attributes: Vec::new(alloc),
            conditions: Vec::new(alloc),
            levels: Vec::new(alloc),
            condition: None,
            inner: false,
            phase: AttributePhase::Outside,
        }
    }

    /// Whether the innermost brackets belong to an attribute or a predicate.
    fn is_in_group(&self) -> bool
        ensures { result ≡ spec.is_in_group self.now }
    {
        matches!(self.levels.last(), Some(AttributeLevel::Group))
    }

    /// An attribute ends before a lexeme.
    fn finish(&mut self, end: usize) -> Result<(), AllocError>
        ensures { OnOk result (self.new ≡ spec.finished end self.old) }
    {
        match self.phase {
            AttributePhase::Named(name, start) | AttributePhase::Input(name, start) => {
                self.attributes.push(AttributePlace {
                    name,
                    inner: self.inner,
                    condition: self.condition,
                    input: Range {
                        first: start,
                        behind: end,
                    },
                })?;
                Ok(())
            }
            _ => Ok(()),
        }
    }

    /// Brackets close.
    fn close(&mut self)
        ensures { self.new ≡ spec.closed self.old }
    {
        match self.levels.pop() {
            None => {
                self.condition = None;
                self.phase = AttributePhase::Outside;
            }
            Some(AttributeLevel::Group) => {}
            Some(AttributeLevel::Wrapped(outer)) => {
                self.condition = outer;
                self.phase = AttributePhase::Behind;
            }
        }
    }

    fn push(&mut self, level: AttributeLevel, phase: AttributePhase) -> Result<(), AllocError>
        ensures { OnOk result (self.new ≡ spec.opened level phase self.old) }
    {
        self.levels.push(level)?;
        self.phase = phase;
        Ok(())
    }

    /// A predicate from a lexeme on ends before the comma of a number.
    fn end_predicate(&mut self, start: usize, end: usize) -> Result<(), AllocError>
        ensures { OnOk result (self.new ≡ spec.conditioned start end self.old) }
    {
        let number = self.conditions.len();
        let outer = self.condition;
        let predicate = Range {
            first: start,
            behind: end,
        };
        self.conditions.push(ConditionPlace { outer, predicate })?;
        self.condition = Some(number);
        self.phase = AttributePhase::Start;
        Ok(())
    }

    /// A lexeme where no attribute is.
    fn outside(&mut self, kind: LexemeKind)
        ensures { self.new ≡ spec.outside kind self.old }
    {
        self.phase = match kind {
            LexemeKind::Mark(b'#') => AttributePhase::Hash,
            _ => AttributePhase::Outside,
        };
    }

    /// A lexeme behind `#` or `#!`.
    fn behind_hash(&mut self, inner: bool, kind: LexemeKind)
        ensures { self.new ≡ spec.behind_hash inner kind self.old }
    {
        match kind {
            LexemeKind::Open(Delimiter::Bracket) => {
                self.inner = inner;
                self.phase = AttributePhase::Start;
            }
            LexemeKind::Mark(b'!') if !inner => self.phase = AttributePhase::Bang,
            _ => self.outside(kind),
        }
    }

    /// A lexeme where an attribute begins.
    fn start(&mut self, at: usize, kind: LexemeKind) -> Result<(), AllocError>
        requires { at < 2 ^ 63 }
        ensures { OnOk result (self.new ≡ spec.started at kind self.old) }
    {
        match kind {
            LexemeKind::Word(name) => {
                self.phase = AttributePhase::Named(name, at + 1);
                Ok(())
            }
            LexemeKind::Open(_) => {
                self.push(
                    AttributeLevel::Group,
                    AttributePhase::Input(Word::Other, at + 1),
                )
            }
            LexemeKind::Close(_) => {
                self.close();
                Ok(())
            }
            LexemeKind::Mark(b',') => Ok(()),
            _ => {
                self.phase = AttributePhase::Input(Word::Other, at + 1);
                Ok(())
            }
        }
    }

    /// A parenthesis behind the first word of an attribute.
    fn open_behind(&mut self, name: Word, start: usize, at: usize) -> Result<(), AllocError>
        requires { at < 2 ^ 63 }
        ensures { OnOk result (self.new ≡ spec.opened_behind name start at self.old) }
    {
        let wrapped = AttributeLevel::Wrapped(self.condition);
        match name {
            Word::CfgAttr => self.push(wrapped, AttributePhase::Predicate(at + 1)),
            Word::Unsafe => self.push(wrapped, AttributePhase::Start),
            _ => self.push(AttributeLevel::Group, AttributePhase::Input(name, start)),
        }
    }

    /// A lexeme behind the first word of an attribute.
    fn behind_name(
        &mut self,
        name: Word,
        start: usize,
        at: usize,
        kind: LexemeKind,
    ) -> Result<(), AllocError>
        requires { at < 2 ^ 63 }
        ensures { OnOk result (self.new ≡ spec.behind_name name start at kind self.old) }
    {
        match kind {
            LexemeKind::Open(Delimiter::Parenthesis) => self.open_behind(name, start, at),
            LexemeKind::Mark(b':') => {
                self.phase = AttributePhase::Input(Word::Other, start);
                Ok(())
            }
            _ => {
                self.phase = AttributePhase::Input(name, start);
                self.input(at, kind)
            }
        }
    }

    /// A lexeme in an attribute.
    fn input(&mut self, at: usize, kind: LexemeKind) -> Result<(), AllocError>
        ensures { OnOk result (self.new ≡ spec.in_input at kind self.old) }
    {
        match kind {
            LexemeKind::Open(_) => {
                let phase = self.phase;
                self.push(AttributeLevel::Group, phase)
            }
            LexemeKind::Close(_) => self.close_input(at),
            LexemeKind::Mark(b',') => self.end_input(at),
            _ => Ok(()),
        }
    }

    /// Brackets close in an attribute or behind it.
    fn close_input(&mut self, at: usize) -> Result<(), AllocError>
        ensures { OnOk result (self.new ≡ spec.closed_input at self.old) }
    {
        if !self.is_in_group() {
            self.finish(at)?;
        }
        self.close();
        Ok(())
    }

    /// A comma in an attribute or behind it.
    fn end_input(&mut self, at: usize) -> Result<(), AllocError>
        ensures { OnOk result (self.new ≡ spec.ended_input at self.old) }
    {
        if self.is_in_group() {
            return Ok(());
        }
        self.finish(at)?;
        self.phase = AttributePhase::Start;
        Ok(())
    }

    /// A lexeme in a predicate.
    fn predicate(&mut self, start: usize, at: usize, kind: LexemeKind) -> Result<(), AllocError>
        ensures { OnOk result (self.new ≡ spec.in_predicate start at kind self.old) }
    {
        match kind {
            LexemeKind::Open(_) => {
                self.push(AttributeLevel::Group, AttributePhase::Predicate(start))
            }
            LexemeKind::Close(_) => {
                self.close();
                Ok(())
            }
            LexemeKind::Mark(b',') if !self.is_in_group() => self.end_predicate(start, at),
            _ => Ok(()),
        }
    }

    /// A lexeme behind the parenthesis that closes `cfg_attr` or `unsafe`.
    fn behind(&mut self, kind: LexemeKind) -> Result<(), AllocError>
        ensures { OnOk result (self.new ≡ spec.behind kind self.old) }
    {
        match kind {
            LexemeKind::Open(_) => self.push(AttributeLevel::Group, AttributePhase::Behind),
            LexemeKind::Close(_) => {
                self.close();
                Ok(())
            }
            LexemeKind::Mark(b',') if !self.is_in_group() => {
                self.phase = AttributePhase::Start;
                Ok(())
            }
            _ => Ok(()),
        }
    }

    /// The lexeme of a number.
    fn read(&mut self, at: usize, kind: LexemeKind) -> Result<(), AllocError>
        requires { at < 2 ^ 63 }
        ensures { OnOk result (self.new ≡ spec.step at kind self.old) }
    {
        match self.phase {
            AttributePhase::Outside => {
                self.outside(kind);
                Ok(())
            }
            AttributePhase::Hash => {
                self.behind_hash(false, kind);
                Ok(())
            }
            AttributePhase::Bang => {
                self.behind_hash(true, kind);
                Ok(())
            }
            AttributePhase::Start => self.start(at, kind),
            AttributePhase::Named(name, start) => self.behind_name(name, start, at, kind),
            AttributePhase::Input(..) => self.input(at, kind),
            AttributePhase::Predicate(start) => self.predicate(start, at, kind),
            AttributePhase::Behind => self.behind(kind),
        }
    }

    /// What is found.
    fn end(self) -> AttributePlaces
        ensures attributes { result.attributes.items ≡ self.attributes }
        ensures conditions { result.conditions.items ≡ self.conditions }
    {
        AttributePlaces {
            attributes: self.attributes,
            conditions: self.conditions,
        }
    }
}

/// The attributes of a file, in order; those in `cfg_attr` and `unsafe` are taken out. An attribute that is not closed
/// reaches to the end. The time is linear in the lexemes.
///
/// # Errors
///
/// Fails only where memory runs out.
pub fn find_attributes(alloc: Global, lexemes: &[Lexeme]) -> Result<AttributePlaces, AllocError>
    ensures attributes { IfOk result
        (λ p. p.attributes.items ≡ (spec.reading lexemes.now).attributes) }
    ensures conditions { IfOk result
        (λ p. p.conditions.items ≡ (spec.reading lexemes.now).conditions) }
{
    let mut reader = AttributeReader::new(alloc);
    for (at, lexeme) in lexemes.iter().enumerate() {
        reader.read(at, lexeme.kind)?;
    }
    reader.finish(lexemes.len())?;
    Ok(reader.end())
}
