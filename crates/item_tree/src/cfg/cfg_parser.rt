//! Predicates of `cfg` from lexemes, without recursion.
ghost use Rattle.std.specs.Prelude.{length, Option, Ok, ◌≡◌, ◌++◌, IfOk, OnOk, option_map, option_to_list};
ghost use Rattle.item_tree.specs.Cfg.{flat};
ghost use Rattle.item_tree.specs.CfgReading as spec;
ghost use Rattle.item_tree.specs.CfgGrammar.{Written, IsPredicate, MayBeComma, lexemes_of, expr_of};

use crate::cfg::CfgNode;
use crate::lexer::lexeme::{Delimiter, Lexeme, LexemeKind};
use crate::lexer::span::{Span, piece};
use crate::lexer::word::Word;
use std::alloc::{AllocError, Global};
use std::marker::Model;

/// What a list of predicates is.
#[derive(Clone, Copy)]
pub enum CfgList {
    /// No list, but the whole predicate.
    Whole,
    Not,
    All,
    Any,
}

/// A list, so far as it is read.
#[derive(Clone, Copy)]
pub struct CfgLevel {
    pub list: CfgList,
    /// Whether a predicate of it has begun.
    pub begun: bool,
}

/// What may come next.
#[derive(Clone, Copy)]
pub enum CfgPhase {
    /// A predicate.
    Begin,
    /// What goes on a name: a list, a value, or what ends a predicate.
    Named(Word, Span),
    /// The value of a name.
    Valued(Span),
    /// What ends a predicate.
    Done,
}

/// A predicate, so far as it is read.
#[derive(Drop)]
pub(crate) struct CfgReader {
    nodes: Vec<CfgNode>,
    outer: Vec<CfgLevel>,
    level: CfgLevel,
    phase: CfgPhase,
}

impl Model for CfgReader {
    ghost use Rattle.item_tree.specs.CfgReading.{Reading};

    ghost Value = { Reading };

    ghost view = { λ r. record {
      nodes = r.nodes.items;
      outer = r.outer.items;
      level = r.level;
      phase = r.phase;
    } };
}

/// The lexeme's place.
pub(crate) fn span_of(lexeme: Lexeme) -> Span
    ensures { result ≡ spec.span_of lexeme }
{
    Span {
        start: lexeme.start,
        len: lexeme.len,
    }
}

/// The list that a word before a parenthesis opens.
fn list_of(word: Word) -> Option<CfgList>
    ensures { result ≡ spec.list_of word }
{
    match word {
        Word::Not => Some(CfgList::Not),
        Word::All => Some(CfgList::All),
        Word::Any => Some(CfgList::Any),
        _ => None,
    }
}

/// The node of a word alone.
fn leaf(word: Word, span: Span) -> CfgNode
    ensures { result ≡ spec.leaf word span }
{
    match word {
        Word::True => CfgNode::True,
        Word::False => CfgNode::False,
        _ => CfgNode::Flag(span),
    }
}

/// The node between two predicates of a list, where it may have two.
fn between(list: CfgList, depth: usize) -> Option<CfgNode>
    ensures { result ≡ spec.between list depth }
{
    match list {
        CfgList::Whole | CfgList::Not => None,
        CfgList::All => Some(CfgNode::All(depth)),
        CfgList::Any => Some(CfgNode::Any(depth)),
    }
}

/// What a list is that has no predicate, where it may have none.
fn of_none(list: CfgList) -> Option<CfgNode>
    ensures { result ≡ spec.of_none list }
{
    match list {
        CfgList::Whole | CfgList::Not => None,
        CfgList::All => Some(CfgNode::True),
        CfgList::Any => Some(CfgNode::False),
    }
}

/// A predicate that is read.
#[derive(Drop)]
pub enum CfgParse {
    /// Its nodes, in one list.
    Predicate(Vec<CfgNode>),
    /// The number of the lexeme that may not stand there; it is the number of lexemes where there are too few.
    Malformed(usize),
}

/// The node at the end of a list, where it may end there, and where it has one.
fn ending(level: CfgLevel, depth: usize) -> Option<Option<CfgNode>>
    ensures { option_map option_to_list result ≡ spec.ending level depth }
{
    if !level.begun {
        return match of_none(level.list) {
            None => None,
            Some(node) => Some(Some(node)),
        };
    }
    match level.list {
        CfgList::Whole => None,
        CfgList::Not => Some(Some(CfgNode::Not(depth))),
        CfgList::All | CfgList::Any => Some(None),
    }
}

/// Whether a string is of text, and not of bytes or of C.
pub(crate) fn is_text(text: &[u8], lexeme: Lexeme) -> bool
    ensures { result ≡ spec.is_text text.now lexeme }
{
    match piece(text, span_of(lexeme)).first() {
        None => false,
        Some(first) => *first == b'"' || *first == b'r',
    }
}

fn may_have_value(word: Word) -> bool
    ensures { result ≡ spec.may_have_value word }
{
    !matches!(word, Word::True | Word::False)
}

impl CfgReader {
    fn new(alloc: Global) -> CfgReader
        ensures { result ≡ spec.start }
    {
        CfgReader {
            nodes: Vec::new(alloc),
            outer: Vec::new(alloc),
            level: CfgLevel {
                list: CfgList::Whole,
                begun: false,
            },
            phase: CfgPhase::Begin,
        }
    }

    fn depth(&self) -> usize
        ensures { result ≡ spec.depth self.now }
    {
        self.outer.len() + 1
    }

    /// A name that neither a list nor a value follows.
    fn flush(&mut self) -> Result<(), AllocError>
        ensures { OnOk result (self.new ≡ spec.flushed self.old) }
    {
        match self.phase {
            CfgPhase::Named(word, span) => {
                self.nodes.push(leaf(word, span))?;
                self.phase = CfgPhase::Done;
                Ok(())
            }
            CfgPhase::Begin | CfgPhase::Valued(_) | CfgPhase::Done => Ok(()),
        }
    }

    /// A predicate begins.
    fn begin(&mut self) -> Result<bool, AllocError>
        ensures { IfOk result (λ read. spec.answer read self.new ≡ spec.begun self.old) }
    {
        if !self.level.begun {
            self.level.begun = true;
            return Ok(true);
        }
        match between(self.level.list, self.depth()) {
            None => Ok(false),
            Some(node) => {
                self.nodes.push(node)?;
                Ok(true)
            }
        }
    }

    /// A predicate begins with a word.
    fn name(&mut self, word: Word, span: Span) -> Result<bool, AllocError>
        ensures { IfOk result (λ read. spec.answer read self.new ≡ spec.named word span self.old) }
    {
        if !self.begin()? {
            return Ok(false);
        }
        self.phase = CfgPhase::Named(word, span);
        Ok(true)
    }

    /// A list opens behind a word.
    fn open(&mut self, word: Word) -> Result<bool, AllocError>
        ensures { IfOk result (λ read. spec.answer read self.new ≡ spec.opened word self.old) }
    {
        match list_of(word) {
            None => Ok(false),
            Some(list) => {
                self.outer.push(self.level)?;
                self.level = CfgLevel { list, begun: false };
                self.phase = CfgPhase::Begin;
                Ok(true)
            }
        }
    }

    fn add(&mut self, node: Option<CfgNode>) -> Result<(), AllocError>
        ensures { OnOk result
            (self.new ≡ spec.with_nodes (self.old.nodes ++ option_to_list node) self.old) }
    {
        match node {
            None => Ok(()),
            Some(node) => {
                self.nodes.push(node)?;
                Ok(())
            }
        }
    }

    /// The list around the innermost one goes on.
    fn pop(&mut self) -> bool
        ensures { spec.answer result self.new ≡ spec.popped self.old }
    {
        match self.outer.pop() {
            None => false,
            Some(level) => {
                self.level = level;
                self.phase = CfgPhase::Done;
                true
            }
        }
    }

    /// The innermost list ends.
    fn close(&mut self) -> Result<bool, AllocError>
        ensures { IfOk result (λ read. spec.answer read self.new ≡ spec.closed self.old) }
    {
        match ending(self.level, self.depth()) {
            None => Ok(false),
            Some(node) => {
                self.add(node)?;
                Ok(self.pop())
            }
        }
    }

    /// What comes behind a predicate.
    fn behind(&mut self, kind: LexemeKind) -> Result<bool, AllocError>
        ensures { IfOk result (λ read. spec.answer read self.new ≡ spec.behind kind self.old) }
    {
        match kind {
            LexemeKind::Mark(b',') => {
                self.phase = CfgPhase::Begin;
                Ok(true)
            }
            LexemeKind::Close(Delimiter::Parenthesis) => self.close(),
            _ => Ok(false),
        }
    }

    /// What comes behind a name.
    fn behind_name(&mut self, word: Word, name: Span, kind: LexemeKind) -> Result<bool, AllocError>
        ensures { IfOk result
            (λ read. spec.answer read self.new ≡ spec.behind_name word name kind self.old) }
    {
        match kind {
            LexemeKind::Open(Delimiter::Parenthesis) => self.open(word),
            LexemeKind::Mark(b'=') if may_have_value(word) => {
                self.phase = CfgPhase::Valued(name);
                Ok(true)
            }
            _ => {
                self.flush()?;
                self.behind(kind)
            }
        }
    }

    /// The value of a name.
    fn value(&mut self, text: &[u8], key: Span, lexeme: Lexeme) -> Result<bool, AllocError>
        ensures { IfOk result
            (λ read. spec.answer read self.new ≡
            spec.value_of text.now key lexeme lexeme.kind self.old) }
    {
        match lexeme.kind {
            LexemeKind::Str if is_text(text, lexeme) => {
                let value = span_of(lexeme);
                self.nodes.push(CfgNode::KeyValue { key, value })?;
                self.phase = CfgPhase::Done;
                Ok(true)
            }
            _ => Ok(false),
        }
    }

    /// What comes where a predicate may begin.
    fn at_begin(&mut self, lexeme: Lexeme) -> Result<bool, AllocError>
        ensures { IfOk result
            (λ read. spec.answer read self.new ≡ spec.at_begin lexeme lexeme.kind self.old) }
    {
        match lexeme.kind {
            LexemeKind::Word(word) => self.name(word, span_of(lexeme)),
            LexemeKind::Close(Delimiter::Parenthesis) => self.close(),
            _ => Ok(false),
        }
    }

    /// One more lexeme; tells whether it may come.
    fn read(&mut self, text: &[u8], lexeme: Lexeme) -> Result<bool, AllocError>
        ensures { IfOk result
            (λ read. spec.answer read self.new ≡ spec.step text.now lexeme self.old) }
    {
        match self.phase {
            CfgPhase::Begin => self.at_begin(lexeme),
            CfgPhase::Named(word, name) => self.behind_name(word, name, lexeme.kind),
            CfgPhase::Valued(key) => self.value(text, key, lexeme),
            CfgPhase::Done => self.behind(lexeme.kind),
        }
    }

    fn is_whole(&self) -> bool
        ensures { result ≡ spec.is_whole self.now }
    {
        if self.outer.len() != 0 {
            return false;
        }
        match self.phase {
            CfgPhase::Done => true,
            CfgPhase::Begin => self.level.begun,
            CfgPhase::Named(..) | CfgPhase::Valued(_) => false,
        }
    }

    /// What is read of so many lexemes.
    fn end(self, count: usize) -> CfgParse
        ensures exact { spec.parsed result ≡ spec.end_of count self }
        ensures in_range { spec.IsWithin count result }
    {
        if !self.is_whole() {
            return CfgParse::Malformed(count);
        }
        CfgParse::Predicate(self.nodes)
    }
}

/// The predicate that the lexemes are, all of them.
fn read_all(alloc: Global, text: &[u8], lexemes: &[Lexeme]) -> Result<CfgParse, AllocError>
    ensures exact { IfOk result (λ parse. spec.parsed parse ≡ spec.reading text.now lexemes.now) }
    ensures in_range { IfOk result (spec.IsWithin (length lexemes.now)) }
{
    let mut reader = CfgReader::new(alloc);
    for (i, lexeme) in lexemes.iter().enumerate() {
        if !reader.read(text, *lexeme)? {
            return Ok(CfgParse::Malformed(i));
        }
    }
    reader.flush()?;
    Ok(reader.end(lexemes.len()))
}

/// The predicate that the lexemes are, all of them, as what stands between the parentheses of `cfg`. A comma may
/// follow it. The time is linear in the lexemes.
///
/// # Errors
///
/// Fails only where memory runs out.
pub fn parse_cfg(alloc: Global, text: &[u8], lexemes: &[Lexeme]) -> Result<CfgParse, AllocError>
    ensures exact { IfOk result (λ parse. spec.parsed parse ≡ spec.reading text.now lexemes.now) }
    ensures in_range { IfOk result (spec.IsWithin (length lexemes.now)) }
    ensures written { IfOk result
        (λ parse. (p : Written) (m : Option Lexeme) → IsPredicate text.now p → MayBeComma m →
        lexemes.now ≡ lexemes_of p ++ option_to_list m →
        spec.parsed parse ≡ Ok (flat (expr_of p) 1)) }
{
    let parse = read_all(alloc, text, lexemes)?;
    Ok(parse)
}
