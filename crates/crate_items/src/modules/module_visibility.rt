//! Whom a visibility, as it is written in a module of a crate, shows what it stands before.
ghost use Rattle.std.specs.Prelude.{◌≡◌, IfOk, slice_get};
ghost use Rattle.crate_items.specs.ModuleVisibilities as spec;
ghost use Rattle.crate_items.specs.Modules.{as_name};
ghost use Rattle.crate_items.specs.declared.modules.module_visibility.Reach.TheVariants.{Start};

use crate::items::lexeme_names::{as_name, names_nothing};
use crate::modules::declared_module::DeclaredModule;
use dm_base::edition::Edition;
use item_tree::attributes::attribute_kind::lexemes_in;
use item_tree::items::visibility::RawVisibility;
use item_tree::lexer::lexeme::{Lexeme, LexemeKind};
use item_tree::lexer::span::{Span, name_text};
use item_tree::lexer::word::Word;
use std::alloc::{AllocError, Global};
use std::marker::Model;

/// Whom something is shown to.
#[derive(Clone, Copy, PartialEq, Eq, Debug)]
pub enum DeclaredVisibility {
    Public,
    /// The module of this number in the list of the crate, and those in it.
    Within(usize),
}

/// Where a path leads so far.
#[derive(Clone, Copy)]
pub(crate) enum Reach {
    Start,
    /// It begins with two colons.
    Global,
    /// To the module of this number, by `self` and `super` alone.
    Up(usize),
    /// To the module of this number.
    At(usize),
    Nowhere,
}

/// Where a path is read: the modules of the crate, the one that it stands in, the edition, and the text.
#[derive(Drop)]
pub(crate) struct Standpoint<'a> {
    pub(crate) modules: &'a [DeclaredModule],
    pub(crate) number: usize,
    pub(crate) edition: Edition,
    pub(crate) text: &'a [u8],
}

impl<'a> Model for Standpoint<'a> {
    ghost use Rattle.crate_items.specs.ModuleVisibilities.{Standpoint};

    ghost Value = { Standpoint };

    ghost view = { λ s. record {
      modules = s.modules.now;
      number = s.number;
      edition = s.edition;
      text = s.text.now;
    } };
}

/// The module that a module is declared in.
fn parent_of(modules: &[DeclaredModule], number: usize) -> Option<usize>
    ensures { result ≡ spec.parent_of modules.now number }
{
    match modules.get(number) {
        None => None,
        Some(module) => match &module.declaration {
            None => None,
            Some(declaration) => Some(declaration.parent),
        },
    }
}

/// Whether a module is declared under a name.
fn is_named(modules: &[DeclaredModule], number: usize, name: &[u8]) -> bool
    ensures { result ≡ spec.is_named name.now (spec.declaration_of (slice_get modules.now number)) }
{
    match modules.get(number) {
        None => false,
        Some(module) => match &module.declaration {
            None => false,
            Some(declaration) => declaration.name.as_str().as_bytes() == name,
        },
    }
}

/// The module on the way from one up to an outer one, right below that.
fn below(modules: &[DeclaredModule], outer: usize, number: usize) -> Option<usize>
    ensures { result ≡ spec.below number modules.now outer number (spec.parent_of modules.now number) }
{
    let mut around = number;
    for _ in 0..number {
        match parent_of(modules, around) {
            None => return None,
            Some(parent) if parent == outer => return Some(around),
            Some(parent) => around = parent,
        }
    }
    match parent_of(modules, around) {
        Some(parent) if parent == outer => Some(around),
        _ => None,
    }
}

fn up_to(parent: Option<usize>) -> Reach
    ensures { result ≡ spec.up_to parent }
{
    match parent {
        None => Reach::Nowhere,
        Some(parent) => Reach::Up(parent),
    }
}

fn is_colon(kind: LexemeKind) -> bool
    ensures { result ≡ spec.is_colon kind }
{
    matches!(kind, LexemeKind::Mark(b':'))
}

/// Where a path leads behind a colon.
fn behind_colon(reach: Reach) -> Reach
    ensures { result ≡ spec.behind_colon reach }
{
    match reach {
        Reach::Start => Reach::Global,
        _ => reach,
    }
}

fn within(reach: Reach) -> Option<DeclaredVisibility>
    ensures { result ≡ spec.within reach }
{
    match reach {
        Reach::Up(number) | Reach::At(number) => Some(DeclaredVisibility::Within(number)),
        Reach::Start | Reach::Global | Reach::Nowhere => None,
    }
}

impl<'a> Standpoint<'a> {
    /// Where a name leads down from a module.
    fn down(&self, outer: usize, name: &[u8]) -> Reach
        ensures { result ≡ spec.down self.now outer name.now }
    {
        match below(self.modules, outer, self.number) {
            None => Reach::Nowhere,
            Some(inner) => {
                if is_named(self.modules, inner, name) {
                    Reach::At(inner)
                } else {
                    Reach::Nowhere
                }
            }
        }
    }

    /// Where a word leads down from a module, if it is a name.
    fn down_word(&self, outer: usize, word: Word, name: &[u8]) -> Reach
        ensures { result ≡ spec.down_word self.now outer word name.now }
    {
        if names_nothing(word) {
            Reach::Nowhere
        } else {
            self.down(outer, name)
        }
    }

    /// Where a name leads that a path begins with.
    fn first_name(&self, edition: Edition, word: Word, name: &[u8]) -> Reach
        ensures { result ≡ spec.first_name self.now edition word name.now }
    {
        match edition {
            Edition::Edition2015 => self.down_word(0, word, name),
            _ => Reach::Nowhere,
        }
    }

    /// Where the first word of a path leads.
    fn first_word(&self, word: Word, name: &[u8]) -> Reach
        ensures { result ≡ spec.first_word self.now word name.now }
    {
        match word {
            Word::Crate => Reach::At(0),
            Word::SelfValue => Reach::Up(self.number),
            Word::Super => up_to(parent_of(self.modules, self.number)),
            _ => self.first_name(self.edition, word, name),
        }
    }

    /// Where a word leads behind `self` and `super`s.
    fn upper_word(&self, at: usize, word: Word, name: &[u8]) -> Reach
        ensures { result ≡ spec.upper_word self.now at word name.now }
    {
        match word {
            Word::Super => up_to(parent_of(self.modules, at)),
            _ => self.down_word(at, word, name),
        }
    }

    fn word_behind(&self, reach: Reach, word: Word, name: &[u8]) -> Reach
        ensures { result ≡ spec.word_behind self.now reach word name.now }
    {
        match reach {
            Reach::Start => self.first_word(word, name),
            Reach::Global => self.first_name(self.edition, word, name),
            Reach::Up(number) => self.upper_word(number, word, name),
            Reach::At(number) => self.down_word(number, word, name),
            Reach::Nowhere => Reach::Nowhere,
        }
    }

    /// Where a path leads behind one more of its words, which is a name in Normalization Form C, as modules have it.
    fn behind_word(
        &self,
        alloc: Global,
        reach: Reach,
        word: Word,
        lexeme: Lexeme,
    ) -> Result<Reach, AllocError>
        ensures { IfOk result (λ led. led ≡
            spec.behind_word self.now reach word (as_name (spec.lexeme_text self.now lexeme))) }
    {
        let (start, len) = (lexeme.start, lexeme.len);
        match as_name(alloc, name_text(self.text, Span { start, len }))? {
            None => Ok(Reach::Nowhere),
            Some(name) => Ok(self.word_behind(reach, word, name.as_str().as_bytes())),
        }
    }

    /// Where a path leads behind one more of its lexemes.
    fn behind_lexeme(
        &self,
        alloc: Global,
        reach: Reach,
        lexeme: Lexeme,
    ) -> Result<Reach, AllocError>
        ensures { IfOk result (λ led. led ≡ spec.behind_lexeme self.now reach lexeme) }
    {
        match lexeme.kind {
            LexemeKind::Word(word) => self.behind_word(alloc, reach, word, lexeme),
            kind => {
                if is_colon(kind) {
                    Ok(behind_colon(reach))
                } else {
                    Ok(Reach::Nowhere)
                }
            }
        }
    }

    /// Where a path leads.
    fn reached(&self, alloc: Global, path: &[Lexeme]) -> Result<Reach, AllocError>
        ensures { IfOk result (λ led. led ≡ spec.reached self.now Start path.now) }
    {
        let mut reach = Reach::Start;
        for lexeme in path {
            reach = self.behind_lexeme(alloc, reach, *lexeme)?;
        }
        Ok(reach)
    }

    /// Whom a visibility of these lexemes shows what stands in the module; none where it leads to no module around.
    pub(crate) fn shown(
        &self,
        alloc: Global,
        lexemes: &[Lexeme],
        written: RawVisibility,
    ) -> Result<Option<DeclaredVisibility>, AllocError>
        ensures { IfOk result (λ seen. seen ≡ spec.shown self.now lexemes.now written) }
    {
        match written {
            RawVisibility::Public => Ok(Some(DeclaredVisibility::Public)),
            RawVisibility::PubCrate => Ok(Some(DeclaredVisibility::Within(0))),
            RawVisibility::Inherited | RawVisibility::PubSelf => {
                Ok(Some(DeclaredVisibility::Within(self.number)))
            }
            RawVisibility::PubSuper => Ok(within(up_to(parent_of(self.modules, self.number)))),
            RawVisibility::In(path) => {
                let reach = self.reached(alloc, lexemes_in(lexemes, path))?;
                Ok(within(reach))
            }
            RawVisibility::Error => Ok(None),
        }
    }
}
