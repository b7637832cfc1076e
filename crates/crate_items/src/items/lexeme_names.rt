//! What lexemes name.
ghost use Rattle.std.specs.Prelude.{◌≡◌, ◌++◌, IfOk, OnOk};
ghost use Rattle.std.specs.Char.{is_ascii};
ghost use Rattle.std.specs.List.{flat_map, list_all};
ghost use Rattle.crate_items.specs.LexemeNames as spec;
ghost use Rattle.crate_items.specs.Modules as names;

use dm_base::name::Name;
use item_tree::lexer::lexeme::{Lexeme, LexemeKind};
use item_tree::lexer::span::{Span, name_text};
use item_tree::lexer::word::Word;
use std::alloc::{AllocError, Global};
use unicode_normalization::to_nfc;

fn is_plain(bytes: &[u8]) -> bool
    ensures { result ≡ list_all is_ascii bytes.now }
{
    bytes.iter().all(|byte| byte.is_ascii())
}

/// The name that a text is: in NFC, as ASCII is.
fn normalized(alloc: Global, text: &str) -> Result<Name, AllocError>
    ensures { IfOk result (λ name. name ≡ names.normalized text.now) }
{
    if is_plain(text.as_bytes()) {
        Name::new(alloc, text)
    } else {
        let composed = to_nfc(alloc, text)?;
        let name = Name::new(alloc, composed.as_str())?;
        Ok(name)
    }
}

/// A name of these bytes, if they are text.
pub(crate) fn as_name(alloc: Global, bytes: &[u8]) -> Result<Option<Name>, AllocError>
    ensures { IfOk result (λ name. name ≡ names.as_name bytes.now) }
{
    match std::str::from_utf8(bytes) {
        Err(_) => Ok(None),
        Ok(text) => {
            let name = normalized(alloc, text)?;
            Ok(Some(name))
        }
    }
}

/// Whether a word is one that names nothing: `_`, and those that begin paths.
pub(crate) fn names_nothing(word: Word) -> bool
    ensures { result ≡ spec.names_nothing word }
{
    matches!(
        word,
        Word::Underscore | Word::SelfValue | Word::SelfType | Word::Super | Word::Crate
    )
}

fn is_named(kind: LexemeKind) -> bool
    ensures { result ≡ spec.is_named kind }
{
    match kind {
        LexemeKind::Word(word) => !names_nothing(word),
        _ => false,
    }
}

/// What a lexeme names.
pub(crate) fn lexeme_name(
    alloc: Global,
    text: &[u8],
    lexeme: Lexeme,
) -> Result<Option<Name>, AllocError>
    ensures { IfOk result (λ name. name ≡ spec.lexeme_name text.now lexeme) }
{
    if is_named(lexeme.kind) {
        let (start, len) = (lexeme.start, lexeme.len);
        as_name(alloc, name_text(text, Span { start, len }))
    } else {
        Ok(None)
    }
}

/// What the lexeme at a place names.
pub(crate) fn name_at(
    alloc: Global,
    text: &[u8],
    lexemes: &[Lexeme],
    place: usize,
) -> Result<Option<Name>, AllocError>
    ensures { IfOk result (λ name. name ≡ spec.name_at text.now lexemes.now place) }
{
    match lexemes.get(place) {
        None => Ok(None),
        Some(lexeme) => lexeme_name(alloc, text, *lexeme),
    }
}

/// The kind of the lexeme at a place; `Error` past the last.
pub(crate) fn kind_at(lexemes: &[Lexeme], place: usize) -> LexemeKind
    ensures { result ≡ spec.kind_at lexemes.now place }
{
    match lexemes.get(place) {
        None => LexemeKind::Error,
        Some(lexeme) => lexeme.kind,
    }
}

/// Adds a name, if it is one.
pub(crate) fn push_name(names: &mut Vec<Name>, name: Option<Name>) -> Result<(), AllocError>
    ensures { OnOk result (names.new.items ≡ names.old.items ++ spec.listed name) }
{
    match name {
        None => Ok(()),
        Some(name) => {
            names.push(name)?;
            Ok(())
        }
    }
}

/// The names among some lexemes.
pub(crate) fn names_among(
    alloc: Global,
    text: &[u8],
    lexemes: &[Lexeme],
) -> Result<Vec<Name>, AllocError>
    ensures { IfOk result
        (λ names. names.items ≡ flat_map (spec.lexeme_names text.now) lexemes.now) }
{
    let mut names = Vec::new(alloc);
    for lexeme in lexemes {
        let name = lexeme_name(alloc, text, *lexeme)?;
        push_name(&mut names, name)?;
    }
    Ok(names)
}
