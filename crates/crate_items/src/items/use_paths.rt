//! The paths of use trees.
ghost use Rattle.std.specs.Prelude.{◌≡◌, ◌<◌, ◌≤◌, ◌^◌, IfOk, drop, length};
ghost use Rattle.std.specs.List.{flat_map, prefix_len};
ghost use Rattle.crate_items.specs.UsePaths as spec;

use crate::items::lexeme_names::{kind_at, name_at, push_name};
use dm_base::mod_path::{ModPath, PathKind};
use dm_base::name::Name;
use item_tree::lexer::lexeme::{Lexeme, LexemeKind};
use item_tree::lexer::word::Word;
use std::alloc::{AllocError, Global};

/// Where a path begins, and how many of its lexemes tell that.
#[derive(Clone, Copy)]
struct Start {
    kind: PathKind,
    len: usize,
}

fn is_super(kind: LexemeKind) -> bool
    ensures { result ≡ spec.is_super kind }
{
    matches!(kind, LexemeKind::Word(Word::Super))
}

/// How many `super` the lexemes at some places begin with.
fn supers(lexemes: &[Lexeme], places: &[usize]) -> usize
    ensures within { result ≤ length places.now }
    ensures exact { result ≡ prefix_len (spec.is_super_at lexemes.now) places.now }
{
    let mut count: usize = 0;
    while count < places.len() && is_super(kind_at(lexemes, places[count])) {
        count += 1;
    }
    count
}

/// So many steps outwards, as so many lexemes tell them.
fn outwards(steps: usize, len: usize) -> Option<Start>
    ensures { result ≡ spec.outwards steps len }
{
    match u8::try_from(steps) {
        Err(_) => None,
        Ok(steps) => Some(Start {
            kind: PathKind::Super(steps),
            len,
        }),
    }
}

fn plain() -> Start
    ensures { result ≡ spec.plain }
{
    Start {
        kind: PathKind::Plain,
        len: 0,
    }
}

fn marked(byte: u8) -> Start
    ensures { result ≡ spec.marked byte }
{
    if byte == b':' {
        Start {
            kind: PathKind::Abs,
            len: 1,
        }
    } else {
        plain()
    }
}

/// Where a path begins, by its first lexeme and by how many `super` are right behind it.
fn start_with(first: LexemeKind, supers: usize) -> Option<Start>
    requires { supers < 2 ^ 63 }
    ensures { result ≡ spec.start_with first supers }
{
    match first {
        LexemeKind::Mark(byte) => Some(marked(byte)),
        LexemeKind::Word(Word::Crate) => Some(Start {
            kind: PathKind::Crate,
            len: 1,
        }),
        LexemeKind::Word(Word::SelfValue) => outwards(supers, supers + 1),
        LexemeKind::Word(Word::Super) => outwards(supers + 1, supers + 1),
        _ => Some(plain()),
    }
}

/// The places behind the first so many.
fn behind(places: &[usize], count: usize) -> &[usize]
    ensures { result.now ≡ drop count places.now }
{
    if count < places.len() {
        &places[count..]
    } else {
        &[]
    }
}

/// Where a path begins that has its lexemes at these places.
fn start_of(lexemes: &[Lexeme], places: &[usize]) -> Option<Start>
    ensures { result ≡ spec.start_of lexemes.now places.now }
{
    match places.first() {
        None => Some(plain()),
        Some(first) => start_with(kind_at(lexemes, *first), supers(lexemes, behind(places, 1))),
    }
}

/// The names at some places, so far as there are names.
fn names_at(
    alloc: Global,
    text: &[u8],
    lexemes: &[Lexeme],
    places: &[usize],
) -> Result<Vec<Name>, AllocError>
    ensures { IfOk result (λ names. names.items ≡
        flat_map (spec.name_list text.now lexemes.now) places.now) }
{
    let mut names = Vec::new(alloc);
    for place in places {
        let name = name_at(alloc, text, lexemes, *place)?;
        push_name(&mut names, name)?;
    }
    Ok(names)
}

/// A path whose segments stand at these places, if each of them is a name.
fn path_behind(
    alloc: Global,
    text: &[u8],
    lexemes: &[Lexeme],
    kind: PathKind,
    places: &[usize],
) -> Result<Option<ModPath>, AllocError>
    ensures { IfOk result
        (λ path. path ≡ spec.path_behind text.now lexemes.now kind places.now) }
{
    let names = names_at(alloc, text, lexemes, places)?;
    if names.len() == places.len() {
        Ok(Some(ModPath::from_segments(kind, names)))
    } else {
        Ok(None)
    }
}

/// The path that has its lexemes at these places; none, where one behind its beginning is no name.
pub(crate) fn path_of(
    alloc: Global,
    text: &[u8],
    lexemes: &[Lexeme],
    places: &[usize],
) -> Result<Option<ModPath>, AllocError>
    ensures { IfOk result (λ path. path ≡ spec.path_of text.now lexemes.now places.now) }
{
    match start_of(lexemes, places) {
        None => Ok(None),
        Some(start) => path_behind(alloc, text, lexemes, start.kind, behind(places, start.len)),
    }
}
