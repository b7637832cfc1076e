//! What use trees import: whole paths, by the places of lexemes.
ghost use Rattle.std.specs.Prelude.{[], ◌∷◌, ◌≡◌, ◌++◌, ◌+◌, ◌<◌, ◌^◌, IfOk, IfSome, OnOk, reverse, slice_get, if◌then◌else◌};
ghost use Rattle.item_tree.specs.Imports as spec;

use crate::attributes::attribute_kind::lexemes_in;
use crate::items::head::is_mark;
use crate::items::use_tree::{UseTree, UseTreeKind};
use crate::items::visibility::lexeme_at;
use crate::lexer::lexeme::{Lexeme, LexemeKind};
use crate::lexer::word::Word;
use std::alloc::{AllocError, Global};

/// How a use tree imports what its path names.
#[derive(Clone, Copy, PartialEq, Eq, Debug)]
pub enum ImportKind {
    Plain,
    /// All that is in it.
    Glob,
    /// As a type or a module alone, as `self` in a list imports what the list is of.
    TypeOnly,
}

fn is_self(kind: LexemeKind) -> bool
    ensures { result ≡ spec.is_self kind }
{
    matches!(kind, LexemeKind::Word(Word::SelfValue))
}

fn is_single(kind: UseTreeKind) -> bool
    ensures { result ≡ spec.is_single kind }
{
    matches!(kind, UseTreeKind::Single)
}

/// Whether a tree is `self` alone in a list.
fn is_self_of_list(lexemes: &[Lexeme], tree: UseTree) -> bool
    ensures { result ≡ spec.is_self_of_list lexemes.now tree }
{
    tree.parent.is_some()
        && is_single(tree.kind)
        && tree.path.behind.saturating_sub(tree.path.first) == 1
        && is_self(lexeme_at(lexemes, tree.path.first))
}

/// How a use tree imports. None for lists and errors, which import nothing themselves.
pub fn import_kind(lexemes: &[Lexeme], tree: UseTree) -> Option<ImportKind>
    ensures { result ≡ spec.import_kind lexemes.now tree }
{
    match tree.kind {
        UseTreeKind::Single if is_self_of_list(lexemes, tree) => Some(ImportKind::TypeOnly),
        UseTreeKind::Single => Some(ImportKind::Plain),
        UseTreeKind::Glob => Some(ImportKind::Glob),
        UseTreeKind::Prefixed | UseTreeKind::Error => None,
    }
}

/// Whether a lexeme of a path counts: its first, and any segment.
fn counts(at: usize, kind: LexemeKind) -> bool
    ensures { result ≡ spec.counts at kind }
{
    at == 0 || !is_mark(b':', kind)
}

/// Adds the place of a lexeme of a path that begins so, if it counts.
fn push_segment(
    places: &mut Vec<usize>,
    first: usize,
    at: usize,
    kind: LexemeKind,
) -> Result<(), AllocError>
    requires { first + at < 2 ^ 64 }
    ensures { OnOk result (places.new.items ≡
        (if spec.counts at kind then places.old.items ++ (first + at) ∷ [] else places.old.items)) }
{
    if counts(at, kind) {
        places.push(first + at)?;
    }
    Ok(())
}

/// Adds the own path of a tree, from its end on.
fn push_backwards(
    places: &mut Vec<usize>,
    lexemes: &[Lexeme],
    tree: UseTree,
) -> Result<(), AllocError>
    ensures { OnOk result
        (places.new.items ≡ places.old.items ++ reverse (spec.own_segments lexemes.now tree)) }
{
    if is_self_of_list(lexemes, tree) {
        return Ok(());
    }
    let first = tree.path.first;
    let own = lexemes_in(lexemes, tree.path);
    let mut at = own.len();
    while at > 0 {
        at -= 1;
        push_segment(places, first, at, own[at].kind)?;
    }
    Ok(())
}

/// Adds the own path of the tree of a number, from its end on.
fn push_tree(
    places: &mut Vec<usize>,
    lexemes: &[Lexeme],
    trees: &[UseTree],
    number: usize,
) -> Result<(), AllocError>
    ensures { OnOk result
        (places.new.items ≡
        places.old.items ++ reverse (spec.own_of lexemes.now (slice_get trees.now number))) }
{
    match trees.get(number) {
        None => Ok(()),
        Some(tree) => push_backwards(places, lexemes, *tree),
    }
}

/// The list around the tree of a number, where it stands before the tree.
fn outer_of(trees: &[UseTree], number: usize) -> Option<usize>
    ensures exact { result ≡ spec.outer_of number (slice_get trees.now number) }
    ensures lower { IfSome result (λ parent. parent < number) }
{
    match trees.get(number) {
        None => None,
        Some(tree) => match tree.parent {
            Some(parent) if parent < number => Some(parent),
            _ => None,
        },
    }
}

fn reversed(alloc: Global, places: &[usize]) -> Result<Vec<usize>, AllocError>
    ensures { IfOk result (λ turned. turned.items ≡ reverse places.now) }
{
    places.iter().rev().copied().collect(alloc)
}

/// The path of the tree of a number behind those of the lists around it, from the outermost on, by the places of its
/// segments; where a path begins with two colons, that of the first of them stands before its segments. `self` in a
/// list adds nothing. The time is linear in what it gives and in how many lists are around.
///
/// # Errors
///
/// Fails only where memory runs out.
pub fn import_path(
    alloc: Global,
    lexemes: &[Lexeme],
    trees: &[UseTree],
    number: usize,
) -> Result<Vec<usize>, AllocError>
    ensures { IfOk result
        (λ places. places.items ≡ spec.import_path lexemes.now trees.now number) }
{
    let mut places = Vec::new(alloc);
    let mut next = Some(number);
    while let Some(inner) = next {
        push_tree(&mut places, lexemes, trees, inner)?;
        next = outer_of(trees, inner);
    }
    let turned = reversed(alloc, places.as_slice())?;
    Ok(turned)
}
