//! The use trees of a `use` item.
ghost use Rattle.std.specs.Prelude.{[], ◌≡◌, ◌+◌, ◌-◌, ◌<◌, ◌≤◌, ◌^◌, IfOk, OnOk, length};
ghost use Rattle.item_tree.specs.UseGrammar.{Written, Writes, leaves};
ghost use Rattle.item_tree.specs.UseLeaves.{leaves_of};
ghost use Rattle.item_tree.specs.UseTrees as spec;
ghost use Rattle.item_tree.specs.declared.items.item_kind.PathPart.TheVariants as part;

use crate::items::Range;
use crate::items::head::is_mark;
use crate::items::item_kind::{PathPart, is_name, part_behind, takes};
use crate::items::visibility::lexeme_at;
use crate::lexer::lexeme::{Delimiter, Lexeme, LexemeKind};
use crate::lexer::word::Word;
use std::alloc::{AllocError, Global};

/// What a use tree imports.
#[derive(Clone, Copy, PartialEq, Eq, Debug)]
pub enum UseTreeKind {
    /// What the path names.
    Single,
    /// All that is in it: `*`.
    Glob,
    /// A list of use trees in braces.
    Prefixed,
    /// What is no use tree.
    Error,
}

/// A use tree, by places of lexemes.
#[derive(Clone, Copy)]
pub struct UseTree {
    pub kind: UseTreeKind,
    /// The number of the tree in whose list it stands. The path goes on that of this tree.
    pub parent: Option<usize>,
    /// The segments, with the colons between them, before them, and behind them where something follows.
    pub path: Range,
    /// The name behind `as`, or the `_`.
    pub alias: Option<usize>,
    /// Where the tree ends, or its list begins.
    pub behind: usize,
}

/// Whether a path that is read so far goes on with a lexeme.
fn takes_segment(part: PathPart, kind: LexemeKind) -> bool
    ensures { result ≡ spec.takes_segment part kind }
{
    takes(part, kind) && !is_mark(b'!', kind)
}

/// How many lexemes of a path begin these.
pub(crate) fn path_len(lexemes: &[Lexeme]) -> usize
    ensures in_range { result ≤ length lexemes.now }
    ensures exact { result ≡ spec.path_len part.Start lexemes.now }
{
    let mut part = PathPart::Start;
    let mut at: usize = 0;
    while at < lexemes.len() && takes_segment(part, lexemes[at].kind) {
        part = part_behind(part, lexemes[at].kind);
        at += 1;
    }
    at
}

/// Whether a lexeme may stand behind `as`.
pub(crate) fn is_alias(kind: LexemeKind) -> bool
    ensures { result ≡ spec.is_alias kind }
{
    match kind {
        LexemeKind::Word(Word::Underscore) => true,
        _ => is_name(kind),
    }
}

/// What follows a path.
#[derive(Clone, Copy)]
struct Tail {
    kind: UseTreeKind,
    /// Whether a name stands behind `as`.
    alias: bool,
    len: usize,
}

/// A path alone: it has to end with a segment.
fn path_alone(last: LexemeKind, len: usize) -> Tail
    ensures small { result.len ≤ 1 }
    ensures some { 0 < len + result.len }
    ensures exact { result ≡ spec.path_alone last len }
{
    if len == 0 {
        Tail {
            kind: UseTreeKind::Error,
            alias: false,
            len: 1,
        }
    } else if is_mark(b':', last) {
        Tail {
            kind: UseTreeKind::Error,
            alias: false,
            len: 0,
        }
    } else {
        Tail {
            kind: UseTreeKind::Single,
            alias: false,
            len: 0,
        }
    }
}

/// What `as` begins, behind a path.
fn renamed(next: LexemeKind) -> Tail
    ensures small { result.len ≤ 2 }
    ensures some { 0 < result.len }
    ensures exact { result ≡ spec.renamed next }
{
    if is_alias(next) {
        Tail {
            kind: UseTreeKind::Single,
            alias: true,
            len: 2,
        }
    } else {
        Tail {
            kind: UseTreeKind::Error,
            alias: false,
            len: 1,
        }
    }
}

/// What follows a path, by the last lexeme of that, and the two behind it.
fn tail_of(last: LexemeKind, len: usize, first: LexemeKind, next: LexemeKind) -> Tail
    ensures small { result.len ≤ 2 }
    ensures some { 0 < len + result.len }
    ensures exact { result ≡ spec.tail_of last len first next }
{
    match first {
        LexemeKind::Word(Word::As) => renamed(next),
        LexemeKind::Open(Delimiter::Brace) => Tail {
            kind: UseTreeKind::Prefixed,
            alias: false,
            len: 1,
        },
        LexemeKind::Mark(b'*') => Tail {
            kind: UseTreeKind::Glob,
            alias: false,
            len: 1,
        },
        _ => path_alone(last, len),
    }
}

fn one_before(len: usize) -> usize
    ensures { result ≡ len - 1 }
{
    if len == 0 { 0 } else { len - 1 }
}

fn alias_place(renamed: bool, place: usize) -> Option<usize>
    ensures { result ≡ spec.alias_place renamed place }
{
    if renamed { Some(place) } else { None }
}

/// The use tree that begins the lexemes, the first of which stands at a place.
#[tactic(auto, unfolding(crate::specs::UseTrees::first_use_tree))]
fn first_use_tree(lexemes: &[Lexeme], at: usize, parent: Option<usize>) -> UseTree
    requires { at < 2 ^ 63 }
    ensures exact { result ≡ spec.first_use_tree at parent lexemes.now }
    ensures forward { at < result.behind }
{
    let len = path_len(lexemes);
    let last = lexeme_at(lexemes, one_before(len));
    let tail = tail_of(
        last,
        len,
        lexeme_at(lexemes, len),
        lexeme_at(lexemes, len + 1),
    );
    UseTree {
        kind: tail.kind,
        parent,
        path: Range {
            first: at,
            behind: at + len,
        },
        alias: alias_place(tail.alias, at + len + 1),
        behind: at + len + tail.len,
    }
}

/// The tree that has the one of a number in its list.
fn outer(trees: &[UseTree], number: Option<usize>) -> Option<usize>
    ensures { result ≡ spec.outer trees.now number }
{
    match number {
        None => None,
        Some(at) => match trees.get(at) {
            None => None,
            Some(tree) => tree.parent,
        },
    }
}

/// The tree in whose list what follows a tree of a number stands.
fn inner(tree: UseTree, number: usize) -> Option<usize>
    ensures { result ≡ spec.inner tree number }
{
    match tree.kind {
        UseTreeKind::Prefixed => Some(number),
        _ => tree.parent,
    }
}

/// What is read at a place.
#[derive(Clone, Copy)]
struct Step {
    tree: Option<UseTree>,
    /// The tree in whose list the next one stands.
    parent: Option<usize>,
    behind: usize,
}

/// What is read at a place, behind some trees: a comma, the end of a list, or a tree.
#[tactic(auto, unfolding(crate::specs::UseTrees::step_of))]
fn step_of(lexemes: &[Lexeme], trees: &[UseTree], at: usize, parent: Option<usize>) -> Step
    requires { at < 2 ^ 63 }
    ensures exact { result ≡ spec.step_of trees.now parent at lexemes.now }
    ensures forward { at < result.behind }
{
    let kind = lexeme_at(lexemes, 0);
    if is_mark(b',', kind) || is_mark(b';', kind) {
        Step {
            tree: None,
            parent,
            behind: at + 1,
        }
    } else if closes_list(kind) {
        Step {
            tree: None,
            parent: outer(trees, parent),
            behind: at + 1,
        }
    } else {
        let tree = first_use_tree(lexemes, at, parent);
        Step {
            tree: Some(tree),
            parent: inner(tree, trees.len()),
            behind: tree.behind,
        }
    }
}

fn closes_list(kind: LexemeKind) -> bool
    ensures { result ≡ spec.closes_list kind }
{
    matches!(kind, LexemeKind::Close(Delimiter::Brace))
}

fn push_some(trees: &mut Vec<UseTree>, tree: Option<UseTree>) -> Result<(), AllocError>
    ensures { OnOk result (trees.new.items ≡ spec.with_tree trees.old.items tree) }
{
    match tree {
        None => {}
        Some(more) => trees.push(more)?,
    }
    Ok(())
}

/// The use trees of the lexemes of a range, each behind the one in whose list it stands.
fn read_use_trees(
    alloc: Global,
    lexemes: &[Lexeme],
    range: Range,
) -> Result<Vec<UseTree>, AllocError>
    ensures { IfOk result (λ found. found.items ≡ spec.use_trees_of lexemes.now range) }
{
    let mut trees = Vec::new(alloc);
    let mut parent: Option<usize> = None;
    let mut at = range.first;
    while at < range.behind && at < lexemes.len() {
        let step = step_of(&lexemes[at..], trees.as_slice(), at, parent);
        push_some(&mut trees, step.tree)?;
        parent = step.parent;
        at = step.behind;
    }
    Ok(trees)
}

/// The use trees of the lexemes of a range, as those behind the `use` of an item, each behind the one in whose list it
/// stands. The paths of its names and globs, behind those of the lists around, are those of the tree that is written.
///
/// # Errors
///
/// Fails only where memory runs out.
pub fn use_trees(
    alloc: Global,
    lexemes: &[Lexeme],
    range: Range,
) -> Result<Vec<UseTree>, AllocError>
    ensures exact { IfOk result (λ found. found.items ≡ spec.use_trees_of lexemes.now range) }
    ensures written { IfOk result
        (λ found. (t : Written) → Writes lexemes.now range t →
        leaves_of lexemes.now found.items ≡ leaves [] t) }
{
    let trees = read_use_trees(alloc, lexemes, range)?;
    Ok(trees)
}
