//! The lexemes of a level: single ones, and whole groups between delimiters.
ghost use Rattle.std.specs.Prelude.{◌≡◌, ◌<◌, ◌≤◌, IfOk};
ghost use Rattle.item_tree.specs.Trees as spec;

use crate::lexer::lexeme::{Lexeme, LexemeKind};
use std::alloc::{AllocError, Global};

/// A lexeme that is no delimiter, or a group: a delimiter with its partner and all between.
#[derive(Clone, Copy)]
pub struct Tree {
    /// That of the first lexeme. A delimiter without a partner is an `Error`, and none is a `Close`.
    pub kind: LexemeKind,
    /// The place of the first lexeme.
    pub first: usize,
    /// The place behind the last one.
    pub behind: usize,
}

/// A tree of one lexeme.
fn single(kind: LexemeKind, at: usize, end: usize) -> Tree
    requires { at < end }
    ensures { result ≡ spec.single kind at }
{
    let _bounded = end;
    Tree {
        kind,
        first: at,
        behind: at + 1,
    }
}

/// The tree that begins with a lexeme at a place before the end of a level.
fn tree_of(kind: LexemeKind, at: usize, partner: usize, end: usize) -> Tree
    requires { at < end }
    ensures exact { result ≡ spec.tree_of kind at partner end }
    ensures some { at < result.behind }
    ensures within { result.behind ≤ end }
{
    match kind {
        LexemeKind::Open(_) => {
            if at < partner && partner < end {
                Tree {
                    kind,
                    first: at,
                    behind: partner + 1,
                }
            } else {
                single(LexemeKind::Error, at, end)
            }
        }
        LexemeKind::Close(_) => single(LexemeKind::Error, at, end),
        _ => single(kind, at, end),
    }
}

/// The partner of the lexeme at a place, as far as one is told.
pub(crate) fn partner_at(partners: &[usize], at: usize) -> usize
    ensures { result ≡ spec.partner_at partners.now at }
{
    match partners.get(at) {
        None => at,
        Some(partner) => *partner,
    }
}

/// The trees of the lexemes from a place up to an end, or the last, in order: each lexeme is in one.
///
/// # Errors
///
/// Fails only where memory runs out.
pub fn trees(
    alloc: Global,
    lexemes: &[Lexeme],
    partners: &[usize],
    from: usize,
    end: usize,
) -> Result<Vec<Tree>, AllocError>
    ensures { IfOk result (λ found. found.items ≡ spec.trees_of lexemes.now partners.now from end) }
{
    let mut trees = Vec::new(alloc);
    let mut at = from;
    while at < end && at < lexemes.len() {
        let tree = tree_of(lexemes[at].kind, at, partner_at(partners, at), end);
        trees.push(tree)?;
        at = tree.behind;
    }
    Ok(trees)
}
