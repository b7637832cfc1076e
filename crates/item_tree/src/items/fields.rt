//! The fields of a struct or a union.
ghost use Rattle.std.specs.Prelude.{◌≡◌, ◌+◌, ◌≤◌, IfOk, length};
ghost use Rattle.item_tree.specs.Fields as spec;
ghost use Rattle.item_tree.specs.Heads.{nothing};

use crate::items::head::{is_parenthesis, kind_at};
use crate::items::item_end::depth_behind;
use crate::items::members::{Fields, FieldsShape, fields_at, no_fields};
use crate::items::{Item, Range};
use crate::lexer::lexeme::{Lexeme, LexemeKind};
use crate::lexer::trees::{Tree, trees};
use crate::lexer::word::Word;
use std::alloc::{AllocError, Global};

fn is_where(kind: LexemeKind) -> bool
    ensures { result ≡ spec.is_where kind }
{
    matches!(kind, LexemeKind::Word(Word::Where))
}

/// Whether the parameters of a struct end at a tree.
fn ends_parameters(depth: usize, kind: LexemeKind) -> bool
    ensures { result ≡ spec.ends_parameters depth kind }
{
    depth == 0 && (is_parenthesis(kind) || is_where(kind))
}

/// How many trees stand before parentheses or `where`, outside of angle brackets.
fn before_parentheses(trees: &[Tree]) -> usize
    ensures in_range { result ≤ length trees.now }
    ensures exact { result ≡ spec.before_parentheses nothing 0 trees.now }
{
    let mut before = LexemeKind::Error;
    let mut depth: usize = 0;
    let mut at: usize = 0;
    while at < trees.len() && !ends_parameters(depth, trees[at].kind) {
        depth = depth_behind(before, depth, trees[at].kind);
        before = trees[at].kind;
        at += 1;
    }
    at
}

/// The fields in a body, or none where there is no body.
fn body_fields(body: Option<Range>) -> Fields
    ensures { result ≡ spec.body_fields body }
{
    match body {
        None => no_fields(0),
        Some(range) => Fields {
            shape: FieldsShape::Record,
            range,
        },
    }
}

fn struct_fields(trees: &[Tree], body: Option<Range>) -> Fields
    ensures { result ≡ spec.struct_fields trees.now body }
{
    let at = before_parentheses(trees);
    if is_parenthesis(kind_at(trees, at)) {
        fields_at(trees, at)
    } else {
        body_fields(body)
    }
}

/// The fields of a struct or a union: those in parentheses behind its parameters, or those in its body.
///
/// # Errors
///
/// Fails only where memory runs out.
pub fn item_fields(
    alloc: Global,
    lexemes: &[Lexeme],
    partners: &[usize],
    item: Item,
) -> Result<Fields, AllocError>
    ensures { IfOk result (λ fields. fields ≡ spec.item_fields lexemes.now partners.now item) }
{
    let level = trees(alloc, lexemes, partners, item.word, item.behind)?;
    Ok(struct_fields(level.as_slice(), item.body))
}
