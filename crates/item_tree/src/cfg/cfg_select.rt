//! The arms of `cfg_select!`, which has items behind predicates.
ghost use Rattle.std.specs.Prelude.{◌≡◌, ◌<◌, ◌≤◌, length};
ghost use Rattle.item_tree.specs.CfgSelects as spec;
ghost use Rattle.item_tree.specs.Heads.{nothing};

use crate::items::head::{is_brace, is_mark, kind_at};
use crate::items::item_kind::{ItemKind, behind};
use crate::items::item_parts::{ItemParts, bounded};
use crate::lexer::lexeme::LexemeKind;
use crate::lexer::trees::Tree;

/// Whether a tree is the second mark of `=>`.
fn ends_arrow(before: LexemeKind, kind: LexemeKind) -> bool
    ensures { result ≡ spec.ends_arrow before kind }
{
    is_mark(b'=', before) && is_mark(b'>', kind)
}

/// How many trees stand before the second mark of the first `=>`.
fn before_arrow(trees: &[Tree]) -> usize
    ensures in_range { result ≤ length trees.now }
    ensures exact { result ≡ spec.before_arrow nothing trees.now }
{
    let mut before = LexemeKind::Error;
    let mut at: usize = 0;
    while at < trees.len() && !ends_arrow(before, trees[at].kind) {
        before = trees[at].kind;
        at += 1;
    }
    at
}

/// A comma may stand before an arm.
fn comma_len(trees: &[Tree]) -> usize
    ensures small { result ≤ 1 }
    ensures exact { result ≡ spec.comma_len trees.now }
{
    if is_mark(b',', kind_at(trees, 0)) {
        1
    } else {
        0
    }
}

/// Whether braces stand behind an arrow that has a predicate before it.
fn is_arm_at(arrow: usize, trees: &[Tree]) -> bool
    requires { arrow ≤ length trees.now }
    ensures { result ≡ spec.is_arm_at arrow trees.now }
{
    1 < arrow && is_brace(kind_at(trees, arrow + 1))
}

fn is_comma_alone(trees: &[Tree]) -> bool
    ensures { result ≡ spec.is_comma_alone trees.now }
{
    trees.len() == 1 && is_mark(b',', kind_at(trees, 0))
}

fn parts_by(kind: ItemKind, predicate: usize, word: usize, len: usize, trees: &[Tree]) -> ItemParts
    requires { 0 < length trees.now }
    ensures exact { result ≡ spec.parts_by kind predicate word len trees.now }
    ensures some { 0 < result.len }
    ensures within { result.len ≤ length trees.now }
{
    ItemParts {
        kind,
        attributes: predicate,
        visibility: predicate,
        word,
        name: None,
        len: bounded(len, trees.len()),
        missing: None,
    }
}

/// The arm that begins the trees, or an error of one tree. A comma behind the last arm is one that has no items.
pub(crate) fn select_arm(trees: &[Tree]) -> ItemParts
    requires { 0 < length trees.now }
    ensures exact { result ≡ spec.select_arm trees.now }
    ensures some { 0 < result.len }
    ensures within { result.len ≤ length trees.now }
{
    let predicate = comma_len(trees);
    let arm = behind(trees, predicate);
    let arrow = before_arrow(arm);
    if is_arm_at(arrow, arm) {
        let word = predicate + arrow - 1;
        parts_by(
            ItemKind::CfgArm,
            predicate,
            word,
            predicate + arrow + 2,
            trees,
        )
    } else if is_comma_alone(trees) {
        parts_by(ItemKind::CfgArm, 1, 1, 1, trees)
    } else {
        parts_by(ItemKind::Error, 0, 0, 1, trees)
    }
}
