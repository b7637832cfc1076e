//! The arms of `cfg_if!`, which has items under predicates, and the levels that items and arms stand in.
ghost use Rattle.std.specs.Prelude.{◌≡◌, ◌<◌, ◌≤◌, ◌^◌, length};
ghost use Rattle.item_tree.specs.CfgIfs as spec;

use crate::cfg::cfg_select::select_arm;
use crate::items::head::{is_brace, is_bracket, is_mark, kind_at};
use crate::items::item_kind::{ItemKind, behind};
use crate::items::item_parts::{ItemParts, bounded, first_item};
use crate::lexer::lexeme::LexemeKind;
use crate::lexer::trees::Tree;
use crate::lexer::word::Word;

/// What a level consists of, or its rest.
#[derive(Clone, Copy, PartialEq, Eq, Debug)]
pub enum LevelKind {
    Items,
    /// The arms of a `cfg_if!`.
    FirstArm,
    /// Those behind its first one.
    OtherArm,
    /// Nothing, behind its last one.
    NoArm,
    /// The arms of a `cfg_select!`.
    SelectArm,
}

fn is_if(kind: LexemeKind) -> bool
    ensures { result ≡ spec.is_if kind }
{
    matches!(kind, LexemeKind::Word(Word::If))
}

fn is_else(kind: LexemeKind) -> bool
    ensures { result ≡ spec.is_else kind }
{
    matches!(kind, LexemeKind::Word(Word::Else))
}

/// Whether `if`, an attribute and braces begin the trees.
fn is_if_arm(trees: &[Tree]) -> bool
    ensures { result ≡ spec.is_if_arm trees.now }
{
    is_if(kind_at(trees, 0))
        && is_mark(b'#', kind_at(trees, 1))
        && is_bracket(kind_at(trees, 2))
        && is_brace(kind_at(trees, 3))
}

/// How many trees stand before the braces of an arm with `else`.
fn else_len(trees: &[Tree]) -> usize
    ensures small { result ≤ 4 }
    ensures exact { result ≡ spec.else_len trees.now }
{
    if !is_else(kind_at(trees, 0)) {
        0
    } else if is_brace(kind_at(trees, 1)) {
        1
    } else if is_if_arm(behind(trees, 1)) {
        4
    } else {
        0
    }
}

/// How many trees stand before the braces of the arm that begins the trees.
fn arm_head(level: LevelKind, trees: &[Tree]) -> usize
    ensures small { result ≤ 4 }
    ensures exact { result ≡ spec.arm_head level trees.now }
{
    match level {
        LevelKind::FirstArm => { if is_if_arm(trees) { 3 } else { 0 } }
        LevelKind::OtherArm => else_len(trees),
        LevelKind::Items | LevelKind::NoArm | LevelKind::SelectArm => 0,
    }
}

fn arm_by(head: usize, trees: &[Tree]) -> ItemParts
    requires some { 0 < length trees.now }
    requires small { head ≤ 4 }
    ensures exact { result ≡ spec.arm_by head trees.now }
    ensures some { 0 < result.len }
    ensures within { result.len ≤ length trees.now }
{
    let kind = if head == 0 {
        ItemKind::Error
    } else {
        ItemKind::CfgArm
    };
    ItemParts {
        kind,
        attributes: head,
        visibility: head,
        word: head,
        name: None,
        len: bounded(head + 1, trees.len()),
        missing: None,
    }
}

/// What begins the trees of a level of a kind: an item, an arm, or an error.
pub(crate) fn first_in(level: LevelKind, trees: &[Tree]) -> ItemParts
    requires { 0 < length trees.now }
    ensures exact { result ≡ spec.first_in level trees.now }
    ensures some { 0 < result.len }
    ensures within { result.len ≤ length trees.now }
{
    match level {
        LevelKind::Items => first_item(trees),
        LevelKind::FirstArm | LevelKind::OtherArm | LevelKind::NoArm => {
            arm_by(arm_head(level, trees), trees)
        }
        LevelKind::SelectArm => select_arm(trees),
    }
}

fn is_arm(kind: ItemKind) -> bool
    ensures { result ≡ spec.is_arm kind }
{
    matches!(kind, ItemKind::CfgArm)
}

/// What the rest of a level consists of, behind an item or an arm.
pub(crate) fn kind_behind(level: LevelKind, parts: ItemParts) -> LevelKind
    ensures { result ≡ spec.kind_behind level parts }
{
    match level {
        LevelKind::Items => LevelKind::Items,
        LevelKind::FirstArm => {
            if is_arm(parts.kind) {
                LevelKind::OtherArm
            } else {
                LevelKind::FirstArm
            }
        }
        LevelKind::OtherArm => {
            if parts.word == 1 {
                LevelKind::NoArm
            } else {
                LevelKind::OtherArm
            }
        }
        LevelKind::NoArm => LevelKind::NoArm,
        LevelKind::SelectArm => LevelKind::SelectArm,
    }
}

/// What the body of an item consists of.
pub(crate) fn level_kind(kind: ItemKind) -> LevelKind
    ensures { result ≡ spec.level_kind kind }
{
    match kind {
        ItemKind::CfgIf => LevelKind::FirstArm,
        ItemKind::CfgSelect => LevelKind::SelectArm,
        _ => LevelKind::Items,
    }
}
