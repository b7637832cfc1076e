//! Where items end.
ghost use Rattle.std.specs.Prelude.{◌≡◌, ◌+◌, ◌<◌, ◌≤◌, ◌^◌, false, length, if◌then◌else◌};
ghost use Rattle.item_tree.specs.ItemEnds as spec;
ghost use Rattle.item_tree.specs.Heads.{nothing};

use crate::items::beginnings::begins_another;
use crate::items::expected::Expected;
use crate::items::head::{is_brace, is_mark, is_qualifier, kind_at};
use crate::items::item_kind::{ItemKind, behind, is_group, is_segment, path_len};
use crate::items::item_name::words_len;
use crate::lexer::lexeme::LexemeKind;
use crate::lexer::trees::Tree;

/// The end of an item, in trees from its own word on.
#[derive(Clone, Copy)]
pub struct ItemEnd {
    /// How many trees it takes.
    pub len: usize,
    /// What it should end with and does not.
    pub missing: Option<Expected>,
}

fn is_semicolon(kind: LexemeKind) -> bool
    ensures { result ≡ spec.is_semicolon kind }
{
    is_mark(b';', kind)
}

/// Whether an item may have a body in the place of its semicolon.
fn may_have_body(kind: ItemKind) -> bool
    ensures { result ≡ spec.may_have_body kind }
{
    !matches!(
        kind,
        ItemKind::Use
            | ItemKind::ExternCrate
            | ItemKind::Const
            | ItemKind::Static
            | ItemKind::TypeAlias
    )
}

/// Whether a tree ends an item: a body stands outside of angle brackets, and is not the group of a macro.
fn ends_item(item: ItemKind, depth: usize, calls: bool, kind: LexemeKind) -> bool
    ensures { result ≡ spec.ends_item item depth calls kind }
{
    is_semicolon(kind) || (is_brace(kind) && depth == 0 && !calls && may_have_body(item))
}

/// Whether a tree is the `!` of a macro, which has the macro's path before it. That of the never type has not.
fn calls_macro(before: LexemeKind, kind: LexemeKind) -> bool
    ensures { result ≡ spec.calls_macro before kind }
{
    is_mark(b'!', kind) && is_segment(before)
}

/// How many angle brackets are open behind one more tree. That of an arrow closes none.
pub(crate) fn depth_behind(before: LexemeKind, depth: usize, kind: LexemeKind) -> usize
    requires { depth < 2 ^ 63 }
    ensures small { result ≤ depth + 1 }
    ensures exact { result ≡ spec.depth_behind before depth kind }
{
    if is_mark(b'<', kind) {
        depth + 1
    } else if is_mark(b'>', kind) && !is_mark(b'-', before) && depth != 0 {
        depth - 1
    } else {
        depth
    }
}

/// How many are open in an item: in the values of constants and statics they may be comparisons.
fn depth_in(item: ItemKind, before: LexemeKind, depth: usize, kind: LexemeKind) -> usize
    requires { depth < 2 ^ 63 }
    ensures small { result ≤ depth + 1 }
    ensures exact { result ≡ spec.depth_in item before depth kind }
{
    match item {
        ItemKind::Const | ItemKind::Static => depth,
        _ => depth_behind(before, depth, kind),
    }
}

fn awaited(kind: ItemKind) -> Expected
    ensures { result ≡ spec.awaited kind }
{
    if may_have_body(kind) {
        Expected::Body
    } else {
        Expected::Semicolon
    }
}

fn complete(len: usize) -> ItemEnd
    ensures { result ≡ spec.complete len }
{
    ItemEnd { len, missing: None }
}

fn lacking(len: usize, expected: Expected) -> ItemEnd
    ensures { result ≡ spec.lacking len expected }
{
    ItemEnd {
        len,
        missing: Some(expected),
    }
}

fn later(count: usize, end: ItemEnd) -> ItemEnd
    requires { count + end.len < 2 ^ 64 }
    ensures { result ≡ spec.later count end }
{
    ItemEnd {
        len: count + end.len,
        missing: end.missing,
    }
}

/// How many trees belong to an item whatever follows: qualifiers may be those of another.
fn own_behind(own: usize, at: usize, qualifies: bool) -> usize
    requires { at < 2 ^ 63 }
    ensures { result ≡ (if qualifies then own else at + 1) }
{
    if qualifies { own } else { at + 1 }
}

/// The end of an item, in the trees behind its own words: its semicolon or body, or where another item begins.
fn up_to_end(item: ItemKind, trees: &[Tree]) -> ItemEnd
    ensures in_range { result.len ≤ length trees.now }
    ensures exact { result ≡ spec.up_to_end item nothing 0 false trees.now }
{
    let mut before = LexemeKind::Error;
    let mut depth: usize = 0;
    let mut calls = false;
    let mut own: usize = 0;
    let mut at: usize = 0;
    while at < trees.len() {
        let kind = trees[at].kind;
        if begins_another(item, depth, before, kind, &trees[at + 1..]) {
            return lacking(own, awaited(item));
        }
        if ends_item(item, depth, calls, kind) {
            return complete(at + 1);
        }
        own = own_behind(own, at, is_qualifier(before, kind, &trees[at + 1..]));
        depth = depth_in(item, before, depth, kind);
        calls = calls_macro(before, kind);
        before = kind;
        at += 1;
    }
    lacking(at, awaited(item))
}

/// The end of an item, from its own words on.
fn behind_words(kind: ItemKind, trees: &[Tree]) -> ItemEnd
    ensures small { result.len ≤ length trees.now + 3 }
    ensures exact { result ≡ spec.behind_words kind trees.now }
{
    let words = words_len(kind, trees);
    later(words, up_to_end(kind, behind(trees, words)))
}

/// The end of a macro, from its group on, which has a semicolon behind it where it is not of braces.
fn group_end(trees: &[Tree]) -> ItemEnd
    ensures small { result.len ≤ 2 }
    ensures exact { result ≡ spec.group_end trees.now }
{
    let group = kind_at(trees, 0);
    if !is_group(group) {
        lacking(0, Expected::Group)
    } else if is_brace(group) {
        complete(1)
    } else if is_semicolon(kind_at(trees, 1)) {
        complete(2)
    } else {
        lacking(1, Expected::Semicolon)
    }
}

/// The end of a macro call, from its path on.
fn call_end(trees: &[Tree]) -> ItemEnd
    ensures small { result.len ≤ length trees.now + 2 }
    ensures exact { result ≡ spec.call_end trees.now }
{
    let path = path_len(trees);
    later(path, group_end(behind(trees, path)))
}

/// The end of an item, in trees from its own word on, where its level goes on so far.
#[tactic(auto, unfolding(crate::specs::ItemEnds::item_end))]
pub(crate) fn item_end(kind: ItemKind, trees: &[Tree]) -> ItemEnd
    ensures small { result.len ≤ length trees.now + 5 }
    ensures exact { result ≡ spec.item_end kind trees.now }
{
    match kind {
        ItemKind::MacroCall | ItemKind::CfgIf | ItemKind::CfgSelect => call_end(trees),
        ItemKind::MacroRules => later(3, group_end(behind(trees, 3))),
        ItemKind::InnerAttribute => complete(3),
        ItemKind::Error => complete(path_len(trees)),
        _ => behind_words(kind, trees),
    }
}
