//! The parts of an item.
ghost use Rattle.std.specs.Prelude.{◌≡◌, ◌+◌, ◌<◌, ◌≤◌, ◌^◌, IfSome, length};
ghost use Rattle.item_tree.specs.ItemParts as spec;

use crate::items::expected::Expected;
use crate::items::head::{
    attributes_len, is_bracket, is_mark, kind_at, qualifiers_len, visibility_len,
};
use crate::items::item_end::item_end;
use crate::items::item_kind::{ItemKind, behind, item_kind};
use crate::items::item_name::name_place;
use crate::lexer::trees::Tree;

/// An item of a level, in trees from its own first one on.
#[derive(Clone, Copy)]
pub struct ItemParts {
    pub kind: ItemKind,
    /// Where its outer attributes end.
    pub attributes: usize,
    /// Where its visibility ends.
    pub visibility: usize,
    /// Where its own word stands, behind its qualifiers.
    pub word: usize,
    /// Where its name stands, if its kind has one.
    pub name: Option<usize>,
    /// Where it ends.
    pub len: usize,
    /// What it should end with and does not.
    pub missing: Option<Expected>,
}

/// A place that is counted from the item's own word on, counted from the item on.
fn from_item(word: usize, place: Option<usize>) -> Option<usize>
    requires low { word < 2 ^ 63 }
    requires small { IfSome place (λ at. at ≤ 2) }
    ensures { result ≡ spec.from_item word place }
{
    match place {
        None => None,
        Some(at) => Some(word + at),
    }
}

/// One tree at least, and the whole level at most.
pub(crate) fn bounded(len: usize, size: usize) -> usize
    requires { 0 < size }
    ensures exact { result ≡ spec.bounded len size }
    ensures some { 0 < result }
    ensures within { result ≤ size }
{
    if len == 0 {
        1
    } else if size < len {
        size
    } else {
        len
    }
}

/// Whether an inner attribute begins the trees.
fn begins_inner_attribute(trees: &[Tree]) -> bool
    ensures { result ≡ spec.begins_inner_attribute trees.now }
{
    is_mark(b'#', kind_at(trees, 0))
        && is_mark(b'!', kind_at(trees, 1))
        && is_bracket(kind_at(trees, 2))
}

/// What the parts of an item are whose own word stands at a place.
fn parts(trees: &[Tree], attributes: usize, visibility: usize, word: usize) -> ItemParts
    requires some { 0 < length trees.now }
    requires low { word ≤ length trees.now + length trees.now }
    ensures exact { result ≡ spec.parts attributes visibility word trees.now }
    ensures some { 0 < result.len }
    ensures within { result.len ≤ length trees.now }
{
    let own = behind(trees, word);
    let kind = item_kind(own);
    let end = item_end(kind, own);
    ItemParts {
        kind,
        attributes,
        visibility,
        word,
        name: from_item(word, name_place(kind, own)),
        len: bounded(word + end.len, trees.len()),
        missing: end.missing,
    }
}

/// The item, error or inner attribute that begins the trees.
#[tactic(auto, unfolding(crate::specs::ItemParts::first_item))]
pub(crate) fn first_item(trees: &[Tree]) -> ItemParts
    requires { 0 < length trees.now }
    ensures exact { result ≡ spec.first_item trees.now }
    ensures some { 0 < result.len }
    ensures within { result.len ≤ length trees.now }
{
    if begins_inner_attribute(trees) {
        return ItemParts {
            kind: ItemKind::InnerAttribute,
            attributes: 0,
            visibility: 0,
            word: 0,
            name: None,
            len: bounded(3, trees.len()),
            missing: None,
        };
    }
    let attributes = attributes_len(trees);
    let visibility = attributes + visibility_len(behind(trees, attributes));
    let word = visibility + qualifiers_len(behind(trees, visibility));
    parts(trees, attributes, visibility, word)
}
