//! The items of a text, with those in modules, traits, implementations, extern blocks and the arms of `cfg_if!` and `cfg_select!`.
ghost use Rattle.std.specs.Prelude.{◌≡◌, ◌<◌, ◌≤◌, ◌++◌, ℕ, IfOk, IfSome, OnOk, Some, None, length, take, vec_len};
ghost use Rattle.item_tree.specs.Children.{ByParent};
ghost use Rattle.item_tree.specs.Items as spec;

pub(crate) mod beginnings;
pub(crate) mod bodies;
pub mod expected;
pub mod fields;
pub(crate) mod head;
pub mod implementations;
pub mod imports;
pub mod item_end;
pub mod item_kind;
pub(crate) mod item_name;
pub mod item_parts;
pub mod item_rows;
pub mod members;
pub mod openings;
pub mod paths;
pub mod use_tree;
pub(crate) mod values;
pub mod visibility;

use crate::cfg::cfg_if::{LevelKind, first_in, kind_behind, level_kind};
use crate::items::expected::Expected;
use crate::items::item_kind::ItemKind;
use crate::items::item_parts::ItemParts;
use crate::lexer::lexeme::{Delimiter, Lexeme, LexemeKind};
use crate::lexer::trees::{Tree, trees};
use std::alloc::{AllocError, Global};

/// The lexemes from one place up to another.
#[derive(Clone, Copy, PartialEq, Eq, Debug)]
pub struct Range {
    pub first: usize,
    pub behind: usize,
}

/// Lexemes that are cut into items, or into the arms of a `cfg_if!` or a `cfg_select!`.
#[derive(Clone, Copy, PartialEq, Eq, Debug)]
pub struct Level {
    pub kind: LevelKind,
    pub range: Range,
}

/// An item, an error or an inner attribute, by the places of its lexemes. An arm of a `cfg_if!` has its attribute and the
/// words around it before its visibility, and its braces in the place of that; one of a `cfg_select!` has its predicate from
/// its qualifiers up to its word, which is its arrow.
#[derive(Clone, Copy)]
pub struct Item {
    pub kind: ItemKind,
    /// The number of the item in whose body it stands; none at the top level.
    pub parent: Option<usize>,
    /// Where it begins, with its outer attributes.
    pub first: usize,
    /// Where its visibility begins, or what follows in its place.
    pub visibility: usize,
    /// Where its qualifiers begin, or its own word.
    pub qualifiers: usize,
    /// Where its own word stands.
    pub word: usize,
    /// Where its name stands, if its kind has one.
    pub name: Option<usize>,
    /// Where it ends.
    pub behind: usize,
    /// What stands between the braces that it ends with.
    pub body: Option<Range>,
    /// What it should end with and does not.
    pub missing: Option<Expected>,
}

/// The items of a text: those of the top level, and then those in the body of each, in order.
pub struct ItemTree {
    pub items: Vec<Item>,
    /// How many of them are of the top level.
    pub top_level: usize,
}

/// Hand-written `Drop`, to keep proofs small: dropping one is then a single call.
impl Drop for ItemTree {
    fn drop(self) {
        let ItemTree {
            items: _items,
            top_level: _top_level,
        } = self;
    }
}

impl ItemTree {
    /// The items that stand in no other.
    pub fn top_level_items(&self) -> &[Item]
        requires { self.now.top_level ≤ length self.now.items.items }
        ensures { result.now ≡ take self.now.top_level self.now.items.items }
    {
        &self.items.as_slice()[..self.top_level]
    }
}

/// Whether a module's items stand in its own file.
#[derive(Clone, Copy)]
pub enum ModKind {
    /// In braces, with the lexemes between them.
    Inline(Range),
    /// In another file.
    Outline,
}

/// The kind of a module.
pub fn mod_kind(item: Item) -> ModKind
    ensures { result ≡ spec.mod_kind item }
{
    match item.body {
        None => ModKind::Outline,
        Some(range) => ModKind::Inline(range),
    }
}

/// Where the tree at a place begins; where the level ends, past the last.
pub(crate) fn place_at(trees: &[Tree], at: usize, end: usize) -> usize
    ensures { result ≡ spec.place_at trees.now at end }
{
    match trees.get(at) {
        None => end,
        Some(tree) => tree.first,
    }
}

fn name_at(trees: &[Tree], name: Option<usize>, end: usize) -> Option<usize>
    ensures { result ≡ spec.name_at trees.now name end }
{
    match name {
        None => None,
        Some(at) => Some(place_at(trees, at, end)),
    }
}

/// What stands between braces, if the tree is such a group.
fn body_of(tree: Tree) -> Option<Range>
    ensures { result ≡ spec.body_of tree.kind tree.first tree.behind }
{
    match tree.kind {
        LexemeKind::Open(Delimiter::Brace) => {
            if tree.first < tree.behind {
                Some(Range {
                    first: tree.first + 1,
                    behind: tree.behind - 1,
                })
            } else {
                None
            }
        }
        _ => None,
    }
}

fn body_at(trees: &[Tree], at: usize) -> Option<Range>
    ensures { result ≡ spec.body_at trees.now at }
{
    match trees.get(at) {
        None => None,
        Some(tree) => body_of(*tree),
    }
}

/// The item whose parts begin the trees of a level that ends so.
fn placed(trees: &[Tree], parts: ItemParts, end: usize, parent: Option<usize>) -> Item
    requires { 0 < parts.len }
    ensures { result ≡ spec.placed parent end parts trees.now }
{
    Item {
        kind: parts.kind,
        parent,
        first: place_at(trees, 0, end),
        visibility: place_at(trees, parts.attributes, end),
        qualifiers: place_at(trees, parts.visibility, end),
        word: place_at(trees, parts.word, end),
        name: name_at(trees, parts.name, end),
        behind: place_at(trees, parts.len, end),
        body: body_at(trees, parts.len - 1),
        missing: parts.missing,
    }
}

/// Adds the items of a level, in order: each tree is in one.
fn add_items(
    items: &mut Vec<Item>,
    trees: &[Tree],
    level: Level,
    parent: Option<usize>,
) -> Result<(), AllocError>
    ensures { OnOk result (items.new.items ≡ items.old.items ++ spec.items_of level.kind parent level.range.behind trees.now) }
{
    let mut kind = level.kind;
    let mut at: usize = 0;
    while at < trees.len() {
        let parts = first_in(kind, &trees[at..]);
        items.push(placed(&trees[at..], parts, level.range.behind, parent))?;
        kind = kind_behind(kind, parts);
        at += parts.len;
    }
    Ok(())
}

/// Adds the items of some lexemes.
fn add_level(
    items: &mut Vec<Item>,
    alloc: Global,
    lexemes: &[Lexeme],
    partners: &[usize],
    level: Level,
    parent: Option<usize>,
) -> Result<(), AllocError>
    ensures { OnOk result (items.new.items ≡ items.old.items ++ spec.level_of lexemes.now partners.now parent level) }
{
    let range = level.range;
    let trees = trees(alloc, lexemes, partners, range.first, range.behind)?;
    add_items(items, trees.as_slice(), level, parent)?;
    Ok(())
}

/// Whether the body of an item consists of items.
fn contains_items(kind: ItemKind) -> bool
    ensures { result ≡ spec.contains_items kind }
{
    matches!(
        kind,
        ItemKind::Mod
            | ItemKind::Trait
            | ItemKind::Impl
            | ItemKind::ExternBlock
            | ItemKind::CfgIf
            | ItemKind::CfgSelect
            | ItemKind::CfgArm
    )
}

fn level_in(kind: LevelKind, body: Option<Range>) -> Option<Level>
    ensures { result ≡ spec.level_in kind body }
{
    match body {
        None => None,
        Some(range) => Some(Level { kind, range }),
    }
}

/// What stands in the item of a number.
fn inner_level(items: &[Item], number: usize) -> Option<Level>
    ensures { result ≡ spec.inner_level_at items.now number }
{
    match items.get(number) {
        None => None,
        Some(item) => {
            if contains_items(item.kind) {
                level_in(level_kind(item.kind), item.body)
            } else {
                None
            }
        }
    }
}

/// Adds the items that stand in the one of a number.
fn add_children(
    items: &mut Vec<Item>,
    alloc: Global,
    lexemes: &[Lexeme],
    partners: &[usize],
    number: usize,
) -> Result<(), AllocError>
    ensures { OnOk result (items.new.items ≡ items.old.items ++ spec.within lexemes.now partners.now number (spec.inner_level_at items.old.items number)) }
{
    match inner_level(items.as_slice(), number) {
        None => {}
        Some(level) => add_level(items, alloc, lexemes, partners, level, Some(number))?,
    }
    Ok(())
}

/// The items of a text, from its lexemes and their partners.
///
/// # Errors
///
/// Fails only where memory runs out.
pub fn item_tree(
    alloc: Global,
    lexemes: &[Lexeme],
    partners: &[usize],
) -> Result<ItemTree, AllocError>
    ensures counted { IfOk result (λ tree. tree.top_level ≤ length tree.items.items) }
    ensures top_level { IfOk result (λ tree. take tree.top_level tree.items.items ≡ spec.top_level_of lexemes.now partners.now) }
    ensures whole { IfOk result (λ tree. tree.items.items ≡ spec.top_level_of lexemes.now partners.now ++ spec.children_from lexemes.now partners.now 0 tree.items.items) }
    ensures by_parent { IfOk result (λ tree. ByParent tree.items.items) }
{
    let mut items = Vec::new(alloc);
    let whole = Level {
        kind: LevelKind::Items,
        range: Range {
            first: 0,
            behind: lexemes.len(),
        },
    };
    add_level(&mut items, alloc, lexemes, partners, whole, None)?;
    let top_level = items.len();
    let mut number: usize = 0;
    while number < items.len() {
        add_children(&mut items, alloc, lexemes, partners, number)?;
        number += 1;
    }
    Ok(ItemTree { items, top_level })
}
