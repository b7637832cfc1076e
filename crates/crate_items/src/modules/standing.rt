//! Which items of a file a crate has, and in which module each stands.
ghost use Rattle.std.specs.Prelude.{◌≡◌, ◌<◌, IfOk, drop, length, slice_get};
ghost use Rattle.std.specs.List.{list_any};
ghost use Rattle.crate_items.specs.Standings as spec;
ghost use Rattle.item_tree.specs.CfgIfs as arms;
ghost use Rattle.item_tree.specs.Children.{ByParent};
ghost use Rattle.item_tree.specs.Heads as heads;
ghost use Rattle.item_tree.specs.ItemParts.{begins_inner_attribute};

use item_tree::attributes::attribute_kind::{AttributeKind, lexemes_in};
use item_tree::attributes::item_attributes::{inner_attributes, outer_attributes};
use item_tree::attributes::{Attribute, Attributes, is_active, may_hold};
use item_tree::cfg::CfgOptions;
use item_tree::cfg::cfg_parser::{CfgParse, parse_cfg};
use item_tree::items::item_kind::ItemKind;
use item_tree::items::{Item, Range};
use item_tree::lexer::children::children_of;
use item_tree::lexer::lexeme::{Delimiter, Lexeme, LexemeKind};
use item_tree::lexer::trees::{Tree, trees};
use item_tree::lexer::word::Word;
use std::alloc::{AllocError, Global};
use std::marker::Model;

/// How an item stands in its file, as a crate reads that.
#[derive(Clone, Copy, PartialEq, Eq, Debug)]
pub struct Standing {
    /// The item of the inline module that it stands in, in an arm of `cfg_if!` or `cfg_select!` too; none, where that is the file's.
    pub home: Option<usize>,
    /// The same of what stands in it.
    pub inner: Option<usize>,
    /// Whether the crate has it, by its options.
    pub is_configured: bool,
}

/// A file as a crate reads it. A contract sees what the parts stand for.
#[derive(Drop)]
pub(crate) struct View<'a> {
    pub(crate) options: &'a CfgOptions,
    pub(crate) text: &'a [u8],
    pub(crate) lexemes: &'a [Lexeme],
    pub(crate) partners: &'a [usize],
    pub(crate) attributes: &'a Attributes,
    /// The conditions that are active, by the options.
    pub(crate) active: &'a [bool],
    pub(crate) items: &'a [Item],
    /// Whether each `cfg` may hold that the file begins with.
    pub(crate) is_enabled: bool,
}

impl<'a> Model for View<'a> {
    ghost use Rattle.crate_items.specs.Standings.{View};

    ghost Value = { View };

    ghost view = { λ v. record {
      options = v.options.now;
      text = v.text.now;
      lexemes = v.lexemes.now;
      partners = v.partners.now;
      attributes = v.attributes.now;
      active = v.active.now;
      items = v.items.now;
      is_enabled = v.is_enabled;
    } };
}

/// The inner attributes that the body of the item of a number begins with.
pub(crate) fn body_attributes(items: &[Item], number: usize, body: Option<Range>) -> Range
    requires by_parent { ByParent items.now }
    requires there { number < length items.now }
    ensures { result ≡ spec.body_attributes items.now number body }
{
    match body {
        None => Range {
            first: 0,
            behind: 0,
        },
        Some(body) => inner_attributes(body.first, children_of(items, number)),
    }
}

/// The kind of the tree at a place; `Error` past the last.
fn kind_at(trees: &[Tree], at: usize) -> LexemeKind
    ensures { result ≡ heads.kind_at trees.now at }
{
    match trees.get(at) {
        None => LexemeKind::Error,
        Some(tree) => tree.kind,
    }
}

/// Whether the first of some trees are an inner attribute.
fn begins_attribute(trees: &[Tree]) -> bool
    ensures { result ≡ begins_inner_attribute trees.now }
{
    matches!(kind_at(trees, 0), LexemeKind::Mark(b'#'))
        && matches!(kind_at(trees, 1), LexemeKind::Mark(b'!'))
        && matches!(kind_at(trees, 2), LexemeKind::Open(Delimiter::Bracket))
}

/// Where the tree at a place ends; a given end past the last.
fn end_at(trees: &[Tree], at: usize, end: usize) -> usize
    ensures { result ≡ spec.end_of (slice_get trees.now at) end }
{
    match trees.get(at) {
        None => end,
        Some(tree) => tree.behind,
    }
}

/// The trees behind the first so many.
fn behind(trees: &[Tree], count: usize) -> &[Tree]
    ensures { result.now ≡ drop count trees.now }
{
    if count < trees.len() {
        &trees[count..]
    } else {
        &[]
    }
}

/// Where the inner attributes end that some trees begin with.
fn leading_end(first: usize, trees: &[Tree]) -> usize
    ensures { result ≡ spec.leading_end first trees.now }
{
    let mut end = first;
    let mut rest = trees;
    while begins_attribute(rest) {
        end = end_at(rest, 2, end);
        rest = behind(rest, 3);
    }
    end
}

fn begins_with_hash(lexemes: &[Lexeme], at: usize) -> bool
    ensures { result ≡ spec.begins_with_hash (slice_get lexemes.now at) }
{
    match lexemes.get(at) {
        None => false,
        Some(lexeme) => matches!(lexeme.kind, LexemeKind::Mark(b'#')),
    }
}

/// The inner attributes that the body of a function begins with.
fn function_attributes(
    alloc: Global,
    lexemes: &[Lexeme],
    partners: &[usize],
    body: Range,
) -> Result<Range, AllocError>
    ensures { IfOk result (λ range. range ≡
        spec.function_attributes lexemes.now partners.now body) }
{
    let first = body.first;
    if !begins_with_hash(lexemes, first) {
        return Ok(Range {
            first,
            behind: first,
        });
    }
    let all = trees(alloc, lexemes, partners, first, body.behind)?;
    let behind = leading_end(first, all.as_slice());
    Ok(Range { first, behind })
}

fn is_underscore(kind: LexemeKind) -> bool
    ensures { result ≡ spec.is_underscore kind }
{
    matches!(kind, LexemeKind::Word(Word::Underscore))
}

/// Whether lexemes are `_` alone, which always holds.
fn is_wildcard(lexemes: &[Lexeme]) -> bool
    ensures { result ≡ spec.is_wildcard lexemes.now }
{
    lexemes.len() == 1 && is_underscore(lexemes[0].kind)
}

fn is_test_kind(kind: AttributeKind) -> bool
    ensures { result ≡ spec.is_test_kind kind }
{
    matches!(kind, AttributeKind::Test | AttributeKind::Bench)
}

/// Whether an attribute, if it is active, makes a test of a function.
fn makes_test(active: &[bool], attribute: Attribute) -> bool
    ensures { result ≡ spec.makes_test active.now attribute }
{
    is_active(active, attribute.condition) && is_test_kind(attribute.kind)
}

/// Whether one of some attributes does.
fn any_makes_test(active: &[bool], attributes: &[Attribute]) -> bool
    ensures { result ≡ list_any (spec.makes_test active.now) attributes.now }
{
    attributes
        .iter()
        .any(|attribute| makes_test(active, *attribute))
}

fn has_members(kind: ItemKind) -> bool
    ensures { result ≡ spec.has_members kind }
{
    matches!(
        kind,
        ItemKind::Trait | ItemKind::Impl | ItemKind::ExternBlock
    )
}

/// Whether what is in an item, if it is in one, is a member of that.
fn is_member(items: &[Item], parent: Option<usize>) -> bool
    ensures { result ≡ spec.is_member items.now parent }
{
    match parent {
        None => false,
        Some(place) => match items.get(place) {
            None => false,
            Some(outer) => has_members(outer.kind),
        },
    }
}

impl<'a> View<'a> {
    /// Whether an active `test` or `bench` begins in a range.
    fn has_test(&self, range: Range) -> bool
        ensures { result ≡ spec.has_test self.now range }
    {
        any_makes_test(self.active, self.attributes.attributes_in(range))
    }

    /// Whether an item is a test, whose body begins with the attributes of a range.
    fn is_test(&self, item: Item, inner: Range) -> bool
        ensures { result ≡ spec.is_test self.now item inner }
    {
        matches!(item.kind, ItemKind::Function)
            && !is_member(self.items, item.parent)
            && (self.has_test(outer_attributes(item)) || self.has_test(inner))
    }

    /// Whether the crate is built with the item, if it is a test.
    fn is_built(&self, item: Item, inner: Range) -> bool
        ensures { result ≡ spec.is_built self.now item inner }
    {
        !self.is_test(item, inner) || self.options.has_flag(b"test".as_slice())
    }

    /// Whether each `cfg` that begins in a range may hold.
    pub(crate) fn may_stand(&self, range: Range) -> bool
        ensures { result ≡ spec.may_stand self.now range }
    {
        self.attributes
            .is_cfg_enabled(self.options, self.text, self.active, range)
    }

    /// The inner attributes that an item begins with, which is the one of a number.
    fn inner_of(&self, alloc: Global, number: usize, item: Item) -> Result<Range, AllocError>
        requires by_parent { ByParent self.now.items }
        requires there { number < length self.now.items }
        ensures { IfOk result
            (λ range. range ≡ spec.inner_of self.now number item.kind item.body) }
    {
        match (item.kind, item.body) {
            (ItemKind::Function, Some(body)) => {
                function_attributes(alloc, self.lexemes, self.partners, body)
            }
            _ => Ok(body_attributes(self.items, number, item.body)),
        }
    }

    /// Whether lexemes are `_`, or a predicate that may hold.
    fn predicate_holds(&self, alloc: Global, range: Range) -> Result<bool, AllocError>
        ensures { IfOk result (λ holds. holds ≡ spec.predicate_holds self.now range) }
    {
        let lexemes = lexemes_in(self.lexemes, range);
        if is_wildcard(lexemes) {
            return Ok(true);
        }
        match parse_cfg(alloc, self.text, lexemes)? {
            CfgParse::Predicate(nodes) => {
                Ok(may_hold(self.options.check(self.text, nodes.as_slice())))
            }
            CfgParse::Malformed(_at) => Ok(true),
        }
    }

    /// Whether what an item asks may hold, if it is an arm of `cfg_select!`.
    fn arm_holds(&self, alloc: Global, item: Item) -> Result<bool, AllocError>
        ensures { IfOk result (λ holds. holds ≡ spec.arm_holds self.now item) }
    {
        if !is_arm(item.kind) || item.word <= item.qualifiers {
            return Ok(true);
        }
        let predicate = Range {
            first: item.qualifiers,
            behind: item.word,
        };
        self.predicate_holds(alloc, predicate)
    }

    /// Whether an item's own `cfg`s may hold, and what it asks as an arm, and it is no test of a crate that is built without.
    fn holds(&self, alloc: Global, number: usize, item: Item) -> Result<bool, AllocError>
        requires by_parent { ByParent self.now.items }
        requires there { number < length self.now.items }
        ensures { IfOk result (λ holds. holds ≡ spec.holds self.now number item) }
    {
        let inner = self.inner_of(alloc, number, item)?;
        let is_asked_for = self.arm_holds(alloc, item)?;
        Ok(
            self.may_stand(outer_attributes(item))
                && self.may_stand(inner)
                && self.is_built(item, inner)
                && is_asked_for,
        )
    }
}

fn is_choice(kind: ItemKind) -> bool
    ensures { result ≡ spec.is_choice kind }
{
    matches!(
        kind,
        ItemKind::CfgIf | ItemKind::CfgSelect | ItemKind::CfgArm
    )
}

fn is_arm(kind: ItemKind) -> bool
    ensures { result ≡ arms.is_arm kind }
{
    matches!(kind, ItemKind::CfgArm)
}

/// Where what is in an item stands.
fn inner_module(kind: ItemKind, number: usize, around: Option<usize>) -> Option<usize>
    ensures { result ≡ spec.inner_module kind number around }
{
    if is_choice(kind) {
        around
    } else {
        Some(number)
    }
}

/// How the item stands that an item is in.
fn around(view: &View<'_>, before: &[Standing], parent: Option<usize>) -> Standing
    ensures { result ≡ spec.around view.now before.now parent }
{
    let of_file = Standing {
        home: None,
        inner: None,
        is_configured: view.is_enabled,
    };
    match parent {
        None => of_file,
        Some(place) => match before.get(place) {
            None => of_file,
            Some(standing) => *standing,
        },
    }
}

/// Whether two arms are of one call.
fn are_same(one: Option<usize>, other: Option<usize>) -> bool
    ensures { result ≡ spec.are_same one other }
{
    match (one, other) {
        (Some(one), Some(other)) => one == other,
        _ => false,
    }
}

/// Whether it is an arm behind one that holds.
fn is_passed(chosen: Option<usize>, item: Item) -> bool
    ensures { result ≡ spec.is_passed chosen item }
{
    is_arm(item.kind) && are_same(chosen, item.parent)
}

/// The call of the last arm that holds.
fn chosen_behind(chosen: Option<usize>, item: Item, holds: bool) -> Option<usize>
    ensures { result ≡ spec.chosen_behind chosen item holds }
{
    if is_arm(item.kind) && holds {
        item.parent
    } else {
        chosen
    }
}

/// How an item stands, by the one that it is in.
fn standing_of(
    chosen: Option<usize>,
    number: usize,
    item: Item,
    holds: bool,
    outer: Standing,
) -> Standing
    ensures { result ≡ spec.standing_of chosen number item holds outer }
{
    Standing {
        home: outer.inner,
        inner: inner_module(item.kind, number, outer.inner),
        is_configured: holds && outer.is_configured && !is_passed(chosen, item),
    }
}

/// How each item of a file stands. One pass over the items.
///
/// # Errors
///
/// Fails only where memory runs out.
pub(crate) fn standings(alloc: Global, view: &View<'_>) -> Result<Vec<Standing>, AllocError>
    requires { ByParent view.now.items }
    ensures { IfOk result (λ found. found.items ≡ spec.standings view.now) }
{
    let mut found: Vec<Standing> = Vec::new(alloc);
    let mut chosen = None;
    for (number, item) in view.items.iter().enumerate() {
        let holds = view.holds(alloc, number, *item)?;
        let outer = around(view, found.as_slice(), item.parent);
        found.push(standing_of(chosen, number, *item, holds, outer))?;
        chosen = chosen_behind(chosen, *item, holds);
    }
    Ok(found)
}
