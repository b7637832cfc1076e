//! The modules that a file declares, as a crate reads it.
ghost use Rattle.std.specs.Prelude.{◌≡◌, ◌<◌, ◌++◌, IfOk, OnOk, length, slice_get};
ghost use Rattle.crate_items.specs.ModItems as spec;
ghost use Rattle.item_tree.specs.Children.{ByParent};

use crate::modules::standing::{Standing, View, body_attributes};
use item_tree::attributes::attribute_kind::AttributeKind;
use item_tree::attributes::item_attributes::outer_attributes;
use item_tree::attributes::{Attribute, is_active};
use item_tree::items::item_kind::ItemKind;
use item_tree::items::visibility::{RawVisibility, raw_visibility};
use item_tree::items::{Item, Range};
use item_tree::lexer::lexeme::Lexeme;
use item_tree::lexer::span::Span;
use std::alloc::{AllocError, Global};

/// A module that a file declares.
#[derive(Clone, Copy, PartialEq, Eq, Debug)]
pub struct ModItem {
    /// The number of its item in the tree of the file.
    pub item: usize,
    /// The item of the inline module that it stands in; none, where that is the file's.
    pub home: Option<usize>,
    /// Where its name stands in the text.
    pub name: Span,
    /// Its visibility, as it is written.
    pub visibility: RawVisibility,
    /// Where the string of its `#[path]` stands in the text.
    pub path: Option<Span>,
    /// Whether its items stand in another file.
    pub is_outline: bool,
}

/// Where the lexeme at a place stands in the text.
fn span_at(lexemes: &[Lexeme], place: Option<usize>) -> Option<Span>
    ensures { result ≡ spec.span_at lexemes.now place }
{
    match place {
        None => None,
        Some(place) => match lexemes.get(place) {
            None => None,
            Some(lexeme) => Some(Span {
                start: lexeme.start,
                len: lexeme.len,
            }),
        },
    }
}

fn path_in_kind(kind: AttributeKind) -> Option<Span>
    ensures { result ≡ spec.path_in_kind kind }
{
    match kind {
        AttributeKind::Path(span) => Some(span),
        _ => None,
    }
}

/// The string of a `#[path]` that is active.
fn path_in(active: &[bool], attribute: Attribute) -> Option<Span>
    ensures { result ≡ spec.path_in active.now attribute }
{
    if is_active(active, attribute.condition) {
        path_in_kind(attribute.kind)
    } else {
        None
    }
}

fn or_else(found: Option<Span>, next: Option<Span>) -> Option<Span>
    ensures { result ≡ spec.or_else found next }
{
    match found {
        None => next,
        Some(span) => Some(span),
    }
}

/// The string of the first active `#[path]` of some attributes.
fn first_path(active: &[bool], attributes: &[Attribute]) -> Option<Span>
    ensures { result ≡ spec.path_behind active.now None attributes.now }
{
    let mut found = None;
    for attribute in attributes {
        found = or_else(found, path_in(active, *attribute));
    }
    found
}

/// The string of the first active `#[path]` that begins in a range.
pub(crate) fn path_in_range(view: &View<'_>, range: Range) -> Option<Span>
    ensures { result ≡ spec.path_in_range view.now range }
{
    first_path(view.active, view.attributes.attributes_in(range))
}

/// The string of the `#[path]` of the item of a number: before it, or first within its braces.
fn path_of(view: &View<'_>, number: usize, item: Item) -> Option<Span>
    requires by_parent { ByParent view.now.items }
    requires there { number < length view.now.items }
    ensures { result ≡ spec.path_of view.now number item }
{
    or_else(
        path_in_range(view, outer_attributes(item)),
        path_in_range(view, body_attributes(view.items, number, item.body)),
    )
}

fn is_mod(kind: ItemKind) -> bool
    ensures { result ≡ spec.is_mod kind }
{
    matches!(kind, ItemKind::Mod)
}

/// The module that an item of this name is.
fn mod_item(
    lexemes: &[Lexeme],
    view: &View<'_>,
    number: usize,
    item: Item,
    home: Option<usize>,
    name: Span,
) -> ModItem
    requires by_parent { ByParent view.now.items }
    requires there { number < length view.now.items }
    ensures { result ≡ spec.mod_item lexemes.now view.now number item home name }
{
    let written = Range {
        first: item.visibility,
        behind: item.qualifiers,
    };
    ModItem {
        item: number,
        home,
        name,
        visibility: raw_visibility(lexemes, written),
        path: path_of(view, number, item),
        is_outline: item.body.is_none(),
    }
}

/// Adds an item that stands so, if it is a module that the crate has.
fn push_mod(
    mods: &mut Vec<ModItem>,
    lexemes: &[Lexeme],
    view: &View<'_>,
    number: usize,
    item: Item,
    standing: Option<Standing>,
) -> Result<(), AllocError>
    requires by_parent { ByParent view.now.items }
    requires there { number < length view.now.items }
    ensures { OnOk result
        (mods.new.items ≡ mods.old.items ++ spec.mod_if lexemes.now view.now number item standing) }
{
    match standing {
        Some(standing) if is_mod(item.kind) && standing.is_configured => {
            match span_at(lexemes, item.name) {
                None => Ok(()),
                Some(name) => {
                    mods.push(mod_item(lexemes, view, number, item, standing.home, name))?;
                    Ok(())
                }
            }
        }
        _ => Ok(()),
    }
}

/// How the item of a number stands.
fn standing_at(standings: &[Standing], number: usize) -> Option<Standing>
    ensures { result ≡ slice_get standings.now number }
{
    standings.get(number).copied()
}

/// Adds an item, if it is a module that the crate has.
fn push_item(
    mods: &mut Vec<ModItem>,
    lexemes: &[Lexeme],
    view: &View<'_>,
    standings: &[Standing],
    number: usize,
    item: Item,
) -> Result<(), AllocError>
    requires by_parent { ByParent view.now.items }
    requires there { number < length view.now.items }
    ensures { OnOk result (mods.new.items ≡ mods.old.items
        ++ spec.mod_if lexemes.now view.now number item (slice_get standings.now number)) }
{
    let standing = standing_at(standings, number);
    push_mod(mods, lexemes, view, number, item, standing)?;
    Ok(())
}

/// Those of a file's items that are modules and that the crate has, in the order of the tree.
fn mods_in_tree(
    alloc: Global,
    lexemes: &[Lexeme],
    view: &View<'_>,
    standings: &[Standing],
) -> Result<Vec<ModItem>, AllocError>
    requires { ByParent view.now.items }
    ensures { IfOk result
        (λ mods. mods.items ≡ spec.mods_of lexemes.now view.now standings.now) }
{
    let mut mods = Vec::new(alloc);
    for (number, item) in view.items.iter().enumerate() {
        push_item(&mut mods, lexemes, view, standings, number, *item)?;
    }
    Ok(mods)
}

/// Those of a file's items that are modules and that the crate has, in the order of the text.
///
/// # Errors
///
/// Fails only where memory runs out.
pub(crate) fn mod_items(
    alloc: Global,
    lexemes: &[Lexeme],
    view: &View<'_>,
    standings: &[Standing],
) -> Result<Vec<ModItem>, AllocError>
    requires { ByParent view.now.items }
    ensures { IfOk result (λ mods. spec.IsInTextOrder
        (spec.mods_of lexemes.now view.now standings.now) mods.items) }
{
    let mut mods = mods_in_tree(alloc, lexemes, view, standings)?;
    mods.sort_by_key(|declared| declared.name.start)?;
    Ok(mods)
}
