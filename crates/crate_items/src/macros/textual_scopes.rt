//! Which macros by `macro_rules!` are in textual scope in a module of a crate, and from where on.
ghost use Rattle.std.specs.Prelude.{◌≡◌, ◌<◌, ◌+◌, ◌++◌, ◌∷◌, [], IfOk, Some, OnOk, drop, length, map, reverse, slice_get};
ghost use Rattle.std.specs.List.{find, list_any};
ghost use Rattle.std.specs.Option.{option_copied};
ghost use Rattle.crate_items.specs.TextualScopes as spec;

use crate::items::declared_item::DeclaredItem;
use crate::macros::left_behind::all_left;
use crate::macros::textual_order::{TextEvent, textual_order};
use crate::modules::CrateModules;
use crate::modules::declared_module::DeclaredModule;
use dm_base::name::Name;
use item_tree::items::item_kind::ItemKind;
use std::alloc::{AllocError, Global};
use std::marker::Model;

/// A macro by `macro_rules!` in the textual scope of a module.
#[derive(Clone, Copy)]
pub struct TextualMacro {
    /// The number of its item.
    pub number: usize,
    /// The number of the item of the module behind which it is in scope: its own, or that of a module which left it there.
    /// None where it is in scope from the beginning of the module.
    pub behind: Option<usize>,
}

/// The textual scope of a module where it ends: the macros in it, in the order of definition. Of one name the last counts.
/// A contract sees the macros.
pub struct TextualScope {
    macros: Vec<TextualMacro>,
}

/// Hand-written `Drop`, to keep proofs small: dropping one is then a single call.
impl Drop for TextualScope {
    fn drop(self) {
        let TextualScope { macros: _macros } = self;
    }
}

impl Model for TextualScope {
    ghost use Rattle.std.specs.Prelude.{List};
    ghost use Rattle.crate_items.specs.declared.macros.textual_scopes.TextualMacro.{TextualMacro};

    ghost Value = { List TextualMacro };

    ghost view = { λ s. s.macros.items };
}

impl TextualScope {
    /// The macros, in the order of definition.
    pub fn macros(&self) -> &[TextualMacro]
        ensures { result.now ≡ self.now }
    {
        self.macros.as_slice()
    }

    /// The number of the item of the macro that a path of one name means in textual scope at an item of the module, by the
    /// items of the crate: of the macros of that name which are in scope before the item, the last.
    pub fn macro_before(&self, items: &[DeclaredItem], number: usize, name: &Name) -> Option<usize>
        ensures { result ≡ spec.macro_before items.now self.now number name.now }
    {
        match last_meant(self.macros(), items, number, name) {
            None => None,
            Some(found) => Some(found.number),
        }
    }

    /// Adds some, the last.
    fn extend(&mut self, more: &[TextualMacro]) -> Result<(), AllocError>
        ensures { OnOk result (self.new ≡ self.old ++ more.now) }
    {
        let added = push_macros(&mut self.macros, more)?;
        Ok(added)
    }
}

fn push_macros(macros: &mut Vec<TextualMacro>, more: &[TextualMacro]) -> Result<(), AllocError>
    ensures { OnOk result (macros.new.items ≡ macros.old.items ++ more.now) }
{
    for one in more {
        macros.push(*one)?;
    }
    Ok(())
}

/// Whether what stands behind an item is in scope before another of the module.
fn is_before(number: usize, behind: Option<usize>) -> bool
    ensures { result ≡ spec.is_before number behind }
{
    match behind {
        None => true,
        Some(behind) => behind < number,
    }
}

/// Whether a name at an item may mean a macro.
fn is_meant(items: &[DeclaredItem], number: usize, name: &Name, one: TextualMacro) -> bool
    ensures { result ≡ spec.is_meant items.now number name.now one }
{
    is_before(number, one.behind) && is_same(name_at(items, one.number), Some(name))
}

/// The last macro that a name at an item may mean.
fn last_meant<'a>(
    macros: &'a [TextualMacro],
    items: &[DeclaredItem],
    number: usize,
    name: &Name,
) -> Option<&'a TextualMacro>
    ensures { option_copied result ≡ find (spec.is_meant items.now number name.now) (reverse macros.now) }
{
    macros
        .iter()
        .rev()
        .find(|one| is_meant(items, number, name, **one))
}

/// A scope of nothing for each module.
fn no_scopes(alloc: Global, modules: &[DeclaredModule]) -> Result<Vec<TextualScope>, AllocError>
    ensures { IfOk result (λ scopes. scopes.items ≡ map spec.nothing_in modules.now) }
{
    let mut scopes = Vec::new(alloc);
    for _listed in modules {
        scopes.push(TextualScope {
            macros: Vec::new(alloc),
        })?;
    }
    Ok(scopes)
}

/// What is in the scope of a module.
fn scope_at(scopes: &[TextualScope], home: usize) -> &[TextualMacro]
    ensures { result.now ≡ spec.scope_at scopes.now home }
{
    match scopes.get(home) {
        None => &[],
        Some(scope) => scope.macros(),
    }
}

/// Some macros as they are in scope behind an item, or from the beginning of a module.
fn entering(
    alloc: Global,
    macros: &[TextualMacro],
    behind: Option<usize>,
) -> Result<Vec<TextualMacro>, AllocError>
    ensures { IfOk result (λ made. made.items ≡ map (spec.entering behind) macros.now) }
{
    let mut made = Vec::new(alloc);
    for one in macros {
        made.push(TextualMacro {
            number: one.number,
            behind,
        })?;
    }
    Ok(made)
}

/// Adds some macros to the scope of a module.
fn extend_at(
    scopes: &mut Vec<TextualScope>,
    home: usize,
    more: &[TextualMacro],
) -> Result<(), AllocError>
    ensures { OnOk result (scopes.new.items ≡ spec.extended scopes.old.items home more.now) }
{
    match scopes.get_mut(home) {
        None => Ok(()),
        Some(scope) => scope.extend(more),
    }
}

/// Whether two names are there and the same.
fn is_same(one: Option<&Name>, other: Option<&Name>) -> bool
    ensures { result ≡ spec.is_same (option_copied one.entry) (option_copied other.entry) }
{
    match (one, other) {
        (Some(one), Some(other)) => one == other,
        _ => false,
    }
}

/// The name of the item of a number.
fn name_at(items: &[DeclaredItem], number: usize) -> Option<&Name>
    ensures { option_copied result ≡ spec.name_at items.now number }
{
    match items.get(number) {
        None => None,
        Some(item) => item.name.as_ref(),
    }
}

/// Whether one of some macros has the name of an item.
fn any_named(items: &[DeclaredItem], number: usize, others: &[TextualMacro]) -> bool
    ensures { result ≡ list_any (λ o. spec.has_name_of items.now number o.number) others.now }
{
    let name = name_at(items, number);
    others
        .iter()
        .any(|other| is_same(name, name_at(items, other.number)))
}

/// The macros behind a place.
fn behind(macros: &[TextualMacro], place: usize) -> &[TextualMacro]
    requires { place < length macros.now }
    ensures { result.now ≡ drop (place + 1) macros.now }
{
    &macros[place + 1..]
}

/// Adds a macro, unless one behind it has its name.
fn push_last(
    last: &mut Vec<TextualMacro>,
    items: &[DeclaredItem],
    one: TextualMacro,
    others: &[TextualMacro],
) -> Result<(), AllocError>
    ensures { OnOk result (last.new.items ≡ last.old.items ++ spec.if_last items.now one others.now) }
{
    if !any_named(items, one.number, others) {
        last.push(one)?;
    }
    Ok(())
}

/// Of each name the last.
fn last_of_each(
    alloc: Global,
    items: &[DeclaredItem],
    macros: &[TextualMacro],
) -> Result<Vec<TextualMacro>, AllocError>
    ensures { IfOk result (λ last. last.items ≡ spec.last_of_each items.now macros.now) }
{
    let mut last = Vec::new(alloc);
    for (place, one) in macros.iter().enumerate() {
        push_last(&mut last, items, *one, behind(macros, place))?;
    }
    Ok(last)
}

/// The module that one stands in.
fn parent_of(modules: &[DeclaredModule], home: usize) -> Option<usize>
    ensures { result ≡ spec.parent_of modules.now home }
{
    match modules.get(home) {
        None => None,
        Some(declared) => match declared.declaration() {
            None => None,
            Some(declaration) => Some(declaration.parent),
        },
    }
}

/// A module begins.
fn begin(
    scopes: &mut Vec<TextualScope>,
    alloc: Global,
    home: usize,
    parent: Option<usize>,
) -> Result<(), AllocError>
    ensures { OnOk result (scopes.new.items ≡ spec.begun scopes.old.items home parent) }
{
    match parent {
        None => Ok(()),
        Some(parent) => {
            let around = entering(alloc, scope_at(scopes.as_slice(), parent), None)?;
            extend_at(scopes, home, around.as_slice())
        }
    }
}

/// The item behind which a module leaves its macros.
fn left_at(left: &[Option<usize>], home: usize) -> Option<usize>
    ensures { result ≡ spec.left_at left.now home }
{
    match left.get(home) {
        None => None,
        Some(number) => *number,
    }
}

/// The last macro of each name in a module, as it is in scope behind an item of the module around.
fn left_macros(
    alloc: Global,
    items: &[DeclaredItem],
    macros: &[TextualMacro],
    number: usize,
) -> Result<Vec<TextualMacro>, AllocError>
    ensures { IfOk result
        (λ made. made.items ≡ map (spec.entering (Some number)) (spec.last_of_each items.now macros.now)) }
{
    let last = last_of_each(alloc, items, macros)?;
    let made = entering(alloc, last.as_slice(), Some(number))?;
    Ok(made)
}

/// A module ends.
fn end(
    scopes: &mut Vec<TextualScope>,
    alloc: Global,
    items: &[DeclaredItem],
    home: usize,
    parent: Option<usize>,
    left: Option<usize>,
) -> Result<(), AllocError>
    ensures { OnOk result (scopes.new.items ≡ spec.ended items.now scopes.old.items home parent left) }
{
    match (parent, left) {
        (Some(parent), Some(number)) => {
            let made = left_macros(alloc, items, scope_at(scopes.as_slice(), home), number)?;
            extend_at(scopes, parent, made.as_slice())
        }
        _ => Ok(()),
    }
}

fn defines(kind: ItemKind) -> bool
    ensures { result ≡ spec.defines kind }
{
    matches!(kind, ItemKind::MacroRules)
}

/// An item is met: it may define a macro.
fn define(
    scopes: &mut Vec<TextualScope>,
    items: &[DeclaredItem],
    number: usize,
) -> Result<(), AllocError>
    ensures { OnOk result
        (scopes.new.items ≡ spec.defined scopes.old.items number (slice_get items.now number)) }
{
    match items.get(number) {
        None => Ok(()),
        Some(item) => {
            if defines(item.kind) {
                let behind = Some(number);
                extend_at(scopes, item.module, &[TextualMacro { number, behind }])
            } else {
                Ok(())
            }
        }
    }
}

/// Something is met in the text.
fn meet(
    scopes: &mut Vec<TextualScope>,
    alloc: Global,
    modules: &[DeclaredModule],
    items: &[DeclaredItem],
    left: &[Option<usize>],
    event: TextEvent,
) -> Result<(), AllocError>
    ensures { OnOk result
        (scopes.new.items ≡ spec.met modules.now items.now left.now scopes.old.items event) }
{
    match event {
        TextEvent::Begins(home) => begin(scopes, alloc, home, parent_of(modules, home)),
        TextEvent::Item(number) => define(scopes, items, number),
        TextEvent::Ends(home) => {
            let parent = parent_of(modules, home);
            end(scopes, alloc, items, home, parent, left_at(left, home))
        }
    }
}

/// All of the text is met, in order.
fn meet_all(
    scopes: &mut Vec<TextualScope>,
    alloc: Global,
    modules: &[DeclaredModule],
    items: &[DeclaredItem],
    left: &[Option<usize>],
    events: &[TextEvent],
) -> Result<(), AllocError>
    ensures { OnOk result (scopes.new.items ≡
        spec.all_met modules.now items.now left.now scopes.old.items events.now) }
{
    for event in events {
        meet(scopes, alloc, modules, items, left, *event)?;
    }
    Ok(())
}

/// For each module of a crate's list the macros by `macro_rules!` that are in textual scope where it ends, by their items,
/// as `declared_items` gives these, and from where on each is. A module begins with what is in scope where it stands, a
/// macro is in scope behind its item, and a module under an active `macro_use` leaves the last macro of each name behind
/// it; so does one whose file begins with one.
///
/// # Errors
///
/// Fails only where memory runs out.
pub fn textual_scopes(
    alloc: Global,
    list: &CrateModules,
    items: &[DeclaredItem],
) -> Result<Vec<TextualScope>, AllocError>
    ensures { IfOk result (λ scopes. scopes.items ≡ spec.textual_scopes list.now items.now) }
{
    let modules = list.modules();
    let left = all_left(alloc, list, items)?;
    let events = textual_order(alloc, modules, items)?;
    let mut scopes = no_scopes(alloc, modules)?;
    meet_all(
        &mut scopes,
        alloc,
        modules,
        items,
        left.as_slice(),
        events.as_slice(),
    )?;
    Ok(scopes)
}
