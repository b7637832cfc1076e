//! The modules and textual macros of a crate in the order of its text.
ghost use Rattle.std.specs.Prelude.{◌≡◌, ◌<◌, ◌+◌, ◌++◌, ◌∷◌, [], IfOk, OnOk, drop, length, take};
ghost use Rattle.std.specs.List.{flat_map, position};
ghost use Rattle.crate_items.specs.TextualOrders as spec;

use crate::items::declared_item::DeclaredItem;
use crate::modules::declared_module::{Declaration, DeclaredModule};
use dm_base::ids::FileId;
use item_tree::items::item_kind::ItemKind;
use std::alloc::{AllocError, Global};

/// What textual scope meets in the text of a crate.
#[derive(Clone, Copy, PartialEq, Eq, Debug)]
pub enum TextEvent {
    /// A module of a number begins, behind the item that declares it.
    Begins(usize),
    /// An item of a number: a module's, or a macro by `macro_rules!`.
    Item(usize),
    /// A module ends.
    Ends(usize),
}

fn is_textual(kind: ItemKind) -> bool
    ensures { result ≡ spec.is_textual kind }
{
    match kind {
        ItemKind::Mod => true,
        ItemKind::MacroRules => true,
        _ => false,
    }
}

fn push_event(events: &mut Vec<TextEvent>, event: TextEvent) -> Result<(), AllocError>
    ensures { OnOk result (events.new.items ≡ events.old.items ++ event ∷ []) }
{
    events.push(event)?;
    Ok(())
}

/// An item that textual scope knows.
#[derive(Clone, Copy)]
pub struct TextualItem {
    /// Its number.
    pub number: usize,
    /// The number of the module that it is of.
    pub module: usize,
    /// The file of that module.
    pub file: FileId,
    /// The number of the item in the tree of that file.
    pub item: usize,
}

/// Adds the item of a number, if textual scope knows it.
fn push_textual(
    found: &mut Vec<TextualItem>,
    number: usize,
    item: &DeclaredItem,
) -> Result<(), AllocError>
    ensures { OnOk result (found.new.items ≡ found.old.items ++ spec.textual_if number item.now) }
{
    if is_textual(item.kind) {
        found.push(TextualItem {
            number,
            module: item.module,
            file: item.file,
            item: item.item,
        })?;
    }
    Ok(())
}

/// The items that textual scope knows: few of all, so that these alone are gone over for each module.
pub(crate) fn textual_items(
    alloc: Global,
    items: &[DeclaredItem],
) -> Result<Vec<TextualItem>, AllocError>
    ensures { IfOk result (λ found. found.items ≡ spec.textual_from 0 items.now) }
{
    let mut found = Vec::new(alloc);
    for (number, item) in items.iter().enumerate() {
        push_textual(&mut found, number, item)?;
    }
    Ok(found)
}

/// Adds an item, if it is one of a module.
fn push_item(events: &mut Vec<TextEvent>, home: usize, item: TextualItem) -> Result<(), AllocError>
    ensures { OnOk result (events.new.items ≡ events.old.items ++ spec.event_in home item) }
{
    if item.module == home {
        push_event(events, TextEvent::Item(item.number))?;
    }
    Ok(())
}

/// Adds those of a module.
fn push_items(
    events: &mut Vec<TextEvent>,
    home: usize,
    textual: &[TextualItem],
) -> Result<(), AllocError>
    ensures { OnOk result
        (events.new.items ≡ events.old.items ++ flat_map (spec.event_in home) textual.now) }
{
    for item in textual {
        push_item(events, home, *item)?;
    }
    Ok(())
}

/// Adds what stands in a module.
fn push_block(
    events: &mut Vec<TextEvent>,
    home: usize,
    textual: &[TextualItem],
) -> Result<(), AllocError>
    ensures { OnOk result
        (events.new.items ≡ events.old.items ++ spec.block textual.now home) }
{
    push_event(events, TextEvent::Begins(home))?;
    push_items(events, home, textual)?;
    push_event(events, TextEvent::Ends(home))?;
    Ok(())
}

/// Adds some events.
fn push_events(events: &mut Vec<TextEvent>, more: &[TextEvent]) -> Result<(), AllocError>
    ensures { OnOk result (events.new.items ≡ events.old.items ++ more.now) }
{
    for event in more {
        events.push(*event)?;
    }
    Ok(())
}

/// Whether an item is what declares a module.
fn is_declared_by(declaration: &Declaration, item: &TextualItem) -> bool
    ensures { result ≡ spec.is_declared_by declaration.now item.now }
{
    item.module == declaration.parent
        && item.file.0 == declaration.file.0
        && item.item == declaration.item
}

/// Whether an event is the item of a number.
fn is_item(number: usize, event: TextEvent) -> bool
    ensures { result ≡ spec.is_item number event }
{
    match event {
        TextEvent::Item(item) => item == number,
        _ => false,
    }
}

/// The number of the item that declares a module.
pub(crate) fn declaring(textual: &[TextualItem], declaration: &Declaration) -> Option<usize>
    ensures { result ≡ spec.declaring textual.now declaration.now }
{
    let found = textual
        .iter()
        .find(|item| is_declared_by(declaration, item));
    match found {
        None => None,
        Some(item) => Some(item.number),
    }
}

/// The place of the item of a number.
fn place_of(events: &[TextEvent], number: usize) -> Option<usize>
    ensures { result ≡ position (spec.is_item number) events.now }
{
    events.iter().position(|event| is_item(number, *event))
}

/// The events through the one at a place.
fn through(events: &[TextEvent], place: usize) -> &[TextEvent]
    requires { place < length events.now }
    ensures { result.now ≡ take (place + 1) events.now }
{
    &events[..place + 1]
}

/// The events behind the one at a place.
fn behind(events: &[TextEvent], place: usize) -> &[TextEvent]
    requires { place < length events.now }
    ensures { result.now ≡ drop (place + 1) events.now }
{
    &events[place + 1..]
}

/// The events, with what stands in a module behind the one at a place.
fn spliced(
    alloc: Global,
    events: &[TextEvent],
    textual: &[TextualItem],
    home: usize,
    place: usize,
) -> Result<Vec<TextEvent>, AllocError>
    requires { place < length events.now }
    ensures { IfOk result (λ more. more.items ≡
        take (place + 1) events.now ++ spec.block textual.now home ++ drop (place + 1) events.now) }
{
    let mut more = Vec::new(alloc);
    push_events(&mut more, through(events, place))?;
    push_block(&mut more, home, textual)?;
    push_events(&mut more, behind(events, place))?;
    Ok(more)
}

/// The events, with what stands in a module behind the item of a number, if that is there.
fn put_behind(
    alloc: Global,
    events: Vec<TextEvent>,
    textual: &[TextualItem],
    home: usize,
    number: usize,
) -> Result<Vec<TextEvent>, AllocError>
    ensures { IfOk result (λ more. more.items ≡ spec.put_behind events.items
        (spec.block textual.now home) (position (spec.is_item number) events.items)) }
{
    match place_of(events.as_slice(), number) {
        None => Ok(events),
        Some(place) => spliced(alloc, events.as_slice(), textual, home, place),
    }
}

/// The events, with what stands in a module behind the item that declares it.
fn with_declared(
    alloc: Global,
    events: Vec<TextEvent>,
    textual: &[TextualItem],
    home: usize,
    declaration: &Declaration,
) -> Result<Vec<TextEvent>, AllocError>
    ensures { IfOk result (λ more. more.items ≡ spec.put_in textual.now events.items home
        (spec.declaring textual.now declaration.now)) }
{
    match declaring(textual, declaration) {
        None => Ok(events),
        Some(number) => put_behind(alloc, events, textual, home, number),
    }
}

/// The same, if it is declared.
fn with_module(
    alloc: Global,
    events: Vec<TextEvent>,
    textual: &[TextualItem],
    home: usize,
    declared: &DeclaredModule,
) -> Result<Vec<TextEvent>, AllocError>
    ensures { IfOk result (λ more. more.items ≡
        spec.with_module textual.now events.items home declared.now.declaration) }
{
    match declared.declaration() {
        None => Ok(events),
        Some(declaration) => with_declared(alloc, events, textual, home, declaration),
    }
}

/// The modules and the macros by `macro_rules!` of a crate in the order of its text, by its modules and its items, as
/// `declared_items` gives these. What stands in a module stands behind the item that declares it. Numbers are places in
/// the two lists. For each module the modules and macros are looked through for the one that declares it, and then the
/// events.
///
/// # Errors
///
/// Fails only where memory runs out.
pub fn textual_order(
    alloc: Global,
    modules: &[DeclaredModule],
    items: &[DeclaredItem],
) -> Result<Vec<TextEvent>, AllocError>
    ensures { IfOk result (λ events. events.items ≡ spec.textual_order modules.now items.now) }
{
    let known = textual_items(alloc, items)?;
    let textual = known.as_slice();
    let mut events = Vec::new(alloc);
    push_block(&mut events, 0, textual)?;
    for (home, declared) in modules.iter().enumerate() {
        events = with_module(alloc, events, textual, home, declared)?;
    }
    Ok(events)
}
