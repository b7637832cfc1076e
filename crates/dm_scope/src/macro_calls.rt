//! The macro calls of a scope, wherever they were set.
ghost use Rattle.std.specs.Prelude.{◌≡◌, ◌++◌, ◌∷◌, [], length, map};
ghost use Rattle.std.specs.Iterator.{at_most};
ghost use Rattle.std.specs.List.{filter_map};
ghost use Rattle.std.specs.Map.Iter.{TakesFirst, ShowsInOrder};
ghost use Rattle.std.specs.Option.{MatchOption};
ghost use Rattle.std.specs.Slice.Iter.{iter_rest};
ghost use Rattle.dm_base.specs.declared.ids.MacroCallId.{MacroCallId};
ghost use Rattle.dm_scope.specs.MacroCalls.{Takes, attribute_calls, item_calls};

use crate::derives::DeriveMacroInvocation;
use crate::picked::Picked;
use crate::picks::CallInSlot;
use dm_base::ids::{BuiltinDeriveImplId, MacroCallId};
use either::Either;
use smallvec::SmallVec;
use std::marker::Model;
use std::slice;

/// The macro calls in the slots of a derive attribute.
type SlotCalls<'a> = Picked<'a, Option<Either<MacroCallId, BuiltinDeriveImplId>>, CallInSlot>;

/// The macro calls in the slots of an item's derive attributes.
#[derive(Drop)]
struct AttributeCalls<'a> {
    slots: SlotCalls<'a>,
    attributes: slice::Iter<'a, DeriveMacroInvocation>,
}

impl<'a> Model for AttributeCalls<'a> {
    ghost use Rattle.std.specs.Prelude.{List, ◌++◌};
    ghost use Rattle.std.specs.Slice.Iter.{iter_rest};
    ghost use Rattle.dm_base.specs.declared.ids.MacroCallId.{MacroCallId};
    ghost use Rattle.dm_scope.specs.MacroCalls.{Takes, attribute_calls};

    ghost Value = { List MacroCallId };

    ghost view = { λ a. a.slots ++ attribute_calls (iter_rest a.attributes) };
}

impl<'a> AttributeCalls<'a> {
    fn new(attributes: &'a [DeriveMacroInvocation]) -> Self
        ensures { result ≡ attribute_calls attributes.now }
    {
        AttributeCalls {
            slots: Picked::new(&[], CallInSlot),
            attributes: attributes.iter(),
        }
    }
}

/// The next call among those of attributes, with the others of its attribute.
fn next_in_attributes<'a>(
    attributes: &mut slice::Iter<'a, DeriveMacroInvocation>,
) -> Option<(MacroCallId, SlotCalls<'a>)>
    ensures { Takes (attribute_calls (iter_rest attributes.old))
        (attribute_calls (iter_rest attributes.new)) result }
{
    while let Some(attribute) = attributes.next() {
        let mut slots = Picked::new(attribute.derive_call_ids.as_slice(), CallInSlot);
        if let Some(call) = slots.next() {
            return Some((call, slots));
        }
    }
    None
}

impl<'a> Iterator for AttributeCalls<'a> {
    type Item = MacroCallId;

    ghost next_gives = { TakesFirst (λ x. x) };

    ghost remaining = { λ s. at_most (length s) };

    fn next(&mut self) -> Option<MacroCallId> {
        if let Some(call) = self.slots.next() {
            return Some(call);
        }
        let (call, slots) = next_in_attributes(&mut self.attributes)?;
        self.slots = slots;
        Some(call)
    }
}

/// The macro calls in the slots of the derive attributes of some items.
#[derive(Drop)]
struct DeriveCalls<'a> {
    attributes: AttributeCalls<'a>,
    items: slice::Iter<'a, SmallVec<DeriveMacroInvocation, 1>>,
}

impl<'a> Model for DeriveCalls<'a> {
    ghost use Rattle.std.specs.Prelude.{List, ◌++◌};
    ghost use Rattle.std.specs.Slice.Iter.{iter_rest};
    ghost use Rattle.dm_base.specs.declared.ids.MacroCallId.{MacroCallId};
    ghost use Rattle.dm_scope.specs.MacroCalls.{Takes, item_calls};

    ghost Value = { List MacroCallId };

    ghost view = { λ a. a.attributes ++ item_calls (iter_rest a.items) };
}

impl<'a> DeriveCalls<'a> {
    fn new(items: &'a [SmallVec<DeriveMacroInvocation, 1>]) -> Self
        ensures { result ≡ item_calls items.now }
    {
        DeriveCalls {
            attributes: AttributeCalls::new(&[]),
            items: items.iter(),
        }
    }
}

/// The next call among those of items, with the others of its item.
fn next_in_items<'a>(
    items: &mut slice::Iter<'a, SmallVec<DeriveMacroInvocation, 1>>,
) -> Option<(MacroCallId, AttributeCalls<'a>)>
    ensures { Takes (item_calls (iter_rest items.old)) (item_calls (iter_rest items.new)) result }
{
    while let Some(derives) = items.next() {
        let mut attributes = AttributeCalls::new(derives.as_slice());
        if let Some(call) = attributes.next() {
            return Some((call, attributes));
        }
    }
    None
}

impl<'a> Iterator for DeriveCalls<'a> {
    type Item = MacroCallId;

    ghost next_gives = { TakesFirst (λ x. x) };

    ghost remaining = { λ s. at_most (length s) };

    fn next(&mut self) -> Option<MacroCallId> {
        if let Some(call) = self.attributes.next() {
            return Some(call);
        }
        let (call, attributes) = next_in_items(&mut self.items)?;
        self.attributes = attributes;
        Some(call)
    }
}

/// All macro calls of a scope: of function-like macros, of attribute macros, and in the slots of derive attributes.
#[derive(Drop)]
pub struct AllMacroCalls<'a> {
    macro_invocations: slice::Iter<'a, MacroCallId>,
    attr_macros: slice::Iter<'a, MacroCallId>,
    derives: DeriveCalls<'a>,
}

impl<'a> Model for AllMacroCalls<'a> {
    ghost use Rattle.std.specs.Prelude.{List, ◌++◌};
    ghost use Rattle.std.specs.Slice.Iter.{iter_rest};
    ghost use Rattle.dm_base.specs.declared.ids.MacroCallId.{MacroCallId};

    ghost Value = { List MacroCallId };

    ghost view = { λ a. iter_rest a.macro_invocations ++ iter_rest a.attr_macros ++ a.derives };
}

impl<'a> AllMacroCalls<'a> {
    pub(crate) fn new(
        macro_invocations: &'a [MacroCallId],
        attr_macros: &'a [MacroCallId],
        derives: &'a [SmallVec<DeriveMacroInvocation, 1>],
    ) -> Self
        ensures rest { result ≡ macro_invocations.now ++ attr_macros.now ++ item_calls derives.now }
        ensures runs { ShowsInOrder (λ (x : MacroCallId). x) }
    {
        AllMacroCalls {
            macro_invocations: macro_invocations.iter(),
            attr_macros: attr_macros.iter(),
            derives: DeriveCalls::new(derives),
        }
    }
}

impl<'a> Iterator for AllMacroCalls<'a> {
    type Item = MacroCallId;

    ghost next_gives = { TakesFirst (λ x. x) };

    ghost remaining = { λ s. at_most (length s) };

    fn next(&mut self) -> Option<MacroCallId> {
        if let Some(call) = self.macro_invocations.next() {
            return Some(*call);
        }
        if let Some(call) = self.attr_macros.next() {
            return Some(*call);
        }
        self.derives.next()
    }
}
