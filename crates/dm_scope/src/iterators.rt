//! The iterators of a scope. Contracts see each as the list of what it has still to yield.
ghost use Rattle.std.specs.Prelude.{◌≡◌, ◌++◌, Some, IfSome, length, map};
ghost use Rattle.std.specs.Iterator.{at_most, UpTo};
ghost use Rattle.std.specs.Iterator.SizeHint.{IsWithinCount};
ghost use Rattle.std.specs.List.{filter_map};
ghost use Rattle.std.specs.Map.Iter.{TakesFirst, ShowsInOrder, deref_pair};
ghost use Rattle.dm_base.specs.declared.ids.TraitId.{TraitId};
ghost use Rattle.dm_base.specs.declared.ids.MacroCallId.{MacroCallId};
ghost use Rattle.dm_base.specs.declared.source.AstId.{AstId};
ghost use Rattle.dm_scope.specs.Derives.{derives_of, deref_derives};
ghost use Rattle.dm_scope.specs.Iterators.{trait_of, deref_legacy};
ghost use Rattle.dm_scope.specs.TableLists.{lists_of};

use crate::derives::DeriveMacroInvocation;
use crate::picked::Picked;
use crate::picks::{AnyImpl, InherentImpl, ModuleType, TraitImpl, TraitType};
use dm_base::ids::{ImplId, MacroCallId, TraitId};
use dm_base::imports::ImportId;
use dm_base::item_ids::MacroId;
use dm_base::name::Name;
use dm_base::per_ns::TypesItem;
use dm_base::source::AstId;
use dm_base::visibility::Visibility;
use indexmap::map::{self, Slice};
use smallvec::SmallVec;
use std::marker::Model;
use std::slice;

/// What a list of a scope has, in order.
#[derive(Drop)]
pub struct Listed<'a, T> {
    rest: slice::Iter<'a, T>,
}

impl<'a, T> Model for Listed<'a, T> {
    ghost use Rattle.std.specs.Prelude.{List};
    ghost use Rattle.std.specs.Slice.Iter.{iter_rest};

    ghost Value = { List T };

    ghost view = { λ a. iter_rest a.rest };
}

impl<'a, T> Listed<'a, T> {
    pub(crate) fn new(list: &'a [T]) -> Self
        ensures rest { result ≡ list.now }
        ensures runs { ShowsInOrder (λ (x : T). x) }
    {
        Listed { rest: list.iter() }
    }
}

impl<'a, T: Copy> Iterator for Listed<'a, T> {
    type Item = T;

    ghost next_gives = { TakesFirst (λ x. x) };

    ghost remaining = { λ s. at_most (length s) };

    fn next(&mut self) -> Option<T> {
        let item = self.rest.next()?;
        Some(*item)
    }

    fn size_hint(&self) -> (usize, Option<usize>)
        ensures lower { IsWithinCount result.0 (at_most (length self.now)) }
        ensures upper { IfSome result.1 (UpTo (at_most (length self.now))) }
        ensures exact { result ≡ (length self.now, Some (length self.now)) }
    {
        let left = self.rest.len();
        (left, Some(left))
    }
}

/// The `impl` blocks of a scope.
pub type Impls<'a> = Picked<'a, (ImplId, bool), AnyImpl>;

/// The `impl` blocks of traits in a scope.
pub type TraitImpls<'a> = Picked<'a, (ImplId, bool), TraitImpl>;

/// The `impl` blocks without a trait in a scope.
pub type InherentImpls<'a> = Picked<'a, (ImplId, bool), InherentImpl>;

/// The modules among the types of a scope.
pub type ModulesInScope<'a> = Picked<'a, TypesItem, ModuleType>;

/// The traits of a scope: those among its types, then the unnamed ones.
#[derive(Drop)]
pub struct Traits<'a> {
    types: Picked<'a, TypesItem, TraitType>,
    unnamed: slice::Iter<'a, (TraitId, Visibility, Option<ImportId>)>,
}

impl<'a> Model for Traits<'a> {
    ghost use Rattle.std.specs.Prelude.{List, ◌++◌, map};
    ghost use Rattle.std.specs.Slice.Iter.{iter_rest};
    ghost use Rattle.dm_base.specs.declared.ids.TraitId.{TraitId};

    ghost Value = { List TraitId };

    ghost view = { λ a. a.types ++ map (λ e. e.0) (iter_rest a.unnamed) };
}

impl<'a> Traits<'a> {
    pub(crate) fn new(
        types: &'a [TypesItem],
        unnamed: &'a [(TraitId, Visibility, Option<ImportId>)],
    ) -> Self
        ensures rest { result ≡ filter_map trait_of types.now ++ map (λ e. e.0) unnamed.now }
        ensures runs { ShowsInOrder (λ (x : TraitId). x) }
    {
        Traits {
            types: Picked::new(types, TraitType),
            unnamed: unnamed.iter(),
        }
    }
}

impl<'a> Iterator for Traits<'a> {
    type Item = TraitId;

    ghost next_gives = { TakesFirst (λ x. x) };

    ghost remaining = { λ s. at_most (length s) };

    fn next(&mut self) -> Option<TraitId> {
        if let Some(tr) = self.types.next() {
            return Some(tr);
        }
        let unnamed = self.unnamed.next()?;
        Some(unnamed.0)
    }
}

/// The legacy macros of each name of a scope: those in textual scope.
#[derive(Drop)]
pub struct LegacyMacros<'a> {
    rest: map::Iter<'a, Name, SmallVec<MacroId, 1>>,
}

impl<'a> Model for LegacyMacros<'a> {
    ghost use Rattle.std.specs.Prelude.{List};
    ghost use Rattle.dm_base.specs.declared.item_ids.MacroId.{MacroId};
    ghost use Rattle.dm_base.specs.Names.{Name};
    ghost use Rattle.dm_scope.specs.TableLists.{lists_of};

    ghost Value = { List (Name × List MacroId) };

    ghost view = { λ a. lists_of a.rest };
}

impl<'a> LegacyMacros<'a> {
    pub(crate) fn new(table: Slice<'a, Name, SmallVec<MacroId, 1>>) -> Self
        ensures rest { result ≡ lists_of table.entry }
        ensures runs { ShowsInOrder deref_legacy }
    {
        LegacyMacros { rest: table.iter() }
    }
}

impl<'a> Iterator for LegacyMacros<'a> {
    type Item = (&'a Name, &'a [MacroId]);

    ghost next_gives = { TakesFirst deref_legacy };

    ghost remaining = { λ s. at_most (length s) };

    fn next(&mut self) -> Option<(&'a Name, &'a [MacroId])> {
        let (name, macros) = self.rest.next()?;
        Some((name, macros.as_slice()))
    }
}

/// The calls of function-like macros in a scope, each with where it stands.
#[derive(Drop)]
pub struct MacroInvocations<'a> {
    rest: map::Iter<'a, AstId, MacroCallId>,
}

impl<'a> Model for MacroInvocations<'a> {
    ghost use Rattle.std.specs.Prelude.{List};
    ghost use Rattle.dm_base.specs.declared.ids.MacroCallId.{MacroCallId};
    ghost use Rattle.dm_base.specs.declared.source.AstId.{AstId};

    ghost Value = { List (AstId × MacroCallId) };

    ghost view = { λ a. a.rest };
}

impl<'a> MacroInvocations<'a> {
    pub(crate) fn new(table: Slice<'a, AstId, MacroCallId>) -> Self
        ensures rest { result ≡ table.entry }
        ensures runs { ShowsInOrder (deref_pair {K = AstId} {X = MacroCallId}) }
    {
        MacroInvocations { rest: table.iter() }
    }
}

impl<'a> Iterator for MacroInvocations<'a> {
    type Item = (&'a AstId, &'a MacroCallId);

    ghost next_gives = { TakesFirst deref_pair };

    ghost remaining = { λ s. at_most (length s) };

    fn next(&mut self) -> Option<(&'a AstId, &'a MacroCallId)> {
        let (ast, call) = self.rest.next()?;
        Some((ast, call))
    }
}

/// The calls of attribute macros in a scope, each with the item that it stands on.
#[derive(Drop)]
pub struct AttrMacroInvocations<'a> {
    rest: map::Iter<'a, AstId, MacroCallId>,
}

impl<'a> Model for AttrMacroInvocations<'a> {
    ghost use Rattle.std.specs.Prelude.{List};
    ghost use Rattle.dm_base.specs.declared.ids.MacroCallId.{MacroCallId};
    ghost use Rattle.dm_base.specs.declared.source.AstId.{AstId};

    ghost Value = { List (AstId × MacroCallId) };

    ghost view = { λ a. a.rest };
}

impl<'a> AttrMacroInvocations<'a> {
    pub(crate) fn new(table: Slice<'a, AstId, MacroCallId>) -> Self
        ensures rest { result ≡ table.entry }
        ensures runs { ShowsInOrder (λ (x : AstId × MacroCallId). x) }
    {
        AttrMacroInvocations { rest: table.iter() }
    }
}

impl<'a> Iterator for AttrMacroInvocations<'a> {
    type Item = (AstId, MacroCallId);

    ghost next_gives = { TakesFirst (λ x. x) };

    ghost remaining = { λ s. at_most (length s) };

    fn next(&mut self) -> Option<(AstId, MacroCallId)> {
        let (ast, call) = self.rest.next()?;
        Some((*ast, *call))
    }
}

/// The derive attributes of each item of a scope.
#[derive(Drop)]
pub struct DeriveMacroInvocations<'a> {
    rest: map::Iter<'a, AstId, SmallVec<DeriveMacroInvocation, 1>>,
}

impl<'a> Model for DeriveMacroInvocations<'a> {
    ghost use Rattle.std.specs.Prelude.{List};
    ghost use Rattle.dm_base.specs.declared.source.AstId.{AstId};
    ghost use Rattle.dm_scope.specs.Derives.{Derive, derives_of};

    ghost Value = { List (AstId × List Derive) };

    ghost view = { λ a. derives_of a.rest };
}

impl<'a> DeriveMacroInvocations<'a> {
    pub(crate) fn new(table: Slice<'a, AstId, SmallVec<DeriveMacroInvocation, 1>>) -> Self
        ensures rest { result ≡ derives_of table.entry }
        ensures runs { ShowsInOrder deref_derives }
    {
        DeriveMacroInvocations { rest: table.iter() }
    }
}

impl<'a> Iterator for DeriveMacroInvocations<'a> {
    type Item = (AstId, &'a [DeriveMacroInvocation]);

    ghost next_gives = { TakesFirst deref_derives };

    ghost remaining = { λ s. at_most (length s) };

    fn next(&mut self) -> Option<(AstId, &'a [DeriveMacroInvocation])> {
        let (adt, derives) = self.rest.next()?;
        Some((*adt, derives.as_slice()))
    }
}
