//! The derive attributes of a scope, with the macro call ids of their derives.
ghost use Rattle.std.specs.Prelude.{◌≡◌, ◌<◌, length, OnOk, OnErr};
ghost use Rattle.std.specs.Map.Iter.{ShowsInOrder};
ghost use Rattle.std.specs.Option.{ForSome, option_map};
ghost use Rattle.dm_scope.specs.Derives.{deref_derives, fresh_derive, derive_at, fill_slot};
ghost use Rattle.dm_base.specs.Sameness.{same_ast};
ghost use Rattle.dm_scope.specs.TableLists.{add_to_list};

use super::ItemScope;
use crate::derives::DeriveMacroInvocation;
use crate::iterators::DeriveMacroInvocations;
use crate::table_lists::add_to_list;
use dm_base::ids::{AttrId, BuiltinDeriveImplId, MacroCallId};
use dm_base::source::AstId;
use either::Either;
use smallvec::SmallVec;
use std::alloc::AllocError;

impl ItemScope {
    /// Puts a derive attribute after those of an item, with so many empty slots: one for each derive, made beforehand
    /// so that `set_derive_macro_invoc` can fill in a macro call id later without allocating. Where an allocation
    /// fails, nothing changes.
    pub fn init_derive_attribute(
        &mut self,
        adt: AstId,
        attr_id: AttrId,
        attr_call_id: MacroCallId,
        slots: usize,
    ) -> Result<(), AllocError>
        ensures ok { OnOk result
            (self.new
            ≡ record self.old {
              derive_macros =
                  add_to_list same_ast self.old.derive_macros adt
                  (fresh_derive attr_id attr_call_id slots);
            }) }
        ensures err { OnErr result (self.new ≡ self.old) }
    {
        let derive_call_ids = SmallVec::from_elem(self.alloc, None, slots)?;
        let derive = DeriveMacroInvocation {
            attr_id,
            attr_call_id,
            derive_call_ids,
        };
        let mut tables = self.rare.taken()?;
        let added = add_to_list(&mut tables.derive_macros, adt, derive, self.alloc);
        self.rare.put(tables);
        added?;
        Ok(())
    }

    /// The derive attributes of each item, in order of definition at each. Takes no memory.
    pub fn derive_macro_invocs(&self) -> DeriveMacroInvocations<'_>
        ensures rest { result ≡ self.now.derive_macros }
        ensures runs { ShowsInOrder deref_derives }
    {
        DeriveMacroInvocations::new(self.rare.derive_macros())
    }

    /// The call of an item's derive attribute, of the first entry of that attribute. Takes no memory.
    pub fn derive_macro_invoc(&self, adt: AstId, attr_id: AttrId) -> Option<MacroCallId>
        ensures { result ≡ option_map (λ d. d.attr_call_id) (derive_at adt attr_id self.now.derive_macros) }
    {
        let derive = self.rare.first_derive(adt, attr_id)?;
        Some(derive.attr_call_id)
    }

    /// How many slots an item's derive attribute has, in the first entry of that attribute. Takes no memory.
    pub fn derive_slots(&self, adt: AstId, attr_id: AttrId) -> Option<usize>
        ensures { result ≡ option_map (λ d. length d.slots) (derive_at adt attr_id self.now.derive_macros) }
    {
        let derive = self.rare.first_derive(adt, attr_id)?;
        Some(derive.derive_call_ids.len())
    }

    /// Fills a slot of an item's derive attribute, in the first entry of that attribute; does nothing where there is
    /// none. Takes no memory, since `init_derive_attribute` made the slots. `derive_slots` tells how many there are.
    pub fn set_derive_macro_invoc(
        &mut self,
        adt: AstId,
        call: Either<MacroCallId, BuiltinDeriveImplId>,
        attr_id: AttrId,
        idx: usize,
    )
        requires { ForSome (derive_at adt attr_id self.old.derive_macros) (λ d. idx < length d.slots) }
        ensures { self.new
            ≡ record self.old
            { derive_macros = fill_slot adt attr_id idx call self.old.derive_macros } }
    {
        self.rare.fill_slot(adt, call, attr_id, idx);
    }
}
