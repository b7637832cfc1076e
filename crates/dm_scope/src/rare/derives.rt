//! The derive attributes among the rare tables of a scope.
ghost use Rattle.std.specs.Prelude.{◌≡◌, ◌<◌, length, find, position, map};
ghost use Rattle.std.specs.Option.{ForSome, option_map, option_copied};
ghost use Rattle.dm_scope.specs.Derives.{derive_of, derives_of, has_id, derive_at, find_derive, fill_slot, fill_first, with_slot};

use super::Rare;
use crate::derives::DeriveMacroInvocation;
use dm_base::ids::{AttrId, BuiltinDeriveImplId, MacroCallId};
use dm_base::source::AstId;
use either::Either;
use indexmap::IndexMap;
use smallvec::SmallVec;

impl Rare {
    /// The first entry of an item's derive attribute. Takes no memory.
    pub(crate) fn first_derive(&self, adt: AstId, attr_id: AttrId) -> Option<&DeriveMacroInvocation>
        ensures { option_map derive_of (option_copied result)
            ≡ derive_at adt attr_id self.now.derive_macros }
    {
        let tables = self.tables()?;
        let derives = tables.derive_macros.get(&adt)?;
        find_derive(derives.as_slice(), attr_id)
    }

    /// Fills a slot of an item's derive attribute, in the first entry of that attribute; does nothing where there is
    /// none. Takes no memory.
    pub(crate) fn fill_slot(
        &mut self,
        adt: AstId,
        call: Either<MacroCallId, BuiltinDeriveImplId>,
        attr_id: AttrId,
        idx: usize,
    )
        requires { ForSome (derive_at adt attr_id self.old.derive_macros) (λ d. idx < length d.slots) }
        ensures { self.new
            ≡ record self.old
            { derive_macros = fill_slot adt attr_id idx call self.old.derive_macros } }
    {
        if let Some(tables) = &mut self.tables {
            fill_slot(&mut tables.derive_macros, adt, call, attr_id, idx);
        }
    }
}

/// The first entry of an attribute.
fn find_derive(derives: &[DeriveMacroInvocation], id: AttrId) -> Option<&DeriveMacroInvocation>
    ensures { option_copied result ≡ find (has_id id) derives.now }
{
    derives.iter().find(|derive| derive.attr_id == id)
}

/// Fills a slot of the first entry of an item's attribute.
fn fill_slot(
    table: &mut IndexMap<AstId, SmallVec<DeriveMacroInvocation, 1>>,
    adt: AstId,
    call: Either<MacroCallId, BuiltinDeriveImplId>,
    id: AttrId,
    idx: usize,
)
    requires { ForSome (derive_at adt id (derives_of table.old.entries)) (λ d. idx < length d.slots) }
    ensures { derives_of table.new.entries ≡ fill_slot adt id idx call (derives_of table.old.entries) }
{
    if let Some(derives) = table.get_mut(&adt) {
        fill_list(derives, call, id, idx);
    }
}

/// Fills a slot of the first entry of an attribute, in an item's list.
fn fill_list(
    derives: &mut SmallVec<DeriveMacroInvocation, 1>,
    call: Either<MacroCallId, BuiltinDeriveImplId>,
    id: AttrId,
    idx: usize,
)
    requires { ForSome (find_derive id (map derive_of derives.old.items)) (λ d. idx < length d.slots) }
    ensures { map derive_of derives.new.items ≡ fill_first id idx call (map derive_of derives.old.items) }
{
    fill_first(derives.as_mut_slice(), call, id, idx);
}

/// Fills a slot of the first entry of an attribute.
fn fill_first(
    derives: &mut [DeriveMacroInvocation],
    call: Either<MacroCallId, BuiltinDeriveImplId>,
    id: AttrId,
    idx: usize,
)
    requires { ForSome (find_derive id (map derive_of derives.old)) (λ d. idx < length d.slots) }
    ensures { map derive_of derives.new ≡ fill_first id idx call (map derive_of derives.old) }
{
    if let Some(i) = place_of(derives, id) {
        fill(&mut derives[i], call, idx);
    }
}

/// Where the first entry of an attribute stands.
fn place_of(derives: &[DeriveMacroInvocation], id: AttrId) -> Option<usize>
    ensures { result ≡ position (has_id id) derives.now }
{
    derives.iter().position(|derive| derive.attr_id == id)
}

/// Fills a slot of an attribute.
fn fill(
    derive: &mut DeriveMacroInvocation,
    call: Either<MacroCallId, BuiltinDeriveImplId>,
    idx: usize,
)
    requires { idx < length derive.old.derive_call_ids.items }
    ensures { derive_of derive.new ≡ with_slot idx call (derive_of derive.old) }
{
    let slots = derive.derive_call_ids.as_mut_slice();
    slots[idx] = Some(call);
}
