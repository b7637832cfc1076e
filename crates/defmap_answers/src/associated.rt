//! The associated items of traits and of plain inherent implementations.
use crate::crates::Crates;
use crate::places::ItemPlace;
use dm_base::item_ids::ModuleDefId;
use dm_base::visibility::Visibility;
use indexmap::IndexMap;
use std::alloc::{AllocError, Global};

/// An associated item, and the trait or type that has it.
pub struct AssociatedItem {
    pub owner: ModuleDefId,
    /// `fn`, `const` or `type`.
    pub kind: &'static str,
    pub name: String,
    pub visibility: Visibility,
    pub place: ItemPlace,
}

/// A hand-written `Drop`, to keep proofs small: what drops one has one call to prove.
impl Drop for AssociatedItem {
    fn drop(self) {
        let AssociatedItem {
            owner: _owner,
            kind: _kind,
            name: _name,
            visibility: _visibility,
            place: _place,
        } = self;
    }
}

/// Associated items, and of which of them each trait and type has which.
pub(crate) struct AssociatedItems {
    items: Vec<AssociatedItem>,
    by_owner: IndexMap<ModuleDefId, Vec<usize>>,
}

/// A hand-written `Drop`, to keep proofs small: what drops one has one call to prove.
impl Drop for AssociatedItems {
    fn drop(self) {
        let AssociatedItems {
            items: _items,
            by_owner: _by_owner,
        } = self;
    }
}

/// The places of items, by what has them.
fn owned(
    alloc: Global,
    items: &[AssociatedItem],
) -> Result<IndexMap<ModuleDefId, Vec<usize>>, AllocError> {
    let mut by_owner: IndexMap<ModuleDefId, Vec<usize>> = IndexMap::new(alloc);
    for (place, item) in items.iter().enumerate() {
        if !by_owner.contains_key(&item.owner) {
            by_owner.insert(item.owner, Vec::new(alloc))?;
        }
        if let Some(places) = by_owner.get_mut(&item.owner) {
            places.push(place)?;
        }
    }
    Ok(by_owner)
}

impl AssociatedItems {
    /// None.
    pub(crate) fn none(alloc: Global) -> AssociatedItems {
        AssociatedItems {
            items: Vec::new(alloc),
            by_owner: IndexMap::new(alloc),
        }
    }

    /// Those of crates.
    pub(crate) fn of<C: Crates>(alloc: Global, crates: &C) -> Result<AssociatedItems, AllocError> {
        let items = crates.associated_items(alloc)?;
        Ok(AssociatedItems {
            by_owner: owned(alloc, items.as_slice())?,
            items,
        })
    }

    /// The places of those that a trait or type has.
    pub(crate) fn places(&self, owner: ModuleDefId) -> &[usize] {
        match self.by_owner.get(&owner) {
            None => &[],
            Some(places) => places.as_slice(),
        }
    }

    pub(crate) fn get(&self, place: usize) -> Option<&AssociatedItem> {
        self.items.get(place)
    }
}
