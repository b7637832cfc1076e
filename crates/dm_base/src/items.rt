//! The iterator over the items of a `PerNs`, namespace by namespace.
ghost use Rattle.std.specs.Prelude.{length};
ghost use Rattle.std.specs.Iterator.{at_most};
ghost use Rattle.std.specs.Map.Iter.{TakesFirst};

use crate::imports::ImportOrExternCrate;
use crate::item_in_ns::ItemInNs;
use crate::per_ns::PerNs;
use std::marker::Model;

/// The items that a name means, types before values before macros, each with the import that brought it.
///
/// Contracts see the list of those that are left.
#[derive(Drop)]
pub struct IterItems {
    left: PerNs,
}

impl Model for IterItems {
    ghost use Rattle.std.specs.Prelude.{List};
    ghost use Rattle.dm_base.specs.PerNs.{Listed, items_of};

    ghost Value = { List Listed };

    ghost view = { λ items. items_of items.left };
}

impl IterItems {
    ghost use Rattle.std.specs.Prelude.{◌≡◌};
    ghost use Rattle.std.specs.Map.Iter.{ShowsInOrder};
    ghost use Rattle.dm_base.specs.PerNs.{Listed, items_of};

    /// The items of a set, none of them taken yet.
    pub(crate) fn new(items: PerNs) -> IterItems
        ensures rest { result ≡ items_of items }
        ensures runs { ShowsInOrder (λ (x : Listed). x) }
    {
        IterItems { left: items }
    }
}

impl Iterator for IterItems {
    type Item = (ItemInNs, Option<ImportOrExternCrate>);

    ghost next_gives = { TakesFirst (λ x. x) };

    ghost remaining = { λ s. at_most (length s) };

    fn next(&mut self) -> Option<(ItemInNs, Option<ImportOrExternCrate>)> {
        if let Some(item) = self.left.types.take() {
            return Some((ItemInNs::Types(item.def), item.import));
        }
        if let Some(item) = self.left.values.take() {
            return Some((
                ItemInNs::Values(item.def),
                item.import.map(ImportOrExternCrate::from),
            ));
        }
        let item = self.left.macros.take()?;
        Some((ItemInNs::Macros(item.def), item.import))
    }
}
