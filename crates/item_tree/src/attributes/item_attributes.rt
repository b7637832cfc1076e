//! Where the attributes of items, modules and files stand.
ghost use Rattle.std.specs.Prelude.{◌≡◌};
ghost use Rattle.item_tree.specs.ItemAttributes as spec;

use crate::items::item_kind::ItemKind;
use crate::items::{Item, Range};

/// The lexemes of the outer attributes of an item.
pub fn outer_attributes(item: Item) -> Range
    ensures { result ≡ spec.outer_range item }
{
    Range {
        first: item.first,
        behind: item.visibility,
    }
}

fn is_inner(kind: ItemKind) -> bool
    ensures { result ≡ spec.is_inner kind }
{
    matches!(kind, ItemKind::InnerAttribute)
}

/// The lexemes of the inner attributes of a module or file, from its own items and where these begin: those that it
/// begins with. An inner attribute behind an item belongs to nothing.
pub fn inner_attributes(first: usize, items: &[Item]) -> Range
    ensures { result ≡ spec.inner_range first items.now }
{
    let mut behind = first;
    for item in items {
        if !is_inner(item.kind) {
            break;
        }
        behind = item.behind;
    }
    Range { first, behind }
}
