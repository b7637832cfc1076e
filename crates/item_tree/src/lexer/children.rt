//! The items that stand in an item.
ghost use Rattle.std.specs.Prelude.{◌≡◌, ◌+◌, ◌<◌, ◌≤◌, true, false, length, nat_le};
ghost use Rattle.std.specs.List.Sorted.{IsPartitionPoint};
ghost use Rattle.item_tree.specs.Children as spec;
ghost use Rattle.item_tree.specs.declared.items.Item.{Item};

use crate::items::Item;

/// Whether a parent comes before the item of a number; no parent comes before all.
fn comes_before(parent: Option<usize>, number: usize) -> bool
    ensures { result ≡ nat_le (spec.rank_of parent) number }
{
    match parent {
        None => true,
        Some(place) => place < number,
    }
}

/// How many items have a parent that comes before the item of a number.
fn count_before(items: &[Item], number: usize) -> usize
    requires { spec.ByParent items.now }
    ensures within { result ≤ length items.now }
    ensures parted { IsPartitionPoint (λ (x : Item). nat_le (spec.rank_of x.parent) number ≡ true)
        (λ (x : Item). nat_le (spec.rank_of x.parent) number ≡ false) items.now result }
{
    items.partition_point(|item| comes_before(item.parent, number))
}

/// The items in the body of the item of a number, in order, from all items of a file. The time is logarithmic.
pub fn children_of(items: &[Item], number: usize) -> &[Item]
    requires by_parent { spec.ByParent items.now }
    requires there { number < length items.now }
    ensures { result.now ≡ spec.children_of number items.now }
{
    let first = count_before(items, number);
    let behind = count_before(items, number + 1);
    &items[first..behind.max(first)]
}
