//! Lists in order, made by `itertools`: elements of any kind, and names, also for the crates above.
ghost use Rattle.std.specs.Prelude.{IfOk};
ghost use Rattle.std.specs.Iterator.{IsFinite};
ghost use Rattle.std.specs.Iterator.Runs.{WholeRun};
ghost use Rattle.dm_scope.specs.Sorted.{AreInOrder, AreSortedOnce, seen};

use dm_base::name::Name;
use itertools::Itertools;
use std::alloc::{AllocError, Global};

/// What an iterator gives, in order, each once. Fails where memory runs out.
pub(crate) fn sorted_once<T: Ord + Drop, I: Iterator<Item = T>>(
    items: I,
    alloc: Global,
) -> Result<Vec<T>, AllocError>
    requires can { I.can_next items }
    requires finite { IsFinite (I.remaining items) }
    ensures { IfOk result
        (λ v. WholeRun I.next_gives items (λ p. AreSortedOnce T.cmp T.eq v.items p.items)) }
{
    let sorted = items.sorted_unstable(alloc)?;
    let once = sorted.dedup().collect_vec(alloc)?;
    Ok(once)
}

/// The names that an iterator gives, in order of their bytes, each once. Fails where memory runs out.
pub fn sorted_names<'a, I: Iterator<Item = &'a Name>>(
    names: I,
    alloc: Global,
) -> Result<Vec<&'a Name>, AllocError>
    requires can { I.can_next names }
    requires finite { IsFinite (I.remaining names) }
    ensures { IfOk result
        (λ v. WholeRun I.next_gives names (λ p. AreInOrder (seen v.items) (seen p.items))) }
{
    let sorted = sorted_once(names, alloc)?;
    Ok(sorted)
}
