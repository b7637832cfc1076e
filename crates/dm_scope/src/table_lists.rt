//! Maps from keys to lists.
ghost use Rattle.std.specs.Prelude.{◌≡◌, ◌++◌, ◌∷◌, [], None, OnErr, OnOk};
ghost use Rattle.std.specs.Map.{lookup};
ghost use Rattle.dm_scope.specs.TableLists.{lists_of, add_to_list};

use indexmap::IndexMap;
use smallvec::SmallVec;
use std::alloc::{AllocError, Global};
use std::default::MadeWith;
use std::hash::Hash;

/// Puts an element at the end of a key's list, or of a new list of a key that is not there yet. Where an allocation
/// fails, nothing changes.
pub(crate) fn add_to_list<K: Eq + Hash + Drop, X: MadeWith<Global> + Drop, const N: usize>(
    table: &mut IndexMap<K, SmallVec<X, N>>,
    key: K,
    x: X,
    alloc: Global,
) -> Result<(), AllocError>
    ensures ok { OnOk result
        (lists_of table.new.entries ≡ add_to_list K.eq (lists_of table.old.entries) key x) }
    ensures err { OnErr result (lists_of table.new.entries ≡ lists_of table.old.entries) }
{
    match table.get_mut(&key) {
        Some(list) => {
            push_last(list, x)?;
            Ok(())
        }
        None => add_list(table, key, x, alloc),
    }
}

/// Puts an element at the end of a list.
fn push_last<X: MadeWith<Global> + Drop, const N: usize>(
    list: &mut SmallVec<X, N>,
    x: X,
) -> Result<(), AllocError>
    ensures ok { OnOk result (list.new.items ≡ list.old.items ++ x ∷ []) }
    ensures err { OnErr result (list.new.items ≡ list.old.items) }
{
    list.push(x)?;
    Ok(())
}

/// Puts a key last, with a list of one element.
fn add_list<K: Eq + Hash + Drop, X: MadeWith<Global> + Drop, const N: usize>(
    table: &mut IndexMap<K, SmallVec<X, N>>,
    key: K,
    x: X,
    alloc: Global,
) -> Result<(), AllocError>
    requires { lookup (K.eq key) table.old.entries ≡ None }
    ensures ok { OnOk result
        (lists_of table.new.entries ≡ add_to_list K.eq (lists_of table.old.entries) key x) }
    ensures err { OnErr result (lists_of table.new.entries ≡ lists_of table.old.entries) }
{
    let mut list = SmallVec::new(alloc);
    list.push(x)?;
    table.insert(key, list)?;
    Ok(())
}
