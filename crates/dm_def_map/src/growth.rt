//! Insertion into tables: where an allocation fails, nothing changes.
ghost use Rattle.std.specs.Prelude.{◌≡◌, ◌++◌, ◌∷◌, [], None, OnOk, OnErr};
ghost use Rattle.indexmap.specs.IndexMap.{get, insert_entry};

use indexmap::IndexMap;
use std::alloc::AllocError;
use std::hash::Hash;

/// Puts a new key last.
pub fn put_last<K: Eq + Hash + Drop, V: Drop>(
    map: &mut IndexMap<K, V>,
    key: K,
    value: V,
) -> Result<(), AllocError>
    requires { get K.eq map.old key ≡ None }
    ensures ok { OnOk result (map.new.entries ≡ map.old.entries ++ (key, value) ∷ []) }
    ensures err { OnErr result (map.new.entries ≡ map.old.entries) }
{
    let _former = map.insert(key, value)?;
    Ok(())
}

/// Puts a value under a key. A key that is there keeps its place and takes the new value.
pub(crate) fn put<K: Eq + Hash + Drop, V: Drop>(
    map: &mut IndexMap<K, V>,
    key: K,
    value: V,
) -> Result<(), AllocError>
    ensures ok { OnOk result (map.new.entries ≡ insert_entry K.eq map.old.entries key value) }
    ensures err { OnErr result (map.new.entries ≡ map.old.entries) }
{
    map.insert(key, value)?;
    Ok(())
}
