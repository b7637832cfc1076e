//! Insertion of a child module: where an allocation fails, nothing changes.
ghost use Rattle.std.specs.Prelude.{◌≡◌, ◌-◌, ◌++◌, ◌∷◌, [], IsSome, None, OnOk, OnErr, take, length};
ghost use Rattle.indexmap.specs.IndexMap.{get, insert_entry};
ghost use Rattle.dm_def_map.specs.Maps.{nth_module, with_child_at};

use crate::modules::module_data::ModuleData;
use dm_base::ids::ModuleId;
use dm_base::name::Name;
use indexmap::IndexMap;
use std::alloc::AllocError;
use std::hash::Hash;

/// Removes the last key.
pub(crate) fn drop_last<K: Eq + Hash + Drop, V: Drop>(map: &mut IndexMap<K, V>)
    ensures { map.new.entries ≡ take (length map.old.entries - 1) map.old.entries }
{
    map.pop();
}

/// Adds `m` to the children of the module at index `i`, where there is one.
pub(crate) fn list_child(
    modules: &mut IndexMap<ModuleId, ModuleData>,
    i: usize,
    name: Name,
    m: ModuleId,
) -> Result<(), AllocError>
    requires { IsSome (nth_module modules.old.entries i) }
    ensures ok { OnOk result (modules.new.entries ≡ with_child_at modules.old.entries i name m) }
    ensures err { OnErr result (modules.new.entries ≡ modules.old.entries) }
{
    match modules.get_index_mut(i) {
        None => unreachable!(),
        Some(data) => data.add_child(name, m),
    }
}
