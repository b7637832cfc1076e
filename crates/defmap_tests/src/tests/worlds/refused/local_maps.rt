//! Entries of an extern prelude, put by themselves.
use crate::tests::same;
use dm_base::ids::{ExternCrateId, ModuleId};
use dm_base::name::Name;
use dm_maps::local_def_map::LocalDefMap;
use std::alloc::{AllocError, Global};

/// A name, its module, and the item that names it.
type Entry = (&'static str, ModuleId, Option<ExternCrateId>);

/// What is put, in order; the last in the place of the first.
const ENTRIES: [Entry; 3] = [
    ("a", ModuleId(1), None),
    ("b", ModuleId(2), Some(ExternCrateId(3))),
    ("a", ModuleId(4), None),
];

fn put(alloc: Global, map: &mut LocalDefMap, (name, m, named_by): Entry) -> Result<(), AllocError> {
    let name = Name::new(alloc, name)?;
    map.insert(name, m, named_by)
}

/// The first three modules in the end.
fn modules(alloc: Global) -> Option<[Option<ModuleId>; 3]> {
    let mut map = LocalDefMap::new(alloc);
    for entry in ENTRIES {
        again!(put(alloc, &mut map, entry)).ok()?;
    }
    let mut modules = [None; 3];
    let mut entries = map.extern_prelude();
    for module in &mut modules {
        if let Some((_, (m, _))) = entries.next() {
            *module = Some(m);
        }
    }
    Some(modules)
}

#[test]
fn a_refused_entry_is_put_again(rt: HostRuntime) {
    let wanted = [Some(ModuleId(4)), Some(ModuleId(2)), None];
    same(&rt, &modules(rt.alloc()), &Some(wanted));
}
