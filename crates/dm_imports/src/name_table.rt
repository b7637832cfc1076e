//! `NameTable`: values for names of modules.
ghost use Rattle.std.specs.Prelude.{◌≡◌, None, Some, cond, OnOk};
ghost use Rattle.std.specs.Map.{lookup};
ghost use Rattle.dm_base.specs.declared.ids.ModuleId.{ModuleId};
ghost use Rattle.dm_base.specs.Names.{Name, find_name, same_name};
ghost use Rattle.dm_base.specs.Tree.{same_module};
ghost use Rattle.dm_imports.specs.Slots.{entries_of, name_at, no_names, same_place};

use dm_base::ids::ModuleId;
use dm_base::name::Name;
use indexmap::IndexMap;
use std::alloc::{AllocError, Global};
use std::marker::Model;

/// A value for each of some names of modules.
#[derive(Drop)]
pub(crate) struct NameTable<T: Copy + Drop> {
    modules: IndexMap<ModuleId, IndexMap<Name, T>>,
    alloc: Global,
}

impl<T: Copy + Drop> Model for NameTable<T> {
    ghost use Rattle.dm_imports.specs.Slots.{NameTable, entries_of};

    ghost Value = { NameTable T };

    ghost view = { λ t. entries_of t.modules.entries };
}

impl<T: Copy + Drop> NameTable<T> {
    pub(crate) fn new(alloc: Global) -> NameTable<T>
        ensures { result ≡ no_names }
    {
        NameTable {
            modules: IndexMap::new(alloc),
            alloc,
        }
    }

    pub(crate) fn get(&self, m: ModuleId, name: &Name) -> Option<T>
        ensures { result ≡ name_at self.now m name.now }
    {
        match self.modules.get(&m) {
            Some(names) => names.get(name).copied(),
            None => None,
        }
    }

    pub(crate) fn put(&mut self, m: ModuleId, name: &Name, value: T) -> Result<(), AllocError>
        ensures { OnOk result ((k : ModuleId) (n : Name) → name_at self.new k n
            ≡ cond (same_place m name.now k n) (Some value) (name_at self.old k n)) }
    {
        let key = name.copy(self.alloc)?;
        match self.modules.get_mut(&m) {
            Some(names) => {
                put_name(names, key, value)?;
                Ok(())
            }
            None => put_first(&mut self.modules, m, key, value, self.alloc),
        }
    }
}

/// Gives a name of a module a value.
fn put_name<T: Copy + Drop>(
    names: &mut IndexMap<Name, T>,
    name: Name,
    value: T,
) -> Result<(), AllocError>
    ensures { OnOk result ((n : Name) → find_name n names.new.entries
        ≡ cond (same_name name n) (Some value) (find_name n names.old.entries)) }
{
    names.insert(name, value)?;
    Ok(())
}

/// Adds a module, with its first name.
fn put_first<T: Copy + Drop>(
    modules: &mut IndexMap<ModuleId, IndexMap<Name, T>>,
    m: ModuleId,
    name: Name,
    value: T,
    alloc: Global,
) -> Result<(), AllocError>
    requires { lookup (same_module m) modules.old.entries ≡ None }
    ensures { OnOk result ((k : ModuleId) (n : Name) → name_at (entries_of modules.new.entries) k n
        ≡ cond (same_place m name k n) (Some value) (name_at (entries_of modules.old.entries) k n)) }
{
    let mut names = IndexMap::new(alloc);
    put_name(&mut names, name, value)?;
    modules.insert(m, names)?;
    Ok(())
}
