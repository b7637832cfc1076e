//! `Slots`: values for slots, each a name of a module in one namespace.
ghost use Rattle.std.specs.Prelude.{◌≡◌, Some, cond, OnOk};
ghost use Rattle.dm_base.specs.declared.ids.ModuleId.{ModuleId};
ghost use Rattle.dm_base.specs.declared.per_ns.Namespace.{Namespace};
ghost use Rattle.dm_base.specs.Names.{Name};
ghost use Rattle.dm_imports.specs.Slots.{name_at, no_names, no_slots, same_place, same_slot, slot_at};

use crate::name_table::NameTable;
use dm_base::ids::ModuleId;
use dm_base::name::Name;
use dm_base::per_ns::Namespace;
use std::alloc::{AllocError, Global};
use std::marker::Model;

/// A value for each of some slots.
#[derive(Drop)]
pub struct Slots<T: Copy + Drop> {
    types: NameTable<T>,
    values: NameTable<T>,
    macros: NameTable<T>,
}

impl<T: Copy + Drop> Model for Slots<T> {
    ghost use Rattle.dm_imports.specs.Slots.{Slots};

    ghost Value = { Slots T };

    ghost view = { λ s. record { types = s.types; values = s.values; macros = s.macros } };
}

impl<T: Copy + Drop> Slots<T> {
    /// No slot has a value. Takes no memory.
    pub fn new(alloc: Global) -> Slots<T>
        ensures { result ≡ no_slots }
    {
        Slots {
            types: NameTable::new(alloc),
            values: NameTable::new(alloc),
            macros: NameTable::new(alloc),
        }
    }

    /// The value of a slot, if it has one. Takes no memory.
    pub fn get(&self, m: ModuleId, name: &Name, namespace: Namespace) -> Option<T>
        ensures { result ≡ slot_at self.now m name.now namespace }
    {
        match namespace {
            Namespace::Types => self.types.get(m, name),
            Namespace::Values => self.values.get(m, name),
            Namespace::Macros => self.macros.get(m, name),
        }
    }

    /// Gives a slot a value.
    ///
    /// Fails only where memory runs out.
    pub fn put(
        &mut self,
        m: ModuleId,
        name: &Name,
        namespace: Namespace,
        value: T,
    ) -> Result<(), AllocError>
        ensures { OnOk result ((k : ModuleId) (n : Name) (s : Namespace) → slot_at self.new k n s
            ≡ cond (same_slot m name.now namespace k n s) (Some value) (slot_at self.old k n s)) }
    {
        match namespace {
            Namespace::Types => self.types.put(m, name, value),
            Namespace::Values => self.values.put(m, name, value),
            Namespace::Macros => self.macros.put(m, name, value),
        }
    }
}
