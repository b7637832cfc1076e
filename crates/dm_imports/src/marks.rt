//! `Marks`: sets of slots.
ghost use Rattle.std.specs.Prelude.{◌≡◌};
ghost use Rattle.dm_imports.specs.Tables.{has_mark};

use crate::slots::Slots;
use dm_base::ids::ModuleId;
use dm_base::name::Name;
use dm_base::per_ns::Namespace;
use std::marker::Model;

/// A set of slots: those of a table, or all but those.
#[derive(Drop)]
pub struct Marks<'a> {
    pub table: &'a Slots<bool>,
    pub is_all_but: bool,
}

impl<'a> Model for Marks<'a> {
    ghost use Rattle.dm_imports.specs.Tables.{Marks};

    ghost Value = { Marks };

    ghost view = { λ k. record { table = k.table.now; is_all_but = k.is_all_but } };
}

impl<'a> Marks<'a> {
    /// Whether a slot is in the set.
    pub fn has(&self, m: ModuleId, name: &Name, namespace: Namespace) -> bool
        ensures { result ≡ has_mark self.now m name.now namespace }
    {
        let found = self.table.get(m, name, namespace);
        if self.is_all_but {
            found.is_none()
        } else {
            found.is_some()
        }
    }
}
