//! What import chains and dumps read of a world. None of these calls takes memory.
ghost use Rattle.std.specs.Prelude.{◌≡◌, IsTrue, IfSome, is_some, slice_get, unwrap_or};
ghost use Rattle.std.specs.Option.{ForSome, option_copied};
ghost use Rattle.dm_maps.specs.declared.check.held.HeldId.TheVariants as held;
ghost use Rattle.dm_maps.specs.Known.{knows};
ghost use Rattle.dm_maps.specs.ScopeTables.{scope_tables};
ghost use Rattle.dm_maps.specs.World.{scope_if_known, scope_of};
ghost use Rattle.dm_scope.specs.Tables.{record_count, no_style};

use crate::builder::WorldBuilder;
use crate::world::World;
use dm_base::ids::{ModuleId, UseId};
use dm_base::item_ids::MacroId;
use dm_base::macros::MacroCallStyles;
use dm_base::name::Name;
use dm_base::per_ns::Namespace;
use dm_scope::item_scope::ItemScope;
use dm_scope::scope_tables::ScopeTables;

#[tactic(auto, unfolding(crate::specs::ScopeTables::scope_tables))]
impl ScopeTables for World {
    ghost use Rattle.dm_maps.specs.ScopeTables.{scope_tables};

    ghost tables = { scope_tables };

    /// The module that a `use` item stands in, if the world has it. The module is the world's.
    fn use_container(&self, use_: UseId) -> Option<ModuleId>
        ensures value { result ≡ (scope_tables self.now).container use_ }
        ensures known { ForSome result (λ m. IsTrue (knows self.now (held.Module m))) }
        ensures there { is_some result ≡ knows self.now (held.Use use_) }
    {
        self.tables.uses.get(use_.0 as usize).copied()
    }

    /// The scope of a module, if it is the world's.
    fn scope_of(&self, m: ModuleId) -> Option<&ItemScope>
        ensures value { option_copied result ≡ slice_get (scope_tables self.now).scopes m.0 }
        ensures own { IfSome result (λ s. s.now ≡ scope_of self.now m) }
        ensures there { is_some result ≡ knows self.now (held.Module m) }
    {
        self.tables().scope_of(m)
    }

    fn macro_styles(&self, id: MacroId) -> MacroCallStyles
        ensures { result ≡ unwrap_or ((scope_tables self.now).styles id) no_style }
    {
        self.tables.styles_of(id)
    }

    fn prints_raw(&self, name: &Name) -> bool
        ensures { result ≡ (scope_tables self.now).prints_raw name.now }
    {
        self.tables.item_tables.has_raw_name(name)
    }

    fn records(&self, namespace: Namespace) -> usize
        ensures { result ≡ record_count namespace (scope_tables self.now) }
    {
        self.records.of(namespace)
    }
}

impl WorldBuilder {
    /// The scope of a module, by its number.
    pub(crate) fn scope_of(&self, m: ModuleId) -> Option<&ItemScope>
        ensures { option_copied result ≡ scope_if_known self.now m }
    {
        match self.module_of(m) {
            None => None,
            Some(data) => Some(data.scope()),
        }
    }
}
