//! A checked world, whose ids never dangle.
ghost use Rattle.std.specs.Prelude.{◌≡◌, ◌↔◌, IsTrue, IsSome, IfSome, Some, slice_get, nat_lt, length};
ghost use Rattle.std.specs.Option.{option_copied, option_map};
ghost use Rattle.dm_scope.specs.Scope.{bound_in};
ghost use Rattle.dm_maps.specs.World.{place_of, numbered_map, map_of, module_of, scope_of};
ghost use Rattle.dm_maps.specs.First.{IsChecked};
ghost use Rattle.dm_maps.specs.declared.check.held.HeldId.TheVariants as held;
ghost use Rattle.dm_maps.specs.Known.{knows, KnowsAll};
ghost use Rattle.dm_maps.specs.Holding.{res_holds};
ghost use Rattle.dm_def_map.specs.Maps.{module_at};
ghost use Rattle.dm_maps.specs.MapFacts.{IsMapOf};
ghost use Rattle.dm_maps.specs.Sound.{IsCheckedWorld};

mod add_diagnostic;
mod add_macro_use;
mod ancestry;
mod item_modules;
mod knows;
mod knows_changes;
mod knows_paths;
mod map_dump;
pub mod maps_of;
mod outwards;
mod path_look_ups;
mod path_tables;
mod push_res;
mod push_unnamed_trait;
mod raw_visibilities;
mod record_counts;
mod scope_tables;
mod tree;
mod update_visibilities;
pub mod variants;

use crate::builder::WorldBuilder;
use crate::rules::Rules;
use crate::world::record_counts::RecordCounts;
use dm_base::ids::ModuleId;
use dm_base::name::Name;
use dm_base::per_ns::{PerNs, TypesItem};
use dm_def_map::def_map::DefMap;
use std::marker::Model;

/// A checked world: every id that one of its tables holds is one of its own, with its kind.
pub struct World {
    pub(crate) tables: WorldBuilder,
    /// How many import records its scopes have.
    records: RecordCounts,
}

/// Hand-written `Drop`, to keep proofs small: dropping one is then a single call.
impl Drop for World {
    fn drop(self) {
        let World {
            tables: _tables,
            records: _records,
        } = self;
    }
}

impl Model for World {
    ghost use Rattle.dm_maps.specs.World.{World};
    ghost use Rattle.dm_maps.specs.RecordCounts.{IsCounted};
    ghost use Rattle.dm_maps.specs.Sound.{IsCheckedWorld};

    ghost Value = { World };

    ghost view = { λ w. w.tables };

    ghost invariant = { λ w. IsCheckedWorld w.tables × IsCounted w.tables w.records };
}

impl World {
    /// The world of these tables, which have to be checked (`WorldBuilder::first_fault`). Takes no memory.
    pub(crate) fn of_checked(tables: WorldBuilder) -> World
        requires checked { IsChecked tables }
        ensures { result ≡ tables }
    {
        tables.lawful();
        let records = RecordCounts::of_world(&tables);
        World { tables, records }
    }

    /// The tables of the world.
    pub(crate) fn tables(&self) -> &WorldBuilder
        ensures value { result.now ≡ self.now }
        ensures world { IsCheckedWorld self.now }
    {
        &self.tables
    }

    /// The tables of the world.
    pub(crate) fn into_tables(self) -> WorldBuilder
        ensures { result ≡ self }
    {
        let World {
            tables,
            records: _records,
        } = self;
        tables
    }

    /// The version of the rules by which the world answers paths.
    pub fn rules(&self) -> Rules
        ensures { result ≡ self.now.rules }
    {
        self.tables.rules
    }

    /// The map that a module lies in.
    pub fn map_of(&self, m: ModuleId) -> Option<&DefMap>
        ensures value { option_copied result ≡ map_of self.now m }

        // It is the world's of its id, and has the module. Each module of the world lies in one.
        ensures own { IfSome result (λ map. numbered_map self.now map.now.id ≡ Some map.now) }
        ensures lies { IfSome result (λ map. IsSome (module_at map.now.modules m)) }
        ensures there { IsTrue (knows self.now (held.Module m)) → IsSome result }
        ensures facts { IfSome result (λ map. IsMapOf self.now map.now) }
    {
        self.tables().map_of(m)
    }

    /// What holds of a map that is the world's of its id. It does nothing: a caller whose proof needs it calls it.
    pub fn facts_of(&self, map: &DefMap)
        requires { numbered_map self.now map.now.id ≡ Some map.now }
        ensures { IsMapOf self.now map.now }
    {
        let _tables = self.tables();
    }

    /// What a module's scope binds under a name; nothing where there is no such module.
    pub fn bound_in(&self, m: ModuleId, name: &Name) -> PerNs
        ensures value { result ≡ bound_in (scope_of self.now m) name.now }
        ensures known { KnowsAll self.now (res_holds result) }
    {
        self.tables.bound_in(m, name)
    }

    /// What a module's scope binds under a name as a type; nothing where there is no such module. One look-up.
    pub fn type_in(&self, m: ModuleId, name: &Name) -> Option<&TypesItem>
        ensures value { option_copied result ≡ (bound_in (scope_of self.now m) name.now).types }

        // All that the scope binds under the name is the world's.
        ensures known { KnowsAll self.now (res_holds (bound_in (scope_of self.now m) name.now)) }
    {
        self.tables.type_in(m, name)
    }
}
