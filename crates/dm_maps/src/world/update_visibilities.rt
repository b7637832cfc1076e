//! Visibilities of what the scopes of a checked world bind. None of these calls takes memory.
ghost use Rattle.std.specs.Prelude.{◌≡◌, IsSome};
ghost use Rattle.dm_maps.specs.Holding.{vis_holds};
ghost use Rattle.dm_base.specs.Names.{find_name};
ghost use Rattle.dm_scope.specs.Scope.{bound_in};
ghost use Rattle.dm_maps.specs.Added.{IsScoped};
ghost use Rattle.dm_maps.specs.First.{IsChecked};
ghost use Rattle.dm_maps.specs.GoesOn.{StaysBeside, seen_type, seen_value, seen_macro, with_type_seen, with_value_seen, with_macro_seen};
ghost use Rattle.dm_maps.specs.Known.{KnowsAll};
ghost use Rattle.dm_maps.specs.Stays.{StaysKnown};
ghost use Rattle.dm_maps.specs.World.{scope_if_known, scope_of};

use crate::builder::WorldBuilder;
use crate::world::World;
use dm_base::ids::ModuleId;
use dm_base::name::Name;
use dm_base::visibility::Visibility;

impl World {
    /// Changes the visibility of what a module binds under a name as a type, as where a glob brings the same
    /// definition to more modules.
    ///
    /// `bound_in` tells whether the name is bound, and `knows_vis` whether what the visibility names is the world's.
    pub fn update_visibility_types(&mut self, m: ModuleId, name: &Name, vis: Visibility)
        requires bound { IsSome ((bound_in (scope_of self.old m) name.now).types) }
        requires known { KnowsAll self.old (vis_holds vis) }
        ensures world { self.new ≡ with_type_seen self.old m name.now vis }

        // All that the world's tables hold is the world's.
        ensures checked { IsChecked self.new }

        // The module's scope shows the item with that visibility, and each other scope is as before.
        ensures own { IsScoped self.old self.new m (seen_type (scope_of self.old m) name.now vis) }

        // What was known is known, and the name-independent part of the world is as before. So is what the world has
        // under other names.
        ensures stays_known { StaysKnown self.old self.new }
        ensures others_stay { StaysBeside self.old self.new name.now }
    {
        self.tables.update_visibility_types(m, name, vis);
        self.tables.lawful();
    }

    /// Changes the visibility of what a module binds under a name as a value, as where a glob brings the same
    /// definition to more modules.
    ///
    /// `bound_in` tells whether the name is bound, and `knows_vis` whether what the visibility names is the world's.
    pub fn update_visibility_values(&mut self, m: ModuleId, name: &Name, vis: Visibility)
        requires bound { IsSome ((bound_in (scope_of self.old m) name.now).values) }
        requires known { KnowsAll self.old (vis_holds vis) }
        ensures world { self.new ≡ with_value_seen self.old m name.now vis }

        // All that the world's tables hold is the world's.
        ensures checked { IsChecked self.new }

        // The module's scope shows the item with that visibility, and each other scope is as before.
        ensures own { IsScoped self.old self.new m (seen_value (scope_of self.old m) name.now vis) }

        // What was known is known, and the name-independent part of the world is as before. So is what the world has
        // under other names.
        ensures stays_known { StaysKnown self.old self.new }
        ensures others_stay { StaysBeside self.old self.new name.now }
    {
        self.tables.update_visibility_values(m, name, vis);
        self.tables.lawful();
    }

    /// Changes the visibility of what a module binds under a name as a macro, as where a glob brings the same
    /// definition to more modules.
    ///
    /// `bound_in` tells whether the name is bound, and `knows_vis` whether what the visibility names is the world's.
    pub fn update_visibility_macros(&mut self, m: ModuleId, name: &Name, vis: Visibility)
        requires bound { IsSome ((bound_in (scope_of self.old m) name.now).macros) }
        requires known { KnowsAll self.old (vis_holds vis) }
        ensures world { self.new ≡ with_macro_seen self.old m name.now vis }

        // All that the world's tables hold is the world's.
        ensures checked { IsChecked self.new }

        // The module's scope shows the item with that visibility, and each other scope is as before.
        ensures own { IsScoped self.old self.new m (seen_macro (scope_of self.old m) name.now vis) }

        // What was known is known, and the name-independent part of the world is as before. So is what the world has
        // under other names.
        ensures stays_known { StaysKnown self.old self.new }
        ensures others_stay { StaysBeside self.old self.new name.now }
    {
        self.tables.update_visibility_macros(m, name, vis);
        self.tables.lawful();
    }
}

impl WorldBuilder {
    /// Changes the visibility of a type that a module of the builder's binds.
    fn update_visibility_types(&mut self, m: ModuleId, name: &Name, vis: Visibility)
        requires there { IsSome (scope_if_known self.old m) }
        requires bound { IsSome (find_name name.now (scope_of self.old m).types.items) }
        ensures { self.new ≡ with_type_seen self.old m name.now vis }
    {
        let scope = self.scope_mut(m).unwrap();
        scope.update_visibility_types(name, vis);
    }

    /// Changes the visibility of a value that a module of the builder's binds.
    fn update_visibility_values(&mut self, m: ModuleId, name: &Name, vis: Visibility)
        requires there { IsSome (scope_if_known self.old m) }
        requires bound { IsSome (find_name name.now (scope_of self.old m).values.items) }
        ensures { self.new ≡ with_value_seen self.old m name.now vis }
    {
        let scope = self.scope_mut(m).unwrap();
        scope.update_visibility_values(name, vis);
    }

    /// Changes the visibility of a macro that a module of the builder's binds.
    fn update_visibility_macros(&mut self, m: ModuleId, name: &Name, vis: Visibility)
        requires there { IsSome (scope_if_known self.old m) }
        requires bound { IsSome (find_name name.now (scope_of self.old m).macros.items) }
        ensures { self.new ≡ with_macro_seen self.old m name.now vis }
    {
        let scope = self.scope_mut(m).unwrap();
        scope.update_visibility_macros(name, vis);
    }
}
