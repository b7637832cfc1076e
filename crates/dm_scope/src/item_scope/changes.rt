//! Mutators that change a scope in place. None of them has to allocate: `shrink_to_fit` may ask for some, and goes on
//! without it.
ghost use Rattle.std.specs.Prelude.{◌≡◌, IsSome, map};
ghost use Rattle.dm_base.specs.Names.{find_name};
ghost use Rattle.dm_scope.specs.Changes.{without_binding, with_vis, with_def, change_all, censored, censored_macro};
ghost use Rattle.dm_scope.specs.Rare.{censored_trait};
ghost use Rattle.dm_base.specs.Sameness.{same_def};

use super::ItemScope;
use dm_base::ids::Crate;
use dm_base::item_ids::{MacroId, ModuleDefId};
use dm_base::name::Name;
use dm_base::visibility::Visibility;

impl ItemScope {
    /// Removes a value, where the name is bound to that definition. The order of the others stays; so do import records
    /// and glob flags.
    pub fn remove_from_value_ns(&mut self, name: &Name, def: ModuleDefId)
        ensures { self.new
            ≡ record self.old { values = without_binding same_def name.now def self.old.values } }
    {
        self.values.remove(name, def);
    }

    /// Restricts all types, values, unnamed traits and macros to the crate, except the procedural macros that it
    /// declares, which are all that a proc-macro crate exports.
    pub fn censor_non_proc_macros(&mut self, krate: Crate)
        ensures { self.new ≡ record self.old {
          types = change_all (censored krate) self.old.types;
          values = change_all (censored krate) self.old.values;
          macros = change_all (censored_macro krate) self.old.macros;
          unnamed_traits = map (censored_trait krate) self.old.unnamed_traits;
        } }
    {
        self.types.censor(krate);
        self.values.censor(krate);
        self.macros.censor_non_proc(krate);
        self.rare.censor_traits(krate);
    }

    /// Changes the visibility of a type. `type_` tells whether the name is bound.
    pub fn update_visibility_types(&mut self, name: &Name, vis: Visibility)
        requires { IsSome (find_name name.now self.old.types.items) }
        ensures { self.new ≡ record self.old { types = with_vis name.now vis self.old.types } }
    {
        self.types.update_visibility(name, vis);
    }

    /// Changes the visibility of a value. `get` tells whether the name is bound.
    pub fn update_visibility_values(&mut self, name: &Name, vis: Visibility)
        requires { IsSome (find_name name.now self.old.values.items) }
        ensures { self.new ≡ record self.old { values = with_vis name.now vis self.old.values } }
    {
        self.values.update_visibility(name, vis);
    }

    /// Changes the visibility of a macro. `makro` tells whether the name is bound.
    pub fn update_visibility_macros(&mut self, name: &Name, vis: Visibility)
        requires { IsSome (find_name name.now self.old.macros.items) }
        ensures { self.new ≡ record self.old { macros = with_vis name.now vis self.old.macros } }
    {
        self.macros.update_visibility(name, vis);
    }

    /// Changes what a name is bound to as a type, with its visibility. `type_` tells whether the name is bound.
    pub fn update_def_types(&mut self, name: &Name, def: ModuleDefId, vis: Visibility)
        requires { IsSome (find_name name.now self.old.types.items) }
        ensures { self.new ≡ record self.old { types = with_def name.now def vis self.old.types } }
    {
        self.types.update_def(name, def, vis);
    }

    /// Changes what a name is bound to as a value, and its visibility. `get` tells whether the name is bound.
    pub fn update_def_values(&mut self, name: &Name, def: ModuleDefId, vis: Visibility)
        requires { IsSome (find_name name.now self.old.values.items) }
        ensures { self.new ≡ record self.old { values = with_def name.now def vis self.old.values } }
    {
        self.values.update_def(name, def, vis);
    }

    /// Changes what a name is bound to as a macro, and its visibility. `makro` tells whether the name is bound.
    pub fn update_def_macros(&mut self, name: &Name, def: MacroId, vis: Visibility)
        requires { IsSome (find_name name.now self.old.macros.items) }
        ensures { self.new ≡ record self.old { macros = with_def name.now def vis self.old.macros } }
    {
        self.macros.update_def(name, def, vis);
    }

    /// Gives back memory that is not needed, where a smaller place can be had. The contents stay.
    pub fn shrink_to_fit(&mut self)
        ensures { self.new ≡ self.old }
    {
        self.types.shrink_to_fit();
        self.values.shrink_to_fit();
        self.macros.shrink_to_fit();
        self.declarations.shrink_to_fit();
        self.rare.shrink_to_fit();
    }
}
