//! `ItemScope`, the scope of a module: what its names are bound to, its legacy macros, and the lists of its items.
ghost use Rattle.std.specs.Prelude.{◌≡◌, []};
ghost use Rattle.dm_base.specs.declared.ids.ModuleId.{ModuleId};
ghost use Rattle.dm_scope.specs.Flags.{no_globs};
ghost use Rattle.dm_scope.specs.Scope.{no_scope, bound_in};
ghost use Rattle.dm_scope.specs.Shows.{Shows};

mod changes;
mod derive_attributes;
mod dump;
mod lists;
mod lookups;
mod mutators;
mod push;
mod sorted;

use crate::bindings::Bindings;
use crate::glob_imports::PerNsGlobImports;
use crate::rare::Rare;
use dm_base::ids::ModuleId;
use dm_base::imports::{ImportOrExternCrate, ImportOrGlob};
use dm_base::item_ids::{MacroId, ModuleDefId};
use dm_base::name::Name;
use dm_base::per_ns::PerNs;
use std::alloc::Global;
use std::marker::Model;

/// The scope of a module. Contracts see it as the record of its tables and lists.
pub struct ItemScope {
    types: Bindings<ModuleDefId, ImportOrExternCrate>,
    values: Bindings<ModuleDefId, ImportOrGlob>,
    macros: Bindings<MacroId, ImportOrExternCrate>,
    declarations: Vec<ModuleDefId>,
    rare: Rare,
    alloc: Global,
}

/// Hand-written `Drop`, to keep proofs small: dropping one is then a single call.
impl Drop for ItemScope {
    fn drop(self) {
        let ItemScope {
            types: _types,
            values: _values,
            macros: _macros,
            declarations: _declarations,
            rare: _rare,
            alloc: _alloc,
        } = self;
    }
}

impl Model for ItemScope {
    ghost use Rattle.dm_scope.specs.Scope.{Scope};

    ghost Value = { Scope };

    ghost view = { λ s. record {
      types = s.types;
      values = s.values;
      macros = s.macros;
      unresolved = s.rare.unresolved;
      legacy_macros = s.rare.legacy_macros;
      declarations = s.declarations.items;
      impls = s.rare.impls;
      builtin_derive_impls = s.rare.builtin_derive_impls;
      extern_blocks = s.rare.extern_blocks;
      extern_crate_decls = s.rare.extern_crate_decls;
      unnamed_consts = s.rare.unnamed_consts;
      unnamed_traits = s.rare.unnamed_traits;
      attr_macros = s.rare.attr_macros;
      macro_invocations = s.rare.macro_invocations;
      derive_macros = s.rare.derive_macros;
    } };
}

impl ItemScope {
    /// A fresh scope. Takes no memory.
    pub fn new(alloc: Global) -> ItemScope
        ensures empty { result ≡ no_scope }

        // This scope and a new table show the empty list of pushes, under each module.
        ensures shown { (m : ModuleId) → Shows result no_globs m [] }
    {
        ItemScope {
            types: Bindings::new(alloc),
            values: Bindings::new(alloc),
            macros: Bindings::new(alloc),
            declarations: Vec::new(alloc),
            rare: Rare::new(alloc),
            alloc,
        }
    }

    /// What the scope binds under a name. Takes no memory: one look-up for each namespace.
    pub fn get(&self, name: &Name) -> PerNs
        ensures { result ≡ bound_in self.now name.now }
    {
        PerNs {
            types: self.types.get(name).copied(),
            values: self.values.get(name).copied(),
            macros: self.macros.get(name).copied(),
        }
    }
}
