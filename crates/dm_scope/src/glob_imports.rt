//! `PerNsGlobImports`: which names a glob import bound in each namespace, so that explicit names can shadow them.
ghost use Rattle.std.specs.Prelude.{◌≡◌, []};
ghost use Rattle.dm_base.specs.declared.ids.ModuleId.{ModuleId};
ghost use Rattle.dm_scope.specs.Flags.{has_flag, no_globs};
ghost use Rattle.dm_scope.specs.Scope.{no_scope};
ghost use Rattle.dm_scope.specs.Shows.{Shows};

pub use crate::bindings::glob_flags::GlobFlags;
use dm_base::ids::ModuleId;
use dm_base::name::Name;
use std::alloc::Global;
use std::marker::Model;

/// The names that globs bound, in each namespace. Explicit names shadow them.
pub struct PerNsGlobImports {
    pub(crate) types: GlobFlags,
    pub(crate) values: GlobFlags,
    pub(crate) macros: GlobFlags,
}

/// Hand-written `Drop`, to keep proofs small: dropping one is then a single call.
impl Drop for PerNsGlobImports {
    fn drop(self) {
        let PerNsGlobImports {
            types: _types,
            values: _values,
            macros: _macros,
        } = self;
    }
}

impl Model for PerNsGlobImports {
    ghost use Rattle.dm_scope.specs.Flags.{Globs};

    ghost Value = { Globs };

    ghost view = { λ g. record { types = g.types; values = g.values; macros = g.macros } };
}

impl PerNsGlobImports {
    /// A table without names. Takes no memory.
    pub fn new(alloc: Global) -> PerNsGlobImports
        ensures empty { result ≡ no_globs }

        // A fresh scope and this table show the empty list of pushes, under each module.
        ensures shown { (m : ModuleId) → Shows no_scope result m [] }
    {
        PerNsGlobImports {
            types: GlobFlags::new(alloc),
            values: GlobFlags::new(alloc),
            macros: GlobFlags::new(alloc),
        }
    }

    /// Whether a glob bound the name as a type in the module. Takes no memory.
    pub fn contains_type(&self, m: ModuleId, name: &Name) -> bool
        ensures { result ≡ has_flag self.now.types m name.now }
    {
        self.types.contains(m, name)
    }

    /// Whether a glob bound the name as a value in the module. Takes no memory.
    pub fn contains_value(&self, m: ModuleId, name: &Name) -> bool
        ensures { result ≡ has_flag self.now.values m name.now }
    {
        self.values.contains(m, name)
    }

    /// Whether a glob bound the name as a macro in the module. Takes no memory.
    pub fn contains_macro(&self, m: ModuleId, name: &Name) -> bool
        ensures { result ≡ has_flag self.now.macros m name.now }
    {
        self.macros.contains(m, name)
    }
}
