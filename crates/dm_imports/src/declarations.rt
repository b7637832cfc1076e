//! `Declarations`: what of declarations paths go by, and no table of a world has.
ghost use Rattle.std.specs.Prelude.{◌≡◌, []};
ghost use Rattle.std.specs.List.{list_any};
ghost use Rattle.std.specs.Map.{lookup};
ghost use Rattle.dm_base.specs.Tree.{same_module};
ghost use Rattle.dm_imports.specs.Declarations.{same_variant, vis_in};

use dm_base::ids::{EnumId, EnumVariantId, ModuleId};
use dm_base::visibility::Visibility;
use indexmap::{IndexMap, IndexSet};
use std::alloc::Global;
use std::marker::Model;

/// What of declarations paths go by, and no table of a world has.
pub struct Declarations {
    /// Who sees each enum: its variants are seen as it is.
    pub enums: IndexMap<EnumId, Visibility>,
    /// Who sees the constructor of a variant of an enum that all see, where not all do, as under `#[non_exhaustive]`.
    pub constructors: IndexMap<EnumVariantId, Visibility>,
    /// The modules that have no preludes, as under `#![no_implicit_prelude]`.
    pub bare_modules: IndexSet<ModuleId>,
}

/// Hand-written `Drop`, to keep proofs small: dropping one is then a single call.
impl Drop for Declarations {
    fn drop(self) {
        let Declarations {
            enums: _enums,
            constructors: _constructors,
            bare_modules: _bare_modules,
        } = self;
    }
}

impl Model for Declarations {
    ghost use Rattle.dm_imports.specs.Declarations.{Declarations};

    ghost Value = { Declarations };

    ghost view = { λ d. record {
      enums = d.enums.entries;
      constructors = d.constructors.entries;
      bare_modules = d.bare_modules.keys;
    } };
}

impl Declarations {
    /// No declarations: all see each enum with its constructors, and each module has preludes. Allocates nothing.
    pub fn new(alloc: Global) -> Declarations
        ensures { result ≡ record { enums = []; constructors = []; bare_modules = [] } }
    {
        Declarations {
            enums: IndexMap::new(alloc),
            constructors: IndexMap::new(alloc),
            bare_modules: IndexSet::new(alloc),
        }
    }

    /// Who sees an enum.
    pub(crate) fn enum_vis(&self, e: EnumId) -> Visibility
        ensures { result ≡ vis_in self.now.enums e }
    {
        match self.enums.get(&e) {
            None => Visibility::Public,
            Some(vis) => *vis,
        }
    }

    /// Who sees the constructor of a variant of an enum that all see, where not all do.
    pub(crate) fn constructor_vis(&self, v: EnumVariantId) -> Option<Visibility>
        ensures { result ≡ lookup (same_variant v) self.now.constructors }
    {
        self.constructors.get(&v).copied()
    }

    /// Whether a module has no preludes.
    pub(crate) fn is_bare(&self, m: ModuleId) -> bool
        ensures { result ≡ list_any (same_module m) self.now.bare_modules }
    {
        self.bare_modules.contains(&m)
    }
}
