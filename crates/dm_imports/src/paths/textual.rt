//! Textual macros, as imports see them.
ghost use Rattle.std.specs.Prelude.{◌≡◌};
ghost use Rattle.dm_imports.specs.Paths as spec;

use crate::meaning::{Meaning, Source, in_namespace, public_def};
use dm_base::ids::Crate;
use dm_base::item_ids::{MacroId, ModuleDefId};
use dm_base::name::Name;
use dm_base::per_ns::Namespace;
use dm_base::visibility::Visibility;
use dm_maps::world::World;

/// Whether a module declares that macro.
fn is_macro(id: MacroId, meaning: Meaning) -> bool
    ensures { result ≡ spec.is_macro id meaning }
{
    matches!(meaning.source, Source::Declaration) && meaning.def == ModuleDefId::MacroId(id)
}

/// Whether a textual macro of a crate is exported: whether the root declares it.
fn is_exported(world: &World, krate: Crate, id: MacroId, name: &Name) -> bool
    ensures { result ≡ spec.is_exported world.now krate id name.now }
{
    let Some(root) = world.root_of(krate) else {
        return false;
    };
    let items = world.bound_in(root, name);
    match in_namespace(&items, Namespace::Macros) {
        None => false,
        Some(meaning) => is_macro(id, meaning),
    }
}

/// A textual macro of a crate, under a name: the crate sees it, and all do where it is exported.
pub(crate) fn textual_macro(world: &World, krate: Crate, id: MacroId, name: &Name) -> Meaning
    ensures { result ≡ spec.textual_macro world.now krate id name.now }
{
    let vis = if is_exported(world, krate, id, name) {
        Visibility::Public
    } else {
        Visibility::PubCrate(krate)
    };
    Meaning {
        vis,
        ..public_def(ModuleDefId::MacroId(id))
    }
}
