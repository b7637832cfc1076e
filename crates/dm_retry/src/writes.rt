//! Whether a push of what an import brings would write, told before it.
ghost use Rattle.std.specs.Prelude.{◌≡◌, false};
ghost use Rattle.dm_base.specs.PerNs.{is_empty};
ghost use Rattle.dm_maps.specs.World.{scope_of};
ghost use Rattle.dm_scope.specs.Push.{push_answer};
ghost use Rattle.dm_retry.specs.Rounds.{by_import};
ghost use Rattle.dm_retry.specs.Writes.{is_written};

use crate::pending::Pending;
use dm_base::imports::{ImportOrExternCrate, ImportOrGlob};
use dm_base::per_ns::{Item, PerNs};
use dm_maps::world::World;
use dm_scope::glob_imports::PerNsGlobImports;

/// Whether a push of items, of which there are some, under the name of an import and by it would write. Takes no memory.
pub(crate) fn would_write(
    world: &World,
    globs: &PerNsGlobImports,
    pending: &Pending,
    items: &PerNs,
) -> bool
    requires { is_empty items.now ≡ false }
    ensures { result
        ≡ push_answer (scope_of world.now pending.now.origin) globs.now pending.now.origin
        pending.now.name items.now (by_import pending.now) }
{
    let m = pending.origin();
    let name = pending.name();
    let bound = world.bound_in(m, name);
    let import = ImportOrExternCrate::Import(pending.import());
    let value_import = ImportOrGlob::Import(pending.import());
    let types = is_written(
        bound.types,
        globs.contains_type(m, name),
        items.types,
        import,
    );
    let values = is_written(
        bound.values,
        globs.contains_value(m, name),
        items.values,
        value_import,
    );
    let macros = is_written(
        bound.macros,
        globs.contains_macro(m, name),
        items.macros,
        import,
    );
    types || values || macros
}

/// Whether a named import that brings an item, if it does, binds it: over nothing, over what a glob brought, or over what
/// it bound itself, where that was another definition.
fn is_written<D: Copy + PartialEq, I: Copy + PartialEq>(
    bound: Option<Item<D, I>>,
    by_glob: bool,
    item: Option<Item<D, I>>,
    import: I,
) -> bool
    ensures { result ≡ is_written D.eq I.eq bound by_glob item import }
{
    match item {
        None => false,
        Some(new) => match bound {
            None => true,
            Some(old) => by_glob || old.is_reresolved_by(&new.def, Some(import)),
        },
    }
}
