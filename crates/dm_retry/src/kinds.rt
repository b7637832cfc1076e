//! What an import brings of the items that its path means, by its kind.
ghost use Rattle.std.specs.Prelude.{◌≡◌, IsTrue};
ghost use Rattle.std.specs.Option.{ForSome};
ghost use Rattle.dm_base.specs.Tree.{IsKnown};
ghost use Rattle.dm_base.specs.Visibility.{NamesKnown};
ghost use Rattle.dm_maps.specs.Holding.{res_holds, vis_holds};
ghost use Rattle.dm_maps.specs.declared.check.held.HeldId.TheVariants as held;
ghost use Rattle.dm_maps.specs.Known.{knows, KnowsAll};
ghost use Rattle.dm_maps.specs.Trees.{tree_of};
ghost use Rattle.dm_retry.specs.Kinds.{by_kind, if_any, is_foreign, narrowed, narrowed_item, re_exported, types_alone};

use crate::import_kind::ImportKind;
use dm_base::ids::{Crate, MapId, ModuleId};
use dm_base::module_tree::ModuleTree;
use dm_base::per_ns::{Item, PerNs};
use dm_base::visibility::Visibility;
use dm_maps::world::World;

/// What an import in module `m` of visibility `vis` brings of some items.
pub(crate) fn by_kind(
    world: &World,
    m: ModuleId,
    vis: Visibility,
    kind: ImportKind,
    items: PerNs,
) -> PerNs
    requires home { IsKnown (tree_of world.now) m }
    requires named { NamesKnown (tree_of world.now) vis }
    requires items { KnowsAll world.now (res_holds items) }
    ensures { result ≡ by_kind (tree_of world.now) m vis kind items }
{
    match kind {
        ImportKind::Plain => items.with_visibility(vis),
        ImportKind::TypeOnly => types_alone(items).with_visibility(vis),
        ImportKind::ReExport => re_exported(world, m, vis, items),
        ImportKind::Unnamed => items.with_visibility(vis),
    }
}

/// Some items as module `m` re-exports them with a visibility: what a glob brings of what its module sees, and an import
/// of that kind of what its path means. Does not allocate.
///
/// The module, and what the visibility and the items hold, have to be the world's: `knows_def`, `knows_vis` and
/// `knows_res` test it.
pub fn as_re_exported(world: &World, m: ModuleId, vis: Visibility, items: PerNs) -> PerNs
    requires home { IsTrue (knows world.now (held.Module m)) }
    requires vis { KnowsAll world.now (vis_holds vis) }
    requires items { KnowsAll world.now (res_holds items) }
    ensures value { result ≡ re_exported (tree_of world.now) m vis items }
    ensures known { KnowsAll world.now (res_holds result) }
{
    re_exported(world, m, vis, items)
}

/// Some items, where there is one.
pub(crate) fn if_any(items: PerNs) -> Option<PerNs>
    ensures { result ≡ if_any items }
{
    if items.is_none() { None } else { Some(items) }
}

/// The type of some items alone.
fn types_alone(items: PerNs) -> PerNs
    ensures { result ≡ types_alone items }
{
    PerNs {
        types: items.types,
        values: None,
        macros: None,
    }
}

/// Some items as a module re-exports them.
fn re_exported(world: &World, m: ModuleId, vis: Visibility, items: PerNs) -> PerNs
    requires home { IsKnown (tree_of world.now) m }
    requires named { NamesKnown (tree_of world.now) vis }
    requires items { KnowsAll world.now (res_holds items) }
    ensures { result ≡ re_exported (tree_of world.now) m vis items }
{
    PerNs {
        types: narrowed_item(world, m, vis, items.types),
        values: narrowed_item(world, m, vis, items.values),
        macros: narrowed_item(world, m, vis, items.macros),
    }
}

/// An item as a module re-exports it, if it does.
fn narrowed_item<D: Copy, I: Copy>(
    world: &World,
    m: ModuleId,
    vis: Visibility,
    item: Option<Item<D, I>>,
) -> Option<Item<D, I>>
    requires home { IsKnown (tree_of world.now) m }
    requires named { NamesKnown (tree_of world.now) vis }
    requires own { ForSome item (λ i. NamesKnown (tree_of world.now) i.vis) }
    ensures { result ≡ narrowed_item (tree_of world.now) m vis item }
{
    let item = item?;
    if is_foreign(world, world.krate(m), item.vis) {
        return None;
    }
    let vis = narrowed(world, m, vis, item.vis);
    Some(Item { vis, ..item })
}

/// Whether a visibility is of another crate, and so not public.
fn is_foreign(world: &World, krate: Crate, vis: Visibility) -> bool
    requires { NamesKnown (tree_of world.now) vis }
    ensures { result ≡ is_foreign (tree_of world.now) krate vis }
{
    match vis {
        Visibility::Module(m, _) => world.krate(m) != krate,
        Visibility::PubCrate(other) => other != krate,
        Visibility::Public => false,
    }
}

/// Who sees an item that a module re-exports: the less permissive of its own visibility and that of the import, and its
/// own where neither is that.
fn narrowed(world: &World, m: ModuleId, vis: Visibility, own: Visibility) -> Visibility
    requires home { IsKnown (tree_of world.now) m }
    requires named { NamesKnown (tree_of world.now) vis }
    requires own { NamesKnown (tree_of world.now) own }
    ensures { result ≡ narrowed (tree_of world.now) m vis own }
{
    let map = MapId {
        krate: world.krate(m),
        block: world.block(m),
    };
    own.min(world, vis, map).unwrap_or(own)
}
