//! Example callers, shown in docs/USING.md: items per namespace, visibility and the module tree.
ghost use Rattle.std.specs.Prelude.{◌≡◌, ◌↔◌, ◌&&◌, IsTrue, IfOk, None, map, true};
ghost use Rattle.std.specs.Option.{ForSome};
ghost use Rattle.dm_base.specs.PerNs.{items_of, over, seen_by, type_alone};
ghost use Rattle.dm_base.specs.Tree.{IsKnown, sees};
ghost use Rattle.dm_base.specs.Visibility.{NamesKnown};
ghost use Rattle.dm_base.specs.declared.ids.ModuleId.{ModuleId};

use crate::tree::SmallTree;
use dm_base::ids::{MapId, ModuleId};
use dm_base::item_ids::ModuleDefId;
use dm_base::item_in_ns::ItemInNs;
use dm_base::mod_path::{ModPath, PathKind};
use dm_base::module_tree::ModuleTree;
use dm_base::overlay::Overlay;
use dm_base::per_ns::PerNs;
use dm_base::value_eq::ValueEq;
use dm_base::visibility::{Visibility, VisibilityExplicitness};
use std::alloc::{AllocError, Global};

/// The definitions that a name means, types before values before macros.
pub fn definitions(alloc: Global, items: PerNs) -> Result<Vec<ItemInNs>, AllocError>
    ensures { IfOk result (λ listed. listed.items ≡ map (λ entry. entry.0) (items_of items)) }
{
    items.iter_items().map(|(item, _)| item).collect(alloc)
}

/// What a name means, and a public type where it means none.
pub fn type_or(items: PerNs, def: ModuleDefId) -> PerNs
    ensures { result ≡ over items (type_alone def Visibility.Public None) }
{
    items.or_else(
        || -> PerNs
            ensures { result ≡ type_alone def Visibility.Public None }
        { PerNs::types(def, Visibility::Public, None) },
    )
}

/// Three layers as one: the first shadows the others.
pub fn layered<T: Overlay>(upper: T, middle: T, lower: T) -> T
    ensures { result ≡ T.overlaid upper (T.overlaid middle lower) }
{
    upper.over(middle).over(lower)
}

/// Whether two values are equal.
pub fn are_one<T: ValueEq>(one: &T, two: &T) -> bool
    ensures { IsTrue result ↔ (one.now ≡ two.now) }
{
    one == two
}

/// Whether a module sees an item that it reaches through a re-export: it has to see both.
pub fn is_reached<T: ModuleTree>(
    tree: &T,
    item: Visibility,
    reexport: Visibility,
    from: ModuleId,
) -> bool
    requires item { NamesKnown (T.tree tree.now) item }
    requires reexport { NamesKnown (T.tree tree.now) reexport }
    requires from { IsKnown (T.tree tree.now) from }
    ensures { result ≡ (sees (T.tree tree.now) item from && sees (T.tree tree.now) reexport from) }
{
    item.is_visible_from(tree, from) && reexport.is_visible_from(tree, from)
}

/// The items of a name that a module sees.
pub fn seen_from<T: ModuleTree>(tree: &T, from: ModuleId, items: PerNs) -> PerNs
    requires from { IsKnown (T.tree tree.now) from }
    requires types { ForSome items.types (λ i. NamesKnown (T.tree tree.now) i.vis) }
    requires values { ForSome items.values (λ i. NamesKnown (T.tree tree.now) i.vis) }
    requires macros { ForSome items.macros (λ i. NamesKnown (T.tree tree.now) i.vis) }
    ensures { result ≡ seen_by (λ v. sees (T.tree tree.now) v from) items }
{
    items.filter_visibility(|vis| vis.is_visible_from(tree, from))
}

/// The more permissive of two visibilities, or the first where neither is: whoever saw the item still does.
pub fn widened_by<T: ModuleTree>(
    tree: &T,
    map: MapId,
    vis: Visibility,
    other: Visibility,
) -> Visibility
    requires vis { NamesKnown (T.tree tree.now) vis }
    requires other { NamesKnown (T.tree tree.now) other }
    ensures { (f : ModuleId) → IsKnown (T.tree tree.now) f → IsTrue (sees (T.tree tree.now) vis f) →
        IsTrue (sees (T.tree tree.now) result f) }
{
    vis.max(tree, other, map).unwrap_or(vis)
}

/// Whether what the root of block 0 sees is seen from module 1, around the block, and not from module 3 beside that.
pub fn is_seen_around_its_block() -> bool
    ensures { result ≡ true }
{
    let tree = SmallTree::new();
    let inside = Visibility::Module(ModuleId(5), VisibilityExplicitness::Implicit);
    inside.is_visible_from(&tree, ModuleId(1)) && !inside.is_visible_from(&tree, ModuleId(3))
}

/// Where a path begins, read as the field that it is.
pub fn beginning(path: &ModPath) -> PathKind
    ensures { result ≡ path.now.kind }
{
    path.kind
}
