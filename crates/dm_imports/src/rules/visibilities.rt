//! Of two visibilities that meet in a module, the most and the least permissive.
ghost use Rattle.std.specs.Prelude.{◌≡◌};
ghost use Rattle.dm_base.specs.Tree.{IsKnown};
ghost use Rattle.dm_base.specs.Visibility.{NamesKnown};
ghost use Rattle.dm_maps.specs.Trees.{tree_of};
ghost use Rattle.dm_imports.specs.Rules as spec;

use dm_base::ids::{MapId, ModuleId};
use dm_base::module_tree::ModuleTree;
use dm_base::visibility::Visibility;
use dm_maps::world::World;

/// The map that a module lies in.
fn map_of(world: &World, m: ModuleId) -> MapId
    requires { IsKnown (tree_of world.now) m }
    ensures { result ≡ (tree_of world.now).map_of m }
{
    MapId {
        krate: world.krate(m),
        block: world.block(m),
    }
}

/// The least permissive.
pub(crate) fn least(world: &World, m: ModuleId, one: Visibility, two: Visibility) -> Visibility
    requires home { IsKnown (tree_of world.now) m }
    requires one { NamesKnown (tree_of world.now) one }
    requires two { NamesKnown (tree_of world.now) two }
    ensures value { result ≡ spec.least world.now m one two }
    ensures named { NamesKnown (tree_of world.now) result }
{
    match one.min(world, two, map_of(world, m)) {
        None => one,
        Some(vis) => vis,
    }
}

/// The most permissive.
pub(crate) fn most(world: &World, m: ModuleId, one: Visibility, two: Visibility) -> Visibility
    requires home { IsKnown (tree_of world.now) m }
    requires one { NamesKnown (tree_of world.now) one }
    requires two { NamesKnown (tree_of world.now) two }
    ensures value { result ≡ spec.most world.now m one two }
    ensures named { NamesKnown (tree_of world.now) result }
{
    match one.max(world, two, map_of(world, m)) {
        None => one,
        Some(vis) => vis,
    }
}
