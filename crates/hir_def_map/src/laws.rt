//! Lemmas about path resolution, for proofs of callers. Each is a function without effect: code calls it for its proof.
ghost use Rattle.std.specs.Prelude.{◌≡◌, List};
ghost use Rattle.dm_base.specs.Names.{Name};
ghost use Rattle.dm_base.specs.Tree.{IsKnown, home};
ghost use Rattle.dm_maps.specs.Cut.{cut, cut_local};
ghost use Rattle.dm_maps.specs.Readings.{Reading};
ghost use Rattle.dm_maps.specs.Trees.{tree_of};
ghost use Rattle.dm_maps.specs.World as worlds;
ghost use Rattle.dm_def_map.specs.Maps.{LocalMap};
ghost use Rattle.hir_def_map.specs.Paths.{answer, enter};
ghost use Rattle.hir_def_map.specs.Questions.{IsKnownInCrate, IsKnownQuestion, StaysAsked};
ghost use Rattle.hir_def_map.specs.RawVisibilities.{IsKnownVisibility};
ghost use Rattle.hir_def_map.specs.declared.path_resolution.question.Ask.{Ask};

use dm_base::ids::ModuleId;
use dm_base::module_tree::ModuleTree;
use dm_maps::world::World;

/// What segments answer from a module of another crate is what they answer from its nearest module that is no block's root.
pub fn enters_at_home(world: &World, m: ModuleId)
    requires { IsKnown (tree_of world.now) m }
    ensures { (S : List Reading) →
        enter (tree_of world.now) m S ≡ enter (tree_of world.now) (home (tree_of world.now) m) S }
{
    let _inside = world.home(m);
}

/// Two worlds and local maps that agree on the names of a path's segments resolve it alike.
pub fn answers_alike()
    ensures { (w v : worlds.World) (L K : LocalMap) (q : Ask) (S : List Name) →
        cut v S ≡ cut w S → cut_local K S ≡ cut_local L S → answer v K q S ≡ answer w L q S }
{}

/// A question that a world knew before a push is one that it knows after it, of the map of the same id: a path asked from a
/// module of the map, one asked of the map's preludes, and a visibility that is written in a module of the map.
pub fn questions_stay_known()
    ensures path { StaysAsked IsKnownQuestion }
    ensures preludes { StaysAsked IsKnownInCrate }
    ensures visibility { StaysAsked IsKnownVisibility }
{}
