//! The ancestor test on the module tree, by jump pointers (binary lifting): at most 32 hops.
ghost use Rattle.std.specs.Prelude.{◌≡◌, ◌≤◌};
ghost use Rattle.dm_base.specs.Tree.{IsKnown, chain, is_among};
ghost use Rattle.dm_maps.specs.Ancestry.{moves};
ghost use Rattle.dm_maps.specs.Trees.{tree_of};

use crate::world::World;
use dm_base::ids::ModuleId;

impl World {
    /// Whether `a` is `m` or contains it, however far out, and the number of hops by which that was found.
    ///
    /// A hop follows a jump pointer from a module to member `2^k` of its chain, so there are as many as the binary form
    /// of how much deeper `m` is has ones, which are 32 at most; and none where `m` is not deeper. Takes no memory.
    /// `ModuleTree::has` tests whether a module is the world's.
    #[tactic(auto, unfolding(crate::specs::Trees::tree_of))]
    pub fn contains_counted(&self, a: ModuleId, m: ModuleId) -> (bool, u32)
        requires ancestor { IsKnown (tree_of self.now) a }
        requires known { IsKnown (tree_of self.now) m }
        ensures answer { result.0 ≡ is_among a (chain (tree_of self.now) m) }
        ensures moves { result.1 ≡ moves (tree_of self.now) a m }
        ensures few { result.1 ≤ 32 }
    {
        self.tables.contains_counted(a, m)
    }
}
