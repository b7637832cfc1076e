//! The ancestor test on the module tree of a builder, by ladders: jump pointers (binary lifting).
ghost use Rattle.std.specs.Prelude.{◌≡◌, ◌<◌, ◌≤◌, length};
ghost use Rattle.dm_base.specs.Tree.{chain, is_among};
ghost use Rattle.dm_maps.specs.Ancestry.{moves};
ghost use Rattle.dm_maps.specs.Trees.{tree_of};

use crate::builder::WorldBuilder;
use dm_base::ids::ModuleId;

impl WorldBuilder {
    /// Whether `a` is `m` or contains it, however far out, and the number of hops by which that was found.
    pub(crate) fn contains_counted(&self, a: ModuleId, m: ModuleId) -> (bool, u32)
        requires ancestor { a.0 < length self.now.places }
        requires known { m.0 < length self.now.places }
        ensures answer { result.0 ≡ is_among a (chain (tree_of self.now) m) }
        ensures moves { result.1 ≡ moves (tree_of self.now) a m }
        ensures few { result.1 ≤ 32 }
    {
        self.ladders.contains_counted(a, m)
    }

    /// The same, without the number, and also of an `a` that is not the builder's.
    pub(crate) fn contains(&self, a: ModuleId, m: ModuleId) -> bool
        requires { m.0 < length self.now.places }
        ensures { result ≡ is_among a (chain (tree_of self.now) m) }
    {
        let _ladders = &self.ladders;
        if !self.has(a) {
            return false;
        }
        let (contains, _moves) = self.contains_counted(a, m);
        contains
    }
}
