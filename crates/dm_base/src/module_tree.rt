//! `ModuleTree`: the tree of modules, as a trait of whatever stores it.
ghost use Rattle.std.specs.Prelude.{◌≡◌, ◌↔◌, ◌<◌, ◌-◌, IsTrue, Bool, true, false, is_some, slice_get};
ghost use Rattle.std.specs.Option.{option_map_or, ForSome, ForNone};
ghost use Rattle.dm_base.specs.declared.ids.ModuleId.{ModuleId};
ghost use Rattle.dm_base.specs.Tree.{Tree, IsKnown, IsTree, crate_of, block_of, containing, outside, chain, is_among, in_block_map, is_block_root, outside_root, home, homeward, outer, begun_by};

use crate::ids::{BlockId, Crate, ModuleId};

/// A tree of modules: each has a def map and a containing module of smaller number, or none.
///
/// The containing module is the parent, or for a block's root the module that contains the block. Only the values of
/// the type are known to be lawful, so that is a clause of the calls that climb, and no law over every value.
pub trait ModuleTree {
    /// What the tree is, for contracts.
    ghost tree: { Self → Tree };

    /// Whether the module is one of the tree's.
    fn has(&self, m: ModuleId) -> bool
        ensures { IsTrue result ↔ IsKnown (tree self.now) m };

    /// The crate of a module.
    fn krate(&self, m: ModuleId) -> Crate
        requires { IsKnown (tree self.now) m }
        ensures { result ≡ crate_of (tree self.now) m };

    /// The block in whose map a module lies, if it lies in one.
    fn block(&self, m: ModuleId) -> Option<BlockId>
        requires { IsKnown (tree self.now) m }
        ensures { result ≡ block_of (tree self.now) m };

    /// The module that contains a module.
    fn containing(&self, m: ModuleId) -> Option<ModuleId>
        requires { IsKnown (tree self.now) m }
        ensures value { result ≡ containing (tree self.now) m }
        ensures lawful { IsTree (tree self.now) };

    /// The module that contains the block in whose map a module lies.
    fn outside(&self, m: ModuleId) -> Option<ModuleId>
        requires { IsKnown (tree self.now) m }
        ensures value { result ≡ outside (tree self.now) m }
        ensures lawful { IsTree (tree self.now) };

    /// Whether a module is the root of a block's map.
    fn is_block_root(&self, m: ModuleId) -> bool
        requires { IsKnown (tree self.now) m }
        ensures { result ≡ is_block_root (tree self.now) m }
    {
        self.block(m).is_some() && self.containing(m) == self.outside(m)
    }

    /// The module that contains the block whose root a module is: the next one on the way to its `home`.
    fn outside_root(&self, m: ModuleId) -> Option<ModuleId>
        requires { IsKnown (tree self.now) m }
        ensures value { result ≡ outside_root (tree self.now) m }

        // There is one exactly for a block's root, one of the tree's, of smaller number.
        ensures root { is_some result ≡ is_block_root (tree self.now) m }
        ensures known { ForSome result (IsKnown (tree self.now)) }
        ensures smaller { ForSome result (λ o. o.0 < m.0) }

        // The way home is the module, then the way home from the one outside; what is home to that is home to the
        // module, and the chains of both are the same but for roots of blocks.
        ensures way { homeward (tree self.now) m ≡ begun_by m (homeward (tree self.now)) result }
        ensures home { home (tree self.now) m ≡ option_map_or (home (tree self.now)) result m }
        ensures outer { ForSome result (λ o. outer (tree self.now) m ≡ outer (tree self.now) o) }
    {
        if self.is_block_root(m) {
            self.outside(m)
        } else {
            None
        }
    }

    /// The nearest module, from `m` outwards, that is no block's root.
    fn home(&self, m: ModuleId) -> ModuleId
        requires { IsKnown (tree self.now) m }
        ensures value { result ≡ home (tree self.now) m }
        ensures known { IsKnown (tree self.now) result }
        ensures no_root { is_block_root (tree self.now) result ≡ false }
        ensures outer { outer (tree self.now) m ≡ outer (tree self.now) result }
    {
        let mut nearest = m;
        'roots: while let Some(outside) = self.outside_root(nearest) {
            nearest = outside;
        }
        nearest
    }

    /// Member `k`, from 0, of the chain of `m` without the roots of blocks. No tree overrides it.
    final fn outer_member(&self, m: ModuleId, k: u8) -> Option<ModuleId>
        requires { IsKnown (tree self.now) m }
        ensures value { result ≡ slice_get (outer (tree self.now) m) k }
        ensures known { ForSome result (IsKnown (tree self.now)) }
    {
        let mut at = self.home(m);
        'members: for _ in 0..k {
            at = self.home(climb(self, at)?);
        }
        Some(at)
    }

    /// Whether `a` is `m` or contains it, however far out.
    fn contains(&self, a: ModuleId, m: ModuleId) -> bool
        requires { IsKnown (tree self.now) m }
        ensures { result ≡ is_among a (chain (tree self.now) m) }
    {
        let mut at = m;
        loop {
            if a == at {
                return true;
            }
            match self.containing(at) {
                None => return false,
                Some(outer) => at = outer,
            }
        }
    }
}

/// The containing module, with what a climb along the chain needs of it.
fn climb<T: ModuleTree>(tree: &T, m: ModuleId) -> Option<ModuleId>
    requires { IsKnown (T.tree tree.now) m }
    ensures value { result ≡ containing (T.tree tree.now) m }

    // The chain of a module is the module, then the chain of its containing module.
    ensures chain { chain (T.tree tree.now) m ≡ begun_by m (chain (T.tree tree.now)) result }
    ensures known { ForSome result (IsKnown (T.tree tree.now)) }
    ensures smaller { ForSome result (λ c. c.0 < m.0) }

    // What nothing contains lies in no block.
    ensures outmost { ForNone result (in_block_map (T.tree tree.now) m ≡ false) }
{
    tree.containing(m)
}
