//! Laws of chains of containing modules, for proofs of the crates above.
ghost use Rattle.std.specs.Prelude.{◌≡◌, ◌+◌, ◌^◌, ℕ};
ghost use Rattle.dm_base.specs.Tree.{IsKnown, IsTree};
ghost use Rattle.dm_maps.specs.Ancestry.{member};

use dm_base::ids::ModuleId;
use dm_base::module_tree::ModuleTree;

/// Two hops along a chain are one of their sum, in every lawful tree: to member `2^j`, and from there to member `2^k`.
/// It does nothing: a proof that needs it calls it.
pub fn moves_add<T: ModuleTree>(_tree: &T, _m: ModuleId)
    requires known { IsKnown (T.tree _tree.now) _m }
    requires lawful { IsTree (T.tree _tree.now) }
    ensures { (j k : ℕ)
        → member (T.tree _tree.now) (2 ^ j + 2 ^ k) _m
        ≡ member (T.tree _tree.now) (2 ^ k) (member (T.tree _tree.now) (2 ^ j) _m) }
{}
