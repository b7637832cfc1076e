//! The modules of a world, as a tree.
use crate::world::World;
use dm_base::ids::{BlockId, Crate, ModuleId};
use dm_base::module_tree::ModuleTree;

#[tactic(auto, unfolding(crate::specs::Trees::tree_of))]
impl ModuleTree for World {
    ghost use Rattle.dm_maps.specs.Trees.{tree_of};

    ghost tree = { tree_of };

    fn has(&self, m: ModuleId) -> bool {
        self.tables.has(m)
    }

    fn krate(&self, m: ModuleId) -> Crate {
        self.tables.map_id_of(m).krate
    }

    fn block(&self, m: ModuleId) -> Option<BlockId> {
        self.tables.map_id_of(m).block
    }

    fn containing(&self, m: ModuleId) -> Option<ModuleId> {
        let parent = self.tables.parent_of(m);
        parent.or(self.outside(m))
    }

    fn outside(&self, m: ModuleId) -> Option<ModuleId> {
        self.tables.container_of(self.tables.map_id_of(m).block)
    }

    /// By ladders, which are tables of jump pointers: in at most 32 hops, however deep the module lies.
    fn contains(&self, a: ModuleId, m: ModuleId) -> bool {
        self.tables.contains(a, m)
    }

    fn is_block_root(&self, m: ModuleId) -> bool {
        self.tables.map_id_of(m).block.is_some() && self.tables.parent_of(m).is_none()
    }
}
