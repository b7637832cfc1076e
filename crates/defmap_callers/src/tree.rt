//! A mock module tree, without a world: code that is generic over trees is proved and run with this type too.
ghost use Rattle.std.specs.Prelude.{◌≡◌};
ghost use Rattle.dm_base.specs.Tree.{IsTree};
ghost use Rattle.defmap_callers.specs.SmallTree.{tree_by, small_places, small_blocks};

use dm_base::ids::{BlockId, Crate, MapId, ModuleId};
use dm_base::module_tree::ModuleTree;

const CRATE_0: MapId = MapId {
    krate: Crate(0),
    block: None,
};

const CRATE_1: MapId = MapId {
    krate: Crate(1),
    block: None,
};

const BLOCK_0: MapId = MapId {
    krate: Crate(0),
    block: Some(BlockId(0)),
};

const BLOCK_1: MapId = MapId {
    krate: Crate(0),
    block: Some(BlockId(1)),
};

const BLOCK_2: MapId = MapId {
    krate: Crate(0),
    block: Some(BlockId(2)),
};

/// The map that a module lies in, and its parent there.
#[derive(Clone, Copy)]
pub struct Place {
    pub map: MapId,
    pub parent: Option<ModuleId>,
}

/// Ten modules and three blocks, in two crates.
#[derive(Clone, Copy)]
pub struct SmallTree {
    pub places: [Place; 10],
    /// The module that contains each block.
    pub blocks: [ModuleId; 3],
    ghost lawful: { IsTree (tree_by places blocks) },
}

impl SmallTree {
    /// Crate 0 with five modules and three blocks, one in another, and crate 1 with its root.
    pub fn new() -> SmallTree
        ensures places { result.places ≡ small_places }
        ensures blocks { result.blocks ≡ small_blocks }
    {
        SmallTree {
            places: [
                Place {
                    map: CRATE_0,
                    parent: None,
                },
                Place {
                    map: CRATE_0,
                    parent: Some(ModuleId(0)),
                },
                Place {
                    map: CRATE_0,
                    parent: Some(ModuleId(1)),
                },
                Place {
                    map: CRATE_0,
                    parent: Some(ModuleId(0)),
                },
                Place {
                    map: CRATE_1,
                    parent: None,
                },
                Place {
                    map: BLOCK_0,
                    parent: None,
                },
                Place {
                    map: BLOCK_0,
                    parent: Some(ModuleId(5)),
                },
                Place {
                    map: CRATE_0,
                    parent: Some(ModuleId(0)),
                },
                Place {
                    map: BLOCK_1,
                    parent: None,
                },
                Place {
                    map: BLOCK_2,
                    parent: None,
                },
            ],
            blocks: [ModuleId(1), ModuleId(0), ModuleId(6)],
        }
    }
}

impl ModuleTree for SmallTree {
    ghost tree = { λ t. tree_by t.places t.blocks };

    fn has(&self, m: ModuleId) -> bool {
        m.0 < 10
    }

    fn krate(&self, m: ModuleId) -> Crate {
        self.places[m.0 as usize].map.krate
    }

    fn block(&self, m: ModuleId) -> Option<BlockId> {
        self.places[m.0 as usize].map.block
    }

    fn containing(&self, m: ModuleId) -> Option<ModuleId> {
        self.places[m.0 as usize].parent.or(self.outside(m))
    }

    fn outside(&self, m: ModuleId) -> Option<ModuleId> {
        let block = self.block(m)?;
        self.blocks.get(block.0 as usize).copied()
    }
}
