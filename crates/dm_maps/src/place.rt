//! Where each module of a world is: its def map, its index there, and its parent.
use dm_base::ids::{MapId, ModuleId};

/// Where a module stands: its map, its place among the map's modules, and its parent there.
#[derive(Clone, Copy, PartialEq, Eq, Debug)]
pub struct Place {
    pub map: MapId,
    pub index: usize,
    pub parent: Option<ModuleId>,
}
