//! `WorldFault`: a dangling id, which is what the check of a world can find.
use dm_base::ids::{MapId, ModuleId};

/// What is wrong with an id that something holds, with the number by which faults of one holder are told in order.
#[derive(Clone, Copy, PartialEq, Eq, Debug)]
pub enum WorldFaultKind {
    UnknownModule = 1,
    UnknownCrate,
    UnknownUse,
    /// The world has no such item or variant, or one of another kind.
    UnknownItem,
    /// The world has no such macro, or one of another kind.
    UnknownMacro,
}

/// What holds ids.
#[derive(Clone, Copy, PartialEq, Eq, Debug)]
pub enum Holder {
    Map(MapId),
    Module(ModuleId),
    /// The tables that belong to no map and no module.
    Tables,
}

/// A dangling id, which is one that is not the world's, with what holds it.
#[derive(Clone, Copy, PartialEq, Eq, Debug)]
pub struct WorldFault {
    pub kind: WorldFaultKind,
    pub holder: Holder,
    pub id: u32,
}
