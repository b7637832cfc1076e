//! `HeldId`: an id that a world's tables hold.
use crate::check::fault::WorldFaultKind;
use dm_base::ids::{Crate, EnumVariantId, ModuleId, UseId};
use dm_base::item_ids::{ItemKind, MacroId};

/// An id that a table holds, with the kind of what it stands for.
#[derive(Clone, Copy, PartialEq, Eq, Debug)]
pub enum HeldId {
    Module(ModuleId),
    Crate(Crate),
    Use(UseId),
    Item(ItemKind, u32),
    Variant(EnumVariantId),
    Macro(MacroId),
}

/// What is wrong with an id that is not the world's.
#[derive(Clone, Copy, PartialEq, Eq, Debug)]
pub struct HeldFault {
    pub kind: WorldFaultKind,
    pub id: u32,
}
