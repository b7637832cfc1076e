//! Where uses, definitions and blocks of a world are written.
use dm_base::ids::{FileId, ModuleId, UseId};
use dm_base::item_ids::ModuleDefId;

/// Where a use is written: its file, and the number of the item there.
#[derive(Clone, Copy, PartialEq, Eq, Debug)]
pub struct UsePlace {
    pub use_: UseId,
    pub file: FileId,
    pub item: usize,
}

/// Where a definition is written: the module that it stands in, its file, and the number of the item there.
#[derive(Clone, Copy, PartialEq, Eq, Debug)]
pub struct DefPlace {
    pub def: ModuleDefId,
    pub home: ModuleId,
    pub file: FileId,
    pub item: usize,
}

/// The kinds of blocks that a scope lists.
#[derive(Clone, Copy, PartialEq, Eq, Debug)]
pub enum BlockKind {
    /// An `impl` of a trait.
    TraitImpl,
    InherentImpl,
    /// An `extern` block.
    Extern,
}

/// A block of a module, and where it is written: its file, and the number of the item there.
#[derive(Clone, Copy, PartialEq, Eq, Debug)]
pub struct BlockPlace {
    pub kind: BlockKind,
    pub home: ModuleId,
    pub file: FileId,
    pub item: usize,
}
