//! Files, macro expansions, item trees and AST items: the ids of places in source code.
ghost use Rattle.std.specs.Prelude.{◌≡◌};
ghost use Rattle.dm_base.specs.Files.{macro_file};

pub use crate::edition::Edition;
use crate::ids::{BlockId, FileAstId, FileId, MacroCallId};

/// A file, as read under an edition.
#[derive(Clone, Copy, PartialEq, Eq, PartialOrd, Ord, Hash, Debug)]
pub struct EditionedFileId {
    pub file: FileId,
    pub edition: Edition,
}

impl EditionedFileId {
    /// The file, without its edition.
    pub fn file_id(self) -> FileId
        ensures { result ≡ self.file }
    {
        let EditionedFileId { file, .. } = self;
        file
    }
}

/// A file, or the expansion of a macro call.
#[derive(Clone, Copy, PartialEq, Eq, PartialOrd, Ord, Hash, Debug)]
pub enum HirFileId {
    File(EditionedFileId),
    Macro(MacroCallId),
}

impl HirFileId {
    /// The macro call whose expansion it is, if it is one.
    pub fn macro_file(self) -> Option<MacroCallId>
        ensures { result ≡ macro_file self }
    {
        match self {
            HirFileId::File(_) => None,
            HirFileId::Macro(id) => Some(id),
        }
    }
}

/// The item tree of a file, or of a block in it.
#[derive(Clone, Copy, PartialEq, Eq, PartialOrd, Ord, Hash, Debug)]
pub struct TreeId {
    pub file: HirFileId,
    pub block: Option<BlockId>,
}

impl TreeId {
    /// The file or the expansion that the tree is of.
    pub fn file_id(self) -> HirFileId
        ensures { result ≡ self.file }
    {
        let TreeId { file, .. } = self;
        file
    }
}

/// An AST item: an item by its place in the syntax of a file or an expansion.
#[derive(Clone, Copy, PartialEq, Eq, PartialOrd, Ord, Hash, Debug)]
pub struct AstId {
    pub file_id: HirFileId,
    pub value: FileAstId,
}

/// An AST item of whatever kind, its node type erased.
pub type ErasedAstId = AstId;
