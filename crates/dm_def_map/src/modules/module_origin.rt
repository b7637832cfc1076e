//! `ModuleOrigin`: a crate root, a file, an inline module, or a block expression.
ghost use Rattle.std.specs.Prelude.{◌≡◌};
ghost use Rattle.dm_def_map.specs.SameOrigins.{origins_same};
ghost use Rattle.dm_def_map.specs.Origins.{is_child, declaration, own_file, is_inline, source_file};

use dm_base::ids::{BlockId, FileAstId};
use dm_base::source::{AstId, EditionedFileId, HirFileId, TreeId};
use dm_base::value_eq::ValueEq;

/// Where a module comes from.
#[derive(Clone, Copy, PartialEq, Eq, Hash, Debug)]
pub enum ModuleOrigin {
    /// The root of a crate.
    CrateRoot {
        definition: EditionedFileId,
    },
    /// A module in a file of its own.
    File {
        is_mod_rs: bool,
        declaration: FileAstId,
        declaration_tree_id: TreeId,
        definition: EditionedFileId,
    },
    /// An inline module, `mod name { .. }`.
    Inline {
        definition_tree_id: TreeId,
        definition: FileAstId,
    },
    /// The root of a block's map, which has the block's inner items.
    BlockExpr {
        id: BlockId,
        block: AstId,
    },
}

impl ModuleOrigin {
    /// Where the module is declared, as `mod name;` or `mod name { .. }`; none for a crate's or a block's root.
    pub fn declaration(&self) -> Option<AstId>
        ensures { result ≡ declaration self.now }
    {
        match *self {
            ModuleOrigin::File {
                declaration,
                declaration_tree_id,
                ..
            } => Some(AstId {
                file_id: declaration_tree_id.file_id(),
                value: declaration,
            }),
            ModuleOrigin::Inline {
                definition_tree_id,
                definition,
            } => Some(AstId {
                file_id: definition_tree_id.file_id(),
                value: definition,
            }),
            ModuleOrigin::CrateRoot { .. } | ModuleOrigin::BlockExpr { .. } => None,
        }
    }

    /// The file that the module fills; none for an inline module or a block's root.
    pub fn file_id(&self) -> Option<EditionedFileId>
        ensures { result ≡ own_file self.now }
    {
        match *self {
            ModuleOrigin::File { definition, .. } | ModuleOrigin::CrateRoot { definition } => {
                Some(definition)
            }
            ModuleOrigin::Inline { .. } | ModuleOrigin::BlockExpr { .. } => None,
        }
    }

    /// Whether the module is inline or a block's root, and so fills no file.
    pub fn is_inline(&self) -> bool
        ensures { result ≡ is_inline self.now }
    {
        match self {
            ModuleOrigin::Inline { .. } | ModuleOrigin::BlockExpr { .. } => true,
            ModuleOrigin::CrateRoot { .. } | ModuleOrigin::File { .. } => false,
        }
    }

    /// The file, or the expansion of a macro, that has the module's items.
    pub(crate) fn source_file(&self) -> HirFileId
        ensures { result ≡ source_file self.now }
    {
        match *self {
            ModuleOrigin::File { definition, .. } | ModuleOrigin::CrateRoot { definition } => {
                HirFileId::File(definition)
            }
            ModuleOrigin::Inline {
                definition_tree_id,
                ..
            } => definition_tree_id.file_id(),
            ModuleOrigin::BlockExpr { block, .. } => block.file_id,
        }
    }

    /// Whether such a module is a child of another, in a file or inline: neither a crate's nor a block's root.
    pub fn is_child(&self) -> bool
        ensures { result ≡ is_child self.now }
    {
        matches!(
            self,
            ModuleOrigin::File { .. } | ModuleOrigin::Inline { .. }
        )
    }
}

impl ValueEq for ModuleOrigin {
    ghost same = { origins_same };
}
