//! What items and use trees are known by outside of their item tree, and which bytes of the text they have.
ghost use Rattle.std.specs.Prelude.{◌≡◌, ◌-◌, option_copied};
ghost use Rattle.item_tree.specs.Ids as spec;

use crate::items::Item;
use crate::items::item_kind::ItemKind;
use crate::items::use_tree::{UseTree, UseTreeKind};
use crate::lexer::lexeme::Lexeme;
use crate::lexer::trees::partner_at;
use dm_base::ids::{FileAstId, UseTreeIdx};

/// An item of a module, by its kind and its number in its file.
#[derive(Clone, Copy, PartialEq, Eq, Debug)]
pub enum ModItemId {
    Const(FileAstId),
    Enum(FileAstId),
    ExternBlock(FileAstId),
    ExternCrate(FileAstId),
    Function(FileAstId),
    Impl(FileAstId),
    Macro2(FileAstId),
    MacroCall(FileAstId),
    MacroRules(FileAstId),
    Mod(FileAstId),
    Static(FileAstId),
    Struct(FileAstId),
    Trait(FileAstId),
    TypeAlias(FileAstId),
    Union(FileAstId),
    Use(FileAstId),
}

impl ModItemId {
    /// The number of the item in its file.
    pub fn ast_id(self) -> FileAstId
        ensures { result ≡ spec.ast_id self }
    {
        match self {
            ModItemId::Const(id) | ModItemId::Enum(id) | ModItemId::ExternBlock(id) => id,
            ModItemId::ExternCrate(id) | ModItemId::Function(id) | ModItemId::Impl(id) => id,
            ModItemId::Macro2(id) | ModItemId::MacroCall(id) | ModItemId::MacroRules(id) => id,
            ModItemId::Mod(id) | ModItemId::Static(id) | ModItemId::Struct(id) => id,
            ModItemId::Trait(id) | ModItemId::TypeAlias(id) | ModItemId::Union(id) => id,
            ModItemId::Use(id) => id,
        }
    }
}

/// The bytes of a text from one up to another.
#[derive(Clone, Copy, PartialEq, Eq, Debug)]
pub struct TextRange {
    pub start: usize,
    pub end: usize,
}

/// The id of the item of a number among those of its file: the same for the same text. None past 32 bits.
pub fn file_ast_id(number: usize) -> Option<FileAstId>
    ensures { result ≡ spec.file_ast_id number }
{
    match u32::try_from(number) {
        Ok(id) => Some(FileAstId(id)),
        Err(_) => None,
    }
}

/// The id of the use tree of a number among those of its `use` item. None past 32 bits.
pub fn use_tree_idx(number: usize) -> Option<UseTreeIdx>
    ensures { result ≡ spec.use_tree_idx number }
{
    match u32::try_from(number) {
        Ok(id) => Some(UseTreeIdx(id)),
        Err(_) => None,
    }
}

/// What an item of a kind is known by. None for errors, inner attributes, and what only chooses among items.
pub fn mod_item_id(kind: ItemKind, id: FileAstId) -> Option<ModItemId>
    ensures { result ≡ spec.mod_item_id kind id }
{
    match kind {
        ItemKind::Const => Some(ModItemId::Const(id)),
        ItemKind::Enum => Some(ModItemId::Enum(id)),
        ItemKind::ExternBlock => Some(ModItemId::ExternBlock(id)),
        ItemKind::ExternCrate => Some(ModItemId::ExternCrate(id)),
        ItemKind::Function => Some(ModItemId::Function(id)),
        ItemKind::Impl => Some(ModItemId::Impl(id)),
        ItemKind::Macro2 => Some(ModItemId::Macro2(id)),
        ItemKind::MacroCall => Some(ModItemId::MacroCall(id)),
        ItemKind::MacroRules => Some(ModItemId::MacroRules(id)),
        ItemKind::Mod => Some(ModItemId::Mod(id)),
        ItemKind::Static => Some(ModItemId::Static(id)),
        ItemKind::Struct => Some(ModItemId::Struct(id)),
        ItemKind::Trait => Some(ModItemId::Trait(id)),
        ItemKind::TypeAlias => Some(ModItemId::TypeAlias(id)),
        ItemKind::Union => Some(ModItemId::Union(id)),
        ItemKind::Use => Some(ModItemId::Use(id)),
        ItemKind::CfgIf | ItemKind::CfgSelect | ItemKind::CfgArm => None,
        ItemKind::InnerAttribute | ItemKind::Error => None,
    }
}

/// From where one lexeme begins to where another one ends; nothing, where one of them is missing.
fn range_of(lexemes: &[Lexeme], first: usize, last: usize) -> TextRange
    ensures { result ≡ spec.range_of lexemes.now first last }
{
    match (lexemes.get(first), lexemes.get(last)) {
        (Some(first), Some(last)) => TextRange {
            start: first.start,
            end: last.start.saturating_add(last.len),
        },
        _ => TextRange { start: 0, end: 0 },
    }
}

/// The bytes of an item, with its attributes.
pub fn item_range(lexemes: &[Lexeme], item: Item) -> TextRange
    ensures { result ≡ spec.item_range lexemes.now item }
{
    if item.first < item.behind {
        range_of(lexemes, item.first, item.behind - 1)
    } else {
        TextRange { start: 0, end: 0 }
    }
}

/// The bytes of a use tree; a list has its closing brace.
pub fn use_tree_range(lexemes: &[Lexeme], partners: &[usize], tree: UseTree) -> TextRange
    ensures { result ≡ spec.use_tree_range lexemes.now partners.now tree }
{
    let own = tree.behind.saturating_sub(1);
    let last = match tree.kind {
        UseTreeKind::Prefixed => partner_at(partners, own),
        _ => own,
    };
    range_of(lexemes, tree.path.first, last)
}
