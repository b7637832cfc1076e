//! Imports of the modules of a builder.
use crate_items::items::declared_import::DeclaredImport;
use dm_base::ids::{ModuleId, UseId};
use dm_base::item_ids::MacroId;
use dm_base::visibility::Visibility;

/// A leaf of the use trees of a `use` item.
#[derive(Drop)]
pub struct UseLeaf {
    /// The module that it imports into.
    pub home: ModuleId,
    /// Who sees what it imports, at most.
    pub visibility: Visibility,
    pub use_: UseId,
    /// The macro by `macro_rules!` that it means, where it is by one name and a macro of that name is in scope before it.
    pub textual: Option<MacroId>,
    pub import: DeclaredImport,
}
