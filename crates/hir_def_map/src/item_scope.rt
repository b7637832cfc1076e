//! The item scope of a module: which names it binds, and by which imports.
pub use dm_base::definition::Definition;
pub use dm_base::import_source::ImportSource;
pub use dm_base::imports::{GlobId, ImportId, ImportOrDef, ImportOrExternCrate, ImportOrGlob};
pub use dm_base::item_in_ns::ItemInNs;
pub use dm_maps::modes::BuiltinShadowMode;
pub use dm_scope::bindings::{self, Bindings};
pub use dm_scope::derives::DeriveMacroInvocation;
pub use dm_scope::glob_imports::{GlobFlags, PerNsGlobImports};
pub use dm_scope::import_records::ImportRecords;
pub use dm_scope::item_scope::ItemScope;
pub use dm_scope::iterators;
pub use dm_scope::macro_calls::AllMacroCalls;
pub use dm_scope::scope_tables::ScopeTables;
