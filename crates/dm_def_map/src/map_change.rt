//! `MapChange`: one change of a def map, outside its modules.
use crate::item_tables::derive_helpers::DeriveHelper;
use dm_base::ids::{ExternCrateId, ModuleId, UseId};
use dm_base::item_ids::MacroId;
use dm_base::name::Name;
use dm_base::source::AstId;
use dm_scope::diagnostics::DefDiagnostic;

/// One change of a def map, outside its modules.
#[derive(Drop)]
pub enum MapChange {
    /// The prelude module, with the `use` that named it.
    Prelude(Option<(ModuleId, Option<UseId>)>),
    /// A macro of the `#[macro_use]` prelude, with the `extern crate` that brought it.
    MacroUse(Name, (MacroId, Option<ExternCrateId>)),
    /// The macro that an AST item defines.
    MacroDef(AstId, MacroId),
    /// A helper attribute of a derive on an item; it goes last.
    Helper(AstId, DeriveHelper),
    /// A diagnostic; it goes last.
    Diagnostic(DefDiagnostic),
}
