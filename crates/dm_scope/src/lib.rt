//! `ItemScope`: what a module binds under each name, how pushes (`push_res_with_import`) fill it, and the chains of
//! imports (`fully_resolve_import`).
#![tactic(auto)]

pub mod bindings;
pub mod derives;
pub mod diagnostics;
pub mod glob_imports;
mod import_chains;
pub mod import_records;
pub mod item_scope;
pub mod iterators;
pub mod macro_calls;
pub mod name_order;
mod picked;
mod picks;
mod rare;
pub mod scope_tables;
mod table_lists;
