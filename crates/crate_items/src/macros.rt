//! Macros that the modules of a crate declare and call, and their textual scopes.
pub mod builtin_macro;
pub mod declared_macro;
pub(crate) mod left_behind;
pub mod macro_call;
pub mod procedural_macro;
pub mod textual_order;
pub mod textual_rows;
pub mod textual_scopes;
