//! The def maps of whole crates: names are declared, and imports, globs and `macro_use` preludes are bound, as the rules of
//! imports say.
#![tactic(auto)]

mod bare_modules;
mod begin;
mod bind_crates;
pub mod collect;
pub mod collect_fault;
pub mod collected;
mod constructors;
pub mod enums;
pub mod leaves;
mod macro_preludes;
pub mod macro_uses;
pub mod prelude_globs;
mod settle;
mod support;
mod unnamed_traits;
pub mod unresolved_names;
