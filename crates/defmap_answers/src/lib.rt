//! What the program `defmap` answers: the modules of crates and what they bind, what paths and imports mean, what leads
//! nowhere; and what is read of one file.
//!
//! It asks collected crates by a trait (`Crates`), and so needs nothing of how they are collected.
#![tactic(auto)]

pub mod ambiguous;
pub mod associated;
mod by_rules;
pub mod crates;
mod cycles;
mod definitions;
pub mod dot;
pub mod expand;
mod hidden;
mod hiding;
pub mod imports;
pub mod incomplete;
pub mod items;
mod macro_calls;
mod macro_exports;
mod macro_homes;
mod meanings;
pub mod module_paths;
pub mod notes;
mod offsets;
pub mod orphans;
pub mod paint;
mod partly;
mod path_text;
pub mod places;
mod prelude_use;
mod private;
pub mod resolve;
mod resolve_rows;
pub mod rows;
pub mod self_types;
mod shown;
mod steps;
pub mod stopwatch;
pub mod survey;
pub mod syntax;
pub mod tree;
mod tree_rows;
pub mod unresolved;
pub mod written_path;
