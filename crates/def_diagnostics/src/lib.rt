//! What is told of crates: of their declarations (modules without a file, second declarations of a name, visibilities
//! and extern crates that lead nowhere, what `cfg` takes away), and of a collected world (macro calls and imports that
//! lead nowhere, and which modules a macro that is not expanded may give more names than are known).
#![tactic(auto)]

pub mod candidate_paths;
pub mod declarations;
mod declared_mods;
pub mod diagnostic;
pub mod duplicates;
pub mod extern_crates;
pub mod glob_edges;
pub mod hidden;
pub mod hidden_calls;
pub mod item_modules;
pub mod lines;
pub mod macro_calls;
pub mod macro_meaning;
pub mod map_diagnostics;
pub mod message;
pub mod missing_files;
pub mod module_faults;
pub mod offsets;
pub mod open_modules;
pub mod taken_laws;
mod taken_names;
pub mod texts;
pub mod told_in_maps;
pub mod told_laws;
pub mod told_places;
pub mod unconfigured;
pub mod unresolved_globs;
pub mod unresolved_imports;
pub mod visibilities;
