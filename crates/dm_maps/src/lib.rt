//! The def maps of crates and blocks, and checked worlds of them: all def maps together, without dangling ids.
#![tactic(auto)]

pub mod build_fault;
pub mod builder;
pub mod check;
pub mod ladders;
pub mod laws;
mod maps;
pub mod place;
pub mod rules;
pub mod world;

pub use check::fault;
pub use dm_def_map::crate_data::{crate_setting, unstable_features};
pub use dm_def_map::def_map;
pub use dm_def_map::item_tables::derive_helpers;
pub use dm_def_map::modules::{
    local_def_map, modes, module_data, module_origin, modules_iter, modules_map,
};
