//! The def map of a crate or of a block expression: its modules, the tables beside them, its queries, and how it is built.
#![tactic(auto)]

pub mod building;
pub mod crate_data;
mod crate_queries;
pub mod def_map;
pub mod growth;
pub mod item_tables;
pub mod map_change;
mod map_queries;
pub mod modules;
pub mod texts;
