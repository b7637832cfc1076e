//! Name resolution: what paths resolve to over a checked world of def maps.
//!
//! All public items are here under the modules of the Rust crate: `builtin_type`, `per_ns`, `visibility`, `item_scope`,
//! `nameres` and `nameres::diagnostics`. The types in their signatures have modules of their own: ids in `ids`, kinds
//! of definitions in `item_ids`, `name`, `symbol`, `mod_path`, `source` and `fields_shape`.
#![tactic(auto)]

pub mod item_scope;
pub mod laws;
pub mod nameres;
pub mod path_resolution;
pub mod per_ns;
pub mod visibility;

pub use dm_base::{builtin_type, fields_shape, ids, item_ids, mod_path, name, source, symbol};
pub use path_resolution::result;
