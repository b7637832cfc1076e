//! The modules of a def map, and the extern prelude of a crate.

pub mod building;
pub mod choosing;
mod growth;
pub mod local_def_map;
mod local_hash;
pub mod modes;
pub mod module_data;
pub mod module_origin;
pub mod modules_iter;
pub mod modules_map;
mod origins;
