//! From a graph of crates and a table of files to the modules that each crate declares, and to the items that these
//! have, with what a def map has to know of them. No def map is needed for that.
#![tactic(auto)]

pub mod files;
pub mod items;
pub mod macros;
pub mod modules;
