//! What the program `defmap` reads: the words of its command line, what cargo tells of packages, and the files of crates.
#![tactic(auto)]

pub mod arguments;
mod build_messages;
mod cargo_target;
mod cfg_file;
pub mod colours;
pub mod command_line;
pub mod complaints;
pub mod crates_read;
mod extern_crates;
pub mod failure;
mod fixture;
mod folders;
mod graph;
mod inputs;
pub mod item_options;
pub mod item_tables;
mod loader;
mod metadata;
mod named_modules;
pub mod orphans;
mod outlines;
mod plan;
mod progress;
mod reached;
pub mod reading;
mod shown_name;
mod sysroot;
pub mod words;
