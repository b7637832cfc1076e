//! What imports and globs bind in def maps: the rules, and whether def maps are what the rules give of them.
#![tactic(auto)]

mod asked;
pub mod asking;
pub mod bind;
pub mod container;
pub mod declarations;
pub mod def_maps;
pub mod glob_import;
pub mod importing;
pub mod joined;
mod known;
pub mod marks;
pub mod meaning;
mod name_table;
pub mod named_import;
pub mod paths;
pub mod rules;
mod search;
pub mod slots;
pub mod step;
