//! Example callers, shown in docs/USING.md, each proved from the contracts of what it calls alone, and two types that
//! implement the traits of `dm_base` and `dm_scope` besides a checked world.
#![tactic(auto)]

pub mod base;
pub mod building;
pub mod collecting;
pub mod finding;
pub mod listing;
pub mod maps;
pub mod modules;
pub mod paths;
pub mod program;
pub mod rounds;
pub mod scopes;
pub mod stays;
pub mod tree;
