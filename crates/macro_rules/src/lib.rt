//! What a `macro_rules!` macro makes of a call: its rules, which of them matches, and what is written then.
#![tactic(auto)]

pub mod beginnings;
pub mod expand;
mod expressions;
pub mod extents;
pub mod fragment_names;
pub mod fragment_rows;
pub mod fragments;
mod goal;
pub mod laws;
pub mod matching;
mod patterns;
pub mod reading;
pub mod row;
pub mod rows;
pub mod rules;
mod statements;
pub mod token;
pub mod tokens;
mod types;
pub mod visits;
pub mod walk;
pub mod writing;
