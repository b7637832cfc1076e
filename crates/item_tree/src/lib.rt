//! A Rust text, read: its tokens, with nothing left out, and the items that it declares.
#![tactic(auto)]

pub mod attributes;
pub mod cfg;
pub mod ids;
pub mod items;
pub mod laws;
pub mod lexer;
pub mod rows;
