//! Tests: each call that allocates, with concrete types, and what is generic, at one.
#![tactic(auto)]

#[cfg(test)]
mod tests;
