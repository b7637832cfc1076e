//! An example caller of the collector, shown in docs/USING.md, and tests of what stands above the layer.
#![tactic(auto)]

#[cfg(test)]
mod tests;
pub mod text_to_answer;
