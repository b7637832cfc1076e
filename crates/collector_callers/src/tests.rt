//! Tests of what no contract says of crates that are collected: each call that allocates, once.
mod answers;
mod in_maps;

use std::fmt::Debug;
use std::process::Abort;

/// Fails a test where two values differ. The prover takes seconds for this, and would for each `assert_eq!` in a test.
fn same<T: PartialEq + Debug>(rt: &impl Abort, found: &T, wanted: &T) {
    assert_eq!(rt; found, wanted);
}
