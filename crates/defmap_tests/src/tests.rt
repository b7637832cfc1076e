//! Tests of what no contract says: each call that allocates, once, and each generic one at one type.
//!
//! Those in modules `refused` are fault injection. With enough memory no allocation fails. `tools/refusals` runs them
//! with every allocation failing in turn: whichever it is, what failed is called again, and the end is the same. So
//! such a test is also the test of its calls with ample memory. That a failed call leaves all unchanged is proved.
//!
//! What a test compares is plain data, and only functions without clauses hold a scope, a builder or a world: each
//! comparison made while one is held would take the prover seconds.
/// The result of a call, which is made again where it fails.
macro_rules! again {
    ($call:expr) => {
        match $call {
            Err(_refused) => $call,
            done => done,
        }
    };
}

mod base;
mod imports;
mod listings;
mod macros;
mod rounds;
mod scopes;
mod worlds;

use dm_base::mod_path::{ModPath, PathKind};
use dm_base::name::Name;
use std::alloc::{AllocError, Global};
use std::fmt::Debug;
use std::process::Abort;
use std::test::Fail;

/// Fails a test where two values differ. The prover takes seconds for this, and would for each `assert_eq!` in a test.
fn same<T: PartialEq + Debug>(rt: &impl Abort, found: &T, wanted: &T) {
    assert_eq!(rt; found, wanted);
}

/// Fails a test where a call fails, and where it answers something else.
fn gives<T: Copy + PartialEq + Debug, E: Debug + Drop>(
    rt: &impl Abort,
    answer: Result<T, E>,
    wanted: T,
) -> Result<(), Fail> {
    same(rt, &answer?, &wanted);
    Ok(())
}

/// A name, made again where that fails.
fn a_name(alloc: Global, text: &str) -> Result<Name, AllocError> {
    again!(Name::new(alloc, text))
}

/// A path of these names.
fn path(alloc: Global, kind: PathKind, names: &[&str]) -> Result<ModPath, AllocError> {
    let mut segments = Vec::new(alloc);
    for name in names {
        segments.push(Name::new(alloc, name)?)?;
    }
    Ok(ModPath::from_segments(kind, segments))
}
