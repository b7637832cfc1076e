//! A helper that breaks its contract on purpose: under fault injection, its test has to fail.
//!
//! It passes with enough memory. `tools/refusals` fails where no failing allocation shows the defect, since then it
//! would not show that of a real call either.
use super::{Filled, in_all, structure};
use crate::tests::gives;
use std::alloc::{AllocError, Global};
use std::test::Fail;

impl Filled {
    /// Declares a struct, and then pushes it: where the push fails, the declaration stays.
    fn write_before_growing(&mut self, alloc: Global) -> Result<(), AllocError> {
        self.scope.declare(structure(0))?;
        self.push(alloc, "A", in_all(Some(0)), None)?;
        Ok(())
    }
}

/// Whether there is a second declaration, once the helper was called, and called again where it failed.
fn has_second(alloc: Global) -> Result<bool, AllocError> {
    let mut filled = Filled::new(alloc);
    again!(filled.write_before_growing(alloc))?;
    let mut declared = filled.scope.declarations();
    Ok(declared.next().is_some() && declared.next().is_some())
}

#[test]
fn a_helper_that_writes_before_it_grows(rt: HostRuntime) -> Result<(), Fail> {
    gives(&rt, has_second(rt.alloc()), false)
}
