//! A helper that breaks its contract on purpose: under fault injection, its test has to fail.
//!
//! It passes with enough memory. `tools/refusals` fails where no failing allocation shows the defect, since then it
//! would not show that of a builder's call either.
use super::{Building, Call, ROOT};
use crate::tests::gives;
use dm_maps::build_fault::BuildFault;
use dm_maps::world::World;
use std::alloc::Global;
use std::test::Fail;

impl Building {
    /// Adds a tool twice: where the second call fails, the first tool stays.
    fn add_two_tools(&mut self, alloc: Global) -> Result<(), BuildFault> {
        self.make(alloc, Call::Tool)?;
        self.make(alloc, Call::Tool)
    }
}

fn tool_count(world: &World) -> Option<usize> {
    Some(world.map_of(ROOT)?.registered_tools().len())
}

/// How many tools there are, once the helper was called, and called again where it failed.
fn tools(alloc: Global) -> Result<Option<usize>, BuildFault> {
    let mut building = again!(Building::new(alloc))?;
    again!(building.add_two_tools(alloc))?;
    match building.bound() {
        None => Ok(None),
        Some(bound) => Ok(tool_count(&bound.world)),
    }
}

/// Each crate has five tools.
#[test]
fn a_helper_that_writes_before_it_grows(rt: HostRuntime) -> Result<(), Fail> {
    gives(&rt, tools(rt.alloc()), Some(7))
}
