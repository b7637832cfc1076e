//! The plans of the crates that the command line names.
use crate::arguments::{Arguments, ExternWord};
use crate::plan::CratePlan;
use dm_base::source::Edition;
use std::alloc::{AllocError, Global};

/// Lets a plan know the crates of the words before a place. They stand behind the crate that is asked about.
fn know(
    plan: &mut CratePlan,
    alloc: Global,
    externs: &[ExternWord<'_>],
    behind: usize,
) -> Result<(), AllocError> {
    for (place, word) in externs.iter().enumerate() {
        if place < behind {
            plan.depend(alloc, word.name, place.saturating_add(1), true)?;
        }
    }
    Ok(())
}

/// The plan of a crate that knows the crates of the words before a place.
fn knowing(
    alloc: Global,
    name: &str,
    root: &str,
    edition: Edition,
    externs: &[ExternWord<'_>],
    behind: usize,
) -> Result<CratePlan, AllocError> {
    let mut plan = CratePlan::new(alloc, name, root, edition)?;
    know(&mut plan, alloc, externs, behind)?;
    Ok(plan)
}

/// The crate of the command line, and behind it the crates that it knows, each of which knows those given before it.
pub(crate) fn planned(alloc: Global, given: &Arguments<'_>) -> Result<Vec<CratePlan>, AllocError> {
    let edition = given.edition.unwrap_or(Edition::Edition2021);
    let externs = given.externs.as_slice();
    let mut plans = Vec::new(alloc);
    let count = externs.len();
    plans.push(knowing(alloc, "crate", given.root, edition, externs, count)?)?;
    for (place, word) in externs.iter().enumerate() {
        let its_edition = word.edition.unwrap_or(edition);
        plans.push(knowing(alloc, word.name, word.root, its_edition, externs, place)?)?;
    }
    Ok(plans)
}
