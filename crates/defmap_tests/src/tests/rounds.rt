//! Rounds: each of many small worlds is run twice from its seed, by rounds of all and by rounds of what changed, and has
//! to show the same.
mod random;
mod run;
mod shown;
mod small_world;

use crate::tests::rounds::run::{Counts, run_world};
use crate::tests::same;
use std::alloc::Global;

/// How many worlds there are.
const WORLDS: u32 = 5_000;

/// What a test found.
#[derive(Clone, Copy)]
struct Found {
    /// The first world whose runs differ.
    differs: Option<u32>,

    /// Of the runs by rounds of what changed, up to that.
    counts: Counts,
}

/// Whether both runs of a seed show the same, and the counts of the second; none where memory runs out.
fn compared(alloc: Global, seed: u32) -> Option<(bool, Counts)> {
    let (by_all, _counts) = run_world(alloc, seed, true)?;
    let (by_changed, counts) = run_world(alloc, seed, false)?;
    Some((by_all.is_same(&by_changed), counts))
}

/// Runs all worlds.
fn tested(alloc: Global) -> Option<Found> {
    let mut counts = Counts::none();
    for seed in 0..WORLDS {
        let (is_same, own) = compared(alloc, seed)?;
        counts = counts.plus(own);
        if !is_same {
            let differs = Some(seed);
            return Some(Found { differs, counts });
        }
    }
    Some(Found {
        differs: None,
        counts,
    })
}

/// Both leave the same. Many pushes and rounds write something, some imports stay unresolved, and some never settle.
#[test]
fn rounds_of_all_and_of_what_changed_leave_the_same(rt: HostRuntime) {
    let found = tested(rt.alloc());
    assert!(rt; found.is_some());
    if let Some(Found { differs, counts }) = found {
        same(&rt, &differs, &None);
        assert!(rt; counts.reach_all(WORLDS as u64));
    }
}
