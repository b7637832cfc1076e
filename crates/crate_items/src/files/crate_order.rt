//! The order of crates, and circles that leave none.
ghost use Rattle.std.specs.Prelude.{◌≡◌, ◌+◌, ◌-◌, ◌<◌, ◌≤◌, length, slice_index, IfErr, IfOk, OnOk};
ghost use Rattle.crate_items.specs.CrateGraphs.{AreInside, DependsOn, IsGraph, IsOrder, numbers, row, rows};
ghost use Rattle.crate_items.specs.OrderFaults.{IsFaultOf};
ghost use Rattle.crate_items.specs.OrderSearch.{Ends, GoesOn, IsLast, IsSearch, Meets};

use crate::files::crate_data::CrateData;
use crate::files::order_search::Search;
use dm_base::ids::Crate;
use std::alloc::{AllocError, Global};

/// Why a graph's crates were not put into an order.
#[derive(Drop, Debug)]
pub enum OrderFault {
    /// Each of these crates depends on the next one, and the last on the first.
    Cycle(Vec<Crate>),
    OutOfMemory,
}

impl From<AllocError> for OrderFault {
    ghost use Rattle.crate_items.specs.declared.files.crate_order.OrderFault.TheVariants.{OutOfMemory};

    ghost from_gives = { λ _ fault. fault ≡ OutOfMemory };

    fn from(_refused: AllocError) -> OrderFault {
        OrderFault::OutOfMemory
    }
}

/// The first dependency of a crate that is not looked at.
fn dependency(crates: &[CrateData], id: Crate, left: usize) -> Crate
    requires known { id.0 < length crates.now }
    requires some { 1 < left }
    requires within { left ≤ length (row (rows crates.now) id.0) + 1 }
    ensures { result.0 ≡ slice_index (row (rows crates.now) id.0) (length (row (rows crates.now) id.0) + 1 - left) }
{
    let dependencies = crates[id.0 as usize].dependencies();
    dependencies[dependencies.len() - (left - 1)].crate_id
}

/// Puts what the last crate of the path depends on next on the path, where it is not in the order.
fn meet(
    search: &mut Search,
    crates: &[CrateData],
    alloc: Global,
    last: Crate,
    next: Crate,
) -> Result<(), OrderFault>
    requires kept { IsSearch (rows crates.now) search.old }
    requires last { IsLast search.old last.0 }
    requires known { next.0 < length (rows crates.now) }
    requires depends { DependsOn (rows crates.now) last.0 next.0 }
    ensures ok { OnOk result (Meets (rows crates.now) search.old search.new last.0 next.0) }
    ensures circle { IfErr result (IsFaultOf (rows crates.now)) }
{
    if search.left(next) == 0 {
        return Ok(());
    }
    match search.place(next) {
        Some(place) => {
            let circle = search.path_from(alloc, place)?;
            Err(OrderFault::Cycle(circle))
        }
        None => {
            let entered = search.enter(next)?;
            Ok(entered)
        }
    }
}

/// Looks at one more dependency of the last crate of the path, or puts the crate into the order.
fn step(
    search: &mut Search,
    crates: &[CrateData],
    alloc: Global,
    last: Crate,
) -> Result<(), OrderFault>
    requires kept { IsSearch (rows crates.now) search.old }
    requires inside { AreInside (rows crates.now) }
    requires last { IsLast search.old last.0 }
    ensures ok { OnOk result (GoesOn (rows crates.now) search.old search.new) }
    ensures circle { IfErr result (IsFaultOf (rows crates.now)) }
{
    let left = search.left(last);
    if left == 1 {
        let finished = search.finish(last)?;
        return Ok(finished);
    }
    let next = dependency(crates, last, left);
    meet(search, crates, alloc, last, next)?;
    search.look(last);
    Ok(())
}

/// Puts a crate and all that it depends on into the order.
fn visit(
    search: &mut Search,
    crates: &[CrateData],
    alloc: Global,
    root: Crate,
) -> Result<(), OrderFault>
    requires kept { IsSearch (rows crates.now) search.old }
    requires inside { AreInside (rows crates.now) }
    requires idle { length search.old.path ≡ 0 }
    requires known { root.0 < length (rows crates.now) }
    ensures ok { OnOk result (Ends (rows crates.now) search.old search.new root.0) }
    ensures circle { IfErr result (IsFaultOf (rows crates.now)) }
{
    if search.left(root) == 0 {
        return Ok(());
    }
    search.enter(root)?;
    'path: while let Some(last) = search.last() {
        step(search, crates, alloc, last)?;
    }
    Ok(())
}

/// Some crates in an order in which each stands behind those that it depends on. The time is linear.
///
/// # Errors
///
/// Fails with a circle where there is one, and where memory runs out.
pub(crate) fn order_of(alloc: Global, crates: &[CrateData]) -> Result<Vec<Crate>, OrderFault>
    requires { IsGraph crates.now }
    ensures ok { IfOk result (λ order. IsOrder (rows crates.now) (numbers order.items)) }
    ensures circle { IfErr result (IsFaultOf (rows crates.now)) }
{
    let mut search = Search::new(alloc, crates)?;
    for number in 0..crates.len() {
        visit(&mut search, crates, alloc, Crate(number as u32))?;
    }
    Ok(search.into_order())
}
