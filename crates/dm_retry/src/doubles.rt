//! Whether an import is listed twice.
ghost use Rattle.std.specs.Prelude.{◌≡◌, None, true, leb, IfSome, is_some};
ghost use Rattle.dm_retry.specs.Known.{fault_of, first_double};
ghost use Rattle.dm_retry.specs.Doubles.{IsNext, floor};

use crate::pending::{Pending, first_double, first_unknown};
use crate::ranks::{order, rank_at};
use crate::retry_fault::RetryFault;
use dm_maps::world::World;

/// Why imports are not taken. Allocates nothing, and moves no import.
pub(crate) fn find_fault(world: &World, pendings: &mut Vec<Pending>) -> Option<RetryFault>
    ensures fault { result ≡ fault_of world.now pendings.old.items }
    ensures same { pendings.new.items ≡ pendings.old.items }
{
    if has_double(pendings.as_mut_slice()) {
        Some(RetryFault::DoubleImport)
    } else {
        first_unknown(world, pendings).map(|_place| RetryFault::UnknownPart)
    }
}

/// Whether an import is listed twice. Allocates nothing, and moves no import.
///
/// It walks over the imports in the order of their numbers: n log n steps, with those that find the order. The walk
/// tests that order, since ranks are not trusted; were it wrong, each two imports would be compared.
fn has_double(pendings: &mut [Pending]) -> bool
    ensures answer { result ≡ is_some (first_double pendings.old) }
    ensures same { pendings.new ≡ pendings.old }
{
    order(pendings);
    is_double(pendings)
}

/// Whether an import is listed twice, by the ranks or else by a comparison of each two.
fn is_double(pendings: &[Pending]) -> bool
    ensures { result ≡ is_some (first_double pendings.now) }
{
    if rises(pendings) {
        false
    } else if has_pair(pendings) {
        true
    } else {
        first_double(pendings).is_some()
    }
}

/// Whether the imports rise strictly in the order of their ranks: as many as there are, which are then all of them.
fn rises(pendings: &[Pending]) -> bool
    ensures { result ≡ true → first_double pendings.now ≡ None }
{
    let mut last = None;
    for k in 0..pendings.len() {
        match next(pendings, last, rank_at(pendings, k)) {
            None => return false,
            Some(number) => last = Some(number),
        }
    }
    true
}

/// The number of the import at a place, if it is greater than the last.
fn next(pendings: &[Pending], last: Option<u64>, place: usize) -> Option<u64>
    ensures { IfSome result (λ number. IsNext pendings.now last number) }
{
    if place >= pendings.len() {
        return None;
    }
    let number = pendings[place].number();
    if is_above(last, number) {
        Some(number)
    } else {
        None
    }
}

/// Whether a number is greater than the last, if there is one.
fn is_above(last: Option<u64>, number: u64) -> bool
    ensures { result ≡ leb (floor last) number }
{
    match last {
        None => true,
        Some(least) => least < number,
    }
}

/// Whether two ranks, one after another, mean one import at two places.
fn has_pair(pendings: &[Pending]) -> bool
    ensures { result ≡ true → is_some (first_double pendings.now) ≡ true }
{
    for k in 1..pendings.len() {
        if is_pair(pendings, rank_at(pendings, k - 1), rank_at(pendings, k)) {
            return true;
        }
    }
    false
}

/// Whether one import stands at these two places.
fn is_pair(pendings: &[Pending], first: usize, second: usize) -> bool
    ensures { result ≡ true → is_some (first_double pendings.now) ≡ true }
{
    if first == second {
        return false;
    }
    if first >= pendings.len() {
        return false;
    }
    if second >= pendings.len() {
        return false;
    }
    pendings[first].import() == pendings[second].import()
}
