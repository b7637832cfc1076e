//! Whether each meaning of def maps follows, step by step, from declarations and names around modules.
ghost use Rattle.std.specs.Prelude.{◌≡◌, ◌↔◌, ◌≤◌, All, IfOk, IsFalse, IsTrue, OnOk, false, is_some, length, true};
ghost use Rattle.dm_imports.specs.Following.{IsSound};
ghost use Rattle.dm_imports.specs.Grounded as spec;
ghost use Rattle.dm_imports.specs.Grounded.{IsGrounded};
ghost use Rattle.dm_imports.specs.Grounding as by;
ghost use Rattle.dm_imports.specs.Grounding.{AreCovered, AreReady, AreSafeOffers, IsMore, IsOpen, IsSafe, IsWay, offers_in, slots_of};
ghost use Rattle.dm_imports.specs.Marking.{AreUngrounded, HasUngrounded};
ghost use Rattle.dm_imports.specs.Rules.{AreImportsKnown};
ghost use Rattle.dm_imports.specs.Supporting.{IsListing};
ghost use Rattle.dm_imports.specs.Tables.{of_tables};

mod following;
mod knowing;
mod known_offers;
mod readers;
mod steps;
pub(crate) mod ways;

use crate::def_maps::DefMaps;
use crate::joined::Joined;
use crate::paths::shown::at;
use crate::rules::all_offers::all_offers;
use crate::rules::grounded::following::{Followed, follow};
use crate::rules::grounded::known_offers::known_offers;
use crate::rules::grounded::steps::derives;
use crate::rules::grounded::ways::{Way, all_ways};
use crate::rules::listing::{Listing, list};
use crate::slots::Slots;
use crate::step::Step;
use std::alloc::{AllocError, Global};

/// Whether the slot of a way is known.
pub(crate) fn is_known(known: &Slots<bool>, way: &Way<'_>) -> bool
    ensures { result ≡ by.has_slot (slots_of known.now) way.now }
{
    known.get(way.home, way.name, way.namespace).is_some()
}

/// Makes the slot of a way known that is not, if one step derives it so. Answers whether the way stays open.
pub(crate) fn settle_unknown(
    known: &mut Slots<bool>,
    maps: &DefMaps<'_>,
    brought: &Slots<Joined>,
    offered: &Slots<Joined>,
    way: &Way<'_>,
) -> Result<bool, AllocError>
    requires ready { AreReady (of_tables maps.now) brought.now }
    requires way { IsWay (of_tables maps.now) way.now }
    requires unknown { by.has_slot (slots_of known.old) way.now ≡ false }
    ensures same { IfOk result (λ stays. IsTrue stays → known.new ≡ known.old) }
    ensures stuck { IfOk result (λ stays. IsTrue stays
        → IsOpen (of_tables maps.now) (slots_of known.old) (offers_in offered.now) way.now) }
    ensures done { IfOk result (λ stays. IsFalse stays → is_some (by.means (of_tables maps.now) way.now) ≡ true
        → by.has_slot (slots_of known.new) way.now ≡ true) }
    ensures more { OnOk result (IsMore (slots_of known.old) (slots_of known.new)) }
    ensures safe { OnOk result (AreSafeOffers (of_tables maps.now) (offers_in offered.now)
        → IsSafe (of_tables maps.now) (slots_of known.old) → IsSafe (of_tables maps.now) (slots_of known.new)) }
{
    let Some(meaning) = at(maps, way.home, way.name, way.namespace) else {
        return Ok(false);
    };
    if !derives(maps, known, brought, offered, way, meaning) {
        return Ok(true);
    }
    known.put(way.home, way.name, way.namespace, true)?;
    Ok(false)
}

/// The same of any way: of one whose slot is known, nothing is left to do.
fn settle(
    known: &mut Slots<bool>,
    maps: &DefMaps<'_>,
    brought: &Slots<Joined>,
    offered: &Slots<Joined>,
    way: &Way<'_>,
) -> Result<bool, AllocError>
    requires ready { AreReady (of_tables maps.now) brought.now }
    requires way { IsWay (of_tables maps.now) way.now }
    ensures same { IfOk result (λ stays. IsTrue stays → known.new ≡ known.old) }
    ensures stuck { IfOk result (λ stays. IsTrue stays
        → IsOpen (of_tables maps.now) (slots_of known.old) (offers_in offered.now) way.now) }
    ensures done { IfOk result (λ stays. IsFalse stays → is_some (by.means (of_tables maps.now) way.now) ≡ true
        → by.has_slot (slots_of known.new) way.now ≡ true) }
    ensures more { OnOk result (IsMore (slots_of known.old) (slots_of known.new)) }
    ensures safe { OnOk result (AreSafeOffers (of_tables maps.now) (offers_in offered.now)
        → IsSafe (of_tables maps.now) (slots_of known.old) → IsSafe (of_tables maps.now) (slots_of known.new)) }
{
    if is_known(known, way) {
        return Ok(false);
    }
    settle_unknown(known, maps, brought, offered, way)
}

/// Does so with some ways, from the last to the first. Answers those that stay open, in the other order.
fn settle_all<'a>(
    known: &mut Slots<bool>,
    alloc: Global,
    maps: &DefMaps<'_>,
    brought: &Slots<Joined>,
    offered: &Slots<Joined>,
    ways: Vec<Way<'a>>,
) -> Result<Vec<Way<'a>>, AllocError>
    requires ready { AreReady (of_tables maps.now) brought.now }
    requires ways { All (IsWay (of_tables maps.now)) ways.items }
    requires offers { AreSafeOffers (of_tables maps.now) (offers_in offered.now) }
    requires safe { IsSafe (of_tables maps.now) (slots_of known.old) }
    ensures ways { IfOk result (λ left. All (IsWay (of_tables maps.now)) left.items) }
    ensures safe { OnOk result (IsSafe (of_tables maps.now) (slots_of known.new)) }
    ensures covered { IfOk result (λ left. AreCovered (of_tables maps.now) (slots_of known.old) ways.entry.items
        → AreCovered (of_tables maps.now) (slots_of known.new) left.items) }
    ensures fewer { IfOk result (λ left. length left.items ≤ length ways.entry.items) }
    ensures same { IfOk result (λ left. length left.items ≡ length ways.entry.items → known.new ≡ known.old) }
    ensures stuck { IfOk result (λ left. length left.items ≡ length ways.entry.items
        → All (IsOpen (of_tables maps.now) (slots_of known.old) (offers_in offered.now)) left.items) }
{
    let mut waiting = ways;
    let mut left = Vec::new(alloc);
    while let Some(way) = waiting.pop() {
        if settle(known, maps, brought, offered, &way)? {
            left.push(way)?;
        }
    }
    Ok(left)
}

/// Does so with the ways that are open, where globs offer what they do by the slots that are known before.
fn pass<'a>(
    known: &mut Slots<bool>,
    alloc: Global,
    maps: &DefMaps<'_>,
    brought: &Slots<Joined>,
    listing: &Listing<'_>,
    ways: Vec<Way<'a>>,
) -> Result<Vec<Way<'a>>, AllocError>
    requires ready { AreReady (of_tables maps.now) brought.now }
    requires listing { IsListing maps.now.world listing.now }
    requires ways { All (IsWay (of_tables maps.now)) ways.items }
    requires safe { IsSafe (of_tables maps.now) (slots_of known.old) }
    ensures ways { IfOk result (λ left. All (IsWay (of_tables maps.now)) left.items) }
    ensures safe { OnOk result (IsSafe (of_tables maps.now) (slots_of known.new)) }
    ensures covered { IfOk result (λ left. AreCovered (of_tables maps.now) (slots_of known.old) ways.entry.items
        → AreCovered (of_tables maps.now) (slots_of known.new) left.items) }
    ensures fewer { IfOk result (λ left. length left.items ≤ length ways.entry.items) }
    ensures stuck { IfOk result (λ left. length left.items ≡ length ways.entry.items
        → All (IsOpen (of_tables maps.now) (slots_of known.new)
        (spec.known_offers (of_tables maps.now) (slots_of known.new))) left.items) }
{
    let offered = known_offers(alloc, maps, listing, known)?;
    let left = settle_all(known, alloc, maps, brought, &offered, ways)?;
    Ok(left)
}

/// Passes over ways, until none is open or one leaves all open that were. Answers with those that stay open. Each pass
/// goes over them in the other order than the one before, so that chains of imports take few passes.
fn settle_rest<'a>(
    known: &mut Slots<bool>,
    alloc: Global,
    maps: &DefMaps<'_>,
    brought: &Slots<Joined>,
    listing: &Listing<'_>,
    ways: Vec<Way<'a>>,
) -> Result<Vec<Way<'a>>, AllocError>
    requires ready { AreReady (of_tables maps.now) brought.now }
    requires listing { IsListing maps.now.world listing.now }
    requires ways { All (IsWay (of_tables maps.now)) ways.items }
    requires covered { AreCovered (of_tables maps.now) (slots_of known.old) ways.items }
    requires safe { IsSafe (of_tables maps.now) (slots_of known.old) }
    ensures each { IfOk result (λ left. AreUngrounded (of_tables maps.now) left.items) }
    ensures all { IfOk result (λ left. HasUngrounded (of_tables maps.now) left.items) }
{
    let mut waiting = ways;
    'passes: while !waiting.is_empty() {
        let before = waiting.len();
        let left = pass(known, alloc, maps, brought, listing, waiting)?;
        if left.len() == before {
            return Ok(left);
        }
        waiting = left;
    }
    Ok(waiting)
}

/// Settles the ways that steps lead to, and then all that are left. Answers with those that stay open.
fn settle_by_steps<'a>(
    followed: &mut Followed<'a>,
    alloc: Global,
    maps: &DefMaps<'a>,
    brought: &Slots<Joined>,
    listing: &Listing<'a>,
    ways: Vec<Way<'a>>,
    steps: &[Step],
) -> Result<Vec<Way<'a>>, AllocError>
    requires ready { AreReady (of_tables maps.now) brought.now }
    requires listing { IsListing maps.now.world listing.now }
    requires ways { All (IsWay (of_tables maps.now)) ways.items }
    requires covered { AreCovered (of_tables maps.now) (slots_of followed.old.known) ways.items }
    requires sound { IsSound (of_tables maps.now) followed.old }
    ensures ways { IfOk result (λ left. All (IsWay (of_tables maps.now)) left.items) }
    ensures covered { IfOk result (λ left. AreCovered (of_tables maps.now) (slots_of followed.new.known) left.items) }
    ensures safe { OnOk result (IsSafe (of_tables maps.now) (slots_of followed.new.known)) }
{
    follow(followed, alloc, maps, brought, listing, steps)?;
    let left = settle_all(
        &mut followed.known,
        alloc,
        maps,
        brought,
        &followed.offered,
        ways,
    )?;
    Ok(left)
}

/// The ways in which no slot can be derived: all of the slots that are ungrounded.
pub(crate) fn open_ways<'a>(
    alloc: Global,
    maps: &DefMaps<'a>,
    brought: &Slots<Joined>,
    listing: &Listing<'a>,
    steps: &[Step],
) -> Result<Vec<Way<'a>>, AllocError>
    requires ready { AreReady (of_tables maps.now) brought.now }
    requires listing { IsListing maps.now.world listing.now }
    ensures each { IfOk result (λ left. AreUngrounded (of_tables maps.now) left.items) }
    ensures all { IfOk result (λ left. HasUngrounded (of_tables maps.now) left.items) }
{
    let mut known = Slots::new(alloc);
    let ways = all_ways(&mut known, alloc, maps, listing)?;
    let mut followed = Followed {
        known,
        offered: Slots::new(alloc),
        fresh: Vec::new(alloc),
    };
    let rest = settle_by_steps(&mut followed, alloc, maps, brought, listing, ways, steps)?;
    let left = settle_rest(&mut followed.known, alloc, maps, brought, listing, rest)?;
    Ok(left)
}

/// Whether no way stays open.
pub(crate) fn none_open(maps: &DefMaps<'_>, left: &[Way<'_>]) -> bool
    requires each { AreUngrounded (of_tables maps.now) left.now }
    requires all { HasUngrounded (of_tables maps.now) left.now }
    ensures { IsTrue result ↔ IsGrounded (of_tables maps.now) }
{
    left.is_empty()
}

/// Whether def maps are grounded: whether each meaning follows, step by step, from declarations and names around modules.
/// `steps` are imports and globs in an order in which their names may have come: the answer does not depend on it, and
/// where it is a right one, it is found in one pass over what imports and globs bring.
///
/// Imports and globs have to stand in modules of the world's, and so have those to be that their visibilities name:
/// `DefMaps::are_imports_known` tests it.
///
/// # Errors
///
/// Fails only where memory runs out.
pub fn is_grounded(alloc: Global, maps: &DefMaps<'_>, steps: &[Step]) -> Result<bool, AllocError>
    requires { AreImportsKnown (of_tables maps.now) }
    ensures { IfOk result (λ yes. IsTrue yes ↔ IsGrounded (of_tables maps.now)) }
{
    let listing = list(alloc, maps.world)?;
    let brought = all_offers(alloc, maps, &listing)?;
    let left = open_ways(alloc, maps, &brought, &listing, steps)?;
    Ok(none_open(maps, left.as_slice()))
}
