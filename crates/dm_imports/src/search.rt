//! What the imports and globs of a crate bring, as it is searched: nothing is claimed of it, and `is_supported` tells
//! whether it is right.

mod around;
mod asker;
mod cell;
mod crate_maps;
mod follow;
mod leaf;
mod leaves;
mod maps;
mod offers;
mod release;
pub(crate) mod results;
mod run;
mod shown;
mod state;
mod walk;

use crate::importing::Importing;
use crate::search::cell::SlotKey;
use crate::search::leaves::crate_maps;
use crate::search::maps::Maps;
use crate::search::results::Outcome;
use crate::search::state::{Search, unbegun};
use crate::slots::Slots;
use dm_base::ids::Crate;
use dm_base::visibility::Visibility;
use dm_maps::world::World;
use indexmap::IndexMap;
use std::alloc::{AllocError, Global};

/// How often a search begins anew, because slots turned out to be ambiguous that were not thought so.
const RUNS: u32 = 8;

/// A search in which ambiguous slots are seen as is thought.
fn search_once<M: Maps>(
    alloc: Global,
    maps: &mut M,
    caps: IndexMap<SlotKey, Visibility>,
) -> Result<Search, AllocError> {
    let mut search = unbegun(alloc, caps);
    search.run(maps)?;
    Ok(search)
}

/// A search in which ambiguous slots are seen as they turn out.
fn search_all<M: Maps>(alloc: Global, maps: &mut M) -> Result<Search, AllocError> {
    let mut search = search_once(alloc, maps, IndexMap::new(alloc))?;
    for _run in 1..RUNS {
        match search.new_caps(alloc)? {
            None => break,
            Some(caps) => search = search_once(alloc, maps, caps)?,
        }
    }
    Ok(search)
}

/// What the imports and globs of a crate bring, where those of all crates that it depends on are bound.
///
/// Fails only where memory runs out.
pub(crate) fn search(
    alloc: Global,
    world: &World,
    given: &Importing<'_>,
    krate: Crate,
    ambiguous: &Slots<bool>,
) -> Result<Outcome, AllocError> {
    let mut maps = crate_maps(alloc, world, given, krate, ambiguous)?;
    let mut search = search_all(alloc, &mut maps)?;
    search.outcome(alloc, &maps.names)
}
