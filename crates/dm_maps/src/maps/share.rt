//! Gives new crate data to all def maps of the crate, which share it by `Rc`.
ghost use Rattle.std.specs.Prelude.{◌≡◌, ◌≤◌, ◌<◌, ◌+◌, length, All, IfOk, OnOk, OnErr};
ghost use Rattle.dm_maps.specs.BlockLists.{entry_with, AreNumbered, HoldsAll};
ghost use Rattle.dm_maps.specs.BuildCrateData.{with_shared, map_with_shared, maps_sharing};

use crate::maps::Maps;
use dm_base::ids::{BlockId, Crate};
use dm_def_map::building;
use dm_def_map::crate_data::CrateData;
use dm_def_map::def_map::DefMap;
use std::alloc::{AllocError, Global};
use std::rc::Rc;

/// An `Rc` of the data.
pub(crate) fn share(new: CrateData, alloc: Global) -> Result<Rc<CrateData>, AllocError>
    ensures { IfOk result (λ r. r.value ≡ new) }
{
    let shared = Rc::new(alloc, new)?;
    Ok(shared)
}

/// Another `Rc` of the data that a map shares.
pub(crate) fn shared_of(map: &DefMap) -> Result<Rc<CrateData>, AllocError>
    ensures { IfOk result (λ r. r.value ≡ map.now.shared) }
{
    let shared = building::shared(map).clone()?;
    Ok(shared)
}

/// That many `Rc`s of the data, made beforehand so that handing them out cannot fail.
fn handles(
    shared: &Rc<CrateData>,
    n: usize,
    alloc: Global,
) -> Result<Vec<Rc<CrateData>>, AllocError>
    ensures count { IfOk result (λ v. length v.items ≡ n) }
    ensures same { IfOk result (λ v. All (λ r. r.value ≡ shared.now.value) v.items) }
{
    let mut handles = Vec::new(alloc);
    for _ in 0..n {
        let handle = shared.clone()?;
        handles.push(handle)?;
    }
    Ok(handles)
}

/// The map takes a handle, if it is one of the crate.
fn hand_over(map: &mut DefMap, krate: Crate, handles: &mut Vec<Rc<CrateData>>, new: &CrateData)
    requires enough { 0 < length handles.old.items }
    requires same { All (λ r. r.value ≡ new.now) handles.old.items }
    ensures map { map.new ≡ map_with_shared krate new.now map.old }
    ensures left { length handles.old.items ≤ length handles.new.items + 1 }
    ensures same { All (λ r. r.value ≡ new.now) handles.new.items }
{
    if map.krate() == krate {
        if let Some(handle) = handles.pop() {
            building::set_shared(map, handle);
        }
    }
}

/// The same, of the map of number `i`, if there is one.
fn hand_over_at(
    maps: &mut Vec<DefMap>,
    i: usize,
    krate: Crate,
    handles: &mut Vec<Rc<CrateData>>,
    new: &CrateData,
)
    requires enough { 0 < length handles.old.items }
    requires same { All (λ r. r.value ≡ new.now) handles.old.items }
    ensures maps { maps.new.items ≡ entry_with maps.old.items i (map_with_shared krate new.now) }
    ensures left { length handles.old.items ≤ length handles.new.items + 1 }
    ensures same { All (λ r. r.value ≡ new.now) handles.new.items }
{
    if let Some(map) = maps.get_mut(i) {
        hand_over(map, krate, handles, new);
    }
}

/// The maps of those blocks, which are all of the crate's, take a handle each.
fn hand_out(
    maps: &mut Vec<DefMap>,
    own: &[BlockId],
    krate: Crate,
    mut handles: Vec<Rc<CrateData>>,
    new: &CrateData,
)
    requires own { HoldsAll krate maps.old.items own.now }
    requires enough { length own.now ≤ length handles.items }
    requires same { All (λ r. r.value ≡ new.now) handles.items }
    ensures { maps.new.items ≡ with_shared krate new.now maps.old.items }
{
    for b in own {
        hand_over_at(maps, b.0 as usize, krate, &mut handles, new);
    }
}

/// The map of the crate takes the data.
fn give(maps: &mut Vec<DefMap>, krate: Crate, shared: Rc<CrateData>)
    requires { AreNumbered maps.old.items }
    ensures { maps.new.items ≡ with_shared krate shared.value maps.old.items }
{
    if let Some(map) = maps.get_mut(krate.0 as usize) {
        building::set_shared(map, shared);
    }
}

impl Maps {
    /// All maps of a crate, whose blocks are those, share that data from now on.
    ///
    /// No other crate's map is looked at.
    pub(crate) fn share(
        &mut self,
        krate: Crate,
        new: CrateData,
        own: &[BlockId],
        alloc: Global,
    ) -> Result<(), AllocError>
        requires own { HoldsAll krate self.old.blocks own.now }
        requires numbered { AreNumbered self.old.crates }
        ensures ok { OnOk result (self.new ≡ maps_sharing self.old krate new) }
        ensures err { OnErr result (self.new ≡ self.old) }
    {
        let shared = share(new, alloc)?;
        let for_blocks = handles(&shared, own.len(), alloc)?;
        hand_out(&mut self.blocks, own, krate, for_blocks, &shared);
        give(&mut self.crates, krate, shared);
        Ok(())
    }
}
