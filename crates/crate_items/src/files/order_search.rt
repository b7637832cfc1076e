//! A search for the order of crates, depth first, step by step.
ghost use Rattle.std.specs.Prelude.{◌≡◌, ◌<◌, ◌≤◌, ◌+◌, ◌-◌, ◌++◌, ◌∷◌, [], drop, take, length, map, IfOk, MatchOption, OnOk};
ghost use Rattle.crate_items.specs.CrateGraphs.{needs, numbers, rows};
ghost use Rattle.crate_items.specs.OrderSearch as spec;

use crate::files::crate_data::CrateData;
use dm_base::ids::Crate;
use std::alloc::{AllocError, Global};
use std::marker::Model;

/// The state of a search: see its definition. A contract sees the numbers of the crates.
pub(crate) struct Search {
    left: Vec<usize>,
    places: Vec<Option<usize>>,
    path: Vec<Crate>,
    order: Vec<Crate>,
}

/// Hand-written `Drop`, to keep proofs small: dropping one is then a single call.
impl Drop for Search {
    fn drop(self) {
        let Search {
            left: _left,
            places: _places,
            path: _path,
            order: _order,
        } = self;
    }
}

impl Model for Search {
    ghost use Rattle.crate_items.specs.CrateGraphs.{numbers};
    ghost use Rattle.crate_items.specs.OrderSearch.{State};

    ghost Value = { State };

    ghost view = { λ s. record { left = s.left.items; places = s.places.items; path = numbers s.path.items; order = numbers s.order.items } };
}

/// How many dependencies of each crate are not looked at at first, and one more.
#[tactic(auto, using(crate::proofs::MappedLists::mapped))]
fn all_left(alloc: Global, crates: &[CrateData]) -> Result<Vec<usize>, AllocError>
    ensures { IfOk result (λ left. left.items ≡ map (λ r. length r + 1) (rows crates.now)) }
{
    let mut left = Vec::with_capacity(alloc, crates.len())?;
    for data in crates {
        left.push(data.dependencies().len() + 1)?;
    }
    Ok(left)
}

/// Adds a crate at the end.
#[tactic(auto, using(crate::proofs::MappedLists::mapped))]
fn add(crates: &mut Vec<Crate>, id: Crate) -> Result<(), AllocError>
    ensures { OnOk result (numbers crates.new.items ≡ numbers crates.old.items ++ id.0 ∷ []) }
{
    crates.push(id)?;
    Ok(())
}

/// Takes the last crate out.
#[tactic(auto, using(crate::proofs::MappedLists::mapped))]
fn drop_last(crates: &mut Vec<Crate>)
    ensures { numbers crates.new.items ≡ take (length (numbers crates.old.items) - 1) (numbers crates.old.items) }
{
    let len = crates.len();
    crates.truncate(len.saturating_sub(1));
}

/// The crates from a place on.
#[tactic(auto, using(crate::proofs::MappedLists::mapped))]
fn copied_from(alloc: Global, crates: &[Crate], place: usize) -> Result<Vec<Crate>, AllocError>
    requires { place ≤ length (numbers crates.now) }
    ensures { IfOk result (λ copy. numbers copy.items ≡ drop place (numbers crates.now)) }
{
    let copy = Vec::from_slice(alloc, &crates[place..])?;
    Ok(copy)
}

impl Search {
    /// At the start no dependency is looked at.
    pub(crate) fn new(alloc: Global, crates: &[CrateData]) -> Result<Search, AllocError>
        ensures { IfOk result (λ s. s ≡ spec.started (rows crates.now)) }
    {
        let left = all_left(alloc, crates)?;
        let places = vec![in alloc; None; crates.len()]?;
        Ok(Search {
            left,
            places,
            path: Vec::new(alloc),
            order: Vec::new(alloc),
        })
    }

    /// The last crate of the path.
    pub(crate) fn last(&self) -> Option<Crate>
        ensures { MatchOption result (length self.now.path ≡ 0) (λ c. spec.IsLast self.now c.0) }
    {
        self.path.last().copied()
    }

    /// 0 where a crate stands in the order, and else one more than how many dependencies are not looked at.
    pub(crate) fn left(&self, id: Crate) -> usize
        requires { id.0 < length self.now.left }
        ensures { result ≡ spec.left_of self.now id.0 }
    {
        self.left[id.0 as usize]
    }

    /// The place of a crate on the path.
    pub(crate) fn place(&self, id: Crate) -> Option<usize>
        requires { id.0 < length self.now.places }
        ensures { result ≡ spec.place_of self.now id.0 }
    {
        self.places[id.0 as usize]
    }

    /// Looks at one more dependency of a crate.
    pub(crate) fn look(&mut self, id: Crate)
        requires within { id.0 < length self.old.left }
        requires some { 0 < spec.left_of self.old id.0 }
        ensures { self.new ≡ spec.looked id.0 self.old }
    {
        self.left[id.0 as usize] -= 1;
    }

    /// Puts a crate on the path.
    pub(crate) fn enter(&mut self, id: Crate) -> Result<(), AllocError>
        requires { id.0 < length self.old.places }
        ensures { OnOk result (self.new ≡ spec.opened id.0 self.old) }
    {
        self.places[id.0 as usize] = Some(self.path.len());
        add(&mut self.path, id)
    }

    /// Takes the last crate from the path and puts it into the order.
    pub(crate) fn finish(&mut self, id: Crate) -> Result<(), AllocError>
        requires left { id.0 < length self.old.left }
        requires places { id.0 < length self.old.places }
        ensures { OnOk result (self.new ≡ spec.closed id.0 self.old) }
    {
        self.left[id.0 as usize] = 0;
        self.places[id.0 as usize] = None;
        drop_last(&mut self.path);
        add(&mut self.order, id)
    }

    /// The path from a place on.
    pub(crate) fn path_from(&self, alloc: Global, place: usize) -> Result<Vec<Crate>, AllocError>
        requires { place ≤ length self.now.path }
        ensures { IfOk result (λ path. numbers path.items ≡ drop place self.now.path) }
    {
        copied_from(alloc, self.path.as_slice(), place)
    }

    /// The order.
    pub(crate) fn into_order(self) -> Vec<Crate>
        ensures { numbers result.items ≡ self.order }
    {
        let Search {
            left: _left,
            places: _places,
            path: _path,
            order,
        } = self;
        order
    }
}
