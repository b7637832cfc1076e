//! Graphs of crates: which crate depends on which.
ghost use Rattle.std.specs.Prelude.{◌≡◌, ◌↔◌, ◌<◌, ◌++◌, ◌∷◌, [], length, All, IfErr, IfOk, IsTrue, OnErr, OnOk, slice_get};
ghost use Rattle.crate_items.specs.CrateGraphs.{AreKnown, IsGraph, IsOrder, numbers, rows, with_edge};
ghost use Rattle.crate_items.specs.OrderFaults.{IsFaultOf};

use crate::files::crate_data::CrateData;
use crate::files::crate_order::{OrderFault, order_of};
use crate::files::dependency::Dependency;
use dm_base::ids::Crate;
use std::alloc::{AllocError, Global};
use std::marker::Model;

/// Crates and what each depends on. A contract sees the list of the crates, each at its number.
pub struct CrateGraph {
    crates: Vec<CrateData>,
}

/// Hand-written `Drop`, to keep proofs small: dropping one is then a single call.
impl Drop for CrateGraph {
    fn drop(self) {
        let CrateGraph { crates: _crates } = self;
    }
}

impl Model for CrateGraph {
    ghost use Rattle.crate_items.specs.CrateGraphs.{Graph, IsGraph};

    ghost Value = { Graph };

    ghost view = { λ g. g.crates.items };

    ghost invariant = { λ g. IsGraph g.crates.items };
}

impl CrateGraph {
    /// A graph of no crates. Allocates nothing.
    pub fn new(alloc: Global) -> CrateGraph
        ensures { result ≡ [] }
    {
        CrateGraph {
            crates: Vec::new(alloc),
        }
    }

    /// How many crates there are.
    pub fn len(&self) -> usize
        ensures { result ≡ length self.now }
    {
        self.crates.len()
    }

    /// The crates, each at its number.
    pub fn crates(&self) -> &[CrateData]
        ensures all { result.now ≡ self.now }

        // What a crate depends on is there.
        ensures known { All (AreKnown (length self.now)) result.now }
    {
        self.crates.as_slice()
    }

    /// The crate of a number.
    pub fn crate_at(&self, number: usize) -> Crate
        requires { number < length self.now }
        ensures { result.0 ≡ number }
    {
        let _crates = &self.crates;
        Crate(number as u32)
    }

    /// Whether there is no crate.
    pub fn is_empty(&self) -> bool
        ensures { IsTrue result ↔ (self.now ≡ []) }
    {
        self.crates.is_empty()
    }

    /// Whether the graph has a crate.
    pub fn contains(&self, id: Crate) -> bool
        ensures { IsTrue result ↔ (id.0 < length self.now) }
    {
        (id.0 as usize) < self.crates.len()
    }

    /// Whether the graph has each crate that a crate depends on.
    pub fn knows(&self, added: &CrateData) -> bool
        ensures { IsTrue result ↔ AreKnown (length self.now) added.now }
    {
        let count = self.crates.len();
        known(added.dependencies(), count)
    }

    /// A crate.
    pub fn get(&self, id: Crate) -> &CrateData
        requires { id.0 < length self.now }
        ensures { slice_get self.now id.0 ≡ Some result.now }
    {
        &self.crates[id.0 as usize]
    }

    /// Adds a crate, which gets the next number.
    ///
    /// # Errors
    ///
    /// Fails only where memory runs out, or numbers of crates do, and then changes nothing.
    pub fn add_crate(&mut self, added: CrateData) -> Result<Crate, AllocError>
        requires { AreKnown (length self.old) added }
        ensures ok { OnOk result (self.new ≡ self.old ++ added ∷ []) }
        ensures number { IfOk result (λ id. id.0 ≡ length self.old) }
        ensures err { OnErr result (self.new ≡ self.old) }
    {
        let number = as_number(self.crates.len())?;
        self.crates.push(added)?;
        Ok(Crate(number))
    }

    /// Adds what a crate depends on, behind what it depended on before.
    ///
    /// # Errors
    ///
    /// Fails only where memory runs out, and then changes nothing.
    pub fn add_dep(&mut self, from: Crate, dependency: Dependency) -> Result<(), AllocError>
        requires from { from.0 < length self.old }
        requires to { dependency.crate_id.0 < length self.old }
        ensures ok { OnOk result (self.new ≡ with_edge self.old from.0 dependency) }
        ensures err { OnErr result (self.new ≡ self.old) }
    {
        let added = add_edge(&mut self.crates, from.0 as usize, dependency)?;
        Ok(added)
    }

    /// The crates in an order in which each stands behind all that it depends on. The time is linear in the number of
    /// crates and dependencies.
    ///
    /// # Errors
    ///
    /// Fails with a circle where there is one, and where memory runs out.
    pub fn crates_in_topological_order(&self, alloc: Global) -> Result<Vec<Crate>, OrderFault>
        ensures order { IfOk result (λ order. IsOrder (rows self.now) (numbers order.items)) }
        ensures fault { IfErr result (IsFaultOf (rows self.now)) }
    {
        order_of(alloc, self.crates.as_slice())
    }
}

/// Whether each of these is of one of so many crates.
fn known(dependencies: &[Dependency], count: usize) -> bool
    ensures { IsTrue result ↔ All (λ d. d.crate_id.0 < count) dependencies.now }
{
    dependencies
        .iter()
        .all(|dependency| (dependency.crate_id.0 as usize) < count)
}

/// The number of the next crate, if it fits.
fn as_number(count: usize) -> Result<u32, AllocError>
    ensures ok { IfOk result (λ number. number ≡ count) }
{
    match u32::try_from(count) {
        Ok(number) => Ok(number),
        Err(_) => Err(AllocError),
    }
}

/// Adds what a crate depends on.
fn add_edge(
    crates: &mut Vec<CrateData>,
    from: usize,
    dependency: Dependency,
) -> Result<(), AllocError>
    requires kept { IsGraph crates.old.items }
    requires from { from < length crates.old.items }
    requires to { dependency.crate_id.0 < length crates.old.items }
    ensures kept { IsGraph crates.new.items }
    ensures ok { OnOk result (crates.new.items ≡ with_edge crates.old.items from dependency) }
    ensures err { OnErr result (crates.new.items ≡ crates.old.items) }
{
    crates[from].add_dependency(dependency)?;
    Ok(())
}
