//! The modules to which a macro that is not expanded may give more names than are known.
ghost use Rattle.std.specs.Prelude.{◌≡◌, [], All, IfOk, List, OnOk, false, fold, true};
ghost use Rattle.def_diagnostics.specs.OpenModules as spec;
ghost use Rattle.dm_base.specs.Tree.{is_among};
ghost use Rattle.dm_base.specs.declared.ids.ModuleId.{ModuleId as Module};

use dm_base::ids::ModuleId;
use indexmap::IndexSet;
use std::alloc::{AllocError, Global};
use std::marker::Model;

/// A glob of a module, and the module that it brings the names of.
#[derive(Clone, Copy, PartialEq, Eq, Debug)]
pub struct GlobEdge {
    pub into: ModuleId,
    pub from: ModuleId,
}

/// The open modules of a world: those with a macro call among their items, and those with a glob of an open one.
#[derive(Drop)]
pub struct OpenModules {
    modules: IndexSet<ModuleId>,
}

impl Model for OpenModules {
    ghost use Rattle.std.specs.Prelude.{List};
    ghost use Rattle.dm_base.specs.declared.ids.ModuleId.{ModuleId};

    ghost Value = { List ModuleId };

    ghost view = { λ o. o.modules.keys };
}

/// Adds a module.
fn add(modules: &mut IndexSet<ModuleId>, m: ModuleId) -> Result<(), AllocError>
    ensures { OnOk result (modules.new.keys ≡ spec.with_module modules.old.keys m) }
{
    modules.insert(m)?;
    Ok(())
}

/// Adds some modules.
fn add_all(modules: &mut IndexSet<ModuleId>, homes: &[ModuleId]) -> Result<(), AllocError>
    ensures { OnOk result (modules.new.keys ≡ fold spec.with_module modules.old.keys homes.now) }
{
    for home in homes {
        add(modules, *home)?;
    }
    Ok(())
}

/// Adds the module that has a glob, if it is of one of these. Answers whether it was not there.
fn step(modules: &mut IndexSet<ModuleId>, edge: GlobEdge) -> Result<bool, AllocError>
    ensures keys { OnOk result (modules.new.keys ≡ spec.with_edge modules.old.keys edge) }
    ensures same { IfOk result (λ grown. grown ≡ false → modules.new.keys ≡ modules.old.keys) }
    ensures closed { IfOk result (λ grown. grown ≡ false → spec.IsClosedAt modules.old.keys edge) }
{
    if modules.contains(&edge.into) || !modules.contains(&edge.from) {
        return Ok(false);
    }
    add(modules, edge.into)?;
    Ok(true)
}

/// Goes over the globs once. Answers whether a module was added.
fn pass(modules: &mut IndexSet<ModuleId>, edges: &[GlobEdge]) -> Result<bool, AllocError>
    ensures same { IfOk result (λ grown. grown ≡ false → modules.new.keys ≡ modules.old.keys) }
    ensures closed { IfOk result (λ grown. grown ≡ false → All (spec.IsClosedAt modules.old.keys) edges.now) }
    ensures kept { OnOk result (spec.Keeps modules.old.keys modules.new.keys) }
    ensures sound { OnOk result ((calls : List Module) → spec.AllOpen calls edges.now modules.old.keys
        → spec.AllOpen calls edges.now modules.new.keys) }
{
    let mut grown = false;
    for edge in edges {
        grown |= step(modules, *edge)?;
    }
    Ok(grown)
}

/// Adds, however far, the modules that have globs of these.
fn close(modules: &mut IndexSet<ModuleId>, edges: &[GlobEdge]) -> Result<(), AllocError>
    ensures { OnOk result (spec.AreOpen modules.old.keys edges.now modules.new.keys) }
{
    for _ in 0..u64::MAX {
        if !pass(modules, edges)? {
            return Ok(());
        }
    }
    Err(AllocError)
}

impl OpenModules {
    /// The open modules, by those that have macro calls and by the globs of a world. It goes over the globs again until a
    /// pass adds nothing.
    ///
    /// # Errors
    ///
    /// Fails only where memory runs out.
    pub fn new(
        alloc: Global,
        homes: &[ModuleId],
        edges: &[GlobEdge],
    ) -> Result<OpenModules, AllocError>
        ensures { IfOk result (λ found. spec.AreOpen (spec.each_once homes.now) edges.now found) }
    {
        let mut modules = IndexSet::new(alloc);
        add_all(&mut modules, homes)?;
        close(&mut modules, edges)?;
        Ok(OpenModules { modules })
    }

    /// Whether a module is one of them.
    pub fn has(&self, m: ModuleId) -> bool
        ensures { result ≡ is_among m self.now }
    {
        self.modules.contains(&m)
    }
}
