//! What macros that are not expanded may hide.
use crate::settled::Settled;
use def_diagnostics::glob_edges::glob_edge;
use def_diagnostics::hidden::is_hidden;
use def_diagnostics::hidden_calls::is_call_hidden;
use def_diagnostics::macro_calls::{MacroCall, homes, known_homes, macro_calls};
use def_diagnostics::macro_meaning::knows_module;
use def_diagnostics::open_modules::{GlobEdge, OpenModules};
use defmap_answers::crates::Crates;
use dm_base::ids::ModuleId;
use dm_base::mod_path::ModPath;
use dm_maps::world::World;
use std::alloc::{AllocError, Global};

/// The macro calls of all crates, and the modules that these leave open.
pub(crate) struct MacroView {
    calls: Vec<MacroCall>,
    for_imports: OpenModules,
    for_calls: OpenModules,
}

/// A hand-written `Drop`, to keep proofs small: what drops one has one call to prove.
impl Drop for MacroView {
    fn drop(self) {
        let MacroView {
            calls: _calls,
            for_imports: _for_imports,
            for_calls: _for_calls,
        } = self;
    }
}

/// The macro calls of the crate of a number.
pub(crate) fn calls_of(
    alloc: Global,
    settled: &Settled,
    number: usize,
) -> Result<Vec<MacroCall>, AllocError> {
    let collected = &settled.collected;
    let (Some(list), Some(table), Some(items)) = (
        collected.lists.get(number),
        collected.tables.get(number),
        settled.items().get(number),
    ) else {
        return Ok(Vec::new(alloc));
    };
    macro_calls(
        alloc,
        settled.world(),
        list,
        settled.files(),
        table.ids(),
        items.as_slice(),
    )
}

/// Which modules have globs of which.
fn edges_of(alloc: Global, settled: &Settled) -> Result<Vec<GlobEdge>, AllocError> {
    let mut edges = Vec::new(alloc);
    for glob in &settled.collected.globs {
        if let Some(edge) = glob_edge(settled.world(), glob.into, &glob.path) {
            edges.push(edge)?;
        }
    }
    Ok(edges)
}

/// The macro calls of all crates.
fn all_calls(alloc: Global, settled: &Settled) -> Result<Vec<MacroCall>, AllocError> {
    let mut calls = Vec::new(alloc);
    for number in 0..settled.collected.lists.len() {
        for call in calls_of(alloc, settled, number)? {
            calls.push(call)?;
        }
    }
    Ok(calls)
}

/// The modules that calls in these leave open.
fn opened(
    alloc: Global,
    homes: Result<Vec<ModuleId>, AllocError>,
    edges: &[GlobEdge],
) -> Result<OpenModules, AllocError> {
    let homes = homes?;
    OpenModules::new(alloc, homes.as_slice(), edges)
}

impl MacroView {
    /// That of settled crates.
    pub(crate) fn new(alloc: Global, settled: &Settled) -> Result<MacroView, AllocError> {
        let calls = all_calls(alloc, settled)?;
        let edges = edges_of(alloc, settled)?;
        let for_imports = opened(alloc, homes(alloc, calls.as_slice()), edges.as_slice())?;
        let for_calls = opened(
            alloc,
            known_homes(alloc, calls.as_slice()),
            edges.as_slice(),
        )?;
        Ok(MacroView {
            calls,
            for_imports,
            for_calls,
        })
    }

    /// Whether a macro may hide what an import imports.
    pub(crate) fn hides_import(
        &self,
        alloc: Global,
        world: &World,
        m: ModuleId,
        path: &ModPath,
    ) -> Result<bool, AllocError> {
        if !knows_module(world, m) || !world.knows_path(path) {
            return Ok(false);
        }
        is_hidden(alloc, world, &self.for_imports, m, path)
    }

    /// Whether a macro may hide the one that a call calls.
    pub(crate) fn hides_call(
        &self,
        alloc: Global,
        world: &World,
        call: &MacroCall,
    ) -> Result<bool, AllocError> {
        if !knows_module(world, call.home) || !world.knows_path(&call.path) {
            return Ok(false);
        }
        let calls = self.calls.as_slice();
        is_call_hidden(alloc, world, &self.for_calls, calls, call.home, &call.path)
    }
}
