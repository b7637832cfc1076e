//! The modules of a crate and which uses which, as a graph for Graphviz.
use crate::by_rules::{meanings_of, source_meanings};
use crate::crates::{Crates, crate_name};
use crate::cycles::{Graph, circles};
use crate::shown::module_path;
use crate::survey::Survey;
use dm_base::ids::{Crate, ModuleId};
use dm_base::item_ids::{AdtId, ModuleDefId};
use dm_imports::meaning::Meaning;
use dm_imports::rules::meanings::ImportMeanings;
use indexmap::IndexSet;
use std::alloc::{AllocError, Global};
use std::fmt::Write;

/// The modules of a crate, and which has imports of which.
struct Uses<'a, C: Crates> {
    alloc: Global,
    crates: &'a C,
    modules: IndexSet<ModuleId>,
    /// By the places of the modules.
    edges: IndexSet<(usize, usize)>,
}

/// A hand-written `Drop`, to keep proofs small: what drops one has one call to prove.
impl<'a, C: Crates> Drop for Uses<'a, C> {
    fn drop(self) {
        let Uses {
            alloc: _alloc,
            crates: _crates,
            modules: _modules,
            edges: _edges,
        } = self;
    }
}

/// The module that a definition stands in, or is.
fn home_of<C: Crates>(crates: &C, def: ModuleDefId) -> Option<ModuleId> {
    match def {
        ModuleDefId::ModuleId(m) => Some(m),
        ModuleDefId::EnumVariantId(variant) => {
            let e = crates.enum_of(variant)?;
            crates.item_home(ModuleDefId::AdtId(AdtId::EnumId(e)))
        }
        _ => crates.item_home(def),
    }
}

impl<'a, C: Crates> Uses<'a, C> {
    /// The modules of a crate.
    fn new(alloc: Global, crates: &'a C, krate: Crate) -> Result<Uses<'a, C>, AllocError> {
        let mut modules = IndexSet::new(alloc);
        for id in crates.module_ids(krate.0 as usize) {
            if let Some(m) = *id {
                modules.insert(m)?;
            }
        }
        Ok(Uses {
            alloc,
            crates,
            modules,
            edges: IndexSet::new(alloc),
        })
    }

    /// Notes that a module has an import of what something means.
    fn add(&mut self, home: ModuleId, meaning: Option<Meaning>) -> Result<(), AllocError> {
        let Some(meaning) = meaning else {
            return Ok(());
        };
        let Some(target) = home_of(self.crates, meaning.def) else {
            return Ok(());
        };
        let places = (
            self.modules.get_index_of(&home),
            self.modules.get_index_of(&target),
        );
        if let (Some(from), Some(to)) = places {
            if from != to {
                self.edges.insert((from, to))?;
            }
        }
        Ok(())
    }

    fn add_all(&mut self, home: ModuleId, meanings: ImportMeanings) -> Result<(), AllocError> {
        self.add(home, meanings.types)?;
        self.add(home, meanings.values)?;
        self.add(home, meanings.macros)
    }

    fn add_named(&mut self) -> Result<(), AllocError> {
        let crates = self.crates;
        for (place, import) in crates.imports().iter().enumerate() {
            if self.modules.contains(&import.home) {
                self.add_all(import.home, meanings_of(crates, place, import))?;
            }
        }
        Ok(())
    }

    fn add_globs(&mut self) -> Result<(), AllocError> {
        let crates = self.crates;
        for glob in crates.globs() {
            if self.modules.contains(&glob.into) {
                self.add_all(glob.into, source_meanings(crates, glob.into, &glob.path))?;
            }
        }
        Ok(())
    }

    /// For each module a number that those have, too, which it lies in a circle of imports with.
    fn circles(&self) -> Result<Vec<usize>, AllocError> {
        let mut graph = Graph::new(self.alloc, self.modules.len())?;
        for (from, to) in self.edges.iter() {
            graph.add(*from, *to)?;
        }
        circles(self.alloc, &graph)
    }

    /// Adds a line for each module.
    fn push_modules(&self, out: &mut String) -> Result<(), AllocError> {
        for (place, m) in self.modules.iter().enumerate() {
            let path = module_path(self.alloc, self.crates, *m)?;
            write!(out, "  m{place} [label=\"{path}\"];\n")?;
        }
        Ok(())
    }

    /// Adds a line for each module and one that uses it, those in circles in red.
    fn push_edges(&self, out: &mut String) -> Result<(), AllocError> {
        let circles = self.circles()?;
        for (from, to) in self.edges.iter() {
            let is_circle = circles.get(*from) == circles.get(*to);
            let color = if is_circle { " [color=red]" } else { "" };
            write!(out, "  m{from} -> m{to}{color};\n")?;
        }
        Ok(())
    }
}

/// The modules of a crate and which has imports of which, in the language of Graphviz; circles of imports in red.
pub fn dot_text<C: Crates>(survey: &Survey<'_, C>, krate: Crate) -> Result<String, AllocError> {
    let (alloc, crates) = (survey.hidden.alloc(), survey.hidden.crates());
    let mut uses = Uses::new(alloc, crates, krate)?;
    uses.add_named()?;
    uses.add_globs()?;
    let name = crate_name(crates, krate);
    let mut out = format!(in alloc; "digraph \"{name}\" {{\n  node [shape=box];\n")?;
    uses.push_modules(&mut out)?;
    uses.push_edges(&mut out)?;
    out.push_str("}\n")?;
    Ok(out)
}
