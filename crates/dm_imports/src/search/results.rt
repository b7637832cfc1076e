//! What was found of the slots of a crate.

use crate::meaning::Meaning;
use crate::search::cell::{Cell, SlotKey, offered};
use crate::search::state::Search;
use crate::step::Step;
use dm_base::ids::ModuleId;
use dm_base::name::Name;
use dm_base::per_ns::Namespace;
use dm_base::visibility::Visibility;
use indexmap::{IndexMap, IndexSet};
use std::alloc::{AllocError, Global};
use std::mem::replace;

/// What an import or a glob brings to a slot: the import binds its own name, the glob this one.
#[derive(Drop)]
pub(crate) struct Binding {
    pub(crate) by: Step,
    pub(crate) m: ModuleId,
    pub(crate) name: Name,
    pub(crate) namespace: Namespace,
    pub(crate) meaning: Meaning,
}

/// What was found: what is brought, and in which order imports were bound and globs began to read.
#[derive(Drop)]
pub(crate) struct Outcome {
    pub(crate) bindings: Vec<Binding>,
    pub(crate) steps: Vec<Step>,
}

/// Who sees what globs bring to a slot, if that is ambiguous.
fn seen_by(cell: &Cell) -> Option<Visibility> {
    if cell.declared.is_some() || !cell.offered?.is_ambiguous {
        None
    } else {
        cell.least
    }
}

impl Search {
    /// What the first import of a slot brings that brings anything, or else what globs bring, and by whom.
    fn brought(&self, cell: &Cell) -> Option<(Step, Meaning)> {
        if cell.declared.is_some() {
            return None;
        }
        let (number, meaning) = match cell.bound {
            None => (cell.first_glob, offered(cell)?),
            Some(number) => (number, self.bound_by(number)?),
        };
        Some((self.asker(number)?.step, meaning))
    }

    /// What imports and globs bring to a slot, if they do.
    fn binding(
        &self,
        alloc: Global,
        names: &IndexSet<Name>,
        cell: &Cell,
    ) -> Result<Option<Binding>, AllocError> {
        let (Some((by, meaning)), Some(name)) = (self.brought(cell), names.get_index(cell.key.name))
        else {
            return Ok(None);
        };
        let name = name.copy(alloc)?;
        Ok(Some(Binding {
            by,
            m: cell.key.m,
            name,
            namespace: cell.key.namespace,
            meaning,
        }))
    }

    /// What imports and globs bring to all slots of the crate.
    fn bindings(&self, alloc: Global, names: &IndexSet<Name>) -> Result<Vec<Binding>, AllocError> {
        let mut bindings = Vec::new(alloc);
        for cell in &self.cells {
            if let Some(binding) = self.binding(alloc, names, cell)? {
                bindings.push(binding)?;
            }
        }
        Ok(bindings)
    }

    /// What was found, once.
    pub(crate) fn outcome(
        &mut self,
        alloc: Global,
        names: &IndexSet<Name>,
    ) -> Result<Outcome, AllocError> {
        let bindings = self.bindings(alloc, names)?;
        let steps = replace(&mut self.steps, Vec::new(alloc));
        Ok(Outcome { bindings, steps })
    }

    /// Who sees the ambiguous slots of the crate; none where that is as it was thought.
    pub(crate) fn new_caps(
        &self,
        alloc: Global,
    ) -> Result<Option<IndexMap<SlotKey, Visibility>>, AllocError> {
        let mut caps = IndexMap::new(alloc);
        let mut is_known = true;
        for cell in &self.cells {
            let seen = seen_by(cell);
            is_known &= cell.cap == seen;
            if let Some(vis) = seen {
                caps.insert(cell.key, vis)?;
            }
        }
        Ok(if is_known { None } else { Some(caps) })
    }
}
