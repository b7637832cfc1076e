//! What globs offer while names are searched.

use crate::container::Container;
use crate::meaning::Meaning;
use crate::search::asker::Asker;
use crate::search::cell::{Cell, SlotKey};
use crate::search::follow::brought;
use crate::search::maps::Maps;
use crate::search::shown::{Found, Who, if_seen};
use crate::search::state::{Search, Task};
use dm_base::ids::ModuleId;
use dm_base::per_ns::Namespace;
use dm_base::visibility::Visibility;
use std::alloc::AllocError;

/// All namespaces.
pub(crate) const NAMESPACES: [Namespace; 3] = [
    Namespace::Types,
    Namespace::Values,
    Namespace::Macros,
];

/// What some offers are together, and one more.
fn joined<M: Maps>(maps: &M, cell: &Cell, glob: usize, offer: Meaning) -> (Meaning, usize) {
    let Some(all) = cell.offered else {
        return (offer, glob);
    };
    // The definition is that of the first glob, which may offer another one once that is ambiguous.
    let is_first = glob <= cell.first_glob;
    let (first, first_glob) = if is_first {
        (offer, glob)
    } else {
        (all, cell.first_glob)
    };
    let together = Meaning {
        vis: maps.most(cell.key.m, all.vis, offer.vis),
        is_ambiguous: all.is_ambiguous || offer.is_ambiguous || all.def != offer.def,
        ..first
    };
    (together, first_glob)
}

/// The least permissive of some visibilities and one more.
fn least_with<M: Maps>(maps: &M, cell: &Cell, vis: Visibility) -> Visibility {
    match cell.least {
        None => vis,
        Some(least) => maps.least(cell.key.m, least, vis),
    }
}

/// What a source whose names are certain has under a name, where it is seen.
fn certain_in<M: Maps>(
    maps: &M,
    home: ModuleId,
    source: Container,
    name: usize,
    namespace: Namespace,
) -> Found {
    let found = match source {
        Container::Enum(e) => maps.variant(e, name, namespace),
        Container::Module(m) => maps.bound(m, name, namespace),
    };
    if_seen(maps, home, found)
}

impl Search {
    /// Joins an offer to those of a slot.
    fn join<M: Maps>(
        &mut self,
        maps: &M,
        slot: usize,
        glob: usize,
        offer: Meaning,
    ) -> Result<(), AllocError> {
        let Some(cell) = self.cells.get_mut(slot) else {
            return Ok(());
        };
        cell.least = Some(least_with(maps, cell, offer.vis));
        let (together, first_glob) = joined(maps, cell, glob, offer);
        if cell.offered == Some(together) && first_glob == cell.first_glob {
            return Ok(());
        }
        cell.offered = Some(together);
        cell.first_glob = first_glob;
        self.to_do(Task::Cell(slot))
    }

    /// Has a glob offer what it finds under a name.
    fn offer<M: Maps>(
        &mut self,
        maps: &M,
        number: usize,
        by: &Asker,
        name: usize,
        namespace: Namespace,
        found: Found,
    ) -> Result<(), AllocError> {
        let Found::Is(meaning, _slot) = found else {
            return Ok(());
        };
        let m = by.home;
        let slot = self.number(maps, SlotKey { m, name, namespace })?;
        self.join(maps, slot, number, brought(maps, by, meaning))
    }

    /// Has a glob offer what a slot shows it.
    fn offer_slot<M: Maps>(
        &mut self,
        maps: &M,
        number: usize,
        by: &Asker,
        slot: usize,
    ) -> Result<(), AllocError> {
        let Some(cell) = self.cell(slot) else {
            return Ok(());
        };
        let who = Who {
            home: by.home,
            number: None,
        };
        let found = self.shown(maps, who, slot);
        self.offer(maps, number, by, cell.key.name, cell.key.namespace, found)
    }

    /// Has the globs offer what a slot shows them that have its module as their source.
    pub(crate) fn offer_on<M: Maps>(&mut self, maps: &M, slot: usize) -> Result<(), AllocError> {
        let Some(cell) = self.cell(slot) else {
            return Ok(());
        };
        let mut next = self.listed(cell.key.m).readers;
        for _reader in 0..self.askers.len() {
            let Some(number) = next else {
                break;
            };
            next = self.offer_to(maps, number, slot)?;
        }
        Ok(())
    }

    /// Has a glob offer what a slot shows it. Answers with the next glob of its source.
    fn offer_to<M: Maps>(
        &mut self,
        maps: &M,
        number: usize,
        slot: usize,
    ) -> Result<Option<usize>, AllocError> {
        let Some(by) = self.asker(number) else {
            return Ok(None);
        };
        self.offer_slot(maps, number, &by, slot)?;
        Ok(by.next_beside)
    }

    /// Has a glob offer a name of its source in each namespace.
    fn offer_name<M: Maps>(
        &mut self,
        maps: &M,
        number: usize,
        by: &Asker,
        source: Container,
        name: usize,
    ) -> Result<(), AllocError> {
        for namespace in NAMESPACES {
            let found = certain_in(maps, by.home, source, name, namespace);
            self.offer(maps, number, by, name, namespace, found)?;
        }
        Ok(())
    }

    /// Has a glob offer what its source is known to have: what the world has, and what was found since.
    pub(crate) fn offer_all<M: Maps>(
        &mut self,
        maps: &mut M,
        number: usize,
        by: &Asker,
        source: Container,
    ) -> Result<(), AllocError> {
        let names = maps.names_in(source)?;
        for name in &names {
            self.offer_name(maps, number, by, source, *name)?;
        }
        match source {
            Container::Enum(_) => Ok(()),
            Container::Module(m) => self.offer_slots(maps, number, by, self.listed(m).cells),
        }
    }

    /// Has a glob offer what the slots of its source show it.
    fn offer_slots<M: Maps>(
        &mut self,
        maps: &M,
        number: usize,
        by: &Asker,
        first: Option<usize>,
    ) -> Result<(), AllocError> {
        let mut next = first;
        for _slot in 0..self.cells.len() {
            let Some(slot) = next else {
                break;
            };
            self.offer_slot(maps, number, by, slot)?;
            next = self.next_in_module(slot);
        }
        Ok(())
    }
}
