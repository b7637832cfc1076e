//! What imports and globs do once their paths were followed, while names are searched.

use crate::container::Container;
use crate::meaning::{Meaning, Source};
use crate::paths::containers::led;
use crate::rules::offers::is_other;
use crate::search::asker::{Asker, Progress, is_open};
use crate::search::cell::Listed;
use crate::search::maps::Maps;
use crate::search::shown::{Found, Who};
use crate::search::state::{Search, Task};
use crate::step::Step;
use dm_base::ids::ModuleId;
use dm_base::per_ns::Namespace;
use dm_base::visibility::Visibility;
use std::alloc::AllocError;

/// Whether one is an import by `pub use`.
fn is_public_use(by: &Asker) -> bool {
    matches!((by.source, by.vis), (Source::Import(_), Visibility::Public))
}

/// Who sees what one brings of what it finds: none who does not see that; but `pub use` shows an extern crate to all.
fn brought_vis<M: Maps>(maps: &M, by: &Asker, found: Meaning) -> Visibility {
    if is_public_use(by) && maps.is_extern_crate(found) {
        return Visibility::Public;
    }
    maps.least(by.home, by.vis, found.vis)
}

/// What one brings of what it finds.
pub(crate) fn brought<M: Maps>(maps: &M, by: &Asker, found: Meaning) -> Meaning {
    Meaning {
        vis: brought_vis(maps, by, found),
        source: by.source,
        ..found
    }
}

/// What a bound import brings as what it found grows; none where that is as before. Only an ambiguous definition replaces
/// another.
fn grown<M: Maps>(maps: &M, home: ModuleId, before: Meaning, after: Meaning) -> Option<Meaning> {
    if before.def != after.def && !after.is_ambiguous {
        return None;
    }
    let together = Meaning {
        vis: maps.most(home, before.vis, after.vis),
        is_ambiguous: before.is_ambiguous || after.is_ambiguous,
        ..after
    };
    if together == before {
        None
    } else {
        Some(together)
    }
}

impl Search {
    /// Counts an import of a slot that is open no longer, and has those ask anew that wait there.
    fn is_open_no_more(&mut self, slot: usize) -> Result<(), AllocError> {
        if let Some(cell) = self.cells.get_mut(slot) {
            cell.open = cell.open.saturating_sub(1);
        }
        self.to_do(Task::Cell(slot))
    }

    fn set_progress(&mut self, number: usize, progress: Progress) {
        if let Some(asker) = self.askers.get_mut(number) {
            asker.progress = progress;
        }
    }

    /// An open import, or a glob, brings nothing.
    pub(crate) fn close(&mut self, number: usize) -> Result<(), AllocError> {
        let Some(asker) = self.asker(number) else {
            return Ok(());
        };
        if !is_open(&asker) {
            return Ok(());
        }
        self.set_progress(number, Progress::Closed);
        match asker.slot {
            None => Ok(()),
            Some(slot) => self.is_open_no_more(slot),
        }
    }

    /// Binds the slot of an open import.
    fn bind_first(
        &mut self,
        number: usize,
        step: Step,
        slot: usize,
        meaning: Meaning,
    ) -> Result<(), AllocError> {
        self.steps.push(step)?;
        self.set_progress(number, Progress::Bound(meaning));
        if let Some(cell) = self.cells.get_mut(slot) {
            cell.bound = match cell.bound {
                Some(first) if first < number => Some(first),
                _ => Some(number),
            };
        }
        self.is_open_no_more(slot)
    }

    /// Has an import bring what it found.
    fn bind<M: Maps>(
        &mut self,
        maps: &M,
        number: usize,
        asker: &Asker,
        meaning: Meaning,
    ) -> Result<(), AllocError> {
        let Some(slot) = asker.slot else {
            return Ok(());
        };
        match asker.progress {
            Progress::Open => self.bind_first(number, asker.step, slot, meaning),
            Progress::Bound(before) => match grown(maps, asker.home, before, meaning) {
                None => Ok(()),
                Some(together) => {
                    self.set_progress(number, Progress::Bound(together));
                    self.to_do(Task::Cell(slot))
                }
            },
            Progress::Reads(_) | Progress::Closed => Ok(()),
        }
    }

    /// What the path of an import or a glob means, as far as is known.
    fn walk_of<M: Maps>(
        &mut self,
        maps: &M,
        who: Who,
        leaf: usize,
        namespace: Namespace,
    ) -> Result<Found, AllocError> {
        match maps.leaves().get(leaf) {
            None => Ok(Found::Nothing),
            Some(leaf) => self.walk(maps, who, &leaf.path, namespace),
        }
    }

    /// Follows the path of an import.
    fn ask_import<M: Maps>(
        &mut self,
        maps: &M,
        number: usize,
        asker: &Asker,
        namespace: Namespace,
    ) -> Result<(), AllocError> {
        let who = Who {
            home: asker.home,
            number: Some(number),
        };
        match self.walk_of(maps, who, asker.leaf, namespace)? {
            Found::Nothing => self.close(number),
            Found::Waits(slot, has_other_way) => {
                self.wait(number, slot, has_other_way);
                Ok(())
            }
            Found::Is(found, slot) => {
                self.bind(maps, number, asker, brought(maps, asker, found))?;
                if let Some(slot) = slot {
                    self.wait(number, slot, false);
                }
                Ok(())
            }
        }
    }

    /// Has a glob offer the names of its source, and those that this gets.
    fn read<M: Maps>(
        &mut self,
        maps: &mut M,
        number: usize,
        asker: &Asker,
        source: Container,
    ) -> Result<(), AllocError> {
        self.steps.push(asker.step)?;
        self.set_progress(number, Progress::Reads(source));
        if let Container::Module(m) = source {
            self.add_reader(m, number)?;
        }
        self.offer_all(maps, number, asker, source)
    }

    /// Adds a glob to those that have a module as their source.
    fn add_reader(&mut self, m: ModuleId, number: usize) -> Result<(), AllocError> {
        let listed = self.listed(m);
        if let Some(asker) = self.askers.get_mut(number) {
            asker.next_beside = listed.readers;
        }
        let readers = Some(number);
        self.list(m, Listed { readers, ..listed })
    }

    /// Follows the path of a glob.
    fn ask_glob<M: Maps>(
        &mut self,
        maps: &mut M,
        number: usize,
        asker: &Asker,
    ) -> Result<(), AllocError> {
        let who = Who {
            home: asker.home,
            number: None,
        };
        match self.walk_of(maps, who, asker.leaf, Namespace::Types)? {
            Found::Nothing => self.close(number),
            Found::Waits(slot, has_other_way) => {
                self.wait(number, slot, has_other_way);
                Ok(())
            }
            Found::Is(found, _slot) => match led(Some(found)) {
                Some(source) if is_other(asker.home, source) => {
                    self.read(maps, number, asker, source)
                }
                _ => self.close(number),
            },
        }
    }

    /// Follows a path that may lead further than before.
    fn ask<M: Maps>(&mut self, maps: &mut M, number: usize) -> Result<(), AllocError> {
        let Some(asker) = self.asker(number) else {
            return Ok(());
        };
        match (asker.progress, asker.step) {
            (Progress::Closed, _) | (Progress::Reads(_), _) => Ok(()),
            (_, Step::Import(_, namespace)) => self.ask_import(maps, number, &asker, namespace),
            (_, Step::Glob(_)) => self.ask_glob(maps, number, &asker),
        }
    }

    /// Does what is to be done for a task.
    pub(crate) fn do_task<M: Maps>(&mut self, maps: &mut M, task: Task) -> Result<(), AllocError> {
        match task {
            Task::Ask(number) => self.ask(maps, number),
            Task::Cell(slot) => {
                self.wake(slot)?;
                self.offer_on(maps, slot)
            }
        }
    }
}
