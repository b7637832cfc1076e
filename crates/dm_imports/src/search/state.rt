//! `Search`: what is known on the way to what the imports and globs of a crate bring.

use crate::meaning::Meaning;
use crate::search::asker::{Asker, Progress, is_open};
use crate::search::cell::{Cell, Listed, SlotKey, unbound, unlisted};
use crate::search::maps::Maps;
use crate::step::Step;
use dm_base::ids::ModuleId;
use dm_base::per_ns::Namespace;
use dm_base::visibility::Visibility;
use indexmap::IndexMap;
use std::alloc::{AllocError, Global};

/// What is still to be done.
#[derive(Clone, Copy)]
pub(crate) enum Task {
    /// A slot changed: those that wait there ask anew, and globs offer what it has.
    Cell(usize),
    /// The path of an import or a glob is to be followed.
    Ask(usize),
}

/// What can be reached, while names are released.
#[derive(Clone, Copy)]
pub(crate) enum Reach {
    Cell(usize),
    /// Any name of a module.
    Module(ModuleId),
}

/// What is known of the imports and globs of a crate, and of the slots that they go by: all by its number, so that what
/// changes it is proved without the types that it is found in.
pub(crate) struct Search {
    pub(crate) askers: Vec<Asker>,
    pub(crate) cells: Vec<Cell>,
    /// The numbers of slots, by their modules.
    pub(crate) numbers: IndexMap<ModuleId, IndexMap<(usize, Namespace), usize>>,
    pub(crate) modules: IndexMap<ModuleId, Listed>,
    /// Who sees slots that turned out to be ambiguous before.
    pub(crate) caps: IndexMap<SlotKey, Visibility>,
    pub(crate) tasks: Vec<Task>,
    pub(crate) reached: Vec<Reach>,
    /// The imports as they were bound, and the globs as they began to read their sources.
    pub(crate) steps: Vec<Step>,
    /// Whether it is known which slots certainly stay empty.
    pub(crate) is_released: bool,
    /// Whether globs bring names although imports of their slots are open.
    pub(crate) ignores_held: bool,
    pub(crate) alloc: Global,
}

/// Hand-written `Drop`, to keep proofs small: dropping one is then a single call.
impl Drop for Search {
    fn drop(self) {
        let Search {
            askers: _askers,
            cells: _cells,
            numbers: _numbers,
            modules: _modules,
            caps: _caps,
            tasks: _tasks,
            reached: _reached,
            steps: _steps,
            is_released: _is_released,
            ignores_held: _ignores_held,
            alloc: _alloc,
        } = self;
    }
}

/// A search that has not begun.
pub(crate) fn unbegun(alloc: Global, caps: IndexMap<SlotKey, Visibility>) -> Search {
    Search {
        askers: Vec::new(alloc),
        cells: Vec::new(alloc),
        numbers: IndexMap::new(alloc),
        modules: IndexMap::new(alloc),
        caps,
        tasks: Vec::new(alloc),
        reached: Vec::new(alloc),
        steps: Vec::new(alloc),
        is_released: false,
        ignores_held: false,
        alloc,
    }
}

impl Search {
    pub(crate) fn cell(&self, slot: usize) -> Option<Cell> {
        self.cells.get(slot).copied()
    }

    pub(crate) fn asker(&self, number: usize) -> Option<Asker> {
        self.askers.get(number).copied()
    }

    pub(crate) fn listed(&self, m: ModuleId) -> Listed {
        match self.modules.get(&m) {
            None => unlisted(),
            Some(listed) => *listed,
        }
    }

    pub(crate) fn list(&mut self, m: ModuleId, listed: Listed) -> Result<(), AllocError> {
        self.modules.insert(m, listed)?;
        Ok(())
    }

    /// The import before one of the same slot, or the glob before one of the same source.
    pub(crate) fn beside(&self, number: usize) -> Option<usize> {
        self.asker(number)?.next_beside
    }

    /// The next one of those that wait where one does.
    pub(crate) fn next_waiter(&self, number: usize) -> Option<usize> {
        self.asker(number)?.next_waiter
    }

    /// The next slot of the module that a slot is in.
    pub(crate) fn next_in_module(&self, slot: usize) -> Option<usize> {
        self.cell(slot)?.next_in_module
    }

    /// What an import brings, if it is bound.
    pub(crate) fn bound_by(&self, number: usize) -> Option<Meaning> {
        match self.asker(number)?.progress {
            Progress::Bound(meaning) => Some(meaning),
            _ => None,
        }
    }

    /// The number of a slot, if it has one.
    fn number_of(&self, key: SlotKey) -> Option<usize> {
        let numbers = self.numbers.get(&key.m)?;
        numbers.get(&(key.name, key.namespace)).copied()
    }

    /// The number of a slot of the crate.
    pub(crate) fn number<M: Maps>(&mut self, maps: &M, key: SlotKey) -> Result<usize, AllocError> {
        match self.number_of(key) {
            Some(slot) => Ok(slot),
            None => {
                let declared = maps.bound(key.m, key.name, key.namespace);
                self.add_cell(key, declared)
            }
        }
    }

    /// Adds a slot. Answers with its number.
    fn add_cell(&mut self, key: SlotKey, declared: Option<Meaning>) -> Result<usize, AllocError> {
        let slot = self.cells.len();
        let listed = self.listed(key.m);
        let cap = self.caps.get(&key).copied();
        self.cells.push(Cell {
            may: listed.any,
            next_in_module: listed.cells,
            ..unbound(key, declared, cap)
        })?;
        self.add_number(key, slot)?;
        let cells = Some(slot);
        self.list(key.m, Listed { cells, ..listed })?;
        Ok(slot)
    }

    /// Gives a slot its number.
    fn add_number(&mut self, key: SlotKey, slot: usize) -> Result<(), AllocError> {
        let name = (key.name, key.namespace);
        match self.numbers.get_mut(&key.m) {
            Some(numbers) => {
                numbers.insert(name, slot)?;
            }
            None => {
                let mut numbers = IndexMap::new(self.alloc);
                numbers.insert(name, slot)?;
                self.numbers.insert(key.m, numbers)?;
            }
        }
        Ok(())
    }

    pub(crate) fn to_do(&mut self, task: Task) -> Result<(), AllocError> {
        self.tasks.push(task)?;
        Ok(())
    }

    /// Has one wait for a change of a slot.
    pub(crate) fn wait(&mut self, number: usize, slot: usize, has_other_way: bool) {
        let Some(cell) = self.cells.get_mut(slot) else {
            return;
        };
        let next = cell.waiters;
        cell.waiters = Some(number);
        if let Some(asker) = self.askers.get_mut(number) {
            asker.waits_at = Some(slot);
            asker.next_waiter = next;
            asker.has_other_way = has_other_way;
        }
    }

    /// Has one ask anew. Answers with the next one that waits.
    fn wake_one(&mut self, number: usize) -> Result<Option<usize>, AllocError> {
        self.to_do(Task::Ask(number))?;
        match self.askers.get_mut(number) {
            None => Ok(None),
            Some(asker) => {
                asker.waits_at = None;
                Ok(asker.next_waiter)
            }
        }
    }

    /// Has those ask anew that wait at a slot.
    pub(crate) fn wake(&mut self, slot: usize) -> Result<(), AllocError> {
        let mut next = None;
        if let Some(cell) = self.cells.get_mut(slot) {
            next = cell.waiters;
            cell.waiters = None;
        }
        for _waiter in 0..self.askers.len() {
            let Some(number) = next else {
                break;
            };
            next = self.wake_one(number)?;
        }
        Ok(())
    }

    /// Has all ask anew that wait.
    pub(crate) fn wake_all(&mut self) -> Result<(), AllocError> {
        for slot in 0..self.cells.len() {
            self.wake(slot)?;
        }
        Ok(())
    }

    /// Whether a path is not followed to its end.
    pub(crate) fn has_open(&self) -> bool {
        for asker in &self.askers {
            if is_open(asker) {
                return true;
            }
        }
        false
    }
}
