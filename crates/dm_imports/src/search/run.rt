//! How names are searched: paths are followed as far as they lead; where none leads further, what certainly does not come
//! is released; at last globs bring names although imports of their slots are open.

use crate::meaning::Meaning;
use crate::search::asker::{Asker, Progress, begun};
use crate::search::cell::{Cell, SlotKey};
use crate::search::leaf::{Binds, Leaf, name_in};
use crate::search::maps::Maps;
use crate::search::offers::NAMESPACES;
use crate::search::state::{Search, Task};
use crate::step::Step;
use dm_base::per_ns::Namespace;
use std::alloc::AllocError;

impl Search {
    /// Adds one who asks.
    fn add_asker(&mut self, asker: Asker) -> Result<(), AllocError> {
        let number = self.askers.len();
        self.askers.push(asker)?;
        self.to_do(Task::Ask(number))
    }

    /// Adds an import in a namespace.
    fn add_import_in<M: Maps>(
        &mut self,
        maps: &M,
        asker: Asker,
        name: usize,
        namespace: Namespace,
    ) -> Result<(), AllocError> {
        let m = asker.home;
        let slot = self.number(maps, SlotKey { m, name, namespace })?;
        let number = self.askers.len();
        let mut next_beside = None;
        if let Some(cell) = self.cells.get_mut(slot) {
            next_beside = cell.imports;
            cell.imports = Some(number);
            cell.open = cell.open.saturating_add(1);
        }
        self.add_asker(Asker {
            slot: Some(slot),
            next_beside,
            ..asker
        })
    }

    /// Adds an import.
    fn add_import<M: Maps>(
        &mut self,
        maps: &M,
        number: usize,
        leaf: &Leaf,
    ) -> Result<(), AllocError> {
        for namespace in NAMESPACES {
            if let Some(name) = name_in(leaf.binds, namespace) {
                let step = Step::Import(leaf.place, namespace);
                self.add_import_in(maps, begun(step, number, leaf), name, namespace)?;
            }
        }
        Ok(())
    }

    /// Adds the imports and globs of the crate, in order.
    fn add_all<M: Maps>(&mut self, maps: &M) -> Result<(), AllocError> {
        for (number, leaf) in maps.leaves().iter().enumerate() {
            match leaf.binds {
                Binds::Names => self.add_asker(begun(Step::Glob(leaf.place), number, leaf))?,
                _ => self.add_import(maps, number, leaf)?,
            }
        }
        Ok(())
    }

    /// Does all that is to be done.
    fn do_tasks<M: Maps>(&mut self, maps: &mut M) -> Result<(), AllocError> {
        for _task in 0..u64::MAX {
            match self.tasks.pop() {
                None => break,
                Some(task) => self.do_task(maps, task)?,
            }
        }
        Ok(())
    }

    /// Has what globs bring be looked at where imports of the slot are open.
    fn renew_held(&mut self) -> Result<(), AllocError> {
        for slot in 0..self.cells.len() {
            if matches!(self.cell(slot), Some(Cell { open: 1.., .. })) {
                self.to_do(Task::Cell(slot))?;
            }
        }
        Ok(())
    }

    /// Releases what certainly does not come, or else has globs bring names although imports of their slots are open.
    fn go_on<M: Maps>(&mut self, maps: &M) -> Result<(), AllocError> {
        let was_released = self.is_released;
        let is_any_closed = self.release(maps)?;
        if was_released && !is_any_closed {
            self.ignores_held = true;
            self.renew_held()?;
        }
        Ok(())
    }

    /// Searches what the imports and globs of the crate bring.
    pub(crate) fn run<M: Maps>(&mut self, maps: &mut M) -> Result<(), AllocError> {
        self.add_all(maps)?;
        for _turn in 0..u64::MAX {
            self.do_tasks(maps)?;
            if self.ignores_held || !self.has_open() {
                break;
            }
            self.go_on(maps)?;
        }
        if self.has_ambiguous() {
            self.count_least(maps)?;
        }
        Ok(())
    }

    /// Whether globs offer a slot more than one meaning.
    fn has_ambiguous(&self) -> bool {
        for cell in &self.cells {
            if matches!(
                cell.offered,
                Some(Meaning {
                    is_ambiguous: true,
                    ..
                })
            ) {
                return true;
            }
        }
        false
    }

    /// Makes out anew how far each slot is seen of which globs offer more than one meaning.
    fn count_least<M: Maps>(&mut self, maps: &mut M) -> Result<(), AllocError> {
        for cell in self.cells.iter_mut() {
            cell.least = None;
        }
        for number in 0..self.askers.len() {
            let Some(asker) = self.asker(number) else {
                break;
            };
            if let Progress::Reads(source) = asker.progress {
                self.offer_all(maps, number, &asker, source)?;
            }
        }
        Ok(())
    }
}
