//! Which slots may still get something, while names are searched: an import that no way leads to is closed.

use crate::search::asker::is_open;
use crate::search::cell::{Cell, Listed, SlotKey};
use crate::search::maps::Maps;
use crate::search::state::{Reach, Search};
use dm_base::ids::ModuleId;
use dm_base::visibility::Visibility;
use std::alloc::AllocError;

/// The most permissive of a visibility, if there is one, and another.
fn most_with<M: Maps>(
    maps: &M,
    m: ModuleId,
    before: Option<Visibility>,
    vis: Visibility,
) -> Visibility {
    match before {
        None => vis,
        Some(before) => maps.most(m, before, vis),
    }
}

impl Search {
    /// Forgets which slots may get something.
    fn forget(&mut self) {
        for cell in self.cells.iter_mut() {
            cell.may = None;
        }
        for (_m, listed) in self.modules.iter_mut() {
            listed.any = None;
        }
    }

    /// A slot may get something that is seen so.
    fn reach<M: Maps>(&mut self, maps: &M, slot: usize, vis: Visibility) -> Result<(), AllocError> {
        let Some(cell) = self.cells.get_mut(slot) else {
            return Ok(());
        };
        let together = Some(most_with(maps, cell.key.m, cell.may, vis));
        if cell.may == together {
            return Ok(());
        }
        cell.may = together;
        self.reached.push(Reach::Cell(slot))?;
        Ok(())
    }

    /// Any name of a module may get something that is seen so.
    fn reach_module<M: Maps>(
        &mut self,
        maps: &M,
        m: ModuleId,
        vis: Visibility,
    ) -> Result<(), AllocError> {
        let listed = self.listed(m);
        let any = Some(most_with(maps, m, listed.any, vis));
        if listed.any == any {
            return Ok(());
        }
        self.list(m, Listed { any, ..listed })?;
        self.reached.push(Reach::Module(m))?;
        Ok(())
    }

    /// Who sees what a slot has already.
    fn has_already<M: Maps>(&self, maps: &M, cell: &Cell) -> Option<Visibility> {
        if let Some(declared) = cell.declared {
            return Some(declared.vis);
        }
        let by_import = self.bound_vis(cell.bound);
        match (by_import, cell.offered) {
            (Some(vis), Some(all)) => Some(maps.most(cell.key.m, vis, all.vis)),
            (None, Some(all)) => Some(all.vis),
            (vis, None) => vis,
        }
    }

    /// Who sees what an import brings, if it is bound.
    fn bound_vis(&self, number: Option<usize>) -> Option<Visibility> {
        let meaning = self.bound_by(number?)?;
        Some(meaning.vis)
    }

    /// Reaches the slots that have something already.
    fn reach_bound<M: Maps>(&mut self, maps: &M) -> Result<(), AllocError> {
        for slot in 0..self.cells.len() {
            let Some(cell) = self.cell(slot) else {
                break;
            };
            if let Some(vis) = self.has_already(maps, &cell) {
                self.reach(maps, slot, vis)?;
            }
        }
        Ok(())
    }

    /// Reaches what one brings that is open: the slot of an import, or any name of a glob's module.
    fn reach_by<M: Maps>(&mut self, maps: &M, number: usize) -> Result<(), AllocError> {
        let Some(asker) = self.asker(number) else {
            return Ok(());
        };
        if !is_open(&asker) {
            return Ok(());
        }
        match asker.slot {
            Some(slot) => self.reach(maps, slot, asker.vis),
            None => self.reach_module(maps, asker.home, asker.vis),
        }
    }

    /// Reaches what those bring to whom a name around their modules is left.
    fn reach_by_other_ways<M: Maps>(&mut self, maps: &M) -> Result<(), AllocError> {
        for number in 0..self.askers.len() {
            let Some(asker) = self.asker(number) else {
                break;
            };
            if asker.has_other_way {
                self.reach_by(maps, number)?;
            }
        }
        Ok(())
    }

    /// Who may see a slot in the end, if it may get something.
    fn may_be_at(&self, slot: Option<usize>) -> Option<Visibility> {
        self.cell(slot?)?.may
    }

    /// Whether one sees what may be where it waits.
    fn has_way<M: Maps>(&self, maps: &M, number: usize) -> bool {
        let Some(asker) = self.asker(number) else {
            return false;
        };
        if asker.has_other_way {
            return true;
        }
        match self.may_be_at(asker.waits_at) {
            None => false,
            Some(vis) => maps.sees(asker.home, vis),
        }
    }

    /// Reaches what those bring that wait at a slot.
    fn reach_waiters<M: Maps>(&mut self, maps: &M, first: Option<usize>) -> Result<(), AllocError> {
        let mut next = first;
        for _waiter in 0..self.askers.len() {
            let Some(number) = next else {
                break;
            };
            if self.has_way(maps, number) {
                self.reach_by(maps, number)?;
            }
            next = self.next_waiter(number);
        }
        Ok(())
    }

    /// Reaches, by a glob, what it offers of a slot. Answers with the next glob of its source.
    fn reach_offered<M: Maps>(
        &mut self,
        maps: &M,
        number: usize,
        from: SlotKey,
        may: Visibility,
    ) -> Result<Option<usize>, AllocError> {
        let Some(glob) = self.asker(number) else {
            return Ok(None);
        };
        let m = glob.home;
        if maps.sees(m, may) {
            let slot = self.number(maps, SlotKey { m, ..from })?;
            self.reach(maps, slot, maps.least(m, glob.vis, may))?;
        }
        Ok(glob.next_beside)
    }

    /// Reaches what globs offer of a slot.
    fn reach_readers<M: Maps>(
        &mut self,
        maps: &M,
        from: SlotKey,
        may: Visibility,
    ) -> Result<(), AllocError> {
        let mut next = self.listed(from.m).readers;
        for _reader in 0..self.askers.len() {
            let Some(number) = next else {
                break;
            };
            next = self.reach_offered(maps, number, from, may)?;
        }
        Ok(())
    }

    /// Reaches what a slot leads to.
    fn spread_cell<M: Maps>(&mut self, maps: &M, slot: usize) -> Result<(), AllocError> {
        let Some(cell) = self.cell(slot) else {
            return Ok(());
        };
        let Some(may) = cell.may else {
            return Ok(());
        };
        self.reach_waiters(maps, cell.waiters)?;
        self.reach_readers(maps, cell.key, may)
    }

    /// Reaches all slots of a module.
    fn reach_all_of<M: Maps>(
        &mut self,
        maps: &M,
        first: Option<usize>,
        vis: Visibility,
    ) -> Result<(), AllocError> {
        let mut next = first;
        for _slot in 0..self.cells.len() {
            let Some(slot) = next else {
                break;
            };
            let Some(cell) = self.cell(slot) else {
                break;
            };
            if cell.declared.is_none() {
                self.reach(maps, slot, vis)?;
            }
            next = cell.next_in_module;
        }
        Ok(())
    }

    /// Reaches, by a glob, any name of its module. Answers with the next glob of its source.
    fn reach_any<M: Maps>(
        &mut self,
        maps: &M,
        number: usize,
        any: Visibility,
    ) -> Result<Option<usize>, AllocError> {
        let Some(glob) = self.asker(number) else {
            return Ok(None);
        };
        if maps.sees(glob.home, any) {
            let vis = maps.least(glob.home, glob.vis, any);
            self.reach_module(maps, glob.home, vis)?;
        }
        Ok(glob.next_beside)
    }

    /// Reaches what any name of a module leads to.
    fn spread_module<M: Maps>(&mut self, maps: &M, m: ModuleId) -> Result<(), AllocError> {
        let listed = self.listed(m);
        let Some(any) = listed.any else {
            return Ok(());
        };
        self.reach_all_of(maps, listed.cells, any)?;
        let mut next = listed.readers;
        for _reader in 0..self.askers.len() {
            let Some(number) = next else {
                break;
            };
            next = self.reach_any(maps, number, any)?;
        }
        Ok(())
    }

    /// Reaches all that what was reached leads to.
    fn spread<M: Maps>(&mut self, maps: &M) -> Result<(), AllocError> {
        for _step in 0..u64::MAX {
            match self.reached.pop() {
                None => break,
                Some(Reach::Cell(slot)) => self.spread_cell(maps, slot)?,
                Some(Reach::Module(m)) => self.spread_module(maps, m)?,
            }
        }
        Ok(())
    }

    /// Closes the imports that no way leads to. Answers whether there were any.
    fn close_lost<M: Maps>(&mut self, maps: &M) -> Result<bool, AllocError> {
        let mut is_any_closed = false;
        for number in 0..self.askers.len() {
            if self.is_open_import(number) && !self.has_way(maps, number) {
                self.close(number)?;
                is_any_closed = true;
            }
        }
        Ok(is_any_closed)
    }

    fn is_open_import(&self, number: usize) -> bool {
        match self.asker(number) {
            None => false,
            Some(asker) => asker.slot.is_some() && is_open(&asker),
        }
    }

    /// Makes out anew which slots may get something, and closes the imports that no way leads to. Answers whether there
    /// were any.
    pub(crate) fn release<M: Maps>(&mut self, maps: &M) -> Result<bool, AllocError> {
        self.forget();
        self.reach_bound(maps)?;
        self.reach_by_other_ways(maps)?;
        self.spread(maps)?;
        let is_any_closed = self.close_lost(maps)?;
        self.is_released = true;
        self.wake_all()?;
        Ok(is_any_closed)
    }
}
