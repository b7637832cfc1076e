//! What a slot shows while names are searched.

use crate::meaning::Meaning;
use crate::search::asker::is_open;
use crate::search::cell::{Cell, offered};
use crate::search::maps::Maps;
use crate::search::state::Search;
use crate::step::Step;
use dm_base::ids::ModuleId;
use dm_base::per_ns::Namespace;

/// Who asks for a slot: from a module, and as which import or glob.
#[derive(Clone, Copy)]
pub(crate) struct Who {
    pub(crate) home: ModuleId,
    pub(crate) number: Option<usize>,
}

/// What a path comes to.
#[derive(Clone, Copy)]
pub(crate) enum Found {
    /// A meaning; where it may still change, in that slot.
    Is(Meaning, Option<usize>),
    /// Certainly nothing.
    Nothing,
    /// Nothing yet: that slot may still get something. The flag tells whether a name around the module is left then.
    Waits(usize, bool),
}

/// What imports bring to a slot.
#[derive(Clone, Copy)]
pub(crate) enum Named {
    Is(Meaning),
    /// An import may still bring something.
    Held,
    Nothing,
}

/// The place of a namespace among all.
fn position_of(namespace: Namespace) -> usize {
    match namespace {
        Namespace::Types => 0,
        Namespace::Values => 1,
        Namespace::Macros => 2,
    }
}

/// A certain meaning, or certainly nothing.
pub(crate) fn certain(meaning: Option<Meaning>) -> Found {
    match meaning {
        None => Found::Nothing,
        Some(meaning) => Found::Is(meaning, None),
    }
}

/// What is certain, where it is seen.
pub(crate) fn if_seen<M: Maps>(maps: &M, home: ModuleId, meaning: Option<Meaning>) -> Found {
    match meaning {
        Some(seen) if maps.sees(home, seen.vis) => Found::Is(seen, None),
        _ => Found::Nothing,
    }
}

/// What is seen of what imports or globs bring to a slot: what is not seen yet may be.
pub(crate) fn seen_in<M: Maps>(maps: &M, home: ModuleId, slot: usize, meaning: Meaning) -> Found {
    if maps.sees(home, meaning.vis) {
        Found::Is(meaning, Some(slot))
    } else {
        Found::Waits(slot, false)
    }
}

impl Search {
    /// The number that an import has in another namespace, if it may bring something there.
    fn number_in(&self, number: usize, namespace: Namespace) -> Option<usize> {
        let Step::Import(place, own) = self.asker(number)?.step else {
            return None;
        };
        let first = number.saturating_sub(position_of(own));
        let other = first.saturating_add(position_of(namespace));
        if self.asker(other)?.step == Step::Import(place, namespace) {
            Some(other)
        } else {
            None
        }
    }

    /// What the first import of a slot brings but for one, by the last of its imports.
    fn bound_beside(&self, own: usize, last: Option<usize>) -> Option<Meaning> {
        let mut next = last;
        let mut found = None;
        for _import in 0..self.askers.len() {
            let Some(number) = next else {
                break;
            };
            if number != own {
                found = self.bound_by(number).or(found);
            }
            next = self.beside(number);
        }
        found
    }

    /// What imports bring to a slot but for one.
    fn bound_in(&self, own: Option<usize>, cell: &Cell) -> Option<Meaning> {
        let first = cell.bound?;
        if own == Some(first) {
            self.bound_beside(first, cell.imports)
        } else {
            self.bound_by(first)
        }
    }

    /// Whether that one is an open import of the slot itself.
    fn is_open_at(&self, own: Option<usize>, slot: usize) -> bool {
        let Some(number) = own else {
            return false;
        };
        match self.asker(number) {
            None => false,
            Some(asker) => asker.slot == Some(slot) && is_open(&asker),
        }
    }

    /// What imports bring to a slot, or may still bring. An import does not see what it brings itself.
    pub(crate) fn named(&self, who: Who, slot: usize, cell: &Cell) -> Named {
        let own = match who.number {
            None => None,
            Some(number) => self.number_in(number, cell.key.namespace),
        };
        if let Some(meaning) = self.bound_in(own, cell) {
            return Named::Is(meaning);
        }
        let own_count = if self.is_open_at(own, slot) { 1 } else { 0 };
        if cell.open > own_count && !self.ignores_held {
            Named::Held
        } else {
            Named::Nothing
        }
    }

    /// What globs bring to a slot, or may still bring.
    pub(crate) fn by_globs<M: Maps>(
        &self,
        maps: &M,
        home: ModuleId,
        slot: usize,
        cell: &Cell,
    ) -> Found {
        match offered(cell) {
            Some(meaning) => seen_in(maps, home, slot, meaning),
            None => {
                if self.is_released && cell.may.is_none() {
                    Found::Nothing
                } else {
                    Found::Waits(slot, false)
                }
            }
        }
    }

    /// What a slot shows.
    pub(crate) fn shown<M: Maps>(&self, maps: &M, who: Who, slot: usize) -> Found {
        let Some(cell) = self.cell(slot) else {
            return Found::Nothing;
        };
        if cell.declared.is_some() {
            return if_seen(maps, who.home, cell.declared);
        }
        match self.named(who, slot, &cell) {
            Named::Is(meaning) => seen_in(maps, who.home, slot, meaning),
            Named::Held => Found::Waits(slot, false),
            Named::Nothing => self.by_globs(maps, who.home, slot, &cell),
        }
    }
}
