//! `Cell`: what is known of a slot while names are searched.

use crate::meaning::Meaning;
use dm_base::ids::ModuleId;
use dm_base::per_ns::Namespace;
use dm_base::visibility::Visibility;

/// A slot: a name of a module, in one namespace. The name is its number among those that were asked for.
#[derive(Clone, Copy, PartialEq, Eq, Hash)]
pub(crate) struct SlotKey {
    pub(crate) m: ModuleId,
    pub(crate) name: usize,
    pub(crate) namespace: Namespace,
}

/// What is known of a slot.
#[derive(Clone, Copy)]
pub(crate) struct Cell {
    pub(crate) key: SlotKey,
    /// What the module declares there.
    pub(crate) declared: Option<Meaning>,
    /// Who sees it, if it turned out to be ambiguous before.
    pub(crate) cap: Option<Visibility>,
    /// The last of its imports.
    pub(crate) imports: Option<usize>,
    /// The first of its imports that bring something.
    pub(crate) bound: Option<usize>,
    /// How many of its imports are open.
    pub(crate) open: usize,
    /// What globs have offered, and the first glob that did.
    pub(crate) offered: Option<Meaning>,
    pub(crate) first_glob: usize,
    /// The least permissive of the visibilities that were offered.
    pub(crate) least: Option<Visibility>,
    /// The first of those that wait for a change here.
    pub(crate) waiters: Option<usize>,
    /// Who may see the slot in the end; none where it certainly stays empty. It holds once names were released.
    pub(crate) may: Option<Visibility>,
    /// The next slot of the module.
    pub(crate) next_in_module: Option<usize>,
}

/// What is known of a module.
#[derive(Clone, Copy)]
pub(crate) struct Listed {
    /// The last of its slots.
    pub(crate) cells: Option<usize>,
    /// The last glob that has it as its source.
    pub(crate) readers: Option<usize>,
    /// Who may see any name in it, where a glob without a source may bring it.
    pub(crate) any: Option<Visibility>,
}

/// A module of which nothing is known.
pub(crate) fn unlisted() -> Listed {
    Listed {
        cells: None,
        readers: None,
        any: None,
    }
}

/// A slot of which nothing is known but what its module declares, and who sees it if it is ambiguous.
pub(crate) fn unbound(key: SlotKey, declared: Option<Meaning>, cap: Option<Visibility>) -> Cell {
    Cell {
        key,
        declared,
        cap,
        imports: None,
        bound: None,
        open: 0,
        offered: None,
        first_glob: 0,
        least: None,
        waiters: None,
        may: None,
        next_in_module: None,
    }
}

/// What globs offer a slot together. One that turned out to be ambiguous before is so from the beginning, and is seen as it
/// turned out.
pub(crate) fn offered(cell: &Cell) -> Option<Meaning> {
    let all = cell.offered?;
    match cell.cap {
        None => Some(all),
        Some(vis) => Some(Meaning {
            vis,
            is_ambiguous: true,
            ..all
        }),
    }
}
