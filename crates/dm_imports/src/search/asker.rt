//! `Asker`: an import in one namespace, or a glob, on the way to what its path means.

use crate::container::Container;
use crate::meaning::{Meaning, Source};
use crate::search::leaf::Leaf;
use crate::step::Step;
use dm_base::ids::ModuleId;
use dm_base::visibility::Visibility;

/// How far it is.
#[derive(Clone, Copy)]
pub(crate) enum Progress {
    /// Its path means nothing yet.
    Open,
    /// An import that brings something.
    Bound(Meaning),
    /// A glob with its source.
    Reads(Container),
    /// It brings nothing.
    Closed,
}

/// An import in one namespace, or a glob.
#[derive(Clone, Copy)]
pub(crate) struct Asker {
    pub(crate) step: Step,
    /// Its number among the imports and globs of the crate.
    pub(crate) leaf: usize,
    /// The module that it stands in.
    pub(crate) home: ModuleId,
    /// Who may see what it brings, at most.
    pub(crate) vis: Visibility,
    pub(crate) source: Source,
    /// The slot that it binds; none where it is a glob.
    pub(crate) slot: Option<usize>,
    pub(crate) progress: Progress,
    /// The slot that it waits at.
    pub(crate) waits_at: Option<usize>,
    /// The next one of those that wait there.
    pub(crate) next_waiter: Option<usize>,
    /// The import before it of the same slot, or the glob before it of the same source.
    pub(crate) next_beside: Option<usize>,
    /// Whether a name around its module is left to it where the slot that it waits at gets nothing.
    pub(crate) has_other_way: bool,
}

/// One whose path is still to be followed.
pub(crate) fn begun(step: Step, number: usize, leaf: &Leaf) -> Asker {
    Asker {
        step,
        leaf: number,
        home: leaf.home,
        vis: leaf.vis,
        source: leaf.source,
        slot: None,
        progress: Progress::Open,
        waits_at: None,
        next_waiter: None,
        next_beside: None,
        has_other_way: false,
    }
}

/// Whether its path may still lead somewhere.
pub(crate) fn is_open(asker: &Asker) -> bool {
    matches!(asker.progress, Progress::Open)
}
