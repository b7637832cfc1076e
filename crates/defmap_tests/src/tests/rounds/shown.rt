//! What a run of a world shows.
use dm_base::ids::{Crate, ModuleId};
use dm_base::name::Name;
use dm_base::per_ns::PerNs;
use dm_maps::world::World;
use dm_maps::world::maps_of::{AskWorld, crate_def_map};
use dm_retry::retry::Retry;
use std::alloc::Global;

/// What pushes, additions and rounds answered, and after each round the dump of the crate's map, what each module binds
/// under each name, and which imports are unresolved or due.
pub(crate) struct Shown {
    answers: Vec<bool>,
    dumps: String,
    bound: Vec<PerNs>,
    unresolved: Vec<usize>,
    due: Vec<Option<bool>>,
}

/// A hand-written `Drop`, to keep proofs small: what drops one has one call to prove.
impl Drop for Shown {
    fn drop(self) {
        let Shown {
            answers: _answers,
            dumps: _dumps,
            bound: _bound,
            unresolved: _unresolved,
            due: _due,
        } = self;
    }
}

impl Shown {
    /// Nothing yet.
    pub(crate) fn new(alloc: Global) -> Shown {
        Shown {
            answers: Vec::new(alloc),
            dumps: String::new(alloc),
            bound: Vec::new(alloc),
            unresolved: Vec::new(alloc),
            due: Vec::new(alloc),
        }
    }

    /// Adds an answer; none where memory runs out.
    pub(crate) fn answer(&mut self, answer: bool) -> Option<()> {
        self.answers.push(answer).ok()
    }

    /// Adds the state of a world with its imports.
    pub(crate) fn state(&mut self, alloc: Global, retry: &Retry) -> Option<()> {
        self.dump(retry.world())?;
        for m in 0..4u32 {
            self.module(alloc, retry.world(), ModuleId(m))?;
        }
        self.imports(retry)
    }

    fn dump(&mut self, world: &World) -> Option<()> {
        if !world.has_crate(Crate(0)) {
            return None;
        }
        let dump = crate_def_map(world, Crate(0)).dump(world).ok()?;
        self.dumps.push_str(dump.as_str()).ok()
    }

    fn module(&mut self, alloc: Global, world: &World, m: ModuleId) -> Option<()> {
        for name in ["a", "b", "c", "x", "y"] {
            let name = Name::new(alloc, name).ok()?;
            self.bound.push(world.bound_in(m, &name)).ok()?;
        }
        Some(())
    }

    fn imports(&mut self, retry: &Retry) -> Option<()> {
        let places = retry.unresolved().ok()?;
        self.unresolved.extend_from_slice(places.as_slice()).ok()?;
        self.unresolved.push(places.len()).ok()?;
        for i in 0..retry.len() {
            self.due.push(retry.due(i)).ok()?;
        }
        Some(())
    }

    /// Whether two runs show the same.
    pub(crate) fn is_same(&self, other: &Shown) -> bool {
        self.answers.as_slice() == other.answers.as_slice()
            && self.dumps.as_str() == other.dumps.as_str()
            && self.bound.as_slice() == other.bound.as_slice()
            && self.unresolved.as_slice() == other.unresolved.as_slice()
            && self.due.as_slice() == other.due.as_slice()
    }
}
