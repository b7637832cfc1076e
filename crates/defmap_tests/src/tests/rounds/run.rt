//! One run of a small world: pushes, additions and rounds, as they are drawn from its seed.
use crate::tests::rounds::random::Random;
use crate::tests::rounds::shown::Shown;
use crate::tests::rounds::small_world::small_world;
use dm_base::ids::ModuleId;
use dm_base::imports::{GlobId, ImportOrExternCrate};
use dm_base::name::Name;
use dm_base::per_ns::PerNs;
use dm_retry::pending::Pending;
use dm_retry::retry::Retry;
use dm_scope::glob_imports::PerNsGlobImports;
use std::alloc::Global;

/// The number before that of the first import that is added: those before it are at most four.
const FIRST_ADDED: u32 = 3;

/// What a run did, how many of its pushes answered true, and how many imports it left unresolved.
#[derive(Clone, Copy)]
pub(crate) struct Counts {
    pub(crate) rounds: u64,
    pub(crate) pushes: u64,
    pub(crate) written: u64,
    pub(crate) additions: u64,
    pub(crate) unresolved: u64,

    /// One where the last round answered true.
    pub(crate) unsettled: u64,
}

/// A world under way, and what it has shown so far.
pub(crate) struct Run {
    retry: Retry,
    random: Random,
    next: u32,
    of_all: bool,
    shown: Shown,
    counts: Counts,
}

/// A hand-written `Drop`, to keep proofs small: what drops one has one call to prove.
impl Drop for Run {
    fn drop(self) {
        let Run {
            retry: _retry,
            random: _random,
            next: _next,
            of_all: _of_all,
            shown: _shown,
            counts: _counts,
        } = self;
    }
}

impl Counts {
    /// Of nothing.
    pub(crate) fn none() -> Counts {
        Counts {
            rounds: 0,
            pushes: 0,
            written: 0,
            additions: 0,
            unresolved: 0,
            unsettled: 0,
        }
    }

    /// Of two runs.
    pub(crate) fn plus(self, other: Counts) -> Counts {
        Counts {
            rounds: self.rounds.wrapping_add(other.rounds),
            pushes: self.pushes.wrapping_add(other.pushes),
            written: self.written.wrapping_add(other.written),
            additions: self.additions.wrapping_add(other.additions),
            unresolved: self.unresolved.wrapping_add(other.unresolved),
            unsettled: self.unsettled.wrapping_add(other.unsettled),
        }
    }

    /// Whether there are more than so many of each thing that runs do, and runs of each kind.
    pub(crate) fn reach_all(self, count: u64) -> bool {
        let does_much = self.rounds > count && self.pushes > count && self.written > count;
        does_much && self.additions > count && self.unresolved > 0 && self.unsettled > 0
    }
}

/// Declares items in a module.
fn declare(retry: &mut Retry, lookup: (ModuleId, Name), items: PerNs) -> Option<bool> {
    if !retry.world().knows_res(lookup.0, &items, None) {
        return None;
    }
    retry.push_res(lookup, items, None).ok()
}

/// Brings items into a module by a glob.
fn bring(retry: &mut Retry, lookup: (ModuleId, Name), items: PerNs, glob: GlobId) -> Option<bool> {
    let import = Some(ImportOrExternCrate::Glob(glob));
    if !retry.world().knows_res(lookup.0, &items, import) {
        return None;
    }
    retry.push_res(lookup, items, import).ok()
}

/// Adds an import; whether it was.
fn add(retry: &mut Retry, pending: Pending) -> bool {
    match retry.add(pending) {
        Ok(()) => true,
        Err((_fault, _pending)) => false,
    }
}

/// The first imports, one to four of them.
fn first_imports(alloc: Global, random: &mut Random) -> Option<Vec<Pending>> {
    let mut pendings = Vec::new(alloc);
    for number in 0..=random.below(4) {
        pendings.push(random.import(alloc, number)?).ok()?;
    }
    Some(pendings)
}

/// The world with its first imports.
fn first_state(alloc: Global, random: &mut Random) -> Option<Retry> {
    let mut globs = PerNsGlobImports::new(alloc);
    let world = small_world(alloc, &mut globs)?;
    let pendings = first_imports(alloc, random)?;
    Retry::new(world, globs, pendings).ok()
}

impl Run {
    /// The world of a seed.
    fn new(alloc: Global, seed: u32, of_all: bool) -> Option<Run> {
        let mut random = Random::new(seed);
        let retry = first_state(alloc, &mut random)?;
        Some(Run {
            retry,
            random,
            next: FIRST_ADDED,
            of_all,
            shown: Shown::new(alloc),
            counts: Counts::none(),
        })
    }

    /// Notes what a push answered.
    fn pushed(&mut self, written: bool) -> Option<()> {
        self.counts.pushes = self.counts.pushes.wrapping_add(1);
        if written {
            self.counts.written = self.counts.written.wrapping_add(1);
        }
        self.shown.answer(written)
    }

    /// Declares something.
    fn declare(&mut self, alloc: Global) -> Option<()> {
        let lookup = (self.random.module(), self.random.name(alloc)?);
        let items = self.random.items();
        let written = declare(&mut self.retry, lookup, items)?;
        self.pushed(written)
    }

    /// What a glob brings under a name: what a module binds under it, or else something new.
    fn globbed(&mut self, name: &Name) -> PerNs {
        let from = self.random.module();
        let items = self.random.items();
        let bound = self.retry.world().bound_in(from, name);
        if bound.is_none() { items } else { bound }
    }

    /// Brings something by a glob.
    fn bring(&mut self, alloc: Global) -> Option<()> {
        let name = self.random.name(alloc)?;
        let items = self.globbed(&name);
        let lookup = (self.random.module(), name);
        let glob = self.random.glob();
        let written = bring(&mut self.retry, lookup, items, glob)?;
        self.pushed(written)
    }

    /// The number of the next import: a new one, or now and then the first one's, which is refused.
    fn next_number(&mut self) -> u32 {
        if self.random.below(8) == 0 {
            return 0;
        }
        self.next = self.next.wrapping_add(1);
        self.next
    }

    /// Adds an import.
    fn add(&mut self, alloc: Global) -> Option<()> {
        let number = self.next_number();
        let pending = self.random.import(alloc, number)?;
        let is_added = add(&mut self.retry, pending);
        if is_added {
            self.counts.additions = self.counts.additions.wrapping_add(1);
        }
        self.shown.answer(is_added)
    }

    /// A push or an addition.
    fn step(&mut self, alloc: Global) -> Option<()> {
        match self.random.below(3) {
            0 => self.declare(alloc),
            1 => self.bring(alloc),
            _ => self.add(alloc),
        }
    }

    /// A round of the kind under test.
    fn round(&mut self, alloc: Global) -> Option<bool> {
        let written = if self.of_all {
            self.retry.round_all().ok()?
        } else {
            self.retry.round_changed().ok()?
        };
        self.counts.rounds = self.counts.rounds.wrapping_add(1);
        self.shown.answer(written)?;
        self.shown.state(alloc, &self.retry)?;
        Some(written)
    }

    /// Some pushes and additions, and a round.
    fn phase(&mut self, alloc: Global) -> Option<()> {
        for _ in 0..self.random.below(7) {
            self.step(alloc)?;
        }
        let _written = self.round(alloc)?;
        Some(())
    }

    /// Three to six phases.
    fn phases(&mut self, alloc: Global) -> Option<()> {
        for _ in 0..self.random.below(4).wrapping_add(3) {
            self.phase(alloc)?;
        }
        Some(())
    }

    /// Rounds until one answers false, eight at most; whether one did. Some imports never settle.
    fn settle(&mut self, alloc: Global) -> Option<bool> {
        for _ in 0..8u32 {
            if !self.round(alloc)? {
                return Some(true);
            }
        }
        Some(false)
    }

    /// All of it.
    fn whole(&mut self, alloc: Global) -> Option<()> {
        self.phases(alloc)?;
        if !self.settle(alloc)? {
            self.counts.unsettled = 1;
        }
        self.counts.unresolved = self.retry.unresolved().ok()?.len() as u64;
        Some(())
    }

    /// What the run showed, and what it did.
    fn ended(self) -> (Shown, Counts) {
        let Run {
            retry: _retry,
            random: _random,
            next: _next,
            of_all: _of_all,
            shown,
            counts,
        } = self;
        (shown, counts)
    }
}

/// The run of a seed, by rounds of all or of what changed; none where memory runs out.
pub(crate) fn run_world(alloc: Global, seed: u32, of_all: bool) -> Option<(Shown, Counts)> {
    let mut run = Run::new(alloc, seed, of_all)?;
    run.whole(alloc)?;
    Some(run.ended())
}
