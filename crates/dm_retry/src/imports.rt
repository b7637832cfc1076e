//! A world, a glob table and its unresolved imports.
ghost use Rattle.std.specs.Prelude.{◌≡◌, ◌<◌, ℕ, None, Some, false, true, if◌then◌else◌, IfErr, IfOk, IfSome, OnErr, OnOk, length, map, option_copied, slice_get};
ghost use Rattle.std.specs.Option.{option_map};
ghost use Rattle.dm_retry.specs.Rounds.{added, awoken, would_write_at, finds_nothing, is_due, marked, name_at, pushed_into, refused_at, try_at, unresolved};
ghost use Rattle.dm_retry.specs.Known.{add_fault, comes_by, fault_of, is_listed, unadded};
ghost use Rattle.dm_retry.specs.Retries.{RestsAt};
ghost use Rattle.dm_maps.specs.Pushes.{push_holds};
ghost use Rattle.dm_maps.specs.Known.{KnowsAll};
ghost use Rattle.dm_maps.specs.World.{scope_of};
ghost use Rattle.dm_scope.specs.Push.{push_answer};
ghost use Rattle.dm_retry.specs.Bits.{IsFirst};

mod changes;

use crate::add_fault::AddFault;
use crate::attempt::{attempt, to_push};
use crate::pending::Pending;
use crate::pendings::Pendings;
use dm_base::ids::ModuleId;
use dm_base::imports::{ImportId, ImportOrExternCrate};
use dm_base::name::Name;
use dm_base::per_ns::PerNs;
use dm_maps::world::World;
use dm_scope::glob_imports::PerNsGlobImports;
use hir_def_map::laws::answers_alike;
use std::alloc::{AllocError, Global};
use std::marker::Model;

/// A world, a glob table and its unresolved imports: a try of one that is not due would change nothing.
pub(crate) struct Imports {
    world: World,
    globs: PerNsGlobImports,
    pendings: Pendings,
    alloc: Global,
}

impl Model for Imports {
    ghost use Rattle.dm_retry.specs.Rounds.{State};
    ghost use Rattle.dm_retry.specs.Settled.{IsSettled};

    ghost Value = { State };

    ghost view = { λ s. record { world = s.world; globs = s.globs; pending = s.pendings } };

    ghost invariant = { λ s. IsSettled (record { world = s.world; globs = s.globs; pending = s.pendings }) };
}

/// A hand-written `Drop`, to keep proofs small: what drops one has one call to prove.
impl Drop for Imports {
    fn drop(self) {
        let Imports {
            world: _world,
            globs: _globs,
            pendings: _pendings,
            alloc: _alloc,
        } = self;
    }
}

impl Imports {
    /// Of these parts, with all imports due.
    pub(crate) fn all_due(world: World, globs: PerNsGlobImports, pendings: Vec<Pending>) -> Imports
        requires { fault_of world pendings.items ≡ None }
        ensures { result
            ≡ record { world = world; globs = globs; pending = map (marked true) pendings.items } }
    {
        let alloc = *pendings.allocator();
        Imports {
            world,
            globs,
            pendings: Pendings::all_dirty(pendings),
            alloc,
        }
    }

    /// How many unresolved imports there are.
    pub(crate) fn len(&self) -> usize
        ensures { result ≡ length self.now.pending }
    {
        self.pendings.as_slice().len()
    }

    /// The first due import from place `from` on.
    pub(crate) fn next_due(&self, from: usize) -> Option<usize>
        ensures first { IsFirst (is_due self.now) from result }
        ensures within { IfSome result (λ i. i < length self.now.pending) }
    {
        self.pendings.next_dirty(from)
    }

    /// Whether the import at place i is due, if there is one.
    pub(crate) fn due(&self, i: usize) -> Option<bool>
        ensures value { result ≡ option_map (λ p. p.due) (slice_get self.now.pending i) }
        ensures rests { result ≡ Some false → RestsAt self.now i }
    {
        mark_of(self.pendings.as_slice(), i)
    }

    /// A lemma, as a function without effect that code calls for its proof: a try of an import that is not due changes
    /// nothing.
    pub(crate) fn rests(&self)
        ensures { (k : ℕ) → is_due self.now k ≡ false → RestsAt self.now k }
    {
        let _pendings = &self.pendings;
    }

    /// The import at place i, if there is one.
    pub(crate) fn get(&self, i: usize) -> Option<&Pending>
        ensures { option_copied result ≡ slice_get self.now.pending i }
    {
        self.pendings.as_slice().get(i)
    }

    /// Whether the import at place i is unresolved, if there is one.
    pub(crate) fn is_unresolved(&self, i: usize) -> Option<bool>
        ensures { result ≡ option_map (finds_nothing self.now.world) (slice_get self.now.pending i) }
    {
        let pending = self.get(i)?;
        Some(to_push(&self.world, pending).is_none())
    }

    /// The places of those that are unresolved, in order.
    pub(crate) fn unresolved(&self) -> Result<Vec<usize>, AllocError>
        ensures { IfOk result (λ places. places.items ≡ unresolved self.now) }
    {
        let mut places = Vec::new(self.alloc);
        for i in 0..self.len() {
            if self.is_unresolved(i) == Some(true) {
                places.push(i)?;
            }
        }
        Ok(places)
    }

    /// Tries the import at place i. Where an allocation fails, it is due, and nothing else changes.
    pub(crate) fn try_at(&mut self, i: usize) -> Result<bool, AllocError>
        requires { i < length self.old.pending }
        ensures state { OnOk result (self.new ≡ try_at self.old i) }
        ensures answer { IfOk result (λ answer. answer ≡ would_write_at self.old i) }
        ensures err { OnErr result (self.new ≡ refused_at self.old i) }
    {
        self.pendings.take(i, self.alloc)?;
        let pending = &self.pendings.as_slice()[i];
        match attempt(&mut self.world, &mut self.globs, pending, self.alloc) {
            Err(refused) => {
                self.pendings.put_back(i);
                Err(refused)
            }
            Ok(written) => {
                wake_after(&mut self.pendings, i, written);
                Ok(written)
            }
        }
    }

    /// Pushes into the scope of a module. Where that answers true, each import whose path has the pushed name as a
    /// segment becomes due.
    pub(crate) fn push_res(
        &mut self,
        lookup: (ModuleId, Name),
        res: PerNs,
        import: Option<ImportOrExternCrate>,
    ) -> Result<bool, AllocError>
        requires known { KnowsAll self.old.world (push_holds lookup.0 res import) }
        requires apart { comes_by self.old.pending import ≡ false }
        ensures state { OnOk result (self.new ≡ pushed_into self.old lookup.0 lookup.1 res import) }
        ensures answer { IfOk result
            (λ answer.
            answer
            ≡ push_answer (scope_of self.old.world lookup.0) self.old.globs lookup.0
            lookup.1 res import) }
        ensures err { OnErr result (self.new ≡ self.old) }
    {
        answers_alike();
        let name = lookup.1.copy(self.alloc)?;
        let written = self.world.push_res(&mut self.globs, lookup, res, import)?;
        wake_all(&mut self.pendings, &name, written);
        Ok(written)
    }

    /// Adds an import as the last, which is due. Where it is not added, nothing changes, and it comes back.
    pub(crate) fn add(&mut self, pending: Pending) -> Result<(), (AddFault, Pending)>
        ensures ok { OnOk result (self.new ≡ added self.old pending) }
        ensures none { OnOk result (add_fault self.old.world self.old.pending pending ≡ None) }
        ensures fault { IfErr result (λ e. e.0 ≡ unadded self.old.world self.old.pending pending) }
        ensures err { OnErr result (self.new ≡ self.old) }
        ensures back { IfErr result (λ e. e.1 ≡ pending) }
    {
        match self.add_fault(&pending) {
            Some(fault) => Err((fault, pending)),
            None => match self.pendings.add(pending) {
                Err((_refused, back)) => Err((AddFault::OutOfMemory, back)),
                Ok(()) => Ok(()),
            },
        }
    }

    /// Why an import is not added to these, where memory does not run out.
    fn add_fault(&self, pending: &Pending) -> Option<AddFault>
        ensures { result ≡ add_fault self.now.world self.now.pending pending.now }
    {
        if self.waits_for(pending.import()) {
            Some(AddFault::Double)
        } else if pending.is_known(&self.world) {
            None
        } else {
            Some(AddFault::UnknownPart)
        }
    }

    /// Whether an import is one of these: by a look-up, once one of them was tried.
    pub(crate) fn waits_for(&self, import: ImportId) -> bool
        ensures { result ≡ is_listed self.now.pending import }
    {
        self.pendings.has(import)
    }

    /// The world.
    pub(crate) fn world(&self) -> &World
        ensures { result.now ≡ self.now.world }
    {
        &self.world
    }

    /// The parts.
    pub(crate) fn into_parts(self) -> (World, PerNsGlobImports, Vec<Pending>)
        ensures world { result.0 ≡ self.world }
        ensures globs { result.1 ≡ self.globs }
        ensures pending { result.2.items ≡ self.pending }
    {
        let Imports {
            world,
            globs,
            pendings,
            alloc: _alloc,
        } = self;
        (world, globs, pendings.into_imports())
    }
}

/// Whether the import at place i is due, if there is one.
fn mark_of(pendings: &[Pending], i: usize) -> Option<bool>
    ensures { result ≡ option_map (λ p. p.due) (slice_get pendings.now i) }
{
    pendings.get(i).map(|pending| pending.is_due())
}

/// After a try of the import at place i that wrote, each import whose path has its name as a segment becomes due.
fn wake_after(pendings: &mut Pendings, i: usize, written: bool)
    requires { i < length pendings.old }
    ensures { pendings.new
        ≡ (if written then map (awoken (name_at pendings.old i)) pendings.old else pendings.old) }
{
    if written {
        pendings.wake_by(i);
    }
}

/// After a push of that name that wrote, each import whose path has it as a segment becomes due.
fn wake_all(pendings: &mut Pendings, name: &Name, written: bool)
    ensures { pendings.new ≡ (if written then map (awoken name.now) pendings.old else pendings.old) }
{
    if !written {
        return;
    }
    pendings.wake(name);
}
