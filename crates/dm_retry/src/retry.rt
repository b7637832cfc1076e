//! The unresolved imports of a world, resolved round by round until a fixed point.
ghost use Rattle.std.specs.Prelude.{◌≡◌, false, IfErr, IfOk, None, OnErr, OnOk, Some, length, map, slice_get, true};
ghost use Rattle.std.specs.Option.{option_map};
ghost use Rattle.dm_maps.specs.Pushes.{push_holds};
ghost use Rattle.dm_maps.specs.Known.{KnowsAll};
ghost use Rattle.dm_maps.specs.World.{scope_of};
ghost use Rattle.dm_scope.specs.Push.{push_answer};
ghost use Rattle.dm_retry.specs.Known.{add_fault, comes_by, fault_of, refusal, unadded};
ghost use Rattle.dm_retry.specs.Rounds.{added, due_turns, marked, pushed_into, round, round_answer};
ghost use Rattle.dm_retry.specs.Retries.{NoneDue, RestsAt, StopsAt, StopsAtDue};
ghost use Rattle.dm_retry.specs.Settling.{IsFixedPoint};

mod changes;

use crate::add_fault::AddFault;
use crate::doubles::find_fault;
use crate::imports::Imports;
use crate::pending::{Pending, first_double, first_unknown};
use crate::retry_fault::RetryFault;
use crate::rounds::{try_all, try_due};
use dm_base::ids::ModuleId;
use dm_base::imports::ImportOrExternCrate;
use dm_base::name::Name;
use dm_base::per_ns::PerNs;
use dm_maps::world::World;
use dm_scope::glob_imports::PerNsGlobImports;
use std::alloc::AllocError;
use std::marker::Model;

/// A world, a glob table, and its unresolved imports (docs/RULES.md, "Rounds").
pub struct Retry {
    imports: Imports,
    last_tries: usize,
}

impl Model for Retry {
    ghost use Rattle.dm_retry.specs.Retries.{Retries};

    ghost Value = { Retries };

    ghost view = { λ r. record { state = r.imports; last_tries = r.last_tries } };
}

/// A hand-written `Drop`, to keep proofs small: what drops one has one call to prove.
impl Drop for Retry {
    fn drop(self) {
        let Retry {
            imports: _imports,
            last_tries: _last_tries,
        } = self;
    }
}

impl Retry {
    /// Unresolved imports, all of them due, in n log n steps for n of them. Allocates nothing; rounds use the allocator
    /// of the list of imports.
    ///
    /// Fails where an import is listed twice, and then where the module of one, its use, the `$crate` of its path or
    /// what its visibility names is not the world's; it hands all parts back unchanged. `refusal` tells which import is
    /// meant.
    pub fn new(
        world: World,
        globs: PerNsGlobImports,
        pendings: Vec<Pending>,
    ) -> Result<Retry, (RetryFault, World, PerNsGlobImports, Vec<Pending>)>
        ensures ok { IfOk result
            (λ r.
            r
            ≡ record {
              state =
                  record {
                    world = world;
                    globs = globs;
                    pending = map (marked true) pendings.items;
                  };
              last_tries = 0;
            }) }
        ensures none { OnOk result (fault_of world pendings.items ≡ None) }
        ensures fault { IfErr result (λ e. fault_of world pendings.items ≡ Some e.0) }
        ensures parts { IfErr result (λ e. (e.1 ≡ world) × (e.2 ≡ globs) × (e.3.items ≡ pendings.items)) }
    {
        let mut listed = pendings;
        match find_fault(&world, &mut listed) {
            Some(fault) => Err((fault, world, globs, listed)),
            None => Ok(Retry {
                imports: Imports::all_due(world, globs, listed),
                last_tries: 0,
            }),
        }
    }

    /// Why `new` fails on these imports in that world, and the index of the one that is meant: of the first that is
    /// listed twice, or else of the first that holds an id the world does not have. None where it takes them. Allocates
    /// nothing. It only reads, so it compares each two imports, which `new` does not.
    pub fn refusal(world: &World, pendings: &[Pending]) -> Option<(RetryFault, usize)>
        ensures { result ≡ refusal world.now pendings.now }
    {
        match first_double(pendings) {
            Some(place) => Some((RetryFault::DoubleImport, place)),
            None => first_unknown(world, pendings).map(|place| (RetryFault::UnknownPart, place)),
        }
    }

    /// Tries each import once, in order, whether it is due or not. Answers whether a push changed the scope: a fixed
    /// point is reached where none did.
    ///
    /// Where an allocation fails, the tries before the failed one are kept, and its import is due.
    pub fn round_all(&mut self) -> Result<bool, AllocError>
        ensures state { OnOk result (self.new.state ≡ round self.old.state) }
        ensures answer { IfOk result (λ answer. answer ≡ round_answer self.old.state) }
        ensures tries { OnOk result (self.new.last_tries ≡ length self.old.state.pending) }
        ensures err { OnErr result (StopsAt self.old.state self.new) }

        // Where it answers false the world is a fixed point of its imports.
        ensures fixed { result ≡ Ok false → IsFixedPoint self.new.state }
    {
        let answer = try_all(&mut self.imports, &mut self.last_tries)?;
        self.imports.rests();
        Ok(answer)
    }

    /// Tries each import that is due (dirty) when its turn comes, in order, as a worklist does: that leaves what
    /// `round_all` leaves, and answers the same.
    ///
    /// Where an allocation fails, which only a due import can meet, the tries before the failed one are kept, and its
    /// import is due.
    pub fn round_changed(&mut self) -> Result<bool, AllocError>
        ensures state { OnOk result (self.new.state ≡ round self.old.state) }
        ensures answer { IfOk result (λ answer. answer ≡ round_answer self.old.state) }
        ensures tries { OnOk result
            (self.new.last_tries ≡ due_turns self.old.state (length self.old.state.pending)) }
        ensures idle { IfOk result (λ answer. self.new.last_tries ≡ 0 → answer ≡ false) }
        ensures err { OnErr result (StopsAtDue self.old.state self.new) }

        // Where none is due nothing is tried, and nothing allocated.
        ensures none { NoneDue self.old.state → result ≡ Ok false }
        ensures rests { NoneDue self.old.state → self.new ≡ record self.old { last_tries = 0 } }

        // Where it answers false the world is a fixed point of its imports.
        ensures fixed { result ≡ Ok false → IsFixedPoint self.new.state }
    {
        let answer = try_due(&mut self.imports, &mut self.last_tries)?;
        self.imports.rests();
        Ok(answer)
    }

    /// A push between rounds, of an item, a macro, or what a glob brings, into the world and the glob table, under the
    /// conditions of `World::push_res`; its import may be none of these (`waits_for`). Where it answers true, each
    /// import whose path has the pushed name as a segment becomes due (dirty).
    ///
    /// Where an allocation fails, nothing changes.
    pub fn push_res(
        &mut self,
        lookup: (ModuleId, Name),
        res: PerNs,
        import: Option<ImportOrExternCrate>,
    ) -> Result<bool, AllocError>
        requires known { KnowsAll self.old.state.world (push_holds lookup.0 res import) }
        requires apart { comes_by self.old.state.pending import ≡ false }
        ensures state { OnOk result
            (self.new
            ≡ record self.old
            { state = pushed_into self.old.state lookup.0 lookup.1 res import }) }
        ensures answer { IfOk result
            (λ answer.
            answer
            ≡ push_answer (scope_of self.old.state.world lookup.0) self.old.state.globs
            lookup.0 lookup.1 res import) }
        ensures err { OnErr result (self.new ≡ self.old) }
    {
        let written = self.imports.push_res(lookup, res, import)?;
        Ok(written)
    }

    /// Adds an import between rounds: it is the last, and due. Where a round was made, the index of names grows by one
    /// look-up for each segment of its path.
    ///
    /// Fails where it is one of the imports, then where the world does not have what it holds, and then where an
    /// allocation fails; then nothing changes, and the import comes back.
    pub fn add(&mut self, pending: Pending) -> Result<(), (AddFault, Pending)>
        ensures ok { OnOk result (self.new ≡ record self.old { state = added self.old.state pending }) }
        ensures none { OnOk result (add_fault self.old.state.world self.old.state.pending pending ≡ None) }
        ensures fault { IfErr result (λ e. e.0 ≡ unadded self.old.state.world self.old.state.pending pending) }
        ensures err { OnErr result (self.new ≡ self.old) }
        ensures back { IfErr result (λ e. e.1 ≡ pending) }
    {
        self.imports.add(pending)?;
        Ok(())
    }

    /// Whether the import at an index is due (dirty); none past the last. A try of one that is not due would change
    /// nothing.
    pub fn due(&self, i: usize) -> Option<bool>
        ensures value { result ≡ option_map (λ p. p.due) (slice_get self.now.state.pending i) }
        ensures rests { result ≡ Some false → RestsAt self.now.state i }
    {
        self.imports.due(i)
    }

    /// How many tries the last round began, a failed one included; 0 before any round.
    pub fn last_tries(&self) -> usize
        ensures { result ≡ self.now.last_tries }
    {
        self.last_tries
    }

    /// The imports, with their world and its glob table.
    pub(crate) fn imports(&self) -> &Imports
        ensures { result.now ≡ self.now.state }
    {
        &self.imports
    }

    /// The world in its current state.
    pub fn world(&self) -> &World
        ensures { result.now ≡ self.now.state.world }
    {
        self.imports.world()
    }

    /// The world, the glob table and the imports in their current state.
    pub fn into_parts(self) -> (World, PerNsGlobImports, Vec<Pending>)
        ensures world { result.0 ≡ self.state.world }
        ensures globs { result.1 ≡ self.state.globs }
        ensures pending { result.2.items ≡ self.state.pending }
    {
        let Retry {
            imports,
            last_tries: _last_tries,
        } = self;
        imports.into_parts()
    }
}
