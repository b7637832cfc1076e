//! Rounds until a fixed point, and what is still unresolved.
ghost use Rattle.std.specs.Prelude.{◌≡◌, true, IfOk, OnErr, length, option_copied, slice_get};
ghost use Rattle.std.specs.Option.{option_map};
ghost use Rattle.dm_retry.specs.Known.{is_listed};
ghost use Rattle.dm_retry.specs.Rounds.{finds_nothing, unresolved};
ghost use Rattle.dm_retry.specs.Settling.{IsFixedPoint, IsResolved, IsStopped};

use crate::pending::Pending;
use crate::retry::Retry;
use dm_base::imports::ImportId;
use std::alloc::AllocError;

impl Retry {
    /// Makes rounds of the due (dirty) imports until one changes nothing, at most `limit` of them. Answers whether one
    /// changed nothing: then the world is a fixed point of its imports, and to try any of them would change nothing.
    ///
    /// A limit is needed: there are imports that change one another's meaning for ever (docs/RULES.md, "Rounds"). Where
    /// an allocation fails, the rounds before are kept, and so are the tries before the failed one, whose import is due.
    pub fn settle(&mut self, limit: u32) -> Result<bool, AllocError>
        ensures ok { IfOk result (λ settled. IsResolved self.old.state limit settled self.new.state) }
        ensures fixed { IfOk result (λ settled. settled ≡ true → IsFixedPoint self.new.state) }
        ensures err { OnErr result (IsStopped self.old.state limit self.new) }
    {
        for _round in 0..limit {
            let written = self.round_changed()?;
            if !written {
                return Ok(true);
            }
        }
        Ok(false)
    }

    /// Whether an import is one of these. A look-up, once a round was begun; before that, and where memory ran out for
    /// look-ups, a walk over them.
    pub fn waits_for(&self, import: ImportId) -> bool
        ensures { result ≡ is_listed self.now.state.pending import }
    {
        self.imports().waits_for(import)
    }

    /// How many imports there are.
    pub fn len(&self) -> usize
        ensures { result ≡ length self.now.state.pending }
    {
        self.imports().len()
    }

    /// The import at an index; none past the last.
    pub fn get(&self, i: usize) -> Option<&Pending>
        ensures { option_copied result ≡ slice_get self.now.state.pending i }
    {
        self.imports().get(i)
    }

    /// Whether the import at an index is unresolved in the world as it stands: its path resolves to nothing, or a
    /// segment of it is left. None past the last. Does not allocate.
    pub fn is_unresolved(&self, i: usize) -> Option<bool>
        ensures { result
            ≡ option_map (finds_nothing self.now.state.world) (slice_get self.now.state.pending i) }
    {
        self.imports().is_unresolved(i)
    }

    /// The indices of the imports that are unresolved in the world as it stands, in order.
    pub fn unresolved(&self) -> Result<Vec<usize>, AllocError>
        ensures { IfOk result (λ places. places.items ≡ unresolved self.now.state) }
    {
        self.imports().unresolved()
    }
}
