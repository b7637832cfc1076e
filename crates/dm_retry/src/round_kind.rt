//! Rounds of either kind, one after another.
ghost use Rattle.std.specs.Prelude.{◌≡◌, OnErr, OnOk, length};
ghost use Rattle.dm_retry.specs.Rounds.{round, rounds};
ghost use Rattle.dm_retry.specs.Retries.{Stops, StopsIn};

use crate::retry::Retry;
use std::alloc::AllocError;

/// Which imports a round tries.
#[derive(Clone, Copy, PartialEq, Eq, Debug)]
pub enum RoundKind {
    /// Each of them.
    All,
    /// Those that are due (dirty) when their turn comes.
    Changed,
}

impl Retry {
    /// Rounds of these kinds, one after another: what they leave is said by how many they are.
    ///
    /// Where an allocation fails, the earlier rounds are kept, and so are the tries before the failed one.
    pub fn rounds(&mut self, kinds: &[RoundKind]) -> Result<(), AllocError>
        ensures state { OnOk result (self.new.state ≡ rounds (length kinds.now) self.old.state) }
        ensures err { OnErr result (StopsIn self.old.state (length kinds.now) self.new.state) }
    {
        for kind in kinds {
            let _answer = self.round(*kind)?;
        }
        Ok(())
    }

    fn round(&mut self, kind: RoundKind) -> Result<bool, AllocError>
        ensures state { OnOk result (self.new.state ≡ round self.old.state) }
        ensures err { OnErr result (Stops self.old.state self.new.state) }
    {
        match kind {
            RoundKind::All => {
                let answer = self.round_all()?;
                Ok(answer)
            }
            RoundKind::Changed => {
                let answer = self.round_changed()?;
                Ok(answer)
            }
        }
    }
}
