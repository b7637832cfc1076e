//! One round over the unresolved imports, of all or of the due (dirty) ones alone.
ghost use Rattle.std.specs.Prelude.{◌≡◌, false, IfOk, OnErr, OnOk, length};
ghost use Rattle.dm_retry.specs.Rounds.{due_turns, round, round_answer};
ghost use Rattle.dm_retry.specs.Retries.{NoneDue, StopsAt, StopsAtDue};

use crate::imports::Imports;
use std::alloc::AllocError;

/// Tries each import, and counts the tries.
pub(crate) fn try_all(imports: &mut Imports, tries: &mut usize) -> Result<bool, AllocError>
    ensures state { OnOk result (imports.new ≡ round imports.old) }
    ensures answer { IfOk result (λ answer. answer ≡ round_answer imports.old) }
    ensures tries { OnOk result (tries.new ≡ length imports.old.pending) }
    ensures err { OnErr result (StopsAt imports.old (record { state = imports.new; last_tries = tries.new })) }
{
    *tries = 0;
    let mut written = false;
    for i in 0..imports.len() {
        *tries += 1;
        let answer = imports.try_at(i)?;
        written = written || answer;
    }
    Ok(written)
}

/// Tries each import that is due (dirty) at its turn, from one to the next, and counts the tries.
pub(crate) fn try_due(imports: &mut Imports, tries: &mut usize) -> Result<bool, AllocError>
    ensures state { OnOk result (imports.new ≡ round imports.old) }
    ensures answer { IfOk result (λ answer. answer ≡ round_answer imports.old) }
    ensures tries { OnOk result (tries.new ≡ due_turns imports.old (length imports.old.pending)) }
    ensures idle { IfOk result (λ answer. tries.new ≡ 0 → answer ≡ false) }
    ensures err { OnErr result
        (StopsAtDue imports.old (record { state = imports.new; last_tries = tries.new })) }
    ensures none { NoneDue imports.old → result ≡ Ok false }
    ensures rests { NoneDue imports.old → imports.new ≡ imports.old }
    ensures untried { NoneDue imports.old → tries.new ≡ 0 }
{
    *tries = 0;
    let mut written = false;
    let mut from = 0;

    // For the proof: the number of imports fits a `usize`, and a try of one that is not due would change nothing.
    let _len = imports.len();
    imports.rests();
    'due: while let Some(i) = imports.next_due(from) {
        *tries += 1;
        let answer = imports.try_at(i)?;
        written |= answer;
        from = i + 1;
        imports.rests();
    }
    Ok(written)
}
