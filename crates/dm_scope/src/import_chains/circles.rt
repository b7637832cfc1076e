//! Cycle detection in chains of imports, by Brent's algorithm.
ghost use Rattle.std.specs.Prelude.{◌≡◌, ◌+◌, ◌-◌, ◌*◌, ◌^◌, None, Some, min, nat_eq, if◌then◌else◌};

use dm_base::imports::ImportId;

/// An import that a walk has passed: the one that it came to after 1, 2, 4, .. steps, whichever was
/// the last. In a cycle the walk meets it again, so that it need not count down all records.
#[derive(Clone, Copy)]
pub(crate) struct Passed {
    pub(crate) import: Option<ImportId>,
    /// The steps before the next one is kept, and those between that one and the one after it.
    steps: usize,
    gap: usize,
}

impl Passed {
    /// None yet.
    pub(crate) fn none() -> Passed
        ensures { result ≡ record { import = None; steps = 0; gap = 0 } }
    {
        Passed {
            import: None,
            steps: 0,
            gap: 0,
        }
    }

    /// After a step to an import.
    pub(crate) fn stepped(self, import: ImportId) -> Passed
        ensures import { result.import ≡ (if nat_eq self.steps 0 then Some import else self.import) }
        ensures steps { result.steps ≡ (if nat_eq self.steps 0 then self.gap else self.steps - 1) }
        ensures gap { result.gap
            ≡ (if nat_eq self.steps 0 then min (2 * self.gap + 1) (2 ^ 64 - 1) else self.gap) }
    {
        if self.steps == 0 {
            return Passed {
                import: Some(import),
                steps: self.gap,
                gap: self.gap.saturating_mul(2).saturating_add(1),
            };
        }
        Passed {
            steps: self.steps - 1,
            ..self
        }
    }
}
