//! How much the calls of a file may take.
use macro_rules::expand::Limits;
use macro_rules::rules::Rule;

/// So many calls may stand within each other where the file says nothing.
pub(crate) const DEEPEST: u32 = 128;

/// So many tokens a call may make.
pub(crate) const RESULT: usize = 1_000_000;

/// So many tokens all calls may make.
pub(crate) const FILE: usize = 100_000_000;

/// So many pairs of threads may be compared, and so many threads kept, in the worst case of each turn.
const PAIRS: usize = 1_500_000_000;

const THREADS: usize = 10_000_000;

/// So many positions of a transcriber may be written: those that write nothing count.
const STEPS: usize = 10_000_000;

/// How often a part is in a whole.
fn share(whole: usize, part: usize) -> usize {
    if part == 0 { whole } else { whole / part }
}

/// What a call of some rules may take. Matching may keep two threads at each position of a matcher, and compares them.
pub(crate) fn limits_of(rules: &[Rule]) -> Limits {
    let mut most = 1usize;
    for rule in rules {
        most = most.max(rule.matcher().len());
    }
    let by_pairs = share(PAIRS, most.saturating_mul(most));
    Limits {
        turns: by_pairs.min(share(THREADS, most)).max(1),
        steps: STEPS,
    }
}
