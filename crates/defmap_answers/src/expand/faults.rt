//! Why a call has no expansion.
use macro_rules::expand::ExpandFault;
use macro_rules::reading::RuleFault;
use macro_rules::writing::WriteFault;

/// Why a call has no expansion, in words; where in the bytes of all tokens, if that is told; and whether nothing is expanded
/// behind it.
#[derive(Clone, Copy)]
pub(crate) struct Fault {
    pub(crate) words: &'static str,
    pub(crate) at: Option<usize>,
    pub(crate) is_last: bool,
}

impl Fault {
    pub(crate) fn new(words: &'static str) -> Fault {
        Fault {
            words,
            at: None,
            is_last: false,
        }
    }

    /// One behind which nothing is expanded.
    pub(crate) fn last(words: &'static str) -> Fault {
        Fault {
            words,
            at: None,
            is_last: true,
        }
    }
}

/// What is wrong with a definition, in words.
pub(crate) fn rule_words(fault: RuleFault) -> &'static str {
    match fault {
        RuleFault::BadRule => "its definition has no rules of their grammar",
        RuleFault::TwoOfAName => "its definition has two variables of a name in a matcher",
        RuleFault::NoKind => "its definition has a variable without a kind that there is",
        RuleFault::EmptyRepetition => "its definition repeats what may be empty",
        RuleFault::Unsupported => "its definition has what is not read",
    }
}

/// What is wrong with a call, in words, and at which token in its group.
pub(crate) fn call_fault(fault: ExpandFault) -> (&'static str, Option<usize>) {
    match fault {
        ExpandFault::NoRule => ("no rule matches", None),
        ExpandFault::Ambiguous(place) => ("a rule could go on in more than one way", Some(place)),
        ExpandFault::BadFragment(place) => ("a fragment begins and cannot be read", Some(place)),
        ExpandFault::TooLong => ("a limit is reached: matching takes too long", None),
        ExpandFault::Unwritten(fault) => (write_words(fault), None),
    }
}

/// What is wrong with a transcriber, in words.
fn write_words(fault: WriteFault) -> &'static str {
    match fault {
        WriteFault::Uneven => "variables of a repetition were captured in different numbers",
        WriteFault::NothingRepeats => "a repetition has no variable that repeats",
        WriteFault::StillRepeats => "a variable still repeats",
        WriteFault::NeedsOne => "a repetition by + has nothing to repeat",
        WriteFault::TooGreat => TOO_GREAT,
    }
}

pub(crate) const TOO_GREAT: &'static str = "a limit is reached: it makes more than 1000000 tokens";

pub(crate) const TOO_MANY: &'static str =
    "a limit is reached: the calls of this file make more than 100000000 tokens";

pub(crate) const TOO_DEEP: &'static str =
    "a limit is reached: more calls within each other than the recursion limit";

pub(crate) const UNKNOWN: &'static str = "no macro of this file in textual scope";

pub(crate) const NO_ITEM: &'static str = "what it makes is no item";
