//! What the definitions say in the words of macros by example.
ghost use Rattle.macro_rules.specs.Laws as laws;
ghost use Rattle.macro_rules.specs.Repeats as repeats;

/// Rules that are read are laid out, as the laws below want it.
pub fn rules_are_laid_out()
    ensures { laws.RulesAreLaidOut }
{}

/// The captures of a rule that matches are a parse of the call by its matcher, and the only one.
pub fn captures_are_the_only_parse()
    ensures { laws.CapturesAreTheOnlyParse }
{}

/// The matchers of rules that are read without a fault are grammars of tokens, variables and repetitions, laid out.
pub fn matchers_are_grammars()
    ensures { laws.MatchersAreGrammars }
{}

/// Rows that lay out a matcher parse what the matcher does, as a grammar.
pub fn rows_are_grammars()
    ensures { laws.RowsAreGrammars }
{}

/// A call stands for one list of tokens at most, and for none where no rule matches.
pub fn expansions_are_unique()
    ensures unique { laws.ExpansionsAreUnique }
    ensures none { laws.NoRuleParses }
{}

/// A repetition is written as often as those of the matcher have iterations that it goes along with.
pub fn repetitions_are_written_as_captured()
    ensures { repeats.RepeatsAsCaptured }
{}
