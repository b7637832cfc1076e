//! What the definitions say of small macros: what rustc does.
ghost use Rattle.macro_rules.specs.LawRows as laws;
ghost use Rattle.macro_rules.specs.Rows as rows;

/// Calls, and what they make.
pub fn calls()
    ensures commas { rows.commas }
    ensures first_counts { rows.first_counts }
    ensures hands_on { rows.hands_on }
    ensures no_rule { rows.no_rule }
    ensures ambiguous_token { rows.ambiguous_token }
    ensures ambiguous_end { rows.ambiguous_end }
    ensures ways_that_end { rows.ways_that_end }
    ensures question_mark { rows.question_mark }
    ensures bad_literal { rows.bad_literal }
    ensures nested { rows.nested }
    ensures repeated_whole { rows.repeated_whole }
    ensures in_step { rows.in_step }
    ensures uneven { rows.uneven }
    ensures lesser_depth { rows.lesser_depth }
    ensures still_repeats { rows.still_repeats }
    ensures nothing_repeats { rows.nothing_repeats }
    ensures needs_one { rows.needs_one }
    ensures empty_vis { rows.empty_vis }
    ensures unknown_name { rows.unknown_name }
{}

/// Definitions, and what is wrong with them.
pub fn definitions()
    ensures two_of_a_name { rows.two_of_a_name }
    ensures no_kind { rows.no_kind }
    ensures empty_repetition { rows.empty_repetition }
    ensures nested_empty { rows.nested_empty }
    ensures separated_question_mark { rows.separated_question_mark }
    ensures dollar_plus { rows.dollar_plus }
    ensures dollar_brace { rows.dollar_brace }
    ensures no_arrow { rows.no_arrow }
{}

/// Parses of calls, and how often repetitions are written.
pub fn parses()
    ensures two_names { laws.two_names }
    ensures one_name { laws.one_name }
    ensures no_name { laws.no_name }
    ensures ambiguous { laws.TwoParses }
    ensures grammars { laws.AreGrammars }
    ensures first_counts { laws.FirstCounts }
    ensures twice { laws.twice }
    ensures once { laws.once }
    ensures never { laws.never }
{}
