//! What the definitions say of predicates and attributes that are easy to read wrongly.
ghost use Rattle.item_tree.specs.AttributeRows as rows;

/// Predicates, strings and attributes, and what they are.
pub fn predicates_and_attributes()
    ensures nested { rows.nested }
    ensures two_names { rows.two_names }
    ensures not_of_two { rows.not_of_two }
    ensures settled_all { rows.settled_all }
    ensures settled_any { rows.settled_any }
    ensures unknown { rows.unknown }
    ensures inner_list { rows.inner_list }
    ensures raw_name { rows.raw_name }
    ensures string { rows.string }
    ensures raw_string { rows.raw_string }
    ensures two_attributes { rows.two_attributes }
    ensures one_condition { rows.one_condition }
    ensures seen_through { rows.seen_through }
    ensures two_items { rows.two_items }
{}

/// Strings with escapes, and what they stand for.
pub fn strings_with_escapes()
    ensures escapes { rows.escapes }
    ensures character { rows.character }
    ensures simple_escapes { rows.simple_escapes }
    ensures line_ends { rows.line_ends }
    ensures raw_escape { rows.raw_escape }
    ensures great_byte { rows.great_byte }
    ensures surrogate { rows.surrogate }
    ensures no_escape { rows.no_escape }
{}
