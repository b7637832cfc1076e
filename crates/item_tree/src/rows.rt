//! What the definition of tokens says of texts that are easy to cut wrongly.
ghost use Rattle.std.specs.Prelude.{◌≡◌, true, false};
ghost use Rattle.item_tree.specs.RawStrings.{EndsAtClosing, EndsAtFirst};
ghost use Rattle.item_tree.specs.Rows as rows;

/// Cuts of difficult texts that are right, and some that are wrong.
pub fn difficult_texts()
    ensures quotes { rows.quotes ≡ true }
    ensures raw_strings { rows.raw_strings ≡ true }
    ensures raw_names { rows.raw_names ≡ true }
    ensures c_string_2021 { rows.c_string_2021 ≡ true }
    ensures c_string_2018 { rows.c_string_2018 ≡ true }
    ensures raw_lifetime_2018 { rows.raw_lifetime_2018 ≡ true }
    ensures comments { rows.comments ≡ true }
    ensures escaped_quote { rows.escaped_quote ≡ true }
    ensures numbers { rows.numbers ≡ true }
    ensures exponents { rows.exponents ≡ true }
    ensures shebang { rows.shebang ≡ true }
    ensures shebang_behind_mark { rows.shebang_behind_mark ≡ true }
    ensures attribute { rows.attribute ≡ true }
    ensures open_comment { rows.open_comment ≡ true }
    ensures open_raw_string { rows.open_raw_string ≡ true }
    ensures word_in_two { rows.word_in_two ≡ false }
    ensures raw_string_as_string { rows.raw_string_as_string ≡ false }
    ensures comment_too_short { rows.comment_too_short ≡ false }
    ensures closed_error { rows.closed_error ≡ false }
{}

/// A raw string ends behind the first quote that its number of hashes follows.
pub fn raw_strings_end_at_the_first_closing()
    ensures closing { EndsAtClosing }
    ensures first { EndsAtFirst }
{}
