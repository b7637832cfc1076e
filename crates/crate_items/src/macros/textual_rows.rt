//! Which macro a name means in textual scope before an item: worked rows.
ghost use Rattle.crate_items.specs.TextualRows as rows;

/// Macros that are defined again, behind a use, in an inner module, and in modules that leave their macros.
pub fn macros_before_uses()
    ensures redefined { rows.Redefined }
    ensures late { rows.Late }
    ensures inner { rows.Inner }
    ensures left { rows.Left }
    ensures nested { rows.Nested }
{}
