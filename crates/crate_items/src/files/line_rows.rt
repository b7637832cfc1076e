//! Lines and columns of some offsets.
ghost use Rattle.crate_items.specs.LineRows as rows;

/// Offsets in lines, between characters, behind a byte order mark and about carriage returns.
pub fn lines_and_columns()
    ensures lines { rows.Lines }
    ensures characters { rows.Characters }
    ensures order_mark { rows.OrderMark }
    ensures returns { rows.Returns }
    ensures two_returns { rows.TwoReturns }
    ensures quoted_return { rows.QuotedReturn }
{}
