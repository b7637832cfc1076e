//! What the definitions of orders and circles say of each other.
ghost use Rattle.crate_items.specs.CrateLaws as laws;

/// A graph with an order has no circle.
pub fn ordered_graphs_have_no_circle()
    ensures { laws.NoCircleInOrder }
{}
