//! How an item stands goes by the item that it is in.
ghost use Rattle.crate_items.specs.StandingLaws.{StandingsGoByParents};

/// A law of `standings`: each item stands as the one that it is in tells, and by the arms before it.
pub fn standings_go_by_parents()
    ensures { StandingsGoByParents }
{}
