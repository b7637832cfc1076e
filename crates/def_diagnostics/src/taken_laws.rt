//! What second declarations go by.
ghost use Rattle.def_diagnostics.specs.TakenLaws as laws;

/// Behind some items a name is taken exactly where one of these takes it.
pub fn names_are_taken_by_items()
    ensures { laws.TakenByItems }
{}
