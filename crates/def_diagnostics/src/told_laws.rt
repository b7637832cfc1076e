//! What is told in a def map comes back to where it is told of.
ghost use Rattle.def_diagnostics.specs.ToldLaws as laws;

/// By the table of macro calls, each diagnostic that a def map has leads to the place that it is told of.
pub fn told_places_come_back()
    ensures { laws.PlacesComeBack }
{}
