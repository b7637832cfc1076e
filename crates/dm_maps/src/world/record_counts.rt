//! How many import records the scopes of a world have: counted once, and updated by each push.
ghost use Rattle.std.specs.Prelude.{◌≡◌, ◌+◌, ◌-◌, ◌^◌, length, min};
ghost use Rattle.std.specs.List.{flat_map};
ghost use Rattle.dm_maps.specs.RecordCounts.{IsCounted, count_of};
ghost use Rattle.dm_maps.specs.ScopeTables.{scope_at_place, scope_tables};
ghost use Rattle.dm_scope.specs.Tables.{record_count};
ghost use Rattle.dm_scope.specs.Records.{records_in};

use crate::builder::WorldBuilder;
use crate::place::Place;
use dm_base::per_ns::Namespace;
use dm_scope::item_scope::ItemScope;

/// How many records each namespace has in all scopes; the greatest `usize` where it is more.
#[derive(Clone, Copy)]
pub(crate) struct RecordCounts {
    types: usize,
    values: usize,
    macros: usize,
}

impl RecordCounts {
    /// Of a namespace.
    pub(crate) fn of(self, namespace: Namespace) -> usize
        ensures { result ≡ count_of self namespace }
    {
        match namespace {
            Namespace::Types => self.types,
            Namespace::Values => self.values,
            Namespace::Macros => self.macros,
        }
    }

    /// Those of all scopes: a walk over all modules.
    pub(crate) fn of_world(world: &WorldBuilder) -> RecordCounts
        ensures { IsCounted world.now result }
    {
        RecordCounts {
            types: world.records(Namespace::Types),
            values: world.records(Namespace::Values),
            macros: world.records(Namespace::Macros),
        }
    }

    /// Those of one scope.
    pub(crate) fn of_scope(scope: &ItemScope) -> RecordCounts
        ensures types { result.types ≡ length (records_in Namespace.Types scope.now) }
        ensures values { result.values ≡ length (records_in Namespace.Values scope.now) }
        ensures macros { result.macros ≡ length (records_in Namespace.Macros scope.now) }
    {
        RecordCounts {
            types: scope.record_count(Namespace::Types),
            values: scope.record_count(Namespace::Values),
            macros: scope.record_count(Namespace::Macros),
        }
    }

    /// Counts what a scope that had `before` and has `after` has more.
    pub(crate) fn grow(&mut self, before: RecordCounts, after: RecordCounts)
        ensures types { self.new.types ≡ min (self.old.types + (after.types - before.types)) (2 ^ 64 - 1) }
        ensures values { self.new.values ≡ min (self.old.values + (after.values - before.values)) (2 ^ 64 - 1) }
        ensures macros { self.new.macros ≡ min (self.old.macros + (after.macros - before.macros)) (2 ^ 64 - 1) }
    {
        self.types = grown(self.types, before.types, after.types);
        self.values = grown(self.values, before.values, after.values);
        self.macros = grown(self.macros, before.macros, after.macros);
    }
}

/// A count, where `before` of it have become `after`.
fn grown(count: usize, before: usize, after: usize) -> usize
    ensures { result ≡ min (count + (after - before)) (2 ^ 64 - 1) }
{
    count.saturating_add(after.saturating_sub(before))
}

impl WorldBuilder {
    /// The number of records of a namespace in all scopes, or the greatest `usize` where it is more.
    fn records(&self, namespace: Namespace) -> usize
        ensures { result ≡ record_count namespace (scope_tables self.now) }
    {
        counted(self, &self.places, namespace)
    }
}

/// The number of records of a namespace in the scopes at these places, or the greatest `usize` where it is more.
fn counted(world: &WorldBuilder, places: &[Place], namespace: Namespace) -> usize
    ensures { result
        ≡ min
        (length (flat_map (λ p. records_in namespace (scope_at_place world.now p)) places.now))
        (2 ^ 64 - 1) }
{
    let mut count = 0usize;
    for place in places {
        count = count.saturating_add(counted_at(world, *place, namespace));
    }
    count
}

/// The number of records of a namespace in the scope at a place.
#[tactic(auto, using(crate::proofs::RecordLemmas::records_none))]
fn counted_at(world: &WorldBuilder, place: Place, namespace: Namespace) -> usize
    ensures { result ≡ length (records_in namespace (scope_at_place world.now place)) }
{
    match world.placed_module(place) {
        None => 0,
        Some(data) => data.scope().record_count(namespace),
    }
}
