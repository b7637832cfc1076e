//! The variants of the enums of a checked world. Contracts see an iterator over them as the list of what it has left.
ghost use Rattle.std.specs.Prelude.{◌≡◌, IfSome, Some, length};
ghost use Rattle.std.specs.Iterator.{at_most, UpTo};
ghost use Rattle.std.specs.Iterator.SizeHint.{IsWithinCount};
ghost use Rattle.std.specs.Map.Iter.{TakesFirst, ShowsInOrder};
ghost use Rattle.dm_maps.specs.GoesOn.{AreKnown, AreVariantsOf, deref_variant, variants_if_known};
ghost use Rattle.dm_maps.specs.Readings.{variants_of};

use crate::builder::WorldBuilder;
use crate::check::held::HeldId;
use crate::check::known_ids::KnownIds;
use crate::world::World;
use dm_base::fields_shape::FieldsShape;
use dm_base::ids::{EnumId, EnumVariantId};
use dm_base::item_ids::ItemKind;
use dm_base::name::Name;
use indexmap::map::{self, Slice};
use std::marker::Model;

/// The variants of an enum in order, each with its name and its shape.
#[derive(Drop)]
pub struct Variants<'a> {
    rest: map::Iter<'a, Name, (EnumVariantId, FieldsShape)>,
}

impl<'a> Model for Variants<'a> {
    ghost use Rattle.dm_def_map.specs.Variants as enums;

    ghost Value = { enums.Variants };

    ghost view = { λ a. a.rest };
}

impl<'a> Variants<'a> {
    fn new(table: Slice<'a, Name, (EnumVariantId, FieldsShape)>) -> Self
        ensures rest { result ≡ table.entry }
        ensures runs { ShowsInOrder deref_variant }
    {
        Variants { rest: table.iter() }
    }
}

impl<'a> Iterator for Variants<'a> {
    type Item = (&'a Name, (EnumVariantId, FieldsShape));

    ghost next_gives = { TakesFirst deref_variant };

    ghost remaining = { λ s. at_most (length s) };

    fn next(&mut self) -> Option<(&'a Name, (EnumVariantId, FieldsShape))> {
        let (name, variant) = self.rest.next()?;
        Some((name, *variant))
    }

    fn size_hint(&self) -> (usize, Option<usize>)
        ensures lower { IsWithinCount result.0 (at_most (length self.now)) }
        ensures upper { IfSome result.1 (UpTo (at_most (length self.now))) }
        ensures exact { result ≡ (length self.now, Some (length self.now)) }
    {
        let left = self.rest.len();
        (left, Some(left))
    }
}

impl World {
    /// The variants of an enum in order, each with its name and its shape; nothing where the world has no such enum. An
    /// enum of the world's may have none. Takes no memory.
    pub fn variants(&self, e: EnumId) -> Option<Variants<'_>>
        ensures value { result ≡ variants_if_known self.now e }
        ensures runs { ShowsInOrder deref_variant }

        // Each is the world's, and that enum's.
        ensures known { IfSome result (AreKnown self.now) }
        ensures own { IfSome result (AreVariantsOf self.now e) }
    {
        let tables = self.tables();
        if !tables.knows(HeldId::Item(ItemKind::Enum, e.0)) {
            return None;
        }
        Some(Variants::new(tables.variants_of(e)))
    }
}

impl WorldBuilder {
    /// The variants of an enum, by name.
    fn variants_of(&self, e: EnumId) -> Slice<'_, Name, (EnumVariantId, FieldsShape)>
        ensures { result ≡ variants_of self.now e }
    {
        let Some(variants) = self.enums.get(&e) else {
            return Slice::new();
        };
        variants.entries()
    }
}
