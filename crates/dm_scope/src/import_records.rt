//! Import records of a scope: what each import that brought a binding resolved to.
ghost use Rattle.std.specs.Prelude.{◌≡◌, length};
ghost use Rattle.std.specs.Iterator.{at_most};
ghost use Rattle.dm_base.specs.declared.imports.ImportOrDef.{ImportOrDef};
ghost use Rattle.dm_base.specs.declared.imports.ImportOrExternCrate.{ImportOrExternCrate};
ghost use Rattle.std.specs.Map.Iter.{TakesFirst, ShowsInOrder};

use crate::bindings::records::Records;
use dm_base::imports::{ImportOrDef, ImportOrExternCrate, ImportOrGlob};
use std::marker::Model;

/// The records of a namespace, whose imports are of two types.
#[derive(Drop)]
enum OfNamespace<'a> {
    Wide(Records<'a, ImportOrExternCrate>),
    Values(Records<'a, ImportOrGlob>),
}

/// The records of a namespace of a scope.
#[derive(Drop)]
pub struct ImportRecords<'a> {
    records: OfNamespace<'a>,
}

impl<'a> Model for ImportRecords<'a> {
    ghost use Rattle.std.specs.Prelude.{List};
    ghost use Rattle.dm_base.specs.declared.imports.ImportOrDef.{ImportOrDef};
    ghost use Rattle.dm_base.specs.declared.imports.ImportOrExternCrate.{ImportOrExternCrate};
    ghost use Rattle.dm_scope.specs.declared.import_records.OfNamespace.TheVariants.{Wide, Values};

    ghost Value = { List (ImportOrExternCrate × ImportOrDef) };

    ghost view = { λ a. elim a.records [ Wide r ↦ r | Values r ↦ r ] };
}

impl<'a> ImportRecords<'a> {
    pub(crate) fn wide(records: Records<'a, ImportOrExternCrate>) -> Self
        ensures rest { result ≡ records.entry }
        ensures runs { ShowsInOrder (λ (x : ImportOrExternCrate × ImportOrDef). x) }
    {
        ImportRecords {
            records: OfNamespace::Wide(records),
        }
    }

    pub(crate) fn of_values(records: Records<'a, ImportOrGlob>) -> Self
        ensures rest { result ≡ records.entry }
        ensures runs { ShowsInOrder (λ (x : ImportOrExternCrate × ImportOrDef). x) }
    {
        ImportRecords {
            records: OfNamespace::Values(records),
        }
    }
}

impl<'a> Iterator for ImportRecords<'a> {
    type Item = (ImportOrExternCrate, ImportOrDef);

    ghost next_gives = { TakesFirst (λ x. x) };

    ghost remaining = { λ s. at_most (length s) };

    fn next(&mut self) -> Option<(ImportOrExternCrate, ImportOrDef)> {
        match &mut self.records {
            OfNamespace::Wide(records) => records.next(),
            OfNamespace::Values(records) => records.next(),
        }
    }
}
