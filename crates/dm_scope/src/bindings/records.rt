//! Import records of a namespace: what each import that brought a binding resolved to.
ghost use Rattle.std.specs.Prelude.{◌≡◌, length, map};
ghost use Rattle.std.specs.Iterator.{at_most};
ghost use Rattle.std.specs.Map.Iter.{TakesFirst};

use dm_base::import_source::ImportSource;
use dm_base::imports::{ImportOrDef, ImportOrExternCrate};
use indexmap::map;
use indexmap::map::Slice;
use std::marker::Model;

/// The records of a namespace, each import seen as any import.
#[derive(Drop)]
pub struct Records<'a, I: ImportSource> {
    rest: map::Iter<'a, I, ImportOrDef>,
}

impl<'a, I: ImportSource> Model for Records<'a, I> {
    ghost use Rattle.std.specs.Prelude.{List, map};
    ghost use Rattle.dm_base.specs.declared.imports.ImportOrDef.{ImportOrDef};
    ghost use Rattle.dm_base.specs.declared.imports.ImportOrExternCrate.{ImportOrExternCrate};

    ghost Value = { List (ImportOrExternCrate × ImportOrDef) };

    ghost view = { λ a. map (λ e. (I.widened e.0, e.1)) a.rest };
}

impl<'a, I: ImportSource> Records<'a, I> {
    pub(crate) fn new(records: Slice<'a, I, ImportOrDef>) -> Self
        ensures { result ≡ map (λ e. (I.widened e.0, e.1)) records.entry }
    {
        Records {
            rest: records.iter(),
        }
    }
}

impl<'a, I: ImportSource> Iterator for Records<'a, I> {
    type Item = (ImportOrExternCrate, ImportOrDef);

    ghost next_gives = { TakesFirst (λ x. x) };

    ghost remaining = { λ s. at_most (length s) };

    fn next(&mut self) -> Option<(ImportOrExternCrate, ImportOrDef)> {
        let (import, target) = self.rest.next()?;
        Some((import.widen(), *target))
    }
}
