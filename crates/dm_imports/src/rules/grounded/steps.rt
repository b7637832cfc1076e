//! Whether one step derives a slot from known ones.
ghost use Rattle.std.specs.Prelude.{◌≡◌};
ghost use Rattle.dm_imports.specs.Brought.{IsBrought};
ghost use Rattle.dm_imports.specs.Grounded as spec;
ghost use Rattle.dm_imports.specs.Grounding.{AreReady, IsWay, is_conflict, is_way, offers_in, slots_of};
ghost use Rattle.dm_imports.specs.Meanings.{is_declared};
ghost use Rattle.dm_imports.specs.Rules.{IsImportKnown};
ghost use Rattle.dm_imports.specs.Slots.{slot_at};
ghost use Rattle.dm_imports.specs.Tables.{of_tables};

use crate::def_maps::DefMaps;
use crate::joined::Joined;
use crate::meaning::{Meaning, Source};
use crate::named_import::NamedImport;
use crate::paths::first::is_by_glob;
use crate::paths::shown::is_by;
use crate::rules::all_imports::brings;
use crate::rules::grounded::knowing::leads_by;
use crate::rules::grounded::ways::Way;
use crate::rules::supported::brought as brought_at;
use crate::slots::Slots;

/// Whether an import derives what it brought to the slot of a way.
fn is_import_step(
    maps: &DefMaps<'_>,
    known: &Slots<bool>,
    brought: &Slots<Joined>,
    offered: &Slots<Joined>,
    way: &Way<'_>,
    meaning: Meaning,
    import: &NamedImport,
) -> bool
    requires ready { AreReady (of_tables maps.now) brought.now }
    requires import { IsImportKnown (of_tables maps.now) import.now }
    ensures { result ≡ spec.is_import_step (of_tables maps.now) (slots_of known.now) (offers_in offered.now)
        way.now.home way.now.name way.now.namespace meaning import.now }
{
    let is_there = import.home == way.home && import.name == *way.name;
    is_there
        && is_by(Some(import.import), meaning.source)
        && brings(import.kind, way.namespace)
        && leads_by(maps, known, brought, offered, import, way.namespace)
}

/// Whether what globs bring to the slot of a way is of that definition, and not ambiguous.
pub(crate) fn is_brought(
    maps: &DefMaps<'_>,
    brought: &Slots<Joined>,
    way: &Way<'_>,
    meaning: Meaning,
) -> bool
    requires { IsBrought (of_tables maps.now) brought.now }
    ensures { result
        ≡ spec.is_brought (of_tables maps.now) way.now.home way.now.name way.now.namespace meaning }
{
    let _globs = maps.globs;
    match brought_at(brought, way.home, way.name, way.namespace) {
        None => false,
        Some(found) => !found.is_ambiguous && found.def == meaning.def,
    }
}

/// Whether some offers are ambiguous together.
fn is_conflict(offers: Option<Joined>) -> bool
    ensures { result ≡ is_conflict offers }
{
    match offers {
        None => false,
        Some(all) => all.is_ambiguous,
    }
}

/// Whether globs derive what the slot of a way means.
fn is_glob_step(
    maps: &DefMaps<'_>,
    brought: &Slots<Joined>,
    offered: &Slots<Joined>,
    way: &Way<'_>,
    meaning: Meaning,
) -> bool
    requires { IsBrought (of_tables maps.now) brought.now }
    ensures { result ≡ spec.is_glob_step (of_tables maps.now) (offers_in offered.now)
        way.now.home way.now.name way.now.namespace meaning }
{
    let offers = offered.get(way.home, way.name, way.namespace);
    if meaning.is_ambiguous {
        is_by_glob(meaning) && is_conflict(offers)
    } else {
        is_brought(maps, brought, way, meaning) && offers.is_some()
    }
}

/// Whether a module declares it.
pub(crate) fn is_declared(meaning: Meaning) -> bool
    ensures { result ≡ is_declared meaning }
{
    matches!(meaning.source, Source::Declaration)
}

/// Whether one step derives the slot of a way, which means `meaning`, in that way. `brought` is what globs bring, and
/// `offered` what they offer by known slots.
pub(crate) fn derives(
    maps: &DefMaps<'_>,
    known: &Slots<bool>,
    brought: &Slots<Joined>,
    offered: &Slots<Joined>,
    way: &Way<'_>,
    meaning: Meaning,
) -> bool
    requires ready { AreReady (of_tables maps.now) brought.now }
    requires way { IsWay (of_tables maps.now) way.now }
    ensures { result
        ≡ is_way (of_tables maps.now) (slots_of known.now) (offers_in offered.now) way.now meaning }
{
    match way.import {
        None => is_declared(meaning) || is_glob_step(maps, brought, offered, way, meaning),
        Some(import) => is_import_step(maps, known, brought, offered, way, meaning, import),
    }
}
