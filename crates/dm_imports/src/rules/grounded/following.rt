//! Steps, followed in an order that a search found, so that few slots are left for passes over all. Nothing rests on that
//! order: a step that derives nothing is passed over.
ghost use Rattle.std.specs.Prelude.{◌≡◌, All, Contains, OnOk, Some, true};
ghost use Rattle.dm_imports.specs.Brought.{AreAllNamed, IsBrought};
ghost use Rattle.dm_imports.specs.Following.{Follows, IsOfferedBy, IsReader, IsSound, MayHaveOffers};
ghost use Rattle.dm_imports.specs.Grounding as way;
ghost use Rattle.dm_imports.specs.Grounding.{AreReady, HasSource, IsWay, MayOffer, needs_one, slots_of};
ghost use Rattle.dm_imports.specs.Meanings.{IsNamed};
ghost use Rattle.dm_imports.specs.Supporting.{IsListing};
ghost use Rattle.dm_imports.specs.Tables.{of_tables};

use crate::def_maps::DefMaps;
use crate::glob_import::GlobImport;
use crate::joined::Joined;
use crate::meaning::Meaning;
use crate::named_import::NamedImport;
use crate::paths::first::is_by_glob;
use crate::paths::shown::at;
use crate::rules::all_offers::add_offer;
use crate::rules::grounded::known_offers::{known_from, known_source};
use crate::rules::grounded::readers::{Reader, Readers};
use crate::rules::grounded::steps::is_brought;
use crate::rules::grounded::ways::Way;
use crate::rules::grounded::{is_known, settle_unknown};
use crate::rules::listing::{Listing, listed_names};
use crate::slots::Slots;
use crate::step::Step;
use dm_base::ids::ModuleId;
use dm_base::name::Name;
use dm_base::per_ns::Namespace;
use std::alloc::{AllocError, Global};

/// What is known while steps are followed.
pub(crate) struct Followed<'a> {
    pub(crate) known: Slots<bool>,
    /// What globs offer by known slots.
    pub(crate) offered: Slots<Joined>,
    /// Known slots that globs have yet to offer on.
    pub(crate) fresh: Vec<Way<'a>>,
}

/// Hand-written `Drop`, to keep proofs small: dropping one is then a single call.
impl<'a> Drop for Followed<'a> {
    fn drop(self) {
        let Followed {
            known: _known,
            offered: _offered,
            fresh: _fresh,
        } = self;
    }
}

/// Makes the slot of a way known, if one step derives it so. Answers whether the way is settled.
fn learn<'a>(
    followed: &mut Followed<'a>,
    maps: &DefMaps<'a>,
    brought: &Slots<Joined>,
    way: Way<'a>,
) -> Result<bool, AllocError>
    requires ready { AreReady (of_tables maps.now) brought.now }
    requires way { IsWay (of_tables maps.now) way }
    requires sound { IsSound (of_tables maps.now) followed.old }
    ensures { OnOk result (Follows (of_tables maps.now) followed.old followed.new) }
{
    if is_known(&followed.known, &way) {
        return Ok(true);
    }
    if settle_unknown(&mut followed.known, maps, brought, &followed.offered, &way)? {
        return Ok(false);
    }
    followed.fresh.push(way)?;
    Ok(true)
}

/// Joins what a glob offers of a slot of its source, found by known slots.
fn join_offer(
    offered: &mut Slots<Joined>,
    maps: &DefMaps<'_>,
    known: &Slots<bool>,
    reader: Reader<'_>,
    name: &Name,
    namespace: Namespace,
    offer: Option<Meaning>,
) -> Result<(), AllocError>
    requires glob { MayOffer (of_tables maps.now) reader.glob.now }
    requires source { HasSource (of_tables maps.now) (slots_of known.now) reader.glob.now (Some reader.source) }
    requires offer { offer ≡ way.known_from (of_tables maps.now) (slots_of known.now) reader.glob.now reader.source name.now namespace }
    requires offer_named { IsNamed maps.now.world offer }
    requires named { AreAllNamed maps.now.world offered.old }
    ensures offered { OnOk result
        (MayHaveOffers (of_tables maps.now) (slots_of known.now) reader.entry.glob.now offered.old offered.new) }
    ensures named { OnOk result (AreAllNamed maps.now.world offered.new) }
{
    // Of the known slots the contract alone speaks.
    let (into, _known) = (reader.glob.into, known);
    add_offer(offered, maps.world, into, name, namespace, offer)?;
    Ok(())
}

/// Whether one offer settles the slot of a way: globs brought what it means, and bring one definition there.
fn needs_one(maps: &DefMaps<'_>, brought: &Slots<Joined>, way: &Way<'_>) -> bool
    requires { IsBrought (of_tables maps.now) brought.now }
    ensures { result ≡ needs_one (of_tables maps.now) way.now }
{
    match at(maps, way.home, way.name, way.namespace) {
        None => false,
        Some(meaning) => {
            is_by_glob(meaning) && !meaning.is_ambiguous && is_brought(maps, brought, way, meaning)
        }
    }
}

/// Makes the slot of a way known that needs one offer, and that a glob offers on.
fn learn_at_once<'a>(
    followed: &mut Followed<'a>,
    maps: &DefMaps<'a>,
    reader: Reader<'a>,
    way: Way<'a>,
) -> Result<(), AllocError>
    requires reader { IsReader (of_tables maps.now) (slots_of followed.old.known) reader }
    requires way { IsWay (of_tables maps.now) way }
    requires offered { IsOfferedBy (of_tables maps.now) (slots_of followed.old.known) reader way }
    requires needs { needs_one (of_tables maps.now) way ≡ true }
    requires sound { IsSound (of_tables maps.now) followed.old }
    ensures { OnOk result (Follows (of_tables maps.now) followed.old followed.new) }
{
    // Of globs and of the source the contract alone speaks.
    let (_globs, _source) = (maps.globs, reader.source);
    followed.known.put(way.home, way.name, way.namespace, true)?;
    followed.fresh.push(way)?;
    Ok(())
}

/// Has a glob offer on a slot of its source, if that is known, and makes the slot of its module known if one step then
/// derives it. An offer is kept only where one is not enough.
fn tell<'a>(
    followed: &mut Followed<'a>,
    maps: &DefMaps<'a>,
    brought: &Slots<Joined>,
    reader: Reader<'a>,
    name: &'a Name,
    namespace: Namespace,
) -> Result<(), AllocError>
    requires ready { AreReady (of_tables maps.now) brought.now }
    requires reader { IsReader (of_tables maps.now) (slots_of followed.old.known) reader }
    requires sound { IsSound (of_tables maps.now) followed.old }
    ensures { OnOk result (Follows (of_tables maps.now) followed.old followed.new) }
{
    let (glob, source) = (reader.glob, reader.source);
    let offer = known_from(maps, &followed.known, glob, source, name, namespace);
    let way = Way {
        home: glob.into,
        name,
        namespace,
        import: None,
    };
    if offer.is_none() {
        return Ok(());
    }
    if is_known(&followed.known, &way) {
        return Ok(());
    }
    if needs_one(maps, brought, &way) {
        return learn_at_once(followed, maps, reader, way);
    }
    join_offer(
        &mut followed.offered,
        maps,
        &followed.known,
        reader,
        name,
        namespace,
        offer,
    )?;
    learn(followed, maps, brought, way)?;
    Ok(())
}

/// Has a glob offer on some slots of its source.
fn tell_slots<'a>(
    followed: &mut Followed<'a>,
    maps: &DefMaps<'a>,
    brought: &Slots<Joined>,
    reader: Reader<'a>,
    slots: &[Way<'a>],
) -> Result<(), AllocError>
    requires ready { AreReady (of_tables maps.now) brought.now }
    requires reader { IsReader (of_tables maps.now) (slots_of followed.old.known) reader }
    requires sound { IsSound (of_tables maps.now) followed.old }
    ensures { OnOk result (Follows (of_tables maps.now) followed.old followed.new) }
{
    for slot in slots {
        tell(followed, maps, brought, reader, slot.name, slot.namespace)?;
    }
    Ok(())
}

/// Has the globs of some places do so.
fn tell_all<'a>(
    followed: &mut Followed<'a>,
    maps: &DefMaps<'a>,
    brought: &Slots<Joined>,
    readers: &[Reader<'a>],
    places: &[usize],
    slots: &[Way<'a>],
) -> Result<(), AllocError>
    requires ready { AreReady (of_tables maps.now) brought.now }
    requires readers { All (IsReader (of_tables maps.now) (slots_of followed.old.known)) readers.now }
    requires sound { IsSound (of_tables maps.now) followed.old }
    ensures { OnOk result (Follows (of_tables maps.now) followed.old followed.new) }
{
    for place in places {
        if let Some(reader) = readers.get(*place) {
            tell_slots(followed, maps, brought, *reader, slots)?;
        }
    }
    Ok(())
}

/// Takes from slots, from the last on, those of a module.
fn take_of<'a>(
    fresh: &mut Vec<Way<'a>>,
    alloc: Global,
    home: ModuleId,
) -> Result<Vec<Way<'a>>, AllocError>
    ensures { OnOk result ((w : way.Way) → Contains fresh.new.items w → Contains fresh.old.items w) }
{
    let mut taken = Vec::new(alloc);
    for _slot in 0..u64::MAX {
        let Some(slot) = fresh.pop() else {
            return Ok(taken);
        };
        if slot.home != home {
            fresh.push(slot)?;
            return Ok(taken);
        }
        taken.push(slot)?;
    }
    Ok(taken)
}

/// Has globs offer on all slots that they have yet to offer on: on all at once that a module got last, so that few tables
/// are gone over at a time.
fn spread<'a>(
    followed: &mut Followed<'a>,
    maps: &DefMaps<'a>,
    brought: &Slots<Joined>,
    readers: &Readers<'a>,
) -> Result<(), AllocError>
    requires ready { AreReady (of_tables maps.now) brought.now }
    requires readers { All (IsReader (of_tables maps.now) (slots_of followed.old.known)) readers.now.all.items }
    requires sound { IsSound (of_tables maps.now) followed.old }
    ensures { OnOk result (Follows (of_tables maps.now) followed.old followed.new) }
{
    let all = readers.all.as_slice();
    for _slot in 0..u64::MAX {
        let Some(last) = followed.fresh.last() else {
            return Ok(());
        };
        let home = last.home;
        let slots = take_of(&mut followed.fresh, readers.alloc, home)?;
        if let Some(places) = readers.of.get(&home) {
            tell_all(
                followed,
                maps,
                brought,
                all,
                places.as_slice(),
                slots.as_slice(),
            )?;
        }
    }
    Ok(())
}

/// Has a glob offer on the slots of a name of its source.
fn tell_name<'a>(
    followed: &mut Followed<'a>,
    maps: &DefMaps<'a>,
    brought: &Slots<Joined>,
    reader: Reader<'a>,
    name: &'a Name,
) -> Result<(), AllocError>
    requires ready { AreReady (of_tables maps.now) brought.now }
    requires reader { IsReader (of_tables maps.now) (slots_of followed.old.known) reader }
    requires sound { IsSound (of_tables maps.now) followed.old }
    ensures { OnOk result (Follows (of_tables maps.now) followed.old followed.new) }
{
    for namespace in [Namespace::Types, Namespace::Values, Namespace::Macros] {
        tell(followed, maps, brought, reader, name, namespace)?;
    }
    Ok(())
}

/// Does so with some names.
fn tell_names<'a>(
    followed: &mut Followed<'a>,
    maps: &DefMaps<'a>,
    brought: &Slots<Joined>,
    reader: Reader<'a>,
    names: &[&'a Name],
) -> Result<(), AllocError>
    requires ready { AreReady (of_tables maps.now) brought.now }
    requires reader { IsReader (of_tables maps.now) (slots_of followed.old.known) reader }
    requires sound { IsSound (of_tables maps.now) followed.old }
    ensures { OnOk result (Follows (of_tables maps.now) followed.old followed.new) }
{
    for name in names {
        tell_name(followed, maps, brought, reader, *name)?;
    }
    Ok(())
}

/// Has a glob offer on all known slots of its source, if its path leads to one by known slots; from then on it is told of
/// those that become known. The globs before it offer on first, so that none offers on a slot twice. Answers whether its
/// path leads to one.
fn read<'a>(
    followed: &mut Followed<'a>,
    readers: &mut Readers<'a>,
    maps: &DefMaps<'a>,
    brought: &Slots<Joined>,
    listing: &Listing<'a>,
    glob: &'a GlobImport,
) -> Result<bool, AllocError>
    requires ready { AreReady (of_tables maps.now) brought.now }
    requires listing { IsListing maps.now.world listing.now }
    requires glob { Contains maps.now.globs glob.now }
    requires readers { All (IsReader (of_tables maps.now) (slots_of followed.old.known)) readers.old.all.items }
    requires sound { IsSound (of_tables maps.now) followed.old }
    ensures follows { OnOk result (Follows (of_tables maps.now) followed.old followed.new) }
    ensures readers { OnOk result
        (All (IsReader (of_tables maps.now) (slots_of followed.new.known)) readers.new.all.items) }
{
    spread(followed, maps, brought, readers)?;
    match known_source(maps, &followed.known, glob) {
        None => Ok(false),
        Some(source) => {
            let reader = Reader { glob, source };
            readers.add(reader)?;
            let names = listed_names(readers.alloc, maps.world, listing, source)?;
            tell_names(followed, maps, brought, reader, names.as_slice())?;
            Ok(true)
        }
    }
}

/// Makes the slot of an import known, if one step derives it by the import. Answers whether the import is settled.
fn learn_import<'a>(
    followed: &mut Followed<'a>,
    readers: &Readers<'a>,
    maps: &DefMaps<'a>,
    brought: &Slots<Joined>,
    import: &'a NamedImport,
    namespace: Namespace,
) -> Result<bool, AllocError>
    requires ready { AreReady (of_tables maps.now) brought.now }
    requires import { Contains maps.now.imports import.now }
    requires readers { All (IsReader (of_tables maps.now) (slots_of followed.old.known)) readers.now.all.items }
    requires sound { IsSound (of_tables maps.now) followed.old }
    ensures follows { OnOk result (Follows (of_tables maps.now) followed.old followed.new) }
    ensures readers { OnOk result
        (All (IsReader (of_tables maps.now) (slots_of followed.new.known)) readers.now.all.items) }
{
    // Of the readers the contract alone speaks: what they read stays read.
    let _globs = &readers.all;
    let way = Way {
        home: import.home,
        name: &import.name,
        namespace,
        import: Some(import),
    };
    let is_settled = learn(followed, maps, brought, way)?;
    Ok(is_settled)
}

/// Follows a step. Answers whether nothing is left of it.
fn follow_step<'a>(
    followed: &mut Followed<'a>,
    readers: &mut Readers<'a>,
    maps: &DefMaps<'a>,
    brought: &Slots<Joined>,
    listing: &Listing<'a>,
    step: Step,
) -> Result<bool, AllocError>
    requires ready { AreReady (of_tables maps.now) brought.now }
    requires listing { IsListing maps.now.world listing.now }
    requires readers { All (IsReader (of_tables maps.now) (slots_of followed.old.known)) readers.old.all.items }
    requires sound { IsSound (of_tables maps.now) followed.old }
    ensures follows { OnOk result (Follows (of_tables maps.now) followed.old followed.new) }
    ensures readers { OnOk result
        (All (IsReader (of_tables maps.now) (slots_of followed.new.known)) readers.new.all.items) }
{
    match step {
        Step::Import(place, namespace) => match maps.imports.get(place) {
            None => Ok(true),
            Some(import) => learn_import(followed, readers, maps, brought, import, namespace),
        },
        Step::Glob(place) => match maps.globs.get(place) {
            None => Ok(true),
            Some(glob) => read(followed, readers, maps, brought, listing, glob),
        },
    }
}

/// Follows a step; where that leads to nothing yet, globs offer on first, and it is followed again.
fn follow_surely<'a>(
    followed: &mut Followed<'a>,
    readers: &mut Readers<'a>,
    maps: &DefMaps<'a>,
    brought: &Slots<Joined>,
    listing: &Listing<'a>,
    step: Step,
) -> Result<(), AllocError>
    requires ready { AreReady (of_tables maps.now) brought.now }
    requires listing { IsListing maps.now.world listing.now }
    requires readers { All (IsReader (of_tables maps.now) (slots_of followed.old.known)) readers.old.all.items }
    requires sound { IsSound (of_tables maps.now) followed.old }
    ensures follows { OnOk result (Follows (of_tables maps.now) followed.old followed.new) }
    ensures readers { OnOk result
        (All (IsReader (of_tables maps.now) (slots_of followed.new.known)) readers.new.all.items) }
{
    let is_done = follow_step(followed, readers, maps, brought, listing, step)?;
    if is_done || followed.fresh.is_empty() {
        return Ok(());
    }
    spread(followed, maps, brought, readers)?;
    follow_step(followed, readers, maps, brought, listing, step)?;
    Ok(())
}

/// Follows some steps, in order. Globs offer on at the end, before another glob is read, and before an import that needs it.
///
/// Fails only where memory runs out.
pub(crate) fn follow<'a>(
    followed: &mut Followed<'a>,
    alloc: Global,
    maps: &DefMaps<'a>,
    brought: &Slots<Joined>,
    listing: &Listing<'a>,
    steps: &[Step],
) -> Result<(), AllocError>
    requires ready { AreReady (of_tables maps.now) brought.now }
    requires listing { IsListing maps.now.world listing.now }
    requires sound { IsSound (of_tables maps.now) followed.old }
    ensures { OnOk result (Follows (of_tables maps.now) followed.old followed.new) }
{
    let mut readers = Readers::new(alloc);
    for step in steps {
        follow_surely(followed, &mut readers, maps, brought, listing, *step)?;
    }
    spread(followed, maps, brought, &readers)?;
    Ok(())
}
