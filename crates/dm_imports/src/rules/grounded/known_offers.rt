//! What globs offer by known slots.
ghost use Rattle.std.specs.Prelude.{◌≡◌, All, IfOk, OnOk, cond, fold};
ghost use Rattle.dm_base.specs.declared.ids.ModuleId.{ModuleId};
ghost use Rattle.dm_base.specs.declared.per_ns.Namespace.{Namespace};
ghost use Rattle.dm_base.specs.Names.{Name};
ghost use Rattle.dm_scope.specs.Sorted.{seen};
ghost use Rattle.dm_imports.specs.Brought as brought;
ghost use Rattle.dm_imports.specs.Grounded as spec;
ghost use Rattle.dm_imports.specs.Grounding.{HasSource, MayOffer, is_found, known_from, slots_of};
ghost use Rattle.dm_imports.specs.Meanings.{IsNamed};
ghost use Rattle.dm_imports.specs.Paths.{AreVariantsNamed};
ghost use Rattle.dm_imports.specs.Rules.{AreMapsKnown, IsGlobKnown};
ghost use Rattle.dm_imports.specs.Slots.{same_place, slot_at};
ghost use Rattle.dm_imports.specs.Supporting.{IsListing};
ghost use Rattle.dm_imports.specs.Tables.{of_tables};

use crate::container::Container;
use crate::def_maps::DefMaps;
use crate::glob_import::GlobImport;
use crate::joined::Joined;
use crate::meaning::Meaning;
use crate::rules::all_offers::add_offer;
use crate::rules::grounded::knowing::knowing;
use crate::rules::listing::{Listing, listed_names};
use crate::rules::offers::{offer_from, source_of};
use crate::slots::Slots;
use dm_base::name::Name;
use dm_base::per_ns::Namespace;
use std::alloc::{AllocError, Global};

/// Whether what a source has under a name is found by known slots: the names of an enum need none.
fn is_found(known: &Slots<bool>, source: Container, name: &Name, namespace: Namespace) -> bool
    ensures { result ≡ is_found (slots_of known.now) source name.now namespace }
{
    match source {
        Container::Module(m) => known.get(m, name, namespace).is_some(),
        Container::Enum(_) => true,
    }
}

/// What a glob offers of its source under a name, where that is found by known slots.
pub(crate) fn known_from(
    maps: &DefMaps<'_>,
    known: &Slots<bool>,
    glob: &GlobImport,
    source: Container,
    name: &Name,
    namespace: Namespace,
) -> Option<Meaning>
    requires glob { MayOffer (of_tables maps.now) glob.now }
    ensures value { result
        ≡ known_from (of_tables maps.now) (slots_of known.now) glob.now source name.now namespace }
    ensures named { IsNamed maps.now.world result }
{
    if !is_found(known, source, name, namespace) {
        return None;
    }
    offer_from(maps, glob, source, name, namespace)
}

/// Joins what a glob offers so under a name to the offers of other globs.
fn add_name(
    all: &mut Slots<Joined>,
    maps: &DefMaps<'_>,
    known: &Slots<bool>,
    glob: &GlobImport,
    source: Container,
    name: &Name,
) -> Result<(), AllocError>
    requires glob { MayOffer (of_tables maps.now) glob.now }
    requires all { brought.AreAllNamed maps.now.world all.old }
    ensures joined { OnOk result ((k : ModuleId) (x : Name) (t : Namespace) → slot_at all.new k x t
        ≡ cond (same_place glob.now.into name.now k x)
        (brought.join maps.now.world glob.now.into (slot_at all.old k x t)
        (known_from (of_tables maps.now) (slots_of known.now) glob.now source name.now t))
        (slot_at all.old k x t)) }
    ensures named { OnOk result (brought.AreAllNamed maps.now.world all.new) }
{
    let types = known_from(maps, known, glob, source, name, Namespace::Types);
    add_offer(all, maps.world, glob.into, name, Namespace::Types, types)?;
    let values = known_from(maps, known, glob, source, name, Namespace::Values);
    add_offer(all, maps.world, glob.into, name, Namespace::Values, values)?;
    let macros = known_from(maps, known, glob, source, name, Namespace::Macros);
    add_offer(all, maps.world, glob.into, name, Namespace::Macros, macros)?;
    Ok(())
}

/// The same under some names.
fn add_names(
    all: &mut Slots<Joined>,
    maps: &DefMaps<'_>,
    known: &Slots<bool>,
    glob: &GlobImport,
    source: Container,
    names: &[&Name],
) -> Result<(), AllocError>
    requires glob { MayOffer (of_tables maps.now) glob.now }
    requires all { brought.AreAllNamed maps.now.world all.old }
    ensures joined { OnOk result (brought.HasJoined maps.now.world glob.now.into
        (known_from (of_tables maps.now) (slots_of known.now) glob.now source)
        (seen names.now) all.old all.new) }
    ensures named { OnOk result (brought.AreAllNamed maps.now.world all.new) }
{
    for name in names {
        add_name(all, maps, known, glob, source, *name)?;
    }
    Ok(())
}

/// What a glob's path means, if it means something both in def maps and to one who knows some slots alone. Then it means
/// the same.
pub(crate) fn known_source(
    maps: &DefMaps<'_>,
    known: &Slots<bool>,
    glob: &GlobImport,
) -> Option<Container>
    requires { MayOffer (of_tables maps.now) glob.now }
    ensures { HasSource (of_tables maps.now) (slots_of known.now) glob.now result }
{
    let by = knowing(maps, known);
    if source_of(&by, glob).is_none() {
        return None;
    }
    source_of(maps, glob)
}

/// Joins what a glob offers by known slots to the offers of other globs.
fn add_glob(
    all: &mut Slots<Joined>,
    alloc: Global,
    maps: &DefMaps<'_>,
    listing: &Listing<'_>,
    known: &Slots<bool>,
    glob: &GlobImport,
) -> Result<(), AllocError>
    requires listing { IsListing maps.now.world listing.now }
    requires glob { MayOffer (of_tables maps.now) glob.now }
    requires all { brought.AreAllNamed maps.now.world all.old }
    ensures joined { OnOk result ((k : ModuleId) (x : Name) (t : Namespace) → slot_at all.new k x t
        ≡ brought.join maps.now.world k (slot_at all.old k x t)
        (spec.known_offer (of_tables maps.now) (slots_of known.now) k x t glob.now)) }
    ensures named { OnOk result (brought.AreAllNamed maps.now.world all.new) }
{
    match known_source(maps, known, glob) {
        None => Ok(()),
        Some(source) => {
            let names = listed_names(alloc, maps.world, listing, source)?;
            add_names(all, maps, known, glob, source, names.as_slice())?;
            Ok(())
        }
    }
}

/// The same of some globs.
fn add_globs(
    all: &mut Slots<Joined>,
    alloc: Global,
    maps: &DefMaps<'_>,
    listing: &Listing<'_>,
    known: &Slots<bool>,
    globs: &[GlobImport],
) -> Result<(), AllocError>
    requires listing { IsListing maps.now.world listing.now }
    requires variants { AreVariantsNamed (of_tables maps.now) }
    requires globs { All (IsGlobKnown (of_tables maps.now)) globs.now }
    requires all { brought.AreAllNamed maps.now.world all.old }
    ensures joined { OnOk result ((k : ModuleId) (x : Name) (t : Namespace) → slot_at all.new k x t
        ≡ fold (λ j g. brought.join maps.now.world k j
        (spec.known_offer (of_tables maps.now) (slots_of known.now) k x t g)) (slot_at all.old k x t) globs.now) }
    ensures named { OnOk result (brought.AreAllNamed maps.now.world all.new) }
{
    for glob in globs {
        add_glob(all, alloc, maps, listing, known, glob)?;
    }
    Ok(())
}

/// What the globs of each module offer together by known slots.
///
/// Fails only where memory runs out.
pub(crate) fn known_offers(
    alloc: Global,
    maps: &DefMaps<'_>,
    listing: &Listing<'_>,
    known: &Slots<bool>,
) -> Result<Slots<Joined>, AllocError>
    requires known { AreMapsKnown (of_tables maps.now) }
    requires listing { IsListing maps.now.world listing.now }
    ensures { IfOk result (λ all. (k : ModuleId) (x : Name) (t : Namespace) → slot_at all k x t
        ≡ spec.known_offers (of_tables maps.now) (slots_of known.now) k x t) }
{
    let mut all = Slots::new(alloc);
    add_globs(&mut all, alloc, maps, listing, known, maps.globs)?;
    Ok(all)
}
