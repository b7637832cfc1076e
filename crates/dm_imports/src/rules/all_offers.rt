//! What globs bring.
ghost use Rattle.std.specs.Prelude.{◌≡◌, All, IfOk, OnOk, cond, fold};
ghost use Rattle.std.specs.Option.{ForSome};
ghost use Rattle.dm_base.specs.declared.ids.ModuleId.{ModuleId};
ghost use Rattle.dm_base.specs.declared.per_ns.Namespace.{Namespace};
ghost use Rattle.dm_base.specs.Names.{Name};
ghost use Rattle.dm_base.specs.Tree.{IsKnown};
ghost use Rattle.dm_base.specs.Visibility.{NamesKnown};
ghost use Rattle.dm_maps.specs.Trees.{tree_of};
ghost use Rattle.dm_scope.specs.Sorted.{seen};
ghost use Rattle.dm_imports.specs.Brought as brought;
ghost use Rattle.dm_imports.specs.Meanings.{IsNamed};
ghost use Rattle.dm_imports.specs.Paths.{AreVariantsNamed};
ghost use Rattle.dm_imports.specs.Rules as spec;
ghost use Rattle.dm_imports.specs.Rules.{AreMapsKnown};
ghost use Rattle.dm_imports.specs.Slots.{same_place, same_slot, slot_at};
ghost use Rattle.dm_imports.specs.Supporting.{IsListing};
ghost use Rattle.dm_imports.specs.Tables.{of_tables};

use crate::container::Container;
use crate::def_maps::DefMaps;
use crate::glob_import::GlobImport;
use crate::joined::Joined;
use crate::meaning::Meaning;
use crate::rules::join::join;
use crate::rules::listing::{Listing, listed_names};
use crate::rules::offers::{offers_from, source_of};
use crate::slots::Slots;
use dm_base::ids::ModuleId;
use dm_base::name::Name;
use dm_base::per_ns::Namespace;
use dm_maps::world::World;
use std::alloc::{AllocError, Global};

/// Joins an offer to those of its slot.
pub(crate) fn add_offer(
    all: &mut Slots<Joined>,
    world: &World,
    m: ModuleId,
    name: &Name,
    namespace: Namespace,
    offer: Option<Meaning>,
) -> Result<(), AllocError>
    requires home { IsKnown (tree_of world.now) m }
    requires all { brought.AreAllNamed world.now all.old }
    requires offer { IsNamed world.now offer }
    ensures joined { OnOk result ((k : ModuleId) (x : Name) (t : Namespace) → slot_at all.new k x t
        ≡ cond (same_slot m name.now namespace k x t) (brought.join world.now m (slot_at all.old k x t) offer)
        (slot_at all.old k x t)) }
    ensures named { OnOk result (brought.AreAllNamed world.now all.new) }
{
    if offer.is_none() {
        return Ok(());
    }
    let before = all.get(m, name, namespace);
    match join(world, m, before, offer) {
        None => Ok(()),
        Some(after) => all.put(m, name, namespace, after),
    }
}

/// Joins what a glob offers of a source under a name to the offers of other globs.
fn add_name(
    all: &mut Slots<Joined>,
    maps: &DefMaps<'_>,
    glob: &GlobImport,
    source: Container,
    name: &Name,
) -> Result<(), AllocError>
    requires into { IsKnown (tree_of maps.now.world) glob.now.into }
    requires vis { NamesKnown (tree_of maps.now.world) glob.now.vis }
    requires variants { AreVariantsNamed (of_tables maps.now) }
    requires all { brought.AreAllNamed maps.now.world all.old }
    ensures joined { OnOk result ((k : ModuleId) (x : Name) (t : Namespace) → slot_at all.new k x t
        ≡ cond (same_place glob.now.into name.now k x)
        (brought.join maps.now.world glob.now.into (slot_at all.old k x t)
        (spec.offer_from (of_tables maps.now) glob.now source name.now t))
        (slot_at all.old k x t)) }
    ensures named { OnOk result (brought.AreAllNamed maps.now.world all.new) }
{
    let offers = offers_from(maps, glob, source, name);
    let (world, into) = (maps.world, glob.into);
    add_offer(all, world, into, name, Namespace::Types, offers.types)?;
    add_offer(all, world, into, name, Namespace::Values, offers.values)?;
    add_offer(all, world, into, name, Namespace::Macros, offers.macros)?;
    Ok(())
}

/// The same under some names. Were one of them there twice, its offer would be joined twice, which changes nothing.
fn add_names(
    all: &mut Slots<Joined>,
    maps: &DefMaps<'_>,
    glob: &GlobImport,
    source: Container,
    names: &[&Name],
) -> Result<(), AllocError>
    requires into { IsKnown (tree_of maps.now.world) glob.now.into }
    requires vis { NamesKnown (tree_of maps.now.world) glob.now.vis }
    requires variants { AreVariantsNamed (of_tables maps.now) }
    requires all { brought.AreAllNamed maps.now.world all.old }
    ensures joined { OnOk result (brought.HasOffers (of_tables maps.now) glob.now source (seen names.now) all.old all.new) }
    ensures named { OnOk result (brought.AreAllNamed maps.now.world all.new) }
{
    for name in names {
        add_name(all, maps, glob, source, *name)?;
    }
    Ok(())
}

/// Joins what a glob offers to the offers of other globs.
fn add_glob(
    all: &mut Slots<Joined>,
    alloc: Global,
    maps: &DefMaps<'_>,
    listing: &Listing<'_>,
    glob: &GlobImport,
) -> Result<(), AllocError>
    requires listing { IsListing maps.now.world listing.now }
    requires into { IsKnown (tree_of maps.now.world) glob.now.into }
    requires vis { NamesKnown (tree_of maps.now.world) glob.now.vis }
    requires variants { AreVariantsNamed (of_tables maps.now) }
    requires all { brought.AreAllNamed maps.now.world all.old }
    ensures joined { OnOk result ((k : ModuleId) (x : Name) (t : Namespace) → slot_at all.new k x t
        ≡ brought.join maps.now.world k (slot_at all.old k x t) (spec.offer_to (of_tables maps.now) k x t glob.now)) }
    ensures named { OnOk result (brought.AreAllNamed maps.now.world all.new) }
{
    match source_of(maps, glob) {
        None => Ok(()),
        Some(source) => {
            let names = listed_names(alloc, maps.world, listing, source)?;
            add_names(all, maps, glob, source, names.as_slice())?;
            Ok(())
        }
    }
}

/// The same of some globs.
fn add_globs(
    all: &mut Slots<Joined>,
    alloc: Global,
    maps: &DefMaps<'_>,
    listing: &Listing<'_>,
    globs: &[GlobImport],
) -> Result<(), AllocError>
    requires listing { IsListing maps.now.world listing.now }
    requires variants { AreVariantsNamed (of_tables maps.now) }
    requires globs { All (spec.IsGlobKnown (of_tables maps.now)) globs.now }
    requires all { brought.AreAllNamed maps.now.world all.old }
    ensures joined { OnOk result ((k : ModuleId) (x : Name) (t : Namespace) → slot_at all.new k x t
        ≡ fold (λ j g. brought.join maps.now.world k j (spec.offer_to (of_tables maps.now) k x t g))
        (slot_at all.old k x t) globs.now) }
    ensures named { OnOk result (brought.AreAllNamed maps.now.world all.new) }
{
    for glob in globs {
        add_glob(all, alloc, maps, listing, glob)?;
    }
    Ok(())
}

/// What the globs of each module bring together.
///
/// Fails only where memory runs out.
pub(crate) fn all_offers(
    alloc: Global,
    maps: &DefMaps<'_>,
    listing: &Listing<'_>,
) -> Result<Slots<Joined>, AllocError>
    requires known { AreMapsKnown (of_tables maps.now) }
    requires listing { IsListing maps.now.world listing.now }
    ensures value { IfOk result (λ all. (k : ModuleId) (x : Name) (t : Namespace) → slot_at all k x t
        ≡ spec.all_offers (of_tables maps.now) maps.now.globs k x t) }
    ensures named { IfOk result (brought.AreAllNamed maps.now.world) }
{
    let mut all = Slots::new(alloc);
    add_globs(&mut all, alloc, maps, listing, maps.globs)?;
    Ok(all)
}
