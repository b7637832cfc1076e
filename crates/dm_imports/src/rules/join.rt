//! Offers of globs, joined.
ghost use Rattle.std.specs.Prelude.{◌≡◌};
ghost use Rattle.std.specs.Option.{ForSome};
ghost use Rattle.dm_base.specs.Tree.{IsKnown};
ghost use Rattle.dm_base.specs.Visibility.{NamesKnown};
ghost use Rattle.dm_maps.specs.Trees.{tree_of};
ghost use Rattle.dm_imports.specs.Brought as spec;
ghost use Rattle.dm_imports.specs.Meanings.{AreNamed, IsNamed};
ghost use Rattle.dm_imports.specs.Rules.{conflicts};

use crate::joined::Joined;
use crate::meaning::Meaning;
use crate::rules::visibilities::{least, most};
use dm_base::ids::ModuleId;
use dm_maps::world::World;

/// One offer.
fn alone(offer: Meaning) -> Joined
    ensures { result ≡ spec.alone offer }
{
    Joined {
        first: offer,
        most: offer.vis,
        least: offer.vis,
        is_ambiguous: offer.is_ambiguous,
    }
}

/// Whether an offer conflicts with the first: whether it is ambiguous, or has another definition.
fn conflicts_with(first: Meaning, offer: Meaning) -> bool
    ensures { result ≡ conflicts first offer }
{
    offer.is_ambiguous || first.def != offer.def
}

/// Some offers and one more.
fn both(world: &World, m: ModuleId, all: Joined, offer: Meaning) -> Joined
    requires home { IsKnown (tree_of world.now) m }
    requires all { AreNamed world.now all }
    requires offer { NamesKnown (tree_of world.now) offer.vis }
    ensures value { result ≡ spec.both world.now m all offer }
    ensures named { AreNamed world.now result }
{
    Joined {
        first: all.first,
        most: most(world, m, all.most, offer.vis),
        least: least(world, m, all.least, offer.vis),
        is_ambiguous: all.is_ambiguous || conflicts_with(all.first, offer),
    }
}

/// Some offers, and one more if there is one.
pub(crate) fn join(
    world: &World,
    m: ModuleId,
    all: Option<Joined>,
    offer: Option<Meaning>,
) -> Option<Joined>
    requires home { IsKnown (tree_of world.now) m }
    requires all { ForSome all (AreNamed world.now) }
    requires offer { IsNamed world.now offer }
    ensures value { result ≡ spec.join world.now m all offer }
    ensures named { ForSome result (AreNamed world.now) }
{
    match (all, offer) {
        (all, None) => all,
        (None, Some(offer)) => Some(alone(offer)),
        (Some(all), Some(offer)) => Some(both(world, m, all, offer)),
    }
}
