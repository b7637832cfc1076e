//! What a slot shows who asks.
ghost use Rattle.std.specs.Prelude.{◌≡◌};
ghost use Rattle.std.specs.Option.{option_copied, option_map};
ghost use Rattle.dm_imports.specs.Meanings.{IsNamed, in_namespace as in_namespace_of};
ghost use Rattle.dm_imports.specs.Paths as spec;
ghost use Rattle.dm_imports.specs.Paths.{MayAsk};
ghost use Rattle.dm_imports.specs.Tables.{asks, joined_by, of_tables, spoiled_if};
ghost use Rattle.dm_base.specs.Visibility.{NamesKnown};
ghost use Rattle.dm_maps.specs.Holding.{res_holds};
ghost use Rattle.dm_maps.specs.Known.{KnowsAll};
ghost use Rattle.dm_maps.specs.Trees.{tree_of};
ghost use Rattle.dm_maps.specs.World.{scope_of};
ghost use Rattle.dm_scope.specs.Scope.{bound_in};

use crate::asking::Asking;
use crate::def_maps::DefMaps;
use crate::joined::{Joined, together};
use crate::meaning::{Meaning, Source, in_namespace, type_in};
use crate::slots::Slots;
use dm_base::ids::ModuleId;
use dm_base::imports::ImportId;
use dm_base::name::Name;
use dm_base::per_ns::{Namespace, PerNs};
use dm_maps::world::World;

/// What a module binds under a name, in a namespace.
fn bound_at(world: &World, m: ModuleId, name: &Name, namespace: Namespace) -> Option<Meaning>
    ensures value { result ≡ in_namespace_of namespace (bound_in (scope_of world.now m) name.now) }
    ensures named { IsNamed world.now result }
{
    match namespace {
        Namespace::Types => type_in(world.type_in(m, name).copied()),
        _ => {
            let items = world.bound_in(m, name);
            in_namespace(&items, namespace)
        }
    }
}

/// What a slot means that has `bound`, which is marked as the slot is.
fn marked(
    maps: &DefMaps<'_>,
    m: ModuleId,
    name: &Name,
    namespace: Namespace,
    bound: Option<Meaning>,
) -> Option<Meaning>
    ensures { result ≡ option_map (spec.marked ((of_tables maps.now).is_ambiguous m name.now namespace)) bound }
{
    let meaning = bound?;
    let is_ambiguous = maps.ambiguous.has(m, name, namespace);
    Some(Meaning {
        is_ambiguous,
        ..meaning
    })
}

/// What a name of a module means in a namespace.
pub(crate) fn at(
    maps: &DefMaps<'_>,
    m: ModuleId,
    name: &Name,
    namespace: Namespace,
) -> Option<Meaning>
    ensures value { result ≡ spec.at (of_tables maps.now) m name.now namespace }
    ensures named { IsNamed maps.now.world result }
{
    let bound = bound_at(maps.world, m, name, namespace);
    marked(maps, m, name, namespace, bound)
}

/// The same, where the module binds `items` under the name.
pub(crate) fn item_at(
    maps: &DefMaps<'_>,
    m: ModuleId,
    name: &Name,
    items: &PerNs,
    namespace: Namespace,
) -> Option<Meaning>
    requires { items.now ≡ bound_in (scope_of maps.now.world m) name.now }
    ensures value { result ≡ spec.at (of_tables maps.now) m name.now namespace }
    ensures named { KnowsAll maps.now.world (res_holds items.now) → IsNamed maps.now.world result }
{
    marked(maps, m, name, namespace, in_namespace(items, namespace))
}

/// Whether an import, if one asks, brought it.
pub(crate) fn is_by(import: Option<ImportId>, source: Source) -> bool
    ensures { result ≡ spec.is_by import source }
{
    match (import, source) {
        (Some(import), Source::Import(other)) => import == other,
        _ => false,
    }
}

/// What globs bring to a slot.
fn below(asking: &Asking<'_>, m: ModuleId, name: &Name, namespace: Namespace) -> Option<Meaning>
    ensures { result ≡ (asks asking.now).below m name.now namespace }
{
    let all = asking.below?.get(m, name, namespace)?;
    Some(joined_by(asking.offered, m, name, namespace, all))
}

/// What some globs bring together, which leads on at some slots alone.
fn joined_by(
    offered: Option<&Slots<Joined>>,
    m: ModuleId,
    name: &Name,
    namespace: Namespace,
    all: Joined,
) -> Meaning
    ensures { result ≡ joined_by (option_copied offered.entry) m name.now namespace all }
{
    match offered {
        None => together(all),
        Some(slots) => {
            let is_spoiled = slots.get(m, name, namespace).is_none();
            spoiled_if(is_spoiled, all)
        }
    }
}

/// What some globs bring together, which may be spoiled.
fn spoiled_if(is_spoiled: bool, all: Joined) -> Meaning
    ensures { result ≡ spoiled_if is_spoiled all }
{
    let found = together(all);
    Meaning {
        is_ambiguous: found.is_ambiguous || is_spoiled,
        ..found
    }
}

/// What is seen of what a slot has.
fn seen(
    maps: &DefMaps<'_>,
    asking: &Asking<'_>,
    m: ModuleId,
    name: &Name,
    namespace: Namespace,
    meaning: Meaning,
) -> Option<Meaning>
    requires asking { MayAsk (of_tables maps.now) (asks asking.now) }
    requires named { NamesKnown (tree_of maps.now.world) meaning.vis }
    ensures value { result ≡ spec.seen (of_tables maps.now) (asks asking.now) m name.now namespace meaning }
    ensures named { IsNamed maps.now.world result }
{
    if is_by(asking.import, meaning.source) {
        below(asking, m, name, namespace)
    } else if meaning.vis.is_visible_from(maps.world, asking.home) {
        Some(meaning)
    } else {
        None
    }
}

/// What a name of a module shows who asks.
pub(crate) fn shown(
    maps: &DefMaps<'_>,
    asking: &Asking<'_>,
    m: ModuleId,
    name: &Name,
    namespace: Namespace,
) -> Option<Meaning>
    requires { MayAsk (of_tables maps.now) (asks asking.now) }
    ensures value { result ≡ spec.shown (of_tables maps.now) (asks asking.now) m name.now namespace }
    ensures named { IsNamed maps.now.world result }
{
    match at(maps, m, name, namespace) {
        None => None,
        Some(meaning) => seen(maps, asking, m, name, namespace, meaning),
    }
}

/// The same, where the module binds `items` under the name.
pub(crate) fn item_shown(
    maps: &DefMaps<'_>,
    asking: &Asking<'_>,
    m: ModuleId,
    name: &Name,
    items: &PerNs,
    namespace: Namespace,
) -> Option<Meaning>
    requires asking { MayAsk (of_tables maps.now) (asks asking.now) }
    requires items { items.now ≡ bound_in (scope_of maps.now.world m) name.now }
    requires known { KnowsAll maps.now.world (res_holds items.now) }
    ensures value { result ≡ spec.shown (of_tables maps.now) (asks asking.now) m name.now namespace }
    ensures named { IsNamed maps.now.world result }
{
    match item_at(maps, m, name, items, namespace) {
        None => None,
        Some(meaning) => seen(maps, asking, m, name, namespace, meaning),
    }
}
