//! What a path leads through.
ghost use Rattle.std.specs.Prelude.{◌≡◌};
ghost use Rattle.std.specs.Option.{option_and_then};
ghost use Rattle.dm_base.specs.Visibility.{NamesKnown};
ghost use Rattle.dm_base.specs.declared.visibility.Visibility.TheVariants.{Public};
ghost use Rattle.dm_maps.specs.Trees.{tree_of};
ghost use Rattle.dm_imports.specs.Meanings.{IsNamed};
ghost use Rattle.dm_imports.specs.Paths as spec;
ghost use Rattle.dm_imports.specs.Paths.{AreVariantsNamed, MayAsk};
ghost use Rattle.dm_imports.specs.Tables as tables;
ghost use Rattle.dm_imports.specs.Tables.{asks, of_tables};

use crate::asking::Asking;
use crate::container::Container;
use crate::def_maps::DefMaps;
use crate::known::is_named;
use crate::meaning::{Meaning, Source};
use crate::paths::shown::shown;
use dm_base::fields_shape::FieldsShape;
use dm_base::ids::{EnumId, EnumVariantId};
use dm_base::item_ids::{AdtId, ModuleDefId};
use dm_base::name::Name;
use dm_base::per_ns::Namespace;
use dm_base::visibility::Visibility;
use dm_maps::world::World;

/// The module or enum that a definition is, if it is one.
pub(crate) fn container_in(def: ModuleDefId) -> Option<Container>
    ensures { result ≡ spec.container_in def }
{
    match def {
        ModuleDefId::ModuleId(m) => Some(Container::Module(m)),
        ModuleDefId::AdtId(AdtId::EnumId(e)) => Some(Container::Enum(e)),
        _ => None,
    }
}

/// Where a meaning leads; an ambiguous one leads nowhere.
fn leads(meaning: Meaning) -> Option<Container>
    ensures { result ≡ spec.leads meaning }
{
    if meaning.is_ambiguous {
        None
    } else {
        container_in(meaning.def)
    }
}

/// Where a meaning leads, if there is one.
pub(crate) fn led(meaning: Option<Meaning>) -> Option<Container>
    ensures { result ≡ option_and_then spec.leads meaning }
{
    match meaning {
        None => None,
        Some(meaning) => leads(meaning),
    }
}

/// A variant in a namespace.
pub(crate) fn variant_in(
    namespace: Namespace,
    shape: FieldsShape,
    def: ModuleDefId,
    vis: Visibility,
) -> Option<Meaning>
    ensures { result ≡ spec.variant_in namespace shape def vis }
{
    let meaning = Meaning {
        def,
        vis,
        source: Source::Declaration,
        is_ambiguous: false,
    };
    match (namespace, shape) {
        (Namespace::Types, _) => Some(meaning),
        (Namespace::Values, FieldsShape::Tuple) => Some(meaning),
        (Namespace::Values, FieldsShape::Unit) => Some(meaning),
        _ => None,
    }
}

/// A visibility of a module that is not the world's counts as public.
fn named_or_public(world: &World, vis: Visibility) -> Visibility
    ensures value { result ≡ tables.named_or_public (tree_of world.now) vis }
    ensures named { NamesKnown (tree_of world.now) result }
{
    if is_named(world, vis) {
        vis
    } else {
        Visibility::Public
    }
}

/// Who sees the constructor of a variant of an enum that all see.
fn constructor_vis(maps: &DefMaps<'_>, v: EnumVariantId) -> Visibility
    ensures value { result ≡ spec.constructor_of Public ((of_tables maps.now).constructor_vis v) }
    ensures named { NamesKnown (tree_of maps.now.world) result }
{
    match maps.declarations.constructor_vis(v) {
        None => Visibility::Public,
        Some(vis) => named_or_public(maps.world, vis),
    }
}

/// Who sees a variant in a namespace.
fn variant_vis(maps: &DefMaps<'_>, e: EnumId, namespace: Namespace, v: EnumVariantId) -> Visibility
    ensures value { result ≡ spec.variant_vis (of_tables maps.now) e namespace v }
    ensures named { NamesKnown (tree_of maps.now.world) result }
{
    let of_enum = named_or_public(maps.world, maps.declarations.enum_vis(e));
    match (namespace, of_enum) {
        (Namespace::Values, Visibility::Public) => constructor_vis(maps, v),
        _ => of_enum,
    }
}

/// The variant of an enum under a name.
pub(crate) fn variant(
    maps: &DefMaps<'_>,
    e: EnumId,
    name: &Name,
    namespace: Namespace,
) -> Option<Meaning>
    requires { AreVariantsNamed (of_tables maps.now) }
    ensures value { result ≡ spec.variant (of_tables maps.now) e name.now namespace }
    ensures named { IsNamed maps.now.world result }
{
    if !maps.world.knows_def(ModuleDefId::AdtId(AdtId::EnumId(e))) {
        return None;
    }
    match maps.world.variant_of(e, name) {
        None => None,
        Some((v, shape)) => {
            let vis = variant_vis(maps, e, namespace, v);
            variant_in(namespace, shape, ModuleDefId::EnumVariantId(v), vis)
        }
    }
}

/// A meaning that is seen, if the module that asks sees it.
fn if_visible(maps: &DefMaps<'_>, asking: &Asking<'_>, meaning: Option<Meaning>) -> Option<Meaning>
    requires asking { MayAsk (of_tables maps.now) (asks asking.now) }
    requires named { IsNamed maps.now.world meaning }
    ensures value { result ≡ spec.visible (of_tables maps.now) (asks asking.now) meaning }
    ensures named { IsNamed maps.now.world result }
{
    let found = meaning?;
    if found.vis.is_visible_from(maps.world, asking.home) {
        Some(found)
    } else {
        None
    }
}

/// A name in a container, where the module that asks sees it.
pub(crate) fn member(
    maps: &DefMaps<'_>,
    asking: &Asking<'_>,
    container: Container,
    name: &Name,
    namespace: Namespace,
) -> Option<Meaning>
    requires { MayAsk (of_tables maps.now) (asks asking.now) }
    ensures value { result ≡ spec.member (of_tables maps.now) (asks asking.now) container name.now namespace }
    ensures named { IsNamed maps.now.world result }
{
    match container {
        Container::Module(m) => shown(maps, asking, m, name, namespace),
        Container::Enum(e) => {
            let found = variant(maps, e, name, namespace);
            if_visible(maps, asking, found)
        }
    }
}

/// Segments in a container: each but the last one leads on as a type.
pub(crate) fn through(
    maps: &DefMaps<'_>,
    asking: &Asking<'_>,
    container: Container,
    name: &Name,
    rest: &[Name],
    namespace: Namespace,
) -> Option<Meaning>
    requires { MayAsk (of_tables maps.now) (asks asking.now) }
    ensures value { result ≡ spec.through (of_tables maps.now) (asks asking.now) container name.now rest.now namespace }
    ensures named { IsNamed maps.now.world result }
{
    let (mut at, mut segment, mut left) = (container, name, rest);
    'segments: while let Some((next, after)) = left.split_first() {
        let types = member(maps, asking, at, segment, Namespace::Types);
        let Some(into) = led(types) else {
            return None;
        };
        at = into;
        segment = next;
        left = after;
    }
    member(maps, asking, at, segment, namespace)
}
