//! Resolves raw visibilities, and tells the visibility of fields and associated items (docs/RULES.md, "Visibilities as
//! they are written").
ghost use Rattle.std.specs.Prelude.{◌≡◌, IfOk};
ghost use Rattle.std.specs.List.{AllByRecursion};
ghost use Rattle.dm_base.specs.declared.item_ids.AssocItemId.{AssocItemId};
ghost use Rattle.dm_base.specs.declared.visibility.RawVisibility.TheVariants as raws;
ghost use Rattle.dm_base.specs.declared.visibility.VisibilityExplicitness.TheVariants.{Implicit};
ghost use Rattle.dm_maps.specs.Holding.{def_holds};
ghost use Rattle.dm_maps.specs.TablesHold.{raw_holds};
ghost use Rattle.dm_maps.specs.Known.{KnowsAll};
ghost use Rattle.hir_def_map.specs.RawVisibilities.{module_reached, block_in, restricted, raw_visibility, or_public, visibility_in, variant_def, visibilities_in, field_visibilities_of, assoc_def, written_at, by_container, assoc_visibility_of, IsKnownVisibility, IsOfWorld};

use crate::path_resolution::ResolvePath;
use crate::path_resolution::type_module::type_module;
use dm_base::ids::{BlockId, ModuleId};
use dm_base::item_ids::{AdtId, AssocItemId, ItemContainerId, ModuleDefId, VariantId};
use dm_base::item_in_ns::ItemInNs;
use dm_base::per_ns::PerNs;
pub use dm_base::visibility::{RawVisibility, Visibility, VisibilityExplicitness};
use dm_maps::def_map::DefMap;
use dm_maps::local_def_map::LocalDefMap;
use dm_maps::world::World;
use std::alloc::{AllocError, Global};

/// The module that a path resolves to: none where a segment is left, or the type is no module.
pub(crate) fn module_reached(found: PerNs, left: Option<usize>) -> Option<ModuleId>
    ensures { result ≡ module_reached found left }
{
    if left.is_some() {
        return None;
    }
    type_module(found.types)
}

/// The block in whose map a module lies.
fn block_in(world: &World, m: ModuleId) -> Option<BlockId>
    ensures { result ≡ block_in world.now m }
{
    world.map_of(m)?.block_id()
}

/// The module that a visibility of a map names for `m`: outside an `impl`, the map's root replaces a module of another
/// block.
pub(crate) fn restricted(world: &World, map: &DefMap, within_impl: bool, m: ModuleId) -> ModuleId
    ensures { result ≡ restricted world.now map.now within_impl m }
{
    if within_impl || block_in(world, m) == map.block_id() {
        m
    } else {
        map.root_module_id()
    }
}

/// Resolution of raw visibilities, as functions of `Visibility`.
pub trait ResolveVisibility {
    /// What a raw visibility in a module of a map resolves to: public where its path leads to no module.
    ///
    /// The map has to be the world's of its id, the module one of it, and the world has to know local map and path
    /// (`World::knows_local`, `World::knows_path`). Allocates nothing.
    fn resolve(
        world: &World,
        map: &DefMap,
        local: &LocalDefMap,
        m: ModuleId,
        within_impl: bool,
        raw: &RawVisibility,
    ) -> Visibility
        requires { IsKnownVisibility world.now map.now local.now m raw.now }
        ensures value { result ≡ or_public
            (raw_visibility world.now local.now map.now m within_impl raw.now) }
        ensures known { IsOfWorld world.now result };
}

impl ResolveVisibility for Visibility {
    fn resolve(
        world: &World,
        map: &DefMap,
        local: &LocalDefMap,
        m: ModuleId,
        within_impl: bool,
        raw: &RawVisibility,
    ) -> Visibility {
        let resolved = map.resolve_visibility(local, world, m, raw, within_impl);
        resolved.unwrap_or(Visibility::Public)
    }
}

/// What a raw visibility in a module resolves to, by the module's own map and the extern prelude of its crate.
///
/// The world has to know the path (`World::knows_path`). In a module that it does not have, everything is
/// public. Allocates nothing.
pub fn visibility_from_raw(
    world: &World,
    m: ModuleId,
    within_impl: bool,
    raw: &RawVisibility,
) -> Visibility
    requires { KnowsAll world.now (raw_holds raw.now) }
    ensures value { result ≡ visibility_in world.now m within_impl raw.now }
    ensures known { IsOfWorld world.now result }
{
    match world.map_of(m) {
        None => Visibility::Public,
        Some(map) => Visibility::resolve(world, map, world.local_map_of(map), m, within_impl, raw),
    }
}

/// The fields of variants, structs and unions.
#[derive(Clone, Copy)]
pub struct VariantFields;

impl VariantFields {
    /// Who sees each field of a variant, a struct or a union of the world's, in order; none where no fields were set.
    ///
    /// Fails only where an allocation fails.
    pub fn field_visibilities(
        alloc: Global,
        world: &World,
        variant: VariantId,
    ) -> Result<Vec<Visibility>, AllocError>
        requires { KnowsAll world.now (def_holds (variant_def variant)) }
        ensures value { IfOk result (λ seen. seen.items ≡ field_visibilities_of world.now variant) }
        ensures known { IfOk result (λ seen. AllByRecursion (IsOfWorld world.now) seen.items) }
    {
        let declared_in = ItemInNs::Types(variant_def(variant)).module(world);
        match (declared_in, world.raw_fields_of(variant)) {
            (Some(m), Some(fields)) => visibilities_in(alloc, world, m, fields),
            _ => Ok(Vec::new(alloc)),
        }
    }
}

fn variant_def(variant: VariantId) -> ModuleDefId
    ensures { result ≡ variant_def variant }
{
    match variant {
        VariantId::EnumVariantId(v) => ModuleDefId::EnumVariantId(v),
        VariantId::StructId(s) => ModuleDefId::AdtId(AdtId::StructId(s)),
        VariantId::UnionId(u) => ModuleDefId::AdtId(AdtId::UnionId(u)),
    }
}

/// What the raw visibilities of fields resolve to in a module, in order.
fn visibilities_in(
    alloc: Global,
    world: &World,
    m: ModuleId,
    fields: &[RawVisibility],
) -> Result<Vec<Visibility>, AllocError>
    requires { AllByRecursion (λ v. KnowsAll world.now (raw_holds v)) fields.now }
    ensures value { IfOk result (λ seen. seen.items ≡ visibilities_in world.now m fields.now) }
    ensures known { IfOk result (λ seen. AllByRecursion (IsOfWorld world.now) seen.items) }
{
    let mut seen = Vec::new(alloc);
    let mut rest = fields;
    'fields: while let Some((field, after)) = rest.split_first() {
        seen.push(visibility_from_raw(world, m, false, field))?;
        rest = after;
    }
    Ok(seen)
}

/// Associated items, whose visibility depends on the trait or impl that contains them.
pub trait AssocVisibility {
    /// The item, as contracts see it.
    ghost item: { Self → AssocItemId };

    /// The visibility of an associated item of the world's: in a trait that of the trait, else its own, which in an
    /// `impl` may name a module of any block. Allocates nothing.
    fn assoc_visibility(self, world: &World) -> Visibility
        requires { KnowsAll world.now (def_holds (assoc_def (item self))) }
        ensures value { result ≡ assoc_visibility_of world.now (item self) }
        ensures known { IsOfWorld world.now result };
}

impl AssocVisibility for AssocItemId {
    ghost item = { λ id. id };

    fn assoc_visibility(self, world: &World) -> Visibility {
        let def = assoc_def(self);
        match world.raw_assoc_of(self) {
            None => written_at(world, def, false, &unset()),
            Some((container, raw)) => by_container(world, def, *container, raw),
        }
    }
}

fn assoc_def(item: AssocItemId) -> ModuleDefId
    ensures { result ≡ assoc_def item }
{
    match item {
        AssocItemId::FunctionId(f) => ModuleDefId::FunctionId(f),
        AssocItemId::ConstId(c) => ModuleDefId::ConstId(c),
        AssocItemId::TypeAliasId(t) => ModuleDefId::TypeAliasId(t),
    }
}

/// The visibility of an item without a written one.
fn unset() -> RawVisibility
    ensures { result ≡ raws.PubSelf Implicit }
{
    RawVisibility::PubSelf(VisibilityExplicitness::Implicit)
}

/// What the raw visibility of a definition resolves to: in the definition's module.
fn written_at(world: &World, def: ModuleDefId, within_impl: bool, raw: &RawVisibility) -> Visibility
    requires { KnowsAll world.now (raw_holds raw.now) }
    ensures value { result ≡ written_at world.now def within_impl raw.now }
    ensures known { IsOfWorld world.now result }
{
    match ItemInNs::Types(def).module(world) {
        None => Visibility::Public,
        Some(m) => visibility_from_raw(world, m, within_impl, raw),
    }
}

/// The visibility of an associated item, by the trait or impl that contains it.
fn by_container(
    world: &World,
    def: ModuleDefId,
    container: ItemContainerId,
    raw: &RawVisibility,
) -> Visibility
    requires { KnowsAll world.now (raw_holds raw.now) }
    ensures value { result ≡ by_container world.now def container raw.now }
    ensures known { IsOfWorld world.now result }
{
    match container {
        ItemContainerId::TraitId(t) => {
            let of_trait = ModuleDefId::TraitId(t);
            match world.raw_trait_of(t) {
                None => written_at(world, of_trait, false, &unset()),
                Some(raw) => written_at(world, of_trait, false, raw),
            }
        }
        ItemContainerId::ImplId(_) => written_at(world, def, true, raw),
        ItemContainerId::ExternBlockId(_) | ItemContainerId::ModuleId(_) => {
            written_at(world, def, false, raw)
        }
    }
}
