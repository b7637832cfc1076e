//! Resolves the segments of a path after the first, one after another.
ghost use Rattle.std.specs.Prelude.{◌≡◌, ◌≤◌, [], ◌∷◌, map};
ghost use Rattle.std.specs.Option.{ForSome, option_copied};
ghost use Rattle.dm_base.specs.PerNs.{keep, seen_by};
ghost use Rattle.dm_base.specs.Tree.{IsKnown, crate_of, sees};
ghost use Rattle.dm_base.specs.Visibility.{NamesKnown};
ghost use Rattle.dm_scope.specs.Scope.{bound_in};
ghost use Rattle.dm_maps.specs.Known.{KnowsAll};
ghost use Rattle.dm_maps.specs.Holding.{res_holds, type_holds};
ghost use Rattle.dm_maps.specs.World.{scope_of};
ghost use Rattle.dm_def_map.specs.Maps.{LocalMap};
ghost use Rattle.dm_maps.specs.Readings.{read};
ghost use Rattle.dm_maps.specs.Trees.{tree_of};
ghost use Rattle.hir_def_map.specs.Paths.{at_adt};
ghost use Rattle.hir_def_map.specs.Walk.{crossed, in_types, standing, starting, entry, left_at, walk};

use crate::path_resolution::answers::{nothing_no, reached, stopped, variant_answer};
use crate::path_resolution::result::{
    ReachedFixedPoint, ResolvePathResult, ResolvePathResultPrefixInfo,
};
use crate::path_resolution::type_module::module_in;
use dm_base::ids::{Crate, EnumId, ModuleId};
use dm_base::item_ids::{AdtId, ModuleDefId};
use dm_base::module_tree::ModuleTree;
use dm_base::name::Name;
use dm_base::per_ns::{Item, PerNs, TypesItem};
use dm_maps::world::World;

/// A module that a walk goes into: whether it lies in another crate than the walk began in, from where it is seen and the
/// crate of that, and which it is.
#[derive(Clone, Copy)]
pub(crate) struct Entered {
    differing: bool,
    origin: ModuleId,
    krate: Crate,
    asked: ModuleId,
}

/// The item, if `from` sees it.
fn seen_item<'a, D, I>(
    world: &World,
    from: ModuleId,
    item: Option<&'a Item<D, I>>,
) -> Option<&'a Item<D, I>>
    requires from { IsKnown (tree_of world.now) from }
    requires named { ForSome (option_copied item) (λ i. NamesKnown (tree_of world.now) i.vis) }
    ensures { option_copied result ≡
        keep (λ i. sees (tree_of world.now) i.vis from) (option_copied item.entry) }
{
    let i = item?;
    if i.vis.is_visible_from(world, from) {
        Some(i)
    } else {
        None
    }
}

/// What a module's scope binds under a segment, each item kept if `from` sees it.
pub(crate) fn seen_in(world: &World, from: ModuleId, m: ModuleId, segment: &Name) -> PerNs
    requires { IsKnown (tree_of world.now) from }
    ensures value { result ≡ seen_by (λ v. sees (tree_of world.now) v from)
        (bound_in (scope_of world.now m) segment.now) }
    ensures known { KnowsAll world.now (res_holds result) }
{
    let bound = world.bound_in(m, segment);
    PerNs {
        types: seen_item(world, from, bound.types.as_ref()).copied(),
        values: seen_item(world, from, bound.values.as_ref()).copied(),
        macros: seen_item(world, from, bound.macros.as_ref()).copied(),
    }
}

/// What a module's scope binds as a type under a segment, kept if `from` sees it: one look-up, and no copy.
fn seen_type_in<'a>(
    world: &'a World,
    from: ModuleId,
    m: ModuleId,
    segment: &Name,
) -> Option<&'a TypesItem>
    requires from { IsKnown (tree_of world.now) from }
    ensures value { option_copied result ≡ (seen_by (λ v. sees (tree_of world.now) v from)
        (bound_in (scope_of world.now m) segment.now)).types }
    ensures known { KnowsAll world.now (res_holds (in_types (option_copied result))) }
{
    seen_item(world, from, world.type_in(m, segment))
}

/// Into a module: one of another crate is entered at the nearest module that is no block's root.
#[inline(always)]
fn entry(world: &World, differing: bool, origin: ModuleId, krate: Crate, m: ModuleId) -> Entered
    requires origin { IsKnown (tree_of world.now) origin }
    requires krate { krate ≡ crate_of (tree_of world.now) origin }
    requires module_known { IsKnown (tree_of world.now) m }
    ensures value { result ≡ entry (tree_of world.now) differing origin m }
    ensures origin { IsKnown (tree_of world.now) result.origin }
    ensures krate { result.krate ≡ crate_of (tree_of world.now) result.origin }
{
    if world.krate(m) == krate {
        return Entered {
            differing,
            origin,
            krate,
            asked: m,
        };
    }
    let inside = world.home(m);
    Entered {
        differing: true,
        origin: inside,
        krate: world.krate(inside),
        asked: inside,
    }
}

/// The answer at a struct, a union or an enum: an enum knows its variants.
#[tactic(auto, unfolding(dm_maps::specs::Readings::read))]
fn at_adt(
    world: &World,
    item: TypesItem,
    position: usize,
    segment: &Name,
    is_last: bool,
    adt: AdtId,
) -> ResolvePathResult
    requires { KnowsAll world.now (type_holds item) }
    ensures value { (L : LocalMap) →
        result ≡ at_adt item position (read world.now L segment.now) is_last adt }
    ensures known { KnowsAll world.now (res_holds result.resolved_def) }
{
    let AdtId::EnumId(e) = adt else {
        return stopped(item, position);
    };
    match world.variant_of(e, segment) {
        None => stopped(item, position),
        Some(variant) => if is_last {
            variant_answer(item, variant.0, variant.1)
        } else {
            nothing_no()
        },
    }
}

/// The answer of a walk that has come into another crate, if it has.
fn crossed(differing: bool, answer: ResolvePathResult) -> ResolvePathResult
    ensures { result ≡ crossed differing answer }
{
    if !differing {
        return answer;
    }
    ResolvePathResult {
        reached_fixedpoint: ReachedFixedPoint::Yes,
        prefix_info: ResolvePathResultPrefixInfo {
            differing_crate: true,
            enum_variant: answer.prefix_info.enum_variant,
        },
        ..answer
    }
}

/// The answer where a segment resolved to a type that is no module, and segments are left.
#[tactic(auto, unfolding(dm_maps::specs::Readings::read))]
fn left_at(
    world: &World,
    item: TypesItem,
    position: usize,
    segment: &Name,
    is_last: bool,
) -> ResolvePathResult
    requires { KnowsAll world.now (type_holds item) }
    ensures value { (L : LocalMap) →
        result ≡ left_at item position (read world.now L segment.now) is_last item.def }
    ensures known { KnowsAll world.now (res_holds result.resolved_def) }
{
    match item.def {
        ModuleDefId::AdtId(adt) => at_adt(world, item, position, segment, is_last, adt),
        _ => stopped(item, position),
    }
}

/// The answer of a walk at its last segment.
#[tactic(auto, unfolding(dm_maps::specs::Readings::read))]
fn last_answer(
    world: &World,
    differing: bool,
    origin: ModuleId,
    krate: Crate,
    types: Option<&TypesItem>,
    position: usize,
    segment: &Name,
) -> ResolvePathResult
    requires origin { IsKnown (tree_of world.now) origin }
    requires krate { krate ≡ crate_of (tree_of world.now) origin }
    requires known { KnowsAll world.now (res_holds (in_types (option_copied types))) }
    ensures value { (L : LocalMap) →
        result ≡ walk (tree_of world.now) (standing differing origin (option_copied types.entry))
        position (read world.now L segment.now ∷ []) }
    ensures known { KnowsAll world.now (res_holds result.resolved_def) }
{
    let Some(item) = types else {
        return crossed(differing, nothing_no());
    };
    let Some(m) = module_in(item.def) else {
        return crossed(differing, left_at(world, *item, position, segment, true));
    };
    let into = entry(world, differing, origin, krate, m);
    let found = seen_in(world, into.origin, into.asked, segment);
    crossed(into.differing, reached(found))
}

/// The answer of a walk along the segments, where `position` segments are resolved, to `here`, seen from a module.
///
/// While segments are left, a path goes on by what it has reached as a type alone.
#[tactic(auto, unfolding(dm_maps::specs::Readings::read))]
pub(crate) fn walk(
    world: &World,
    from: ModuleId,
    here: &PerNs,
    position: usize,
    segments: &[Name],
) -> ResolvePathResult
    requires origin { IsKnown (tree_of world.now) from }
    requires known { KnowsAll world.now (res_holds here.now) }
    requires position { position ≤ 1 }
    ensures value { (L : LocalMap) →
        result ≡ walk (tree_of world.now) (starting from here.now) position
        (map (read world.now L) segments.now) }
    ensures known { KnowsAll world.now (res_holds result.resolved_def) }
{
    let Some((first, others)) = segments.split_first() else {
        return reached(*here);
    };
    let (mut differing, mut origin, mut types) = (false, from, here.types.as_ref());
    let mut krate = world.krate(from);
    let (mut segment, mut rest, mut passed) = (first, others, position);
    'segments: while let Some((next, after)) = rest.split_first() {
        let Some(item) = types else {
            return crossed(differing, nothing_no());
        };
        let Some(m) = module_in(item.def) else {
            return crossed(differing, left_at(world, *item, passed, segment, false));
        };
        let into = entry(world, differing, origin, krate, m);
        types = seen_type_in(world, into.origin, into.asked, segment);
        differing = into.differing;
        origin = into.origin;
        krate = into.krate;
        passed += 1;
        segment = next;
        rest = after;
    }
    last_answer(world, differing, origin, krate, types, passed, segment)
}
