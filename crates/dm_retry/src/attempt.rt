//! One try of an import: its path is resolved, and what it resolves to is pushed.
ghost use Rattle.std.specs.Prelude.{◌≡◌, false, IfOk, IfSome, OnErr, OnOk, Some};
ghost use Rattle.dm_base.specs.PerNs.{is_empty};
ghost use Rattle.dm_maps.specs.Holding.{res_holds};
ghost use Rattle.dm_maps.specs.Pushes.{push_holds};
ghost use Rattle.dm_maps.specs.Cut.{among};
ghost use Rattle.dm_maps.specs.Known.{KnowsAll};
ghost use Rattle.dm_maps.specs.PushRes.{with_push};
ghost use Rattle.dm_maps.specs.World.{scope_of};
ghost use Rattle.dm_scope.specs.Push.{globs_after, push_answer};
ghost use Rattle.dm_retry.specs.Kinds.{is_unnamed};
ghost use Rattle.dm_retry.specs.Known.{parts, same_leaf};
ghost use Rattle.dm_retry.specs.Rounds as rounds;
ghost use Rattle.dm_retry.specs.Rounds.{would_write, resolved_items, by_import, to_push, given, globs_with, meaning, world_after};

use crate::kinds::{by_kind, if_any};
use crate::meaning::path_meaning;
use crate::pending::Pending;
use crate::unnamed::push_trait;
use crate::writes::would_write;
use dm_base::imports::ImportOrExternCrate;
use dm_base::per_ns::PerNs;
use dm_maps::world::World;
use dm_scope::glob_imports::PerNsGlobImports;
use hir_def_map::laws::answers_alike;
use hir_def_map::result::ResolvePathResult;
use std::alloc::{AllocError, Global};

/// What the path of an import resolves to in the current state of the world.
fn meaning(world: &World, pending: &Pending) -> ResolvePathResult
    requires known { KnowsAll world.now (parts pending.now) }
    ensures value { result ≡ meaning world.now pending.now }
    ensures known { KnowsAll world.now (res_holds result.resolved_def) }
{
    path_meaning(world, pending.origin(), pending.path())
}

/// What an answer has for an import.
fn resolved_items(answer: &ResolvePathResult) -> Option<PerNs>
    ensures { result ≡ resolved_items answer.now }
{
    if answer.segment_index.is_none() && !answer.resolved_def.is_none() {
        Some(answer.resolved_def)
    } else {
        None
    }
}

/// What an import brings of some items of the world.
fn given(world: &World, pending: &Pending, items: PerNs) -> Option<PerNs>
    requires known { KnowsAll world.now (parts pending.now) }
    requires items { KnowsAll world.now (res_holds items) }
    ensures value { result ≡ given world.now pending.now items }
    ensures known { IfSome result
        (λ x. KnowsAll world.now (push_holds pending.now.origin x (by_import pending.now))) }
{
    let kind = pending.kind();
    if_any(by_kind(world, pending.origin(), pending.visibility(), kind, items))
}

/// What an import brings in the current state of the world.
pub(crate) fn to_push(world: &World, pending: &Pending) -> Option<PerNs>
    requires known { KnowsAll world.now (parts pending.now) }
    ensures value { result ≡ to_push world.now pending.now }
    ensures known { IfSome result
        (λ x. KnowsAll world.now (push_holds pending.now.origin x (by_import pending.now))) }
{
    let answer = meaning(world, pending);
    match resolved_items(&answer) {
        None => None,
        Some(items) => given(world, pending, items),
    }
}

/// Tries an import: pushes what it resolves to, if anything. Answers whether the push changed the scope. Where an
/// allocation fails, nothing changes.
pub(crate) fn attempt(
    world: &mut World,
    globs: &mut PerNsGlobImports,
    pending: &Pending,
    alloc: Global,
) -> Result<bool, AllocError>
    requires known { KnowsAll world.old (parts pending.now) }
    ensures answer { IfOk result (λ answer. answer ≡ would_write world.old globs.old pending.now) }
    ensures world { OnOk result
        (world.new ≡ world_after world.old globs.old pending.now (to_push world.old pending.now)) }
    ensures globs { OnOk result
        (globs.new ≡ globs_with world.old globs.old pending.now (to_push world.old pending.now)) }
    ensures err { OnErr result (world.new ≡ world.old) }
    ensures err_globs { OnErr result (globs.new ≡ globs.old) }

    // What was known is known.
    ensures known { (q : rounds.Pending) → KnowsAll world.old (parts q) → KnowsAll world.new (parts q) }

    // An import whose retry would change nothing, and whose path has no segment of the pushed name, stays such.
    ensures others { OnOk result
        ((q : rounds.Pending) → same_leaf q.import pending.now.import ≡ false
        → among q.path.segments pending.now.name ≡ false → would_write world.old globs.old q ≡ false
        → would_write world.new globs.new q ≡ false) }

    // So does this import, if the name is none of its own segments.
    ensures own { OnOk result
        (among pending.now.path.segments pending.now.name ≡ false
        → would_write world.new globs.new pending.now ≡ false) }
{
    let Some(items) = to_push(world, pending) else {
        return Ok(false);
    };
    if pending.kind().is_unnamed() {
        let answer = push_trait(world, pending, items)?;
        Ok(answer)
    } else {
        let answer = push_named(world, globs, pending, items, alloc)?;
        Ok(answer)
    }
}

/// Pushes the items of an import under its name. Answers whether the push changed the scope. Where it does not, it takes
/// no memory. Where an allocation fails, nothing changes.
fn push_named(
    world: &mut World,
    globs: &mut PerNsGlobImports,
    pending: &Pending,
    items: PerNs,
    alloc: Global,
) -> Result<bool, AllocError>
    requires some { is_empty items ≡ false }
    requires known { KnowsAll world.old
        (push_holds pending.now.origin items (by_import pending.now)) }
    ensures answer { IfOk result
        (λ answer.
        answer
        ≡ push_answer (scope_of world.old pending.now.origin) globs.old
        pending.now.origin pending.now.name items (by_import pending.now)) }
    ensures world { OnOk result
        (world.new
        ≡ with_push world.old globs.old pending.now.origin pending.now.name items
        (by_import pending.now)) }
    ensures globs { OnOk result
        (globs.new
        ≡ globs_after (scope_of world.old pending.now.origin) globs.old
        pending.now.origin pending.now.name items (by_import pending.now)) }
    ensures err { OnErr result (world.new ≡ world.old) }
    ensures err_globs { OnErr result (globs.new ≡ globs.old) }

    // What was known is known.
    ensures known { (q : rounds.Pending) → KnowsAll world.old (parts q) → KnowsAll world.new (parts q) }

    // Another import that would bind nothing, and has no segment of the name, would bind nothing.
    ensures others { OnOk result
        ((q : rounds.Pending) → same_leaf q.import pending.now.import ≡ false
        → among q.path.segments pending.now.name ≡ false → would_write world.old globs.old q ≡ false
        → would_write world.new globs.new q ≡ false) }

    // So would this import, which found these items, if the name is none of its own segments.
    ensures own { OnOk result
        (is_unnamed pending.now.kind ≡ false → to_push world.old pending.now ≡ Some items
        → among pending.now.path.segments pending.now.name ≡ false
        → would_write world.new globs.new pending.now ≡ false) }
{
    answers_alike();
    if !would_write(world, globs, pending, &items) {
        return Ok(false);
    }
    let name = pending.name().copy(alloc)?;
    let import = ImportOrExternCrate::Import(pending.import());
    let answer = world.push_res(globs, (pending.origin(), name), items, Some(import))?;
    Ok(answer)
}
