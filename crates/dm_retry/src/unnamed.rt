//! Imports of traits without a name, `use path::Trait as _`.
ghost use Rattle.std.specs.Prelude.{◌≡◌, false, true, IfOk, IsTrue, OnErr, OnOk, Some};
ghost use Rattle.std.specs.List.{list_any};
ghost use Rattle.dm_base.specs.Tree.{IsKnown};
ghost use Rattle.dm_base.specs.Visibility.{NamesKnown};
ghost use Rattle.dm_maps.specs.declared.check.held.HeldId.TheVariants as held;
ghost use Rattle.dm_maps.specs.Pushes.{push_holds};
ghost use Rattle.dm_maps.specs.Known.{knows, KnowsAll};
ghost use Rattle.dm_maps.specs.Trees.{tree_of};
ghost use Rattle.dm_scope.specs.Flags.{Globs};
ghost use Rattle.dm_retry.specs.Kinds.{is_unnamed};
ghost use Rattle.dm_retry.specs.Known.{parts};
ghost use Rattle.dm_retry.specs.Rounds as rounds;
ghost use Rattle.dm_retry.specs.Rounds.{would_write, by_import, to_push};
ghost use Rattle.dm_retry.specs.Unnamed.{allows, is_as_permissive, is_new_trait, shows_trait, trait_of, unnamed_answer, with_unnamed};

use crate::pending::Pending;
use dm_base::ids::{MapId, ModuleId, TraitId};
use dm_base::imports::ImportId;
use dm_base::item_ids::ModuleDefId;
use dm_base::module_tree::ModuleTree;
use dm_base::per_ns::PerNs;
use dm_base::visibility::Visibility;
use dm_maps::world::World;
use dm_scope::item_scope::ItemScope;
use dm_scope::scope_tables::ScopeTables;
use hir_def_map::laws::answers_alike;
use std::alloc::AllocError;

/// Puts the trait that an import as `_` found, if it found one, among the unnamed ones of its module, where none is there
/// that lets all those see it whom the import lets. Answers whether it did. Where an allocation fails, nothing changes.
pub(crate) fn push_trait(
    world: &mut World,
    pending: &Pending,
    items: PerNs,
) -> Result<bool, AllocError>
    requires parts { KnowsAll world.old (parts pending.now) }
    requires known { KnowsAll world.old
        (push_holds pending.now.origin items (by_import pending.now)) }
    ensures answer { IfOk result
        (λ answer.
        answer
        ≡ unnamed_answer world.old pending.now.origin pending.now.visibility items) }
    ensures world { OnOk result
        (world.new
        ≡ with_unnamed world.old pending.now.origin pending.now.visibility
        pending.now.import items) }
    ensures err { OnErr result (world.new ≡ world.old) }

    // What was known is known.
    ensures known { (q : rounds.Pending) → KnowsAll world.old (parts q)
        → KnowsAll world.new (parts q) }

    // An import that would bind nothing would bind nothing, and so would this one, which found these items.
    ensures others { (g : Globs) (q : rounds.Pending) → would_write world.old g q ≡ false
        → would_write world.new g q ≡ false }
    ensures own { OnOk result
        ((g : Globs) → is_unnamed pending.now.kind ≡ true
        → to_push world.old pending.now ≡ Some items → would_write world.new g pending.now ≡ false) }
{
    answers_alike();
    let Some(tr) = trait_of(&items) else {
        return Ok(false);
    };
    let m = pending.origin();
    let vis = pending.visibility();
    if !is_new_trait(world, m, tr, vis) {
        return Ok(false);
    }
    world.push_unnamed_trait(m, tr, vis, Some(pending.import()))?;
    Ok(true)
}

/// The trait among some items.
fn trait_of(items: &PerNs) -> Option<TraitId>
    ensures { result ≡ trait_of items.now }
{
    let item = items.types?;
    match item.def {
        ModuleDefId::TraitId(tr) => Some(tr),
        _ => None,
    }
}

/// Whether no unnamed trait of a module is that trait, and lets all those see it whom `vis` lets. Does not allocate.
///
/// The module, and what the visibility names, have to be the world's: `knows_def` and `knows_vis` test it.
pub fn is_new_trait(world: &World, m: ModuleId, tr: TraitId, vis: Visibility) -> bool
    requires there { IsTrue (knows world.now (held.Module m)) }
    requires home { IsKnown (tree_of world.now) m }
    requires named { NamesKnown (tree_of world.now) vis }
    ensures { result ≡ is_new_trait world.now m tr vis }
{
    let scope = world.scope_of(m).unwrap();
    !has_shown(world, scope, m, tr, vis)
}

/// Whether one of a scope's unnamed traits is that trait, and lets all those see it whom `vis` lets.
fn has_shown(world: &World, scope: &ItemScope, m: ModuleId, tr: TraitId, vis: Visibility) -> bool
    requires home { IsKnown (tree_of world.now) m }
    requires named { NamesKnown (tree_of world.now) vis }
    ensures { result ≡ list_any (shows_trait world.now m tr vis) scope.now.unnamed_traits }
{
    for unnamed in scope.unnamed_traits() {
        if shows(world, m, tr, vis, unnamed) {
            return true;
        }
    }
    false
}

/// Whether an unnamed trait is that trait, and lets all those see it whom `vis` lets.
fn shows(
    world: &World,
    m: ModuleId,
    tr: TraitId,
    vis: Visibility,
    unnamed: (TraitId, Visibility, Option<ImportId>),
) -> bool
    requires home { IsKnown (tree_of world.now) m }
    requires named { NamesKnown (tree_of world.now) vis }
    ensures { result ≡ shows_trait world.now m tr vis unnamed }
{
    if unnamed.0 == tr {
        allows(world, m, unnamed.1, vis)
    } else {
        false
    }
}

/// Whether a visibility is the world's, and at least as permissive as another.
fn allows(world: &World, m: ModuleId, old: Visibility, new: Visibility) -> bool
    requires home { IsKnown (tree_of world.now) m }
    requires named { NamesKnown (tree_of world.now) new }
    ensures { result ≡ allows world.now m old new }
{
    if world.knows_vis(old) {
        is_as_permissive(world, m, old, new)
    } else {
        false
    }
}

/// Whether a visibility is at least as permissive as another, in the map of a module.
fn is_as_permissive(world: &World, m: ModuleId, old: Visibility, new: Visibility) -> bool
    requires home { IsKnown (tree_of world.now) m }
    requires old { NamesKnown (tree_of world.now) old }
    requires new { NamesKnown (tree_of world.now) new }
    ensures { result ≡ is_as_permissive (tree_of world.now) m old new }
{
    let map = MapId {
        krate: world.krate(m),
        block: world.block(m),
    };
    old.max(world, new, map) == Some(old)
}
