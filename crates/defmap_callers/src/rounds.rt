//! Example callers, shown in docs/USING.md: import resolution to a fixed point.
ghost use Rattle.std.specs.Prelude.{◌≡◌, ◌<◌, ℕ, None, IfOk, IfSome, OnErr, OnOk, length};
ghost use Rattle.std.specs.Bool.{OnTrue};
ghost use Rattle.std.specs.Option.{option_and_then};
ghost use Rattle.dm_retry.specs.Known.{refusal};
ghost use Rattle.dm_base.specs.PerNs.{type_alone};
ghost use Rattle.dm_retry.specs.Rounds.{pushed_into, unresolved};
ghost use Rattle.dm_retry.specs.Retries.{NoneDue, RestsAt};
ghost use Rattle.dm_retry.specs.Settling.{IsFixedPoint};
ghost use Rattle.defmap_callers.specs.Waiting.{import_at};

use crate::maps::Refused;
use dm_base::ids::ModuleId;
use dm_base::imports::ImportId;
use dm_base::item_ids::ModuleDefId;
use dm_base::name::Name;
use dm_base::per_ns::PerNs;
use dm_base::visibility::Visibility;
use dm_maps::world::World;
use dm_retry::pending::Pending;
use dm_retry::retry::Retry;
use std::alloc::AllocError;

/// Settles the imports within a number of rounds, and lists those that are still unresolved; none where the limit was
/// reached first.
pub fn settled(retry: &mut Retry, limit: u32) -> Result<Option<Vec<usize>>, AllocError>
    ensures fixed { IfOk result (λ answer. IfSome answer (λ places. IsFixedPoint retry.new.state)) }
    ensures listed { IfOk result (λ answer. IfSome answer (λ places. places.items ≡ unresolved retry.new.state)) }
{
    if !retry.settle(limit)? {
        return Ok(None);
    }
    let places = retry.unresolved()?;
    Ok(Some(places))
}

/// Declares a public type in a module between two rounds: each import whose path has the name as a segment becomes due.
pub fn declare_between(
    retry: &mut Retry,
    lookup: (ModuleId, Name),
    def: ModuleDefId,
) -> Result<bool, Refused>
    ensures ok { OnOk result (retry.new.state ≡ pushed_into retry.old.state lookup.0 lookup.1
        (type_alone def Visibility.Public None) None) }
    ensures err { OnErr result (retry.new ≡ retry.old) }
{
    let items = PerNs::types(def, Visibility::Public, None);
    if !retry.world().knows_res(lookup.0, &items, None) {
        return Err(Refused::Unknown);
    }
    let written = retry.push_res(lookup, items, None)?;
    Ok(written)
}

/// Whether none of these imports, all that are unresolved, is due: then a try of any of them would change nothing.
pub fn is_settled(retry: &Retry, count: usize) -> bool
    requires { count ≡ length retry.now.state.pending }
    ensures { OnTrue result ((i : ℕ) → i < count → RestsAt retry.now.state i) }
{
    for i in 0..count {
        if retry.due(i) != Some(false) {
            return false;
        }
    }
    true
}

/// A round where none is due, which allocates nothing and changes nothing.
pub fn rest(retry: &mut Retry)
    requires { NoneDue retry.old.state }
    ensures { retry.new.state ≡ retry.old.state }
{
    let _answer = retry.round_changed();
}

/// The import for which `Retry::new` failed, and handed its parts back.
pub fn refused_import(world: &World, pendings: &[Pending]) -> Option<ImportId>
    ensures { result ≡ option_and_then (λ r. import_at pendings.now r.1) (refusal world.now pendings.now) }
{
    let (_fault, place) = Retry::refusal(world, pendings)?;
    let pending = pendings.get(place)?;
    Some(pending.import())
}
