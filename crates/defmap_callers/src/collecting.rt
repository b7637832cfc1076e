//! Example callers, shown in docs/USING.md: a collector, which fills globs between rounds until nothing changes.
ghost use Rattle.std.specs.Prelude.{◌≡◌, IfOk, IfSome};
ghost use Rattle.dm_retry.specs.Rounds.{unresolved};
ghost use Rattle.dm_retry.specs.Settling.{IsFixedPoint};

use crate::maps::Refused;
use crate::rounds::settled;
use dm_base::ids::ModuleId;
use dm_base::imports::{GlobId, ImportOrExternCrate};
use dm_base::name::Name;
use dm_base::per_ns::PerNs;
use dm_retry::retry::Retry;
use dm_scope::item_scope::ItemScope;
use dm_scope::scope_tables::ScopeTables;
use std::alloc::{AllocError, Global};

/// `use from::*;` in a module.
#[derive(Clone, Copy)]
pub struct Glob {
    pub into: ModuleId,
    pub from: ModuleId,
    pub import: GlobId,
}

/// Settles the imports and fills the globs in turn, until the globs bring nothing new: then the world is a fixed point
/// of the imports, and those that are still unresolved are listed. None where the limit was reached first.
pub fn collected(
    retry: &mut Retry,
    globs: &[Glob],
    limit: u32,
    alloc: Global,
) -> Result<Option<Vec<usize>>, Refused>
    ensures fixed { IfOk result (λ answer. IfSome answer (λ places. IsFixedPoint retry.new.state)) }
    ensures listed { IfOk result (λ answer. IfSome answer (λ places. places.items ≡ unresolved retry.new.state)) }
{
    for _ in 0..limit {
        if !retry.settle(limit)? {
            return Ok(None);
        }
        if !fill_all(retry, globs, alloc)? {
            let places = settled(retry, limit)?;
            return Ok(places);
        }
    }
    Ok(None)
}

/// Fills each glob. Answers whether anything was written.
fn fill_all(retry: &mut Retry, globs: &[Glob], alloc: Global) -> Result<bool, Refused> {
    let mut written = false;
    for glob in globs {
        written |= fill(retry, *glob, alloc)?;
    }
    Ok(written)
}

/// Binds in the module of a glob what is public in its source: a name that is bound already stays as it is.
fn fill(retry: &mut Retry, glob: Glob, alloc: Global) -> Result<bool, Refused> {
    let Some(source) = retry.world().scope_of(glob.from) else {
        return Err(Refused::Unknown);
    };
    let brought = exported(source, alloc)?;
    let import = Some(ImportOrExternCrate::Glob(glob.import));
    let mut written = false;
    for (name, items) in brought {
        if !retry.world().knows_res(glob.into, &items, import) {
            return Err(Refused::Unknown);
        }
        written |= retry.push_res((glob.into, name), items, import)?;
    }
    Ok(written)
}

/// What is public in a scope, by name.
fn exported(scope: &ItemScope, alloc: Global) -> Result<Vec<(Name, PerNs)>, AllocError> {
    let mut exported = Vec::new(alloc);
    for (name, items) in scope.entries()? {
        let public = items.filter_visibility(|vis| vis.is_public());
        if !public.is_none() {
            exported.push((name.copy(alloc)?, public))?;
        }
    }
    Ok(exported)
}
