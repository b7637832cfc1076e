//! Diagnostics, added to the def map of a crate.
ghost use Rattle.std.specs.Prelude.{◌≡◌, false, IfOk, IsTrue, OnErr, OnOk};
ghost use Rattle.std.specs.List.{flat_map, list_all};
ghost use Rattle.def_diagnostics.specs.MapDiagnostics as spec;
ghost use Rattle.def_diagnostics.specs.ToldInMaps.{calls_of};
ghost use Rattle.dm_maps.specs.TablesHold.{diagnostic_holds};
ghost use Rattle.dm_maps.specs.BuildMaps.{lacks_map};
ghost use Rattle.dm_maps.specs.Known.{knows, KnowsAll};

use crate::diagnostic::Diagnostic;
use crate::item_modules::MappedCrate;
use crate::told_in_maps::{CallPlace, told_in_map};
use dm_base::ids::MapId;
use dm_maps::world::World;
use dm_scope::diagnostics::DefDiagnostic;
use std::alloc::{AllocError, Global};

/// Whether all that a diagnostic names is the world's.
fn knows_all(world: &World, diagnostic: &DefDiagnostic) -> bool
    ensures exact { result ≡ list_all (knows world.now) (diagnostic_holds diagnostic.now) }
    ensures known { IsTrue result → KnowsAll world.now (diagnostic_holds diagnostic.now) }
{
    world.knows_diagnostic(diagnostic)
}

/// Whether a map is the world's, and all that a diagnostic names.
fn may_have(world: &World, map: MapId, diagnostic: &DefDiagnostic) -> bool
    ensures exact { result ≡ spec.may_have world.now map diagnostic.now }
    ensures there { IsTrue result → lacks_map world.now map ≡ false }
    ensures known { IsTrue result → KnowsAll world.now (diagnostic_holds diagnostic.now) }
{
    !world.lacks_map(map) && knows_all(world, diagnostic)
}

/// Adds a diagnostic to a map, if it names nothing else than what the world has.
fn add_one(world: &mut World, map: MapId, diagnostic: DefDiagnostic) -> Result<(), AllocError>
    ensures ok { OnOk result (world.new ≡ spec.with_one world.old map diagnostic) }
    ensures err { OnErr result (world.new ≡ world.old) }
{
    if may_have(world, map, &diagnostic) {
        world.add_diagnostic(map, diagnostic)?;
    }
    Ok(())
}

/// Adds diagnostics to a map, in order.
fn add_all(world: &mut World, map: MapId, diagnostics: Vec<DefDiagnostic>) -> Result<(), AllocError>
    ensures ok { OnOk result (world.new ≡ spec.with_all world.old map diagnostics.items) }
    ensures err { OnErr result (spec.IsPartly world.old map diagnostics.items world.new) }
{
    for diagnostic in diagnostics {
        add_one(world, map, diagnostic)?;
    }
    Ok(())
}

/// Adds to the def map of a crate what it has of its diagnostics (`told_in_map`), behind those that it has: then
/// `DefMap::diagnostics` has them. Nothing else of the world changes. What names a module or a crate that the world does not
/// have stays out.
///
/// Answers with the rows of the macro calls, the first of which has the number `first_row`: so several crates may have one
/// table.
///
/// # Errors
///
/// Fails only where memory runs out. The map has the first of them then.
pub fn add_diagnostics(
    world: &mut World,
    alloc: Global,
    first_row: usize,
    krate: &MappedCrate<'_>,
    diagnostics: &[Diagnostic],
) -> Result<Vec<CallPlace>, AllocError>
    ensures calls { IfOk result (λ calls. calls.items ≡ flat_map calls_of diagnostics.now) }
    ensures ok { OnOk result (spec.AreAdded krate.now first_row diagnostics.now world.old world.new) }
    ensures err { OnErr result (spec.ArePartlyAdded krate.now first_row diagnostics.now world.old world.new) }
{
    let told = told_in_map(alloc, first_row, krate, diagnostics)?;
    let map = MapId {
        krate: krate.krate,
        block: None,
    };
    add_all(world, map, told.diagnostics)?;
    Ok(told.calls)
}
