//! Which function each procedural macro of a crate is, told to its def map.
ghost use Rattle.std.specs.List.{flat_map};
ghost use Rattle.std.specs.Prelude.{◌≡◌, ◌++◌, true, IfErr, IfOk, OnOk};
ghost use Rattle.crate_tables.specs.CrateTables.{IsTableOf};
ghost use Rattle.crate_tables.specs.ProceduralPairs as spec;
ghost use Rattle.dm_maps.specs.Added.{IsGrown};
ghost use Rattle.dm_maps.specs.declared.build_fault.BuildFault.TheVariants.{OutOfMemory};

use crate::crate_table::CrateTable;
use crate::def_index::DefIndex;
use crate::item_place::DefPlace;
use crate::standard_prelude::set_all;
use dm_base::ids::Crate;
use dm_base::item_ids::{MacroId, ModuleDefId};
use dm_maps::build_fault::BuildFault;
use dm_maps::builder::WorldBuilder;
use dm_maps::crate_setting::CrateSetting;
use std::alloc::{AllocError, Global};

/// Adds what ties a procedural macro to the function that it is.
fn push_pair(
    settings: &mut Vec<CrateSetting>,
    made: ModuleDefId,
    def: ModuleDefId,
) -> Result<(), AllocError>
    ensures { OnOk result (settings.new.items ≡ settings.old.items ++ spec.of_defs made def) }
{
    match (made, def) {
        (ModuleDefId::MacroId(MacroId::ProcMacroId(m)), ModuleDefId::FunctionId(f)) => {
            settings.push(CrateSetting::ProcMacro(f, m))?;
            Ok(())
        }
        _ => Ok(()),
    }
}

/// The same of the function that is written at the macro's place.
fn push_pair_of(
    settings: &mut Vec<CrateSetting>,
    defs: &DefIndex<'_>,
    place: DefPlace,
) -> Result<(), AllocError>
    ensures { OnOk result (settings.new.items ≡ settings.old.items ++ spec.pair_of defs.now place) }
{
    match defs.def_at(place.home, place.file, place.item) {
        None => Ok(()),
        Some(def) => push_pair(settings, place.def, def),
    }
}

/// What ties procedural macros among some definitions to their functions.
fn pairs(
    alloc: Global,
    defs: &DefIndex<'_>,
    places: &[DefPlace],
) -> Result<Vec<CrateSetting>, AllocError>
    ensures { IfOk result (λ settings. settings.items ≡ flat_map (spec.pair_of defs.now) places.now) }
{
    let mut settings = Vec::new(alloc);
    for place in places {
        push_pair_of(&mut settings, defs, *place)?;
    }
    Ok(settings)
}

/// Tells the def map of a crate which of its functions are procedural macros. The definitions of its table are indexed.
///
/// # Errors
///
/// Fails only where memory runs out, and then changes nothing.
pub(crate) fn pair_procedural_macros(
    builder: &mut WorldBuilder,
    alloc: Global,
    krate: Crate,
    table: &CrateTable,
    defs: &DefIndex<'_>,
) -> Result<(), BuildFault>
    requires table { IsTableOf builder.old krate table.now }
    requires defs { defs.now ≡ table.now.defs }
    ensures world { OnOk result (builder.new ≡ spec.with_pairs krate table.now builder.old) }
    ensures grown { IsGrown builder.old builder.new }
    ensures fault { IfErr result (λ fault. fault ≡ OutOfMemory) }
{
    let settings = pairs(alloc, defs, table.defs())?;
    set_all(builder, krate, settings)
}
