//! The ids that maps and modules hold.
ghost use Rattle.std.specs.Prelude.{[]};
ghost use Rattle.std.specs.Option.{option_map_or};
ghost use Rattle.dm_maps.specs.Held.{IsLeastFault};
ghost use Rattle.dm_maps.specs.Holding.{local_holds};
ghost use Rattle.dm_maps.specs.ScopeHolds.{prelude_holds};
ghost use Rattle.dm_maps.specs.Holds.{map_holds, module_holds};
ghost use Rattle.dm_maps.specs.Known.{knows};

use crate::builder::WorldBuilder;
use crate::check::held::HeldFault;
use crate::check::note_diagnostics::note_diagnostics;
use crate::check::note_preludes::{note_externs, note_macro_uses, note_prelude};
use crate::check::note_scopes::note_scope;
use crate::check::note_tables::{note_helpers, note_macro_defs};
use crate::check::notes::{lesser, vis_fault};
use dm_def_map::building::{derive_helpers, macro_defs, macro_uses};
use dm_def_map::def_map::DefMap;
use dm_def_map::modules::local_def_map::LocalDefMap;
use dm_def_map::modules::module_data::ModuleData;

/// The least fault of a map's prelude, if it has one.
fn note_map_prelude(world: &WorldBuilder, map: &DefMap) -> Option<HeldFault>
    ensures { IsLeastFault (knows world.now) (option_map_or prelude_holds map.now.prelude []) result }
{
    match map.prelude() {
        None => None,
        Some(prelude) => note_prelude(world, prelude),
    }
}

/// The least fault of a map.
pub(crate) fn note_map(world: &WorldBuilder, map: &DefMap) -> Option<HeldFault>
    ensures { IsLeastFault (knows world.now) (map_holds map.now) result }
{
    let prelude = note_map_prelude(world, map);
    let preludes = lesser(prelude, note_macro_uses(world, macro_uses(map)));
    let helpers = note_helpers(world, derive_helpers(map));
    let told = lesser(helpers, note_diagnostics(world, map.diagnostics()));
    let rest = lesser(note_macro_defs(world, macro_defs(map)), told);
    lesser(preludes, rest)
}

/// The least fault of a module.
pub(crate) fn note_module(world: &WorldBuilder, m: &ModuleData) -> Option<HeldFault>
    ensures { IsLeastFault (knows world.now) (module_holds m.now) result }
{
    lesser(
        vis_fault(world, m.visibility()),
        note_scope(world, m.scope()),
    )
}

/// The least fault of an extern prelude.
pub(crate) fn note_local_map(world: &WorldBuilder, local: &LocalDefMap) -> Option<HeldFault>
    ensures { IsLeastFault (knows world.now) (local_holds local.now) result }
{
    note_externs(world, local.entries())
}
