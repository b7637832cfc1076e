//! The ids that the preludes of maps and crates hold.
ghost use Rattle.dm_maps.specs.Held.{IsLeastFault};
ghost use Rattle.dm_maps.specs.ScopeHolds.{prelude_holds, macro_uses_hold};
ghost use Rattle.dm_maps.specs.Holding.{local_holds};

use crate::check::held::{HeldFault, HeldId};
use crate::check::known_ids::KnownIds;
use crate::check::notes::note;
use dm_base::ids::{ExternCrateId, ModuleId, UseId};
use dm_base::item_ids::MacroId;
use dm_base::name::Name;
use indexmap::IndexMap;

/// The least fault of the module of a prelude, and the use that named it.
#[tactic(auto, using(crate::proofs::Sets::parts))]
pub fn note_prelude<T: KnownIds>(world: &T, prelude: (ModuleId, Option<UseId>)) -> Option<HeldFault>
    ensures { IsLeastFault (T.known world.now) (prelude_holds prelude) result }
{
    let least = note(world, None, HeldId::Module(prelude.0));
    match prelude.1 {
        None => least,
        Some(named_by) => note(world, least, HeldId::Use(named_by)),
    }
}

/// The least fault of the macros that `#[macro_use]` brings.
#[tactic(auto, using(crate::proofs::Sets::parts))]
pub fn note_macro_uses<T: KnownIds>(
    world: &T,
    table: &IndexMap<Name, (MacroId, Option<ExternCrateId>)>,
) -> Option<HeldFault>
    ensures { IsLeastFault (T.known world.now) (macro_uses_hold table.now.entries) result }
{
    table.values().fold(
        None,
        |least, entry| note(world, least, HeldId::Macro(entry.0)),
    )
}

/// The least fault of the modules of an extern prelude.
#[tactic(auto, using(crate::proofs::Sets::parts))]
pub fn note_externs<T: KnownIds>(
    world: &T,
    table: &IndexMap<Name, (ModuleId, Option<ExternCrateId>)>,
) -> Option<HeldFault>
    ensures { IsLeastFault (T.known world.now) (local_holds table.now.entries) result }
{
    table.values().fold(
        None,
        |least, entry| note(world, least, HeldId::Module(entry.0)),
    )
}
