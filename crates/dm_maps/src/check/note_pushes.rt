//! The ids that a push holds.
ghost use Rattle.std.specs.Prelude.{◌≡◌};
ghost use Rattle.std.specs.List.{fold};
ghost use Rattle.dm_maps.specs.Held.{noted, IsLeastFault};
ghost use Rattle.dm_maps.specs.Holding.{res_holds};
ghost use Rattle.dm_maps.specs.Pushes.{push_holds};

use crate::check::held::{HeldFault, HeldId};
use crate::check::known_ids::KnownIds;
use crate::check::note_scopes::{note_macro, note_type, note_value};
use crate::check::notes::{note, note_import};
use dm_base::ids::ModuleId;
use dm_base::imports::ImportOrExternCrate;
use dm_base::per_ns::PerNs;

/// The least fault of what a push holds.
#[tactic(auto, using(crate::proofs::Sets::parts))]
pub fn note_push<T: KnownIds>(
    world: &T,
    m: ModuleId,
    res: &PerNs,
    import: Option<ImportOrExternCrate>,
) -> Option<HeldFault>
    ensures { IsLeastFault (T.known world.now) (push_holds m res.now import) result }
{
    let least = note(world, None, HeldId::Module(m));
    match import {
        None => note_res(world, least, res),
        Some(import) => {
            let least = note_import(world, least, import);
            note_res(world, least, res)
        }
    }
}

/// Folds in what a set of items holds.
#[tactic(auto, using(crate::proofs::Sets::parts))]
fn note_res<T: KnownIds>(world: &T, least: Option<HeldFault>, res: &PerNs) -> Option<HeldFault>
    ensures { result ≡ fold (noted (T.known world.now)) least (res_holds res.now) }
{
    let least = match res.types {
        None => least,
        Some(item) => note_type(world, least, item),
    };
    let least = match res.values {
        None => least,
        Some(item) => note_value(world, least, item),
    };
    match res.macros {
        None => least,
        Some(item) => note_macro(world, least, item),
    }
}
