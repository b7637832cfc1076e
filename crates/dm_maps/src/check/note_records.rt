//! The ids that the import records of scopes hold.
ghost use Rattle.std.specs.Prelude.{◌≡◌};
ghost use Rattle.std.specs.List.{fold, flat_map};
ghost use Rattle.dm_scope.specs.Records.{records_in};
ghost use Rattle.dm_maps.specs.Held.{noted};
ghost use Rattle.dm_maps.specs.ScopeHolds.{step_holds, record_holds, records_hold};

use crate::check::held::{HeldFault, HeldId};
use crate::check::known_ids::KnownIds;
use crate::check::notes::{note, note_def, note_import};
use dm_base::imports::ImportOrDef;
use dm_base::per_ns::Namespace;
use dm_scope::item_scope::ItemScope;

/// Folds in the use or the definition that an import stands for.
fn note_step<T: KnownIds>(
    world: &T,
    least: Option<HeldFault>,
    step: ImportOrDef,
) -> Option<HeldFault>
    ensures { result ≡ fold (noted (T.known world.now)) least (step_holds step) }
{
    match step {
        ImportOrDef::Import(id) => note(world, least, HeldId::Use(id.use_)),
        ImportOrDef::Glob(id) => note(world, least, HeldId::Use(id.use_)),
        ImportOrDef::ExternCrate(_) => least,
        ImportOrDef::Def(def) => note_def(world, least, def),
    }
}

/// Folds in the keys and values of the records of a namespace.
#[tactic(auto, using(crate::proofs::Sets::parts))]
fn note_records_in<T: KnownIds>(
    world: &T,
    least: Option<HeldFault>,
    scope: &ItemScope,
    namespace: Namespace,
) -> Option<HeldFault>
    ensures { result
        ≡ fold (noted (T.known world.now)) least
        (flat_map record_holds (records_in namespace scope.now)) }
{
    let mut least = least;
    for (import, step) in scope.import_records(namespace) {
        least = note_import(world, least, import);
        least = note_step(world, least, step);
    }
    least
}

/// Folds in the keys and values of a scope's records.
#[tactic(auto, using(crate::proofs::HeldRecords::records))]
pub(crate) fn note_records<T: KnownIds>(
    world: &T,
    least: Option<HeldFault>,
    scope: &ItemScope,
) -> Option<HeldFault>
    ensures { result ≡ fold (noted (T.known world.now)) least (records_hold scope.now) }
{
    let least = note_records_in(world, least, scope, Namespace::Types);
    let least = note_records_in(world, least, scope, Namespace::Values);
    note_records_in(world, least, scope, Namespace::Macros)
}
