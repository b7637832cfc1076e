//! The ids that diagnostics hold.
ghost use Rattle.std.specs.Prelude.{◌≡◌};
ghost use Rattle.std.specs.List.{fold};
ghost use Rattle.dm_maps.specs.Held.{noted, IsLeastFault};
ghost use Rattle.dm_maps.specs.TablesHold.{diagnostic_kind_holds, diagnostic_holds, diagnostics_hold};

use crate::check::held::{HeldFault, HeldId};
use crate::check::known_ids::KnownIds;
use crate::check::note_tables::note_path;
use crate::check::notes::note;
use dm_scope::diagnostics::{DefDiagnostic, DefDiagnosticKind};

/// Folds in the crate of the `$crate` of the path that a diagnostic is about.
fn note_kind<T: KnownIds>(
    world: &T,
    least: Option<HeldFault>,
    kind: &DefDiagnosticKind,
) -> Option<HeldFault>
    ensures { result ≡ fold (noted (T.known world.now)) least (diagnostic_kind_holds kind.now) }
{
    match kind {
        DefDiagnosticKind::UnresolvedMacroCall { path, .. } => note_path(world, least, path.kind()),
        DefDiagnosticKind::MacroError { path, .. } => note_path(world, least, path.kind()),
        _ => least,
    }
}

/// Folds in the module of a diagnostic, and what its kind holds.
#[tactic(auto, using(crate::proofs::Sets::parts))]
fn note_diagnostic<T: KnownIds>(
    world: &T,
    least: Option<HeldFault>,
    diagnostic: &DefDiagnostic,
) -> Option<HeldFault>
    ensures { result ≡ fold (noted (T.known world.now)) least (diagnostic_holds diagnostic.now) }
{
    let least = note(world, least, HeldId::Module(diagnostic.in_module));
    note_kind(world, least, &diagnostic.kind)
}

/// The least fault of what the diagnostics of a map hold.
#[tactic(auto, using(crate::proofs::Sets::parts))]
pub fn note_diagnostics<T: KnownIds>(world: &T, diagnostics: &[DefDiagnostic]) -> Option<HeldFault>
    ensures { IsLeastFault (T.known world.now) (diagnostics_hold diagnostics.now) result }
{
    diagnostics.iter().fold(
        None,
        |least, diagnostic| note_diagnostic(world, least, diagnostic),
    )
}
