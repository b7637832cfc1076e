//! Tests whether the ids of paths that are handed in are a world's. None of them takes memory.
ghost use Rattle.std.specs.Prelude.{◌↔◌, IsTrue};
ghost use Rattle.dm_maps.specs.Holding.{path_holds};
ghost use Rattle.dm_maps.specs.TablesHold.{diagnostic_holds, diagnostic_kind_holds};
ghost use Rattle.dm_maps.specs.Known.{KnowsAll};

use crate::world::World;
use dm_base::item_ids::ModuleDefId;
use dm_base::mod_path::{ModPath, PathKind};
use dm_scope::diagnostics::{DefDiagnostic, DefDiagnosticKind};

impl World {
    /// Whether the crate of a path's `$crate` is the world's, if the path has one. Names are everyone's.
    pub fn knows_path(&self, path: &ModPath) -> bool
        ensures { IsTrue result ↔ KnowsAll self.now (path_holds path.now.kind) }
    {
        match path.kind() {
            PathKind::DollarCrate(krate) => self.has_crate(krate),
            _ => true,
        }
    }

    /// Whether all that a diagnostic holds is the world's: its module, and the crate of the `$crate` of the path that
    /// it is about, if it is about one.
    pub fn knows_diagnostic(&self, diagnostic: &DefDiagnostic) -> bool
        ensures { IsTrue result ↔ KnowsAll self.now (diagnostic_holds diagnostic.now) }
    {
        if !self.knows_def(ModuleDefId::ModuleId(diagnostic.in_module)) {
            return false;
        }
        knows_diagnostic_kind(self, &diagnostic.kind)
    }
}

fn knows_diagnostic_kind(world: &World, kind: &DefDiagnosticKind) -> bool
    ensures { IsTrue result ↔ KnowsAll world.now (diagnostic_kind_holds kind.now) }
{
    match kind {
        DefDiagnosticKind::UnresolvedMacroCall { path, .. } => world.knows_path(path),
        DefDiagnosticKind::MacroError { path, .. } => world.knows_path(path),
        _ => true,
    }
}
