//! The parameters of a path resolution.
ghost use Rattle.std.specs.Prelude.{◌≡◌};
ghost use Rattle.hir_def_map.specs.Paths.{asked};

use crate::path_resolution::result::ResolveMode;
use dm_base::ids::ModuleId;
use dm_base::mod_path::PathKind;
use dm_maps::modes::{BuiltinShadowMode, MacroSubNs};

/// The parameters of a path resolution except the segments: the origin, for an import or not, whether builtin types may
/// shadow modules, what kind of macro is expected, and the kind of its path.
#[derive(Clone, Copy)]
pub(crate) struct Ask {
    pub origin: ModuleId,
    pub mode: ResolveMode,
    pub shadow: BuiltinShadowMode,
    pub expected: Option<MacroSubNs>,
    pub kind: PathKind,
}

impl Ask {
    /// The question of a path that begins as `kind`.
    pub(crate) fn new(
        origin: ModuleId,
        mode: ResolveMode,
        shadow: BuiltinShadowMode,
        expected: Option<MacroSubNs>,
        kind: PathKind,
    ) -> Ask
        ensures { result ≡ asked origin mode shadow expected kind }
    {
        Ask {
            origin,
            mode,
            shadow,
            expected,
            kind,
        }
    }
}
