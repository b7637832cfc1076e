//! `GlobImport`: a leaf of a `use` that imports all names of a module or an enum.

use dm_base::ids::ModuleId;
use dm_base::imports::GlobId;
use dm_base::mod_path::ModPath;
use dm_base::visibility::Visibility;

/// A glob import (`use path::*`).
pub struct GlobImport {
    /// The module that it imports into.
    pub into: ModuleId,
    pub path: ModPath,
    /// Who may see what it brings, at most.
    pub vis: Visibility,
    pub import: GlobId,
}

/// Hand-written `Drop`, to keep proofs small: dropping one is then a single call.
impl Drop for GlobImport {
    fn drop(self) {
        let GlobImport {
            into: _into,
            path: _path,
            vis: _vis,
            import: _import,
        } = self;
    }
}
