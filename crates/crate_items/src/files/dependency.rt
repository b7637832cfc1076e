//! What crates depend on.
use dm_base::ids::Crate;
use dm_base::name::Name;

/// A crate that another one depends on, and the name under which it knows it.
pub struct Dependency {
    pub crate_id: Crate,
    pub name: Name,
    /// Whether it is in the extern prelude; else only `extern crate` finds it.
    pub prelude: bool,
}

/// Hand-written `Drop`, to keep proofs small: dropping one is then a single call.
impl Drop for Dependency {
    fn drop(self) {
        let Dependency {
            crate_id: _crate_id,
            name: _name,
            prelude: _prelude,
        } = self;
    }
}
