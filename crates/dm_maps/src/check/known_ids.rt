//! `KnownIds`: which ids exist.
ghost use Rattle.std.specs.Prelude.{◌≡◌, Bool};
ghost use Rattle.dm_maps.specs.declared.check.held.HeldId.{HeldId};

use crate::check::held::HeldId;

/// Implemented by what has ids, each with the kind of what stands under it.
pub trait KnownIds {
    /// Which ids it has, for contracts.
    ghost known: { Self → HeldId → Bool };

    /// Whether it has an id, and what stands under the id is of its kind.
    fn knows(&self, held: HeldId) -> bool
        ensures { result ≡ known self.now held };
}
