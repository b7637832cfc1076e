//! `BuildFault`: why a builder call fails.
ghost use Rattle.std.specs.Prelude.{◌≡◌};
ghost use Rattle.dm_maps.specs.declared.build_fault.BuildFault.TheVariants.{OutOfMemory};

use std::alloc::AllocError;

/// Why a builder call fails, by the numbers in whose order the reasons are tested. The builder is then as it was.
#[derive(Clone, Copy, PartialEq, Eq, Debug)]
pub enum BuildFault {
    /// The crate, or the crate or block of the map, is not the builder's.
    NoSuchCrate = 1,
    /// The module that something is put into is not the builder's.
    NoSuchModule,
    /// The enum of a variant is not the builder's.
    NoSuchEnum,
    /// The parent has a child of that name.
    TakenChild,
    /// The enum has a variant of that name.
    TakenVariant,
    /// The list has 4,294,967,295 entries, so there is no number for another.
    OutOfNumbers,
    /// Memory ran out.
    OutOfMemory,
}

impl From<AllocError> for BuildFault {
    ghost from_gives = { λ _ fault. fault ≡ OutOfMemory };

    fn from(_refused: AllocError) -> BuildFault {
        BuildFault::OutOfMemory
    }
}
