//! Why crates are not added to a builder.
ghost use Rattle.std.specs.Prelude.{◌≡◌};
ghost use Rattle.crate_tables.specs.declared.fill_fault.FillFault.TheVariants.{OutOfMemory};

use dm_base::ids::Crate;
use std::alloc::AllocError;

/// Why crates were not added to a builder.
#[derive(Clone, Copy, PartialEq, Eq, Debug)]
pub enum FillFault {
    /// The file of a crate's root is not there.
    NoRootFile(Crate),
    /// A crate has more modules than the caller asked for.
    TooManyModules(Crate),
    /// With some crate there are more than 4,294,967,295 modules, items, variants, uses, macros, extern crates or blocks, or
    /// one of its modules is declared behind so many other items of its file.
    OutOfNumbers,
    OutOfMemory,
}

impl From<AllocError> for FillFault {
    ghost from_gives = { λ _ fault. fault ≡ OutOfMemory };

    fn from(_refused: AllocError) -> FillFault {
        FillFault::OutOfMemory
    }
}
