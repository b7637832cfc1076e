//! Why crates are not collected.
ghost use Rattle.std.specs.Prelude.{◌≡◌};
ghost use Rattle.crate_items.specs.CrateGraphs.{Graph, rows};
ghost use Rattle.crate_items.specs.OrderFaults as orders;
ghost use Rattle.crate_tables.specs.CrateFillings.{IsFaultIn, IsShortageOr, Reading, RunsOut};
ghost use Rattle.dm_collector.specs.CollectFaults.{IsFault};
ghost use Rattle.dm_collector.specs.declared.collect_fault.CollectFault.TheVariants as faults;

use crate_items::files::crate_order::OrderFault;
use crate_tables::fill_fault::FillFault;
use dm_base::ids::Crate;
use dm_maps::build_fault::BuildFault;
use std::alloc::AllocError;

/// Why crates were not collected.
#[derive(Drop, Debug)]
pub enum CollectFault {
    /// Each of these crates depends on the next one, and the last on the first.
    Cycle(Vec<Crate>),
    /// The file of a crate's root is not there.
    NoRootFile(Crate),
    /// A crate has more modules than the caller asked for.
    TooManyModules(Crate),
    /// There is no number for another module, item, variant or use.
    OutOfNumbers,
    OutOfMemory,
}

impl From<AllocError> for CollectFault {
    ghost from_gives = { λ _ fault. fault ≡ faults.OutOfMemory };

    fn from(_refused: AllocError) -> CollectFault {
        CollectFault::OutOfMemory
    }
}

/// The same of an order.
pub(crate) fn of_order(fault: OrderFault) -> CollectFault
    ensures { (r : Reading) (g : Graph) → orders.IsFaultOf (rows g) fault → IsFault r g result }
{
    match fault {
        OrderFault::Cycle(crates) => CollectFault::Cycle(crates),
        OrderFault::OutOfMemory => CollectFault::OutOfMemory,
    }
}

/// The same of a builder that knows the modules of its items.
pub(crate) fn of_builder(fault: BuildFault) -> CollectFault
    ensures { (r : Reading) (g : Graph) → IsFault r g result }
{
    match fault {
        BuildFault::OutOfMemory => CollectFault::OutOfMemory,
        _ => CollectFault::OutOfNumbers,
    }
}

/// The same of what crates declare.
pub(crate) fn of_filling(fault: FillFault) -> CollectFault
    ensures { (r : Reading) (g : Graph) → IsShortageOr (RunsOut r g) (IsFaultIn r g) fault → IsFault r g result }
{
    match fault {
        FillFault::NoRootFile(krate) => CollectFault::NoRootFile(krate),
        FillFault::TooManyModules(krate) => CollectFault::TooManyModules(krate),
        FillFault::OutOfNumbers => CollectFault::OutOfNumbers,
        FillFault::OutOfMemory => CollectFault::OutOfMemory,
    }
}
