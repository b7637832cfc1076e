//! Errors of a line: why it is refused, and how that is printed.
ghost use Rattle.std.specs.Prelude.{◌≡◌, Some};
ghost use Rattle.defmap_script.specs.Faults.{build_fault, fault_text, build_fault_text, world_fault_text, kind_text, holder_text, map_text};
ghost use Rattle.defmap_script.specs.declared.fault.Fault.TheVariants as faults;

use crate::lines::BadLine;
use dm_base::ids::MapId;
use dm_maps::build_fault::BuildFault;
use dm_maps::fault::{Holder, WorldFault, WorldFaultKind};
use std::alloc::AllocError;
use std::fmt;

/// Why a line is refused, in the order in which the reasons are tested.
#[derive(Clone, Copy)]
pub(crate) enum Fault {
    BadLine,
    NeedsWorld,
    NeedsBuilder,
    Unknown,
    Build(BuildFault),
    World(WorldFault),
    OutOfMemory,
}

impl From<BadLine> for Fault {
    ghost from_gives = { λ _ fault. fault ≡ faults.BadLine };

    fn from(_line: BadLine) -> Fault {
        Fault::BadLine
    }
}

impl From<BuildFault> for Fault {
    ghost from_gives = { λ refused fault. fault ≡ build_fault refused };

    fn from(refused: BuildFault) -> Fault {
        match refused {
            BuildFault::OutOfMemory => Fault::OutOfMemory,
            BuildFault::NoSuchCrate
            | BuildFault::NoSuchModule
            | BuildFault::NoSuchEnum
            | BuildFault::TakenChild
            | BuildFault::TakenVariant
            | BuildFault::OutOfNumbers => Fault::Build(refused),
        }
    }
}

impl From<AllocError> for Fault {
    ghost from_gives = { λ _ fault. fault ≡ faults.OutOfMemory };

    fn from(_refused: AllocError) -> Fault {
        Fault::OutOfMemory
    }
}

impl fmt::Display for Fault {
    ghost output = { λ fault. Some (fault_text fault) };

    fn fmt<W: fmt::Write>(&self, f: &mut fmt::Formatter<W>) -> fmt::Result {
        match *self {
            Fault::BadLine => f.write_str("BadLine"),
            Fault::NeedsWorld => f.write_str("NeedsWorld"),
            Fault::NeedsBuilder => f.write_str("NeedsBuilder"),
            Fault::Unknown => f.write_str("Unknown"),
            Fault::Build(fault) => write!(f, "{}", BuildFaultWord(fault)),
            Fault::World(fault) => write!(f, "{}", WorldFaultWords(fault)),
            Fault::OutOfMemory => f.write_str("OutOfMemory"),
        }
    }
}

/// The word of a builder's fault.
#[derive(Clone, Copy)]
struct BuildFaultWord(BuildFault);

impl fmt::Display for BuildFaultWord {
    ghost output = { λ w. Some (build_fault_text w.0) };

    fn fmt<W: fmt::Write>(&self, f: &mut fmt::Formatter<W>) -> fmt::Result {
        match self.0 {
            BuildFault::NoSuchCrate => f.write_str("NoSuchCrate"),
            BuildFault::NoSuchModule => f.write_str("NoSuchModule"),
            BuildFault::NoSuchEnum => f.write_str("NoSuchEnum"),
            BuildFault::TakenChild => f.write_str("TakenChild"),
            BuildFault::TakenVariant => f.write_str("TakenVariant"),
            BuildFault::OutOfNumbers => f.write_str("OutOfNumbers"),
            BuildFault::OutOfMemory => f.write_str("OutOfMemory"),
        }
    }
}

/// The words of a world's fault: its kind, the holder, and the id.
#[derive(Clone, Copy)]
struct WorldFaultWords(WorldFault);

impl fmt::Display for WorldFaultWords {
    ghost output = { λ w. Some (world_fault_text w.0) };

    fn fmt<W: fmt::Write>(&self, f: &mut fmt::Formatter<W>) -> fmt::Result {
        write!(
            f,
            "{} {} {}",
            KindWord(self.0.kind),
            HolderWord(self.0.holder),
            self.0.id
        )
    }
}

/// The word of a kind of faults.
#[derive(Clone, Copy)]
struct KindWord(WorldFaultKind);

impl fmt::Display for KindWord {
    ghost output = { λ w. Some (kind_text w.0) };

    fn fmt<W: fmt::Write>(&self, f: &mut fmt::Formatter<W>) -> fmt::Result {
        match self.0 {
            WorldFaultKind::UnknownModule => f.write_str("UnknownModule"),
            WorldFaultKind::UnknownCrate => f.write_str("UnknownCrate"),
            WorldFaultKind::UnknownUse => f.write_str("UnknownUse"),
            WorldFaultKind::UnknownItem => f.write_str("UnknownItem"),
            WorldFaultKind::UnknownMacro => f.write_str("UnknownMacro"),
        }
    }
}

/// The word of a holder: that of a map, `m` and a module, or `tables`.
#[derive(Clone, Copy)]
struct HolderWord(Holder);

impl fmt::Display for HolderWord {
    ghost output = { λ w. Some (holder_text w.0) };

    fn fmt<W: fmt::Write>(&self, f: &mut fmt::Formatter<W>) -> fmt::Result {
        match self.0 {
            Holder::Map(id) => write!(f, "{}", MapWord(id)),
            Holder::Module(id) => write!(f, "m{}", id.0),
            Holder::Tables => f.write_str("tables"),
        }
    }
}

/// The word of a map: `c` and its crate, or `b` and its block.
#[derive(Clone, Copy)]
struct MapWord(MapId);

impl fmt::Display for MapWord {
    ghost output = { λ w. Some (map_text w.0.krate.0 w.0.block) };

    fn fmt<W: fmt::Write>(&self, f: &mut fmt::Formatter<W>) -> fmt::Result {
        match self.0.block {
            None => write!(f, "c{}", self.0.krate.0),
            Some(block) => write!(f, "b{}", block.0),
        }
    }
}
