//! `Container`: what has names that a path leads through, or a glob brings.

use dm_base::ids::{EnumId, ModuleId};

/// A module or an enum.
#[derive(Clone, Copy, PartialEq, Eq, Debug)]
pub enum Container {
    Module(ModuleId),
    Enum(EnumId),
}
