//! Attributes of a crate as a whole, which all its def maps share.
use dm_base::ids::{FunctionId, ProcMacroId};
use dm_base::symbol::Symbol;

/// One attribute of a crate, as `#![no_std]` in its root sets it.
#[derive(Drop)]
pub enum CrateSetting {
    /// `#![no_std]`.
    NoStd,
    /// `#![no_core]`.
    NoCore,
    /// `#![rustc_coherence_is_core]`: the crate is `core` to coherence, as for inherent `impl`s of builtin types.
    CoherenceIsCore,
    /// `#![recursion_limit = "N"]`: how deep macros may expand.
    RecursionLimit(u32),
    /// A registered tool, whose attributes the crate may have; it goes last.
    Tool(Symbol),
    /// An unstable feature that the crate enables. One that is there stays at its place.
    Feature(Symbol),
    /// The procedural macro that a function of the crate defines, in a table each way. What is there is replaced.
    ProcMacro(FunctionId, ProcMacroId),
}
