//! The versions of the scoping rules.

/// By which version of the scoping rules a world answers paths (docs/RULES.md, "Paths").
#[derive(Clone, Copy, PartialEq, Eq, Hash, Debug)]
pub enum Rules {
    /// Macros of preludes are found whatever kind of macro is expected.
    V1,
    /// Macros of preludes are found where they may be called as is expected.
    V2,
}
