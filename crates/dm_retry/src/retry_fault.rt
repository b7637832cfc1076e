//! Why a `Retry` (`dm_retry`) does not take imports.

/// Why imports are not taken, by the numbers in whose order the reasons are tested.
#[derive(Clone, Copy, PartialEq, Eq, Debug)]
pub enum RetryFault {
    /// An import is listed twice.
    DoubleImport = 1,
    /// The module of an import, its use, the `$crate` of its path or what its visibility names is not the world's.
    UnknownPart,
}
