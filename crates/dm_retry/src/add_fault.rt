//! Why an import is not added to those of a `Retry` (`dm_retry`).

/// Why an import is not added, by the numbers in whose order the reasons are tested.
#[derive(Clone, Copy, PartialEq, Eq, Debug)]
pub enum AddFault {
    /// It is one of the imports.
    Double = 1,
    /// Its module, its use, the `$crate` of its path or what its visibility names is not the world's.
    UnknownPart,
    /// Memory ran out.
    OutOfMemory,
}
