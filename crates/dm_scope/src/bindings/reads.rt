//! How a namespace compares and converts its imports and definitions, as one trait.
ghost use Rattle.dm_scope.specs.Shadowing.{Reading, reading};

use dm_base::definition::Definition;
use dm_base::import_source::ImportSource;

/// Definitions that a namespace binds by imports `I`. All its members are for contracts.
pub trait Reads<I> {
    ghost reading: { Reading Self I };
}

impl<D: Definition, I: ImportSource> Reads<I> for D {
    ghost reading = { reading I.eq D.eq I.globs I.narrowed I.widened D.widened_def };
}
