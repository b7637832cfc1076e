//! `Importing`: the imports and globs of some crates.

use crate::declarations::Declarations;
use crate::glob_import::GlobImport;
use crate::named_import::NamedImport;

/// The imports and globs of some crates, and what of their declarations paths go by.
#[derive(Drop)]
pub struct Importing<'a> {
    pub imports: &'a [NamedImport],
    pub globs: &'a [GlobImport],
    pub declarations: &'a Declarations,
}
