//! `Readers`: the globs whose sources are found by known slots, each with its source.
ghost use Rattle.std.specs.Prelude.{◌≡◌, ◌++◌, ◌∷◌, [], OnOk};

use crate::container::Container;
use crate::glob_import::GlobImport;
use dm_base::ids::ModuleId;
use indexmap::IndexMap;
use std::alloc::{AllocError, Global};

/// A glob, and what its path leads to by known slots.
#[derive(Clone, Copy)]
pub(crate) struct Reader<'a> {
    pub(crate) glob: &'a GlobImport,
    pub(crate) source: Container,
}

/// Some globs, each with its source.
#[derive(Drop)]
pub(crate) struct Readers<'a> {
    pub(crate) all: Vec<Reader<'a>>,
    /// The places of those that read a module. The names of an enum are known from the beginning.
    pub(crate) of: IndexMap<ModuleId, Vec<usize>>,
    pub(crate) alloc: Global,
}

impl<'a> Readers<'a> {
    /// No globs.
    pub(crate) fn new(alloc: Global) -> Readers<'a>
        ensures { result.all.items ≡ [] }
    {
        Readers {
            all: Vec::new(alloc),
            of: IndexMap::new(alloc),
            alloc,
        }
    }

    /// Adds a glob.
    pub(crate) fn add(&mut self, reader: Reader<'a>) -> Result<(), AllocError>
        ensures { OnOk result (self.new.all.items ≡ self.old.all.items ++ reader.entry ∷ []) }
    {
        let place = self.all.len();
        self.all.push(reader)?;
        match reader.source {
            Container::Module(m) => self.add_place(m, place),
            Container::Enum(_) => Ok(()),
        }
    }

    /// Adds the place of a glob that reads a module.
    fn add_place(&mut self, m: ModuleId, place: usize) -> Result<(), AllocError>
        ensures { OnOk result (self.new.all.items ≡ self.old.all.items) }
    {
        match self.of.get_mut(&m) {
            Some(places) => {
                places.push(place)?;
                Ok(())
            }
            None => self.add_first(m, place),
        }
    }

    /// Adds the place of the first glob that reads a module.
    fn add_first(&mut self, m: ModuleId, place: usize) -> Result<(), AllocError>
        ensures { OnOk result (self.new.all.items ≡ self.old.all.items) }
    {
        let mut places = Vec::new(self.alloc);
        places.push(place)?;
        self.of.insert(m, places)?;
        Ok(())
    }
}
