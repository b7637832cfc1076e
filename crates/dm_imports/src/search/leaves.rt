//! The imports and globs of a crate whose names are searched.

use crate::glob_import::GlobImport;
use crate::importing::Importing;
use crate::meaning::Source;
use crate::named_import::{ImportKind, NamedImport};
use crate::search::crate_maps::{CrateMaps, number_of};
use crate::search::leaf::{Binds, Leaf, Path};
use crate::search::maps::Maps;
use crate::slots::Slots;
use dm_base::ids::Crate;
use dm_base::item_ids::MacroId;
use dm_base::mod_path::ModPath;
use dm_base::name::Name;
use dm_maps::world::World;
use indexmap::IndexSet;
use std::alloc::{AllocError, Global};

/// A path, with its names by their numbers.
fn numbered(
    alloc: Global,
    names: &mut IndexSet<Name>,
    path: &ModPath,
    textual: Option<MacroId>,
) -> Result<Path, AllocError> {
    let mut segments = Vec::new(alloc);
    for name in path.segments() {
        segments.push(number_of(alloc, names, name)?)?;
    }
    Ok(Path {
        kind: path.kind(),
        segments,
        textual,
    })
}

/// An import.
fn import_leaf(
    alloc: Global,
    names: &mut IndexSet<Name>,
    place: usize,
    import: &NamedImport,
) -> Result<Leaf, AllocError> {
    let name = number_of(alloc, names, &import.name)?;
    let path = numbered(alloc, names, &import.path, import.textual)?;
    Ok(Leaf {
        place,
        home: import.home,
        binds: match import.kind {
            ImportKind::All => Binds::All(name),
            ImportKind::TypeOnly => Binds::Type(name),
            ImportKind::Unnamed => Binds::Nothing,
        },
        path,
        vis: import.vis,
        source: Source::Import(import.import),
    })
}

/// A glob.
fn glob_leaf(
    alloc: Global,
    names: &mut IndexSet<Name>,
    place: usize,
    glob: &GlobImport,
) -> Result<Leaf, AllocError> {
    let path = numbered(alloc, names, &glob.path, None)?;
    Ok(Leaf {
        place,
        home: glob.into,
        binds: Binds::Names,
        path,
        vis: glob.vis,
        source: Source::Glob(glob.import),
    })
}

impl<'a> CrateMaps<'a> {
    /// Adds the imports of the crate.
    fn add_imports(&mut self, imports: &[NamedImport]) -> Result<(), AllocError> {
        for (place, import) in imports.iter().enumerate() {
            if self.is_own(import.home) {
                let leaf = import_leaf(self.alloc, &mut self.names, place, import)?;
                self.leaves.push(leaf)?;
            }
        }
        Ok(())
    }

    /// Adds the globs of the crate.
    fn add_globs(&mut self, globs: &[GlobImport]) -> Result<(), AllocError> {
        for (place, glob) in globs.iter().enumerate() {
            if self.is_own(glob.into) {
                let leaf = glob_leaf(self.alloc, &mut self.names, place, glob)?;
                self.leaves.push(leaf)?;
            }
        }
        Ok(())
    }
}

/// The def maps of a world, where the names of a crate are to be searched.
pub(crate) fn crate_maps<'a>(
    alloc: Global,
    world: &'a World,
    given: &Importing<'a>,
    krate: Crate,
    ambiguous: &'a Slots<bool>,
) -> Result<CrateMaps<'a>, AllocError> {
    let mut maps = CrateMaps {
        alloc,
        world,
        declarations: given.declarations,
        krate,
        ambiguous,
        names: IndexSet::new(alloc),
        leaves: Vec::new(alloc),
    };
    maps.add_imports(given.imports)?;
    maps.add_globs(given.globs)?;
    Ok(maps)
}
