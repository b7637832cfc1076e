//! The imports that lead somewhere, and that may mean more in other namespaces by what macros bring.
//!
//! Such an import takes a name of a module that hides it, or that such an import of that module binds.
use crate::crates::Crates;
use crate::hidden::{Hidden, first_module, module_meant};
use dm_base::ids::ModuleId;
use dm_base::mod_path::{ModPath, PathKind};
use indexmap::IndexSet;
use std::alloc::{AllocError, Global};

/// What finds such imports.
struct Finder<'s, 'h, C: Crates> {
    hidden: &'h Hidden<'s, C>,
    /// Those that are found, by their places among the named ones.
    places: IndexSet<usize>,
    /// The modules that they stand in, and the names that they bind.
    bound: IndexSet<(ModuleId, &'s str)>,
}

/// A hand-written `Drop`, to keep proofs small: what drops one has one call to prove.
impl<'s, 'h, C: Crates> Drop for Finder<'s, 'h, C> {
    fn drop(self) {
        let Finder {
            hidden: _hidden,
            places: _places,
            bound: _bound,
        } = self;
    }
}

/// The module that the last name of a path is looked up in.
fn last_module<C: Crates>(
    alloc: Global,
    crates: &C,
    home: ModuleId,
    path: &ModPath,
) -> Result<Option<ModuleId>, AllocError> {
    let before = path.segments().len().saturating_sub(1);
    if before == 0 && matches!(path.kind(), PathKind::Plain | PathKind::Abs) {
        return Ok(Some(first_module(crates, home)));
    }
    module_meant(alloc, crates, home, path, before)
}

impl<'s, 'h, C: Crates> Finder<'s, 'h, C> {
    /// Whether a path of an import may mean more.
    fn may_mean_more(&self, home: ModuleId, path: &ModPath) -> Result<bool, AllocError> {
        let Some(name) = path.segments().last() else {
            return Ok(false);
        };
        match last_module(self.hidden.alloc(), self.hidden.crates(), home, path)? {
            None => Ok(false),
            Some(module) => Ok(
                self.hidden.notes.is_exporting(module)
                    || self.hidden.notes.cause_of_name(module, name).is_some()
                    || self.bound.contains(&(module, name.as_str())),
            ),
        }
    }

    /// Notes the imports that may mean more by what is noted. Tells whether there is a new one.
    fn find(&mut self) -> Result<bool, AllocError> {
        let crates = self.hidden.crates();
        let mut has_new = false;
        for (place, import) in crates.imports().iter().enumerate() {
            if self.places.contains(&place) || self.hidden.notes.cause_of_named(place).is_some() {
                continue;
            }
            if self.may_mean_more(import.home, &import.path)? {
                self.places.insert(place)?;
                let bound = (import.home, import.name.as_str());
                self.bound.insert(bound)?;
                has_new = true;
            }
        }
        Ok(has_new)
    }

    fn into_places(self) -> IndexSet<usize> {
        let Finder {
            hidden: _hidden,
            places,
            bound: _bound,
        } = self;
        places
    }
}

/// The imports that lead somewhere and may mean more, by their places among the named ones.
pub(crate) fn partly_unknown<C: Crates>(
    hidden: &Hidden<'_, C>,
) -> Result<IndexSet<usize>, AllocError> {
    let alloc = hidden.alloc();
    let mut finder = Finder {
        hidden,
        places: IndexSet::new(alloc),
        bound: IndexSet::new(alloc),
    };
    for _round in 0..u32::MAX {
        if !finder.find()? {
            break;
        }
    }
    Ok(finder.into_places())
}
