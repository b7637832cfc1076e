//! What may be there although it is not found: names that an unexpanded macro, a file that is not there, or a crate that is
//! not given, may bring.
//!
//! A module *hides* names where a macro is called among its items, and where it has a glob import of a module that hides
//! names, or one that is itself unknown. An import that leads nowhere is *unknown* where it begins with a crate of the
//! standard library, which is not given; where the module that its first missing name is looked up in hides names; where
//! this name is the last, and that module the root of a crate of procedural macros, or of one in which a macro is called
//! that may export macros; where this name is that of a module without its file; and where an unknown import of that
//! module, or of one that it has a glob of, would bind this name.
use crate::crates::Crates;
use crate::macro_exports::exporting_roots;
use crate::macro_homes::MacroHome;
use crate::notes::{Cause, Notes};
use crate::written_path::prefix_of;
use crate_items::modules::CrateModules;
use dm_base::ids::ModuleId;
use dm_base::item_ids::ModuleDefId;
use dm_base::mod_path::{ModPath, PathKind};
use dm_base::name::Name;
use dm_imports::container::Container;
use dm_imports::glob_import::GlobImport;
use indexmap::IndexMap;
use std::alloc::{AllocError, Global};

/// What is hidden in crates.
pub(crate) struct Hidden<'a, C: Crates> {
    alloc: Global,
    crates: &'a C,
    /// Whether the crates of the standard library are given.
    has_sysroot: bool,
    pub(crate) notes: Notes<'a>,
}

/// A hand-written `Drop`, to keep proofs small: what drops one has one call to prove.
impl<'a, C: Crates> Drop for Hidden<'a, C> {
    fn drop(self) {
        let Hidden {
            alloc: _alloc,
            crates: _crates,
            has_sysroot: _has_sysroot,
            notes: _notes,
        } = self;
    }
}

/// The name that is missing of a path, and the module that it is looked up in.
#[derive(Clone, Copy)]
pub(crate) struct Missing<'b> {
    pub(crate) module: ModuleId,
    pub(crate) name: Option<&'b Name>,
    is_first: bool,
    is_last: bool,
}

/// Whether a crate of the standard library has a name.
pub(crate) fn is_standard(name: &Name) -> bool {
    matches!(
        name.as_str(),
        "core" | "alloc" | "std" | "test" | "proc_macro"
    )
}

/// The module that a beginning of an import's path means.
pub(crate) fn module_meant<C: Crates>(
    alloc: Global,
    crates: &C,
    home: ModuleId,
    path: &ModPath,
    count: usize,
) -> Result<Option<ModuleId>, AllocError> {
    let begun = prefix_of(alloc, path, count)?;
    let Some(found) = crates.import_meaning(home, &begun) else {
        return Ok(None);
    };
    if found.segment_index.is_some() {
        return Ok(None);
    }
    match found.resolved_def.types {
        None => Ok(None),
        Some(item) => match item.def {
            ModuleDefId::ModuleId(m) => Ok(Some(m)),
            _ => Ok(None),
        },
    }
}

/// The module that the first name of a path without a beginning is looked up in.
pub(crate) fn first_module<C: Crates>(crates: &C, home: ModuleId) -> ModuleId {
    let Some(krate) = crates.krate_of(home) else {
        return home;
    };
    if crates.is_2015(krate) {
        crates.root_of(krate).unwrap_or(home)
    } else {
        home
    }
}

/// The first missing name of the path of an import that leads nowhere.
pub(crate) fn missing_of<'b, C: Crates>(
    alloc: Global,
    crates: &C,
    home: ModuleId,
    path: &'b ModPath,
) -> Result<Missing<'b>, AllocError> {
    let count = path.segments().len();
    for less in 0..count {
        let begun = count.saturating_sub(less);
        if let Some(module) = module_meant(alloc, crates, home, path, begun)? {
            let name = path.segments().get(begun);
            return Ok(Missing {
                module,
                name,
                is_first: false,
                is_last: less == 1,
            });
        }
    }
    let is_plain = matches!(path.kind(), PathKind::Plain | PathKind::Abs);
    let begun = if is_plain {
        None
    } else {
        module_meant(alloc, crates, home, path, 0)?
    };
    Ok(Missing {
        module: begun.unwrap_or(first_module(crates, home)),
        name: path.segments().first(),
        is_first: is_plain,
        is_last: count == 1,
    })
}

/// The modules that macro calls stand in.
fn modules_of(alloc: Global, homes: &[MacroHome]) -> Result<IndexMap<ModuleId, Cause>, AllocError> {
    let mut modules = IndexMap::new(alloc);
    for home in homes {
        modules.insert(home.module, Cause::Macro)?;
    }
    Ok(modules)
}

/// What is noted at first: the modules of macro calls, and the roots of what exports macros.
fn begun<'a, C: Crates>(
    alloc: Global,
    crates: &C,
    homes: &[MacroHome],
) -> Result<Notes<'a>, AllocError> {
    let by_macros = modules_of(alloc, homes)?;
    let exporting = exporting_roots(alloc, crates, homes)?;
    Ok(Notes::new(alloc, by_macros, exporting))
}

impl<'a, C: Crates> Hidden<'a, C> {
    /// What is hidden in the crates.
    pub(crate) fn of(
        alloc: Global,
        crates: &'a C,
        has_sysroot: bool,
        homes: &[MacroHome],
    ) -> Result<Hidden<'a, C>, AllocError> {
        let mut hidden = Hidden {
            alloc,
            crates,
            has_sysroot,
            notes: begun(alloc, crates, homes)?,
        };
        hidden.note_files()?;
        hidden.find_all(crates.unresolved())?;
        Ok(hidden)
    }

    /// Notes the modules of the crate of a number whose files are not there.
    fn note_files_of(&mut self, number: usize, list: &'a CrateModules) -> Result<(), AllocError> {
        let crates = self.crates;
        for fault in list.faults() {
            let declaration = fault.declaration();
            let home = crates.module_ids(number).get(declaration.parent);
            if let Some(home) = home.copied().flatten() {
                let name = declaration.name.as_str();
                self.notes.note_name(home, name, Cause::File)?;
            }
        }
        Ok(())
    }

    /// Notes the modules of all crates whose files are not there.
    fn note_files(&mut self) -> Result<(), AllocError> {
        let crates = self.crates;
        for (number, list) in crates.lists().iter().enumerate() {
            self.note_files_of(number, list)?;
        }
        Ok(())
    }

    /// Notes what is unknown, until there is nothing new.
    fn find_all(&mut self, unresolved: &[usize]) -> Result<(), AllocError> {
        for _round in 0..u32::MAX {
            let named = self.find_named(unresolved)?;
            let globs = self.find_globs()?;
            if !named && !globs {
                break;
            }
        }
        Ok(())
    }

    pub(crate) fn crates(&self) -> &'a C {
        self.crates
    }

    pub(crate) fn has_sysroot(&self) -> bool {
        self.has_sysroot
    }

    pub(crate) fn alloc(&self) -> Global {
        self.alloc
    }

    /// Why a path that leads nowhere is unknown, if it is.
    pub(crate) fn cause_of(
        &self,
        home: ModuleId,
        path: &ModPath,
    ) -> Result<Option<Cause>, AllocError> {
        let missing = missing_of(self.alloc, self.crates, home, path)?;
        let Some(name) = missing.name else {
            return Ok(None);
        };
        if missing.is_first && !self.has_sysroot && is_standard(name) {
            return Ok(Some(Cause::Standard));
        }
        if missing.is_last && self.notes.is_exporting(missing.module) {
            return Ok(Some(Cause::Macro));
        }
        Ok(self.notes.cause_of_name(missing.module, name))
    }

    /// Notes the named imports that are unknown by what is noted. Tells whether there is a new one.
    fn find_named(&mut self, unresolved: &[usize]) -> Result<bool, AllocError> {
        let crates = self.crates;
        let mut has_new = false;
        for place in unresolved {
            if self.notes.cause_of_named(*place).is_some() {
                continue;
            }
            let Some(import) = crates.imports().get(*place) else {
                continue;
            };
            let home = import.home;
            if let Some(cause) = self.cause_of(home, &import.path)? {
                self.notes.note_named(*place, home, &import.name, cause)?;
                has_new = true;
            }
        }
        Ok(has_new)
    }

    /// Notes a glob that is unknown or of a module that hides names, and the unknown names that it would bring. Tells
    /// whether there is something new.
    fn find_glob(&mut self, place: usize, glob: &GlobImport) -> Result<bool, AllocError> {
        let (has_new, cause) = match self.crates.source(glob) {
            None => (false, self.cause_of(glob.into, &glob.path)?),
            Some(Container::Module(m)) => {
                (self.notes.bring(m, glob.into)?, self.notes.cause_in(m))
            }
            Some(Container::Enum(_enum)) => (false, None),
        };
        match cause {
            None => Ok(has_new),
            Some(cause) => {
                self.notes.note_glob(place, glob.into, cause)?;
                Ok(true)
            }
        }
    }

    /// Notes what is to be noted of globs. Tells whether there is something new.
    fn find_globs(&mut self) -> Result<bool, AllocError> {
        let crates = self.crates;
        let mut has_new = false;
        for (place, glob) in crates.globs().iter().enumerate() {
            if self.notes.cause_of_glob(place).is_none() && self.find_glob(place, glob)? {
                has_new = true;
            }
        }
        Ok(has_new)
    }
}
