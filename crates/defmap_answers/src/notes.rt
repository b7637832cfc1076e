//! What is noted of a world as hidden or unknown.
use dm_base::ids::ModuleId;
use dm_base::name::Name;
use indexmap::{IndexMap, IndexSet};
use std::alloc::{AllocError, Global};

/// Why something is unknown.
#[derive(Clone, Copy, PartialEq, Eq, Debug)]
pub enum Cause {
    /// A macro may bring it.
    Macro,
    /// The standard library may, which is not given.
    Standard,
    /// It would stand in the file of a module, which is not there.
    File,
}

/// Why something is unknown, in words.
pub(crate) fn cause_words(cause: Cause) -> &'static str {
    match cause {
        Cause::Macro => "by macros",
        Cause::Standard => "by the standard library",
        Cause::File => "by a file that is not there",
    }
}

/// Why an import of a name is unknown, and the place of the last name that was noted before of the same module.
#[derive(Clone, Copy)]
struct NotedName {
    cause: Cause,
    before: Option<usize>,
}

/// The modules that hide names, and the imports and globs that are unknown.
pub(crate) struct Notes<'a> {
    alloc: Global,
    /// The modules that hide names, each with what was found first.
    hiding: IndexMap<ModuleId, Cause>,
    /// The roots that macros may bring macros to.
    exporting: IndexSet<ModuleId>,
    /// The unknown imports, by their places among the named ones.
    named: IndexMap<usize, Cause>,
    /// The same, by the modules that they stand in and the names that they would bind, and by the modules that have globs
    /// of these.
    by_name: IndexMap<(ModuleId, &'a str), NotedName>,
    /// Where among these the last name of a module stands.
    last_names: IndexMap<ModuleId, usize>,
    /// The globs that hide names, by their places.
    globs: IndexMap<usize, Cause>,
}

/// A hand-written `Drop`, to keep proofs small: what drops one has one call to prove.
impl<'a> Drop for Notes<'a> {
    fn drop(self) {
        let Notes {
            alloc: _alloc,
            hiding: _hiding,
            exporting: _exporting,
            named: _named,
            by_name: _by_name,
            last_names: _last_names,
            globs: _globs,
        } = self;
    }
}

impl<'a> Notes<'a> {
    /// That some modules hide names, and that macros may bring macros to some roots.
    pub(crate) fn new(
        alloc: Global,
        hiding: IndexMap<ModuleId, Cause>,
        exporting: IndexSet<ModuleId>,
    ) -> Notes<'a> {
        Notes {
            alloc,
            hiding,
            exporting,
            named: IndexMap::new(alloc),
            by_name: IndexMap::new(alloc),
            last_names: IndexMap::new(alloc),
            globs: IndexMap::new(alloc),
        }
    }

    /// Whether macros may bring macros to a module.
    pub(crate) fn is_exporting(&self, module: ModuleId) -> bool {
        self.exporting.contains(&module)
    }

    /// Why a module hides names, if it does.
    pub(crate) fn cause_in(&self, module: ModuleId) -> Option<Cause> {
        self.hiding.get(&module).copied()
    }

    /// Why a name of a module is unknown, if it is: the module hides names, or has an unknown import that would bind it.
    pub(crate) fn cause_of_name(&self, module: ModuleId, name: &Name) -> Option<Cause> {
        if let Some(cause) = self.cause_in(module) {
            return Some(cause);
        }
        match self.by_name.get(&(module, name.as_str())) {
            None => None,
            Some(noted) => Some(noted.cause),
        }
    }

    /// Why a named import is unknown, if it is.
    pub(crate) fn cause_of_named(&self, place: usize) -> Option<Cause> {
        self.named.get(&place).copied()
    }

    /// Why a glob is unknown, or brings hidden names, if it does.
    pub(crate) fn cause_of_glob(&self, place: usize) -> Option<Cause> {
        self.globs.get(&place).copied()
    }

    /// Notes that a name of a module is unknown. Tells whether that is new.
    pub(crate) fn note_name(
        &mut self,
        module: ModuleId,
        name: &'a str,
        cause: Cause,
    ) -> Result<bool, AllocError> {
        if self.by_name.contains_key(&(module, name)) {
            return Ok(false);
        }
        let noted = NotedName {
            cause,
            before: self.last_names.get(&module).copied(),
        };
        self.last_names.insert(module, self.by_name.len())?;
        self.by_name.insert((module, name), noted)?;
        Ok(true)
    }

    /// Notes that a named import of a module is unknown, which would bind a name.
    pub(crate) fn note_named(
        &mut self,
        place: usize,
        module: ModuleId,
        name: &'a Name,
        cause: Cause,
    ) -> Result<(), AllocError> {
        self.named.insert(place, cause)?;
        self.note_name(module, name.as_str(), cause)?;
        Ok(())
    }

    /// Notes that a glob is unknown or brings hidden names, so that its module hides names.
    pub(crate) fn note_glob(
        &mut self,
        place: usize,
        module: ModuleId,
        cause: Cause,
    ) -> Result<(), AllocError> {
        self.globs.insert(place, cause)?;
        if !self.hiding.contains_key(&module) {
            self.hiding.insert(module, cause)?;
        }
        Ok(())
    }

    /// The unknown names of a module, each with why it is unknown.
    fn names_in(&self, module: ModuleId) -> Result<Vec<(&'a str, Cause)>, AllocError> {
        let mut found = Vec::new(self.alloc);
        let mut next = self.last_names.get(&module).copied();
        for _name in 0..self.by_name.len() {
            let Some(place) = next else {
                break;
            };
            let Some((named, noted)) = self.by_name.get_index(place) else {
                break;
            };
            found.push((named.1, noted.cause))?;
            next = noted.before;
        }
        Ok(found)
    }

    /// Notes the unknown names of a module for one that has a glob of it. Tells whether there is a new one.
    pub(crate) fn bring(&mut self, from: ModuleId, into: ModuleId) -> Result<bool, AllocError> {
        let mut has_new = false;
        for (name, cause) in self.names_in(from)? {
            if self.note_name(into, name, cause)? {
                has_new = true;
            }
        }
        Ok(has_new)
    }
}
