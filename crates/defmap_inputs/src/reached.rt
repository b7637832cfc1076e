//! The files that crates reach, by their paths without links.
use crate::named_modules::{NamedFile, named_in};
use crate::reading::{FileText, file_text, whole_path};
use crate_items::modules::mod_resolution::ModDir;
use dm_base::source::Edition;
use indexmap::{IndexMap, IndexSet};
use std::alloc::{AllocError, Global};
use std::rt::Files;

/// By what a file is reached.
#[derive(Clone, Copy, PartialEq, Eq, Debug)]
pub(crate) enum By {
    /// A module of the crates.
    Crates,
    /// The words of another target of the package.
    Targets,
    /// Words that `cfg` takes away, that stand in a macro call, or that include it.
    Words,
}

/// The files that are reached, each by the first that came to it.
pub(crate) struct Reached {
    alloc: Global,
    by: IndexMap<String, By>,
}

/// A hand-written `Drop`, to keep proofs small: what drops one has one call to prove.
impl Drop for Reached {
    fn drop(self) {
        let Reached {
            alloc: _alloc,
            by: _by,
        } = self;
    }
}

/// Files whose words are still to be gone over.
struct Visits {
    edition: Edition,
    seen: IndexSet<Vec<u8>>,
    left: Vec<NamedFile>,
}

/// A hand-written `Drop`, to keep proofs small: what drops one has one call to prove.
impl Drop for Visits {
    fn drop(self) {
        let Visits {
            edition: _edition,
            seen: _seen,
            left: _left,
        } = self;
    }
}

impl Reached {
    pub(crate) fn new(alloc: Global) -> Reached {
        Reached {
            alloc,
            by: IndexMap::new(alloc),
        }
    }

    /// By what the file at a path without links is reached.
    pub(crate) fn by(&self, whole: &String) -> Option<By> {
        self.by.get(whole).copied()
    }

    /// Whether a file below a folder is reached, whose path ends in a slash.
    pub(crate) fn has_below(&self, folder: &str) -> bool {
        for (path, _by) in self.by.iter() {
            if path.as_str().starts_with(folder) {
                return true;
            }
        }
        false
    }

    /// Adds a file, unless it is there.
    pub(crate) fn add<R: Files + AllocGlobal>(
        &mut self,
        rt: &R,
        path: &str,
        by: By,
    ) -> Result<(), AllocError> {
        let whole = whole_path(rt, path)?;
        if !self.by.contains_key(&whole) {
            self.by.insert(whole, by)?;
        }
        Ok(())
    }

    /// Goes over a file, and adds what it names to what is left.
    fn visit<R: Files + AllocGlobal>(
        &mut self,
        rt: &R,
        visits: &mut Visits,
        file: &NamedFile,
        by: By,
    ) -> Result<(), AllocError> {
        let path = file.path.as_slice();
        if !visits.seen.insert(Vec::from_slice(self.alloc, path)?)? {
            return Ok(());
        }
        let Ok(shown) = std::str::from_utf8(path) else {
            return Ok(());
        };
        let FileText::Text(text) = file_text(rt, shown) else {
            return Ok(());
        };
        self.add(rt, shown, by)?;
        let named = named_in(self.alloc, visits.edition, text.as_slice(), path, &file.dir)?;
        visits.left.extend(named)
    }

    /// Adds the file of a root and all that its words name, and the words of these files, so many at most.
    pub(crate) fn follow<R: Files + AllocGlobal>(
        &mut self,
        rt: &R,
        root: &str,
        edition: Edition,
        limit: u32,
        by: By,
    ) -> Result<(), AllocError> {
        let alloc = self.alloc;
        let mut visits = Visits {
            edition,
            seen: IndexSet::new(alloc),
            left: Vec::new(alloc),
        };
        visits.left.push(NamedFile {
            path: Vec::from_slice(alloc, root.as_bytes())?,
            dir: ModDir::root(alloc, root.as_bytes())?,
        })?;
        for _file in 0..limit {
            let Some(file) = visits.left.pop() else {
                break;
            };
            self.visit(rt, &mut visits, &file, by)?;
        }
        Ok(())
    }
}
