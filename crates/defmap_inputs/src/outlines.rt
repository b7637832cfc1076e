//! The modules of a file whose items stand in files of their own.
use crate_items::files::source::Source;
use crate_items::modules::mod_items::ModItem;
use crate_items::modules::mod_resolution::{Candidate, ModDir};
use dm_base::name::Name;
use indexmap::IndexMap;
use item_tree::lexer::span::{name_text, string_text};
use std::alloc::{AllocError, Global};

/// A module whose items stand in a file of its own, and where that is looked for.
pub(crate) struct Outline {
    pub(crate) name: Name,
    pub(crate) candidates: Vec<Candidate>,
}

/// A hand-written `Drop`, to keep proofs small: what drops one has one call to prove.
impl Drop for Outline {
    fn drop(self) {
        let Outline {
            name: _name,
            candidates: _candidates,
        } = self;
    }
}

/// The modules of a file, as they are gone over.
struct Walk<'a> {
    alloc: Global,
    text: &'a [u8],
    /// Where the files of the modules in the file itself are looked for.
    dir: &'a ModDir,
    /// The same of each inline module, by its item.
    inner: IndexMap<usize, ModDir>,
    found: Vec<Outline>,
}

/// A hand-written `Drop`, to keep proofs small: what drops one has one call to prove.
impl<'a> Drop for Walk<'a> {
    fn drop(self) {
        let Walk {
            alloc: _alloc,
            text: _text,
            dir: _dir,
            inner: _inner,
            found: _found,
        } = self;
    }
}

/// Whether one of some modules has its items in a file of its own.
fn has_outline(items: &[ModItem]) -> bool {
    for item in items {
        if item.is_outline {
            return true;
        }
    }
    false
}

impl<'a> Walk<'a> {
    /// Where the files of the modules are looked for that stand in one.
    fn dir_of(&self, home: Option<usize>) -> Option<&ModDir> {
        match home {
            None => Some(self.dir),
            Some(item) => self.inner.get(&item),
        }
    }

    /// Goes over a module.
    fn meet(&mut self, item: ModItem) -> Result<(), AllocError> {
        let Ok(text) = std::str::from_utf8(name_text(self.text, item.name)) else {
            return Ok(());
        };
        let name = Name::new(self.alloc, text)?;
        let path = match item.path {
            None => None,
            Some(span) => Some(string_text(self.text, span)),
        };
        let Some(dir) = self.dir_of(item.home) else {
            return Ok(());
        };
        if item.is_outline {
            let candidates = dir.candidates(self.alloc, &name, path)?;
            self.found.push(Outline { name, candidates })?;
        } else {
            let inner = dir.descend_into_definition(self.alloc, &name, path)?;
            self.inner.insert(item.item, inner)?;
        }
        Ok(())
    }

    fn into_found(self) -> Vec<Outline> {
        let Walk {
            alloc: _alloc,
            text: _text,
            dir: _dir,
            inner: _inner,
            found,
        } = self;
        found
    }
}

/// The modules that a file declares whose items stand in files of their own.
pub(crate) fn outlines_of(
    alloc: Global,
    source: &Source,
    text: &[u8],
    dir: &ModDir,
) -> Result<Vec<Outline>, AllocError> {
    let items = source.mod_items();
    let mut walk = Walk {
        alloc,
        text,
        dir,
        inner: IndexMap::new(alloc),
        found: Vec::new(alloc),
    };
    if has_outline(items) {
        for item in items {
            walk.meet(*item)?;
        }
    }
    Ok(walk.into_found())
}
