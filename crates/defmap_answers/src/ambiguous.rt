//! Names that are ambiguous: globs of one module bring different definitions of them.
use crate::by_rules::{mean_something, meanings_in, meanings_of, source_meanings};
use crate::crates::Crates;
use crate::hidden::{first_module, module_meant};
use crate::path_text::path_text;
use crate::shown::module_path;
use crate::written_path::prefix_of;
use dm_base::ids::ModuleId;
use dm_base::mod_path::{ModPath, PathKind};
use dm_base::name::Name;
use dm_base::per_ns::Namespace;
use dm_imports::glob_import::GlobImport;
use dm_imports::meaning::Meaning;
use dm_imports::rules::meanings::ImportMeanings;
use indexmap::IndexMap;
use std::alloc::{AllocError, Global};
use std::fmt::Write;

/// Where a path comes to an ambiguous name: the last of so many of its segments, in a namespace.
#[derive(Clone, Copy)]
pub struct Ambiguity {
    pub count: usize,
    pub namespace: Namespace,
}

/// The imports whose paths come to ambiguous names: the named ones by their places, and the globs.
pub struct Ambiguities {
    pub named: IndexMap<usize, Ambiguity>,
    pub globs: IndexMap<usize, Ambiguity>,
}

/// A hand-written `Drop`, to keep proofs small: what drops one has one call to prove.
impl Drop for Ambiguities {
    fn drop(self) {
        let Ambiguities {
            named: _named,
            globs: _globs,
        } = self;
    }
}

fn is_ambiguous(meaning: Option<Meaning>) -> bool {
    match meaning {
        None => false,
        Some(meaning) => meaning.is_ambiguous,
    }
}

/// The namespace in which an import brings an ambiguous name.
fn ambiguous_in(meanings: ImportMeanings) -> Option<Namespace> {
    if is_ambiguous(meanings.types) {
        Some(Namespace::Types)
    } else if is_ambiguous(meanings.values) {
        Some(Namespace::Values)
    } else if is_ambiguous(meanings.macros) {
        Some(Namespace::Macros)
    } else {
        None
    }
}

/// Where one of the segments before a path's last one is ambiguous.
fn ambiguity_before<C: Crates>(
    alloc: Global,
    crates: &C,
    home: ModuleId,
    path: &ModPath,
) -> Result<Option<Ambiguity>, AllocError> {
    for count in 1..path.segments().len() {
        let beginning = prefix_of(alloc, path, count)?;
        if is_ambiguous(crates.meaning_by_rules(home, None, &beginning, Namespace::Types)) {
            let namespace = Namespace::Types;
            return Ok(Some(Ambiguity { count, namespace }));
        }
    }
    Ok(None)
}

/// Where a path comes to an ambiguous name, which has these meanings: a path that means something came over none before
/// its last segment.
fn ambiguity_of<C: Crates>(
    alloc: Global,
    crates: &C,
    home: ModuleId,
    path: &ModPath,
    meanings: ImportMeanings,
) -> Result<Option<Ambiguity>, AllocError> {
    if let Some(namespace) = ambiguous_in(meanings) {
        let count = path.segments().len();
        return Ok(Some(Ambiguity { count, namespace }));
    }
    if mean_something(meanings) {
        Ok(None)
    } else {
        ambiguity_before(alloc, crates, home, path)
    }
}

/// Where a path comes to an ambiguous name, which a module asks for.
pub(crate) fn ambiguity_in<C: Crates>(
    alloc: Global,
    crates: &C,
    home: ModuleId,
    path: &ModPath,
) -> Result<Option<Ambiguity>, AllocError> {
    let meanings = meanings_in(crates, home, path);
    ambiguity_of(alloc, crates, home, path, meanings)
}

impl Ambiguities {
    /// Adds the named imports.
    fn add_named<C: Crates>(&mut self, alloc: Global, crates: &C) -> Result<(), AllocError> {
        for (place, import) in crates.imports().iter().enumerate() {
            let meanings = meanings_of(crates, place, import);
            let found = ambiguity_of(alloc, crates, import.home, &import.path, meanings)?;
            if let Some(ambiguity) = found {
                self.named.insert(place, ambiguity)?;
            }
        }
        Ok(())
    }

    /// Adds the globs.
    fn add_globs<C: Crates>(&mut self, alloc: Global, crates: &C) -> Result<(), AllocError> {
        for (place, glob) in crates.globs().iter().enumerate() {
            let meanings = source_meanings(crates, glob.into, &glob.path);
            let found = ambiguity_of(alloc, crates, glob.into, &glob.path, meanings)?;
            if let Some(ambiguity) = found {
                self.globs.insert(place, ambiguity)?;
            }
        }
        Ok(())
    }

    /// Those of all crates.
    pub fn of<C: Crates>(alloc: Global, crates: &C) -> Result<Ambiguities, AllocError> {
        let mut all = Ambiguities {
            named: IndexMap::new(alloc),
            globs: IndexMap::new(alloc),
        };
        all.add_named(alloc, crates)?;
        all.add_globs(alloc, crates)?;
        Ok(all)
    }
}

/// The module that an ambiguous segment of a path is looked up in.
fn module_of<C: Crates>(
    alloc: Global,
    crates: &C,
    home: ModuleId,
    path: &ModPath,
    count: usize,
) -> Result<Option<ModuleId>, AllocError> {
    if count == 1 && matches!(path.kind(), PathKind::Plain | PathKind::Abs) {
        return Ok(Some(first_module(crates, home)));
    }
    module_meant(alloc, crates, home, path, count.saturating_sub(1))
}

/// The globs of a module that offer a name, by their places among all.
fn offering<'a, C: Crates>(
    alloc: Global,
    crates: &'a C,
    m: ModuleId,
    name: &Name,
    namespace: Namespace,
) -> Result<Vec<&'a GlobImport>, AllocError> {
    let mut found = Vec::new(alloc);
    for glob in crates.globs() {
        if glob.into == m && crates.offers(glob, name, namespace) {
            found.push(glob)?;
        }
    }
    Ok(found)
}

/// An ambiguous name of a path: the module that has it, if it is known, and the globs that bring it there.
pub(crate) struct AmbiguousName<'s, 'p> {
    pub(crate) name: &'p Name,
    pub(crate) module: Option<ModuleId>,
    pub(crate) globs: Vec<&'s GlobImport>,
}

/// A hand-written `Drop`, to keep proofs small: what drops one has one call to prove.
impl<'s, 'p> Drop for AmbiguousName<'s, 'p> {
    fn drop(self) {
        let AmbiguousName {
            name: _name,
            module: _module,
            globs: _globs,
        } = self;
    }
}

/// The ambiguous name that a path comes to.
pub(crate) fn ambiguous_name<'s, 'p, C: Crates>(
    alloc: Global,
    crates: &'s C,
    home: ModuleId,
    path: &'p ModPath,
    ambiguity: Ambiguity,
) -> Result<Option<AmbiguousName<'s, 'p>>, AllocError> {
    let Some(name) = path.segments().get(ambiguity.count.saturating_sub(1)) else {
        return Ok(None);
    };
    let module = module_of(alloc, crates, home, path, ambiguity.count)?;
    let globs = match module {
        None => Vec::new(alloc),
        Some(m) => offering(alloc, crates, m, name, ambiguity.namespace)?,
    };
    Ok(Some(AmbiguousName {
        name,
        module,
        globs,
    }))
}

/// What tells that a name is ambiguous: `X of crate::c is ambiguous: it comes by crate::a::* and crate::b::*`.
pub(crate) fn ambiguity_text<C: Crates>(
    alloc: Global,
    crates: &C,
    found: &AmbiguousName<'_, '_>,
) -> Result<String, AllocError> {
    let mut text = String::from_str(alloc, found.name.as_str())?;
    if let Some(m) = found.module {
        let path = module_path(alloc, crates, m)?;
        write!(text, " of {path}")?;
    }
    text.push_str(" is ambiguous")?;
    for (place, glob) in found.globs.iter().enumerate() {
        let path = path_text(alloc, &glob.path)?;
        let before = if place == 0 { ": it comes by" } else { " and" };
        write!(text, "{before} {path}::*")?;
    }
    Ok(text)
}
