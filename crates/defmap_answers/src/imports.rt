//! What each import of some crates means.
use crate::ambiguous::Ambiguities;
use crate::by_rules::{mean_something, meanings_of, source_meanings};
use crate::crates::{Crates, asked_crates};
use crate::definitions::definition_text;
use crate::notes::Cause;
use crate::partly::partly_unknown;
use crate::path_text::path_text;
use crate::places::use_spot;
use crate::prelude_use::prelude_use;
use crate::private::private_text;
use crate::rows::{Location, Row, push_location, push_row};
use crate::shown::is_own;
use crate::survey::Survey;
use dm_base::ids::{Crate, ModuleId, UseId, UseTreeIdx};
use dm_base::mod_path::ModPath;
use dm_imports::meaning::Meaning;
use dm_imports::rules::meanings::ImportMeanings;
use indexmap::IndexSet;
use serde::Serialize;
use std::alloc::{AllocError, Global};
use std::fmt::Write;

/// What an import means: its path, where it is written, what it is in each namespace, and with which reservation.
#[derive(Drop, Serialize)]
struct ImportRow<'a> {
    reason: &'static str,
    path: String,
    at: Option<Location<'a>>,
    types: Option<String>,
    values: Option<String>,
    macros: Option<String>,
    /// What it comes to that is not to be seen there.
    private: Option<String>,
    reservation: Option<&'static str>,
}

/// Adds what something is in a namespace, if it is anything there.
fn push_meant(out: &mut String, word: &str, meant: &Option<String>) -> Result<(), AllocError> {
    match meant {
        None => Ok(()),
        Some(meant) => write!(out, "; {word} {meant}"),
    }
}

impl<'a> Row for ImportRow<'a> {
    fn push_text(&self, out: &mut String) -> Result<(), AllocError> {
        if let Some(at) = self.at {
            push_location(out, at)?;
        }
        write!(out, ": {}", self.path)?;
        push_meant(out, "type", &self.types)?;
        push_meant(out, "value", &self.values)?;
        push_meant(out, "macro", &self.macros)?;
        push_meant(out, "private", &self.private)?;
        match self.reservation {
            None => out.push_str("\n"),
            Some(words) => write!(out, "; {words}\n"),
        }
    }
}

/// What is said of an import that is unknown.
fn unknown_words(cause: Cause) -> &'static str {
    match cause {
        Cause::Macro => "unknown, by macros",
        Cause::Standard => "unknown, by the standard library",
        Cause::File => "unknown, by a file that is not there",
    }
}

/// What lists imports.
struct Listing<'s, 'h, C: Crates> {
    alloc: Global,
    crates: &'s C,
    survey: &'h Survey<'s, C>,
    /// The named imports that may mean more.
    partly: IndexSet<usize>,
    ambiguous: Ambiguities,
    out: String,
}

/// A hand-written `Drop`, to keep proofs small: what drops one has one call to prove.
impl<'s, 'h, C: Crates> Drop for Listing<'s, 'h, C> {
    fn drop(self) {
        let Listing {
            alloc: _alloc,
            crates: _crates,
            survey: _survey,
            partly: _partly,
            ambiguous: _ambiguous,
            out: _out,
        } = self;
    }
}

impl<'s, 'h, C: Crates> Listing<'s, 'h, C> {
    /// What an import is in a namespace.
    fn shown(&self, meaning: Option<Meaning>) -> Result<Option<String>, AllocError> {
        match meaning {
            None => Ok(None),
            Some(meaning) => {
                let shown = definition_text(self.alloc, self.crates, meaning.def)?;
                Ok(Some(shown))
            }
        }
    }

    /// Where an import is written.
    fn location(&self, leaf: (UseId, UseTreeIdx)) -> Result<Option<Location<'s>>, AllocError> {
        let (use_, idx) = leaf;
        match use_spot(self.alloc, self.crates, use_, idx)? {
            None => Ok(None),
            Some(spot) => Ok(Some(self.survey.lines.location(spot))),
        }
    }

    /// What an import that means nothing comes to that is not to be seen where it stands.
    fn private(
        &self,
        home: ModuleId,
        path: &ModPath,
        meanings: ImportMeanings,
        reservation: Option<&'static str>,
    ) -> Result<Option<String>, AllocError> {
        if reservation.is_some() || mean_something(meanings) {
            return Ok(None);
        }
        private_text(&self.survey.hidden, home, path)
    }

    /// Adds the row of an import.
    fn add(
        &mut self,
        (home, path, star): (ModuleId, &ModPath, &str),
        leaf: (UseId, UseTreeIdx),
        meanings: ImportMeanings,
        reservation: Option<&'static str>,
    ) -> Result<(), AllocError> {
        let mut written = path_text(self.alloc, path)?;
        written.push_str(star)?;
        let row = ImportRow {
            reason: "import",
            path: written,
            at: self.location(leaf)?,
            types: self.shown(meanings.types)?,
            values: self.shown(meanings.values)?,
            macros: self.shown(meanings.macros)?,
            private: self.private(home, path, meanings, reservation)?,
            reservation,
        };
        push_row(&mut self.out, self.alloc, self.survey.style, &row)
    }

    /// Adds all imports, by kind.
    fn add_all(&mut self) -> Result<(), AllocError> {
        self.add_named()?;
        self.add_globs()?;
        self.add_preludes()
    }

    fn add_named(&mut self) -> Result<(), AllocError> {
        let crates = self.crates;
        for (place, import) in crates.imports().iter().enumerate() {
            if !is_own(crates, import.home) {
                continue;
            }
            let notes = &self.survey.hidden.notes;
            let reservation = if let Some(cause) = notes.cause_of_named(place) {
                Some(unknown_words(cause))
            } else if self.ambiguous.named.contains_key(&place) {
                Some("ambiguous")
            } else if self.partly.contains(&place) {
                Some("more unknown")
            } else {
                None
            };
            let leaf = (import.import.use_, import.import.idx);
            let meanings = meanings_of(crates, place, import);
            let written = (import.home, &import.path, "");
            self.add(written, leaf, meanings, reservation)?;
        }
        Ok(())
    }

    /// Adds the glob by which a crate names its prelude, which is none of the globs that bring
    /// names.
    fn add_prelude(&mut self, krate: Crate) -> Result<(), AllocError> {
        if let Some(found) = prelude_use(self.alloc, self.crates, krate)? {
            let leaf = (found.use_, found.glob.tree);
            let path = &found.glob.path;
            let meanings = source_meanings(self.crates, found.home, path);
            self.add((found.home, path, "::*"), leaf, meanings, None)?;
        }
        Ok(())
    }

    /// Adds those of all crates that are asked about.
    fn add_preludes(&mut self) -> Result<(), AllocError> {
        for krate in &asked_crates(self.alloc, self.crates)? {
            self.add_prelude(*krate)?;
        }
        Ok(())
    }

    fn into_text(self) -> String {
        let Listing {
            alloc: _alloc,
            crates: _crates,
            survey: _survey,
            partly: _partly,
            ambiguous: _ambiguous,
            out,
        } = self;
        out
    }

    fn add_globs(&mut self) -> Result<(), AllocError> {
        let crates = self.crates;
        for (place, glob) in crates.globs().iter().enumerate() {
            if is_own(crates, glob.into) {
                let leaf = (glob.import.use_, glob.import.idx);
                let notes = &self.survey.hidden.notes;
                let reservation = if let Some(cause) = notes.cause_of_glob(place) {
                    Some(unknown_words(cause))
                } else if self.ambiguous.globs.contains_key(&place) {
                    Some("ambiguous")
                } else {
                    None
                };
                let meanings = source_meanings(crates, glob.into, &glob.path);
                self.add((glob.into, &glob.path, "::*"), leaf, meanings, reservation)?;
            }
        }
        Ok(())
    }
}

/// What each import of the crates that are asked about means, the named ones first, and those that
/// name preludes last.
pub fn imports_text<C: Crates>(survey: &Survey<'_, C>) -> Result<String, AllocError> {
    let (alloc, crates) = (survey.hidden.alloc(), survey.hidden.crates());
    let mut listing = Listing {
        alloc,
        crates,
        survey,
        partly: partly_unknown(&survey.hidden)?,
        ambiguous: Ambiguities::of(alloc, crates)?,
        out: String::new(alloc),
    };
    listing.add_all()?;
    Ok(listing.into_text())
}
