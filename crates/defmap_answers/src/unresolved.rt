//! What leads nowhere in some crates.
use crate::ambiguous::{Ambiguities, Ambiguity, AmbiguousName, ambiguity_text, ambiguous_name};
use crate::crates::{Crates, is_asked, numbered};
use crate::hidden::Hidden;
use crate::macro_calls::{CallEnd, end_of, item_of};
use crate::macro_homes::MacroHome;
use crate::notes::Cause;
use crate::path_text::path_text;
use crate::places::{Lines, Spot, item_spot, source_of, use_spot};
use crate::private::private_text;
use crate::rows::{Location, Row, Style, push_location, push_row};
use crate::shown::is_own;
use crate::survey::Survey;
use crate_items::modules::CrateModules;
use crate_items::modules::declared_module::{Declaration, ModuleFault};
use dm_base::ids::{Crate, ModuleId, UseId, UseTreeIdx};
use dm_base::mod_path::ModPath;
use serde::Serialize;
use std::alloc::{AllocError, Global};
use std::fmt::Write;

/// A message, and what it is about.
pub struct Told {
    spot: Option<Spot>,
    message: String,
}

/// A hand-written `Drop`, to keep proofs small: what drops one has one call to prove.
impl Drop for Told {
    fn drop(self) {
        let Told {
            spot: _spot,
            message: _message,
        } = self;
    }
}

/// How many imports of a crate are unknown.
#[derive(Clone, Copy)]
pub struct UnknownCount {
    pub by_macros: usize,
    pub by_standard: usize,
    pub by_files: usize,
    /// Macro calls.
    pub calls: usize,
}

/// What leads nowhere, and how much of what leads nowhere may be there, by crate.
pub struct Unresolved {
    pub told: Vec<Told>,
    pub unknown: Vec<UnknownCount>,
}

/// A hand-written `Drop`, to keep proofs small: what drops one has one call to prove.
impl Drop for Unresolved {
    fn drop(self) {
        let Unresolved {
            told: _told,
            unknown: _unknown,
        } = self;
    }
}

impl Told {
    pub fn new(spot: Option<Spot>, message: String) -> Told {
        Told { spot, message }
    }
}

impl UnknownCount {
    fn add(&mut self, cause: Cause) {
        match cause {
            Cause::Macro => self.by_macros = self.by_macros.saturating_add(1),
            Cause::Standard => self.by_standard = self.by_standard.saturating_add(1),
            Cause::File => self.by_files = self.by_files.saturating_add(1),
        }
    }
}

/// The paths that the file of a module was looked for at.
fn module_message(alloc: Global, fault: &ModuleFault) -> Result<String, AllocError> {
    if fault.within().is_some() {
        return String::from_str(alloc, "a file within itself");
    }
    let mut paths = String::from_str(alloc, "unresolved module, tried")?;
    for (place, candidate) in fault.candidates().iter().enumerate() {
        let path = std::str::from_utf8(candidate.path()).unwrap_or("?");
        let between = if place == 0 { "" } else { " and" };
        write!(paths, "{between} {path}")?;
    }
    Ok(paths)
}

/// Whether the declaration of a module has neither a body nor a semicolon, which is told as a syntax error.
fn lacks_end(lists: &[CrateModules], krate: usize, declaration: &Declaration) -> bool {
    let Some(source) = source_of(lists, krate, declaration.file) else {
        return false;
    };
    match source.items().get(declaration.item) {
        None => false,
        Some(item) => item.missing.is_some(),
    }
}

/// What is told of an import that leads nowhere.
fn import_message<C: Crates>(
    hidden: &Hidden<'_, C>,
    home: ModuleId,
    path: &ModPath,
) -> Result<String, AllocError> {
    let alloc = hidden.alloc();
    let written = path_text(alloc, path)?;
    match private_text(hidden, home, path)? {
        None => format!(in alloc; "unresolved import {written}"),
        Some(private) => format!(in alloc; "private import {written}: {private}"),
    }
}

/// Why it is unknown what an ambiguous name means, if it is: what is hidden would go before what globs bring.
fn cause_at<C: Crates>(hidden: &Hidden<'_, C>, found: &AmbiguousName<'_, '_>) -> Option<Cause> {
    let module = found.module?;
    hidden.notes.cause_of_name(module, found.name)
}

impl Unresolved {
    /// Adds an import that leads nowhere, or to what is private.
    fn add_import<C: Crates>(
        &mut self,
        hidden: &Hidden<'_, C>,
        (home, path): (ModuleId, &ModPath),
        leaf: (UseId, UseTreeIdx),
    ) -> Result<(), AllocError> {
        let (alloc, crates) = (hidden.alloc(), hidden.crates());
        let (use_, idx) = leaf;
        self.told.push(Told {
            spot: use_spot(alloc, crates, use_, idx)?,
            message: import_message(hidden, home, path)?,
        })?;
        Ok(())
    }

    /// Counts an unknown import of a module.
    fn count<C: Crates>(&mut self, crates: &C, home: ModuleId, cause: Cause) {
        let Some(krate) = crates.krate_of(home) else {
            return;
        };
        if let Some(count) = self.unknown.get_mut(krate.0 as usize) {
            count.add(cause);
        }
    }

    /// Adds the named imports of the crates that are asked about, and counts the unknown ones of
    /// all crates.
    fn add_named<C: Crates>(
        &mut self,
        hidden: &Hidden<'_, C>,
        all: &Ambiguities,
    ) -> Result<(), AllocError> {
        let crates = hidden.crates();
        for place in crates.unresolved() {
            let Some(import) = crates.imports().get(*place) else {
                continue;
            };
            if all.named.contains_key(place) {
                continue;
            }
            if let Some(cause) = hidden.notes.cause_of_named(*place) {
                self.count(crates, import.home, cause);
            } else if is_own(crates, import.home) {
                let leaf = (import.import.use_, import.import.idx);
                self.add_import(hidden, (import.home, &import.path), leaf)?;
            }
        }
        Ok(())
    }

    /// Adds the globs of these crates, and counts the unknown ones of all crates.
    fn add_globs<C: Crates>(
        &mut self,
        hidden: &Hidden<'_, C>,
        all: &Ambiguities,
    ) -> Result<(), AllocError> {
        let crates = hidden.crates();
        for (place, glob) in crates.globs().iter().enumerate() {
            if !crates.leads_nowhere(glob) || all.globs.contains_key(&place) {
                continue;
            }
            if let Some(cause) = hidden.notes.cause_of_glob(place) {
                self.count(crates, glob.into, cause);
            } else if is_own(crates, glob.into) {
                let leaf = (glob.import.use_, glob.import.idx);
                self.add_import(hidden, (glob.into, &glob.path), leaf)?;
            }
        }
        Ok(())
    }

    /// Adds an import whose path comes to an ambiguous name, or counts it as unknown, where what is hidden may bind that.
    fn add_ambiguous<C: Crates>(
        &mut self,
        hidden: &Hidden<'_, C>,
        (home, path): (ModuleId, &ModPath),
        leaf: (UseId, UseTreeIdx),
        ambiguity: Ambiguity,
    ) -> Result<(), AllocError> {
        let (alloc, crates) = (hidden.alloc(), hidden.crates());
        let Some(found) = ambiguous_name(alloc, crates, home, path, ambiguity)? else {
            return Ok(());
        };
        if let Some(cause) = cause_at(hidden, &found) {
            self.count(crates, home, cause);
            return Ok(());
        }
        let (use_, idx) = leaf;
        let written = path_text(alloc, path)?;
        let why = ambiguity_text(alloc, crates, &found)?;
        self.told.push(Told {
            spot: use_spot(alloc, crates, use_, idx)?,
            message: format!(in alloc; "ambiguous import {written}: {why}")?,
        })?;
        Ok(())
    }

    /// Adds the named imports of the crates that are asked about whose paths come to ambiguous names.
    fn add_ambiguous_named<C: Crates>(
        &mut self,
        hidden: &Hidden<'_, C>,
        all: &Ambiguities,
    ) -> Result<(), AllocError> {
        let crates = hidden.crates();
        for (place, ambiguity) in all.named.iter() {
            let Some(import) = crates.imports().get(*place) else {
                continue;
            };
            let asking = (import.home, &import.path);
            if is_own(crates, asking.0) {
                let leaf = (import.import.use_, import.import.idx);
                self.add_ambiguous(hidden, asking, leaf, *ambiguity)?;
            }
        }
        Ok(())
    }

    /// Adds the globs of these crates whose paths do.
    fn add_ambiguous_globs<C: Crates>(
        &mut self,
        hidden: &Hidden<'_, C>,
        all: &Ambiguities,
    ) -> Result<(), AllocError> {
        let crates = hidden.crates();
        for (place, ambiguity) in all.globs.iter() {
            let Some(glob) = crates.globs().get(*place) else {
                continue;
            };
            if is_own(crates, glob.into) {
                let asking = (glob.into, &glob.path);
                let leaf = (glob.import.use_, glob.import.idx);
                self.add_ambiguous(hidden, asking, leaf, *ambiguity)?;
            }
        }
        Ok(())
    }

    /// Adds a macro call of the crate that leads nowhere.
    fn add_call<C: Crates>(
        &mut self,
        alloc: Global,
        crates: &C,
        call: MacroHome,
        path: &ModPath,
    ) -> Result<(), AllocError> {
        let Some(item) = item_of(crates.items(), call) else {
            return Ok(());
        };
        let written = path_text(alloc, path)?;
        self.told.push(Told {
            spot: item_spot(crates.lists(), call.krate, item.file, item.item),
            message: format!(in alloc; "unresolved macro {written}!")?,
        })?;
        Ok(())
    }

    /// Adds the macro calls of these crates that lead nowhere, and counts the unknown ones of all
    /// crates.
    fn add_calls<C: Crates>(
        &mut self,
        hidden: &Hidden<'_, C>,
        homes: &[MacroHome],
    ) -> Result<(), AllocError> {
        let crates = hidden.crates();
        for call in homes {
            match &end_of(hidden.alloc(), hidden, homes, *call)? {
                CallEnd::Found => {}
                CallEnd::Unknown(_cause) => {
                    if let Some(count) = self.unknown.get_mut(call.krate) {
                        count.calls = count.calls.saturating_add(1);
                    }
                }
                CallEnd::Nowhere(path) => {
                    if is_asked(crates, numbered(call.krate)) {
                        self.add_call(hidden.alloc(), crates, *call, path)?;
                    }
                }
            }
        }
        Ok(())
    }

    /// Adds all that leads nowhere.
    fn add_all<C: Crates>(
        &mut self,
        alloc: Global,
        crates: &C,
        hidden: &Hidden<'_, C>,
        homes: &[MacroHome],
    ) -> Result<(), AllocError> {
        self.add_modules(alloc, crates)?;
        let ambiguous = Ambiguities::of(alloc, crates)?;
        self.add_named(hidden, &ambiguous)?;
        self.add_globs(hidden, &ambiguous)?;
        self.add_ambiguous_named(hidden, &ambiguous)?;
        self.add_ambiguous_globs(hidden, &ambiguous)?;
        self.add_calls(hidden, homes)
    }

    /// Adds the modules of the crate of a number that have no file.
    fn add_modules_of(
        &mut self,
        alloc: Global,
        lists: &[CrateModules],
        number: usize,
        list: &CrateModules,
    ) -> Result<(), AllocError> {
        for fault in list.faults() {
            let declaration = fault.declaration();
            if lacks_end(lists, number, declaration) {
                continue;
            }
            self.told.push(Told {
                spot: item_spot(lists, number, declaration.file, declaration.item),
                message: module_message(alloc, fault)?,
            })?;
        }
        Ok(())
    }

    /// Adds the modules of the crates that are asked about which have no file.
    pub fn add_modules<C: Crates>(&mut self, alloc: Global, crates: &C) -> Result<(), AllocError> {
        let lists = crates.lists();
        for (number, list) in lists.iter().enumerate() {
            if is_asked(crates, numbered(number)) {
                self.add_modules_of(alloc, lists, number, list)?;
            }
        }
        Ok(())
    }
}

/// Nothing that leads nowhere in some crates.
pub fn nothing(alloc: Global, crates: usize) -> Result<Unresolved, AllocError> {
    let mut unknown = Vec::new(alloc);
    for _krate in 0..crates {
        unknown.push(UnknownCount {
            by_macros: 0,
            by_standard: 0,
            by_files: 0,
            calls: 0,
        })?;
    }
    Ok(Unresolved {
        told: Vec::new(alloc),
        unknown,
    })
}

/// What leads nowhere in the crates that are asked about.
pub fn find_unresolved<C: Crates>(survey: &Survey<'_, C>) -> Result<Unresolved, AllocError> {
    let hidden = &survey.hidden;
    let (alloc, crates) = (hidden.alloc(), hidden.crates());
    let mut found = nothing(alloc, crates.names().len())?;
    found.add_all(alloc, crates, hidden, survey.calls.as_slice())?;
    Ok(found)
}

/// What a message is sorted by.
fn order_of(told: &Told) -> (u32, usize) {
    match told.spot {
        None => (u32::MAX, 0),
        Some(spot) => (spot.file.0, spot.offset),
    }
}

/// A message, and where that is which it is about.
#[derive(Drop, Serialize)]
struct MessageRow<'a> {
    reason: &'static str,
    message: &'a str,
    at: Option<Location<'a>>,
}

impl<'a> Row for MessageRow<'a> {
    fn push_text(&self, out: &mut String) -> Result<(), AllocError> {
        if let Some(at) = self.at {
            push_location(out, at)?;
            out.push_str(": ")?;
        }
        write!(out, "{}\n", self.message)
    }
}

/// The messages, each in a line, in the order of the files and their bytes.
pub fn messages_text(
    alloc: Global,
    lines: &Lines<'_>,
    style: Style,
    told: &mut Vec<Told>,
) -> Result<String, AllocError> {
    let mut out = String::new(alloc);
    told.sort_by_key(|one| order_of(one))?;
    for one in told.iter() {
        let row = MessageRow {
            reason: "message",
            message: one.message.as_str(),
            at: one.spot.map(|spot| lines.location(spot)),
        };
        push_row(&mut out, alloc, style, &row)?;
    }
    Ok(out)
}
