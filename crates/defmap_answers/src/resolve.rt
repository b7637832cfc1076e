//! What a path means in a module.
use crate::ambiguous::{Ambiguity, ambiguity_in, ambiguity_text, ambiguous_name};
use crate::associated::AssociatedItem;
use crate::crates::Crates;
use crate::definitions::{definition_path, definition_text};
use crate::hiding::push_hiding;
use crate::meanings::{Meant, meant_in};
use crate::notes::Cause;
use crate::path_text::path_text;
use crate::places::{import_spot, import_word};
use crate::private::{any_meant, private_in};
use crate::resolve_rows::{AmbiguousRow, LeftRow, MeaningRow, StepRow, ThroughRow};
use crate::rows::{Row, push_row};
use crate::shown::{module_path, visibility_text};
use crate::steps::{glob_of, import_of, steps_of};
use crate::survey::Survey;
use crate::written_path::prefix_of;
use dm_base::ids::ModuleId;
use dm_base::imports::ImportOrExternCrate;
use dm_base::item_ids::ModuleDefId;
use dm_base::mod_path::{ModPath, PathKind};
use dm_base::name::Name;
use dm_base::per_ns::{Namespace, PerNs};
use std::alloc::{AllocError, Global};

/// What is found of a path.
#[derive(Clone, Copy, PartialEq, Eq, Debug)]
pub enum Finding {
    /// It means something.
    Found,
    /// It means nothing, or something that is not to be seen there, or an ambiguous name.
    Absent,
    /// It is not known whether it means anything.
    Unknown,
    /// It goes on behind a type, and names there are not looked up.
    Behind,
}

/// A name of a path that is missing, and where it stands there.
#[derive(Clone, Copy)]
struct Left<'n> {
    name: &'n Name,
    /// Whether it is looked up in a module and in all that is around it.
    is_first: bool,
    is_last: bool,
}

/// What tells the meaning of a path.
struct Teller<'v, 's, C: Crates> {
    alloc: Global,
    crates: &'s C,
    survey: &'v Survey<'s, C>,
    home: ModuleId,
    out: String,
    /// Whether a beginning of the path is not to be seen there.
    is_private: bool,
    finding: Finding,
}

/// A hand-written `Drop`, to keep proofs small: what drops one has one call to prove.
impl<'v, 's, C: Crates> Drop for Teller<'v, 's, C> {
    fn drop(self) {
        let Teller {
            alloc: _alloc,
            crates: _crates,
            survey: _survey,
            home: _home,
            out: _out,
            is_private: _is_private,
            finding: _finding,
        } = self;
    }
}

/// The path of an import, as it is written.
fn path_by<'a, C: Crates>(crates: &'a C, import: ImportOrExternCrate) -> Option<&'a ModPath> {
    match import {
        ImportOrExternCrate::Import(id) => { Some(&import_of(crates.imports(), id)?.path) }
        ImportOrExternCrate::Glob(id) => { Some(&glob_of(crates.globs(), id)?.path) }
        ImportOrExternCrate::ExternCrate(_) => None,
    }
}

/// The module that the first name of a path is looked up in, which stands in a module.
fn first_module<C: Crates>(
    alloc: Global,
    crates: &C,
    home: ModuleId,
    path: &ModPath,
) -> Result<ModuleId, AllocError> {
    if matches!(path.kind(), PathKind::Plain | PathKind::Abs) {
        return Ok(home);
    }
    let beginning = prefix_of(alloc, path, 0)?;
    let Some(found) = crates.meaning(home, &beginning) else {
        return Ok(home);
    };
    match found.resolved_def.types {
        Some(item) => match item.def {
            ModuleDefId::ModuleId(m) => Ok(m),
            _ => Ok(home),
        },
        None => Ok(home),
    }
}

impl<'v, 's, C: Crates> Teller<'v, 's, C> {
    /// What was told, and what was found.
    fn into_parts(self) -> (String, Finding) {
        let Teller {
            alloc: _alloc,
            crates: _crates,
            survey: _survey,
            home: _home,
            out,
            is_private: _is_private,
            finding,
        } = self;
        (out, finding)
    }

    /// Adds a row.
    fn add<R: Row>(&mut self, row: &R) -> Result<(), AllocError> {
        push_row(&mut self.out, self.alloc, self.survey.style, row)
    }

    /// The path of an import, as it is written.
    fn written(&self, import: ImportOrExternCrate) -> Result<Option<String>, AllocError> {
        let Some(path) = path_by(self.crates, import) else {
            return Ok(None);
        };
        let mut written = path_text(self.alloc, path)?;
        if let ImportOrExternCrate::Glob(_) = import {
            written.push_str("::*")?;
        }
        Ok(Some(written))
    }

    /// Adds an import that something goes through.
    fn add_step(&mut self, import: ImportOrExternCrate) -> Result<(), AllocError> {
        let spot = import_spot(self.alloc, self.crates, import)?;
        let row = StepRow {
            reason: "step",
            import: import_word(import),
            at: spot.map(|spot| self.survey.lines.location(spot)),
            path: self.written(import)?,
        };
        self.add(&row)
    }

    /// Adds the imports that something goes through.
    fn add_steps(
        &mut self,
        name: &Name,
        meant: Meant,
        namespace: Namespace,
    ) -> Result<(), AllocError> {
        let steps = steps_of(self.alloc, self.crates, name, meant, namespace)?;
        for step in &steps {
            self.add_step(*step)?;
        }
        Ok(())
    }

    /// Adds the row of what the path is in a namespace.
    fn add_shown(&mut self, namespace: &'static str, meant: Meant) -> Result<(), AllocError> {
        let is_private = !self.crates.sees(self.home, meant.visibility);
        if !is_private && !self.is_private {
            self.finding = Finding::Found;
        }
        let row = MeaningRow {
            reason: "meaning",
            namespace,
            definition: definition_text(self.alloc, self.crates, meant.def)?,
            visibility: visibility_text(self.alloc, self.crates, self.home, meant.visibility)?,
            is_private,
        };
        self.add(&row)
    }

    /// Adds what the path is in a namespace.
    fn add_meant(
        &mut self,
        word: &'static str,
        name: Option<&Name>,
        found: PerNs,
        namespace: Namespace,
    ) -> Result<(), AllocError> {
        let Some(meant) = meant_in(found, namespace) else {
            return Ok(());
        };
        self.add_shown(word, meant)?;
        match name {
            None => Ok(()),
            Some(name) => self.add_steps(name, meant, namespace),
        }
    }

    /// Adds the row of a beginning of the path.
    fn add_through(&mut self, begun: &ModPath, meant: Meant) -> Result<(), AllocError> {
        let row = ThroughRow {
            reason: "through",
            path: path_text(self.alloc, begun)?,
            definition: definition_text(self.alloc, self.crates, meant.def)?,
            is_private: !self.crates.sees(self.home, meant.visibility),
        };
        self.add(&row)
    }

    /// Adds through which imports a beginning of the path goes, and whether it is private.
    fn add_beginning(&mut self, path: &ModPath, count: usize) -> Result<(), AllocError> {
        let begun = prefix_of(self.alloc, path, count)?;
        let Some(found) = self.crates.meaning(self.home, &begun) else {
            return Ok(());
        };
        let meant = meant_in(found.resolved_def, Namespace::Types);
        let (Some(meant), Some(name)) = (meant, begun.segments().last()) else {
            return Ok(());
        };
        let is_seen = self.crates.sees(self.home, meant.visibility);
        self.is_private = self.is_private || !is_seen;
        if meant.import.is_none() && is_seen {
            return Ok(());
        }
        self.add_through(&begun, meant)?;
        self.add_steps(name, meant, Namespace::Types)
    }

    /// Why it is unknown whether a module has a name, if it is. What an import there would bind that leads nowhere is as
    /// unknown as the import.
    fn cause_at(&self, m: ModuleId, left: Left<'_>) -> Option<Cause> {
        let hidden = &self.survey.hidden;
        if left.is_last && hidden.notes.is_exporting(m) {
            return Some(Cause::Macro);
        }
        if let Some(cause) = hidden.notes.cause_of_name(m, left.name) {
            return Some(cause);
        }
        if left.is_first && !hidden.has_sysroot() && !self.is_listed(left.name, m) {
            return Some(Cause::Standard);
        }
        None
    }

    /// Whether an import of a module would bind a name, and leads nowhere.
    fn is_listed(&self, name: &Name, m: ModuleId) -> bool {
        let crates = self.crates;
        for place in crates.unresolved() {
            if let Some(import) = crates.imports().get(*place) {
                if import.home == m && import.name == *name {
                    return true;
                }
            }
        }
        false
    }

    /// Adds at which name a path is left, and why.
    fn add_left_row(&mut self, name: &Name, why: String) -> Result<(), AllocError> {
        self.add(&LeftRow {
            reason: "left",
            name: name.as_str(),
            why,
        })
    }

    /// Why it is unknown whether a module has a name, in words.
    fn cause_text(&self, m: ModuleId, cause: Cause) -> Result<String, AllocError> {
        let (alloc, survey) = (self.alloc, self.survey);
        let words = match cause {
            Cause::Standard =>
                "the standard library may bring it, which is not given: see --sysroot",
            Cause::File => "the file of this module is not there",
            Cause::Macro => "a macro may bring it",
        };
        if cause != Cause::Macro || survey.hidden.notes.cause_in(m).is_none() {
            return format!(in alloc; "unknown: {words}");
        }
        let path = module_path(alloc, self.crates, m)?;
        let mut text = format!(in alloc; "unknown: {path} may have more by ")?;
        push_hiding(&mut text, survey, m)?;
        Ok(text)
    }

    /// Adds what a module has under a name that is not to be seen from where the path stands.
    fn add_private(&mut self, name: &Name, m: ModuleId) -> Result<bool, AllocError> {
        let found = private_in(self.alloc, self.crates, self.home, m, name)?;
        match found {
            None => Ok(false),
            Some(private) => {
                let why = format!(in self.alloc; "private {private}")?;
                self.add_left_row(name, why)?;
                Ok(true)
            }
        }
    }

    /// Adds that a name of a module which the path goes on behind is no module there, and no type.
    fn add_nameless(&mut self, left: Left<'_>, m: ModuleId) -> Result<bool, AllocError> {
        let bound = self.crates.bound_in(m, left.name);
        if left.is_last || bound.types.is_some() {
            return Ok(false);
        }
        let Some(meant) = any_meant(bound) else {
            return Ok(false);
        };
        let shown = definition_text(self.alloc, self.crates, meant.def)?;
        let why = format!(in self.alloc; "{shown} is no module and no type")?;
        self.add_left_row(left.name, why)?;
        Ok(true)
    }

    /// Adds that a module has no such name, or that it is unknown whether it has.
    fn add_lacking(
        &mut self,
        left: Left<'_>,
        m: ModuleId,
        is_private: bool,
    ) -> Result<(), AllocError> {
        if let Some(cause) = self.cause_at(m, left) {
            self.finding = Finding::Unknown;
            let why = self.cause_text(m, cause)?;
            return self.add_left_row(left.name, why);
        }
        if is_private {
            return Ok(());
        }
        let path = module_path(self.alloc, self.crates, m)?;
        let why = format!(in self.alloc; "mod {path} shows no such name here")?;
        self.add_left_row(left.name, why)
    }

    /// Adds where a path is left that means nothing: at a name of a module.
    fn add_left_in(&mut self, left: Left<'_>, m: ModuleId) -> Result<(), AllocError> {
        if self.add_nameless(left, m)? {
            return Ok(());
        }
        let is_private = self.add_private(left.name, m)?;
        self.add_lacking(left, m, is_private)?;
        self.add_dangling(left.name, m)
    }

    /// Adds where a path is left that means nothing: at a name of a definition, or of a module.
    fn add_left(&mut self, left: Left<'_>, def: ModuleDefId) -> Result<(), AllocError> {
        if let ModuleDefId::ModuleId(m) = def {
            return self.add_left_in(left, m);
        }
        let shown = definition_text(self.alloc, self.crates, def)?;
        let why = format!(in self.alloc; "{shown} shows no such name here")?;
        self.add_left_row(left.name, why)
    }

    /// Adds the imports of a module that would bind a name, and lead nowhere.
    fn add_dangling(&mut self, name: &Name, m: ModuleId) -> Result<(), AllocError> {
        let crates = self.crates;
        for place in crates.unresolved() {
            if let Some(import) = crates.imports().get(*place) {
                if import.home == m && import.name == *name {
                    self.add_step(ImportOrExternCrate::Import(import.import))?;
                }
            }
        }
        Ok(())
    }

    /// Adds where a path is left that means nothing: behind the last beginning that means something.
    fn add_end(&mut self, path: &ModPath) -> Result<(), AllocError> {
        let count = path.segments().len();
        for less in 1..count {
            let begun = count.saturating_sub(less);
            let beginning = prefix_of(self.alloc, path, begun)?;
            let found = self.crates.meaning(self.home, &beginning);
            let (Some(found), Some(left)) = (found, path.segments().get(begun)) else {
                continue;
            };
            if let Some(meant) = meant_in(found.resolved_def, Namespace::Types) {
                let left = Left {
                    name: left,
                    is_first: false,
                    is_last: less == 1,
                };
                return self.add_left(left, meant.def);
            }
        }
        match path.segments().first() {
            None => Ok(()),
            Some(first) => {
                let m = first_module(self.alloc, self.crates, self.home, path)?;
                self.add_left_in(
                    Left {
                        name: first,
                        is_first: matches!(path.kind(), PathKind::Plain),
                        is_last: count == 1,
                    },
                    m,
                )
            }
        }
    }

    /// Adds that a path comes to an ambiguous name, and the globs that bring it: it means nothing then.
    fn add_ambiguity(&mut self, path: &ModPath, ambiguity: Ambiguity) -> Result<(), AllocError> {
        let (alloc, crates) = (self.alloc, self.crates);
        let Some(found) = ambiguous_name(alloc, crates, self.home, path, ambiguity)? else {
            return Ok(());
        };
        let why = ambiguity_text(alloc, crates, &found)?;
        self.add(&AmbiguousRow {
            reason: "ambiguous",
            why,
        })?;
        self.finding = Finding::Absent;
        for glob in &found.globs {
            self.add_step(ImportOrExternCrate::Glob(glob.import))?;
        }
        Ok(())
    }

    /// Adds what a path means, and whether it comes to an ambiguous name.
    fn add_answer(&mut self, path: &ModPath) -> Result<(), AllocError> {
        self.add_path(path)?;
        match ambiguity_in(self.alloc, self.crates, self.home, path)? {
            None => Ok(()),
            Some(ambiguity) => self.add_ambiguity(path, ambiguity),
        }
    }

    /// Adds an associated item that a path means.
    fn add_item(&mut self, owner: ModuleDefId, item: &AssociatedItem) -> Result<(), AllocError> {
        let is_private = !self.crates.sees(self.home, item.visibility);
        if !is_private && !self.is_private {
            self.finding = Finding::Found;
        }
        let path = definition_path(self.alloc, self.crates, owner)?;
        let row = MeaningRow {
            reason: "meaning",
            namespace: if item.kind == "type" { "type" } else { "value" },
            definition: format!(in self.alloc; "{} {path}::{}", item.kind, item.name)?,
            visibility: visibility_text(self.alloc, self.crates, self.home, item.visibility)?,
            is_private,
        };
        self.add(&row)
    }

    /// Adds what a trait or type has under a name. Tells whether that is anything.
    fn add_items(&mut self, owner: ModuleDefId, name: &Name) -> Result<bool, AllocError> {
        let mut is_found = false;
        for item in self.crates.associated_items(self.alloc)?.iter() {
            if item.owner == owner && item.name.as_str() == name.as_str() {
                self.add_item(owner, item)?;
                is_found = true;
            }
        }
        Ok(is_found)
    }

    /// Adds what a path means that goes on behind a trait or type, by one name or more: its items, where that is plain.
    fn add_behind(
        &mut self,
        left: &Name,
        owner: Option<ModuleDefId>,
        is_last: bool,
    ) -> Result<(), AllocError> {
        self.finding = Finding::Absent;
        let Some(owner) = owner else {
            let why = String::from_str(self.alloc, "only types and modules have names")?;
            return self.add_left_row(left, why);
        };
        if is_last && self.add_items(owner, left)? {
            return Ok(());
        }
        self.finding = Finding::Behind;
        let why = "no plain implementation has this name, and others are not looked at";
        let why = String::from_str(self.alloc, why)?;
        self.add_left_row(left, why)
    }

    /// Adds what a path means.
    fn add_path(&mut self, path: &ModPath) -> Result<(), AllocError> {
        let Some(found) = self.crates.meaning(self.home, path) else {
            return self.add_end(path);
        };
        let count = path.segments().len();
        let meant = found.segment_index.unwrap_or(count);
        for begun in 1..meant {
            self.add_beginning(path, begun)?;
        }
        let name = path.segments().get(meant.saturating_sub(1));
        let found = found.resolved_def;
        self.add_meant("type", name, found, Namespace::Types)?;
        self.add_meant("value", name, found, Namespace::Values)?;
        self.add_meant("macro", name, found, Namespace::Macros)?;
        if found.is_none() {
            return self.add_end(path);
        }
        match path.segments().get(meant) {
            None => Ok(()),
            Some(left) => {
                let owner = found.types.map(|item| item.def);
                self.add_behind(left, owner, meant.saturating_add(1) == count)
            }
        }
    }
}

/// What a path means in a module, in lines, and what was found of it.
pub fn meaning_text<C: Crates>(
    survey: &Survey<'_, C>,
    home: ModuleId,
    path: &ModPath,
) -> Result<(String, Finding), AllocError> {
    let alloc = survey.hidden.alloc();
    let mut teller = Teller {
        alloc,
        crates: survey.hidden.crates(),
        survey,
        home,
        out: String::new(alloc),
        is_private: false,
        finding: Finding::Absent,
    };
    teller.add_answer(path)?;
    Ok(teller.into_parts())
}
