//! How much of crates is not known: the modules that may have more names than are shown.
use crate::crates::{Crates, asked_crates, is_asked, numbered};
use crate::notes::Cause;
use crate::rows::Row;
use crate::shown::is_own;
use crate::survey::Survey;
use dm_base::ids::{Crate, ModuleId};
use serde::Serialize;
use std::alloc::AllocError;
use std::fmt::Write;

/// How much of the crates that are asked about may be hidden.
#[derive(Clone, Copy, Serialize)]
pub struct Incomplete {
    reason: &'static str,
    modules: usize,
    /// Those of them that may have more names.
    hiding: usize,
    /// The macro calls in them, and the modules without their files.
    calls: usize,
    files: usize,
    /// The imports of which it is not known what they mean.
    imports: usize,
    /// Whether the standard library may bring some of these, which is not given.
    by_standard: bool,
}

/// One of a number of things.
fn more(count: usize, is_one: bool) -> usize {
    if is_one {
        count.saturating_add(1)
    } else {
        count
    }
}

/// Adds by how many things something is hidden, if there are any.
fn push_reason(out: &mut String, count: usize, one: &str, many: &str) -> Result<(), AllocError> {
    match count {
        0 => Ok(()),
        1 => write!(out, ", by 1 {one}"),
        _ => write!(out, ", by {count} {many}"),
    }
}

impl Incomplete {
    /// Counts the modules of a crate.
    fn add_modules<C: Crates>(&mut self, survey: &Survey<'_, C>, ids: &[Option<ModuleId>]) {
        for id in ids {
            let Some(module) = *id else {
                continue;
            };
            let cause = survey.hidden.notes.cause_in(module);
            self.modules = more(self.modules, true);
            self.hiding = more(self.hiding, cause.is_some());
            self.by_standard = self.by_standard || cause == Some(Cause::Standard);
        }
    }

    /// Counts the modules of a crate, and those without their files.
    fn add_crate<C: Crates>(&mut self, survey: &Survey<'_, C>, krate: Crate) {
        let crates = survey.hidden.crates();
        let number = krate.0 as usize;
        self.add_modules(survey, crates.module_ids(number));
        if let Some(list) = crates.lists().get(number) {
            let missing = list.faults().len();
            self.files = self.files.saturating_add(missing);
            self.modules = self.modules.saturating_add(missing);
            self.hiding = self.hiding.saturating_add(missing);
        }
    }

    /// Counts the macro calls of the crates that are asked about.
    fn add_calls<C: Crates>(&mut self, survey: &Survey<'_, C>) {
        let crates = survey.hidden.crates();
        for call in &survey.calls {
            self.calls = more(self.calls, is_asked(crates, numbered(call.krate)));
        }
    }

    /// Counts the named imports of the crates that are asked about which are unknown.
    fn add_named<C: Crates>(&mut self, survey: &Survey<'_, C>) {
        let crates = survey.hidden.crates();
        for (place, import) in crates.imports().iter().enumerate() {
            let is_unknown = survey.hidden.notes.cause_of_named(place).is_some();
            self.imports = more(self.imports, is_unknown && is_own(crates, import.home));
        }
    }

    /// Counts the globs that are.
    fn add_globs<C: Crates>(&mut self, survey: &Survey<'_, C>) {
        let crates = survey.hidden.crates();
        for (place, glob) in crates.globs().iter().enumerate() {
            let is_unknown = survey.hidden.notes.cause_of_glob(place).is_some()
                && crates.leads_nowhere(glob);
            self.imports = more(self.imports, is_unknown && is_own(crates, glob.into));
        }
    }

    /// Whether all that the crates have is known.
    pub fn is_nothing(&self) -> bool {
        self.hiding == 0 && self.imports == 0
    }

    /// Adds how many modules may have more names, and by what.
    fn push_modules(&self, out: &mut String) -> Result<(), AllocError> {
        write!(out, "{} of {} modules", self.hiding, self.modules)?;
        push_reason(out, self.calls, "macro call", "macro calls")?;
        push_reason(
            out,
            self.files,
            "file that is not there",
            "files that are not there",
        )?;
        out.push_str(if self.by_standard {
            ", by the standard library, which is not given"
        } else {
            ""
        })
    }
}

impl Row for Incomplete {
    fn push_text(&self, out: &mut String) -> Result<(), AllocError> {
        out.push_str("incomplete: ")?;
        if self.hiding > 0 {
            self.push_modules(out)?;
        }
        out.push_str(if self.hiding > 0 && self.imports > 0 {
            "; "
        } else {
            ""
        })?;
        match self.imports {
            0 => out.push_str("\n"),
            1 => out.push_str("1 import unknown\n"),
            count => write!(out, "{count} imports unknown\n"),
        }
    }
}

/// How much of the crates that are asked about may be hidden.
pub fn incomplete_of<C: Crates>(survey: &Survey<'_, C>) -> Result<Incomplete, AllocError> {
    let mut found = Incomplete {
        reason: "incomplete",
        modules: 0,
        hiding: 0,
        calls: 0,
        files: 0,
        imports: 0,
        by_standard: false,
    };
    for krate in &asked_crates(survey.hidden.alloc(), survey.hidden.crates())? {
        found.add_crate(survey, *krate);
    }
    found.add_calls(survey);
    found.add_named(survey);
    found.add_globs(survey);
    Ok(found)
}
