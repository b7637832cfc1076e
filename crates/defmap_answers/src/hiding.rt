//! Why a module may have more names than it shows, in words.
use crate::crates::Crates;
use crate::macro_calls::{item_of, path_of};
use crate::macro_homes::MacroHome;
use crate::path_text::path_text;
use crate::places::{Spot, item_spot, use_spot};
use crate::survey::Survey;
use dm_base::ids::ModuleId;
use std::alloc::AllocError;
use std::fmt::Write;

/// At most so many names of macros are told.
const NAMES: usize = 4;

/// The macro calls of a module: how many, what is called, and where the first stands.
struct ModuleCalls {
    count: usize,
    names: Vec<String>,
    first: Option<Spot>,
}

/// A hand-written `Drop`, to keep proofs small: what drops one has one call to prove.
impl Drop for ModuleCalls {
    fn drop(self) {
        let ModuleCalls {
            count: _count,
            names: _names,
            first: _first,
        } = self;
    }
}

/// Where a macro call stands.
fn call_spot<C: Crates>(crates: &C, call: MacroHome) -> Option<Spot> {
    let item = item_of(crates.items(), call)?;
    item_spot(crates.lists(), call.krate, item.file, item.item)
}

impl ModuleCalls {
    /// Counts a call, and notes what it calls.
    fn add<C: Crates>(
        &mut self,
        survey: &Survey<'_, C>,
        call: MacroHome,
    ) -> Result<(), AllocError> {
        self.count = self.count.saturating_add(1);
        if self.names.len() > NAMES {
            return Ok(());
        }
        let (alloc, crates) = (survey.hidden.alloc(), survey.hidden.crates());
        if let Some(path) = path_of(alloc, crates, call)? {
            let written = path_text(alloc, &path)?;
            if !self.names.contains(&written) {
                self.names.push(written)?;
            }
        }
        Ok(())
    }

    /// Adds what is called, in parentheses.
    fn push_names(&self, out: &mut String) -> Result<(), AllocError> {
        for (place, name) in self.names.iter().take(NAMES).enumerate() {
            out.push_str(if place == 0 { " (" } else { ", " })?;
            write!(out, "{name}!")?;
        }
        out.push_str(if self.names.len() > NAMES {
            ", ..)"
        } else if self.names.is_empty() {
            ""
        } else {
            ")"
        })
    }
}

/// The macro calls of a module.
fn calls_of<C: Crates>(
    survey: &Survey<'_, C>,
    module: ModuleId,
) -> Result<ModuleCalls, AllocError> {
    let mut found = ModuleCalls {
        count: 0,
        names: Vec::new(survey.hidden.alloc()),
        first: None,
    };
    for call in survey.calls_from(module) {
        if call.module != module {
            break;
        }
        if found.count == 0 {
            found.first = call_spot(survey.hidden.crates(), *call);
        }
        found.add(survey, *call)?;
    }
    Ok(found)
}

/// Where the first glob of a module stands that may bring hidden names.
fn glob_spot<C: Crates>(
    survey: &Survey<'_, C>,
    module: ModuleId,
) -> Result<Option<Spot>, AllocError> {
    let (alloc, crates) = (survey.hidden.alloc(), survey.hidden.crates());
    for (place, glob) in crates.globs().iter().enumerate() {
        if glob.into == module && survey.hidden.notes.cause_of_glob(place).is_some() {
            return use_spot(alloc, crates, glob.import.use_, glob.import.idx);
        }
    }
    Ok(None)
}

/// Adds by what a module may have more names: macro calls, or else a glob; nothing where it hides none.
pub(crate) fn push_hiding<C: Crates>(
    out: &mut String,
    survey: &Survey<'_, C>,
    module: ModuleId,
) -> Result<(), AllocError> {
    let calls = calls_of(survey, module)?;
    if calls.count > 0 {
        let plural = if calls.count == 1 { "" } else { "s" };
        write!(out, "{} macro call{plural}", calls.count)?;
        calls.push_names(out)?;
        if let Some(spot) = calls.first {
            out.push_str(" from ")?;
            survey.lines.push_place(out, spot)?;
        }
        return Ok(());
    }
    if let Some(spot) = glob_spot(survey, module)? {
        out.push_str("the glob at ")?;
        survey.lines.push_place(out, spot)?;
    }
    Ok(())
}
