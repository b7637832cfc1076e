//! Modules by their paths.
use crate::crates::Crates;
use crate::notes::cause_words;
use crate::shown::module_path;
use crate::survey::Survey;
use crate::written_path::written_path;
use defmap_inputs::failure::{Failure, Status};
use dm_base::ids::{Crate, ModuleId};
use dm_base::name::Name;
use std::alloc::Global;

/// The module that names lead to from one on, or the last before the first name that is missing.
fn inwards<'b, C: Crates>(
    crates: &C,
    from: ModuleId,
    names: &'b [Name],
) -> (ModuleId, Option<&'b Name>) {
    let mut m = from;
    for name in names {
        match crates.child_of(m, name) {
            None => return (m, Some(name)),
            Some(child) => m = child,
        }
    }
    (m, None)
}

fn no_module<T>(alloc: Global, text: &str, status: Status, why: &str) -> Result<T, Failure> {
    let told = format!(in alloc; "no module {text}: {why}")?;
    Err(Failure::Told(status, told))
}

/// What says that a module lacks a child, or that it is not known whether it has it.
fn no_child<T, C: Crates>(
    survey: &Survey<'_, C>,
    text: &str,
    m: ModuleId,
    missing: &Name,
) -> Result<T, Failure> {
    let alloc = survey.alloc();
    let around = module_path(alloc, survey.crates(), m)?;
    let name = missing.as_str();
    match survey.hidden.notes.cause_of_name(m, missing) {
        None => {
            let told = format!(in alloc; "no module {text}: {around} has no module {name}")?;
            Err(Failure::Told(Status::Absent, told))
        }
        Some(cause) => {
            let by = cause_words(cause);
            let told = format!(in alloc; "unknown module {text}: {around} may have {name}, {by}")?;
            Err(Failure::Told(Status::Unreadable, told))
        }
    }
}

/// The module of a path from the root of a crate on.
pub fn module_in<C: Crates>(
    survey: &Survey<'_, C>,
    krate: Crate,
    text: &str,
) -> Result<ModuleId, Failure> {
    let alloc = survey.alloc();
    let Some(path) = written_path(alloc, text)? else {
        return no_module(alloc, text, Status::Misused, "give it as crate::a::b");
    };
    let Some(root) = survey.crates().root_of(krate) else {
        return no_module(alloc, text, Status::Absent, "the crate has none");
    };
    match inwards(survey.crates(), root, path.segments()) {
        (m, None) => Ok(m),
        (m, Some(missing)) => no_child(survey, text, m, missing),
    }
}

/// The module of a path from the root of the crate on that is asked about.
pub fn module_at<C: Crates>(survey: &Survey<'_, C>, text: &str) -> Result<ModuleId, Failure> {
    match survey.crates().asked() {
        None => no_module(survey.alloc(), text, Status::Absent, "the crate has none"),
        Some(krate) => module_in(survey, krate, text),
    }
}
