//! Paths of imports that come to what is private.
use crate::crates::Crates;
use crate::definitions::definition_text;
use crate::hidden::{Hidden, missing_of};
use crate::meanings::{Meant, meant_in};
use crate::shown::visibility_text;
use dm_base::ids::ModuleId;
use dm_base::mod_path::ModPath;
use dm_base::name::Name;
use dm_base::per_ns::{Namespace, PerNs};
use std::alloc::{AllocError, Global};

/// What some items have, in the first namespace in which they have anything.
pub(crate) fn any_meant(items: PerNs) -> Option<Meant> {
    match meant_in(items, Namespace::Types) {
        Some(meant) => Some(meant),
        None => match meant_in(items, Namespace::Values) {
            Some(meant) => Some(meant),
            None => meant_in(items, Namespace::Macros),
        },
    }
}

/// What a module has under a name that is not to be seen from another one, and who sees it. None where it has nothing
/// under that name, or where that is seen.
pub(crate) fn private_in<C: Crates>(
    alloc: Global,
    crates: &C,
    home: ModuleId,
    m: ModuleId,
    name: &Name,
) -> Result<Option<String>, AllocError> {
    let Some(meant) = any_meant(crates.bound_in(m, name)) else {
        return Ok(None);
    };
    if crates.sees(home, meant.visibility) {
        return Ok(None);
    }
    let shown = definition_text(alloc, crates, meant.def)?;
    let seen = visibility_text(alloc, crates, home, meant.visibility)?;
    Ok(Some(format!(in alloc; "{shown}, {seen}")?))
}

/// The same of the first missing name of a path of an import.
pub(crate) fn private_text<C: Crates>(
    hidden: &Hidden<'_, C>,
    home: ModuleId,
    path: &ModPath,
) -> Result<Option<String>, AllocError> {
    let (alloc, crates) = (hidden.alloc(), hidden.crates());
    let missing = missing_of(alloc, crates, home, path)?;
    match missing.name {
        None => Ok(None),
        Some(name) => private_in(alloc, crates, home, missing.module, name),
    }
}
