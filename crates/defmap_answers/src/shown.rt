//! Modules and visibilities, as they are written.
use crate::crates::{Crates, crate_name, is_asked};
use dm_base::ids::{Crate, ModuleId};
use dm_base::visibility::Visibility;
use std::alloc::{AllocError, Global};
use std::fmt::Write;

/// The modules from one outwards to the root of its crate.
pub(crate) fn outwards<C: Crates>(
    alloc: Global,
    crates: &C,
    m: ModuleId,
) -> Result<Vec<ModuleId>, AllocError> {
    let mut around = Vec::new(alloc);
    let mut next = Some(m);
    for _module in 0..u32::MAX {
        let Some(one) = next else {
            return Ok(around);
        };
        around.push(one)?;
        next = crates.parent_of(one);
    }
    Ok(around)
}

/// The crate of a module, as it is written in a crate: this is `crate` there.
fn crate_word<C: Crates>(crates: &C, own: Option<Crate>, m: ModuleId) -> &str {
    match crates.krate_of(m) {
        None => "?",
        Some(krate) if own == Some(krate) => "crate",
        Some(krate) => crate_name(crates, krate),
    }
}

/// The path of a module, from its crate on, as it is written in a crate.
fn path_in<C: Crates>(
    alloc: Global,
    crates: &C,
    own: Option<Crate>,
    m: ModuleId,
) -> Result<String, AllocError> {
    let mut path = String::from_str(alloc, crate_word(crates, own, m))?;
    let around = outwards(alloc, crates, m)?;
    let mut parent = None;
    for child in around.iter().rev() {
        let Some(home) = parent else {
            parent = Some(*child);
            continue;
        };
        let name = crates.child_name(home, *child);
        let name = match name {
            None => "?",
            Some(name) => name.as_str(),
        };
        write!(path, "::{name}")?;
        parent = Some(*child);
    }
    Ok(path)
}

/// The path of a module, from its crate on, as it is written in the crate that is asked about.
pub(crate) fn module_path<C: Crates>(
    alloc: Global,
    crates: &C,
    m: ModuleId,
) -> Result<String, AllocError> {
    path_in(alloc, crates, crates.asked(), m)
}

/// Whether a module is of a crate that is asked about.
pub(crate) fn is_own<C: Crates>(crates: &C, m: ModuleId) -> bool {
    match crates.krate_of(m) {
        None => false,
        Some(krate) => is_asked(crates, krate),
    }
}

/// Whether a module is the root of its crate.
fn is_root<C: Crates>(crates: &C, m: ModuleId) -> bool {
    crates.map_root(m) == Some(m)
}

/// A visibility, as it is written in a module.
pub(crate) fn visibility_text<C: Crates>(
    alloc: Global,
    crates: &C,
    home: ModuleId,
    visibility: Visibility,
) -> Result<String, AllocError> {
    match visibility {
        Visibility::Public => String::from_str(alloc, "pub"),
        Visibility::PubCrate(_krate) => String::from_str(alloc, "pub(crate)"),
        Visibility::Module(m, _is_written) => {
            if is_root(crates, m) {
                return String::from_str(alloc, "pub(crate)");
            }
            if m == home {
                return String::from_str(alloc, "pub(self)");
            }
            let own = crates.krate_of(home);
            let path = path_in(alloc, crates, own, m)?;
            format!(in alloc; "pub(in {path})")
        }
    }
}
