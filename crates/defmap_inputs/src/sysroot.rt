//! The crates of the standard library, in the folders of a sysroot.
use crate::arguments::edition_of;
use crate::failure::{Failure, Status};
use crate::plan::CratePlan;
use crate::reading::{FileText, file_text};
use dm_base::source::Edition;
use std::alloc::{AllocError, Global};
use std::rt::Files;

/// The crates of a sysroot, from those that use none on.
const CRATES: [&'static str; 3] = ["core", "alloc", "std"];

/// Crates that a sysroot may have, and that only `extern crate` finds; each uses all those above.
const OTHERS: [&'static str; 2] = ["proc_macro", "test"];

/// Where the sysroot that rustc prints has the sources of the library.
const SOURCES: &'static str = "lib/rustlib/src/rust/library";

/// Whether a folder has the root of a crate of the library.
fn has_root<R: Files + AllocGlobal>(rt: &R, folder: &str, name: &str) -> Result<bool, AllocError> {
    let path = format!(in rt.alloc(); "{folder}/{name}/src/lib.rs")?;
    Ok(!matches!(file_text(rt, path.as_str()), FileText::Missing))
}

/// Whether a folder has crates of the library.
fn has_library<R: Files + AllocGlobal>(rt: &R, folder: &str) -> Result<bool, AllocError> {
    for name in &CRATES {
        if has_root(rt, folder, *name)? {
            return Ok(true);
        }
    }
    Ok(false)
}

fn no_sources<T>(alloc: Global, sysroot: &str) -> Result<T, Failure> {
    let told = format!(in alloc;
        "{sysroot}: no sources of the standard library: run `rustup component add rust-src`, and give \
what `rustc --print sysroot` prints, or the folder that has core, alloc and std"
    )?;
    Err(Failure::Told(Status::Unreadable, told))
}

/// The folder with the crates of the library: the one that is given, or the one below it where it is what
/// `rustc --print sysroot` prints.
pub(crate) fn library_folder<R: Files + AllocGlobal>(
    rt: &R,
    sysroot: &str,
) -> Result<String, Failure> {
    let alloc = rt.alloc();
    if has_library(rt, sysroot)? {
        return Ok(String::from_str(alloc, sysroot)?);
    }
    let below = format!(in alloc; "{sysroot}/{SOURCES}")?;
    if has_library(rt, below.as_str())? {
        return Ok(below);
    }
    no_sources(alloc, sysroot)
}

/// The edition that the text of a Cargo.toml names.
fn edition_in(manifest: &str) -> Option<Edition> {
    for line in manifest.lines() {
        if let Some((key, value)) = line.split_once('=') {
            if key.trim() == "edition" {
                return edition_of(value.trim().trim_matches('"'));
            }
        }
    }
    None
}

/// The edition of a crate of the sysroot; 2021 where its Cargo.toml names none.
fn edition_at<R: Files + AllocGlobal>(rt: &R, folder: &str) -> Result<Edition, AllocError> {
    let path = format!(in rt.alloc(); "{folder}/Cargo.toml")?;
    let FileText::Text(bytes) = file_text(rt, path.as_str()) else {
        return Ok(Edition::Edition2021);
    };
    let manifest = std::str::from_utf8(bytes.as_slice()).unwrap_or("");
    Ok(edition_in(manifest).unwrap_or(Edition::Edition2021))
}

/// The plan of a crate of the sysroot, which uses those before it.
fn plan_of<R: Files + AllocGlobal>(
    rt: &R,
    sysroot: &str,
    name: &str,
    first: usize,
    number: usize,
) -> Result<CratePlan, AllocError> {
    let alloc = rt.alloc();
    let folder = format!(in alloc; "{sysroot}/{name}")?;
    let root = format!(in alloc; "{folder}/src/lib.rs")?;
    let edition = edition_at(rt, folder.as_str())?;
    let mut plan = CratePlan::new(alloc, name, root.as_str(), edition)?;
    for (place, used) in CRATES.iter().enumerate() {
        if place < number {
            plan.depend(alloc, used, first.saturating_add(place), true)?;
        }
    }
    Ok(plan)
}

/// Adds a crate that a sysroot may have, and lets each crate that uses none of it find it by `extern crate`. To a crate
/// of procedural macros `proc_macro` is known without that.
fn add_other<R: Files + AllocGlobal>(
    rt: &R,
    plans: &mut Vec<CratePlan>,
    sysroot: &str,
    name: &str,
    first: usize,
) -> Result<(), AllocError> {
    let alloc = rt.alloc();
    let plan = plan_of(rt, sysroot, name, first, CRATES.len())?;
    if !matches!(file_text(rt, plan.root.as_str()), FileText::Text(_)) {
        return Ok(());
    }
    let number = plans.len();
    for user in plans.iter_mut().take(first) {
        let is_known = user.is_proc_macro && name == "proc_macro";
        user.depend(alloc, name, number, is_known)?;
    }
    plans.push(plan)?;
    Ok(())
}

/// Adds the crates of a sysroot, and lets each crate that is there know them.
pub(crate) fn add_sysroot<R: Files + AllocGlobal>(
    rt: &R,
    plans: &mut Vec<CratePlan>,
    sysroot: &str,
) -> Result<(), AllocError> {
    let alloc = rt.alloc();
    let first = plans.len();
    for plan in plans.iter_mut() {
        for (place, name) in CRATES.iter().enumerate() {
            plan.depend(alloc, name, first.saturating_add(place), *name != "alloc")?;
        }
    }
    for (number, name) in CRATES.iter().enumerate() {
        plans.push(plan_of(rt, sysroot, name, first, number)?)?;
    }
    for name in &OTHERS {
        add_other(rt, plans, sysroot, name, first)?;
    }
    Ok(())
}
