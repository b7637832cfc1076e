//! How much was read and done.
use crate::settled::Settled;
use crate_items::files::file_table::FileTable;
use crate_items::modules::CrateModules;
use defmap_answers::crates::Crates;
use dm_base::ids::FileId;
use std::alloc::AllocError;
use std::fmt::Write;

/// How many newlines a text has.
fn newline_count(text: &[u8]) -> usize {
    let mut count = 0usize;
    for byte in text {
        if *byte == b'\n' {
            count = count.saturating_add(1);
        }
    }
    count
}

/// How many lines the files have.
fn line_count(files: &FileTable) -> usize {
    let mut count = 0usize;
    for number in 0..files.len() {
        let id = FileId(u32::try_from(number).unwrap_or(u32::MAX));
        if files.contains(id) {
            count = count.saturating_add(newline_count(files.text(id)));
        }
    }
    count
}

/// How many modules the crates have.
fn module_count(lists: &[CrateModules]) -> usize {
    let mut count = 0usize;
    for list in lists {
        count = count.saturating_add(list.modules().len());
    }
    count
}

/// Adds lines with what was read and done.
pub(crate) fn push_counts(out: &mut String, settled: &Settled) -> Result<(), AllocError> {
    let crates = settled.names().len();
    let files = settled.files().len();
    let lines = line_count(settled.files());
    let modules = module_count(settled.lists());
    let imports = settled.collected.imports.len();
    let globs = settled.collected.globs.len();
    let supported = if settled.collected.is_supported {
        "yes"
    } else {
        "no"
    };
    write!(
        out,
        "crates: {crates}\nfiles: {files}\nlines: {lines}\nmodules: {modules}\nimports: {imports}\nglobs: {globs}\nsupported: {supported}\n"
    )
}
