//! Fixtures: crates with all their files in one text, in rust-analyzer's own form.
//!
//! A line `//- /PATH WORD..` begins a file, whose text is the lines up to the next such line.
//! `crate:NAME` makes the file the root of a crate, and what further words say of that stands at
//! `Head`. Where no line has `crate:`, the first file `/main.rs` or `/lib.rs` is the root of a
//! crate `main`; where no line begins a file, the text is that file.
mod fault;
mod head;
mod plans;

use crate::failure::{Failure, Status};
use crate::fixture::fault::{Fault, Wrong, fault_line};
use crate::fixture::head::{Head, default_head, head_of};
use crate::fixture::plans::plans_of;
use crate::inputs::Inputs;
use crate::loader::Loader;
use crate::reading::{given_text, shown_path};
use crate_items::files::file_table::{AddFileError, FileTable};
use dm_base::ids::FileId;
use std::alloc::{AllocError, Global};
use std::fmt::Write;
use std::rt::Files;

/// A file of a fixture: the line that begins it, and its text.
pub(crate) struct FixtureFile<'a> {
    pub(crate) head: Head<'a>,
    text: String,
}

/// A hand-written `Drop`, to keep proofs small: what drops one has one call to prove.
impl<'a> Drop for FixtureFile<'a> {
    fn drop(self) {
        let FixtureFile {
            head: _head,
            text: _text,
        } = self;
    }
}

/// Adds a line: it begins a file, or belongs to the last one. Before the first it may only be
/// blank.
fn add_line<'a>(
    files: &mut Vec<FixtureFile<'a>>,
    alloc: Global,
    number: usize,
    line: &'a str,
) -> Result<(), Fault<'a>> {
    if let Some(rest) = line.strip_prefix("//- ") {
        let head = head_of(number, rest)?;
        let text = String::new(alloc);
        files.push(FixtureFile { head, text })?;
        return Ok(());
    }
    match files.last_mut() {
        Some(file) => write!(file.text, "{line}\n")?,
        None if line.trim().is_empty() => {}
        None => return Err(Fault::at(number, Wrong::TextBefore)),
    }
    Ok(())
}

/// Whether a line of a text begins a file.
fn has_head(text: &str) -> bool {
    for line in text.lines() {
        if line.starts_with("//- ") {
            return true;
        }
    }
    false
}

/// The files of a text in which lines begin files.
fn parted<'a>(alloc: Global, text: &'a str) -> Result<Vec<FixtureFile<'a>>, Fault<'a>> {
    let mut files = Vec::new(alloc);
    for (before, line) in text.lines().enumerate() {
        add_line(&mut files, alloc, before.saturating_add(1), line)?;
    }
    Ok(files)
}

/// The one file of a text.
fn whole<'a>(alloc: Global, text: &str) -> Result<Vec<FixtureFile<'a>>, AllocError> {
    let mut files = Vec::new(alloc);
    files.push(FixtureFile {
        head: default_head(),
        text: String::from_str(alloc, text)?,
    })?;
    Ok(files)
}

/// Whether a file is the root of a crate.
fn has_root(files: &[FixtureFile<'_>]) -> bool {
    for file in files {
        if file.head.name.is_some() {
            return true;
        }
    }
    false
}

/// Lets the first file of a usual path be the root of a crate `main`.
fn name_root(files: &mut [FixtureFile<'_>]) {
    for file in files {
        if matches!(file.head.path, "main.rs" | "lib.rs") {
            file.head.name = Some("main");
            return;
        }
    }
}

/// The files of a fixture.
fn files_of<'a>(alloc: Global, text: &'a str) -> Result<Vec<FixtureFile<'a>>, Fault<'a>> {
    if !has_head(text) {
        return Ok(whole(alloc, text)?);
    }
    let mut files = parted(alloc, text)?;
    if !has_root(files.as_slice()) {
        name_root(files.as_mut_slice());
    }
    Ok(files)
}

/// Adds a file to a table, which has none of its path.
fn add_file<'a>(
    table: &mut FileTable,
    alloc: Global,
    file: &FixtureFile<'a>,
) -> Result<(), Fault<'a>> {
    let path = Vec::from_slice(alloc, file.head.path.as_bytes())?;
    let text = Vec::from_slice(alloc, file.text.as_bytes())?;
    match table.add(path, text) {
        Ok(_id) => Ok(()),
        Err(AddFileError::OutOfMemory) => Err(Fault::OutOfMemory),
        Err(AddFileError::PathExists) => {
            Err(Fault::at(file.head.line, Wrong::FileTwice(file.head.path)))
        }
    }
}

/// Adds all files to a table.
fn add_files<'a>(
    table: &mut FileTable,
    alloc: Global,
    files: &[FixtureFile<'a>],
) -> Result<(), Fault<'a>> {
    for file in files {
        add_file(table, alloc, file)?;
    }
    Ok(())
}

/// The files of the roots of the crates.
fn roots_of(
    alloc: Global,
    table: &FileTable,
    files: &[FixtureFile<'_>],
) -> Result<Vec<Option<FileId>>, AllocError> {
    let mut roots = Vec::new(alloc);
    for file in files {
        if file.head.name.is_some() {
            roots.push(table.file_at(file.head.path.as_bytes()))?;
        }
    }
    Ok(roots)
}

/// The crates of files, and these in a loader's table.
fn inputs_of<'a>(alloc: Global, files: &[FixtureFile<'a>]) -> Result<Inputs, Fault<'a>> {
    let plans = plans_of(alloc, files)?;
    let mut loader = Loader::new(alloc);
    add_files(&mut loader.files, alloc, files)?;
    let roots = roots_of(alloc, &loader.files, files)?;
    Ok(Inputs {
        cfgs: String::new(alloc),
        plans,
        loader,
        roots,
        targets: Vec::new(alloc),
    })
}

/// The crates of a text, with their files.
fn parsed<'a>(alloc: Global, text: &'a str) -> Result<Inputs, Fault<'a>> {
    let files = files_of(alloc, text)?;
    inputs_of(alloc, files.as_slice())
}

/// Reads a fixture. Fails where it is not read, where a line of it says nothing that it may say,
/// and where memory runs out.
pub(crate) fn read_fixture<R: Files + Input + AllocGlobal>(
    rt: &R,
    path: &str,
) -> Result<Inputs, Failure> {
    let text = given_text(rt, path)?;
    match parsed(rt.alloc(), text.as_str()) {
        Ok(inputs) => Ok(inputs),
        Err(fault) => {
            let line = fault_line(rt.alloc(), shown_path(path), fault)?;
            Err(Failure::Told(Status::Unreadable, line))
        }
    }
}
