//! Files, read as UTF-8, and why one could not be read.
use crate::failure::{Failure, Status};
use std::alloc::{AllocError, Global};
use std::io::{self, ErrorKind, Read};
use std::rt::Files;

/// The path that the standard input is shown under.
pub(crate) const INPUT: &'static str = "<stdin>";

/// What reading a file gave.
#[derive(Drop)]
pub(crate) enum FileText {
    Text(Vec<u8>),
    /// There is no file of this path.
    Missing,
    /// There is something, and this is why it is no text.
    Unreadable(&'static str),
}

fn why(kind: ErrorKind) -> &'static str {
    match kind {
        ErrorKind::IsADirectory => "a folder and no file: give the file in it",
        ErrorKind::PermissionDenied => "may not be read: change who may read it",
        ErrorKind::OutOfMemory => "too large for the memory",
        ErrorKind::FilesystemLoop => "a circle of links: mend the links",
        _ => "cannot be read: see whether it is a file",
    }
}

fn as_text(bytes: Vec<u8>) -> FileText {
    if std::str::from_utf8(bytes.as_slice()).is_ok() {
        FileText::Text(bytes)
    } else {
        FileText::Unreadable("not UTF-8: save it as UTF-8")
    }
}

fn of_result(read: io::Result<Vec<u8>>) -> FileText {
    match read {
        Ok(bytes) => as_text(bytes),
        Err(error) => match error.kind() {
            ErrorKind::NotFound | ErrorKind::NotADirectory => FileText::Missing,
            kind => FileText::Unreadable(why(kind)),
        },
    }
}

/// Reads the file of a path.
pub(crate) fn file_text<R: Files + AllocGlobal>(rt: &R, path: &str) -> FileText {
    of_result(std::fs::read(rt, path))
}

/// The path of a file without links, where it is there.
pub(crate) fn whole_path<R: Files + AllocGlobal>(rt: &R, path: &str) -> Result<String, AllocError> {
    match std::fs::canonicalize(rt, path) {
        Ok(whole) => String::from_str(rt.alloc(), whole.as_path().to_str().unwrap_or(path)),
        Err(_error) => String::from_str(rt.alloc(), path),
    }
}

/// Reads the standard input.
pub(crate) fn input_text<R: Input + AllocGlobal>(rt: &R) -> FileText {
    let mut bytes = Vec::new(rt.alloc());
    let mut input = rt.reader();
    match input.read_to_end(&mut bytes) {
        Ok(_count) => as_text(bytes),
        Err(error) => FileText::Unreadable(why(error.kind())),
    }
}

/// A line that says why the file of a path was not read.
pub(crate) fn unread_line(alloc: Global, path: &str, reason: &str) -> Result<String, AllocError> {
    format!(in alloc; "{path}: {reason}")
}

/// The path that a file of the command line is shown under.
pub fn shown_path(path: &str) -> &str {
    if path == "-" { INPUT } else { path }
}

/// The text of what was read under a path, which has to be there.
fn needed(alloc: Global, path: &str, read: FileText) -> Result<String, Failure> {
    let reason = match read {
        FileText::Text(bytes) => {
            return Ok(String::from_utf8(bytes).unwrap_or(String::new(alloc)));
        }
        FileText::Missing => "no such file: give the path of one",
        FileText::Unreadable(reason) => reason,
    };
    Err(Failure::Told(Status::Unreadable, unread_line(alloc, path, reason)?))
}

/// The text of a file that has to be there.
pub(crate) fn needed_text<R: Files + AllocGlobal>(rt: &R, path: &str) -> Result<String, Failure> {
    needed(rt.alloc(), path, file_text(rt, path))
}

/// The text of a file that has to be there; `-` is the standard input. Fails where it is not read,
/// and where memory runs out.
pub fn given_text<R: Files + Input + AllocGlobal>(rt: &R, path: &str) -> Result<String, Failure> {
    let read = if path == "-" {
        input_text(rt)
    } else {
        file_text(rt, path)
    };
    needed(rt.alloc(), shown_path(path), read)
}
