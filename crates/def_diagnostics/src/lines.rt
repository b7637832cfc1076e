//! Messages, each in a line.
ghost use Rattle.std.specs.Prelude.{◌≡◌, ◌++◌, ◌<◌, IfOk, IfSome, length, string_bytes};
ghost use Rattle.std.specs.List.{flat_map};
ghost use Rattle.def_diagnostics.specs.Lines as spec;

use crate::message::Message;
use crate::texts::as_text;
use crate_items::files::file_table::FileTable;
use crate_items::files::line_index::{LineCol, LineIndex};
use dm_base::ids::FileId;
use std::alloc::{AllocError, Global};
use std::marker::Model;

/// A file, with the table of its lines. A contract sees the file, its path and its text.
#[derive(Drop)]
struct FileLines<'a> {
    file: FileId,
    path: &'a [u8],
    text: &'a [u8],
    index: LineIndex<'a>,
}

impl<'a> Model for FileLines<'a> {
    ghost use Rattle.std.specs.Prelude.{◌≡◌};
    ghost use Rattle.def_diagnostics.specs.Lines.{SeenFile};

    ghost Value = { SeenFile };

    ghost view = { λ l. record { file = l.file; path = l.path.now; text = l.text.now } };

    ghost invariant = { λ l. l.index ≡ l.text.now };
}

/// A file that is there, with the table of its lines.
fn indexed<'a>(
    alloc: Global,
    files: &'a FileTable,
    file: FileId,
) -> Result<FileLines<'a>, AllocError>
    requires { file.0 < length files.now }
    ensures { IfOk result (λ lines. lines ≡ spec.seen_in files.now file) }
{
    let text = files.text(file);
    let index = LineIndex::new(alloc, text)?;
    Ok(FileLines {
        file,
        path: files.path(file),
        text,
        index,
    })
}

/// The same, by the file that was seen last: messages of one file stand together, so each table is made once.
fn seen<'a>(
    last: Option<FileLines<'a>>,
    alloc: Global,
    files: &'a FileTable,
    file: FileId,
) -> Result<FileLines<'a>, AllocError>
    requires there { file.0 < length files.now }
    requires last { IfSome last (spec.IsSeenIn files.now) }
    ensures { IfOk result (λ lines. lines ≡ spec.seen_in files.now file) }
{
    match last {
        None => indexed(alloc, files, file),
        Some(lines) => {
            if lines.file == file {
                Ok(lines)
            } else {
                indexed(alloc, files, file)
            }
        }
    }
}

/// The line and the column of a byte of a file; those of its end, where it has no such byte.
fn line_col(lines: &FileLines<'_>, offset: usize) -> LineCol
    ensures { result ≡ spec.line_col_in lines.now.text offset }
{
    let within = offset.min(lines.text.len());
    lines.index.line_col(within)
}

/// A line of a file that is there.
fn line_in(alloc: Global, lines: &FileLines<'_>, message: &Message) -> Result<String, AllocError>
    ensures { IfOk result (λ line. string_bytes line ≡ spec.line_in lines.now.path lines.now.text message.now) }
{
    let at = line_col(lines, message.offset);
    let path = as_text(lines.path);
    let told = message.text.as_str();
    let line = format!(in alloc; "{path}:{}:{}: {told}\n", at.line, at.col)?;
    Ok(line)
}

/// A line of no file.
fn bare_line(alloc: Global, message: &Message) -> Result<String, AllocError>
    ensures { IfOk result (λ line. string_bytes line ≡ spec.bare_line message.now) }
{
    let told = message.text.as_str();
    let line = format!(in alloc; "{told}\n")?;
    Ok(line)
}

/// Lines, and the file that was seen last.
#[derive(Drop)]
struct Written<'a> {
    out: String,
    last: Option<FileLines<'a>>,
}

/// With the line of a message of a file that is there.
fn with_line_in<'a>(
    written: Written<'a>,
    alloc: Global,
    files: &'a FileTable,
    message: &Message,
) -> Result<Written<'a>, AllocError>
    requires there { message.now.file.0 < length files.now }
    requires last { IfSome written.last (spec.IsSeenIn files.now) }
    ensures out { IfOk result (λ new. string_bytes new.out ≡
        string_bytes written.entry.out ++ spec.line_of files.now message.now) }
    ensures last { IfOk result (λ new. IfSome new.last (spec.IsSeenIn files.now)) }
{
    let Written { out, last } = written;
    let mut out = out;
    let lines = seen(last, alloc, files, message.file)?;
    let line = line_in(alloc, &lines, message)?;
    out.push_str(line.as_str())?;
    Ok(Written {
        out,
        last: Some(lines),
    })
}

/// With the line of a message of no file.
fn with_bare_line<'a>(
    written: Written<'a>,
    alloc: Global,
    message: &Message,
) -> Result<Written<'a>, AllocError>
    ensures out { IfOk result (λ new. string_bytes new.out ≡
        string_bytes written.entry.out ++ spec.bare_line message.now) }
    ensures last { IfOk result (λ new. new.last ≡ written.entry.last) }
{
    let Written { out, last } = written;
    let mut out = out;
    let line = bare_line(alloc, message)?;
    out.push_str(line.as_str())?;
    Ok(Written { out, last })
}

/// With the line of a message.
fn with_line<'a>(
    written: Written<'a>,
    alloc: Global,
    files: &'a FileTable,
    message: &Message,
) -> Result<Written<'a>, AllocError>
    requires { IfSome written.last (spec.IsSeenIn files.now) }
    ensures out { IfOk result (λ new. string_bytes new.out ≡
        string_bytes written.entry.out ++ spec.line_of files.now message.now) }
    ensures last { IfOk result (λ new. IfSome new.last (spec.IsSeenIn files.now)) }
{
    if files.contains(message.file) {
        with_line_in(written, alloc, files, message)
    } else {
        with_bare_line(written, alloc, message)
    }
}

/// The lines of messages.
fn lines_of(alloc: Global, files: &FileTable, messages: &[Message]) -> Result<String, AllocError>
    ensures { IfOk result (λ text. string_bytes text ≡ flat_map (spec.line_of files.now) messages.now) }
{
    let mut written = Written {
        out: String::new(alloc),
        last: None,
    };
    for message in messages {
        written = with_line(written, alloc, files, message)?;
    }
    Ok(written.out)
}

/// Messages in the order of their files and bytes.
fn in_order(messages: Vec<Message>) -> Result<Vec<Message>, AllocError>
    ensures { IfOk result (λ sorted. spec.IsInOrder messages.items sorted.items) }
{
    let mut sorted = messages;
    sorted.sort_by_key(|message| (message.file.0, message.offset))?;
    Ok(sorted)
}

/// Messages, each in a line `FILE:LINE:COLUMN: TEXT`, in the order of their files and bytes. Those of one byte stay in the
/// order in which they are given. The table of a file's lines is made once.
///
/// # Errors
///
/// Fails only where memory runs out.
pub fn lines(alloc: Global, files: &FileTable, messages: Vec<Message>) -> Result<String, AllocError>
    ensures { IfOk result (λ text. spec.AreLinesOf files.now messages.items (string_bytes text)) }
{
    let sorted = in_order(messages)?;
    let text = lines_of(alloc, files, sorted.as_slice())?;
    Ok(text)
}
