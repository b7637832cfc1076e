//! Paths as the user writes them.
use dm_base::mod_path::{ModPath, PathKind};
use dm_base::name::Name;
use std::alloc::{AllocError, Global};

/// What a path begins with, and the names behind that.
#[derive(Clone, Copy)]
struct Beginning<'a> {
    kind: PathKind,
    rest: &'a str,
}

/// The rest behind a word and two colons. None where the path does not begin with that word.
fn behind<'a>(path: &'a str, word: &str) -> Option<&'a str> {
    let rest = path.strip_prefix(word)?;
    if rest.is_empty() {
        return Some(rest);
    }
    rest.strip_prefix("::")
}

/// The path behind each `super` that it begins with, and how many these are.
fn supers(path: &str, before: u8) -> Beginning<'_> {
    let mut rest = path;
    let mut count = before;
    for _word in 0..u8::MAX {
        let Some(left) = behind(rest, "super") else {
            break;
        };
        count = count.saturating_add(1);
        rest = left;
    }
    Beginning {
        kind: PathKind::Super(count),
        rest,
    }
}

fn begun(path: &str) -> Beginning<'_> {
    if let Some(rest) = path.strip_prefix("::") {
        return Beginning {
            kind: PathKind::Abs,
            rest,
        };
    }
    if let Some(rest) = behind(path, "crate") {
        return Beginning {
            kind: PathKind::Crate,
            rest,
        };
    }
    if let Some(rest) = behind(path, "self") {
        return supers(rest, 0);
    }
    if behind(path, "super").is_some() {
        return supers(path, 0);
    }
    Beginning {
        kind: PathKind::Plain,
        rest: path,
    }
}

fn is_name_char(c: char) -> bool {
    c.is_alphanumeric() || c == '_'
}

/// Whether a text can be a name.
fn is_name(text: &str) -> bool {
    let begins = match text.chars().next() {
        None => false,
        Some(first) => !first.is_ascii_digit(),
    };
    begins && text.chars().all(is_name_char)
}

/// The names between two colons each. None where one is no name.
fn names_of(alloc: Global, rest: &str) -> Result<Option<Vec<Name>>, AllocError> {
    let mut names = Vec::new(alloc);
    if rest.is_empty() {
        return Ok(Some(names));
    }
    for word in rest.split("::") {
        let name = word.strip_prefix("r#").unwrap_or(word);
        if !is_name(name) {
            return Ok(None);
        }
        names.push(Name::new(alloc, name)?)?;
    }
    Ok(Some(names))
}

/// The path of a text. None where it is none.
pub fn written_path(alloc: Global, text: &str) -> Result<Option<ModPath>, AllocError> {
    let beginning = begun(text);
    let Some(names) = names_of(alloc, beginning.rest)? else {
        return Ok(None);
    };
    let is_empty = names.is_empty() && matches!(beginning.kind, PathKind::Plain | PathKind::Abs);
    if is_empty {
        return Ok(None);
    }
    Ok(Some(ModPath::from_segments(beginning.kind, names)))
}

/// The first segments of a path.
pub(crate) fn prefix_of(
    alloc: Global,
    path: &ModPath,
    count: usize,
) -> Result<ModPath, AllocError> {
    let mut names = Vec::new(alloc);
    for name in path.segments().iter().take(count) {
        names.push(name.copy(alloc)?)?;
    }
    Ok(ModPath::from_segments(path.kind(), names))
}
