//! The syntax errors of the files of crates.
use crate::crates::{Crates, asked_crates};
use crate::places::Spot;
use crate::unresolved::Told;
use crate_items::files::source::Source;
use crate_items::modules::CrateModules;
use dm_base::ids::FileId;
use item_tree::items::expected::Expected;
use item_tree::items::item_tree;
use item_tree::lexer::lexeme::Lexeme;
use item_tree::lexer::syntax_error::{SyntaxError, syntax_errors};
use std::alloc::{AllocError, Global};

/// At most so many errors of a file are told.
const TOLD: usize = 20;

/// The bytes of a lexeme: where it begins, and what is behind it. Behind the last one stands nothing.
fn bytes_at(lexemes: &[Lexeme], place: usize) -> (usize, usize) {
    match lexemes.get(place) {
        Some(lexeme) => (lexeme.start, lexeme.start.saturating_add(lexeme.len)),
        None => match lexemes.last() {
            None => (0, 0),
            Some(last) => {
                let end = last.start.saturating_add(last.len);
                (end, end)
            }
        },
    }
}

/// The errors of a file, each with the byte where it stands: of those on adjacent bytes the first.
fn first_errors(
    alloc: Global,
    lexemes: &[Lexeme],
    errors: &[SyntaxError],
) -> Result<Vec<(usize, SyntaxError)>, AllocError> {
    let mut found = Vec::new(alloc);
    let mut before = None;
    for error in errors {
        let (start, end) = bytes_at(lexemes, error.at);
        if before != Some(start) {
            found.push((start, *error))?;
        }
        before = Some(end);
    }
    Ok(found)
}

fn is_of_delimiter(expected: Expected) -> bool {
    matches!(expected, Expected::Closing(_) | Expected::Opening(_))
}

/// The errors of a text that rustc tells: where delimiters lack their partners it reads no further.
fn told_errors(alloc: Global, errors: &[SyntaxError]) -> Result<Vec<SyntaxError>, AllocError> {
    let mut told = Vec::new(alloc);
    for error in errors {
        if is_of_delimiter(error.expected) {
            told.push(*error)?;
        }
    }
    if told.is_empty() {
        Vec::from_slice(alloc, errors)
    } else {
        Ok(told)
    }
}

/// The errors of a source.
fn errors_of(alloc: Global, source: &Source) -> Result<Vec<(usize, SyntaxError)>, AllocError> {
    let (lexemes, partners) = (source.lexemes(), source.partners());
    let tree = item_tree(alloc, lexemes, partners)?;
    let errors = syntax_errors(alloc, lexemes, partners, &tree)?;
    let told = told_errors(alloc, errors.as_slice())?;
    first_errors(alloc, lexemes, told.as_slice())
}

/// Adds the errors of a file.
fn add_file(
    told: &mut Vec<Told>,
    alloc: Global,
    file: FileId,
    source: &Source,
) -> Result<(), AllocError> {
    let errors = errors_of(alloc, source)?;
    for (offset, error) in errors.iter().take(TOLD) {
        let message = format!(in alloc; "syntax error: {}", error.expected)?;
        let offset = *offset;
        told.push(Told::new(Some(Spot { file, offset }), message))?;
    }
    if let Some((offset, _error)) = errors.get(TOLD) {
        let more = errors.len().saturating_sub(TOLD);
        let message = format!(in alloc; "syntax errors from here on: {more}")?;
        let offset = *offset;
        told.push(Told::new(Some(Spot { file, offset }), message))?;
    }
    Ok(())
}

/// Adds the errors of the files of a crate.
fn add_files(
    told: &mut Vec<Told>,
    alloc: Global,
    count: usize,
    list: &CrateModules,
) -> Result<(), AllocError> {
    for number in 0..count {
        let file = FileId(u32::try_from(number).unwrap_or(u32::MAX));
        if let Some(source) = list.sources().get(file) {
            add_file(told, alloc, file, source)?;
        }
    }
    Ok(())
}

/// Adds the syntax errors of the crates that are asked about.
pub fn add_syntax_errors<C: Crates>(
    told: &mut Vec<Told>,
    alloc: Global,
    crates: &C,
) -> Result<(), AllocError> {
    for krate in &asked_crates(alloc, crates)? {
        if let Some(list) = crates.lists().get(krate.0 as usize) {
            add_files(told, alloc, crates.files().len(), list)?;
        }
    }
    Ok(())
}
