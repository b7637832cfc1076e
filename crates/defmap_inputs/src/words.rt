//! The words of the command line, and what the environment says of colours.
use crate::failure::{Failure, Status};
use crate::shown_name::shown_name;
use std::alloc::AllocError;
use std::env::FillError;
use std::io::ErrorKind;
use std::rt::Env;

/// How many bytes of a word are looked at that is no text.
const LONGEST: usize = 4096;

/// The first word that is no UTF-8, with what is none escaped.
fn odd_word<R: Env + AllocGlobal>(rt: &R) -> Result<String, AllocError> {
    let mut bytes = [0u8; LONGEST];
    for place in 0..usize::MAX {
        match rt.arg(place, &mut bytes) {
            Ok(len) => {
                let word = bytes.get(..len).unwrap_or(&[]);
                if std::str::from_utf8(word).is_err() {
                    return shown_name(rt.alloc(), word);
                }
            }
            Err(FillError::NotPresent) => break,
            Err(FillError::TooLong) => {}
        }
    }
    String::from_str(rt.alloc(), "a long word")
}

/// Refuses a word that is no UTF-8.
fn no_text<T, R: Env + AllocGlobal>(rt: &R) -> Result<T, Failure> {
    let word = odd_word(rt)?;
    let told = format!(in rt.alloc(); "{word}: no UTF-8: give a name that is, as by a link")?;
    Err(Failure::Told(Status::Misused, told))
}

/// The words, from the program's own name on. Fails where one is no UTF-8, and where memory runs out.
pub fn given_words<R: Env + AllocGlobal>(rt: &R) -> Result<Vec<String>, Failure> {
    match std::env::args(rt) {
        Ok(words) => Ok(words.collect(rt.alloc())?),
        Err(error) => match error.kind() {
            ErrorKind::InvalidData => no_text(rt),
            _ => Err(Failure::OutOfMemory),
        },
    }
}

/// Whether a variable of the environment has a value that is not empty.
fn has_variable<R: Env + AllocGlobal>(rt: &R, name: &str) -> bool {
    match std::env::var(rt, name) {
        Ok(value) => !value.is_empty(),
        Err(_error) => false,
    }
}

/// Whether the environment asks for no colours: `NO_COLOR` is set, or the terminal has none.
pub fn is_plain<R: Env + AllocGlobal>(rt: &R) -> bool {
    if has_variable(rt, "NO_COLOR") {
        return true;
    }
    match std::env::var(rt, "TERM") {
        Ok(terminal) => terminal.as_str() == "dumb",
        Err(_error) => false,
    }
}
