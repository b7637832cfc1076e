//! Paths of macro calls and the names of extern crates.
ghost use Rattle.std.specs.Prelude.{◌≡◌, ◌<◌, ◌^◌};
ghost use Rattle.item_tree.specs.Paths as spec;

use crate::items::Range;
use crate::items::use_tree::{is_alias, path_len};
use crate::items::visibility::lexeme_at;
use crate::lexer::lexeme::{Lexeme, LexemeKind};
use crate::lexer::word::Word;

/// The path that begins at a place: segments with colons between, and perhaps before and behind them.
pub fn path_at(lexemes: &[Lexeme], place: usize) -> Range
    requires { place < 2 ^ 63 }
    ensures { result ≡ spec.path_at lexemes.now place }
{
    match lexemes.get(place..) {
        None => Range {
            first: place,
            behind: place,
        },
        Some(own) => Range {
            first: place,
            behind: place + path_len(own),
        },
    }
}

/// Whether `as` and a name or `_` begin the lexemes.
fn begins_alias(lexemes: &[Lexeme]) -> bool
    ensures { result ≡ spec.begins_alias lexemes.now }
{
    match lexeme_at(lexemes, 0) {
        LexemeKind::Word(Word::As) => is_alias(lexeme_at(lexemes, 1)),
        _ => false,
    }
}

/// The place of the name or `_` behind `as` that follows the name of an extern crate.
pub fn extern_crate_alias(lexemes: &[Lexeme], name: usize) -> Option<usize>
    requires { name < 2 ^ 63 }
    ensures { result ≡ spec.extern_crate_alias lexemes.now name }
{
    match lexemes.get(name + 1..) {
        None => None,
        Some(behind) => if begins_alias(behind) {
            Some(name + 2)
        } else {
            None
        },
    }
}
