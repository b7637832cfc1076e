//! The paths of macro calls among items.
ghost use Rattle.std.specs.Prelude.{◌≡◌, ◌++◌, ◌+◌, ◌<◌, ◌∷◌, [], ◌^◌, IfOk, OnOk, if◌then◌else◌};
ghost use Rattle.crate_items.specs.MacroCalls as spec;
ghost use Rattle.item_tree.specs.Heads.{is_mark};
ghost use Rattle.item_tree.specs.Imports.{counts, segments_from};

use crate::files::file_table::FileTable;
use crate::items::declared_item::DeclaredItem;
use crate::items::lookups::{item_at, text_of};
use crate::items::use_paths::path_of;
use crate::modules::CrateModules;
use dm_base::mod_path::ModPath;
use item_tree::attributes::attribute_kind::lexemes_in;
use item_tree::items::item_kind::ItemKind;
use item_tree::items::paths::path_at;
use item_tree::items::{Item, Range};
use item_tree::lexer::lexeme::{Lexeme, LexemeKind};
use std::alloc::{AllocError, Global};

fn is_colon(kind: LexemeKind) -> bool
    ensures { result ≡ is_mark 58 kind }
{
    matches!(kind, LexemeKind::Mark(b':'))
}

/// Whether a lexeme of a path counts: its first, and any segment.
fn counts(at: usize, kind: LexemeKind) -> bool
    ensures { result ≡ counts at kind }
{
    at == 0 || !is_colon(kind)
}

/// Adds the place of a lexeme of a path that begins so, if it counts.
fn push_segment(
    places: &mut Vec<usize>,
    first: usize,
    at: usize,
    kind: LexemeKind,
) -> Result<(), AllocError>
    requires { first + at < 2 ^ 64 }
    ensures { OnOk result (places.new.items ≡
        (if counts at kind then places.old.items ++ (first + at) ∷ [] else places.old.items)) }
{
    if counts(at, kind) {
        places.push(first + at)?;
    }
    Ok(())
}

/// The places of the segments of a path that begins at one, and before them that of the colons which it begins with.
pub(crate) fn segments_of(
    alloc: Global,
    first: usize,
    own: &[Lexeme],
) -> Result<Vec<usize>, AllocError>
    requires { first < 2 ^ 63 }
    ensures { IfOk result (λ places. places.items ≡ segments_from first 0 own.now) }
{
    let mut places = Vec::new(alloc);
    for (at, lexeme) in own.iter().enumerate() {
        push_segment(&mut places, first, at, lexeme.kind)?;
    }
    Ok(places)
}

/// The path that begins at a place.
fn call_path(
    alloc: Global,
    text: &[u8],
    lexemes: &[Lexeme],
    place: usize,
) -> Result<Option<ModPath>, AllocError>
    requires { place < 2 ^ 63 }
    ensures { IfOk result (λ path. path ≡ spec.call_path text.now lexemes.now place) }
{
    let own = lexemes_in(lexemes, path_at(lexemes, place));
    let places = segments_of(alloc, place, own)?;
    path_of(alloc, text, lexemes, places.as_slice())
}

/// The path that an item of a tree calls.
fn called_by(
    alloc: Global,
    text: &[u8],
    lexemes: &[Lexeme],
    item: Item,
) -> Result<Option<ModPath>, AllocError>
    ensures { IfOk result (λ path. path ≡ spec.called_by text.now lexemes.now item.word item.kind) }
{
    match item.kind {
        ItemKind::MacroCall if item.word < lexemes.len() => {
            call_path(alloc, text, lexemes, item.word)
        }
        _ => Ok(None),
    }
}

/// The path of the macro that a macro call calls; none for any other item, and where anything but names stands behind
/// its beginning.
///
/// # Errors
///
/// Fails only where memory runs out.
pub fn macro_call_path(
    alloc: Global,
    list: &CrateModules,
    files: &FileTable,
    item: &DeclaredItem,
) -> Result<Option<ModPath>, AllocError>
    ensures { IfOk result (λ path. path ≡ spec.macro_call_path list.now files.now item.now) }
{
    match list.sources().get(item.file) {
        None => Ok(None),
        Some(source) => match item_at(source, item.item) {
            None => Ok(None),
            Some(read) => called_by(alloc, text_of(files, item.file), source.lexemes(), read),
        },
    }
}
