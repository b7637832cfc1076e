//! Visibilities of items, as they are written and a def map keeps them: nothing resolves their paths yet.
ghost use Rattle.std.specs.Prelude.{◌≡◌, IfOk, slice_get};
ghost use Rattle.crate_items.specs.RawVisibilities as spec;

use crate::files::file_table::FileTable;
use crate::files::source::Source;
use crate::items::declared_item::written;
use crate::items::lookups::text_of;
use crate::items::use_paths::path_of;
use crate::macros::macro_call::segments_of;
use crate::modules::CrateModules;
use dm_base::ids::FileId;
use dm_base::mod_path::{ModPath, PathKind};
use dm_base::visibility::{RawVisibility, VisibilityExplicitness};
use item_tree::attributes::attribute_kind::lexemes_in;
use item_tree::items::{Range, visibility};
use item_tree::lexer::lexeme::Lexeme;
use std::alloc::{AllocError, Global};

/// The path of some lexemes; none where there are none.
fn path_in(
    alloc: Global,
    text: &[u8],
    lexemes: &[Lexeme],
    range: Range,
) -> Result<Option<ModPath>, AllocError>
    ensures { IfOk result (λ path. path ≡ spec.path_in text.now lexemes.now range) }
{
    if range.first < range.behind && range.first < lexemes.len() {
        let places = segments_of(alloc, range.first, lexemes_in(lexemes, range))?;
        path_of(alloc, text, lexemes, places.as_slice())
    } else {
        Ok(None)
    }
}

/// What leads along a path is explicit; what is no path is the module's own.
fn along(path: Option<ModPath>) -> RawVisibility
    ensures { result ≡ spec.along path }
{
    match path {
        None => RawVisibility::PubSelf(VisibilityExplicitness::Explicit),
        Some(path) => RawVisibility::Module(path, VisibilityExplicitness::Explicit),
    }
}

/// A visibility that is written so.
pub(crate) fn raw_of(
    alloc: Global,
    text: &[u8],
    lexemes: &[Lexeme],
    written: visibility::RawVisibility,
) -> Result<RawVisibility, AllocError>
    ensures { IfOk result (λ raw. raw ≡ spec.raw_of text.now lexemes.now written) }
{
    match written {
        visibility::RawVisibility::Inherited => {
            Ok(RawVisibility::PubSelf(VisibilityExplicitness::Implicit))
        }
        visibility::RawVisibility::Public => Ok(RawVisibility::Public),
        visibility::RawVisibility::PubCrate => Ok(RawVisibility::PubCrate),
        visibility::RawVisibility::PubSuper => {
            let parent = ModPath::from_segments(PathKind::Super(1), Vec::new(alloc));
            Ok(along(Some(parent)))
        }
        visibility::RawVisibility::In(range) => {
            let path = path_in(alloc, text, lexemes, range)?;
            Ok(along(path))
        }
        visibility::RawVisibility::PubSelf | visibility::RawVisibility::Error => Ok(along(None)),
    }
}

/// The visibility that is written before the item of a number in the tree of a file.
fn raw_in(
    alloc: Global,
    text: &[u8],
    source: &Source,
    number: usize,
) -> Result<RawVisibility, AllocError>
    ensures { IfOk result
        (λ raw. raw ≡ spec.item_raw text.now source.now (slice_get source.now.items number)) }
{
    match source.items().get(number) {
        None => Ok(RawVisibility::PubSelf(VisibilityExplicitness::Implicit)),
        Some(item) => {
            let before = written(source.lexemes(), *item);
            raw_of(alloc, text, source.lexemes(), before)
        }
    }
}

/// The visibility that is written before the item of a number in a file: `PubSelf` where nothing is written, or `self`,
/// or what is no path, `Module` of `super` or of the path that is written, `PubCrate`, or `Public`. Of an item that is
/// not there it is as where nothing is written.
///
/// # Errors
///
/// Fails only where memory runs out.
pub fn item_visibility(
    alloc: Global,
    list: &CrateModules,
    files: &FileTable,
    file: FileId,
    item: usize,
) -> Result<RawVisibility, AllocError>
    ensures { IfOk result (λ raw. raw ≡ spec.item_visibility list.now files.now file item) }
{
    match list.sources().get(file) {
        None => Ok(RawVisibility::PubSelf(VisibilityExplicitness::Implicit)),
        Some(source) => raw_in(alloc, text_of(files, file), source, item),
    }
}
