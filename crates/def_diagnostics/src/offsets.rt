//! Where the parts of files begin that diagnostics are about.
ghost use Rattle.std.specs.Prelude.{◌≡◌, IfOk, slice_get};
ghost use Rattle.def_diagnostics.specs.Offsets as spec;
ghost use Rattle.crate_items.specs.Sources.{source_at};

use crate::diagnostic::Place;
use crate_items::files::source::Source;
use crate_items::modules::CrateModules;
use dm_base::ids::{FileId, UseTreeIdx};
use item_tree::ids::{item_range, use_tree_range};
use item_tree::items::use_tree::{UseTree, use_trees};
use item_tree::items::{Item, Range};
use std::alloc::{AllocError, Global};

/// Where the item of a number begins.
fn item_offset(source: &Source, number: usize) -> usize
    ensures { result ≡ spec.item_offset source.now (slice_get source.now.items number) }
{
    match source.items().get(number) {
        None => 0,
        Some(item) => item_range(source.lexemes(), *item).start,
    }
}

/// Where the use tree of a number begins, among those of an item that begins at a place.
fn tree_offset(source: &Source, trees: &[UseTree], tree: UseTreeIdx, item: usize) -> usize
    ensures { result ≡ spec.tree_offset source.now (slice_get trees.now tree.0) item }
{
    match trees.get(tree.0 as usize) {
        None => item,
        Some(tree) => use_tree_range(source.lexemes(), source.partners(), *tree).start,
    }
}

/// The lexemes behind the word of an item.
fn behind_word(item: Item) -> Range
    ensures { result ≡ spec.behind_word item }
{
    Range {
        first: item.word.saturating_add(1),
        behind: item.behind,
    }
}

/// Where a use tree of the item of a number begins.
fn use_offset(
    alloc: Global,
    source: &Source,
    number: usize,
    tree: UseTreeIdx,
) -> Result<usize, AllocError>
    ensures { IfOk result
        (λ offset. offset ≡ spec.use_offset source.now (slice_get source.now.items number) tree) }
{
    match source.items().get(number) {
        None => Ok(0),
        Some(item) => {
            let trees = use_trees(alloc, source.lexemes(), behind_word(*item))?;
            let own = item_range(source.lexemes(), *item).start;
            Ok(tree_offset(source, trees.as_slice(), tree, own))
        }
    }
}

/// The byte of a file that a part of it begins with, as a crate reads that; 0, where it is not there.
///
/// # Errors
///
/// Fails only where memory runs out.
pub fn place_offset(
    alloc: Global,
    list: &CrateModules,
    file: FileId,
    place: Place,
) -> Result<usize, AllocError>
    ensures { IfOk result
        (λ offset. offset ≡ spec.place_offset (source_at list.now.sources file) place) }
{
    match list.sources().get(file) {
        None => Ok(0),
        Some(source) => match place {
            Place::Item(number) => Ok(item_offset(source, number)),
            Place::UseTree(number, tree) => use_offset(alloc, source, number, tree),
        },
    }
}
