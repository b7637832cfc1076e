//! Where items and the leaves of their use trees begin.
use crate_items::files::source::Source;
use dm_base::ids::UseTreeIdx;
use item_tree::ids::{item_range, use_tree_range};
use item_tree::items::Range;
use item_tree::items::use_tree::use_trees;
use std::alloc::{AllocError, Global};

/// Where an item begins.
pub(crate) fn item_offset(source: &Source, number: usize) -> usize {
    match source.items().get(number) {
        None => 0,
        Some(item) => item_range(source.lexemes(), *item).start,
    }
}

/// Where a leaf of the use trees of an item begins.
pub(crate) fn leaf_offset(
    alloc: Global,
    source: &Source,
    number: usize,
    leaf: UseTreeIdx,
) -> Result<usize, AllocError> {
    let Some(item) = source.items().get(number) else {
        return Ok(0);
    };
    let behind_word = Range {
        first: item.word.saturating_add(1),
        behind: item.behind,
    };
    let trees = use_trees(alloc, source.lexemes(), behind_word)?;
    match trees.get(leaf.0 as usize) {
        None => Ok(item_offset(source, number)),
        Some(tree) => Ok(use_tree_range(source.lexemes(), source.partners(), *tree).start),
    }
}
