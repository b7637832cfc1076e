//! The items of a file that a crate has, by the modules that they stand in.
ghost use Rattle.std.specs.Prelude.{◌≡◌, ◌≤◌, ◌++◌, IfOk, OnOk, filter, length, nat_le, slice_get, true, false};
ghost use Rattle.std.specs.List.Sorted.{IsNonDecreasingBy, IsPartitionPoint};
ghost use Rattle.crate_items.specs.FileItems as spec;
ghost use Rattle.crate_items.specs.declared.items.file_items.Homed.{Homed};
ghost use Rattle.crate_items.specs.Sources.{source_at};

use crate::files::source::Source;
use crate::modules::CrateModules;
use crate::modules::standing::Standing;
use dm_base::ids::FileId;
use item_tree::items::Item;
use item_tree::items::item_kind::ItemKind;
use item_tree::laws::numbers_between_stand_between;
use std::alloc::{AllocError, Global};

/// An item of a file.
#[derive(Clone, Copy)]
pub(crate) struct Homed {
    /// The item of the module that it stands in; none, where that is the file's.
    pub(crate) home: Option<usize>,
    pub(crate) item: usize,
    /// The lexeme that it begins with.
    pub(crate) place: usize,
}

/// Whether a kind stands in a module as an item.
fn is_item(kind: ItemKind) -> bool
    ensures { result ≡ spec.is_item kind }
{
    match kind {
        ItemKind::Error | ItemKind::InnerAttribute => false,
        ItemKind::CfgIf | ItemKind::CfgSelect | ItemKind::CfgArm => false,
        _ => true,
    }
}

fn is_block_kind(kind: ItemKind) -> bool
    ensures { result ≡ spec.is_block_kind kind }
{
    matches!(kind, ItemKind::ExternBlock)
}

/// Whether the item of a number is an `extern` block.
fn is_block(items: &[Item], number: usize) -> bool
    ensures { result ≡ spec.is_block (slice_get items.now number) }
{
    match items.get(number) {
        None => false,
        Some(item) => is_block_kind(item.kind),
    }
}

fn home_of(standings: &[Standing], number: usize) -> Option<usize>
    ensures { result ≡ spec.home_of (slice_get standings.now number) }
{
    match standings.get(number) {
        None => None,
        Some(standing) => standing.home,
    }
}

/// The item of the module that what is in an item stands in.
fn module_around(source: &Source, home: Option<usize>) -> Option<usize>
    ensures { result ≡ spec.module_around source.now home }
{
    match home {
        None => None,
        Some(number) => {
            if is_block(source.items(), number) {
                home_of(source.standings(), number)
            } else {
                Some(number)
            }
        }
    }
}

/// Adds an item that stands so, if it is one that the crate has.
fn push_standing(
    found: &mut Vec<Homed>,
    source: &Source,
    number: usize,
    item: Item,
    standing: Option<Standing>,
) -> Result<(), AllocError>
    ensures { OnOk result
        (found.new.items ≡ found.old.items ++ spec.homed_by source.now number item standing) }
{
    match standing {
        None => Ok(()),
        Some(standing) => {
            if is_item(item.kind) && standing.is_configured {
                found.push(Homed {
                    home: module_around(source, standing.home),
                    item: number,
                    place: item.first,
                })?;
            }
            Ok(())
        }
    }
}

/// Adds the item of a number, if it is one that the crate has.
fn push_item(
    found: &mut Vec<Homed>,
    source: &Source,
    number: usize,
    item: Item,
) -> Result<(), AllocError>
    ensures { OnOk result (found.new.items ≡ found.old.items
        ++ spec.homed_by source.now number item (slice_get source.now.standings number)) }
{
    let standing = source.standings().get(number).copied();
    push_standing(found, source, number, item, standing)
}

/// Those of a file's items that the crate has, level by level.
fn items_in_tree(alloc: Global, source: &Source, items: &[Item]) -> Result<Vec<Homed>, AllocError>
    ensures { IfOk result (λ found. found.items ≡ spec.homed_from source.now 0 items.now) }
{
    let mut found = Vec::new(alloc);
    for (number, item) in items.iter().enumerate() {
        push_item(&mut found, source, number, *item)?;
    }
    Ok(found)
}

/// The items that the crate has, in the order of the text.
fn items_in_text(alloc: Global, source: &Source) -> Result<Vec<Homed>, AllocError>
    ensures { IfOk result (λ found. spec.IsInTextOrder
        (spec.homed_from source.now 0 source.now.items) found.items) }
{
    let mut found = items_in_tree(alloc, source, source.items())?;
    found.sort_by_key(|homed| homed.place)?;
    Ok(found)
}

/// A number that is greater for a later module.
fn rank_of(home: Option<usize>) -> u128
    ensures { result ≡ spec.rank_of home }
{
    match home {
        None => 1,
        Some(number) => number as u128 + 2,
    }
}

/// The items that the crate has: those of each module together, in the order of the text.
fn items_by_module(alloc: Global, source: &Source) -> Result<Vec<Homed>, AllocError>
    ensures { IfOk result (λ found. spec.AreByModule
        (spec.homed_from source.now 0 source.now.items) found.items) }
{
    let mut found = items_in_text(alloc, source)?;
    found.sort_by_key(|homed| rank_of(homed.home))?;
    Ok(found)
}

/// The items of a file that the crate has: those of each module together, in the order of the text.
pub(crate) fn items_of_file(
    alloc: Global,
    list: &CrateModules,
    file: FileId,
) -> Result<Vec<Homed>, AllocError>
    ensures { IfOk result (λ found. spec.AreByModule
        (spec.items_known (source_at list.now.sources file)) found.items) }
{
    match list.sources().get(file) {
        None => Ok(Vec::new(alloc)),
        Some(source) => items_by_module(alloc, source),
    }
}

/// How many items stand in a module up to that of a rank.
fn count_up_to(items: &[Homed], rank: u128) -> usize
    requires { IsNonDecreasingBy spec.rank items.now }
    ensures within { result ≤ length items.now }
    ensures parted { IsPartitionPoint (λ (x : Homed). nat_le (spec.rank x) rank ≡ true)
        (λ (x : Homed). nat_le (spec.rank x) rank ≡ false) items.now result }
{
    items.partition_point(|homed| rank_of(homed.home) <= rank)
}

/// Those that stand in a module. The time is logarithmic.
pub(crate) fn items_at(items: &[Homed], home: Option<usize>) -> &[Homed]
    requires { IsNonDecreasingBy spec.rank items.now }
    ensures { result.now ≡ filter (spec.stands_in home) items.now }
{
    numbers_between_stand_between::<Homed>();
    let rank = rank_of(home);
    let first = count_up_to(items, rank - 1);
    let behind = count_up_to(items, rank);
    &items[first..behind.max(first)]
}
