//! The `impl` and `extern` blocks of a crate, in its table.
ghost use Rattle.std.specs.Prelude.{◌≡◌, IfOk, OnOk};
ghost use Rattle.crate_items.specs.Sources.{source_at};
ghost use Rattle.crate_tables.specs.Blocks as spec;
ghost use Rattle.crate_tables.specs.CrateTables.{IsTableOf};
ghost use Rattle.dm_base.specs.declared.ids.Crate.{Crate};
ghost use Rattle.dm_maps.specs.World.{World};

use crate::crate_table::CrateTable;
use crate::item_place::{BlockKind, BlockPlace};
use crate::visibilities::id_at;
use crate_items::files::source::Source;
use crate_items::items::declared_item::DeclaredItem;
use crate_items::modules::CrateModules;
use item_tree::items::implementations::is_of_trait;
use item_tree::items::item_kind::ItemKind;
use std::alloc::{AllocError, Global};

/// Whether an item of a file is the implementation of a trait.
fn is_of_trait_in(alloc: Global, source: &Source, number: usize) -> Result<bool, AllocError>
    ensures { IfOk result (λ found. found ≡ spec.is_of_trait_in source.now number) }
{
    match source.items().get(number) {
        None => Ok(false),
        Some(item) => is_of_trait(alloc, source.lexemes(), source.partners(), item),
    }
}

/// The kind of an `impl`.
fn impl_kind(
    alloc: Global,
    list: &CrateModules,
    item: &DeclaredItem,
) -> Result<BlockKind, AllocError>
    ensures { IfOk result (λ kind. kind ≡ spec.impl_kind (source_at list.now.sources item.now.file) item.now.item) }
{
    match list.sources().get(item.file) {
        None => Ok(BlockKind::InherentImpl),
        Some(source) => {
            if is_of_trait_in(alloc, source, item.item)? {
                Ok(BlockKind::TraitImpl)
            } else {
                Ok(BlockKind::InherentImpl)
            }
        }
    }
}

/// The kind of block that an item is, if it is one.
fn block_kind(
    alloc: Global,
    list: &CrateModules,
    item: &DeclaredItem,
) -> Result<Option<BlockKind>, AllocError>
    ensures { IfOk result (λ kind. kind ≡ spec.block_kind list.now item.now) }
{
    match item.kind {
        ItemKind::Impl => {
            let kind = impl_kind(alloc, list, item)?;
            Ok(Some(kind))
        }
        ItemKind::ExternBlock => Ok(Some(BlockKind::Extern)),
        _ => Ok(None),
    }
}

/// Lists a block in the table, unless its module was left out.
fn add_block(table: &mut CrateTable, kind: BlockKind, item: &DeclaredItem) -> Result<(), AllocError>
    ensures exact { OnOk result (table.new ≡ spec.with_block table.old item.now kind) }
    ensures kept { (w : World) (k : Crate) → IsTableOf w k table.old → OnOk result (IsTableOf w k table.new) }
{
    match id_at(table.ids(), item.module) {
        None => Ok(()),
        Some(home) => table.push_block(BlockPlace {
            kind,
            home,
            file: item.file,
            item: item.item,
        }),
    }
}

/// Lists an item in the table, if it is a block.
fn add_one(
    table: &mut CrateTable,
    alloc: Global,
    list: &CrateModules,
    item: &DeclaredItem,
) -> Result<(), AllocError>
    ensures exact { OnOk result (table.new ≡ spec.with_item list.now table.old item.now) }
    ensures kept { (w : World) (k : Crate) → IsTableOf w k table.old → OnOk result (IsTableOf w k table.new) }
{
    match block_kind(alloc, list, item)? {
        None => Ok(()),
        Some(kind) => add_block(table, kind, item),
    }
}

/// Lists the `impl` and `extern` blocks among the items of a crate, in order: each with its module and where it is written.
/// Those of modules that were left out are passed over. Nothing else of the table changes.
///
/// # Errors
///
/// Fails only where memory runs out. What was listed before stays.
pub(crate) fn add_blocks(
    table: &mut CrateTable,
    alloc: Global,
    list: &CrateModules,
    items: &[DeclaredItem],
) -> Result<(), AllocError>
    ensures exact { OnOk result (table.new ≡ spec.with_blocks list.now table.old items.now) }
    ensures kept { (w : World) (k : Crate) → IsTableOf w k table.old → OnOk result (IsTableOf w k table.new) }
{
    for item in items {
        add_one(table, alloc, list, item)?;
    }
    Ok(())
}
