//! Items of a crate, as the lists of its scopes need them.
ghost use Rattle.std.specs.Prelude.{◌≡◌, IfOk, map};
ghost use Rattle.crate_tables.specs.ScopeLists as spec;

use crate_items::items::declared_item::DeclaredItem;
use dm_base::ids::FileId;
use item_tree::items::item_kind::ItemKind;
use std::alloc::{AllocError, Global};

/// An item, as the lists of a scope need it.
#[derive(Clone, Copy)]
pub struct ItemOutline {
    /// The number of the module that it stands in, in the list of the crate.
    pub home: usize,
    /// The file of that module.
    pub file: FileId,
    /// The number of the item in the tree of that file.
    pub item: usize,
    pub kind: ItemKind,
    pub is_named: bool,
}

fn outline(item: &DeclaredItem) -> ItemOutline
    ensures { result ≡ spec.outline item.now }
{
    ItemOutline {
        home: item.module,
        file: item.file,
        item: item.item,
        kind: item.kind,
        is_named: item.name.is_some(),
    }
}

/// The outlines of some items.
pub(crate) fn outlines(
    alloc: Global,
    items: &[DeclaredItem],
) -> Result<Vec<ItemOutline>, AllocError>
    ensures { IfOk result (λ made. made.items ≡ map spec.outline items.now) }
{
    let mut made = Vec::new(alloc);
    for item in items {
        made.push(outline(item))?;
    }
    Ok(made)
}
