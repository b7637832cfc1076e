//! The modules in which macros are called among the items.
use crate::crates::Crates;
use crate_items::items::declared_item::DeclaredItem;
use dm_base::ids::ModuleId;
use item_tree::items::item_kind::ItemKind;
use std::alloc::{AllocError, Global};

/// A module in which a macro is called, and where.
#[derive(Clone, Copy)]
pub(crate) struct MacroHome {
    pub(crate) module: ModuleId,
    pub(crate) krate: usize,
    /// The number of the item among those of the crate.
    pub(crate) item: usize,
}

/// Adds the modules of a crate in which macros are called.
fn add_homes(
    homes: &mut Vec<MacroHome>,
    krate: usize,
    ids: &[Option<ModuleId>],
    items: &[DeclaredItem],
) -> Result<(), AllocError> {
    for (number, item) in items.iter().enumerate() {
        if !matches!(item.kind, ItemKind::MacroCall) {
            continue;
        }
        if let Some(module) = ids.get(item.module).copied().flatten() {
            homes.push(MacroHome {
                module,
                krate,
                item: number,
            })?;
        }
    }
    Ok(())
}

/// The modules of all crates in which macros are called.
pub(crate) fn macro_homes<C: Crates>(
    alloc: Global,
    crates: &C,
) -> Result<Vec<MacroHome>, AllocError> {
    let mut homes = Vec::new(alloc);
    for (krate, items) in crates.items().iter().enumerate() {
        add_homes(
            &mut homes,
            krate,
            crates.module_ids(krate),
            items.as_slice(),
        )?;
    }
    Ok(homes)
}
