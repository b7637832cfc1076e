//! The glob by which a crate names its prelude (`#[prelude_import]`).
use crate::crates::Crates;
use crate::places::ItemPlace;
use crate_items::files::file_table::FileTable;
use crate_items::items::declared_import::{DeclaredImport, declared_imports};
use crate_items::items::declared_item::DeclaredItem;
use crate_items::modules::CrateModules;
use dm_base::ids::{Crate, ModuleId, UseId};
use item_tree::items::imports::ImportKind;
use std::alloc::{AllocError, Global};

/// A use that names a prelude: the module that it stands in, and its glob.
pub(crate) struct PreludeUse {
    pub(crate) home: ModuleId,
    pub(crate) use_: UseId,
    pub(crate) glob: DeclaredImport,
}

/// A hand-written `Drop`, to keep proofs small: what drops one has one call to prove.
impl Drop for PreludeUse {
    fn drop(self) {
        let PreludeUse {
            home: _home,
            use_: _use,
            glob: _glob,
        } = self;
    }
}

/// The item at a place.
fn item_at(items: &[Vec<DeclaredItem>], place: ItemPlace) -> Option<&DeclaredItem> {
    for item in items.get(place.krate)? {
        if item.file.0 == place.file.0 && item.item == place.item {
            return Some(item);
        }
    }
    None
}

/// The first glob of an item.
fn glob_of(
    alloc: Global,
    list: &CrateModules,
    files: &FileTable,
    item: &DeclaredItem,
) -> Result<Option<DeclaredImport>, AllocError> {
    for import in declared_imports(alloc, list, files, item)? {
        if matches!(import.kind, ImportKind::Glob) {
            return Ok(Some(import));
        }
    }
    Ok(None)
}

/// The use that names the prelude of a crate, if one does.
pub(crate) fn prelude_use<C: Crates>(
    alloc: Global,
    crates: &C,
    krate: Crate,
) -> Result<Option<PreludeUse>, AllocError> {
    let Some((home, use_)) = crates.naming_use(krate) else {
        return Ok(None);
    };
    let Some(place) = crates.use_place(use_) else {
        return Ok(None);
    };
    let item = item_at(crates.items(), *place);
    let (Some(list), Some(item)) = (crates.lists().get(krate.0 as usize), item) else {
        return Ok(None);
    };
    match glob_of(alloc, list, crates.files(), item)? {
        None => Ok(None),
        Some(glob) => Ok(Some(PreludeUse { home, use_, glob })),
    }
}
