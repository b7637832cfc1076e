//! Names that items are bound under, to be declared.
ghost use Rattle.std.specs.Prelude.{◌≡◌, IfOk};

use crate_items::items::declared_item::DeclaredItem;
use dm_base::name::Name;
use std::alloc::{AllocError, Global};

/// A copy of the name that an item is bound under.
pub(crate) fn name_of(alloc: Global, item: &DeclaredItem) -> Result<Option<Name>, AllocError>
    ensures { IfOk result (λ name. name ≡ item.now.name) }
{
    match &item.name {
        None => Ok(None),
        Some(name) => {
            let copy = name.copy(alloc)?;
            Ok(Some(copy))
        }
    }
}
