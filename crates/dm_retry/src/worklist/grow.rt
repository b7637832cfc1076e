//! One import more in a worklist.
ghost use Rattle.std.specs.Prelude.{◌≡◌, ◌<◌, ◌++◌, ◌∷◌, [], true, OnErr, OnOk};
ghost use Rattle.std.specs.Vec.{vec_capacity, vec_len};
ghost use Rattle.dm_retry.specs.Index.{IsKept, IsReady};
ghost use Rattle.dm_retry.specs.Rounds.{marked};

use crate::pending::Pending;
use crate::worklist::as_place;
use crate::worklist::dirty_set::DirtySet;
use crate::worklist::index::{Places, add_path};
use dm_base::name::Name;
use indexmap::IndexMap;
use std::alloc::{AllocError, Global};

/// Makes room for an import behind these: in the list, and in the index and the bit set, where they were made. There
/// the import is entered as a dirty one. Where an allocation fails, they keep what they had.
pub(crate) fn make_room(
    imports: &mut Vec<Pending>,
    index: &mut IndexMap<Name, Places>,
    dirty: &mut DirtySet,
    ready: bool,
    import: &Pending,
) -> Result<(), AllocError>
    requires { IsReady ready index.old.entries dirty.old imports.old.items }
    ensures same { imports.new.items ≡ imports.old.items }
    ensures room { OnOk result (vec_len imports.new < vec_capacity imports.new) }
    ensures ok { OnOk result (IsReady ready index.new.entries dirty.new
        (imports.old.items ++ marked true import.now ∷ [])) }
    ensures err { OnErr result (IsReady ready index.new.entries dirty.new imports.old.items) }
{
    imports.reserve(1)?;
    let alloc = *imports.allocator();
    let entered = enter(imports.as_slice(), index, dirty, ready, alloc, import)?;
    Ok(entered)
}

/// Adds an import at the end of the list, which has room for it, and marks it dirty.
pub(crate) fn push_dirty(imports: &mut Vec<Pending>, import: Pending)
    requires { vec_len imports.old < vec_capacity imports.old }
    ensures { imports.new.items ≡ imports.old.items ++ marked true import ∷ [] }
{
    let mut last = import;
    last.set_due(true);
    imports.push_reserved(last);
}

/// Enters an import behind these as a dirty one, where the index and the bit set were made.
fn enter(
    imports: &[Pending],
    index: &mut IndexMap<Name, Places>,
    dirty: &mut DirtySet,
    ready: bool,
    alloc: Global,
    import: &Pending,
) -> Result<(), AllocError>
    requires { IsReady ready index.old.entries dirty.old imports.now }
    ensures ok { OnOk result (IsReady ready index.new.entries dirty.new
        (imports.now ++ marked true import.now ∷ [])) }
    ensures err { OnErr result (IsReady ready index.new.entries dirty.new imports.now) }
{
    if ready {
        let entered = enter_last(imports, index, dirty, alloc, import)?;
        Ok(entered)
    } else {
        Ok(())
    }
}

/// Enters an import behind these in their index and bit set, as a dirty one.
fn enter_last(
    imports: &[Pending],
    index: &mut IndexMap<Name, Places>,
    dirty: &mut DirtySet,
    alloc: Global,
    import: &Pending,
) -> Result<(), AllocError>
    requires { IsKept index.old.entries dirty.old imports.now }
    ensures ok { OnOk result (IsKept index.new.entries dirty.new
        (imports.now ++ marked true import.now ∷ [])) }
    ensures err { OnErr result (IsKept index.new.entries dirty.new imports.now) }
{
    let place = as_place(imports.len())?;
    dirty.cover(place as usize)?;
    add_path(index, alloc, import.segments(), place)?;
    dirty.insert(place as usize);
    Ok(())
}
