//! Building the modules of a def map, for the crates of this repository that build def maps.
ghost use Rattle.std.specs.Prelude.{◌≡◌, [], ◌∷◌, IsSome, None, IfOk, OnOk, OnErr};
ghost use Rattle.std.specs.Option.{option_copied_mut};
ghost use Rattle.std.specs.Borrow.{sem};
ghost use Rattle.dm_def_map.specs.Maps.{module_at, nth_module, nth_scope, with_new_child};
ghost use Rattle.dm_def_map.specs.LendingModules.{LendsNthScope};

use crate::growth::put_last;
use crate::modules::growth::{drop_last, list_child};
use crate::modules::module_data::ModuleData;
use crate::modules::modules_map::ModulesMap;
use dm_base::ids::ModuleId;
use dm_base::name::Name;
use dm_scope::item_scope::ItemScope;
use indexmap::IndexMap;
use std::alloc::{AllocError, Global};

/// The modules of a new map: its root alone, with no room for others, since most maps are blocks' and have no other.
pub fn with_root(m: ModuleId, added: ModuleData, alloc: Global) -> Result<ModulesMap, AllocError>
    ensures { IfOk result (λ modules. modules ≡ (m, added) ∷ []) }
{
    let mut entries = IndexMap::new(alloc);
    put_last(&mut entries, m, added)?;
    entries.shrink_to_fit();
    Ok(ModulesMap { entries })
}

/// Adds a module, as a child of the one at index `i`, which has to be there.
pub fn add_child(
    modules: &mut ModulesMap,
    i: usize,
    name: Name,
    m: ModuleId,
    added: ModuleData,
) -> Result<(), AllocError>
    requires free { module_at modules.old m ≡ None }
    requires there { IsSome (nth_module modules.old i) }
    ensures ok { OnOk result (modules.new ≡ with_new_child modules.old i name m added) }
    ensures err { OnErr result (modules.new ≡ modules.old) }
{
    put_last(&mut modules.entries, m, added)?;
    match list_child(&mut modules.entries, i, name, m) {
        Ok(()) => Ok(()),
        Err(refused) => {
            drop_last(&mut modules.entries);
            Err(refused)
        }
    }
}

/// The scope of the module at index `i`, to be changed.
pub fn scope_mut(modules: &mut ModulesMap, i: usize) -> Option<&mut ItemScope>
    ensures* writes_back { sem 𝓛 (LendsNthScope modules.entry i result) }
    ensures value { option_copied_mut result ≡ nth_scope modules.old i }
{
    match modules.entries.get_index_mut(i) {
        Some(data) => Some(data.scope_mut()),
        None => None,
    }
}
