//! Building a def map, for the crates of this repository that do: how one begins, grows, is changed, and is read whole.
ghost use Rattle.std.specs.Prelude.{◌≡◌, false, None, IsOk, IsSome, IfOk, OnOk, OnErr};
ghost use Rattle.std.specs.Option.{option_copied, option_copied_mut};
ghost use Rattle.std.specs.Borrow.{sem};
ghost use Rattle.dm_def_map.specs.Maps.{module_at, nth_module, nth_scope, fresh_map, map_with_child};
ghost use Rattle.dm_def_map.specs.LendingMap.{LendsMapScope};
ghost use Rattle.dm_def_map.specs.MapChanges.{changed, grows};

use crate::crate_data::CrateData;
use crate::def_map::DefMap;
use crate::item_tables::derive_helpers::{DeriveHelpers, add_helper};
use crate::item_tables::keyed_tables::put_macro_def;
use crate::map_change::MapChange;
use crate::modules::building;
use crate::modules::module_data::ModuleData;
use dm_base::ids::{ExternCrateId, MapId, ModuleId};
use dm_base::item_ids::MacroId;
use dm_base::name::Name;
use dm_base::source::{AstId, Edition};
use dm_scope::item_scope::ItemScope;
use indexmap::IndexMap;
use std::alloc::{AllocError, Global};
use std::rc::Rc;

/// A new def map, with its root alone, and the data that all def maps of its crate share.
pub fn with_root(
    id: MapId,
    edition: Edition,
    parent: Option<ModuleId>,
    root: ModuleId,
    added: ModuleData,
    shared: Rc<CrateData>,
    alloc: Global,
) -> Result<DefMap, AllocError>
    ensures { IfOk result
        (λ map. map ≡ record (fresh_map id edition parent root added) { shared = shared.value }) }
{
    let modules = building::with_root(root, added, alloc)?;
    Ok(DefMap {
        id,
        edition,
        root,
        parent,
        modules,
        prelude: None,
        macro_use_prelude: IndexMap::new(alloc),
        macro_defs: IndexMap::new(alloc),
        derive_helpers: IndexMap::new(alloc),
        diagnostics: Vec::new(alloc),
        shared,
    })
}

/// Adds a module, as a child of the one at index `i`, which has to be there.
pub fn add_child(
    map: &mut DefMap,
    i: usize,
    name: Name,
    m: ModuleId,
    added: ModuleData,
) -> Result<(), AllocError>
    requires free { module_at map.old.modules m ≡ None }
    requires there { IsSome (nth_module map.old.modules i) }
    ensures ok { OnOk result (map.new ≡ map_with_child map.old i name m added) }
    ensures err { OnErr result (map.new ≡ map.old) }
{
    building::add_child(&mut map.modules, i, name, m, added)?;
    Ok(())
}

/// Makes a change.
pub fn change(map: &mut DefMap, change: MapChange, alloc: Global) -> Result<(), AllocError>
    ensures ok { OnOk result (map.new ≡ changed change map.old) }
    ensures err { OnErr result (map.new ≡ map.old) }
    ensures free { grows change ≡ false → IsOk result }
{
    match change {
        MapChange::Prelude(named) => map.prelude = named,
        MapChange::MacroUse(name, entry) => {
            map.macro_use_prelude.insert(name, entry)?;
        }
        MapChange::MacroDef(ast, m) => {
            put_macro_def(&mut map.macro_defs, ast, m)?;
        }
        MapChange::Helper(ast, helper) => {
            add_helper(&mut map.derive_helpers, ast, helper, alloc)?;
        }
        MapChange::Diagnostic(diagnostic) => {
            map.diagnostics.push(diagnostic)?;
        }
    }
    Ok(())
}

/// Gives back memory that the tables of a map do not need, where a smaller place can be had. The contents stay. The
/// scopes of its modules keep theirs.
pub fn shrink_to_fit(map: &mut DefMap)
    ensures { map.new ≡ map.old }
{
    map.modules.shrink_to_fit();
    map.macro_use_prelude.shrink_to_fit();
    map.macro_defs.shrink_to_fit();
    map.derive_helpers.shrink_to_fit();
    map.diagnostics.shrink_to_fit();
}

/// The module at index `i`, counted from the root.
pub fn nth(map: &DefMap, i: usize) -> Option<&ModuleData>
    ensures { option_copied result ≡ nth_module map.now.modules i }
{
    map.modules.nth(i)
}

/// The macro that each AST item defines.
pub fn macro_defs(map: &DefMap) -> &IndexMap<AstId, MacroId>
    ensures { result.now.entries ≡ map.now.macro_defs }
{
    &map.macro_defs
}

/// The derive helpers on each AST item.
pub fn derive_helpers(map: &DefMap) -> &IndexMap<AstId, DeriveHelpers>
    ensures { result.now.entries ≡ map.now.derive_helpers }
{
    &map.derive_helpers
}

/// The `#[macro_use]` prelude.
pub fn macro_uses(map: &DefMap) -> &IndexMap<Name, (MacroId, Option<ExternCrateId>)>
    ensures { result.now.entries ≡ map.now.macro_use }
{
    &map.macro_use_prelude
}

/// The scope of the module at index `i`, to be changed.
pub fn scope_mut(map: &mut DefMap, i: usize) -> Option<&mut ItemScope>
    ensures* writes_back { sem 𝓛 (LendsMapScope map.entry i result) }
    ensures value { option_copied_mut result ≡ nth_scope map.old.modules i }
{
    building::scope_mut(&mut map.modules, i)
}

/// The data that all def maps of the crate share.
pub fn shared(map: &DefMap) -> &Rc<CrateData>
    ensures { result.now.value ≡ map.now.shared }
{
    map.shared()
}

/// Replaces the shared data.
pub fn set_shared(map: &mut DefMap, shared: Rc<CrateData>)
    ensures { map.new ≡ record map.old { shared = shared.value } }
{
    map.shared = shared;
}
