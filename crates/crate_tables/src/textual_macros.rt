//! Textual macros of a crate, defined in the scopes of a builder's modules.
ghost use Rattle.std.specs.Prelude.{◌≡◌, true, IfErr, IfOk, IsTrue, OnOk};
ghost use Rattle.crate_items.specs.TextualScopes.{name_at};
ghost use Rattle.crate_tables.specs.CrateTables.{IsTableOf};
ghost use Rattle.crate_tables.specs.TextualMacros as spec;
ghost use Rattle.crate_tables.specs.Visibilities.{id_at};
ghost use Rattle.dm_maps.specs.declared.check.held.HeldId.TheVariants as held;
ghost use Rattle.dm_maps.specs.Known.{knows};
ghost use Rattle.dm_maps.specs.declared.build_fault.BuildFault.TheVariants.{OutOfMemory};

use crate::crate_maps::parent_id;
use crate::crate_table::CrateTable;
use crate_items::items::declared_item::DeclaredItem;
use crate_items::macros::textual_scopes::{TextualMacro, TextualScope};
use dm_base::ids::{Crate, ModuleId};
use dm_base::item_ids::MacroId;
use dm_base::name::Name;
use dm_maps::build_fault::BuildFault;
use dm_maps::builder::WorldBuilder;
use std::alloc::{AllocError, Global};

/// Defines a macro in the textual scope of a module, behind those of its name.
fn define(
    builder: &mut WorldBuilder,
    m: ModuleId,
    name: Name,
    id: MacroId,
) -> Result<(), BuildFault>
    requires { IsTrue (knows builder.old (held.Module m)) }
    ensures world { OnOk result (builder.new ≡ spec.with_legacy builder.old m name id) }
    ensures stays { spec.StaysKnown builder.old builder.new }
    ensures shown { spec.AllStayShown builder.old builder.new }
    ensures fault { IfErr result (λ fault. fault ≡ OutOfMemory) }
{
    builder.scope_facts_of(m);
    let Some(scope) = builder.scope_mut(m) else {
        return Ok(());
    };
    scope.define_legacy_macro(name, id)?;
    Ok(())
}

/// The macro that the item of a number is.
pub(crate) fn macro_at(macros: &[Option<MacroId>], number: usize) -> Option<MacroId>
    ensures { result ≡ spec.macro_at macros.now number }
{
    match macros.get(number) {
        None => None,
        Some(id) => *id,
    }
}

/// A copy of the name of the item of a number.
fn name_of(alloc: Global, items: &[DeclaredItem], number: usize) -> Result<Option<Name>, AllocError>
    ensures { IfOk result (λ name. name ≡ name_at items.now number) }
{
    match items.get(number) {
        None => Ok(None),
        Some(item) => {
            let copy = crate::item_names::name_of(alloc, item)?;
            Ok(copy)
        }
    }
}

/// Defines the macro that an item is, if it is one and has a name.
fn define_item(
    builder: &mut WorldBuilder,
    alloc: Global,
    items: &[DeclaredItem],
    macros: &[Option<MacroId>],
    m: ModuleId,
    number: usize,
) -> Result<(), BuildFault>
    requires { IsTrue (knows builder.old (held.Module m)) }
    ensures world { OnOk result
        (builder.new ≡ spec.with_item items.now macros.now builder.old m number) }
    ensures stays { spec.StaysKnown builder.old builder.new }
    ensures shown { spec.AllStayShown builder.old builder.new }
    ensures fault { IfErr result (λ fault. fault ≡ OutOfMemory) }
{
    let name = name_of(alloc, items, number)?;
    match (macro_at(macros, number), name) {
        (Some(id), Some(name)) => define(builder, m, name, id),
        _ => Ok(()),
    }
}

/// Defines a macro of a textual scope.
fn define_one(
    builder: &mut WorldBuilder,
    alloc: Global,
    items: &[DeclaredItem],
    macros: &[Option<MacroId>],
    m: ModuleId,
    one: &TextualMacro,
) -> Result<(), BuildFault>
    requires { IsTrue (knows builder.old (held.Module m)) }
    ensures world { OnOk result
        (builder.new ≡ spec.with_item items.now macros.now builder.old m one.now.number) }
    ensures stays { spec.StaysKnown builder.old builder.new }
    ensures shown { spec.AllStayShown builder.old builder.new }
    ensures fault { IfErr result (λ fault. fault ≡ OutOfMemory) }
{
    define_item(builder, alloc, items, macros, m, one.number)
}

/// Defines some macros, in order.
fn define_all(
    builder: &mut WorldBuilder,
    alloc: Global,
    items: &[DeclaredItem],
    macros: &[Option<MacroId>],
    m: ModuleId,
    scope: &[TextualMacro],
) -> Result<(), BuildFault>
    requires { IsTrue (knows builder.old (held.Module m)) }
    ensures world { OnOk result
        (builder.new ≡ spec.with_textual items.now macros.now builder.old m scope.now) }
    ensures stays { spec.StaysKnown builder.old builder.new }
    ensures shown { spec.AllStayShown builder.old builder.new }
    ensures fault { IfErr result (λ fault. fault ≡ OutOfMemory) }
{
    for one in scope {
        define_one(builder, alloc, items, macros, m, one)?;
    }
    Ok(())
}

/// Defines what is in the textual scope of a module of the list, unless that was left out.
fn define_scope(
    builder: &mut WorldBuilder,
    alloc: Global,
    krate: Crate,
    table: &CrateTable,
    items: &[DeclaredItem],
    macros: &[Option<MacroId>],
    home: usize,
    scope: &TextualScope,
) -> Result<(), BuildFault>
    requires { IsTableOf builder.old krate table.now }
    ensures world { OnOk result (builder.new ≡ spec.with_scope_of items.now macros.now builder.old
        (id_at table.now.ids home) scope.now) }
    ensures stays { spec.StaysKnown builder.old builder.new }
    ensures shown { spec.AllStayShown builder.old builder.new }
    ensures fault { IfErr result (λ fault. fault ≡ OutOfMemory) }
{
    match parent_id(builder, krate, table, home) {
        None => Ok(()),
        Some(m) => define_all(builder, alloc, items, macros, m, scope.macros()),
    }
}

/// Defines in each module of a crate the macros of its textual scope, as `textual_scopes` gives them, in order. For the
/// items `add_macros` told which macro each is. Nothing else of a scope changes.
///
/// # Errors
///
/// Fails only where memory runs out. What was defined before stays.
pub fn add_textual_macros(
    builder: &mut WorldBuilder,
    alloc: Global,
    krate: Crate,
    table: &CrateTable,
    items: &[DeclaredItem],
    macros: &[Option<MacroId>],
    scopes: &[TextualScope],
) -> Result<(), BuildFault>
    requires { IsTableOf builder.old krate table.now }
    ensures world { OnOk result (builder.new ≡
        spec.with_scopes items.now macros.now table.now.ids builder.old scopes.now) }
    ensures stays { spec.StaysKnown builder.old builder.new }
    ensures shown { spec.AllStayShown builder.old builder.new }
    ensures kept { IsTableOf builder.new krate table.now }
    ensures fault { IfErr result (λ fault. fault ≡ OutOfMemory) }
{
    for (home, scope) in scopes.iter().enumerate() {
        define_scope(builder, alloc, krate, table, items, macros, home, scope)?;
    }
    Ok(())
}
