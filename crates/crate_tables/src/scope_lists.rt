//! The lists of scopes: the definitions of each module, and its constants without a name.
ghost use Rattle.std.specs.Prelude.{◌≡◌, true, IfErr, IsTrue, OnOk};
ghost use Rattle.crate_tables.specs.CrateTables.{IsTableOf};
ghost use Rattle.crate_tables.specs.Visibilities.{id_at as home_of};
ghost use Rattle.crate_tables.specs.ScopeLists as spec;
ghost use Rattle.crate_tables.specs.TextualMacros.{AllStayShown, StaysKnown};
ghost use Rattle.dm_maps.specs.declared.check.held.HeldId.TheVariants as held;
ghost use Rattle.dm_maps.specs.Known.{knows};
ghost use Rattle.dm_maps.specs.declared.build_fault.BuildFault.TheVariants.{OutOfMemory};

use crate::crate_maps::parent_id;
use crate::crate_table::CrateTable;
use crate::def_index::DefIndex;
use crate::item_outline::ItemOutline;
use crate::module_index::ModuleIndex;
use crate::scope_entry::{ScopeEntry, list_entry};
use crate::visibilities::id_at;
use crate_items::modules::declared_module::DeclaredModule;
use dm_base::ids::{Crate, ModuleId};
use dm_base::item_ids::ModuleDefId;
use dm_maps::build_fault::BuildFault;
use dm_maps::builder::WorldBuilder;
use item_tree::items::item_kind::ItemKind;
use std::alloc::Global;

/// Lists a definition in a module: by its name, or as a constant that has none.
fn list_def(
    builder: &mut WorldBuilder,
    m: ModuleId,
    is_named: bool,
    def: ModuleDefId,
) -> Result<(), BuildFault>
    requires { IsTrue (knows builder.old (held.Module m)) }
    ensures world { OnOk result (builder.new ≡ spec.listed_as builder.old m is_named def) }
    ensures stays { StaysKnown builder.old builder.new }
    ensures shown { AllStayShown builder.old builder.new }
    ensures fault { IfErr result (λ fault. fault ≡ OutOfMemory) }
{
    if is_named {
        list_entry(builder, m, ScopeEntry::Declaration(def))
    } else {
        match def {
            ModuleDefId::ConstId(id) => list_entry(builder, m, ScopeEntry::UnnamedConst(id)),
            _ => Ok(()),
        }
    }
}

/// The module of a number, unless it was left out.
fn module_at(ids: &[Option<ModuleId>], number: Option<usize>) -> Option<ModuleDefId>
    ensures { result ≡ spec.module_at ids.now number }
{
    match number {
        None => None,
        Some(number) => match id_at(ids, number) {
            None => None,
            Some(m) => Some(ModuleDefId::ModuleId(m)),
        },
    }
}

fn is_mod(kind: ItemKind) -> bool
    ensures { result ≡ spec.is_mod kind }
{
    matches!(kind, ItemKind::Mod)
}

/// The definition that an item of a module is.
fn def_of(
    index: &ModuleIndex<'_>,
    defs: &DefIndex<'_>,
    table: &CrateTable,
    outline: ItemOutline,
    m: ModuleId,
) -> Option<ModuleDefId>
    requires { defs.now ≡ table.now.defs }
    ensures { result ≡ spec.def_of index.now table.now outline m }
{
    if is_mod(outline.kind) {
        module_at(table.ids(), index.declared_by(outline))
    } else {
        defs.def_at(m, outline.file, outline.item)
    }
}

/// Declares the procedural macro that a function is, if it is one.
fn declare_macro(
    builder: &mut WorldBuilder,
    m: ModuleId,
    id: Option<ModuleDefId>,
) -> Result<(), BuildFault>
    requires { IsTrue (knows builder.old (held.Module m)) }
    ensures world { OnOk result (builder.new ≡ spec.with_macro builder.old m id) }
    ensures stays { StaysKnown builder.old builder.new }
    ensures shown { AllStayShown builder.old builder.new }
    ensures fault { IfErr result (λ fault. fault ≡ OutOfMemory) }
{
    match id {
        None => Ok(()),
        Some(id) => list_entry(builder, m, ScopeEntry::Declaration(id)),
    }
}

/// Lists a procedural macro, if there is one, and behind it a definition.
fn list_both(
    builder: &mut WorldBuilder,
    m: ModuleId,
    id: Option<ModuleDefId>,
    is_named: bool,
    def: Option<ModuleDefId>,
) -> Result<(), BuildFault>
    requires { IsTrue (knows builder.old (held.Module m)) }
    ensures world { OnOk result (builder.new ≡ spec.listed_if (spec.with_macro builder.old m id) m is_named def) }
    ensures stays { StaysKnown builder.old builder.new }
    ensures shown { AllStayShown builder.old builder.new }
    ensures fault { IfErr result (λ fault. fault ≡ OutOfMemory) }
{
    declare_macro(builder, m, id)?;
    match def {
        None => Ok(()),
        Some(def) => list_def(builder, m, is_named, def),
    }
}

/// Lists what an item is in its module, unless that was left out.
fn list_item(
    builder: &mut WorldBuilder,
    index: &ModuleIndex<'_>,
    defs: &DefIndex<'_>,
    krate: Crate,
    table: &CrateTable,
    outline: ItemOutline,
) -> Result<(), BuildFault>
    requires table { IsTableOf builder.old krate table.now }
    requires defs { defs.now ≡ table.now.defs }
    ensures world { OnOk result (builder.new ≡ spec.with_listed index.now table.now builder.old outline
        (home_of table.now.ids outline.home)) }
    ensures stays { StaysKnown builder.old builder.new }
    ensures shown { AllStayShown builder.old builder.new }
    ensures fault { IfErr result (λ fault. fault ≡ OutOfMemory) }
{
    match parent_id(builder, krate, table, outline.home) {
        None => Ok(()),
        Some(m) => {
            let id = defs.macro_at(m, outline.file, outline.item);
            let def = def_of(index, defs, table, outline, m);
            list_both(builder, m, id, outline.is_named, def)
        }
    }
}

/// Lists what some items are, in order, whose definitions the table has.
fn list_all(
    builder: &mut WorldBuilder,
    index: &ModuleIndex<'_>,
    defs: &DefIndex<'_>,
    krate: Crate,
    table: &CrateTable,
    outlines: &[ItemOutline],
) -> Result<(), BuildFault>
    requires table { IsTableOf builder.old krate table.now }
    requires defs { defs.now ≡ table.now.defs }
    ensures world { OnOk result
        (builder.new ≡ spec.with_scope_lists index.now table.now builder.old outlines.now) }
    ensures stays { StaysKnown builder.old builder.new }
    ensures shown { AllStayShown builder.old builder.new }
    ensures kept { IsTableOf builder.new krate table.now }
    ensures fault { IfErr result (λ fault. fault ≡ OutOfMemory) }
{
    for outline in outlines {
        list_item(builder, index, defs, krate, table, *outline)?;
    }
    Ok(())
}

/// Puts the definitions of a crate into the lists of their modules, in the order of its items: what has a name is declared,
/// and a constant without one is listed among the unnamed. A procedural macro is declared right before the function that
/// it is. Nothing else of a scope changes.
///
/// The table has what was added for these items, and its definitions are indexed.
///
/// # Errors
///
/// Fails only where memory runs out. What was listed before stays.
pub(crate) fn list_definitions(
    builder: &mut WorldBuilder,
    alloc: Global,
    modules: &[DeclaredModule],
    krate: Crate,
    table: &CrateTable,
    defs: &DefIndex<'_>,
    outlines: &[ItemOutline],
) -> Result<(), BuildFault>
    requires table { IsTableOf builder.old krate table.now }
    requires defs { defs.now ≡ table.now.defs }
    ensures world { OnOk result
        (builder.new ≡ spec.with_scope_lists modules.now table.now builder.old outlines.now) }
    ensures stays { StaysKnown builder.old builder.new }
    ensures shown { AllStayShown builder.old builder.new }
    ensures kept { IsTableOf builder.new krate table.now }
    ensures fault { IfErr result (λ fault. fault ≡ OutOfMemory) }
{
    let index = ModuleIndex::of(alloc, modules)?;
    list_all(builder, &index, defs, krate, table, outlines)
}
