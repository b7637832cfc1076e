//! The macros of a crate, added to a builder.
ghost use Rattle.std.specs.Prelude.{◌≡◌, ◌++◌, ◌∷◌, [], None, Some, true, All, IfErr, IfOk, IsTrue, OnOk, length};
ghost use Rattle.crate_tables.specs.CrateMacros as spec;
ghost use Rattle.crate_tables.specs.CrateRoots as roots;
ghost use Rattle.crate_tables.specs.CrateTables.{IsMacroOf, IsTableOf, with_named};
ghost use Rattle.dm_base.specs.PerNs.{macro_alone};
ghost use Rattle.dm_maps.specs.Holding.{vis_holds};
ghost use Rattle.dm_maps.specs.declared.check.held.HeldId.TheVariants as held;
ghost use Rattle.dm_maps.specs.Added.{IsGrown};
ghost use Rattle.dm_maps.specs.BuildItems.{with_macro};
ghost use Rattle.dm_maps.specs.Known.{knows, KnowsAll};
ghost use Rattle.dm_maps.specs.declared.build_fault.BuildFault.TheVariants.{OutOfMemory};
ghost use Rattle.crate_tables.specs.Numbers.{has_too_many, is_shortage};

use crate::crate_defs::item_visibility;
use crate::crate_maps::parent_id;
use crate::crate_roots::root_id;
use crate::crate_table::CrateTable;
use crate::item_names::name_of;
use crate::item_place::DefPlace;
use crate::new_module::CrateView;
use crate::visibilities::known_public;
use crate_items::items::declared_item::DeclaredItem;
use crate_items::macros::builtin_macro::macro_expander;
use crate_items::macros::declared_macro::is_macro_exported;
use dm_base::ids::{Crate, ModuleId};
use dm_base::item_ids::{MacroId, ModuleDefId};
use dm_base::macros::{MacroExpander, MacroLoc};
use dm_base::name::Name;
use dm_base::per_ns::PerNs;
use dm_base::visibility::Visibility;
use dm_maps::build_fault::BuildFault;
use dm_maps::builder::WorldBuilder;
use item_tree::items::item_kind::ItemKind;
use std::alloc::{AllocError, Global};

/// Whether an item is a macro.
pub(crate) fn is_macro(kind: ItemKind) -> bool
    ensures { result ≡ spec.is_macro kind }
{
    matches!(kind, ItemKind::MacroRules | ItemKind::Macro2)
}

/// What a macro is, by the kind of its item and by how it is expanded.
fn loc_of(kind: ItemKind, expander: MacroExpander) -> Option<MacroLoc>
    ensures { result ≡ spec.loc_of kind expander }
{
    match kind {
        ItemKind::MacroRules => Some(MacroLoc::MacroRules(expander)),
        ItemKind::Macro2 => Some(MacroLoc::Macro2(expander)),
        _ => None,
    }
}

/// What an item is, if it is a macro. The attributes of other items are not looked at.
fn macro_loc(
    alloc: Global,
    view: &CrateView<'_>,
    item: &DeclaredItem,
) -> Result<Option<MacroLoc>, AllocError>
    ensures { IfOk result (λ loc. loc ≡ spec.macro_loc view.now item.now) }
{
    if is_macro(item.kind) {
        let expander = macro_expander(alloc, view.list, view.files, item)?;
        Ok(loc_of(item.kind, expander))
    } else {
        Ok(None)
    }
}

/// Lists what an item is.
fn push_id(ids: &mut Vec<Option<MacroId>>, id: Option<MacroId>) -> Result<(), AllocError>
    ensures { OnOk result (ids.new.items ≡ ids.old.items ++ id ∷ []) }
{
    ids.push(id)?;
    Ok(())
}

/// Declares a macro in a module, seen so.
pub(crate) fn declare_seen(
    builder: &WorldBuilder,
    table: &mut CrateTable,
    krate: Crate,
    m: ModuleId,
    name: Option<Name>,
    id: MacroId,
    visibility: Visibility,
) -> Result<(), BuildFault>
    requires table { IsTableOf builder.now krate table.old }
    requires home { IsTrue (knows builder.now (held.Module m)) }
    requires id { IsTrue (knows builder.now (held.Macro id)) }
    requires seen { KnowsAll builder.now (vis_holds visibility) }
    ensures table { OnOk result
        (table.new ≡ with_named table.old m name (macro_alone id visibility None)) }
    ensures kept { OnOk result (IsTableOf builder.now krate table.new) }
    ensures fault { IfErr result (λ fault. fault ≡ OutOfMemory) }
{
    let _world = builder;
    table.push_named(m, name, PerNs::macros(id, visibility, None))?;
    Ok(())
}

/// Declares a macro in the root of its crate, if it is exported.
fn export(
    builder: &WorldBuilder,
    table: &mut CrateTable,
    alloc: Global,
    view: &CrateView<'_>,
    item: &DeclaredItem,
    id: MacroId,
) -> Result<(), BuildFault>
    requires table { IsTableOf builder.now view.now.krate table.old }
    requires root { IsTrue (knows builder.now (held.Module (roots.root_id view.now.krate))) }
    requires id { IsTrue (knows builder.now (held.Macro id)) }
    ensures table { OnOk result (table.new ≡ spec.exported view.now table.old item.now id) }
    ensures kept { OnOk result (IsTableOf builder.now view.now.krate table.new) }
    ensures fault { IfErr result (λ fault. fault ≡ OutOfMemory) }
{
    if is_macro_exported(alloc, view.list, item)? {
        let name = name_of(alloc, item)?;
        let krate = view.krate;
        let visibility = known_public(builder, view.is_proc_macro, krate, table);
        declare_seen(builder, table, krate, root_id(krate), name, id, visibility)
    } else {
        Ok(())
    }
}

/// Declares a macro in its module.
fn declare_in(
    builder: &WorldBuilder,
    table: &mut CrateTable,
    alloc: Global,
    view: &CrateView<'_>,
    item: &DeclaredItem,
    m: ModuleId,
    id: MacroId,
) -> Result<(), BuildFault>
    requires table { IsTableOf builder.now view.now.krate table.old }
    requires home { IsTrue (knows builder.now (held.Module m)) }
    requires id { IsTrue (knows builder.now (held.Macro id)) }
    ensures table { OnOk result (table.new ≡ spec.declared_in view.now table.old item.now m id) }
    ensures kept { OnOk result (IsTableOf builder.now view.now.krate table.new) }
    ensures fault { IfErr result (λ fault. fault ≡ OutOfMemory) }
{
    let visibility = item_visibility(builder, table, view, item, m);
    let name = name_of(alloc, item)?;
    declare_seen(builder, table, view.krate, m, name, id, visibility)
}

/// Declares a macro where its kind is declared.
fn declare(
    builder: &WorldBuilder,
    table: &mut CrateTable,
    alloc: Global,
    view: &CrateView<'_>,
    item: &DeclaredItem,
    m: ModuleId,
    id: MacroId,
) -> Result<(), BuildFault>
    requires table { IsTableOf builder.now view.now.krate table.old }
    requires root { IsTrue (knows builder.now (held.Module (roots.root_id view.now.krate))) }
    requires home { IsTrue (knows builder.now (held.Module m)) }
    requires id { IsTrue (knows builder.now (held.Macro id)) }
    ensures table { OnOk result
        (table.new ≡ spec.declared_as view.now table.old item.now m id item.now.kind) }
    ensures kept { OnOk result (IsTableOf builder.now view.now.krate table.new) }
    ensures fault { IfErr result (λ fault. fault ≡ OutOfMemory) }
{
    match item.kind {
        ItemKind::MacroRules => export(builder, table, alloc, view, item, id),
        _ => declare_in(builder, table, alloc, view, item, m, id),
    }
}

/// Adds a macro of a module, declares it, and lists where it is written.
fn add_as(
    builder: &mut WorldBuilder,
    table: &mut CrateTable,
    alloc: Global,
    view: &CrateView<'_>,
    item: &DeclaredItem,
    m: ModuleId,
    loc: MacroLoc,
) -> Result<MacroId, BuildFault>
    requires table { IsTableOf builder.old view.now.krate table.old }
    requires root { IsTrue (knows builder.old (held.Module (roots.root_id view.now.krate))) }
    requires home { IsTrue (knows builder.old (held.Module m)) }
    ensures world { OnOk result (builder.new ≡ with_macro builder.old m loc) }
    ensures table { OnOk result (table.new ≡
        spec.placed_as view.now table.old item.now m (spec.next_macro builder.old loc)) }
    ensures id { IfOk result (λ id. id ≡ spec.next_macro builder.old loc) }
    ensures known { IfOk result (λ id. IsTrue (knows builder.new (held.Macro id))) }
    ensures kept { OnOk result (IsTableOf builder.new view.now.krate table.new) }
    ensures grown { IsGrown builder.old builder.new }
    ensures fault { IfErr result (λ fault. is_shortage (has_too_many (with_macro builder.old m loc)) fault ≡ true) }
{
    let id = builder.add_macro(m, loc)?;
    declare(builder, table, alloc, view, item, m, id)?;
    table.push_def(DefPlace {
        def: ModuleDefId::MacroId(id),
        home: m,
        file: item.file,
        item: item.item,
    })?;
    Ok(id)
}

/// Adds a macro, unless its module was left out.
fn add_in(
    builder: &mut WorldBuilder,
    table: &mut CrateTable,
    ids: &mut Vec<Option<MacroId>>,
    alloc: Global,
    view: &CrateView<'_>,
    item: &DeclaredItem,
    loc: MacroLoc,
) -> Result<(), BuildFault>
    requires table { IsTableOf builder.old view.now.krate table.old }
    requires root { IsTrue (knows builder.old (held.Module (roots.root_id view.now.krate))) }
    requires ids { All (IsMacroOf builder.old) ids.old.items }
    ensures added { OnOk result ((record { world = builder.new; table = table.new; ids = ids.new.items }) ≡
        spec.added_by view.now (record { world = builder.old; table = table.old; ids = ids.old.items })
        item.now (Some loc)) }
    ensures kept { OnOk result (IsTableOf builder.new view.now.krate table.new) }
    ensures ids { OnOk result (All (IsMacroOf builder.new) ids.new.items) }
    ensures grown { IsGrown builder.old builder.new }
    ensures fault { IfErr result
        (λ fault. is_shortage (has_too_many (spec.added_by view.now
        (record { world = builder.old; table = table.old; ids = ids.old.items }) item.now (Some loc)).world)
        fault ≡ true) }
{
    match parent_id(builder, view.krate, table, item.module) {
        None => {
            push_id(ids, None)?;
            Ok(())
        }
        Some(m) => {
            let id = add_as(builder, table, alloc, view, item, m, loc)?;
            push_id(ids, Some(id))?;
            Ok(())
        }
    }
}

/// Adds an item, if it is a macro.
fn add_one(
    builder: &mut WorldBuilder,
    table: &mut CrateTable,
    ids: &mut Vec<Option<MacroId>>,
    alloc: Global,
    view: &CrateView<'_>,
    item: &DeclaredItem,
) -> Result<(), BuildFault>
    requires table { IsTableOf builder.old view.now.krate table.old }
    requires root { IsTrue (knows builder.old (held.Module (roots.root_id view.now.krate))) }
    requires ids { All (IsMacroOf builder.old) ids.old.items }
    ensures added { OnOk result ((record { world = builder.new; table = table.new; ids = ids.new.items }) ≡
        spec.with_macro_item view.now (record { world = builder.old; table = table.old; ids = ids.old.items })
        item.now) }
    ensures kept { OnOk result (IsTableOf builder.new view.now.krate table.new) }
    ensures ids { OnOk result (All (IsMacroOf builder.new) ids.new.items) }
    ensures grown { IsGrown builder.old builder.new }
    ensures fault { IfErr result
        (λ fault. is_shortage (has_too_many (spec.with_macro_item view.now
        (record { world = builder.old; table = table.old; ids = ids.old.items }) item.now).world)
        fault ≡ true) }
{
    match macro_loc(alloc, view, item)? {
        None => {
            push_id(ids, None)?;
            Ok(())
        }
        Some(loc) => add_in(builder, table, ids, alloc, view, item, loc),
    }
}

/// Adds the macros among the items of a crate, as `declared_items` gives them, each in its module. One by `macro` is
/// declared there under its name; one by `macro_rules!` only where it is exported, and then in the root of the crate,
/// as what is public there. Answers for each item the macro of these that it is: a procedural macro is none.
///
/// # Errors
///
/// Fails where memory or numbers run out: `OutOfNumbers` where there are 4,294,967,295 macros. What was added before stays.
pub fn add_macros(
    builder: &mut WorldBuilder,
    table: &mut CrateTable,
    alloc: Global,
    view: &CrateView<'_>,
    items: &[DeclaredItem],
) -> Result<Vec<Option<MacroId>>, BuildFault>
    requires table { IsTableOf builder.old view.now.krate table.old }
    requires root { IsTrue (knows builder.old (held.Module (roots.root_id view.now.krate))) }
    ensures added { IfOk result (λ ids.
        (record { world = builder.new; table = table.new; ids = ids.items }) ≡
        spec.with_macros view.now (record { world = builder.old; table = table.old; ids = [] }) items.now) }
    ensures kept { OnOk result (IsTableOf builder.new view.now.krate table.new) }
    ensures known { IfOk result (λ ids. All (IsMacroOf builder.new) ids.items) }
    ensures grown { IsGrown builder.old builder.new }
    ensures fault { IfErr result
        (λ fault. is_shortage (has_too_many (spec.with_macros view.now
        (record { world = builder.old; table = table.old; ids = [] }) items.now).world) fault ≡ true) }
{
    let mut ids = Vec::new(alloc);
    for item in items {
        add_one(builder, table, &mut ids, alloc, view, item)?;
    }
    Ok(ids)
}
