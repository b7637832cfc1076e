//! The procedural macros of a crate, added to a builder.
ghost use Rattle.std.specs.Prelude.{◌≡◌, true, IfErr, IfOk, IsTrue, OnOk};
ghost use Rattle.crate_tables.specs.CrateRoots as roots;
ghost use Rattle.crate_tables.specs.CrateTables.{IsTableOf};
ghost use Rattle.crate_tables.specs.ProceduralMacros as spec;
ghost use Rattle.dm_maps.specs.declared.check.held.HeldId.TheVariants as held;
ghost use Rattle.dm_maps.specs.Added.{IsGrown};
ghost use Rattle.dm_maps.specs.BuildItems.{with_macro};
ghost use Rattle.dm_maps.specs.Known.{knows};
ghost use Rattle.dm_maps.specs.declared.build_fault.BuildFault.TheVariants.{OutOfMemory};
ghost use Rattle.crate_tables.specs.Numbers.{has_too_many, is_shortage};

use crate::crate_macros::declare_seen;
use crate::crate_roots::root_id;
use crate::crate_table::CrateTable;
use crate::item_place::DefPlace;
use crate::new_module::CrateView;
use crate_items::items::declared_item::DeclaredItem;
use crate_items::macros::procedural_macro::{ProceduralMacro, procedural_macro};
use dm_base::ids::Crate;
use dm_base::item_ids::{MacroId, ModuleDefId};
use dm_base::macros::MacroLoc;
use dm_base::name::Name;
use dm_base::visibility::Visibility;
use dm_maps::build_fault::BuildFault;
use dm_maps::builder::WorldBuilder;
use std::alloc::{AllocError, Global};

/// The procedural macro that an item is, in the root of a crate that has such macros.
fn made_of(
    alloc: Global,
    view: &CrateView<'_>,
    item: &DeclaredItem,
) -> Result<Option<ProceduralMacro>, AllocError>
    ensures { IfOk result (λ made. made ≡ spec.made_of view.now item.now) }
{
    if view.is_macro_root(item.module) {
        procedural_macro(alloc, view.list, view.files, item)
    } else {
        Ok(None)
    }
}

/// Declares a procedural macro in the root of its crate, for all, and lists where it is written.
fn place(
    builder: &WorldBuilder,
    table: &mut CrateTable,
    krate: Crate,
    item: &DeclaredItem,
    name: Name,
    id: MacroId,
) -> Result<(), BuildFault>
    requires table { IsTableOf builder.now krate table.old }
    requires root { IsTrue (knows builder.now (held.Module (roots.root_id krate))) }
    requires id { IsTrue (knows builder.now (held.Macro id)) }
    ensures table { OnOk result (table.new ≡ spec.placed krate table.old item.now name id) }
    ensures kept { OnOk result (IsTableOf builder.now krate table.new) }
    ensures fault { IfErr result (λ fault. fault ≡ OutOfMemory) }
{
    let root = root_id(krate);
    declare_seen(
        builder,
        table,
        krate,
        root,
        Some(name),
        id,
        Visibility::Public,
    )?;
    table.push_def(DefPlace {
        def: ModuleDefId::MacroId(id),
        home: root,
        file: item.file,
        item: item.item,
    })?;
    Ok(())
}

/// Adds a procedural macro in the root of its crate.
fn add_made(
    builder: &mut WorldBuilder,
    table: &mut CrateTable,
    krate: Crate,
    item: &DeclaredItem,
    made: ProceduralMacro,
) -> Result<(), BuildFault>
    requires table { IsTableOf builder.old krate table.old }
    requires root { IsTrue (knows builder.old (held.Module (roots.root_id krate))) }
    ensures world { OnOk result (builder.new ≡ with_macro builder.old (roots.root_id krate) (spec.loc_of made)) }
    ensures table { OnOk result (table.new ≡
        spec.placed krate table.old item.now made.name (spec.next_of builder.old made)) }
    ensures kept { OnOk result (IsTableOf builder.new krate table.new) }
    ensures grown { IsGrown builder.old builder.new }
    ensures fault { IfErr result
        (λ fault. is_shortage (has_too_many (with_macro builder.old (roots.root_id krate) (spec.loc_of made)))
        fault ≡ true) }
{
    let id = builder.add_macro(root_id(krate), MacroLoc::Proc(made.kind))?;
    place(builder, table, krate, item, made.name, id)?;
    Ok(())
}

/// Adds an item, if it is a procedural macro.
fn add_one(
    builder: &mut WorldBuilder,
    table: &mut CrateTable,
    alloc: Global,
    view: &CrateView<'_>,
    item: &DeclaredItem,
) -> Result<(), BuildFault>
    requires table { IsTableOf builder.old view.now.krate table.old }
    requires root { IsTrue (knows builder.old (held.Module (roots.root_id view.now.krate))) }
    ensures added { OnOk result ((record { world = builder.new; table = table.new }) ≡
        spec.with_procedural_macro view.now (record { world = builder.old; table = table.old }) item.now) }
    ensures kept { OnOk result (IsTableOf builder.new view.now.krate table.new) }
    ensures grown { IsGrown builder.old builder.new }
    ensures fault { IfErr result
        (λ fault. is_shortage (has_too_many (spec.with_procedural_macro view.now
        (record { world = builder.old; table = table.old }) item.now).world) fault ≡ true) }
{
    let made = made_of(alloc, view, item)?;
    match made {
        None => Ok(()),
        Some(made) => add_made(builder, table, view.krate, item, made),
    }
}

/// Adds the procedural macros among the items of a crate, as `declared_items` gives them, if the crate has such macros:
/// the functions in its root that `procedural_macro` tells of. Each is declared in the root under its name, for all.
/// The function that it is stays an item like any other, which `add_items` adds.
///
/// # Errors
///
/// Fails where memory or numbers run out: `OutOfNumbers` where there are 4,294,967,295 macros. What was added before
/// stays.
pub fn add_procedural_macros(
    builder: &mut WorldBuilder,
    table: &mut CrateTable,
    alloc: Global,
    view: &CrateView<'_>,
    items: &[DeclaredItem],
) -> Result<(), BuildFault>
    requires table { IsTableOf builder.old view.now.krate table.old }
    requires root { IsTrue (knows builder.old (held.Module (roots.root_id view.now.krate))) }
    ensures added { OnOk result ((record { world = builder.new; table = table.new }) ≡
        spec.with_procedural_macros view.now (record { world = builder.old; table = table.old }) items.now) }
    ensures kept { OnOk result (IsTableOf builder.new view.now.krate table.new) }
    ensures grown { IsGrown builder.old builder.new }
    ensures fault { IfErr result
        (λ fault. is_shortage (has_too_many (spec.with_procedural_macros view.now
        (record { world = builder.old; table = table.old }) items.now).world) fault ≡ true) }
{
    for item in items {
        add_one(builder, table, alloc, view, item)?;
    }
    Ok(())
}
