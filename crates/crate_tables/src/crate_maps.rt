//! The modules of a crate, added to a builder.
ghost use Rattle.std.specs.Prelude.{◌≡◌, ◌||◌, ◌↔◌, ◌∷◌, [], true, IfErr, IfOk, IfSome, IsTrue, OnOk, Some, drop};
ghost use Rattle.crate_tables.specs.CrateMaps as spec;
ghost use Rattle.crate_tables.specs.CrateTables.{IsTableOf, left_out};
ghost use Rattle.crate_tables.specs.NewModules.{new_module, origin_of};
ghost use Rattle.crate_tables.specs.Visibilities.{id_at};
ghost use Rattle.dm_maps.specs.Holding.{vis_holds};
ghost use Rattle.dm_maps.specs.declared.check.held.HeldId.TheVariants as held;
ghost use Rattle.dm_def_map.specs.Origins.{is_child};
ghost use Rattle.dm_maps.specs.Added.{IsGrown};
ghost use Rattle.dm_base.specs.declared.ids.Crate.{Crate};
ghost use Rattle.dm_maps.specs.Known.{knows, KnowsAll};
ghost use Rattle.dm_maps.specs.declared.build_fault.BuildFault.TheVariants.{TakenChild};
ghost use Rattle.dm_maps.specs.declared.build_fault.BuildFault.TheVariants.{OutOfMemory};
ghost use Rattle.crate_tables.specs.Numbers.{has_far, has_too_many, is_past, is_shortage};

use crate::crate_table::CrateTable;
use crate::new_module::{CrateView, NewModule, origin_by};
use crate::visibilities::{id_at, known_visibility};
use crate_items::modules::declared_module::DeclaredModule;
use dm_base::ids::{Crate, ModuleId};
use dm_base::name::Name;
use dm_base::source::Edition;
use dm_base::visibility::Visibility;
use dm_maps::build_fault::BuildFault;
use dm_maps::builder::WorldBuilder;
use dm_maps::module_origin::ModuleOrigin;
use item_tree::ids::file_ast_id;
use std::alloc::{AllocError, Global};

/// Whether a name is taken.
fn is_taken(fault: BuildFault) -> bool
    ensures { IsTrue result ↔ (fault ≡ TakenChild) }
{
    match fault {
        BuildFault::TakenChild => true,
        _ => false,
    }
}

/// Adds a module below another, unless that has a child of its name, and answers its id then.
fn add_child(
    builder: &mut WorldBuilder,
    parent: ModuleId,
    name: Name,
    origin: ModuleOrigin,
    visibility: Visibility,
) -> Result<Option<ModuleId>, BuildFault>
    requires child { IsTrue (is_child origin) }
    requires known { IsTrue (knows builder.old (held.Module parent)) }
    ensures world { OnOk result (builder.new ≡ spec.child_world builder.old parent name origin visibility) }
    ensures id { IfOk result (λ id. id ≡ spec.child_id builder.old parent name) }
    ensures known { IfOk result (λ id. IfSome id (λ m. IsTrue (knows builder.new (held.Module m)))) }
    ensures grown { IsGrown builder.old builder.new }
    ensures fault { IfErr result
        (λ fault. is_shortage (has_too_many (spec.child_world builder.old parent name origin visibility))
        fault ≡ true) }
{
    match builder.add_module(parent, name, origin, visibility) {
        Ok(m) => Ok(Some(m)),
        Err(fault) => {
            if is_taken(fault) {
                Ok(None)
            } else {
                Err(fault)
            }
        }
    }
}

/// Where a module comes from, if its item has a number of 32 bits.
fn origin_of(edition: Edition, new: &NewModule) -> Result<ModuleOrigin, BuildFault>
    ensures exact { IfOk result (λ origin. origin ≡ origin_of edition new.now) }
    ensures child { IfOk result (λ origin. IsTrue (is_child origin)) }
    ensures fault { IfErr result (λ fault. is_shortage (is_past new.now.item) fault ≡ true) }
{
    match file_ast_id(new.item) {
        None => Err(BuildFault::OutOfNumbers),
        Some(item) => Ok(origin_by(edition, new.declared_in, item, new.own_file)),
    }
}

/// Adds a module below another, unless that has a child of its name, and lists it.
fn add_seen(
    builder: &mut WorldBuilder,
    table: &mut CrateTable,
    alloc: Global,
    edition: Edition,
    new: NewModule,
    parent: ModuleId,
    visibility: Visibility,
) -> Result<(), BuildFault>
    requires known { IsTrue (knows builder.old (held.Module parent)) }
    ensures world { OnOk result (builder.new ≡ (spec.with_child edition
        (record { world = builder.old; table = table.old }) new parent visibility).world) }
    ensures table { OnOk result (table.new ≡ (spec.with_child edition
        (record { world = builder.old; table = table.old }) new parent visibility).table) }
    ensures kept { (k : Crate) → IsTableOf builder.old k table.old → KnowsAll builder.old (vis_holds visibility)
        → OnOk result (IsTableOf builder.new k table.new) }
    ensures grown { IsGrown builder.old builder.new }
    ensures fault { IfErr result
        (λ fault. is_shortage (has_too_many (spec.with_child edition
        (record { world = builder.old; table = table.old }) new parent visibility).world || is_past new.item)
        fault ≡ true) }
{
    let origin = origin_of(edition, &new)?;
    let name = new.name.copy(alloc)?;
    let id = add_child(builder, parent, name, origin, visibility)?;
    table.push_module(parent, new.name, visibility, id)?;
    Ok(())
}

/// The id of the module that something stands in.
pub(crate) fn parent_id(
    builder: &WorldBuilder,
    krate: Crate,
    table: &CrateTable,
    number: usize,
) -> Option<ModuleId>
    requires { IsTableOf builder.now krate table.now }
    ensures exact { result ≡ id_at table.now.ids number }
    ensures known { IfSome result (λ m. IsTrue (knows builder.now (held.Module m))) }
{
    let _world = builder;
    id_at(table.ids(), number)
}

/// Lists a module that is left out.
fn leave_out(builder: &WorldBuilder, krate: Crate, table: &mut CrateTable) -> Result<(), BuildFault>
    requires { IsTableOf builder.now krate table.old }
    ensures exact { OnOk result (table.new ≡ left_out table.old) }
    ensures kept { OnOk result (IsTableOf builder.now krate table.new) }
    ensures fault { IfErr result (λ fault. fault ≡ OutOfMemory) }
{
    let _world = builder;
    table.push_id(None)?;
    Ok(())
}

/// Adds a module, if there is one, below the one that it stands in, if that was added.
fn add_one(
    builder: &mut WorldBuilder,
    table: &mut CrateTable,
    alloc: Global,
    view: &CrateView<'_>,
    new: Option<NewModule>,
) -> Result<(), BuildFault>
    requires { IsTableOf builder.old view.now.krate table.old }
    ensures world { OnOk result (builder.new ≡ (spec.with_one view.now
        (record { world = builder.old; table = table.old }) new).world) }
    ensures table { OnOk result (table.new ≡ (spec.with_one view.now
        (record { world = builder.old; table = table.old }) new).table) }
    ensures kept { OnOk result (IsTableOf builder.new view.now.krate table.new) }
    ensures grown { IsGrown builder.old builder.new }
    ensures fault { IfErr result
        (λ fault. is_shortage (has_too_many (spec.with_one view.now
        (record { world = builder.old; table = table.old }) new).world || spec.is_far_new new) fault ≡ true) }
{
    let Some(new) = new else {
        return leave_out(builder, view.krate, table);
    };
    match parent_id(builder, view.krate, table, new.parent) {
        None => leave_out(builder, view.krate, table),
        Some(parent) => {
            let visibility = known_visibility(
                builder,
                view.is_macro_root(new.parent),
                view.krate,
                table,
                parent,
                new.written,
                new.shown,
            );
            add_seen(builder, table, alloc, view.edition, new, parent, visibility)
        }
    }
}

/// Adds a module of the list of a crate.
fn add_declared(
    builder: &mut WorldBuilder,
    table: &mut CrateTable,
    alloc: Global,
    view: &CrateView<'_>,
    declared: &DeclaredModule,
) -> Result<(), BuildFault>
    requires { IsTableOf builder.old view.now.krate table.old }
    ensures filled { OnOk result ((record { world = builder.new; table = table.new }) ≡
        spec.with_one view.now (record { world = builder.old; table = table.old })
        (new_module view.now declared.now)) }
    ensures kept { OnOk result (IsTableOf builder.new view.now.krate table.new) }
    ensures grown { IsGrown builder.old builder.new }
    ensures fault { IfErr result
        (λ fault. is_shortage (has_too_many (spec.with_one view.now
        (record { world = builder.old; table = table.old }) (new_module view.now declared.now)).world
        || spec.is_far_new (new_module view.now declared.now)) fault ≡ true) }
{
    let new = view.new_module(alloc, declared)?;
    add_one(builder, table, alloc, view, new)
}

/// The modules of a list but its first, the root.
fn below_root(modules: &[DeclaredModule]) -> &[DeclaredModule]
    ensures { result.now ≡ drop 1 modules.now }
{
    match modules.split_first() {
        None => &[],
        Some((_root, below)) => below,
    }
}

/// The table of a crate that has its root alone.
fn root_alone(
    builder: &WorldBuilder,
    alloc: Global,
    krate: Crate,
    root: ModuleId,
) -> Result<CrateTable, AllocError>
    requires krate { IsTrue (knows builder.now (held.Crate krate)) }
    requires root { IsTrue (knows builder.now (held.Module root)) }
    ensures exact { IfOk result (λ table. table ≡ spec.root_alone root) }
    ensures kept { IfOk result (IsTableOf builder.now krate) }
{
    let _world = builder;
    let mut table = CrateTable::new(alloc);
    table.push_id(Some(root))?;
    Ok(table)
}

/// Adds the modules of a crate below its root, in the order of the list, each with its name, its origin and its
/// visibility. Answers the id of each module of the list, and with what name each is declared in its parent. Where a
/// module has two of a name, the second is left out, and so is what stands in it.
///
/// # Errors
///
/// Fails where memory or numbers run out: `OutOfNumbers` where there are 4,294,967,295 modules, or more items in a file.
/// Modules that were added before stay.
pub fn add_modules(
    builder: &mut WorldBuilder,
    alloc: Global,
    view: &CrateView<'_>,
    root: ModuleId,
) -> Result<CrateTable, BuildFault>
    requires krate { IsTrue (knows builder.old (held.Crate view.now.krate)) }
    requires root { IsTrue (knows builder.old (held.Module root)) }
    ensures world { IfOk result (λ table. builder.new ≡ (spec.with_crate_modules view.now builder.old root).world) }
    ensures table { IfOk result (λ table. table ≡ (spec.with_crate_modules view.now builder.old root).table) }
    ensures kept { IfOk result (IsTableOf builder.new view.now.krate) }
    ensures grown { IsGrown builder.old builder.new }
    ensures fault { IfErr result
        (λ fault. is_shortage (has_too_many (spec.with_crate_modules view.now builder.old root).world
        || has_far view.now.list) fault ≡ true) }
{
    let mut table = root_alone(builder, alloc, view.krate, root)?;
    for declared in below_root(view.list.modules()) {
        add_declared(builder, &mut table, alloc, view, declared)?;
    }
    Ok(table)
}
