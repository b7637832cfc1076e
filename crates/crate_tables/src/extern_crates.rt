//! The extern crates of a crate, added to a builder: what each links, and under which name.
ghost use Rattle.std.specs.Prelude.{◌≡◌, ◌++◌, ◌∷◌, [], true, IfErr, IfOk, IfSome, IsTrue, OnOk, length};
ghost use Rattle.crate_items.specs.DeclaredItems.{linked_crate};
ghost use Rattle.crate_tables.specs.CrateTables.{IsTableOf};
ghost use Rattle.crate_tables.specs.ExternCrates as spec;
ghost use Rattle.dm_maps.specs.declared.check.held.HeldId.TheVariants as held;
ghost use Rattle.dm_base.specs.declared.ids.Crate.{Crate};
ghost use Rattle.dm_maps.specs.Added.{IsGrown};
ghost use Rattle.dm_maps.specs.Known.{knows, KnowsAll};
ghost use Rattle.dm_maps.specs.declared.build_fault.BuildFault.TheVariants.{OutOfMemory};
ghost use Rattle.crate_tables.specs.Numbers.{is_past, is_shortage};

use crate::crate_defs::item_visibility;
use crate::crate_maps::parent_id;
use crate::crate_roots::root_id;
use crate::crate_table::CrateTable;
use crate::item_names::name_of;
use crate::new_module::CrateView;
use crate_items::files::dependency::Dependency;
use crate_items::items::declared_item::{DeclaredItem, LinkedCrate, linked_crate};
use dm_base::ids::{Crate, ExternCrateId, FileId, ModuleId};
use dm_base::imports::ImportOrExternCrate;
use dm_base::item_ids::ModuleDefId;
use dm_base::name::Name;
use dm_base::per_ns::PerNs;
use dm_maps::build_fault::BuildFault;
use dm_maps::builder::WorldBuilder;
use item_tree::items::item_kind::ItemKind;
use std::alloc::{AllocError, Global};

/// An `extern crate` of a builder, and the root of the crate that it is of. There is none where no crate is known by the
/// name, which is an error.
#[derive(Clone, Copy, PartialEq, Eq, Debug)]
pub struct ExternCrateRow {
    /// The module that it stands in.
    pub home: ModuleId,
    /// The file of that module, and the number of the item in its tree.
    pub file: FileId,
    pub item: usize,
    pub root: Option<ModuleId>,
}

fn is_extern_crate(kind: ItemKind) -> bool
    ensures { result ≡ spec.is_extern_crate kind }
{
    matches!(kind, ItemKind::ExternCrate)
}

/// The root of the first dependency of a name.
fn root_named(dependencies: &[Dependency], name: &Name) -> Option<ModuleId>
    ensures { result ≡ spec.root_named dependencies.now name.now }
{
    match dependencies
        .iter()
        .find(|dependency| dependency.name == *name)
    {
        None => None,
        Some(dependency) => Some(root_id(dependency.crate_id)),
    }
}

/// The root of the crate that something links, if that is known.
fn linked_root(
    krate: Crate,
    dependencies: &[Dependency],
    linked: Option<LinkedCrate>,
) -> Option<ModuleId>
    ensures { result ≡ spec.linked_root krate dependencies.now linked }
{
    match linked {
        None => None,
        Some(LinkedCrate::Itself) => Some(root_id(krate)),
        Some(LinkedCrate::Named(name)) => root_named(dependencies, &name),
    }
}

/// The same in a builder that knows these roots.
fn known_root(
    builder: &WorldBuilder,
    krate: Crate,
    dependencies: &[Dependency],
    linked: Option<LinkedCrate>,
) -> Option<ModuleId>
    requires { KnowsAll builder.now (spec.linkable krate dependencies.now) }
    ensures exact { result ≡ spec.linked_root krate dependencies.now linked }
    ensures known { IfSome result (λ m. IsTrue (knows builder.now (held.Module m))) }
{
    let _world = builder;
    linked_root(krate, dependencies, linked)
}

/// The number of the next extern crate of the world.
fn next_extern(rows: &[ExternCrateRow]) -> Result<ExternCrateId, BuildFault>
    ensures exact { IfOk result (λ id. id ≡ spec.next_extern rows.now) }
    ensures fault { IfErr result (λ fault. is_shortage (is_past (length rows.now)) fault ≡ true) }
{
    match u32::try_from(rows.len()) {
        Ok(number) => Ok(ExternCrateId(number)),
        Err(_) => Err(BuildFault::OutOfNumbers),
    }
}

/// Lists an extern crate.
fn push_row(rows: &mut Vec<ExternCrateRow>, row: ExternCrateRow) -> Result<(), AllocError>
    ensures { OnOk result (rows.new.items ≡ rows.old.items ++ row ∷ []) }
{
    rows.push(row)?;
    Ok(())
}

/// Puts a name, if there is one, into the extern prelude of a crate.
fn put_entry(
    builder: &mut WorldBuilder,
    krate: Crate,
    name: Option<Name>,
    root: ModuleId,
    id: ExternCrateId,
) -> Result<(), BuildFault>
    requires { IsTrue (knows builder.old (held.Crate krate)) }
    ensures world { OnOk result (builder.new ≡ spec.with_entry builder.old krate name root id) }
    ensures grown { IsGrown builder.old builder.new }
    ensures fault { IfErr result (λ fault. fault ≡ OutOfMemory) }
{
    match name {
        None => Ok(()),
        Some(name) => {
            builder.add_extern(krate, name, root, Some(id))?;
            Ok(())
        }
    }
}

/// Puts the name of an extern crate into the extern prelude, if it stands in the root of its crate.
fn enter(
    builder: &mut WorldBuilder,
    alloc: Global,
    krate: Crate,
    item: &DeclaredItem,
    root: ModuleId,
    id: ExternCrateId,
) -> Result<(), BuildFault>
    requires { IsTrue (knows builder.old (held.Crate krate)) }
    ensures world { OnOk result (builder.new ≡ spec.entered builder.old krate item.now root id) }
    ensures grown { IsGrown builder.old builder.new }
    ensures fault { IfErr result (λ fault. fault ≡ OutOfMemory) }
{
    if item.module == 0 {
        let name = name_of(alloc, item)?;
        put_entry(builder, krate, name, root, id)
    } else {
        Ok(())
    }
}

/// Declares the root of a crate in a module, as a type that an extern crate brings.
fn declare_root(
    builder: &WorldBuilder,
    table: &mut CrateTable,
    alloc: Global,
    view: &CrateView<'_>,
    item: &DeclaredItem,
    m: ModuleId,
    root: ModuleId,
    id: ExternCrateId,
) -> Result<(), BuildFault>
    requires table { IsTableOf builder.now view.now.krate table.old }
    requires home { IsTrue (knows builder.now (held.Module m)) }
    requires root { IsTrue (knows builder.now (held.Module root)) }
    ensures table { OnOk result (table.new ≡ spec.declared view.now table.old item.now m root id) }
    ensures kept { OnOk result (IsTableOf builder.now view.now.krate table.new) }
    ensures fault { IfErr result (λ fault. fault ≡ OutOfMemory) }
{
    let visibility = item_visibility(builder, table, view, item, m);
    let import = ImportOrExternCrate::ExternCrate(id);
    let items = PerNs::types(ModuleDefId::ModuleId(root), visibility, Some(import));
    let name = name_of(alloc, item)?;
    table.push_named(m, name, items)?;
    Ok(())
}

/// Binds what an extern crate of a module links, if that is known.
fn bind(
    builder: &mut WorldBuilder,
    table: &mut CrateTable,
    alloc: Global,
    view: &CrateView<'_>,
    item: &DeclaredItem,
    m: ModuleId,
    id: ExternCrateId,
    root: Option<ModuleId>,
) -> Result<(), BuildFault>
    requires table { IsTableOf builder.old view.now.krate table.old }
    requires home { IsTrue (knows builder.old (held.Module m)) }
    requires root { IfSome root (λ r. IsTrue (knows builder.old (held.Module r))) }
    ensures world { OnOk result (builder.new ≡ spec.entered_if builder.old view.now.krate item.now id root) }
    ensures table { OnOk result (table.new ≡ spec.declared_if view.now table.old item.now m id root) }
    ensures kept { OnOk result (IsTableOf builder.new view.now.krate table.new) }
    ensures grown { IsGrown builder.old builder.new }
    ensures fault { IfErr result (λ fault. fault ≡ OutOfMemory) }
{
    match root {
        None => Ok(()),
        Some(root) => {
            declare_root(builder, table, alloc, view, item, m, root, id)?;
            enter(builder, alloc, view.krate, item, root, id)?;
            Ok(())
        }
    }
}

/// Adds an extern crate of a module.
fn add_in(
    builder: &mut WorldBuilder,
    table: &mut CrateTable,
    rows: &mut Vec<ExternCrateRow>,
    alloc: Global,
    view: &CrateView<'_>,
    item: &DeclaredItem,
    m: ModuleId,
    root: Option<ModuleId>,
) -> Result<(), BuildFault>
    requires table { IsTableOf builder.old view.now.krate table.old }
    requires home { IsTrue (knows builder.old (held.Module m)) }
    requires root { IfSome root (λ r. IsTrue (knows builder.old (held.Module r))) }
    ensures linked { OnOk result ((record { world = builder.new; table = table.new; rows = rows.new.items }) ≡
        spec.linked_so view.now (record { world = builder.old; table = table.old; rows = rows.old.items }) item.now m root) }
    ensures kept { OnOk result (IsTableOf builder.new view.now.krate table.new) }
    ensures grown { IsGrown builder.old builder.new }
    ensures fault { IfErr result
        (λ fault. is_shortage (is_past (length (spec.linked_so view.now
        (record { world = builder.old; table = table.old; rows = rows.old.items }) item.now m root).rows))
        fault ≡ true) }
{
    let id = next_extern(rows.as_slice())?;
    bind(builder, table, alloc, view, item, m, id, root)?;
    let row = ExternCrateRow {
        home: m,
        file: item.file,
        item: item.item,
        root,
    };
    push_row(rows, row)?;
    Ok(())
}

/// Adds an extern crate, unless its module was left out.
fn add_linked(
    builder: &mut WorldBuilder,
    table: &mut CrateTable,
    rows: &mut Vec<ExternCrateRow>,
    alloc: Global,
    view: &CrateView<'_>,
    dependencies: &[Dependency],
    item: &DeclaredItem,
) -> Result<(), BuildFault>
    requires table { IsTableOf builder.old view.now.krate table.old }
    requires roots { KnowsAll builder.old (spec.linkable view.now.krate dependencies.now) }
    ensures linked { OnOk result ((record { world = builder.new; table = table.new; rows = rows.new.items }) ≡
        spec.linked_in view.now dependencies.now
        (record { world = builder.old; table = table.old; rows = rows.old.items }) item.now) }
    ensures kept { OnOk result (IsTableOf builder.new view.now.krate table.new) }
    ensures grown { IsGrown builder.old builder.new }
    ensures fault { IfErr result
        (λ fault. is_shortage (is_past (length (spec.linked_in view.now dependencies.now
        (record { world = builder.old; table = table.old; rows = rows.old.items }) item.now).rows))
        fault ≡ true) }
{
    match parent_id(builder, view.krate, table, item.module) {
        None => Ok(()),
        Some(m) => {
            let linked = linked_crate(alloc, view.list, view.files, item)?;
            let root = known_root(builder, view.krate, dependencies, linked);
            add_in(builder, table, rows, alloc, view, item, m, root)
        }
    }
}

/// Adds an item, if it is an extern crate.
fn add_one(
    builder: &mut WorldBuilder,
    table: &mut CrateTable,
    rows: &mut Vec<ExternCrateRow>,
    alloc: Global,
    view: &CrateView<'_>,
    dependencies: &[Dependency],
    item: &DeclaredItem,
) -> Result<(), BuildFault>
    requires table { IsTableOf builder.old view.now.krate table.old }
    requires roots { KnowsAll builder.old (spec.linkable view.now.krate dependencies.now) }
    ensures linked { OnOk result ((record { world = builder.new; table = table.new; rows = rows.new.items }) ≡
        spec.with_extern_crate view.now dependencies.now
        (record { world = builder.old; table = table.old; rows = rows.old.items }) item.now) }
    ensures kept { OnOk result (IsTableOf builder.new view.now.krate table.new) }
    ensures grown { IsGrown builder.old builder.new }
    ensures fault { IfErr result
        (λ fault. is_shortage (is_past (length (spec.with_extern_crate view.now dependencies.now
        (record { world = builder.old; table = table.old; rows = rows.old.items }) item.now).rows))
        fault ≡ true) }
{
    if is_extern_crate(item.kind) {
        add_linked(builder, table, rows, alloc, view, dependencies, item)
    } else {
        Ok(())
    }
}

/// Adds the extern crates among the items of a crate, as `declared_items` gives them. Each gets a row, behind those of
/// the world so far, and its place there is its number. Its name is declared in its module, as the root of the crate
/// that it is of: the crate itself, or the first dependency of that name. In the root of the crate the extern prelude
/// gets the name too, in place of what it had under it. Where no crate is known by the name, the row has no root, and
/// nothing is bound.
///
/// # Errors
///
/// Fails where memory runs out, and with `OutOfNumbers` where there are 4,294,967,296 extern crates. What was added before
/// stays.
pub fn add_extern_crates(
    builder: &mut WorldBuilder,
    table: &mut CrateTable,
    rows: &mut Vec<ExternCrateRow>,
    alloc: Global,
    view: &CrateView<'_>,
    dependencies: &[Dependency],
    items: &[DeclaredItem],
) -> Result<(), BuildFault>
    requires table { IsTableOf builder.old view.now.krate table.old }
    requires roots { KnowsAll builder.old (spec.linkable view.now.krate dependencies.now) }
    ensures linked { OnOk result ((record { world = builder.new; table = table.new; rows = rows.new.items }) ≡
        spec.with_extern_crates view.now dependencies.now
        (record { world = builder.old; table = table.old; rows = rows.old.items }) items.now) }
    ensures kept { OnOk result (IsTableOf builder.new view.now.krate table.new) }
    ensures grown { IsGrown builder.old builder.new }
    ensures fault { IfErr result
        (λ fault. is_shortage (is_past (length (spec.with_extern_crates view.now dependencies.now
        (record { world = builder.old; table = table.old; rows = rows.old.items }) items.now).rows))
        fault ≡ true) }
{
    for item in items {
        add_one(builder, table, rows, alloc, view, dependencies, item)?;
    }
    Ok(())
}
