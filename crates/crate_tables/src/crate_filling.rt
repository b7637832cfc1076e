//! The crates of a graph, added to a builder with all that they declare.
ghost use Rattle.std.specs.Prelude.{◌≡◌, ◌++◌, ◌∷◌, ◌<◌, [], All, IfErr, IfOk, IfSome, IsTrue, OnOk, Some, length, slice_get, true};
ghost use Rattle.crate_items.specs.CrateGraphs.{AreKnown};
ghost use Rattle.crate_tables.specs.BlockLists.{blocks_of, with_all_blocks};
ghost use Rattle.crate_tables.specs.CrateFillings as spec;
ghost use Rattle.crate_tables.specs.CrateRoots.{KnowsRoots, root_holds, root_id as root_of, with_roots};
ghost use Rattle.crate_tables.specs.CrateTables.{HasKnownDefs, IsTableOf};
ghost use Rattle.crate_tables.specs.ExternCrates.{Linked, linkable};
ghost use Rattle.crate_tables.specs.DeclaredWorlds.{BindNothing};
ghost use Rattle.crate_tables.specs.Kept.{IsKept};
ghost use Rattle.crate_tables.specs.LibraryNames as names;
ghost use Rattle.crate_tables.specs.Numbers.{is_past, is_shortage, IsShortage};
ghost use Rattle.crate_items.specs.Modules.{Listing};
ghost use Rattle.dm_maps.specs.declared.build_fault.BuildFault.TheVariants.{OutOfMemory};
ghost use Rattle.dm_maps.specs.declared.check.held.HeldId.TheVariants as held;
ghost use Rattle.dm_maps.specs.Added.{IsGrown};
ghost use Rattle.dm_maps.specs.Build.{no_world};
ghost use Rattle.dm_maps.specs.First.{IsChecked};
ghost use Rattle.dm_maps.specs.Known.{knows, KnowsAll};

use crate::all_items::add_all_bound;
use crate::block_lists::list_blocks;
use crate::crate_maps::add_modules;
use crate::crate_roots::{add_externs, crate_roots, root_id};
use crate::crate_table::CrateTable;
use crate::extern_crates::ExternCrateRow;
use crate::fill_fault::FillFault;
use crate::library_name::{LibraryName, library_name};
use crate::new_module::CrateView;
use crate::set_preludes::set_preludes;
use crate::standard_prelude::set_attributes;
use crate_items::files::crate_data::CrateData;
use crate_items::files::crate_graph::CrateGraph;
use crate_items::files::dependency::Dependency;
use crate_items::files::file_table::FileTable;
use crate_items::items::crate_attributes::{CrateAttribute, crate_attributes};
use crate_items::items::declared_item::declared_items;
use crate_items::items::module_items::module_items;
use crate_items::modules::{CrateModules, ModulesError, declared_modules};
use dm_base::ids::Crate;
use dm_maps::build_fault::BuildFault;
use dm_maps::builder::WorldBuilder;
use std::alloc::{AllocError, Global};
use std::marker::Model;

/// How crates are read.
#[derive(Drop)]
pub struct Reading<'a> {
    pub files: &'a FileTable,
    /// How many modules a crate may have.
    pub limit: u32,
}

impl<'a> Model for Reading<'a> {
    ghost use Rattle.crate_tables.specs.CrateFillings.{Reading};

    ghost Value = { Reading };

    ghost view = { λ r. record { files = r.files.now; limit = r.limit } };
}

/// The same of the fault of a builder, which knows the root of the crate.
fn of_builder(fault: BuildFault) -> FillFault
    ensures { result ≡ spec.of_builder fault }
{
    match fault {
        BuildFault::OutOfMemory => FillFault::OutOfMemory,
        _ => FillFault::OutOfNumbers,
    }
}

/// The modules that a crate declares.
fn listed(
    alloc: Global,
    krate: Crate,
    described: &CrateData,
    reading: &Reading<'_>,
) -> Result<CrateModules, FillFault>
    ensures is { IfOk result (spec.IsListOf reading.now described.now) }
    ensures fault { IfErr result
        (spec.IsFaultOf reading.now krate described.now) }
{
    if !reading.files.contains(described.root_file_id()) {
        return Err(FillFault::NoRootFile(krate));
    }
    match declared_modules(alloc, described, reading.files, reading.limit) {
        Ok(list) => Ok(list),
        Err(ModulesError::TooManyModules) => Err(FillFault::TooManyModules(krate)),
        Err(ModulesError::OutOfMemory) => Err(FillFault::OutOfMemory),
    }
}

/// Adds the modules of a crate's list, and their items, and binds what the root binds without an item.
fn fill_list(
    builder: &mut WorldBuilder,
    externs: &mut Vec<ExternCrateRow>,
    alloc: Global,
    view: &CrateView<'_>,
    dependencies: &[Dependency],
    library: Option<LibraryName>,
) -> Result<CrateTable, BuildFault>
    requires root { KnowsAll builder.old (root_holds view.now.krate) }
    requires roots { KnowsAll builder.old (linkable view.now.krate dependencies.now) }
    requires library { IfSome library (λ l. IsTrue (knows builder.old (held.Module (root_of l.krate)))) }
    ensures items { IfOk result (λ table. spec.HasList view.now dependencies.now library builder.old externs.old.items
        (record { world = builder.new; table = table; rows = externs.new.items })) }
    ensures kept { IfOk result (IsTableOf builder.new view.now.krate) }
    ensures stays { IsKept builder.old builder.new }
    ensures fault { IfErr result (IsShortage
        (spec.ListRunsOut view.now dependencies.now library builder.old externs.old.items)) }
{
    let rows = module_items(alloc, view.list)?;
    let items = declared_items(alloc, view.edition, view.list, view.files, rows.as_slice())?;
    let mut table = add_modules(builder, alloc, view, root_id(view.krate))?;
    add_all_bound(
        builder,
        &mut table,
        externs,
        alloc,
        view,
        dependencies,
        library,
        items,
    )?;
    Ok(table)
}

/// Puts the dependencies of a crate into its extern prelude, and sets what its attributes say.
fn prepare(
    builder: &mut WorldBuilder,
    alloc: Global,
    krate: Crate,
    attributes: Vec<CrateAttribute>,
    dependencies: &[Dependency],
) -> Result<(), BuildFault>
    requires { IsTrue (knows builder.old (held.Crate krate)) }
    ensures world { OnOk result
        (builder.new ≡ spec.prepared builder.old krate attributes.items dependencies.now) }
    ensures grown { IsGrown builder.old builder.new }
    ensures fault { IfErr result (λ fault. fault ≡ OutOfMemory) }
{
    add_externs(builder, alloc, krate, attributes.as_slice(), dependencies)?;
    set_attributes(builder, alloc, krate, attributes)?;
    Ok(())
}

/// Fills a crate whose modules are listed. Its dependencies come into its extern prelude before its extern crates do,
/// since those take the place of names that are there.
fn fill_listed(
    builder: &mut WorldBuilder,
    externs: &mut Vec<ExternCrateRow>,
    alloc: Global,
    view: &CrateView<'_>,
    attributes: Vec<CrateAttribute>,
    dependencies: &[Dependency],
) -> Result<CrateTable, BuildFault>
    requires root { KnowsAll builder.old (root_holds view.now.krate) }
    requires roots { KnowsAll builder.old (linkable view.now.krate dependencies.now) }
    ensures filled { IfOk result (λ table. spec.HasList view.now dependencies.now
        (names.library_name view.now.edition attributes.items dependencies.now)
        (spec.prepared builder.old view.now.krate attributes.items dependencies.now) externs.old.items
        (record { world = builder.new; table = table; rows = externs.new.items })) }
    ensures kept { IfOk result (IsTableOf builder.new view.now.krate) }
    ensures stays { IsKept builder.old builder.new }
    ensures fault { IfErr result (IsShortage (spec.ListRunsOut view.now dependencies.now
        (names.library_name view.now.edition attributes.items dependencies.now)
        (spec.prepared builder.old view.now.krate attributes.items dependencies.now) externs.old.items)) }
{
    let library = library_name(alloc, view.edition, attributes.as_slice(), dependencies)?;
    prepare(builder, alloc, view.krate, attributes, dependencies)?;
    let table = fill_list(builder, externs, alloc, view, dependencies, library)?;
    Ok(table)
}

/// A crate, as what fills its tables sees it.
fn view_of<'a>(
    krate: Crate,
    described: &'a CrateData,
    list: &'a CrateModules,
    files: &'a FileTable,
) -> CrateView<'a>
    ensures { result ≡ spec.view_of files.now krate described.now list.now }
{
    CrateView {
        krate,
        edition: described.edition(),
        options: described.cfg_options(),
        is_proc_macro: described.is_proc_macro(),
        list,
        files,
    }
}

/// Fills a crate by the list of its modules.
fn fill_by(
    builder: &mut WorldBuilder,
    externs: &mut Vec<ExternCrateRow>,
    alloc: Global,
    krate: Crate,
    described: &CrateData,
    list: &CrateModules,
    files: &FileTable,
) -> Result<CrateTable, BuildFault>
    requires root { KnowsAll builder.old (root_holds krate) }
    requires roots { KnowsAll builder.old (linkable krate described.now.dependencies) }
    ensures filled { IfOk result (λ table. spec.IsFilledBy files.now krate described.now builder.old externs.old.items
        list.now (record { world = builder.new; table = table; rows = externs.new.items })) }
    ensures kept { IfOk result (IsTableOf builder.new krate) }
    ensures stays { IsKept builder.old builder.new }
    ensures fault { IfErr result (IsShortage
        (spec.FillRunsOut files.now krate described.now builder.old externs.old.items list.now)) }
{
    let attributes = crate_attributes(alloc, list, files, described.root_file_id())?;
    let view = view_of(krate, described, list, files);
    let table = fill_listed(
        builder,
        externs,
        alloc,
        &view,
        attributes,
        described.dependencies(),
    )?;
    Ok(table)
}

/// What a crate declares, and what it has in a builder.
#[derive(Drop)]
pub struct FilledCrate {
    pub list: CrateModules,
    pub table: CrateTable,
}

/// Fills a crate whose root is there, and the roots of all that it depends on: sets its attributes, and adds its extern
/// prelude, its modules, their items, and their textual macros. Its extern crates get rows behind those of other crates.
///
/// # Errors
///
/// Fails where the file of its root is not there, where it has more modules than asked for, and where memory or numbers
/// run out. What was added before stays.
pub fn fill_crate(
    builder: &mut WorldBuilder,
    externs: &mut Vec<ExternCrateRow>,
    alloc: Global,
    krate: Crate,
    described: &CrateData,
    reading: &Reading<'_>,
) -> Result<FilledCrate, FillFault>
    requires root { KnowsAll builder.old (root_holds krate) }
    requires roots { KnowsAll builder.old (linkable krate described.now.dependencies) }
    ensures filled { IfOk result (λ filled. spec.IsCrateIn reading.now krate described.now builder.old externs.old.items
        filled.list (record { world = builder.new; table = filled.table; rows = externs.new.items })) }
    ensures kept { IfOk result (λ filled. IsTableOf builder.new krate filled.table) }
    ensures stays { IsKept builder.old builder.new }
    ensures fault { IfErr result (spec.IsShortageOr
        (spec.CrateRunsOut reading.now krate described.now builder.old externs.old.items)
        (spec.IsFaultOf reading.now krate described.now)) }
{
    let list = listed(alloc, krate, described, reading)?;
    match fill_by(
        builder,
        externs,
        alloc,
        krate,
        described,
        &list,
        reading.files,
    ) {
        Ok(table) => Ok(FilledCrate { list, table }),
        Err(fault) => Err(of_builder(fault)),
    }
}

/// Lists a crate that is filled.
fn list(
    lists: &mut Vec<CrateModules>,
    tables: &mut Vec<CrateTable>,
    filled: FilledCrate,
) -> Result<(), AllocError>
    ensures lists { OnOk result (lists.new.items ≡ lists.old.items ++ filled.list ∷ []) }
    ensures tables { OnOk result (tables.new.items ≡ tables.old.items ++ filled.table ∷ []) }
{
    lists.push(filled.list)?;
    tables.push(filled.table)?;
    Ok(())
}

/// Fills the crate of a number, and lists what it has.
fn fill_next(
    builder: &mut WorldBuilder,
    lists: &mut Vec<CrateModules>,
    tables: &mut Vec<CrateTable>,
    externs: &mut Vec<ExternCrateRow>,
    alloc: Global,
    graph: &CrateGraph,
    number: usize,
    described: &CrateData,
    reading: &Reading<'_>,
) -> Result<(), FillFault>
    requires at { slice_get graph.now number ≡ Some described.now }
    requires within { number < length graph.now }
    requires needs { AreKnown (length graph.now) described.now }
    requires roots { KnowsRoots builder.old (length graph.now) }
    requires known { All (spec.IsKnownTable builder.old) tables.old.items }
    ensures filled { OnOk result ((l : Listing) × (s : Linked) × spec.IsCrateIn reading.now (record { 0 = number }) described.now
        builder.old externs.old.items l s
        × ((record { world = builder.new; lists = lists.new.items; tables = tables.new.items; rows = externs.new.items }) ≡
        spec.with_crate (record {
          world = builder.old;
          lists = lists.old.items;
          tables = tables.old.items;
          rows = externs.old.items;
        }) l s)) }
    ensures known { OnOk result (All (spec.IsKnownTable builder.new) tables.new.items) }
    ensures stays { IsKept builder.old builder.new }
    ensures fault { IfErr result (spec.IsShortageOr (spec.CrateRunsOut reading.now (record { 0 = number }) described.now
        builder.old externs.old.items) (spec.IsFaultIn reading.now graph.now)) }
{
    let krate = graph.crate_at(number);
    match fill_crate(builder, externs, alloc, krate, described, reading) {
        Err(fault) => Err(fault),
        Ok(filled) => {
            list(lists, tables, filled)?;
            Ok(())
        }
    }
}

/// Fills each crate of a graph, whose roots are there.
fn fill_all(
    builder: &mut WorldBuilder,
    lists: &mut Vec<CrateModules>,
    tables: &mut Vec<CrateTable>,
    externs: &mut Vec<ExternCrateRow>,
    alloc: Global,
    graph: &CrateGraph,
    reading: &Reading<'_>,
) -> Result<(), FillFault>
    requires roots { KnowsRoots builder.old (length graph.now) }
    requires known { All (spec.IsKnownTable builder.old) tables.old.items }
    ensures filled { OnOk result (spec.AreCratesFrom reading.now 0 graph.now
        (record { world = builder.old; lists = lists.old.items; tables = tables.old.items; rows = externs.old.items })
        (record { world = builder.new; lists = lists.new.items; tables = tables.new.items; rows = externs.new.items })) }
    ensures known { OnOk result (All (spec.IsKnownTable builder.new) tables.new.items) }
    ensures stays { IsKept builder.old builder.new }
    ensures fault { IfErr result (spec.IsShortageOr (spec.RunsOutFrom reading.now graph.now
        (record { world = builder.old; lists = lists.old.items; tables = tables.old.items; rows = externs.old.items }))
        (spec.IsFaultIn reading.now graph.now)) }
{
    for (number, described) in graph.crates().iter().enumerate() {
        fill_next(
            builder, lists, tables, externs, alloc, graph, number, described, reading,
        )?;
    }
    Ok(())
}

/// Crates in a builder: the modules that each declares and what it has there, by its number, and the extern crates of
/// all, by their numbers.
#[derive(Drop)]
pub struct FilledCrates {
    pub builder: WorldBuilder,
    pub lists: Vec<CrateModules>,
    pub tables: Vec<CrateTable>,
    pub externs: Vec<ExternCrateRow>,
}

/// The crates of a graph, each filled, whose roots are there.
fn filled_from(
    roots: WorldBuilder,
    alloc: Global,
    graph: &CrateGraph,
    reading: &Reading<'_>,
) -> Result<FilledCrates, FillFault>
    requires roots { KnowsRoots roots (length graph.now) }
    ensures filled { IfOk result (λ made. spec.AreCratesFrom reading.now 0 graph.now (spec.no_crates roots)
        (record { world = made.builder; lists = made.lists.items; tables = made.tables.items; rows = made.externs.items })) }
    ensures known { IfOk result (λ made. All (spec.IsKnownTable made.builder) made.tables.items) }
    ensures stays { IfOk result (λ made. IsKept roots made.builder) }
    ensures fault { IfErr result (spec.IsShortageOr (spec.RunsOutFrom reading.now graph.now (spec.no_crates roots))
        (spec.IsFaultIn reading.now graph.now)) }
{
    let mut builder = roots;
    let mut lists = Vec::new(alloc);
    let mut tables = Vec::new(alloc);
    let mut externs = Vec::new(alloc);
    fill_all(
        &mut builder,
        &mut lists,
        &mut tables,
        &mut externs,
        alloc,
        graph,
        reading,
    )?;
    Ok(FilledCrates {
        builder,
        lists,
        tables,
        externs,
    })
}

/// The crates of a graph, each filled, with no standard preludes yet.
fn filled_alone(
    alloc: Global,
    graph: &CrateGraph,
    reading: &Reading<'_>,
) -> Result<FilledCrates, FillFault>
    ensures filled { IfOk result (λ made. spec.AreCratesFrom reading.now 0 graph.now
        (spec.no_crates (with_roots no_world graph.now))
        (record { world = made.builder; lists = made.lists.items; tables = made.tables.items; rows = made.externs.items })) }
    ensures known { IfOk result (λ made. All (spec.IsKnownTable made.builder) made.tables.items) }
    ensures empty { IfOk result (λ made. BindNothing made.builder) }
    ensures fault { IfErr result
        (spec.IsShortageOr (spec.RunsOut reading.now graph.now) (spec.IsFaultIn reading.now graph.now)) }
{
    match crate_roots(alloc, graph) {
        Err(fault) => Err(of_builder(fault)),
        Ok(roots) => {
            let made = filled_from(roots, alloc, graph, reading)?;
            Ok(made)
        }
    }
}

/// Sets the preludes of crates that are filled, and puts their blocks into the lists of their modules.
fn finish(
    builder: &mut WorldBuilder,
    alloc: Global,
    lists: &[CrateModules],
    tables: &[CrateTable],
    graph: &CrateGraph,
    files: &FileTable,
) -> Result<(), BuildFault>
    requires maps { spec.HasMaps builder.old (length graph.now) }
    ensures world { OnOk result (builder.new ≡ with_all_blocks
        (spec.with_preludes_from files.now lists.now tables.now 0 graph.now builder.old) tables.now) }
    ensures stays { IsKept builder.old builder.new }
    ensures fault { IfErr result (λ fault. is_shortage (is_past (length (blocks_of tables.now))) fault ≡ true) }
{
    set_preludes(builder, alloc, lists, tables, graph, files)?;
    list_blocks(builder, tables)
}

/// The crates of a graph, each filled, with their preludes, and with their blocks in the lists of their modules.
fn filled_whole(
    alloc: Global,
    graph: &CrateGraph,
    reading: &Reading<'_>,
) -> Result<FilledCrates, FillFault>
    ensures filled { IfOk result (λ made. spec.AreFilled reading.now graph.now
        (record { world = made.builder; lists = made.lists.items; tables = made.tables.items; rows = made.externs.items })) }
    ensures known { IfOk result (λ made. All (spec.IsKnownTable made.builder) made.tables.items) }
    ensures empty { IfOk result (λ made. BindNothing made.builder) }
    ensures fault { IfErr result
        (spec.IsShortageOr (spec.RunsOut reading.now graph.now) (spec.IsFaultIn reading.now graph.now)) }
{
    let made = filled_alone(alloc, graph, reading)?;
    let FilledCrates {
        builder: alone,
        lists,
        tables,
        externs,
    } = made;
    let mut builder = alone;
    match finish(
        &mut builder,
        alloc,
        lists.as_slice(),
        tables.as_slice(),
        graph,
        reading.files,
    ) {
        Err(fault) => Err(of_builder(fault)),
        Ok(()) => Ok(FilledCrates {
            builder,
            lists,
            tables,
            externs,
        }),
    }
}

/// The tables of a graph's crates, each filled with what it declares, and what each has there. Crates have the numbers
/// that they have in the graph. No module binds anything yet.
///
/// # Errors
///
/// Fails where the file of a crate's root is not there, where a crate has more modules than asked for, and where memory
/// or numbers run out.
pub fn filled(
    alloc: Global,
    graph: &CrateGraph,
    reading: &Reading<'_>,
) -> Result<FilledCrates, FillFault>
    ensures filled { IfOk result (λ made. spec.AreFilled reading.now graph.now
        (record { world = made.builder; lists = made.lists.items; tables = made.tables.items; rows = made.externs.items })) }
    ensures known { IfOk result (λ made. All (spec.IsKnownTable made.builder) made.tables.items) }

    // Each id that the builder's tables hold is one of its own, and so is each definition of a crate.
    ensures checked { IfOk result (λ made. IsChecked made.builder) }
    ensures defs { IfOk result (λ made. All (HasKnownDefs made.builder) made.tables.items) }
    ensures empty { IfOk result (λ made. BindNothing made.builder) }
    ensures fault { IfErr result
        (spec.IsShortageOr (spec.RunsOut reading.now graph.now) (spec.IsFaultIn reading.now graph.now)) }
{
    let _crates = graph.crates();
    let made = filled_whole(alloc, graph, reading)?;
    Ok(made)
}
