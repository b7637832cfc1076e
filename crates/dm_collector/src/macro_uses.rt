//! Where the `macro_use` preludes of crates have their macros from: the roots of other crates.
ghost use Rattle.std.specs.Prelude.{◌≡◌, ◌++◌, ◌∷◌, [], IfOk, OnOk, slice_get};
ghost use Rattle.dm_collector.specs.MacroUses as spec;

use crate_items::files::crate_data::CrateData;
use crate_items::files::crate_graph::CrateGraph;
use crate_items::files::file_table::FileTable;
use crate_items::items::crate_attributes::crate_attributes;
use crate_items::items::declared_item::DeclaredItem;
use crate_items::macros::declared_macro::{MacroUse, macro_use};
use crate_items::modules::CrateModules;
use crate_tables::crate_roots::root_id;
use crate_tables::extern_crates::ExternCrateRow;
use crate_tables::standard_prelude::library;
use dm_base::fields_shape::FieldsShape;
use dm_base::ids::{Crate, ExternCrateId, FileId, ModuleId};
use item_tree::items::item_kind::ItemKind;
use std::alloc::{AllocError, Global};
use std::marker::Model;

/// A root that a crate has macros from.
pub struct MacroSource {
    pub root: ModuleId,
    /// Which of its macros; all of them, where nothing says which.
    pub macros: Option<MacroUse>,
    /// The `extern crate` that brings them; those of its library no item brings.
    pub brought_by: Option<ExternCrateId>,
}

/// Hand-written `Drop`, to keep proofs small: dropping one is then a single call.
impl Drop for MacroSource {
    fn drop(self) {
        let MacroSource {
            root: _root,
            macros: _macros,
            brought_by: _brought_by,
        } = self;
    }
}

/// A crate, and the roots that it has macros from, in order: of two that bring one name the later counts.
pub struct MacroUses {
    krate: Crate,
    sources: Vec<MacroSource>,
}

/// Hand-written `Drop`, to keep proofs small: dropping one is then a single call.
impl Drop for MacroUses {
    fn drop(self) {
        let MacroUses {
            krate: _krate,
            sources: _sources,
        } = self;
    }
}

impl Model for MacroUses {
    ghost use Rattle.dm_collector.specs.MacroUses.{Uses};

    ghost Value = { Uses };

    ghost view = { λ u. record { krate = u.krate; sources = u.sources.items } };
}

impl MacroUses {
    pub fn new(krate: Crate, sources: Vec<MacroSource>) -> MacroUses
        ensures { result ≡ record { krate = krate; sources = sources.items } }
    {
        MacroUses { krate, sources }
    }

    pub fn krate(&self) -> Crate
        ensures { result ≡ self.now.krate }
    {
        self.krate
    }

    pub fn sources(&self) -> &[MacroSource]
        ensures { result.now ≡ self.now.sources }
    {
        self.sources.as_slice()
    }
}

/// Adds all macros of the library of a crate, unless that is the crate itself.
fn push_library(
    sources: &mut Vec<MacroSource>,
    krate: Crate,
    library: Option<Crate>,
) -> Result<(), AllocError>
    ensures { OnOk result (sources.new.items ≡ sources.old.items ++ spec.of_library krate library) }
{
    let Some(library) = library else {
        return Ok(());
    };
    if library.0 != krate.0 {
        sources.push(MacroSource {
            root: root_id(library),
            macros: None,
            brought_by: None,
        })?;
    }
    Ok(())
}

/// The macros that the attributes before the item of a number in a file name.
fn macro_use_at(
    alloc: Global,
    list: &CrateModules,
    files: &FileTable,
    file: FileId,
    item: usize,
) -> Result<MacroUse, AllocError>
    ensures { IfOk result (λ used. used ≡ spec.macro_use_at files.now list.now file item) }
{
    // Of the item only where it stands is looked at.
    let placed = DeclaredItem {
        module: 0,
        file,
        item,
        kind: ItemKind::ExternCrate,
        name: None,
        visibility: None,
        shape: FieldsShape::Record,
    };
    let used = macro_use(alloc, list, files, &placed)?;
    Ok(used)
}

/// The extern crate of a number.
fn extern_id(number: usize) -> Option<ExternCrateId>
    ensures { result ≡ spec.extern_id number }
{
    match u32::try_from(number) {
        Ok(number) => Some(ExternCrateId(number)),
        Err(_) => None,
    }
}

/// Adds the macros that an extern crate brings, of the root that it links.
fn push_root(
    sources: &mut Vec<MacroSource>,
    alloc: Global,
    list: &CrateModules,
    files: &FileTable,
    number: usize,
    row: &ExternCrateRow,
) -> Result<(), AllocError>
    ensures { OnOk result
        (sources.new.items ≡ sources.old.items ++ spec.of_root files.now list.now number row.now row.now.root) }
{
    let Some(root) = row.root else {
        return Ok(());
    };
    if root.0 != row.home.0 {
        let macros = macro_use_at(alloc, list, files, row.file, row.item)?;
        sources.push(MacroSource {
            root,
            macros: Some(macros),
            brought_by: extern_id(number),
        })?;
    }
    Ok(())
}

/// The same, if it stands in the root of a crate.
fn push_row(
    sources: &mut Vec<MacroSource>,
    alloc: Global,
    krate: Crate,
    list: &CrateModules,
    files: &FileTable,
    number: usize,
    row: &ExternCrateRow,
) -> Result<(), AllocError>
    ensures { OnOk result
        (sources.new.items ≡ sources.old.items ++ spec.of_row files.now list.now krate number row.now) }
{
    if row.home.0 == krate.0 {
        push_root(sources, alloc, list, files, number, row)
    } else {
        Ok(())
    }
}

/// Adds the macros that extern crates bring.
fn push_rows(
    sources: &mut Vec<MacroSource>,
    alloc: Global,
    krate: Crate,
    list: &CrateModules,
    files: &FileTable,
    rows: &[ExternCrateRow],
) -> Result<(), AllocError>
    ensures { OnOk result
        (sources.new.items ≡ sources.old.items ++ spec.of_rows files.now list.now krate 0 rows.now) }
{
    for (number, row) in rows.iter().enumerate() {
        push_row(sources, alloc, krate, list, files, number, row)?;
    }
    Ok(())
}

/// The library of a crate, by the list of its modules.
fn library_of(
    alloc: Global,
    described: &CrateData,
    list: &CrateModules,
    files: &FileTable,
) -> Result<Option<Crate>, AllocError>
    ensures { IfOk result (λ found. found ≡ spec.library_of files.now described.now list.now) }
{
    let attributes = crate_attributes(alloc, list, files, described.root_file_id())?;
    Ok(library(attributes.as_slice(), described.dependencies()))
}

/// Adds the macros that a crate has, by the list of its modules: those of its library first.
fn push_sources(
    sources: &mut Vec<MacroSource>,
    alloc: Global,
    krate: Crate,
    described: &CrateData,
    list: &CrateModules,
    files: &FileTable,
    rows: &[ExternCrateRow],
) -> Result<(), AllocError>
    ensures { OnOk result (sources.new.items ≡ sources.old.items
        ++ spec.sources_of files.now rows.now krate described.now list.now) }
{
    let found = library_of(alloc, described, list, files)?;
    push_library(sources, krate, found)?;
    push_rows(sources, alloc, krate, list, files, rows)?;
    Ok(())
}

/// The same by the lists of all crates.
fn push_sources_in(
    sources: &mut Vec<MacroSource>,
    alloc: Global,
    krate: Crate,
    described: &CrateData,
    lists: &[CrateModules],
    files: &FileTable,
    rows: &[ExternCrateRow],
) -> Result<(), AllocError>
    ensures { OnOk result (sources.new.items ≡ sources.old.items
        ++ spec.sources_if files.now rows.now krate described.now (slice_get lists.now krate.0)) }
{
    match lists.get(krate.0 as usize) {
        None => Ok(()),
        Some(list) => push_sources(sources, alloc, krate, described, list, files, rows),
    }
}

/// A crate with the roots that it has macros from.
fn uses_of(
    alloc: Global,
    krate: Crate,
    described: &CrateData,
    lists: &[CrateModules],
    files: &FileTable,
    rows: &[ExternCrateRow],
) -> Result<MacroUses, AllocError>
    ensures { IfOk result
        (λ uses. uses ≡ spec.uses_of files.now lists.now rows.now krate described.now) }
{
    let mut sources = Vec::new(alloc);
    push_sources_in(&mut sources, alloc, krate, described, lists, files, rows)?;
    Ok(MacroUses::new(krate, sources))
}

/// Adds a crate with the roots that it has macros from.
fn push_crate(
    uses: &mut Vec<MacroUses>,
    alloc: Global,
    krate: Crate,
    described: &CrateData,
    lists: &[CrateModules],
    files: &FileTable,
    rows: &[ExternCrateRow],
) -> Result<(), AllocError>
    ensures { OnOk result (uses.new.items ≡ uses.old.items
        ++ spec.uses_of files.now lists.now rows.now krate described.now ∷ []) }
{
    let used = uses_of(alloc, krate, described, lists, files, rows)?;
    uses.push(used)?;
    Ok(())
}

/// The roots that each crate of a graph has macros from: that of its library (`std`, or `core` under `no_std`), and those
/// that its own root links by an `extern crate` under `#[macro_use]`. The lists are those of all crates, and the extern
/// crates those of the world, each at its number.
///
/// # Errors
///
/// Fails only where memory runs out.
pub fn macro_uses(
    alloc: Global,
    graph: &CrateGraph,
    files: &FileTable,
    lists: &[CrateModules],
    rows: &[ExternCrateRow],
) -> Result<Vec<MacroUses>, AllocError>
    ensures { IfOk result
        (λ uses. uses.items ≡ spec.macro_uses files.now lists.now rows.now 0 graph.now) }
{
    let mut uses = Vec::new(alloc);
    for (number, described) in graph.crates().iter().enumerate() {
        let krate = graph.crate_at(number);
        push_crate(&mut uses, alloc, krate, described, lists, files, rows)?;
    }
    Ok(uses)
}
