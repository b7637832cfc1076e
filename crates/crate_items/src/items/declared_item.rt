//! The items of a crate, with their names, visibilities and shapes.
ghost use Rattle.std.specs.Prelude.{◌≡◌, ◌++◌, ◌<◌, IfOk, OnOk, length};
ghost use Rattle.std.specs.List.{flat_map};
ghost use Rattle.crate_items.specs.DeclaredItems as spec;
ghost use Rattle.crate_items.specs.Sources.{source_at};
ghost use Rattle.item_tree.specs.Paths as paths;

use crate::files::file_table::FileTable;
use crate::files::source::Source;
use crate::items::lexeme_names::{kind_at, name_at};
use crate::items::lookups::{item_at, text_of};
use crate::items::module_items::ModuleItem;
use crate::items::shapes::item_shape;
use crate::modules::CrateModules;
use crate::modules::module_visibility::DeclaredVisibility;
use dm_base::fields_shape::FieldsShape;
use dm_base::ids::FileId;
use dm_base::name::Name;
use dm_base::source::Edition;
use item_tree::items::item_kind::ItemKind;
use item_tree::items::visibility::{RawVisibility, raw_visibility};
use item_tree::items::{Item, Range, paths};
use item_tree::lexer::lexeme::{Lexeme, LexemeKind};
use item_tree::lexer::word::Word;
use std::alloc::{AllocError, Global};

/// An item of a module, with what a def map has to know of it.
#[derive(Drop)]
pub struct DeclaredItem {
    /// The number of the module, in the list of the crate.
    pub module: usize,
    /// The file of that module.
    pub file: FileId,
    /// The number of the item in the tree of that file.
    pub item: usize,
    pub kind: ItemKind,
    /// The name that it is bound under, without the `r#` of a raw one; that of an `extern crate` is the one behind
    /// `as`, if there is one. None where it has none, and where that is `_`.
    pub name: Option<Name>,
    /// Whom it is shown to; none where its visibility leads to no module around, which is an error.
    pub visibility: Option<DeclaredVisibility>,
    /// The shape of the fields of a struct. Any other item has that of a record.
    pub shape: FieldsShape,
}

/// The crate that an `extern crate` is of.
#[derive(Drop)]
pub enum LinkedCrate {
    /// The one that it stands in: `extern crate self`.
    Itself,
    /// The one that is known under a name.
    Named(Name),
}

/// The place of the name behind `as` that follows the name of an extern crate.
fn alias_behind(lexemes: &[Lexeme], name: usize) -> Option<usize>
    ensures { result ≡ paths.extern_crate_alias lexemes.now name }
{
    if name < lexemes.len() {
        paths::extern_crate_alias(lexemes, name)
    } else {
        None
    }
}

fn or_own(alias: Option<usize>, name: usize) -> usize
    ensures { result ≡ spec.or_own alias name }
{
    match alias {
        None => name,
        Some(place) => place,
    }
}

/// The place of the name that an item of a kind is bound under.
fn bound_place(lexemes: &[Lexeme], kind: ItemKind, name: usize) -> usize
    ensures { result ≡ spec.bound_place lexemes.now kind name }
{
    match kind {
        ItemKind::ExternCrate => or_own(alias_behind(lexemes, name), name),
        _ => name,
    }
}

/// The name that an item is bound under.
fn bound_name(
    alloc: Global,
    text: &[u8],
    lexemes: &[Lexeme],
    kind: ItemKind,
    name: Option<usize>,
) -> Result<Option<Name>, AllocError>
    ensures { IfOk result (λ bound. bound ≡ spec.bound_name text.now lexemes.now kind name) }
{
    match name {
        None => Ok(None),
        Some(name) => name_at(alloc, text, lexemes, bound_place(lexemes, kind, name)),
    }
}

/// The visibility that is written before an item.
pub(crate) fn written(lexemes: &[Lexeme], item: Item) -> RawVisibility
    ensures { result ≡ spec.written lexemes.now item }
{
    let range = Range {
        first: item.visibility,
        behind: item.qualifiers,
    };
    raw_visibility(lexemes, range)
}

/// An item of a row, from its text, its file, and the tree.
fn declared(
    alloc: Global,
    edition: Edition,
    list: &CrateModules,
    text: &[u8],
    source: &Source,
    row: ModuleItem,
    item: Item,
) -> Result<DeclaredItem, AllocError>
    requires { row.«module» < length list.now.modules }
    ensures { IfOk result
        (λ x. x ≡ spec.declared edition list.now text.now source.now row item) }
{
    let name = bound_name(alloc, text, source.lexemes(), item.kind, item.name)?;
    let shape = item_shape(alloc, source, item)?;
    let raw = written(source.lexemes(), item);
    let visibility = list.visibility(alloc, edition, text, row.module, raw)?;
    Ok(DeclaredItem {
        module: row.module,
        file: row.file,
        item: row.item,
        kind: item.kind,
        name,
        visibility,
        shape,
    })
}

/// Adds the item of a row, if its file has one of that number.
fn push_declared(
    found: &mut Vec<DeclaredItem>,
    alloc: Global,
    edition: Edition,
    list: &CrateModules,
    text: &[u8],
    row: ModuleItem,
) -> Result<(), AllocError>
    requires { row.«module» < length list.now.modules }
    ensures { OnOk result (found.new.items ≡ found.old.items
        ++ spec.of_source edition list.now text.now row (source_at list.now.sources row.file)) }
{
    match list.sources().get(row.file) {
        None => Ok(()),
        Some(source) => match item_at(source, row.item) {
            None => Ok(()),
            Some(item) => {
                let more = declared(alloc, edition, list, text, source, row, item)?;
                found.push(more)?;
                Ok(())
            }
        },
    }
}

/// Adds the item of a row, if there are a module and an item of these numbers.
fn push_row(
    found: &mut Vec<DeclaredItem>,
    alloc: Global,
    edition: Edition,
    list: &CrateModules,
    files: &FileTable,
    row: ModuleItem,
) -> Result<(), AllocError>
    ensures { OnOk result (found.new.items ≡ found.old.items
        ++ spec.declared_of edition list.now files.now row) }
{
    if row.module < list.modules().len() {
        push_declared(found, alloc, edition, list, text_of(files, row.file), row)?;
    }
    Ok(())
}

/// The items of some rows, as `module_items` gives them, each with its name, visibility and shape. A row whose module
/// or item is not there gives none.
///
/// # Errors
///
/// Fails only where memory runs out.
pub fn declared_items(
    alloc: Global,
    edition: Edition,
    list: &CrateModules,
    files: &FileTable,
    rows: &[ModuleItem],
) -> Result<Vec<DeclaredItem>, AllocError>
    ensures { IfOk result (λ found. found.items ≡
        flat_map (spec.declared_of edition list.now files.now) rows.now) }
{
    let mut found = Vec::new(alloc);
    for row in rows {
        push_row(&mut found, alloc, edition, list, files, *row)?;
    }
    Ok(found)
}

/// What the name of an `extern crate` says.
fn linked(
    alloc: Global,
    text: &[u8],
    lexemes: &[Lexeme],
    name: usize,
) -> Result<Option<LinkedCrate>, AllocError>
    ensures { IfOk result (λ krate. krate ≡ spec.linked text.now lexemes.now name) }
{
    match kind_at(lexemes, name) {
        LexemeKind::Word(Word::SelfValue) => Ok(Some(LinkedCrate::Itself)),
        _ => match name_at(alloc, text, lexemes, name)? {
            None => Ok(None),
            Some(name) => Ok(Some(LinkedCrate::Named(name))),
        },
    }
}

/// The crate that an item of a tree is of, if it is an `extern crate`.
fn linked_by(
    alloc: Global,
    text: &[u8],
    lexemes: &[Lexeme],
    item: Item,
) -> Result<Option<LinkedCrate>, AllocError>
    ensures { IfOk result
        (λ krate. krate ≡ spec.linked_by text.now lexemes.now item.kind item.name) }
{
    match (item.kind, item.name) {
        (ItemKind::ExternCrate, Some(name)) => linked(alloc, text, lexemes, name),
        _ => Ok(None),
    }
}

/// The crate that an `extern crate` is of; none for any other item.
///
/// # Errors
///
/// Fails only where memory runs out.
pub fn linked_crate(
    alloc: Global,
    list: &CrateModules,
    files: &FileTable,
    item: &DeclaredItem,
) -> Result<Option<LinkedCrate>, AllocError>
    ensures { IfOk result (λ krate. krate ≡ spec.linked_crate list.now files.now item.now) }
{
    match list.sources().get(item.file) {
        None => Ok(None),
        Some(source) => match item_at(source, item.item) {
            None => Ok(None),
            Some(read) => linked_by(alloc, text_of(files, item.file), source.lexemes(), read),
        },
    }
}
