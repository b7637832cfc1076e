//! What the declarations in a module lead to.
ghost use Rattle.std.specs.Prelude.{◌≡◌, ◌++◌, ◌<◌, All, List, IfOk, OnOk, is_some, length, option_map, slice_get};
ghost use Rattle.crate_items.specs.Files.{SourceFile};
ghost use Rattle.item_tree.specs.Strings.{string_value};
ghost use Rattle.std.specs.Option.{option_copied};
ghost use Rattle.crate_items.specs.Modules as spec;

use crate::files::file_table::FileTable;
use crate::items::lexeme_names::as_name;
use crate::modules::declared_module::{Declaration, DeclaredModule, ModuleFault};
use crate::modules::mod_items::ModItem;
use crate::modules::mod_resolution::{Candidate, ModDir};
use dm_base::ids::FileId;
use dm_base::name::Name;
use item_tree::lexer::span::{Span, name_text};
use item_tree::lexer::strings::string_value;
use std::alloc::{AllocError, Global};

/// A candidate by its number, and the file at its path.
#[derive(Clone, Copy)]
pub(crate) struct There {
    pub(crate) place: usize,
    pub(crate) file: FileId,
}

/// What a declaration leads to.
#[derive(Drop)]
pub(crate) enum Found {
    Nothing,
    /// A module, and what a `#![path]` goes from which its file begins with.
    Declared(DeclaredModule, Option<ModDir>),
    Faulty(ModuleFault),
}

/// How a module is declared by an item in the one of a number.
fn declared_by(number: usize, outer: &DeclaredModule, item: ModItem, name: Name) -> Declaration
    ensures { result ≡ spec.declared_by number outer.now item name }
{
    Declaration {
        parent: number,
        name,
        visibility: item.visibility,
        file: outer.file,
        item: item.item,
    }
}

/// An inline module of this declaration.
fn inline(
    alloc: Global,
    outer: &DeclaredModule,
    declaration: Declaration,
    path: Option<&[u8]>,
) -> Result<DeclaredModule, AllocError>
    ensures { IfOk result
        (λ m. m ≡ spec.inline outer.now declaration (option_copied path.entry)) }
{
    let dir = outer
        .dir
        .descend_into_definition(alloc, &declaration.name, path)?;
    let around = Vec::from_slice(alloc, outer.around.as_slice())?;
    let item = Some(declaration.item);
    Ok(DeclaredModule {
        declaration: Some(declaration),
        file: outer.file,
        item,
        dir,
        around,
    })
}

/// Adds a candidate of a number, if a file is at its path.
fn push_there(found: &mut Vec<There>, place: usize, file: Option<FileId>) -> Result<(), AllocError>
    ensures { OnOk result (found.new.items ≡ found.old.items ++ spec.there_if place file) }
{
    match file {
        None => Ok(()),
        Some(file) => {
            found.push(There { place, file })?;
            Ok(())
        }
    }
}

/// Those of the candidates at whose path there is a file.
fn all_there(
    alloc: Global,
    files: &FileTable,
    candidates: &[Candidate],
) -> Result<Vec<There>, AllocError>
    ensures exact { IfOk result
        (λ found. found.items ≡ spec.there_from files.now 0 candidates.now) }
{
    let mut found = Vec::new(alloc);
    for (place, candidate) in candidates.iter().enumerate() {
        push_there(&mut found, place, files.file_at(candidate.path()))?;
    }
    Ok(found)
}

/// The one that is there, if no other is.
fn only(found: &[There]) -> Option<There>
    ensures { result ≡ spec.only found.now }
{
    if found.len() == 1 {
        found.first().copied()
    } else {
        None
    }
}

/// Whether a module stands in a file.
fn stands_in(outer: &DeclaredModule, file: FileId) -> bool
    ensures { result ≡ spec.stands_in outer.now file }
{
    outer
        .around
        .as_slice()
        .iter()
        .any(|around| around.0 == file.0)
}

/// A module of this declaration, whose file is that of a candidate.
fn outline(
    alloc: Global,
    outer: &DeclaredModule,
    declaration: Declaration,
    file: FileId,
    candidate: &Candidate,
) -> Result<DeclaredModule, AllocError>
    ensures { IfOk result (λ m. m ≡ spec.outline outer.now declaration file candidate.now) }
{
    let dir = candidate.mod_dir(alloc, &declaration.name)?;
    let mut around = Vec::from_slice(alloc, outer.around.as_slice())?;
    around.push(file)?;
    Ok(DeclaredModule {
        declaration: Some(declaration),
        file,
        item: None,
        dir,
        around,
    })
}

/// A declaration that leads to no module.
fn faulty(declaration: Declaration, candidates: Vec<Candidate>, within: Option<FileId>) -> Found
    ensures { result ≡ spec.faulty declaration candidates.items within }
{
    Found::Faulty(ModuleFault {
        declaration,
        candidates,
        within,
    })
}

/// The folder that a `#![path]` goes from which the file of a module begins with that is declared in this one. A `#[path]`
/// before the declaration goes before it.
fn base_of(
    alloc: Global,
    outer: &DeclaredModule,
    has_path: bool,
) -> Result<Option<ModDir>, AllocError>
    ensures { IfOk result (λ base. base ≡ spec.base_of outer.now has_path) }
{
    if has_path {
        Ok(None)
    } else {
        let base = outer.dir.copy(alloc)?;
        Ok(Some(base))
    }
}

/// What a declaration leads to where the file at one of these candidates alone is there.
fn at_candidate(
    alloc: Global,
    outer: &DeclaredModule,
    has_path: bool,
    declaration: Declaration,
    candidates: Vec<Candidate>,
    there: There,
) -> Result<Found, AllocError>
    ensures exact { IfOk result (λ found. found ≡ spec.at_candidate outer.now has_path declaration
        candidates.items there.file (slice_get candidates.items there.place)) }
    ensures known { IfOk result (λ found. (files : List SourceFile) →
        there.file.0 < length files → spec.IsKnown files found) }
{
    match candidates.get(there.place) {
        None => Ok(faulty(declaration, candidates, None)),
        Some(candidate) => {
            if stands_in(outer, there.file) {
                return Ok(faulty(declaration, candidates, Some(there.file)));
            }
            let base = base_of(alloc, outer, has_path)?;
            let declared = outline(alloc, outer, declaration, there.file, candidate)?;
            Ok(Found::Declared(declared, base))
        }
    }
}

/// What a declaration leads to whose file is at one of these candidates.
fn in_file(
    alloc: Global,
    files: &FileTable,
    outer: &DeclaredModule,
    has_path: bool,
    declaration: Declaration,
    candidates: Vec<Candidate>,
) -> Result<Found, AllocError>
    ensures exact { IfOk result (λ found. found ≡
        spec.in_file files.now outer.now has_path declaration candidates.items) }
    ensures known { IfOk result (spec.IsKnown files.now) }
{
    let there = all_there(alloc, files, candidates.as_slice())?;
    match only(there.as_slice()) {
        None => Ok(faulty(declaration, candidates, None)),
        Some(there) => {
            let found = at_candidate(alloc, outer, has_path, declaration, candidates, there)?;
            Ok(found)
        }
    }
}

/// Whether there is a `#[path]`.
fn is_given(path: Option<&[u8]>) -> bool
    ensures { result ≡ is_some (option_copied path.entry) }
{
    match path {
        None => false,
        Some(_) => true,
    }
}

/// What a declaration with a `#[path]` or without leads to.
fn by_kind(
    alloc: Global,
    files: &FileTable,
    outer: &DeclaredModule,
    is_outline: bool,
    declaration: Declaration,
    path: Option<&[u8]>,
) -> Result<Found, AllocError>
    requires { outer.now.file.0 < length files.now }
    ensures exact { IfOk result (λ found. found ≡ spec.by_kind files.now outer.now is_outline
        declaration (option_copied path.entry)) }
    ensures known { IfOk result (spec.IsKnown files.now) }
{
    if is_outline {
        let candidates = outer.dir.candidates(alloc, &declaration.name, path)?;
        in_file(alloc, files, outer, is_given(path), declaration, candidates)
    } else {
        let declared = inline(alloc, outer, declaration, path)?;
        Ok(Found::Declared(declared, None))
    }
}

/// What the string of a `#[path]` stands for, if there is one.
pub(crate) fn path_value(
    alloc: Global,
    text: &[u8],
    path: Option<Span>,
) -> Result<Option<Vec<u8>>, AllocError>
    ensures { IfOk result
        (λ value. option_map (λ v. v.items) value ≡ option_map (string_value text.now) path) }
{
    match path {
        None => Ok(None),
        Some(path) => {
            let value = string_value(alloc, text, path)?;
            Ok(Some(value))
        }
    }
}

fn as_bytes(value: &Option<Vec<u8>>) -> Option<&[u8]>
    ensures { option_copied result ≡ option_map (λ v. v.items) value.now }
{
    match value {
        None => None,
        Some(value) => Some(value.as_slice()),
    }
}

/// What an item leads to that stands in the module of a number.
fn found_of(
    alloc: Global,
    files: &FileTable,
    number: usize,
    outer: &DeclaredModule,
    item: ModItem,
) -> Result<Found, AllocError>
    requires { outer.now.file.0 < length files.now }
    ensures exact { IfOk result
        (λ found. found ≡ spec.found_of files.now number outer.now item) }
    ensures known { IfOk result (spec.IsKnown files.now) }
{
    let text = files.text(outer.file);
    match as_name(alloc, name_text(text, item.name))? {
        None => Ok(Found::Nothing),
        Some(name) => {
            let declaration = declared_by(number, outer, item, name);
            let value = path_value(alloc, text, item.path)?;
            let path = as_bytes(&value);
            by_kind(alloc, files, outer, item.is_outline, declaration, path)
        }
    }
}

/// Whether an item stands in a module of its file.
fn is_same(around: Option<usize>, outer: Option<usize>) -> bool
    ensures { result ≡ spec.is_same around outer }
{
    match (around, outer) {
        (None, None) => true,
        (Some(around), Some(outer)) => around == outer,
        _ => false,
    }
}

/// Adds what an item leads to, if it stands in the module of a number.
fn push_found(
    found: &mut Vec<Found>,
    alloc: Global,
    files: &FileTable,
    number: usize,
    outer: &DeclaredModule,
    item: ModItem,
) -> Result<(), AllocError>
    requires known { All (spec.IsKnown files.now) found.old.items }
    requires there { outer.now.file.0 < length files.now }
    ensures exact { OnOk result
        (found.new.items ≡ found.old.items ++ spec.found_if files.now number outer.now item) }
    ensures known { All (spec.IsKnown files.now) found.new.items }
{
    if is_same(item.home, outer.item) {
        let led = found_of(alloc, files, number, outer, item)?;
        found.push(led)?;
    }
    Ok(())
}

/// What those of some items lead to that stand in the module of a number.
pub(crate) fn founds(
    alloc: Global,
    files: &FileTable,
    number: usize,
    outer: &DeclaredModule,
    items: &[ModItem],
) -> Result<Vec<Found>, AllocError>
    requires { outer.now.file.0 < length files.now }
    ensures exact { IfOk result
        (λ found. found.items ≡ spec.founds_from files.now number outer.now items.now) }
    ensures known { IfOk result
        (λ found. All (spec.IsKnown files.now) found.items) }
{
    let mut found = Vec::new(alloc);
    for item in items {
        push_found(&mut found, alloc, files, number, outer, *item)?;
    }
    Ok(found)
}
