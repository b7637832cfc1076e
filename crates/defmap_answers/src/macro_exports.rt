//! The crates whose roots may have macros that are not written there as such.
//!
//! Procedural macros are written as functions. A macro that is called may export macros where `macro_export` stands in the
//! call or in a macro of its name, and where it includes a file.
use crate::crates::Crates;
use crate::macro_calls::{item_of, path_of};
use crate::macro_homes::MacroHome;
use crate::places::source_of;
use crate_items::items::declared_item::DeclaredItem;
use crate_items::modules::CrateModules;
use dm_base::ids::{Crate, ModuleId};
use indexmap::IndexSet;
use item_tree::items::item_kind::ItemKind;
use item_tree::lexer::lexeme::{Lexeme, LexemeKind};
use item_tree::lexer::word::Word;
use std::alloc::{AllocError, Global};

/// The macro that puts the items of a file in its place.
const INCLUDE: &'static str = "include";

/// Whether `macro_export` is among lexemes.
fn is_among(lexemes: &[Lexeme]) -> bool {
    for lexeme in lexemes {
        if matches!(lexeme.kind, LexemeKind::Word(Word::MacroExport)) {
            return true;
        }
    }
    false
}

/// Whether `macro_export` stands in an item, behind the word that it begins with.
fn has_export(lists: &[CrateModules], krate: usize, item: &DeclaredItem) -> bool {
    let Some(source) = source_of(lists, krate, item.file) else {
        return false;
    };
    let Some(written) = source.items().get(item.item) else {
        return false;
    };
    match source.lexemes().get(written.word..written.behind) {
        None => false,
        Some(lexemes) => is_among(lexemes),
    }
}

/// Adds the names of the macros of a crate that export macros.
fn add_names<'a>(
    names: &mut IndexSet<&'a str>,
    lists: &[CrateModules],
    krate: usize,
    items: &'a [DeclaredItem],
) -> Result<(), AllocError> {
    for item in items {
        let is_macro = matches!(item.kind, ItemKind::MacroRules | ItemKind::Macro2);
        if !is_macro || !has_export(lists, krate, item) {
            continue;
        }
        if let Some(name) = &item.name {
            names.insert(name.as_str())?;
        }
    }
    Ok(())
}

/// The names of the macros that export macros.
fn exporting_names<'a>(
    alloc: Global,
    lists: &[CrateModules],
    items: &'a [Vec<DeclaredItem>],
) -> Result<IndexSet<&'a str>, AllocError> {
    let mut names = IndexSet::new(alloc);
    for (krate, items) in items.iter().enumerate() {
        add_names(&mut names, lists, krate, items.as_slice())?;
    }
    Ok(names)
}

/// Whether a macro call may export macros.
fn may_export<C: Crates>(
    alloc: Global,
    crates: &C,
    names: &IndexSet<&str>,
    call: MacroHome,
) -> Result<bool, AllocError> {
    if let Some(item) = item_of(crates.items(), call) {
        if has_export(crates.lists(), call.krate, item) {
            return Ok(true);
        }
    }
    let Some(path) = path_of(alloc, crates, call)? else {
        return Ok(false);
    };
    match path.segments().last() {
        None => Ok(false),
        Some(name) => Ok(name.as_str() == INCLUDE || names.contains(&name.as_str())),
    }
}

/// Adds the root of a crate.
fn add_root<C: Crates>(
    roots: &mut IndexSet<ModuleId>,
    crates: &C,
    krate: usize,
) -> Result<(), AllocError> {
    let krate = Crate(u32::try_from(krate).unwrap_or(u32::MAX));
    if let Some(root) = crates.root_of(krate) {
        roots.insert(root)?;
    }
    Ok(())
}

/// Adds the roots of the crates of procedural macros.
fn add_procedural<C: Crates>(roots: &mut IndexSet<ModuleId>, crates: &C) -> Result<(), AllocError> {
    for krate in 0..crates.names().len() {
        if crates.is_procedural(krate) {
            add_root(roots, crates, krate)?;
        }
    }
    Ok(())
}

/// The roots of the crates of procedural macros, and of those in which a macro is called that may export macros.
pub(crate) fn exporting_roots<C: Crates>(
    alloc: Global,
    crates: &C,
    homes: &[MacroHome],
) -> Result<IndexSet<ModuleId>, AllocError> {
    let names = exporting_names(alloc, crates.lists(), crates.items())?;
    let mut roots = IndexSet::new(alloc);
    add_procedural(&mut roots, crates)?;
    for call in homes {
        if may_export(alloc, crates, &names, *call)? {
            add_root(&mut roots, crates, call.krate)?;
        }
    }
    Ok(roots)
}
