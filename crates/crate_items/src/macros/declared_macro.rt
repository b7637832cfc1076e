//! Which macros are exported, and which textual macros of modules and extern crates stay behind these.
ghost use Rattle.std.specs.Prelude.{◌≡◌, ◌++◌, IfOk, OnOk};
ghost use Rattle.std.specs.List.{flat_map, list_any};
ghost use Rattle.crate_items.specs.DeclaredMacros as spec;

use crate::files::file_table::FileTable;
use crate::items::declared_item::DeclaredItem;
use crate::items::item_attributes::item_attributes;
use crate::items::lexeme_names::names_among;
use crate::items::lookups::{lexemes_of, text_of};
use crate::modules::CrateModules;
use dm_base::name::Name;
use item_tree::attributes::attribute_kind::{AttributeKind, lexemes_in};
use item_tree::lexer::lexeme::Lexeme;
use std::alloc::{AllocError, Global};
use std::marker::Model;

/// Which textual macros of a module or of an extern crate stay behind it. A contract sees the names as a list.
pub struct MacroUse {
    is_whole: bool,
    names: Vec<Name>,
}

/// Hand-written `Drop`, to keep proofs small: dropping one is then a single call.
impl Drop for MacroUse {
    fn drop(self) {
        let MacroUse {
            is_whole: _is_whole,
            names: _names,
        } = self;
    }
}

impl Model for MacroUse {
    ghost use Rattle.crate_items.specs.DeclaredMacros.{Used};

    ghost Value = { Used };

    ghost view = { λ u. record { is_whole = u.is_whole; names = u.names.items } };
}

impl MacroUse {
    /// Whether all do: `#[macro_use]`.
    pub fn is_whole(&self) -> bool
        ensures { result ≡ self.now.is_whole }
    {
        self.is_whole
    }

    /// Those that do by their names: `#[macro_use(a, b)]`.
    pub fn names(&self) -> &[Name]
        ensures { result.now ≡ self.now.names }
    {
        self.names.as_slice()
    }
}

fn is_export(kind: AttributeKind) -> bool
    ensures { result ≡ spec.is_export kind }
{
    matches!(kind, AttributeKind::MacroExport)
}

fn uses_all(kind: AttributeKind) -> bool
    ensures { result ≡ spec.uses_all kind }
{
    matches!(kind, AttributeKind::MacroUse)
}

fn any_export(kinds: &[AttributeKind]) -> bool
    ensures { result ≡ list_any spec.is_export kinds.now }
{
    kinds.iter().any(|kind| is_export(*kind))
}

fn any_uses_all(kinds: &[AttributeKind]) -> bool
    ensures { result ≡ list_any spec.uses_all kinds.now }
{
    kinds.iter().any(|kind| uses_all(*kind))
}

/// Whether a macro is exported: an active `#[macro_export]` stands before it.
///
/// # Errors
///
/// Fails only where memory runs out.
pub fn is_macro_exported(
    alloc: Global,
    list: &CrateModules,
    item: &DeclaredItem,
) -> Result<bool, AllocError>
    ensures { IfOk result (λ exported. exported ≡ spec.is_macro_exported list.now item.now) }
{
    let kinds = item_attributes(alloc, list, item)?;
    Ok(any_export(kinds.as_slice()))
}

/// Adds the names that a `macro_use` has in parentheses.
fn push_used(
    names: &mut Vec<Name>,
    alloc: Global,
    text: &[u8],
    lexemes: &[Lexeme],
    kind: AttributeKind,
) -> Result<(), AllocError>
    ensures { OnOk result
        (names.new.items ≡ names.old.items ++ spec.used_by text.now lexemes.now kind) }
{
    match kind {
        AttributeKind::MacroUseOf(range) => {
            let more = names_among(alloc, text, lexemes_in(lexemes, range))?;
            push_all(names, more)
        }
        _ => Ok(()),
    }
}

fn push_all(names: &mut Vec<Name>, more: Vec<Name>) -> Result<(), AllocError>
    ensures { OnOk result (names.new.items ≡ names.old.items ++ more.items) }
{
    for name in more {
        names.push(name)?;
    }
    Ok(())
}

/// The names that `macro_use`s have in parentheses.
fn used_names(
    alloc: Global,
    text: &[u8],
    lexemes: &[Lexeme],
    kinds: &[AttributeKind],
) -> Result<Vec<Name>, AllocError>
    ensures { IfOk result (λ names. names.items ≡
        flat_map (spec.used_by text.now lexemes.now) kinds.now) }
{
    let mut names = Vec::new(alloc);
    for kind in kinds {
        push_used(&mut names, alloc, text, lexemes, *kind)?;
    }
    Ok(names)
}

/// Which macros some attributes let through.
fn used(
    alloc: Global,
    text: &[u8],
    lexemes: &[Lexeme],
    kinds: &[AttributeKind],
) -> Result<MacroUse, AllocError>
    ensures { IfOk result (λ used. used ≡ spec.used text.now lexemes.now kinds.now) }
{
    let names = used_names(alloc, text, lexemes, kinds)?;
    Ok(MacroUse {
        is_whole: any_uses_all(kinds),
        names,
    })
}

/// Which textual macros of a module or of an extern crate stay behind it, by the active `macro_use`s that stand before
/// it.
///
/// # Errors
///
/// Fails only where memory runs out.
pub fn macro_use(
    alloc: Global,
    list: &CrateModules,
    files: &FileTable,
    item: &DeclaredItem,
) -> Result<MacroUse, AllocError>
    ensures { IfOk result (λ used. used ≡ spec.macro_use list.now files.now item.now) }
{
    let kinds = item_attributes(alloc, list, item)?;
    let text = text_of(files, item.file);
    let lexemes = lexemes_of(list, item.file);
    used(alloc, text, lexemes, kinds.as_slice())
}
