//! Which functions are procedural macros, by the attributes before them.
ghost use Rattle.std.specs.Prelude.{◌≡◌, IfOk};
ghost use Rattle.std.specs.List.{find, list_any};
ghost use Rattle.std.specs.Option.{option_copied};
ghost use Rattle.crate_items.specs.ProceduralMacros as spec;

use crate::files::file_table::FileTable;
use crate::items::declared_item::DeclaredItem;
use crate::items::item_attributes::item_attributes;
use crate::items::lexeme_names::lexeme_name;
use crate::items::lookups::{lexemes_of, text_of};
use crate::modules::CrateModules;
use dm_base::macros::ProcMacroKind;
use dm_base::name::Name;
use item_tree::attributes::attribute_kind::{AttributeKind, lexemes_in};
use item_tree::items::item_kind::ItemKind;
use item_tree::lexer::lexeme::{Lexeme, LexemeKind};
use std::alloc::{AllocError, Global};

/// The procedural macro that a function is.
#[derive(Drop)]
pub struct ProceduralMacro {
    pub kind: ProcMacroKind,
    /// The name that it is called by: that of the function, or the one that a derive has in its attribute.
    pub name: Name,
}

fn is_bang(kind: AttributeKind) -> bool
    ensures { result ≡ spec.is_bang kind }
{
    matches!(kind, AttributeKind::ProcMacro)
}

fn is_attribute(kind: AttributeKind) -> bool
    ensures { result ≡ spec.is_attribute kind }
{
    matches!(kind, AttributeKind::ProcMacroAttribute)
}

fn is_derive(kind: &AttributeKind) -> bool
    ensures { result ≡ spec.is_derive kind.now }
{
    matches!(*kind, AttributeKind::ProcMacroDerive(_))
}

fn any_bang(kinds: &[AttributeKind]) -> bool
    ensures { result ≡ list_any spec.is_bang kinds.now }
{
    kinds.iter().any(|kind| is_bang(*kind))
}

fn any_attribute(kinds: &[AttributeKind]) -> bool
    ensures { result ≡ list_any spec.is_attribute kinds.now }
{
    kinds.iter().any(|kind| is_attribute(*kind))
}

/// The first attribute that declares a derive.
fn first_derive(kinds: &[AttributeKind]) -> Option<&AttributeKind>
    ensures { option_copied result ≡ find spec.is_derive kinds.now }
{
    kinds.iter().find(|kind| is_derive(kind))
}

/// Whether nothing or a comma follows a name.
fn ends_name(rest: &[Lexeme]) -> bool
    ensures { result ≡ spec.ends_name rest.now }
{
    match rest.first() {
        None => true,
        Some(next) => matches!(next.kind, LexemeKind::Mark(b',')),
    }
}

/// The name that a list begins with.
pub(crate) fn first_name(
    alloc: Global,
    text: &[u8],
    list: &[Lexeme],
) -> Result<Option<Name>, AllocError>
    ensures { IfOk result (λ name. name ≡ spec.first_name text.now list.now) }
{
    match list.split_first() {
        None => Ok(None),
        Some((first, rest)) => {
            if ends_name(rest) {
                lexeme_name(alloc, text, *first)
            } else {
                Ok(None)
            }
        }
    }
}

/// A macro of a kind; none where it has no name.
fn of_kind(kind: ProcMacroKind, name: Option<Name>) -> Option<ProceduralMacro>
    ensures { result ≡ spec.of_kind kind name }
{
    match name {
        None => None,
        Some(name) => Some(ProceduralMacro { kind, name }),
    }
}

/// A copy of the name of an item.
fn name_of(alloc: Global, item: &DeclaredItem) -> Result<Option<Name>, AllocError>
    ensures { IfOk result (λ name. name ≡ item.now.name) }
{
    match &item.name {
        None => Ok(None),
        Some(name) => {
            let copy = name.copy(alloc)?;
            Ok(Some(copy))
        }
    }
}

/// The derive that an attribute declares.
fn derive_of(
    alloc: Global,
    text: &[u8],
    lexemes: &[Lexeme],
    kind: AttributeKind,
) -> Result<Option<ProceduralMacro>, AllocError>
    ensures { IfOk result (λ made. made ≡ spec.derive_of text.now lexemes.now kind) }
{
    match kind {
        AttributeKind::ProcMacroDerive(range) => {
            let name = first_name(alloc, text, lexemes_in(lexemes, range))?;
            Ok(of_kind(ProcMacroKind::CustomDerive, name))
        }
        _ => Ok(None),
    }
}

/// The derive that the first of some attributes declares that declares one.
fn derive_among(
    alloc: Global,
    text: &[u8],
    lexemes: &[Lexeme],
    kinds: &[AttributeKind],
) -> Result<Option<ProceduralMacro>, AllocError>
    ensures { IfOk result (λ made. made ≡
        spec.derive_by text.now lexemes.now (find spec.is_derive kinds.now)) }
{
    match first_derive(kinds) {
        None => Ok(None),
        Some(kind) => derive_of(alloc, text, lexemes, *kind),
    }
}

/// The macro that some attributes make of a function.
fn made_by(
    alloc: Global,
    text: &[u8],
    lexemes: &[Lexeme],
    item: &DeclaredItem,
    kinds: &[AttributeKind],
) -> Result<Option<ProceduralMacro>, AllocError>
    ensures { IfOk result
        (λ made. made ≡ spec.made_by text.now lexemes.now item.now.name kinds.now) }
{
    if any_bang(kinds) {
        let name = name_of(alloc, item)?;
        Ok(of_kind(ProcMacroKind::Bang, name))
    } else if any_attribute(kinds) {
        let name = name_of(alloc, item)?;
        Ok(of_kind(ProcMacroKind::Attr, name))
    } else {
        derive_among(alloc, text, lexemes, kinds)
    }
}

/// The procedural macro that a function is.
fn of_function(
    alloc: Global,
    list: &CrateModules,
    files: &FileTable,
    item: &DeclaredItem,
) -> Result<Option<ProceduralMacro>, AllocError>
    ensures { IfOk result (λ made. made ≡ spec.of_function list.now files.now item.now) }
{
    let kinds = item_attributes(alloc, list, item)?;
    let text = text_of(files, item.file);
    let lexemes = lexemes_of(list, item.file);
    made_by(alloc, text, lexemes, item, kinds.as_slice())
}

/// The procedural macro that an item is, by the active attributes before it: a function under `proc_macro`, under
/// `proc_macro_attribute` or under `proc_macro_derive`, and where it is under two of them, by the one named first here.
/// A derive has the name that its attribute begins with, the others that of the function; without a name it is none.
/// Whether the item stands in the root of a crate that has such macros is not asked.
///
/// # Errors
///
/// Fails only where memory runs out.
pub fn procedural_macro(
    alloc: Global,
    list: &CrateModules,
    files: &FileTable,
    item: &DeclaredItem,
) -> Result<Option<ProceduralMacro>, AllocError>
    ensures { IfOk result (λ made. made ≡ spec.procedural_macro list.now files.now item.now) }
{
    match item.kind {
        ItemKind::Function => of_function(alloc, list, files, item),
        _ => Ok(None),
    }
}
