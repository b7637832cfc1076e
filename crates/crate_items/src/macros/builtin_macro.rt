//! Macros of the compiler: those that `rustc_builtin_macro` stands before.
ghost use Rattle.std.specs.Prelude.{◌≡◌, IfOk};
ghost use Rattle.std.specs.List.{find};
ghost use Rattle.std.specs.Option.{option_copied};
ghost use Rattle.crate_items.specs.BuiltinMacros as spec;

use crate::files::file_table::FileTable;
use crate::items::declared_item::DeclaredItem;
use crate::items::item_attributes::item_attributes;
use crate::items::lookups::{lexemes_of, text_of};
use crate::macros::procedural_macro::first_name;
use crate::modules::CrateModules;
use dm_base::macros::{MacroCallStyles, MacroExpander};
use dm_base::name::Name;
use item_tree::attributes::attribute_kind::{AttributeKind, lexemes_in};
use item_tree::items::item_kind::ItemKind;
use item_tree::lexer::lexeme::Lexeme;
use std::alloc::{AllocError, Global};

fn is_builtin(kind: &AttributeKind) -> bool
    ensures { result ≡ spec.is_builtin kind.now }
{
    match *kind {
        AttributeKind::RustcBuiltinMacro => true,
        AttributeKind::RustcBuiltinMacroOf(_) => true,
        _ => false,
    }
}

/// The first attribute that makes a macro one of the compiler.
fn first_builtin(kinds: &[AttributeKind]) -> Option<&AttributeKind>
    ensures { option_copied result ≡ find spec.is_builtin kinds.now }
{
    kinds.iter().find(|kind| is_builtin(kind))
}

/// Whether the compiler has a derive of a name.
#[tactic(auto, unfolding(crate::specs::BuiltinMacros::is_derive_name))]
fn is_derive_name(name: &[u8]) -> bool
    ensures { result ≡ spec.is_derive_name name.now }
{
    name == b"Clone".as_slice()
        || name == b"Copy".as_slice()
        || name == b"Debug".as_slice()
        || name == b"Default".as_slice()
        || name == b"Eq".as_slice()
        || name == b"PartialEq".as_slice()
        || name == b"Ord".as_slice()
        || name == b"PartialOrd".as_slice()
        || name == b"Hash".as_slice()
        || name == b"From".as_slice()
        || name == b"CoercePointee".as_slice()
        || name == b"ConstParamTy".as_slice()
        || name == b"UnsizedConstParamTy".as_slice()
}

/// Whether the compiler has an attribute of a name that a macro declares.
#[tactic(auto, unfolding(crate::specs::BuiltinMacros::is_attribute_name))]
fn is_attribute_name(name: &[u8]) -> bool
    ensures { result ≡ spec.is_attribute_name name.now }
{
    name == b"derive".as_slice()
        || name == b"derive_const".as_slice()
        || name == b"test".as_slice()
        || name == b"test_case".as_slice()
        || name == b"bench".as_slice()
        || name == b"cfg_accessible".as_slice()
        || name == b"cfg_eval".as_slice()
        || name == b"global_allocator".as_slice()
        || name == b"alloc_error_handler".as_slice()
        || name == b"define_opaque".as_slice()
}

/// The expander of a macro of the compiler that is neither a derive nor an attribute.
fn other_expander(kind: ItemKind) -> MacroExpander
    ensures { result ≡ spec.other_expander kind }
{
    match kind {
        ItemKind::Macro2 => MacroExpander::UnimplementedBuiltIn,
        _ => MacroExpander::BuiltIn,
    }
}

/// The expander of the macro of the compiler that has a name.
fn expander_named(kind: ItemKind, name: &[u8]) -> MacroExpander
    ensures { result ≡ spec.expander_named kind name.now }
{
    if is_derive_name(name) {
        MacroExpander::BuiltInDerive
    } else if is_attribute_name(name) {
        MacroExpander::BuiltInAttr
    } else {
        other_expander(kind)
    }
}

/// The same of one that may have no name.
fn expander_if_named(kind: ItemKind, name: &Option<Name>) -> MacroExpander
    ensures { result ≡ spec.expander_if_named kind name.now }
{
    match name {
        None => other_expander(kind),
        Some(name) => expander_named(kind, name.as_str().as_bytes()),
    }
}

/// The name that an attribute has in parentheses, before helpers.
fn name_within(
    alloc: Global,
    text: &[u8],
    lexemes: &[Lexeme],
    kind: AttributeKind,
) -> Result<Option<Name>, AllocError>
    ensures { IfOk result (λ name. name ≡ spec.name_within text.now lexemes.now kind) }
{
    match kind {
        AttributeKind::RustcBuiltinMacroOf(range) => {
            first_name(alloc, text, lexemes_in(lexemes, range))
        }
        _ => Ok(None),
    }
}

/// The expander of the macro of the compiler that an attribute makes of an item.
fn builtin_expander(
    alloc: Global,
    list: &CrateModules,
    files: &FileTable,
    item: &DeclaredItem,
    kind: AttributeKind,
) -> Result<MacroExpander, AllocError>
    ensures { IfOk result
        (λ expander. expander ≡ spec.builtin_expander list.now files.now item.now kind) }
{
    let lexemes = lexemes_of(list, item.file);
    let within = name_within(alloc, text_of(files, item.file), lexemes, kind)?;
    match within {
        None => Ok(expander_if_named(item.kind, &item.name)),
        Some(name) => Ok(expander_named(item.kind, name.as_str().as_bytes())),
    }
}

/// How a macro is expanded, by the active attributes before it. One without `rustc_builtin_macro`
/// is read by its rules, and called as a function. One under it is the macro of the compiler of the
/// name in its parentheses, or of its own name: a derive or an attribute by that name. Any other is
/// called as a function, if `macro_rules!` declares it; one by `macro` may be called in each way.
///
/// # Errors
///
/// Fails only where memory runs out.
pub fn macro_expander(
    alloc: Global,
    list: &CrateModules,
    files: &FileTable,
    item: &DeclaredItem,
) -> Result<MacroExpander, AllocError>
    ensures { IfOk result (λ expander. expander ≡ spec.macro_expander list.now files.now item.now) }
{
    let kinds = item_attributes(alloc, list, item)?;
    match first_builtin(kinds.as_slice()) {
        Some(kind) => builtin_expander(alloc, list, files, item, *kind),
        None => Ok(MacroExpander::Declarative {
            styles: MacroCallStyles::FN_LIKE,
        }),
    }
}
