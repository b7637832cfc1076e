//! What the attributes of a crate set: those that its root's file begins with.
ghost use Rattle.std.specs.Prelude.{◌≡◌, ◌==◌, ◌++◌, ◌∷◌, [], IfOk, OnOk, map, slice_index};
ghost use Rattle.std.specs.List.{flat_map};
ghost use Rattle.crate_items.specs.CrateAttributes as spec;

use crate::files::file_table::FileTable;
use crate::items::item_attributes::file_attributes;
use crate::items::lexeme_names::names_among;
use crate::items::lookups::{lexemes_of, text_of};
use crate::modules::CrateModules;
use dm_base::ids::FileId;
use dm_base::name::Name;
use dm_base::symbol::Symbol;
use item_tree::attributes::attribute_kind::{AttributeKind, lexemes_in};
use item_tree::lexer::lexeme::Lexeme;
use item_tree::lexer::span::string_text;
use std::alloc::{AllocError, Global};

/// What an attribute of a crate sets.
#[derive(Drop)]
pub enum CrateAttribute {
    NoStd,
    NoCore,
    CoherenceIsCore,
    /// How deep macros may expand.
    RecursionLimit(u32),
    /// An unstable feature that is enabled.
    Feature(Symbol),
}

/// Whether a plus stands first, the one sign that `parse` takes.
fn has_plus(digits: &str) -> bool
    ensures { result ≡ (slice_index digits.now 0 == 43) }
{
    match digits.as_bytes().first() {
        None => false,
        Some(byte) => *byte == b'+',
    }
}

/// Decimal digits of a value of 32 bits.
fn number(digits: &str) -> Option<u32>
    ensures { result ≡ spec.number digits.now }
{
    if has_plus(digits) {
        return None;
    }
    digits.parse().ok()
}

/// The number that some bytes write.
fn number_in(bytes: &[u8]) -> Option<u32>
    ensures { result ≡ spec.number_in bytes.now }
{
    match std::str::from_utf8(bytes) {
        Err(_) => None,
        Ok(digits) => number(digits),
    }
}

/// Adds the limit that some bytes write, if it is a number.
fn push_limit(found: &mut Vec<CrateAttribute>, limit: Option<u32>) -> Result<(), AllocError>
    ensures { OnOk result (found.new.items ≡ found.old.items ++ spec.limits limit) }
{
    match limit {
        None => Ok(()),
        Some(limit) => {
            found.push(CrateAttribute::RecursionLimit(limit))?;
            Ok(())
        }
    }
}

/// Adds features of these names.
fn push_features(
    found: &mut Vec<CrateAttribute>,
    alloc: Global,
    names: &[Name],
) -> Result<(), AllocError>
    ensures { OnOk result (found.new.items ≡ found.old.items ++ map spec.feature names.now) }
{
    for name in names {
        let feature = Symbol::new(alloc, name.as_str())?;
        found.push(CrateAttribute::Feature(feature))?;
    }
    Ok(())
}

/// Adds a setting.
fn push_flag(found: &mut Vec<CrateAttribute>, flag: CrateAttribute) -> Result<(), AllocError>
    ensures { OnOk result (found.new.items ≡ found.old.items ++ flag ∷ []) }
{
    found.push(flag)?;
    Ok(())
}

/// Adds what an attribute sets.
fn push_set(
    found: &mut Vec<CrateAttribute>,
    alloc: Global,
    text: &[u8],
    lexemes: &[Lexeme],
    kind: AttributeKind,
) -> Result<(), AllocError>
    ensures { OnOk result
        (found.new.items ≡ found.old.items ++ spec.set_by text.now lexemes.now kind) }
{
    match kind {
        AttributeKind::NoStd => push_flag(found, CrateAttribute::NoStd),
        AttributeKind::NoCore => push_flag(found, CrateAttribute::NoCore),
        AttributeKind::RustcCoherenceIsCore => push_flag(found, CrateAttribute::CoherenceIsCore),
        AttributeKind::RecursionLimit(limit) => {
            push_limit(found, number_in(string_text(text, limit)))
        }
        AttributeKind::Feature(range) => {
            let names = names_among(alloc, text, lexemes_in(lexemes, range))?;
            push_features(found, alloc, names.as_slice())
        }
        _ => Ok(()),
    }
}

/// What some attributes set.
fn set_by_all(
    alloc: Global,
    text: &[u8],
    lexemes: &[Lexeme],
    kinds: &[AttributeKind],
) -> Result<Vec<CrateAttribute>, AllocError>
    ensures { IfOk result (λ found. found.items ≡
        flat_map (spec.set_by text.now lexemes.now) kinds.now) }
{
    let mut found = Vec::new(alloc);
    for kind in kinds {
        push_set(&mut found, alloc, text, lexemes, *kind)?;
    }
    Ok(found)
}

/// What the active attributes of a crate set, in order, by the file of its root.
///
/// # Errors
///
/// Fails only where memory runs out.
pub fn crate_attributes(
    alloc: Global,
    list: &CrateModules,
    files: &FileTable,
    root: FileId,
) -> Result<Vec<CrateAttribute>, AllocError>
    ensures { IfOk result
        (λ found. found.items ≡ spec.crate_attributes list.now files.now root) }
{
    let kinds = file_attributes(alloc, list, root)?;
    let text = text_of(files, root);
    let lexemes = lexemes_of(list, root);
    set_by_all(alloc, text, lexemes, kinds.as_slice())
}
