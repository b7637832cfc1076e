//! The variants of enums.
ghost use Rattle.std.specs.Prelude.{◌≡◌, ◌++◌, IfOk, OnOk};
ghost use Rattle.std.specs.List.{flat_map};
ghost use Rattle.crate_items.specs.DeclaredVariants as spec;

use crate::files::file_table::FileTable;
use crate::files::source::Source;
use crate::items::constructor::any_non_exhaustive;
use crate::items::declared_field::{FieldVisibilities, fields_in};
use crate::items::declared_item::{DeclaredItem, written};
use crate::items::item_attributes::kinds_in;
use crate::items::lexeme_names::name_at;
use crate::items::lookups::{item_at, text_of};
use crate::items::shapes::as_shape;
use crate::modules::CrateModules;
use dm_base::fields_shape::FieldsShape;
use dm_base::name::Name;
use dm_base::visibility::RawVisibility;
use item_tree::cfg::CfgOptions;
use item_tree::items::item_kind::ItemKind;
use item_tree::items::members::{Member, MemberKind, members};
use item_tree::items::{Item, Range, visibility};
use std::alloc::{AllocError, Global};

/// A variant of an enum.
#[derive(Drop)]
pub struct DeclaredVariant {
    /// Its name, without the `r#` of a raw one.
    pub name: Name,
    pub shape: FieldsShape,
    /// The visibilities of the fields that the crate has, in order: each is seen as the enum.
    pub fields: FieldVisibilities,
    /// Whether it stands under `#[non_exhaustive]`: then its crate alone sees its constructor.
    pub is_non_exhaustive: bool,
    /// The lexeme of its name, by its number in the file.
    pub place: usize,
}

/// Where the attributes of a member stand.
fn outer(member: Member) -> Range
    ensures { result ≡ spec.outer member }
{
    Range {
        first: member.first,
        behind: member.visibility,
    }
}

/// Whether a member has a name, and each `cfg` before it may hold.
fn is_left(options: &CfgOptions, text: &[u8], source: &Source, member: Member) -> bool
    ensures { result ≡ spec.is_left options.now text.now source.now member }
{
    member.named
        && source
            .attributes()
            .is_cfg_enabled(options, text, source.active_conditions(), outer(member))
}

/// Whether a member stands under `#[non_exhaustive]`.
fn is_non_exhaustive(alloc: Global, source: &Source, member: Member) -> Result<bool, AllocError>
    ensures { IfOk result (λ is_so. is_so ≡ spec.is_non_exhaustive source.now member) }
{
    let kinds = kinds_in(alloc, source, outer(member))?;
    Ok(any_non_exhaustive(kinds.as_slice()))
}

/// Adds a member of this name with these fields, if there is a name.
fn push_named(
    found: &mut Vec<DeclaredVariant>,
    alloc: Global,
    source: &Source,
    member: Member,
    name: Option<Name>,
    fields: Vec<RawVisibility>,
) -> Result<(), AllocError>
    ensures { OnOk result
        (found.new.items ≡ found.old.items ++ spec.of_name source.now member name fields.items) }
{
    match name {
        None => Ok(()),
        Some(name) => {
            let is_non_exhaustive = is_non_exhaustive(alloc, source, member)?;
            found.push(DeclaredVariant {
                name,
                shape: as_shape(member.fields.shape),
                fields: FieldVisibilities::new(fields),
                is_non_exhaustive,
                place: member.name,
            })?;
            Ok(())
        }
    }
}

/// Adds the variant that a member is, if the crate has it.
fn push_variant(
    found: &mut Vec<DeclaredVariant>,
    alloc: Global,
    options: &CfgOptions,
    text: &[u8],
    source: &Source,
    outer: visibility::RawVisibility,
    member: Member,
) -> Result<(), AllocError>
    ensures { OnOk result (found.new.items ≡ found.old.items
        ++ spec.variant_of options.now text.now source.now outer member) }
{
    if is_left(options, text, source, member) {
        let name = name_at(alloc, text, source.lexemes(), member.name)?;
        let fields = fields_in(alloc, options, text, source, Some(outer), member.fields)?;
        push_named(found, alloc, source, member, name, fields)?;
    }
    Ok(())
}

/// The variants that some members are.
fn variants_among(
    alloc: Global,
    options: &CfgOptions,
    text: &[u8],
    source: &Source,
    outer: visibility::RawVisibility,
    members: &[Member],
) -> Result<Vec<DeclaredVariant>, AllocError>
    ensures { IfOk result (λ found. found.items ≡
        flat_map (spec.variant_of options.now text.now source.now outer) members.now) }
{
    let mut found = Vec::new(alloc);
    for member in members {
        push_variant(&mut found, alloc, options, text, source, outer, *member)?;
    }
    Ok(found)
}

/// The variants in the body of an enum of this visibility.
fn variants_in_body(
    alloc: Global,
    options: &CfgOptions,
    text: &[u8],
    source: &Source,
    outer: visibility::RawVisibility,
    body: Option<Range>,
) -> Result<Vec<DeclaredVariant>, AllocError>
    ensures { IfOk result (λ found. found.items ≡
        spec.variants_in_body options.now text.now source.now outer body) }
{
    match body {
        None => Ok(Vec::new(alloc)),
        Some(range) => {
            let kind = MemberKind::Variant;
            let all = members(alloc, source.lexemes(), source.partners(), range, kind)?;
            variants_among(alloc, options, text, source, outer, all.as_slice())
        }
    }
}

/// The variants of an item of a tree.
fn variants_of_item(
    alloc: Global,
    options: &CfgOptions,
    text: &[u8],
    source: &Source,
    item: Item,
) -> Result<Vec<DeclaredVariant>, AllocError>
    ensures { IfOk result (λ found. found.items ≡
        spec.variants_of_item options.now text.now source.now item item.kind) }
{
    match item.kind {
        ItemKind::Enum => {
            let outer = written(source.lexemes(), item);
            variants_in_body(alloc, options, text, source, outer, item.body)
        }
        _ => Ok(Vec::new(alloc)),
    }
}

/// The variants of an enum that the crate has, by its options, in order: each with its name, and the shape of its fields
/// and their visibilities. What is no enum has none.
///
/// # Errors
///
/// Fails only where memory runs out.
pub fn declared_variants(
    alloc: Global,
    options: &CfgOptions,
    list: &CrateModules,
    files: &FileTable,
    item: &DeclaredItem,
) -> Result<Vec<DeclaredVariant>, AllocError>
    ensures { IfOk result (λ found. found.items ≡
        spec.declared_variants options.now list.now files.now item.now) }
{
    match list.sources().get(item.file) {
        None => Ok(Vec::new(alloc)),
        Some(source) => match item_at(source, item.item) {
            None => Ok(Vec::new(alloc)),
            Some(read) => {
                variants_of_item(alloc, options, text_of(files, item.file), source, read)
            }
        },
    }
}
