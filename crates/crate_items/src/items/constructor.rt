//! Whom the constructors of structs are shown to.
ghost use Rattle.std.specs.Prelude.{◌≡◌, ◌<◌, ◌&&◌, IfOk, fold, length, slice_get};
ghost use Rattle.std.specs.List.{list_any};
ghost use Rattle.crate_items.specs.ItemAttributes.{item_attributes};
ghost use Rattle.crate_items.specs.Constructors as spec;

use crate::files::file_table::FileTable;
use crate::files::source::Source;
use crate::items::declared_field::{field_written, is_left};
use crate::items::declared_item::{DeclaredItem, written};
use crate::items::item_attributes::item_attributes;
use crate::items::lookups::{item_at, text_of};
use crate::modules::CrateModules;
use crate::modules::module_visibility::DeclaredVisibility;
use dm_base::source::Edition;
use item_tree::attributes::attribute_kind::AttributeKind;
use item_tree::cfg::CfgOptions;
use item_tree::items::Item;
use item_tree::items::fields::item_fields;
use item_tree::items::item_kind::ItemKind;
use item_tree::items::members::{Fields, FieldsShape, Member, MemberKind, members};
use item_tree::items::visibility::RawVisibility;
use std::alloc::{AllocError, Global};

/// A visibility as it is written.
#[derive(Clone, Copy, PartialEq, Eq, Debug)]
pub struct WrittenVisibility {
    pub written: RawVisibility,
    /// Whom that shows to; none where it leads to no module around: then it shows to all.
    pub shown: Option<DeclaredVisibility>,
}

/// Whether one visibility shows to fewer than another of the same module.
fn shows_fewer(one: Option<DeclaredVisibility>, other: Option<DeclaredVisibility>) -> bool
    ensures { result ≡ spec.shows_fewer one other }
{
    match (one, other) {
        (Some(DeclaredVisibility::Within(_)), None | Some(DeclaredVisibility::Public)) => true,
        (Some(DeclaredVisibility::Within(inner)), Some(DeclaredVisibility::Within(outer))) => {
            outer < inner
        }
        _ => false,
    }
}

/// The visibility that shows to fewer; the first where neither does.
fn lesser(visibility: WrittenVisibility, field: WrittenVisibility) -> WrittenVisibility
    ensures { result ≡ spec.lesser visibility field }
{
    if shows_fewer(field.shown, visibility.shown) {
        field
    } else {
        visibility
    }
}

/// A visibility, or that of a field, if the crate has it and it shows to fewer.
fn with_field(
    alloc: Global,
    visibility: WrittenVisibility,
    options: &CfgOptions,
    edition: Edition,
    list: &CrateModules,
    text: &[u8],
    source: &Source,
    number: usize,
    member: Member,
) -> Result<WrittenVisibility, AllocError>
    requires { number < length list.now.modules }
    ensures { IfOk result (λ least. least
        ≡ spec.with_field options.now edition list.now text.now source.now number visibility member) }
{
    if !is_left(options, text, source, MemberKind::TupleField, member) {
        return Ok(visibility);
    }
    let written = field_written(source.lexemes(), None, member);
    let shown = list.visibility(alloc, edition, text, number, written)?;
    Ok(lesser(visibility, WrittenVisibility { written, shown }))
}

/// The same with some fields.
fn with_members(
    alloc: Global,
    visibility: WrittenVisibility,
    options: &CfgOptions,
    edition: Edition,
    list: &CrateModules,
    text: &[u8],
    source: &Source,
    number: usize,
    members: &[Member],
) -> Result<WrittenVisibility, AllocError>
    requires { number < length list.now.modules }
    ensures { IfOk result (λ least. least
        ≡ fold (spec.with_field options.now edition list.now text.now source.now number) visibility members.now) }
{
    let mut least = visibility;
    for member in members {
        least = with_field(
            alloc, least, options, edition, list, text, source, number, *member,
        )?;
    }
    Ok(least)
}

/// The same with the fields of a struct that stand in parentheses.
fn with_fields(
    alloc: Global,
    visibility: WrittenVisibility,
    options: &CfgOptions,
    edition: Edition,
    list: &CrateModules,
    text: &[u8],
    source: &Source,
    number: usize,
    fields: Fields,
) -> Result<WrittenVisibility, AllocError>
    requires { number < length list.now.modules }
    ensures { IfOk result (λ least. least ≡ spec.with_fields options.now edition list.now text.now source.now number
        visibility fields fields.shape) }
{
    match fields.shape {
        FieldsShape::Tuple => {
            let (lexemes, partners) = (source.lexemes(), source.partners());
            let all = members(
                alloc,
                lexemes,
                partners,
                fields.range,
                MemberKind::TupleField,
            )?;
            with_members(
                alloc,
                visibility,
                options,
                edition,
                list,
                text,
                source,
                number,
                all.as_slice(),
            )
        }
        _ => Ok(visibility),
    }
}

/// The same of an item of a tree.
fn of_item(
    alloc: Global,
    visibility: WrittenVisibility,
    options: &CfgOptions,
    edition: Edition,
    list: &CrateModules,
    text: &[u8],
    source: &Source,
    number: usize,
    item: Item,
) -> Result<WrittenVisibility, AllocError>
    requires { number < length list.now.modules }
    ensures { IfOk result (λ least. least ≡ spec.of_item options.now edition list.now text.now source.now number
        visibility item item.kind) }
{
    match item.kind {
        ItemKind::Struct => {
            let fields = item_fields(alloc, source.lexemes(), source.partners(), item)?;
            with_fields(
                alloc, visibility, options, edition, list, text, source, number, fields,
            )
        }
        _ => Ok(visibility),
    }
}

/// The same of an item that is known, if it is there.
fn of_known(
    alloc: Global,
    options: &CfgOptions,
    edition: Edition,
    list: &CrateModules,
    text: &[u8],
    source: &Source,
    item: &DeclaredItem,
) -> Result<WrittenVisibility, AllocError>
    requires { item.now.«module» < length list.now.modules }
    ensures { IfOk result (λ least. least ≡ spec.of_known options.now edition list.now text.now source.now
        item.now.«module» item.now.visibility (slice_get source.now.items item.now.item)) }
{
    let shown = item.visibility;
    match item_at(source, item.item) {
        None => Ok(WrittenVisibility {
            written: RawVisibility::Inherited,
            shown,
        }),
        Some(read) => {
            let written = written(source.lexemes(), read);
            let own = WrittenVisibility { written, shown };
            of_item(
                alloc,
                own,
                options,
                edition,
                list,
                text,
                source,
                item.module,
                read,
            )
        }
    }
}

/// Whom the constructor of a struct is shown to, by the struct and its fields alone.
fn by_fields(
    alloc: Global,
    options: &CfgOptions,
    edition: Edition,
    list: &CrateModules,
    files: &FileTable,
    item: &DeclaredItem,
) -> Result<WrittenVisibility, AllocError>
    ensures { IfOk result
        (λ least. least ≡ spec.by_fields options.now edition list.now files.now item.now) }
{
    let own = WrittenVisibility {
        written: RawVisibility::Inherited,
        shown: item.visibility,
    };
    if item.module >= list.modules().len() {
        return Ok(own);
    }
    match list.sources().get(item.file) {
        None => Ok(own),
        Some(source) => of_known(
            alloc,
            options,
            edition,
            list,
            text_of(files, item.file),
            source,
            item,
        ),
    }
}

fn is_non_exhaustive(kind: AttributeKind) -> bool
    ensures { result ≡ spec.is_non_exhaustive kind }
{
    matches!(kind, AttributeKind::NonExhaustive)
}

pub(crate) fn any_non_exhaustive(kinds: &[AttributeKind]) -> bool
    ensures { result ≡ list_any spec.is_non_exhaustive kinds.now }
{
    kinds.iter().any(|kind| is_non_exhaustive(*kind))
}

/// Whether an item is a struct under `#[non_exhaustive]`.
fn is_open_struct(
    alloc: Global,
    list: &CrateModules,
    item: &DeclaredItem,
) -> Result<bool, AllocError>
    ensures { IfOk result (λ is_so. is_so ≡
        (spec.is_struct item.now.kind && list_any spec.is_non_exhaustive (item_attributes list.now item.now))) }
{
    match item.kind {
        ItemKind::Struct => {
            let kinds = item_attributes(alloc, list, item)?;
            Ok(any_non_exhaustive(kinds.as_slice()))
        }
        _ => Ok(false),
    }
}

/// Whom the constructor of a struct is shown to: those to whom the struct is shown, and each of its fields that the crate
/// has, by its options; under `#[non_exhaustive]` the crate alone. Of any other item that is its own visibility. These are
/// the rules of the Rust Reference on tuple structs, and on that attribute.
///
/// # Errors
///
/// Fails only where memory runs out.
pub fn constructor_visibility(
    alloc: Global,
    options: &CfgOptions,
    edition: Edition,
    list: &CrateModules,
    files: &FileTable,
    item: &DeclaredItem,
) -> Result<WrittenVisibility, AllocError>
    ensures { IfOk result (λ least. least
        ≡ spec.constructor_visibility options.now edition list.now files.now item.now) }
{
    let visibility = by_fields(alloc, options, edition, list, files, item)?;
    if is_open_struct(alloc, list, item)? {
        let crate_alone = WrittenVisibility {
            written: RawVisibility::PubCrate,
            shown: Some(DeclaredVisibility::Within(0)),
        };
        Ok(lesser(visibility, crate_alone))
    } else {
        Ok(visibility)
    }
}
