//! The visibilities of fields, as they are written.
ghost use Rattle.std.specs.Prelude.{◌≡◌, ◌++◌, IfOk, OnOk};
ghost use Rattle.std.specs.List.{flat_map};
ghost use Rattle.crate_items.specs.DeclaredFields as spec;

use crate::files::file_table::FileTable;
use crate::files::source::Source;
use crate::items::lookups::{item_at, text_of};
use crate::items::raw_visibilities::raw_of;
use crate::modules::CrateModules;
use dm_base::ids::FileId;
use dm_base::visibility::RawVisibility;
use item_tree::cfg::CfgOptions;
use item_tree::items::fields::item_fields;
use item_tree::items::item_kind::ItemKind;
use item_tree::items::members::{Fields, FieldsShape, Member, MemberKind, members};
use item_tree::items::visibility::{self, raw_visibility};
use item_tree::items::{Item, Range};
use item_tree::lexer::lexeme::Lexeme;
use std::alloc::{AllocError, Global};
use std::marker::Model;

/// The visibilities of the fields of a variant, in order.
pub struct FieldVisibilities {
    fields: Vec<RawVisibility>,
}

/// Hand-written `Drop`, to keep proofs small: dropping one is then a single call.
impl Drop for FieldVisibilities {
    fn drop(self) {
        let FieldVisibilities { fields: _fields } = self;
    }
}

impl Model for FieldVisibilities {
    ghost use Rattle.std.specs.Prelude.{List};
    ghost use Rattle.dm_base.specs.declared.visibility.RawVisibility.{RawVisibility};

    ghost Value = { List RawVisibility };

    ghost view = { λ f. f.fields.items };
}

impl FieldVisibilities {
    pub(crate) fn new(fields: Vec<RawVisibility>) -> FieldVisibilities
        ensures { result ≡ fields.items }
    {
        FieldVisibilities { fields }
    }

    /// The visibilities alone.
    pub fn into_vec(self) -> Vec<RawVisibility>
        ensures { result.items ≡ self }
    {
        let FieldVisibilities { fields } = self;
        fields
    }
}

/// The kind of the members that fields of a shape are.
fn field_kind(shape: FieldsShape) -> Option<MemberKind>
    ensures { result ≡ spec.field_kind shape }
{
    match shape {
        FieldsShape::Record => Some(MemberKind::RecordField),
        FieldsShape::Tuple => Some(MemberKind::TupleField),
        FieldsShape::Unit => None,
    }
}

/// Whether a member has its name, if its kind has one.
fn is_named(kind: MemberKind, member: Member) -> bool
    ensures { result ≡ spec.is_named kind member }
{
    match kind {
        MemberKind::TupleField => true,
        _ => member.named,
    }
}

/// Whether the crate has a field.
pub(crate) fn is_left(
    options: &CfgOptions,
    text: &[u8],
    source: &Source,
    kind: MemberKind,
    member: Member,
) -> bool
    ensures { result ≡ spec.is_left options.now text.now source.now kind member }
{
    let outer = Range {
        first: member.first,
        behind: member.visibility,
    };
    is_named(kind, member)
        && source
            .attributes()
            .is_cfg_enabled(options, text, source.active_conditions(), outer)
}

/// The visibility of a field: that of all fields where it stands, or what is written before it.
pub(crate) fn field_written(
    lexemes: &[Lexeme],
    outer: Option<visibility::RawVisibility>,
    member: Member,
) -> visibility::RawVisibility
    ensures { result ≡ spec.field_written lexemes.now outer member }
{
    match outer {
        None => {
            let range = Range {
                first: member.visibility,
                behind: member.name,
            };
            raw_visibility(lexemes, range)
        }
        Some(written) => written,
    }
}

/// Adds the visibility of a field, if the crate has it.
fn push_field(
    found: &mut Vec<RawVisibility>,
    alloc: Global,
    options: &CfgOptions,
    text: &[u8],
    source: &Source,
    outer: Option<visibility::RawVisibility>,
    kind: MemberKind,
    member: Member,
) -> Result<(), AllocError>
    ensures { OnOk result (found.new.items ≡ found.old.items
        ++ spec.field_of options.now text.now source.now outer kind member) }
{
    if is_left(options, text, source, kind, member) {
        let written = field_written(source.lexemes(), outer, member);
        let raw = raw_of(alloc, text, source.lexemes(), written)?;
        found.push(raw)?;
    }
    Ok(())
}

/// The visibilities of the fields that some members are.
fn fields_among(
    alloc: Global,
    options: &CfgOptions,
    text: &[u8],
    source: &Source,
    outer: Option<visibility::RawVisibility>,
    kind: MemberKind,
    members: &[Member],
) -> Result<Vec<RawVisibility>, AllocError>
    ensures { IfOk result (λ found. found.items ≡
        flat_map (spec.field_of options.now text.now source.now outer kind) members.now) }
{
    let mut found = Vec::new(alloc);
    for member in members {
        push_field(
            &mut found, alloc, options, text, source, outer, kind, *member,
        )?;
    }
    Ok(found)
}

/// The visibilities of some fields that the crate has, in order. Those of a variant are seen as its enum, the
/// visibility of which is given.
pub(crate) fn fields_in(
    alloc: Global,
    options: &CfgOptions,
    text: &[u8],
    source: &Source,
    outer: Option<visibility::RawVisibility>,
    fields: Fields,
) -> Result<Vec<RawVisibility>, AllocError>
    ensures { IfOk result
        (λ found. found.items ≡ spec.fields_in options.now text.now source.now outer fields) }
{
    match field_kind(fields.shape) {
        None => Ok(Vec::new(alloc)),
        Some(kind) => {
            let (lexemes, partners) = (source.lexemes(), source.partners());
            let all = members(alloc, lexemes, partners, fields.range, kind)?;
            fields_among(alloc, options, text, source, outer, kind, all.as_slice())
        }
    }
}

/// The visibilities of the fields that an item of a tree has of its own.
fn fields_of_item(
    alloc: Global,
    options: &CfgOptions,
    text: &[u8],
    source: &Source,
    item: Item,
) -> Result<Vec<RawVisibility>, AllocError>
    ensures { IfOk result (λ found. found.items ≡
        spec.fields_of_item options.now text.now source.now item item.kind) }
{
    match item.kind {
        ItemKind::Struct | ItemKind::Union => {
            let fields = item_fields(alloc, source.lexemes(), source.partners(), item)?;
            fields_in(alloc, options, text, source, None, fields)
        }
        _ => Ok(Vec::new(alloc)),
    }
}

/// The visibilities of the fields of a struct or a union that the crate has, by its options, in order, as they are
/// written. The item is that of a number in a file; any other item has none, and one that is not there.
///
/// # Errors
///
/// Fails only where memory runs out.
pub fn field_visibilities(
    alloc: Global,
    options: &CfgOptions,
    list: &CrateModules,
    files: &FileTable,
    file: FileId,
    item: usize,
) -> Result<Vec<RawVisibility>, AllocError>
    ensures { IfOk result (λ found. found.items ≡
        spec.field_visibilities options.now list.now files.now file item) }
{
    match list.sources().get(file) {
        None => Ok(Vec::new(alloc)),
        Some(source) => match item_at(source, item) {
            None => Ok(Vec::new(alloc)),
            Some(read) => fields_of_item(alloc, options, text_of(files, file), source, read),
        },
    }
}
