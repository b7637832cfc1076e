//! The members of structs, unions and enums: each with its visibility, the first lexeme of its name
//! or type, whether that is a name, and the shape of its own fields.
use crate::items::parsed::{Parsed, lexeme_text};
use item_tree::items::fields::item_fields;
use item_tree::items::item_kind::ItemKind;
use item_tree::items::members::{Fields, FieldsShape, Member, MemberKind, members};
use item_tree::items::visibility::raw_visibility;
use item_tree::items::{Item, Range};
use item_tree::lexer::lexeme::Lexeme;
use std::alloc::{AllocError, Global};
use std::fmt::Write;

/// What the members of an item are.
fn kind_of(item: Item, fields: Fields) -> MemberKind {
    match (item.kind, fields.shape) {
        (ItemKind::Enum, _) => MemberKind::Variant,
        (_, FieldsShape::Record) => MemberKind::RecordField,
        _ => MemberKind::TupleField,
    }
}

/// Adds a member.
fn push_member(
    out: &mut String,
    text: &str,
    lexemes: &[Lexeme],
    member: Member,
) -> Result<(), AllocError> {
    let written = Range {
        first: member.visibility,
        behind: member.name,
    };
    let visibility = raw_visibility(lexemes, written);
    let name = lexeme_text(text, lexemes, member.name);
    let (named, shape) = (member.named, member.fields.shape);
    write!(out, "  {visibility:?} {name} {named} {shape:?}\n")
}

/// Adds the shape of an item, and its members.
fn push_members_of(
    out: &mut String,
    alloc: Global,
    text: &str,
    read: &Parsed,
    item: Item,
) -> Result<(), AllocError> {
    let lexemes = read.lexemes.as_slice();
    let partners = read.partners.as_slice();
    let fields = item_fields(alloc, lexemes, partners, item)?;
    write!(out, "{:?}\n", fields.shape)?;
    for member in &members(
        alloc,
        lexemes,
        partners,
        fields.range,
        kind_of(item, fields),
    )? {
        push_member(out, text, lexemes, *member)?;
    }
    Ok(())
}

/// Adds those of each item.
pub(crate) fn push_members(
    out: &mut String,
    alloc: Global,
    text: &str,
    read: &Parsed,
) -> Result<(), AllocError> {
    for item in &read.tree.items {
        push_members_of(out, alloc, text, read, *item)?;
    }
    Ok(())
}
