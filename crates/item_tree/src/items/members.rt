//! The fields of structs, unions and variants, and the variants of enums.
ghost use Rattle.std.specs.Prelude.{◌≡◌, ◌+◌, ◌<◌, ◌≤◌, ◌^◌, IfOk, length};
ghost use Rattle.item_tree.specs.Members as spec;
ghost use Rattle.item_tree.specs.Heads.{nothing};

use crate::items::head::{attributes_len, is_brace, is_mark, is_parenthesis, kind_at};
use crate::items::item_kind::{behind, is_name};
use crate::items::item_parts::bounded;
use crate::items::values::{MemberPart, Nesting, is_joint, nested};
use crate::items::visibility::lexeme_at;
use crate::items::{Range, place_at};
use crate::lexer::lexeme::{Delimiter, Lexeme, LexemeKind};
use crate::lexer::trees::{Tree, trees};
use crate::lexer::word::Word;
use std::alloc::{AllocError, Global};

/// What stands in a list of members.
#[derive(Clone, Copy)]
pub enum MemberKind {
    /// A variant of an enum.
    Variant,
    /// A field with a name.
    RecordField,
    /// A field with a type alone.
    TupleField,
}

/// The shape of fields.
#[derive(Clone, Copy, PartialEq, Eq, Debug)]
pub enum FieldsShape {
    /// In braces, with names.
    Record,
    /// In parentheses.
    Tuple,
    /// None.
    Unit,
}

/// The fields of a struct, a union or a variant.
#[derive(Clone, Copy)]
pub struct Fields {
    pub shape: FieldsShape,
    /// The lexemes between the delimiters.
    pub range: Range,
}

/// A field or a variant, by the places of its lexemes.
#[derive(Clone, Copy)]
pub struct Member {
    /// Where it begins, with its outer attributes.
    pub first: usize,
    /// Where its visibility begins, or what follows in its place.
    pub visibility: usize,
    /// Where its name stands, or the type of a field that has none.
    pub name: usize,
    /// Whether a name stands there.
    pub named: bool,
    /// The fields of a variant.
    pub fields: Fields,
    /// Where it ends, with the comma behind it.
    pub behind: usize,
}

/// What stands between the delimiters of a group, with its shape.
fn group_fields(tree: Tree) -> Fields
    ensures { result ≡ spec.group_fields tree.kind tree.first tree.behind }
{
    if tree.first < tree.behind {
        let range = Range {
            first: tree.first + 1,
            behind: tree.behind - 1,
        };
        match tree.kind {
            LexemeKind::Open(Delimiter::Brace) => Fields {
                shape: FieldsShape::Record,
                range,
            },
            LexemeKind::Open(Delimiter::Parenthesis) => Fields {
                shape: FieldsShape::Tuple,
                range,
            },
            _ => no_fields(tree.first),
        }
    } else {
        no_fields(tree.first)
    }
}

pub(crate) fn no_fields(at: usize) -> Fields
    ensures { result ≡ spec.no_fields at }
{
    Fields {
        shape: FieldsShape::Unit,
        range: Range {
            first: at,
            behind: at,
        },
    }
}

/// The fields that the tree at a place has.
pub(crate) fn fields_at(trees: &[Tree], at: usize) -> Fields
    ensures { result ≡ spec.fields_at trees.now at }
{
    match trees.get(at) {
        None => no_fields(0),
        Some(tree) => group_fields(*tree),
    }
}

/// Whether the lexemes in parentheses behind `pub` say where it holds.
fn restricts(first: LexemeKind, next: LexemeKind) -> bool
    ensures { result ≡ spec.restricts first next }
{
    match first {
        LexemeKind::Word(Word::In) => true,
        LexemeKind::Word(Word::Crate | Word::Super | Word::SelfValue) => {
            matches!(next, LexemeKind::Close(Delimiter::Parenthesis))
        }
        _ => false,
    }
}

/// Whether the parentheses at a place do.
fn restricts_at(lexemes: &[Lexeme], at: usize) -> bool
    ensures { result ≡ spec.restricts_at lexemes.now at }
{
    match lexemes.get(at..) {
        None => false,
        Some(own) => restricts(lexeme_at(own, 1), lexeme_at(own, 2)),
    }
}

/// How many trees of a visibility the trees of a field begin with. Other parentheses behind `pub` are a type.
fn visibility_len(lexemes: &[Lexeme], trees: &[Tree]) -> usize
    ensures small { result ≤ 2 }
    ensures exact { result ≡ spec.visibility_len lexemes.now trees.now }
{
    match kind_at(trees, 0) {
        LexemeKind::Word(Word::Pub) => {
            if is_parenthesis(kind_at(trees, 1)) && restricts_at(lexemes, place_at(trees, 1, 0)) {
                2
            } else {
                1
            }
        }
        _ => 0,
    }
}

/// Whether a field has `unsafe` before its name.
fn is_unsafe(kind: MemberKind, tree: LexemeKind) -> bool
    ensures { result ≡ spec.is_unsafe kind tree }
{
    match kind {
        MemberKind::RecordField => matches!(tree, LexemeKind::Word(Word::Unsafe)),
        MemberKind::Variant | MemberKind::TupleField => false,
    }
}

/// Whether a tree is a comma outside of angle brackets and bars.
fn ends_member(depth: usize, tree: LexemeKind) -> bool
    ensures { result ≡ spec.ends_member depth tree }
{
    is_mark(b',', tree) && depth == 0
}

/// How many trees stand before the comma that ends a member.
fn before_comma(lexemes: &[Lexeme], trees: &[Tree]) -> usize
    ensures in_range { result ≤ length trees.now }
    ensures exact { result ≡ spec.before_comma lexemes.now spec.start nothing trees.now }
{
    let mut nesting = Nesting {
        part: MemberPart::Declared,
        depth: 0,
    };
    let mut before = LexemeKind::Error;
    let mut at: usize = 0;
    while at < trees.len() && !ends_member(nesting.depth, trees[at].kind) {
        let tree = trees[at];
        nesting = nested(nesting, before, is_joint(lexemes, tree.first), tree.kind);
        before = tree.kind;
        at += 1;
    }
    at
}

fn is_named(kind: MemberKind, name: LexemeKind) -> bool
    ensures { result ≡ spec.is_named kind name }
{
    match kind {
        MemberKind::TupleField => false,
        MemberKind::Variant | MemberKind::RecordField => is_name(name),
    }
}

/// The fields of a variant stand behind its name.
fn member_fields(kind: MemberKind, trees: &[Tree], name: usize) -> Fields
    requires { name < 2 ^ 63 }
    ensures { result ≡ spec.member_fields kind trees.now name }
{
    match kind {
        MemberKind::Variant => fields_at(trees, name + 1),
        MemberKind::RecordField | MemberKind::TupleField => no_fields(0),
    }
}

/// The parts of a member, in trees from its own first one on.
#[derive(Clone, Copy)]
struct MemberParts {
    attributes: usize,
    name: usize,
    len: usize,
}

#[tactic(auto, unfolding(crate::specs::Members::first_member))]
fn first_member(kind: MemberKind, lexemes: &[Lexeme], trees: &[Tree]) -> MemberParts
    requires { 0 < length trees.now }
    ensures exact { result ≡ spec.first_member kind lexemes.now trees.now }
    ensures some { 0 < result.len }
    ensures within { result.len ≤ length trees.now }
    ensures low { result.name ≤ length trees.now + 3 }
{
    let attributes = attributes_len(trees);
    let shown = attributes + visibility_len(lexemes, behind(trees, attributes));
    let is_unsafe = is_unsafe(kind, kind_at(trees, shown));
    MemberParts {
        attributes,
        name: if is_unsafe { shown + 1 } else { shown },
        len: bounded(before_comma(lexemes, trees) + 1, trees.len()),
    }
}

/// The member whose parts begin the trees of a list that ends so.
fn placed(kind: MemberKind, trees: &[Tree], parts: MemberParts, end: usize) -> Member
    requires { parts.name < 2 ^ 63 }
    ensures { result ≡ spec.placed kind end parts trees.now }
{
    Member {
        first: place_at(trees, 0, end),
        visibility: place_at(trees, parts.attributes, end),
        name: place_at(trees, parts.name, end),
        named: is_named(kind, kind_at(trees, parts.name)),
        fields: member_fields(kind, trees, parts.name),
        behind: place_at(trees, parts.len, end),
    }
}

/// The members in a range of lexemes, in order.
///
/// # Errors
///
/// Fails only where memory runs out.
pub fn members(
    alloc: Global,
    lexemes: &[Lexeme],
    partners: &[usize],
    range: Range,
    kind: MemberKind,
) -> Result<Vec<Member>, AllocError>
    ensures { IfOk result (λ found. found.items ≡ spec.members_of kind lexemes.now partners.now range) }
{
    let level = trees(alloc, lexemes, partners, range.first, range.behind)?;
    member_list(alloc, lexemes, level.as_slice(), range.behind, kind)
}

fn member_list(
    alloc: Global,
    lexemes: &[Lexeme],
    trees: &[Tree],
    end: usize,
    kind: MemberKind,
) -> Result<Vec<Member>, AllocError>
    ensures { IfOk result (λ found. found.items ≡ spec.members_from kind lexemes.now end 0 trees.now) }
{
    let mut members = Vec::new(alloc);
    let mut at: usize = 0;
    while at < trees.len() {
        let parts = first_member(kind, lexemes, &trees[at..]);
        members.push(placed(kind, &trees[at..], parts, end))?;
        at += parts.len;
    }
    Ok(members)
}
