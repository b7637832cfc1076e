//! The kinds of items, and what tells them.
ghost use Rattle.std.specs.Prelude.{◌≡◌, ◌≤◌, length, drop};
ghost use Rattle.item_tree.specs.ItemKinds as spec;
ghost use Rattle.item_tree.specs.declared.items.item_kind.PathPart.TheVariants as part;

use crate::items::head::{
    is_brace, is_bracket, is_const, is_mark, is_parenthesis, is_string, kind_at,
};
use crate::lexer::lexeme::LexemeKind;
use crate::lexer::trees::Tree;
use crate::lexer::word::Word;

/// What stands at a place of a level.
#[derive(Clone, Copy, PartialEq, Eq, Debug)]
pub enum ItemKind {
    Use,
    ExternCrate,
    ExternBlock,
    Function,
    Struct,
    Union,
    Enum,
    Const,
    Static,
    Trait,
    Impl,
    TypeAlias,
    Mod,
    /// A macro call among items.
    MacroCall,
    /// A call of `cfg_if!` with braces.
    CfgIf,
    /// A call of `cfg_select!` with braces.
    CfgSelect,
    /// One of the groups of items that a `cfg_if!` or a `cfg_select!` chooses among.
    CfgArm,
    MacroRules,
    /// `macro`
    Macro2,
    /// An attribute of what the level is in.
    InnerAttribute,
    /// What is no item.
    Error,
}

/// How far a path of a macro call has been read.
#[derive(Clone, Copy)]
pub(crate) enum PathPart {
    /// Nothing.
    Start,
    /// The first of two colons.
    Colon,
    /// Two colons.
    Segment,
    /// A segment.
    Behind,
    /// The `!`.
    Bang,
}

/// The trees behind the first so many.
pub(crate) fn behind(trees: &[Tree], count: usize) -> &[Tree]
    ensures { result.now ≡ drop count trees.now }
{
    if count < trees.len() {
        &trees[count..]
    } else {
        &[]
    }
}

/// Whether a word may be a name: it is none of the keywords.
fn may_be_name(word: Word) -> bool
    ensures { result ≡ spec.may_be_name word }
{
    match word {
        Word::Mod
        | Word::Use
        | Word::Struct
        | Word::Enum
        | Word::Fn
        | Word::Const
        | Word::Static
        | Word::Type
        | Word::Trait
        | Word::Impl
        | Word::Extern
        | Word::Crate
        | Word::Macro
        | Word::Pub
        | Word::In
        | Word::SelfValue
        | Word::SelfType
        | Word::Super
        | Word::As
        | Word::Unsafe
        | Word::Async
        | Word::For
        | Word::Where
        | Word::Mut
        | Word::Ref
        | Word::Move
        | Word::Let
        | Word::If
        | Word::Else
        | Word::Match
        | Word::While
        | Word::Return
        | Word::Break
        | Word::Gen
        | Word::Final
        | Word::Underscore
        | Word::True
        | Word::False => false,
        _ => true,
    }
}

pub(crate) fn is_name(kind: LexemeKind) -> bool
    ensures { result ≡ spec.is_name kind }
{
    match kind {
        LexemeKind::Word(word) => may_be_name(word),
        _ => false,
    }
}

/// Whether a tree may be a segment of a path.
pub(crate) fn is_segment(kind: LexemeKind) -> bool
    ensures { result ≡ spec.is_segment kind }
{
    match kind {
        LexemeKind::Word(word) => {
            matches!(
                word,
                Word::SelfValue | Word::SelfType | Word::Super | Word::Crate
            ) || may_be_name(word)
        }
        _ => false,
    }
}

/// Whether a path that is read so far goes on with a tree.
pub(crate) fn takes(part: PathPart, kind: LexemeKind) -> bool
    ensures { result ≡ spec.takes part kind }
{
    match part {
        PathPart::Start => is_segment(kind) || is_mark(b':', kind),
        PathPart::Colon => is_mark(b':', kind),
        PathPart::Segment => is_segment(kind),
        PathPart::Behind => is_mark(b':', kind) || is_mark(b'!', kind),
        PathPart::Bang => false,
    }
}

/// How far a path is read with one more tree.
pub(crate) fn part_behind(part: PathPart, kind: LexemeKind) -> PathPart
    ensures { result ≡ spec.part_behind part kind }
{
    match part {
        PathPart::Start => {
            if is_segment(kind) {
                PathPart::Behind
            } else {
                PathPart::Colon
            }
        }
        PathPart::Colon => PathPart::Segment,
        PathPart::Segment => PathPart::Behind,
        PathPart::Behind => {
            if is_mark(b'!', kind) {
                PathPart::Bang
            } else {
                PathPart::Colon
            }
        }
        PathPart::Bang => PathPart::Bang,
    }
}

/// How many trees of a path and a `!` the trees begin with.
pub(crate) fn path_len(trees: &[Tree]) -> usize
    ensures in_range { result ≤ length trees.now }
    ensures exact { result ≡ spec.path_len part.Start trees.now }
{
    let mut part = PathPart::Start;
    let mut at: usize = 0;
    while at < trees.len() && takes(part, trees[at].kind) {
        part = part_behind(part, trees[at].kind);
        at += 1;
    }
    at
}

/// Whether a tree is a group.
pub(crate) fn is_group(kind: LexemeKind) -> bool
    ensures { result ≡ spec.is_group kind }
{
    matches!(kind, LexemeKind::Open(_))
}

/// The kind of a macro call, by the last segment of its path and by its group.
fn group_kind(name: LexemeKind, group: LexemeKind) -> ItemKind
    ensures { result ≡ spec.group_kind name group }
{
    if !is_brace(group) {
        return ItemKind::MacroCall;
    }
    match name {
        LexemeKind::Word(Word::CfgIf) => ItemKind::CfgIf,
        LexemeKind::Word(Word::CfgSelect) => ItemKind::CfgSelect,
        _ => ItemKind::MacroCall,
    }
}

/// A macro call where a path with a `!` and a group begin the trees.
fn call_kind(trees: &[Tree]) -> ItemKind
    ensures { result ≡ spec.call_kind trees.now }
{
    let len = path_len(trees);
    if len > 1 && is_mark(b'!', kind_at(trees, len - 1)) && is_group(kind_at(trees, len)) {
        group_kind(kind_at(trees, len - 2), kind_at(trees, len))
    } else {
        ItemKind::Error
    }
}

/// An item of the kind, if the name that it has to have is one.
fn named(kind: ItemKind, name: LexemeKind) -> ItemKind
    ensures { result ≡ spec.named kind name }
{
    if is_name(name) { kind } else { ItemKind::Error }
}

/// What `extern` begins.
fn extern_kind(trees: &[Tree]) -> ItemKind
    ensures { result ≡ spec.extern_kind trees.now }
{
    let next = kind_at(trees, 1);
    match next {
        LexemeKind::Word(Word::Crate) => crate_kind(kind_at(trees, 2)),
        _ => {
            if is_brace(next) || (is_string(next) && is_brace(kind_at(trees, 2))) {
                ItemKind::ExternBlock
            } else {
                ItemKind::Error
            }
        }
    }
}

/// An `extern crate` has the name of a crate, or `self`.
fn crate_kind(name: LexemeKind) -> ItemKind
    ensures { result ≡ spec.crate_kind name }
{
    match name {
        LexemeKind::Word(Word::SelfValue) => ItemKind::ExternCrate,
        _ => named(ItemKind::ExternCrate, name),
    }
}

/// A constant may be named `_`.
fn const_kind(name: LexemeKind) -> ItemKind
    ensures { result ≡ spec.const_kind name }
{
    match name {
        LexemeKind::Word(Word::Underscore) => ItemKind::Const,
        _ => named(ItemKind::Const, name),
    }
}

/// `type` begins an alias, or a constant where `const` follows.
fn type_kind(trees: &[Tree]) -> ItemKind
    ensures { result ≡ spec.type_kind trees.now }
{
    if is_const(kind_at(trees, 1)) {
        const_kind(kind_at(trees, 2))
    } else {
        named(ItemKind::TypeAlias, kind_at(trees, 1))
    }
}

pub(crate) fn is_type(kind: LexemeKind) -> bool
    ensures { result ≡ spec.is_type kind }
{
    matches!(kind, LexemeKind::Word(Word::Type))
}

pub(crate) fn is_mutable(kind: LexemeKind) -> bool
    ensures { result ≡ spec.is_mutable kind }
{
    matches!(kind, LexemeKind::Word(Word::Mut))
}

/// A static may have `mut` before its name.
fn static_kind(trees: &[Tree]) -> ItemKind
    ensures { result ≡ spec.static_kind trees.now }
{
    if is_mutable(kind_at(trees, 1)) {
        named(ItemKind::Static, kind_at(trees, 2))
    } else {
        named(ItemKind::Static, kind_at(trees, 1))
    }
}

/// What a word begins that may also be a name.
fn weak_kind(word: Word, trees: &[Tree]) -> ItemKind
    ensures { result ≡ spec.weak_kind word trees.now }
{
    match word {
        Word::Union => {
            if is_name(kind_at(trees, 1)) {
                ItemKind::Union
            } else {
                call_kind(trees)
            }
        }
        Word::MacroRules => {
            if is_mark(b'!', kind_at(trees, 1)) && is_name(kind_at(trees, 2)) {
                ItemKind::MacroRules
            } else {
                call_kind(trees)
            }
        }
        _ => call_kind(trees),
    }
}

/// The kind of the item whose own word begins the trees.
#[tactic(auto, unfolding(crate::specs::ItemKinds::item_kind))]
pub(crate) fn item_kind(trees: &[Tree]) -> ItemKind
    ensures { result ≡ spec.item_kind trees.now }
{
    let next = kind_at(trees, 1);
    match kind_at(trees, 0) {
        LexemeKind::Word(word) => match word {
            Word::Mod => named(ItemKind::Mod, next),
            Word::Use => ItemKind::Use,
            Word::Struct => named(ItemKind::Struct, next),
            Word::Enum => named(ItemKind::Enum, next),
            Word::Fn => named(ItemKind::Function, next),
            Word::Const => const_kind(next),
            Word::Static => static_kind(trees),
            Word::Type => type_kind(trees),
            Word::Trait => named(ItemKind::Trait, next),
            Word::Impl => ItemKind::Impl,
            Word::Extern => extern_kind(trees),
            Word::Macro => named(ItemKind::Macro2, next),
            _ => weak_kind(word, trees),
        },
        LexemeKind::Mark(_) => call_kind(trees),
        _ => ItemKind::Error,
    }
}
