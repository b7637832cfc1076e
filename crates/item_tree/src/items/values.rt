//! Where angle brackets are open in a member: its type, and its value, which may compare.
ghost use Rattle.std.specs.Prelude.{◌≡◌, ◌+◌, ◌<◌, ◌≤◌, ◌^◌, slice_get};
ghost use Rattle.item_tree.specs.Values as spec;

use crate::items::head::is_mark;
use crate::items::implementations::is_for;
use crate::items::item_end::depth_behind;
use crate::lexer::lexeme::{Delimiter, Lexeme, LexemeKind};
use crate::lexer::word::Word;

/// What goes on in a member.
#[derive(Clone, Copy)]
pub(crate) enum MemberPart {
    /// Its name, its fields or its type.
    Declared,
    /// A value, where an operand begins.
    Operand,
    /// A value, behind an operand.
    Behind,
    /// A type in a value, up to its name.
    InType,
    /// Such a type, behind a name.
    Named,
    /// Such a type, behind what may end it.
    Typed,
    /// The parameters of a closure.
    Parameters,
}

/// Where a member goes on, and how many angle brackets are open there, with the bars of a closure.
#[derive(Clone, Copy)]
pub(crate) struct Nesting {
    pub(crate) part: MemberPart,
    pub(crate) depth: usize,
}

fn at(part: MemberPart) -> Nesting
    ensures { result ≡ spec.at part }
{
    Nesting { part, depth: 0 }
}

/// Behind an opening; `part` is what goes on where it is closed.
fn opened(part: MemberPart) -> Nesting
    ensures { result ≡ spec.opened part }
{
    Nesting { part, depth: 1 }
}

/// Whether an operand begins behind a word.
fn leads_operand(word: Word) -> bool
    ensures { result ≡ spec.leads_operand word }
{
    match word {
        Word::If | Word::Else | Word::Match | Word::While | Word::Return | Word::Break => true,
        Word::In | Word::Let | Word::For | Word::Move | Word::Async | Word::Static => true,
        Word::Const | Word::Mut | Word::Unsafe => true,
        _ => false,
    }
}

/// Whether a type goes on behind a word, before its name.
fn leads_type(word: Word) -> bool
    ensures { result ≡ spec.leads_type word }
{
    match word {
        Word::Dyn | Word::Impl | Word::For | Word::Fn | Word::Async => true,
        Word::Const | Word::Mut | Word::Unsafe | Word::Extern => true,
        _ => false,
    }
}

fn operand_word(word: Word) -> Nesting
    ensures { result ≡ spec.operand_word word }
{
    if leads_operand(word) {
        at(MemberPart::Operand)
    } else {
        at(MemberPart::Behind)
    }
}

/// Behind a mark that stands where an operand begins.
fn operand_mark(before: LexemeKind, joint: bool, mark: u8) -> Nesting
    ensures { result ≡ spec.operand_mark before joint mark }
{
    if joint && is_mark(mark, before) {
        at(MemberPart::Operand)
    } else if mark == b'<' {
        opened(if is_for(before) {
            MemberPart::Operand
        } else {
            MemberPart::Behind
        })
    } else if mark == b'|' {
        opened(MemberPart::Parameters)
    } else if mark == b'>' && is_mark(b'-', before) {
        at(MemberPart::InType)
    } else {
        at(MemberPart::Operand)
    }
}

fn in_operand(before: LexemeKind, joint: bool, kind: LexemeKind) -> Nesting
    ensures { result ≡ spec.in_operand before joint kind }
{
    match kind {
        LexemeKind::Word(word) => operand_word(word),
        LexemeKind::Mark(mark) => operand_mark(before, joint, mark),
        LexemeKind::Open(Delimiter::Bracket) if is_mark(b'#', before) => at(MemberPart::Operand),
        LexemeKind::Lifetime => at(MemberPart::Operand),
        _ => at(MemberPart::Behind),
    }
}

fn behind_operand(kind: LexemeKind) -> Nesting
    ensures { result ≡ spec.behind_operand kind }
{
    match kind {
        LexemeKind::Word(Word::As) => at(MemberPart::InType),
        LexemeKind::Word(word) => operand_word(word),
        LexemeKind::Mark(b'?') => at(MemberPart::Behind),
        LexemeKind::Mark(_) | LexemeKind::Lifetime => at(MemberPart::Operand),
        _ => at(MemberPart::Behind),
    }
}

/// Behind a mark where a type begins.
fn type_mark(before: LexemeKind, mark: u8) -> Nesting
    ensures { result ≡ spec.type_mark before mark }
{
    if mark == b'<' {
        opened(if is_for(before) {
            MemberPart::InType
        } else {
            MemberPart::Typed
        })
    } else if mark == b'=' {
        at(MemberPart::Operand)
    } else {
        at(MemberPart::InType)
    }
}

fn in_type(before: LexemeKind, kind: LexemeKind) -> Nesting
    ensures { result ≡ spec.in_type before kind }
{
    match kind {
        LexemeKind::Word(word) => {
            if leads_type(word) {
                at(MemberPart::InType)
            } else {
                at(MemberPart::Named)
            }
        }
        LexemeKind::Mark(mark) => type_mark(before, mark),
        LexemeKind::Open(_) => at(MemberPart::Typed),
        _ => at(MemberPart::InType),
    }
}

/// Behind what may end a type: its path may go on, or a macro's group follow.
fn behind_type(kind: LexemeKind) -> Nesting
    ensures { result ≡ spec.behind_type kind }
{
    if is_mark(b':', kind) || is_mark(b'!', kind) {
        at(MemberPart::InType)
    } else {
        behind_operand(kind)
    }
}

fn behind_name(kind: LexemeKind) -> Nesting
    ensures { result ≡ spec.behind_name kind }
{
    if is_mark(b'<', kind) {
        opened(MemberPart::Typed)
    } else {
        behind_type(kind)
    }
}

fn in_declared(kind: LexemeKind) -> Nesting
    ensures { result ≡ spec.in_declared kind }
{
    if is_mark(b'<', kind) {
        opened(MemberPart::Declared)
    } else if is_mark(b'=', kind) {
        at(MemberPart::Operand)
    } else {
        at(MemberPart::Declared)
    }
}

/// Behind a tree outside of angle brackets and bars.
fn outside(part: MemberPart, before: LexemeKind, joint: bool, kind: LexemeKind) -> Nesting
    ensures small { result.depth ≤ 1 }
    ensures exact { result ≡ spec.outside part before joint kind }
{
    match part {
        MemberPart::Declared => in_declared(kind),
        MemberPart::Operand => in_operand(before, joint, kind),
        MemberPart::Behind => behind_operand(kind),
        MemberPart::InType => in_type(before, kind),
        MemberPart::Named => behind_name(kind),
        MemberPart::Typed => behind_type(kind),
        MemberPart::Parameters => at(MemberPart::Operand),
    }
}

/// Behind a tree within them. A bar ends the parameters that one began.
fn inside(nesting: Nesting, before: LexemeKind, kind: LexemeKind) -> Nesting
    requires { nesting.depth < 2 ^ 63 }
    ensures small { result.depth ≤ nesting.depth + 1 }
    ensures exact { result ≡ spec.inside nesting before kind }
{
    let ends = matches!(nesting.part, MemberPart::Parameters) && nesting.depth == 1;
    if ends && is_mark(b'|', kind) {
        at(MemberPart::Operand)
    } else {
        Nesting {
            part: nesting.part,
            depth: depth_behind(before, nesting.depth, kind),
        }
    }
}

/// Where a member goes on behind one more tree, by the tree before, and whether both are joint.
pub(crate) fn nested(nesting: Nesting, before: LexemeKind, joint: bool, kind: LexemeKind) -> Nesting
    requires { nesting.depth < 2 ^ 63 }
    ensures small { result.depth ≤ nesting.depth + 1 }
    ensures exact { result ≡ spec.nested nesting before joint kind }
{
    if nesting.depth == 0 {
        outside(nesting.part, before, joint, kind)
    } else {
        inside(nesting, before, kind)
    }
}

fn start_of(lexemes: &[Lexeme], at: usize) -> usize
    ensures { result ≡ spec.start_of (slice_get lexemes.now at) }
{
    match lexemes.get(at) {
        None => 0,
        Some(lexeme) => lexeme.start,
    }
}

/// Whether a lexeme of one byte stands right before the one at a place.
pub(crate) fn is_joint(lexemes: &[Lexeme], at: usize) -> bool
    ensures { result ≡ spec.is_joint lexemes.now at }
{
    start_of(lexemes, at).saturating_sub(start_of(lexemes, at.saturating_sub(1))) == 1
}
