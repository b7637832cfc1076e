//! The visibility that is written before an item or a field.
ghost use Rattle.std.specs.Prelude.{◌≡◌};
ghost use Rattle.item_tree.specs.Visibilities as spec;

use crate::items::Range;
use crate::lexer::lexeme::{Delimiter, Lexeme, LexemeKind};
use crate::lexer::word::Word;

/// A visibility, as it is written.
#[derive(Clone, Copy, PartialEq, Eq, Debug)]
pub enum RawVisibility {
    /// None is written.
    Inherited,
    /// `pub`
    Public,
    /// `pub(crate)`
    PubCrate,
    /// `pub(super)`
    PubSuper,
    /// `pub(self)`
    PubSelf,
    /// `pub(in path)`, with the places of the path.
    In(Range),
    /// Parentheses with something else in them.
    Error,
}

/// The kind of the lexeme at a place; `Error` past the last.
pub(crate) fn lexeme_at(lexemes: &[Lexeme], at: usize) -> LexemeKind
    ensures { result ≡ spec.lexeme_at lexemes.now at }
{
    match lexemes.get(at) {
        None => LexemeKind::Error,
        Some(lexeme) => lexeme.kind,
    }
}

/// The visibility, if the lexeme closes its parentheses.
fn closed(visibility: RawVisibility, next: LexemeKind) -> RawVisibility
    ensures { result ≡ spec.closed visibility next }
{
    match next {
        LexemeKind::Close(Delimiter::Parenthesis) => visibility,
        _ => RawVisibility::Error,
    }
}

/// The visibility whose parentheses begin with a lexeme, where that is followed by another.
fn restricted(first: LexemeKind, next: LexemeKind, path: Range) -> RawVisibility
    ensures { result ≡ spec.restricted first next path }
{
    match first {
        LexemeKind::Word(Word::Crate) => closed(RawVisibility::PubCrate, next),
        LexemeKind::Word(Word::Super) => closed(RawVisibility::PubSuper, next),
        LexemeKind::Word(Word::SelfValue) => closed(RawVisibility::PubSelf, next),
        LexemeKind::Word(Word::In) => RawVisibility::In(path),
        _ => RawVisibility::Error,
    }
}

/// The lexemes of a range without the `unsafe` of a field, which stands before its name.
fn before_unsafe(lexemes: &[Lexeme], range: Range) -> Range
    ensures { result ≡ spec.before_unsafe lexemes.now range }
{
    if range.first < range.behind
        && matches!(
            lexeme_at(lexemes, range.behind - 1),
            LexemeKind::Word(Word::Unsafe)
        )
    {
        Range {
            first: range.first,
            behind: range.behind - 1,
        }
    } else {
        range
    }
}

/// The visibility that the lexemes of a range are: none, `pub`, or that and parentheses. An `unsafe` may stand behind it.
pub fn raw_visibility(lexemes: &[Lexeme], range: Range) -> RawVisibility
    ensures { result ≡ spec.raw_visibility lexemes.now range }
{
    visibility_in(lexemes, before_unsafe(lexemes, range))
}

fn visibility_in(lexemes: &[Lexeme], range: Range) -> RawVisibility
    ensures { result ≡ spec.visibility_in lexemes.now range }
{
    if range.behind <= range.first {
        RawVisibility::Inherited
    } else if range.behind - range.first == 1 {
        RawVisibility::Public
    } else if range.behind - range.first < 4 {
        RawVisibility::Error
    } else {
        let path = Range {
            first: range.first + 3,
            behind: range.behind - 1,
        };
        restricted(
            lexeme_at(lexemes, range.first + 2),
            lexeme_at(lexemes, range.first + 3),
            path,
        )
    }
}
