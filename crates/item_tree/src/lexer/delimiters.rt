//! Delimiters that belong together.
ghost use Rattle.std.specs.Prelude.{◌≡◌, ◌<◌, ◌++◌, IfOk, IfSome, OnOk, OnErr, length};
ghost use Rattle.item_tree.specs.Delimiters as spec;
ghost use Rattle.item_tree.specs.Innermost as inner;

use crate::lexer::lexeme::{Delimiter, Lexeme, LexemeKind};
use std::alloc::{AllocError, Global};

/// The places of the innermost delimiters of each kind that are open.
#[derive(Clone, Copy)]
struct Innermost {
    parenthesis: Option<usize>,
    bracket: Option<usize>,
    brace: Option<usize>,
}

fn of_kind(pending: Innermost, delimiter: Delimiter) -> Option<usize>
    ensures { result ≡ inner.of_kind delimiter pending }
{
    match delimiter {
        Delimiter::Parenthesis => pending.parenthesis,
        Delimiter::Bracket => pending.bracket,
        Delimiter::Brace => pending.brace,
    }
}

/// What is open where a delimiter of the kind opens at the place.
fn opened(pending: Innermost, delimiter: Delimiter, place: usize) -> Innermost
    ensures { result ≡ inner.opened place delimiter pending }
{
    let mut inner = pending;
    match delimiter {
        Delimiter::Parenthesis => inner.parenthesis = Some(place),
        Delimiter::Bracket => inner.bracket = Some(place),
        Delimiter::Brace => inner.brace = Some(place),
    }
    inner
}

/// The place of the delimiter that a lexeme closes.
fn closes(kind: LexemeKind, pending: Innermost) -> Option<usize>
    ensures { result ≡ inner.closes kind pending }
{
    match kind {
        LexemeKind::Close(delimiter) => of_kind(pending, delimiter),
        _ => None,
    }
}

/// What is open behind the lexeme at a place, where `before` tells what was open at each place before it.
fn open_behind(
    place: usize,
    kind: LexemeKind,
    pending: Innermost,
    before: &[Innermost],
) -> Innermost
    ensures { result ≡ inner.open_behind place kind pending before.now }
{
    if let LexemeKind::Open(delimiter) = kind {
        return opened(pending, delimiter, place);
    }
    match closes(kind, pending) {
        None => pending,
        Some(opening) => match before.get(opening) {
            None => pending,
            Some(outside) => *outside,
        },
    }
}

/// Adds the next lexeme as its own partner, or as the one of what it closes.
fn add_partner(partners: &mut Vec<usize>, closed: Option<usize>) -> Result<(), AllocError>
    requires { IfSome closed (λ opening. opening < length partners.old.items) }
    ensures ok { OnOk result (partners.new.items ≡ spec.with_partner (length partners.old.items) closed partners.old.items) }
{
    let place = partners.len();
    match closed {
        None => partners.push(place)?,
        Some(opening) => {
            partners.push(opening)?;
            partners[opening] = place;
        }
    }
    Ok(())
}

/// For each lexeme the place of the delimiter that belongs to it, or its own place.
///
/// A closing delimiter belongs to the innermost open one of its kind. What is open inside of that stays without a
/// partner, and so does a closing one that finds none. The time is linear.
///
/// # Errors
///
/// Fails only where memory runs out.
pub fn partners(alloc: Global, lexemes: &[Lexeme]) -> Result<Vec<usize>, AllocError>
    ensures exact { IfOk result (λ found. found.items ≡ spec.partners_of lexemes.now) }
{
    let mut partners = Vec::new(alloc);
    let mut before: Vec<Innermost> = Vec::new(alloc);
    let mut pending = Innermost {
        parenthesis: None,
        bracket: None,
        brace: None,
    };
    for lexeme in lexemes {
        let place = partners.len();
        add_partner(&mut partners, closes(lexeme.kind, pending))?;
        before.push(pending)?;
        pending = open_behind(place, lexeme.kind, pending, before.as_slice());
    }
    Ok(partners)
}
