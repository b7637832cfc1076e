//! Tokens of macros and of their calls.
ghost use Rattle.std.specs.Prelude.{◌≡◌};
ghost use Rattle.macro_rules.specs.Tokens as spec;

use dm_base::edition::Edition;
use item_tree::lexer::lexeme::Delimiter;
use item_tree::lexer::span::{Span, piece};
use item_tree::lexer::word::Word;

/// What a variable of a matcher captures.
#[derive(Clone, Copy, PartialEq, Eq, Debug)]
pub enum FragmentKind {
    Ident,
    Lifetime,
    Tt,
    Literal,
    Vis,
    Block,
    Path,
    Ty,
    Meta,
    Item,
    Expr,
    /// `expr_2021`, and `expr` before the edition 2024.
    Expr2021,
    Pat,
    /// `pat_param`, and `pat` before the edition 2021.
    PatParam,
    Stmt,
}

/// A keyword that the grammar of items has no word for.
#[derive(Clone, Copy, PartialEq, Eq, Debug)]
pub enum Keyword {
    Loop,
    Continue,
    Await,
    Yield,
    Try,
    /// `do` or `box`, which may begin an expression, and are not read in one.
    Do,
    Typeof,
    /// One that begins nothing.
    Reserved,
}

/// What a token is.
#[derive(Clone, Copy, PartialEq, Eq, Debug)]
pub enum TokenKind {
    Word(Word),
    Keyword(Keyword),
    Lifetime,
    Literal,
    /// One mark of punctuation.
    Mark(u8),
    /// An operator of two marks, as `->`. Behind one that begins with `>` stands what is left of it without that.
    Pair(u8, u8),
    /// An operator of three marks, as `..=`; of `>>=`, `>=` and `=` stand behind it.
    Triple(u8, u8, u8),
    Open(Delimiter),
    Close(Delimiter),
    /// `$crate`, with the crate that it means.
    DollarCrate(u32),
    /// Where a captured fragment begins that stays one tree.
    FragmentOpen(FragmentKind),
    FragmentClose(FragmentKind),
    /// The string that stands for the text of a doc comment.
    Doc,
    /// What is no token.
    Error,
}

/// The crate that a macro is of.
#[derive(Clone, Copy)]
pub struct Home {
    pub krate: u32,
    pub edition: Edition,
}

/// A token, with its place in the bytes that macros and calls were read into.
#[derive(Clone, Copy, PartialEq, Eq, Debug)]
pub struct Token {
    pub kind: TokenKind,
    pub span: Span,
}

/// The tokens that may be equal are of one kind of likeness: `$crate` is none of the others, and borders of fragments and what is
/// no token equal nothing.
#[derive(Clone, Copy)]
enum Likeness {
    Plain,
    DollarCrate,
    Nothing,
}

fn likeness_of(kind: TokenKind) -> Likeness
    ensures { result ≡ spec.likeness_of kind }
{
    match kind {
        TokenKind::DollarCrate(_) => Likeness::DollarCrate,
        TokenKind::FragmentOpen(_) | TokenKind::FragmentClose(_) => Likeness::Nothing,
        TokenKind::Error => Likeness::Nothing,
        _ => Likeness::Plain,
    }
}

fn are_alike(a: TokenKind, b: TokenKind) -> bool
    ensures { result ≡ spec.are_alike (spec.likeness_of a) (spec.likeness_of b) }
{
    match likeness_of(a) {
        Likeness::Nothing => false,
        Likeness::Plain => matches!(likeness_of(b), Likeness::Plain),
        Likeness::DollarCrate => matches!(likeness_of(b), Likeness::DollarCrate),
    }
}

/// Whether two tokens of these bytes are equal: they are of one kind of likeness, and are written with the same bytes. So a raw
/// name is not the plain one.
pub fn same(bytes: &[u8], a: Token, b: Token) -> bool
    ensures { result ≡ spec.same bytes.now a b }
{
    are_alike(a.kind, b.kind) && piece(bytes, a.span) == piece(bytes, b.span)
}
