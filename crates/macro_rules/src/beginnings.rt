//! What a fragment may begin with.
ghost use Rattle.std.specs.Prelude.{◌≡◌};
ghost use Rattle.macro_rules.specs.Beginnings as spec;

use crate::extents::{
    WordClass, begins_tree, behind, is_ident, is_lifetime, is_literal, is_mark, is_pair, kind_at,
    tree_len, word_class,
};
use crate::token::{FragmentKind, Keyword, Token, TokenKind};
use item_tree::lexer::lexeme::Delimiter;
use item_tree::lexer::word::Word;

fn ends_fragment(kind: TokenKind) -> bool
    ensures { result ≡ spec.ends_fragment kind }
{
    matches!(kind, TokenKind::FragmentClose(_))
}

fn is_literal_fragment(kind: TokenKind) -> bool
    ensures { result ≡ spec.is_literal_fragment kind }
{
    matches!(kind, TokenKind::FragmentOpen(FragmentKind::Literal))
}

/// Whether a fragment is one literal, perhaps with a minus, or a fragment of one.
fn holds_literal(tokens: &[Token]) -> bool
    ensures { result ≡ spec.holds_literal tokens.now }
{
    if is_literal_fragment(kind_at(tokens, 1)) {
        ends_fragment(kind_at(tokens, 1 + tree_len(behind(tokens, 1))))
    } else if is_mark(b'-', kind_at(tokens, 1)) {
        is_literal(kind_at(tokens, 2)) && ends_fragment(kind_at(tokens, 3))
    } else {
        is_literal(kind_at(tokens, 1)) && ends_fragment(kind_at(tokens, 2))
    }
}

/// Whether a literal may begin so.
fn begins_literal(tokens: &[Token]) -> bool
    ensures { result ≡ spec.begins_literal tokens.now }
{
    match kind_at(tokens, 0) {
        TokenKind::FragmentOpen(FragmentKind::Literal) => true,
        TokenKind::FragmentOpen(FragmentKind::Expr) => holds_literal(tokens),
        TokenKind::FragmentOpen(FragmentKind::Expr2021) => holds_literal(tokens),
        kind => is_mark(b'-', kind) || is_literal(kind),
    }
}

fn begins_type_mark(mark: u8) -> bool
    ensures { result ≡ spec.begins_type_mark mark }
{
    mark == b'!' || mark == b'*' || mark == b'&' || mark == b'?' || mark == b'<'
}

/// Whether a type may begin so.
fn begins_type(kind: TokenKind) -> bool
    ensures { result ≡ spec.begins_type kind }
{
    match kind {
        TokenKind::Word(word) => !matches!(word_class(word), WordClass::Keyword),
        TokenKind::Keyword(Keyword::Typeof) => true,
        TokenKind::DollarCrate(_) | TokenKind::Lifetime => true,
        TokenKind::Open(Delimiter::Parenthesis | Delimiter::Bracket) => true,
        TokenKind::Mark(mark) => begins_type_mark(mark),
        TokenKind::FragmentOpen(FragmentKind::Ty | FragmentKind::Path) => true,
        _ => is_pair(b'&', b'&', kind) || is_pair(b'<', b'<', kind) || is_pair(b':', b':', kind),
    }
}

/// Whether a visibility may begin so. It may be empty, but not at the end of the input.
fn begins_visibility(kind: TokenKind) -> bool
    ensures { result ≡ spec.begins_visibility kind }
{
    match kind {
        TokenKind::Word(_) | TokenKind::Keyword(_) | TokenKind::FragmentOpen(_) => true,
        _ => is_mark(b',', kind) || begins_type(kind),
    }
}

/// Whether a block may begin so.
fn begins_block(kind: TokenKind) -> bool
    ensures { result ≡ spec.begins_block kind }
{
    match kind {
        TokenKind::Open(Delimiter::Brace) => true,
        TokenKind::FragmentOpen(FragmentKind::Block | FragmentKind::Stmt) => true,
        TokenKind::FragmentOpen(FragmentKind::Expr | FragmentKind::Expr2021) => true,
        TokenKind::FragmentOpen(FragmentKind::Literal) => true,
        _ => false,
    }
}

/// Whether a path may begin so.
fn begins_path(kind: TokenKind) -> bool
    ensures { result ≡ spec.begins_path kind }
{
    match kind {
        TokenKind::Word(_) | TokenKind::Keyword(_) | TokenKind::DollarCrate(_) => true,
        TokenKind::FragmentOpen(FragmentKind::Item | FragmentKind::Block | FragmentKind::Vis) =>
            false,
        TokenKind::FragmentOpen(_) => true,
        _ => is_pair(b':', b':', kind),
    }
}

fn begins_expression_word(word: Word) -> bool
    ensures { result ≡ spec.begins_expression_word word }
{
    match word {
        Word::Async | Word::Break | Word::Const | Word::False | Word::For => true,
        Word::Gen | Word::If | Word::Let | Word::Match | Word::Move => true,
        Word::Return | Word::Static | Word::True | Word::Unsafe | Word::While => true,
        _ => matches!(word_class(word), WordClass::Name | WordClass::Segment),
    }
}

fn begins_expression_keyword(keyword: Keyword) -> bool
    ensures { result ≡ spec.begins_expression_keyword keyword }
{
    match keyword {
        Keyword::Loop | Keyword::Continue | Keyword::Yield | Keyword::Try | Keyword::Do => true,
        _ => false,
    }
}

fn begins_expression_mark(mark: u8) -> bool
    ensures { result ≡ spec.begins_expression_mark mark }
{
    mark == b'!'
        || mark == b'-'
        || mark == b'*'
        || mark == b'|'
        || mark == b'&'
        || mark == b'<'
        || mark == b'#'
}

/// Whether an expression may begin so.
pub(crate) fn begins_expression(kind: TokenKind) -> bool
    ensures { result ≡ spec.begins_expression kind }
{
    match kind {
        TokenKind::Word(word) => begins_expression_word(word),
        TokenKind::Keyword(keyword) => begins_expression_keyword(keyword),
        TokenKind::DollarCrate(_) | TokenKind::Lifetime => true,
        TokenKind::Literal | TokenKind::Doc | TokenKind::Open(_) => true,
        TokenKind::Mark(mark) => begins_expression_mark(mark),
        TokenKind::Triple(first, _, _) => first == b'.',
        TokenKind::FragmentOpen(FragmentKind::Block | FragmentKind::Expr) => true,
        TokenKind::FragmentOpen(FragmentKind::Expr2021 | FragmentKind::Literal) => true,
        TokenKind::FragmentOpen(FragmentKind::Path) => true,
        _ => {
            is_pair(b'&', b'&', kind)
                || is_pair(b'|', b'|', kind)
                || is_pair(b'.', b'.', kind)
                || is_pair(b'<', b'<', kind)
                || is_pair(b':', b':', kind)
        }
    }
}

/// Since the edition 2024 `const` and `_` begin expressions, too.
fn begins_new_expression(kind: TokenKind) -> bool
    ensures { result ≡ spec.begins_new_expression kind }
{
    match kind {
        TokenKind::Word(Word::Let) => false,
        TokenKind::Word(Word::Underscore) => true,
        _ => begins_expression(kind),
    }
}

fn begins_old_expression(kind: TokenKind) -> bool
    ensures { result ≡ spec.begins_old_expression kind }
{
    match kind {
        TokenKind::Word(Word::Let | Word::Const) => false,
        _ => begins_expression(kind),
    }
}

/// Whether a pattern may begin so, which may have bars or not.
fn begins_pattern(bars: bool, kind: TokenKind) -> bool
    ensures { result ≡ spec.begins_pattern bars kind }
{
    match kind {
        TokenKind::Word(_) | TokenKind::Keyword(_) | TokenKind::DollarCrate(_) => true,
        TokenKind::Literal | TokenKind::Doc => true,
        TokenKind::Open(Delimiter::Parenthesis | Delimiter::Bracket) => true,
        TokenKind::Mark(mark) => {
            mark == b'&' || mark == b'-' || mark == b'<' || (bars && mark == b'|')
        }
        TokenKind::Triple(first, _, third) => first == b'.' && third == b'.',
        TokenKind::FragmentOpen(FragmentKind::Expr | FragmentKind::Expr2021) => true,
        TokenKind::FragmentOpen(FragmentKind::Literal | FragmentKind::Meta) => true,
        TokenKind::FragmentOpen(FragmentKind::Pat | FragmentKind::PatParam) => true,
        TokenKind::FragmentOpen(FragmentKind::Path | FragmentKind::Ty) => true,
        _ => {
            is_pair(b'&', b'&', kind)
                || is_pair(b'.', b'.', kind)
                || is_pair(b'<', b'<', kind)
                || is_pair(b':', b':', kind)
        }
    }
}

/// Whether the first token may begin a fragment of the kind.
#[tactic(auto, unfolding(crate::specs::Beginnings::begins))]
pub fn begins(kind: FragmentKind, tokens: &[Token]) -> bool
    ensures { result ≡ spec.begins kind tokens.now }
{
    let first = kind_at(tokens, 0);
    match kind {
        FragmentKind::Ident => is_ident(first),
        FragmentKind::Lifetime => is_lifetime(first),
        FragmentKind::Tt => begins_tree(first),
        FragmentKind::Literal => begins_literal(tokens),
        FragmentKind::Vis => begins_visibility(first),
        FragmentKind::Block => begins_block(first),
        FragmentKind::Path | FragmentKind::Meta => begins_path(first),
        FragmentKind::Ty => begins_type(first),
        FragmentKind::Expr => begins_new_expression(first),
        FragmentKind::Expr2021 => begins_old_expression(first),
        FragmentKind::Pat => begins_pattern(true, first),
        FragmentKind::PatParam => begins_pattern(false, first),
        FragmentKind::Stmt | FragmentKind::Item => begins_tree(first),
    }
}
