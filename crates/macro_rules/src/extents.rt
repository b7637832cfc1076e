//! How far trees go, and what kinds of tokens there are.
ghost use Rattle.std.specs.Prelude.{◌≡◌, ◌+◌, ◌<◌, ◌≤◌, ◌^◌, IfSome, drop, length};
ghost use Rattle.macro_rules.specs.Extents as spec;

use crate::token::{FragmentKind, Token, TokenKind};
use item_tree::lexer::lexeme::Delimiter;
use item_tree::lexer::word::Word;

/// The kind of the token at a place, and past the last one none's.
pub(crate) fn kind_at(tokens: &[Token], at: usize) -> TokenKind
    ensures { result ≡ spec.kind_at tokens.now at }
{
    match tokens.get(at) {
        None => TokenKind::Error,
        Some(token) => token.kind,
    }
}

/// How many groups are open behind one more token.
fn depth_behind(kind: TokenKind, depth: usize) -> usize
    requires { depth < 2 ^ 63 }
    ensures small { result ≤ depth + 1 }
    ensures exact { result ≡ spec.depth_behind kind depth }
{
    match kind {
        TokenKind::Open(_) | TokenKind::FragmentOpen(_) => depth + 1,
        TokenKind::Close(_) | TokenKind::FragmentClose(_) => depth.saturating_sub(1),
        _ => depth,
    }
}

/// The tokens of the first tree: one, or a group with its delimiters.
pub fn tree_len(tokens: &[Token]) -> usize
    ensures within { result ≤ length tokens.now }
    ensures exact { result ≡ spec.tree_len 0 tokens.now }
{
    let mut depth: usize = 0;
    let mut at: usize = 0;
    while at < tokens.len() {
        depth = depth_behind(tokens[at].kind, depth);
        at += 1;
        if depth == 0 {
            return at;
        }
    }
    at
}

/// The tokens of an operator: `>>`, `>=` and `>>=` have one for each mark.
pub(crate) fn width(kind: TokenKind) -> usize
    ensures some { 0 < result }
    ensures small { result ≤ 3 }
    ensures exact { result ≡ spec.width kind }
{
    match kind {
        TokenKind::Pair(first, _) => if first == b'>' { 2 } else { 1 },
        TokenKind::Triple(first, _, _) => if first == b'>' { 3 } else { 1 },
        _ => 1,
    }
}

/// The tokens of the first tree, which may be an operator.
pub(crate) fn first_tree_len(tokens: &[Token]) -> usize
    ensures small { result ≤ length tokens.now + 3 }
    ensures exact { result ≡ spec.first_tree_len tokens.now }
{
    let len = width(kind_at(tokens, 0));
    if 1 < len { len } else { tree_len(tokens) }
}

/// How many angle brackets are open behind one more token that is in no group.
fn angles_behind(kind: TokenKind, angles: usize) -> usize
    requires { angles < 2 ^ 63 }
    ensures small { result ≤ angles + 2 }
    ensures exact { result ≡ spec.angles_behind kind angles }
{
    match kind {
        TokenKind::Mark(mark) => {
            if mark == b'<' {
                angles + 1
            } else if mark == b'>' {
                angles.saturating_sub(1)
            } else {
                angles
            }
        }
        TokenKind::Pair(first, second) => {
            if first == b'<' && second == b'<' {
                angles + 2
            } else if first == b'<' && second == b'-' {
                angles + 1
            } else if first == b'>' {
                angles.saturating_sub(1)
            } else {
                angles
            }
        }
        TokenKind::Triple(first, _, _) => {
            if first == b'>' {
                angles.saturating_sub(1)
            } else {
                angles
            }
        }
        _ => angles,
    }
}

fn angles_in(groups: usize, kind: TokenKind, angles: usize) -> usize
    requires { angles < 2 ^ 63 }
    ensures small { result ≤ angles + 2 }
    ensures exact { result ≡ spec.angles_in groups kind angles }
{
    if groups == 0 {
        angles_behind(kind, angles)
    } else {
        angles
    }
}

/// The tokens up to where no angle bracket is open, and no group.
pub(crate) fn angles_len(tokens: &[Token]) -> usize
    ensures within { result ≤ length tokens.now }
    ensures exact { result ≡ spec.angles_len 0 0 tokens.now }
{
    let mut groups: usize = 0;
    let mut angles: usize = 0;
    let mut at: usize = 0;
    while at < tokens.len() {
        angles = angles_in(groups, tokens[at].kind, angles);
        groups = depth_behind(tokens[at].kind, groups);
        at += 1;
        if groups == 0 && angles == 0 {
            return at;
        }
    }
    at
}

/// The tokens behind the first so many.
pub(crate) fn behind(tokens: &[Token], count: usize) -> &[Token]
    ensures { result.now ≡ drop count tokens.now }
{
    if count < tokens.len() {
        &tokens[count..]
    } else {
        &[]
    }
}

/// Whether a word is a literal.
fn is_bool(kind: TokenKind) -> bool
    ensures { result ≡ spec.is_bool kind }
{
    matches!(kind, TokenKind::Word(Word::True | Word::False))
}

pub(crate) fn is_literal(kind: TokenKind) -> bool
    ensures { result ≡ spec.is_literal kind }
{
    matches!(kind, TokenKind::Literal | TokenKind::Doc) || is_bool(kind)
}

pub(crate) fn is_lifetime(kind: TokenKind) -> bool
    ensures { result ≡ spec.is_lifetime kind }
{
    matches!(kind, TokenKind::Lifetime)
}

/// A name, or a keyword, but not `_`.
pub(crate) fn is_ident(kind: TokenKind) -> bool
    ensures { result ≡ spec.is_ident kind }
{
    match kind {
        TokenKind::Word(Word::Underscore) => false,
        TokenKind::Word(_) | TokenKind::Keyword(_) => true,
        TokenKind::DollarCrate(_) => true,
        _ => false,
    }
}

/// Whether a token begins a tree.
pub(crate) fn begins_tree(kind: TokenKind) -> bool
    ensures { result ≡ spec.begins_tree kind }
{
    !matches!(kind, TokenKind::Close(_) | TokenKind::FragmentClose(_))
}

pub(crate) fn is_mark(mark: u8, kind: TokenKind) -> bool
    ensures { result ≡ spec.is_mark mark kind }
{
    match kind {
        TokenKind::Mark(byte) => byte == mark,
        _ => false,
    }
}

/// What a word may be in a type.
#[derive(Clone, Copy)]
pub(crate) enum WordClass {
    Name,
    /// `self`, `Self`, `super` or `crate`: a segment of a path, as names are.
    Segment,
    /// A keyword that a type may begin with.
    OfTypes,
    Keyword,
}

/// What a word may be in a type.
pub(crate) fn word_class(word: Word) -> WordClass
    ensures { result ≡ spec.word_class word }
{
    match word {
        Word::SelfValue | Word::SelfType | Word::Super | Word::Crate => WordClass::Segment,
        Word::Underscore | Word::For | Word::Impl | Word::Fn => WordClass::OfTypes,
        Word::Unsafe | Word::Extern | Word::Dyn => WordClass::OfTypes,
        Word::Mod | Word::Use | Word::Struct | Word::Enum | Word::Const => WordClass::Keyword,
        Word::Static | Word::Type | Word::Trait | Word::Macro | Word::Pub => WordClass::Keyword,
        Word::In | Word::As | Word::Async | Word::Gen | Word::Final => WordClass::Keyword,
        Word::Where | Word::Mut | Word::Ref | Word::Move | Word::Let => WordClass::Keyword,
        Word::If | Word::Else | Word::Match | Word::While => WordClass::Keyword,
        Word::Return | Word::Break | Word::True | Word::False => WordClass::Keyword,
        _ => WordClass::Name,
    }
}

/// Whether a token is a segment of a path.
pub(crate) fn is_segment(kind: TokenKind) -> bool
    ensures { result ≡ spec.is_segment kind }
{
    match kind {
        TokenKind::Word(word) => {
            matches!(word_class(word), WordClass::Name | WordClass::Segment)
        }
        TokenKind::DollarCrate(_) => true,
        _ => false,
    }
}

/// Whether a token is an operator of two marks.
pub(crate) fn is_pair(first: u8, second: u8, kind: TokenKind) -> bool
    ensures { result ≡ spec.is_pair first second kind }
{
    match kind {
        TokenKind::Pair(a, b) => a == first && b == second,
        _ => false,
    }
}

/// `<`, `<<`, or `<-` before a literal.
pub(crate) fn opens_angles(kind: TokenKind) -> bool
    ensures { result ≡ spec.opens_angles kind }
{
    is_mark(b'<', kind) || is_pair(b'<', b'<', kind) || is_pair(b'<', b'-', kind)
}

pub(crate) fn opens_parenthesis(kind: TokenKind) -> bool
    ensures { result ≡ spec.opens_parenthesis kind }
{
    matches!(kind, TokenKind::Open(Delimiter::Parenthesis))
}

pub(crate) fn opens_brace(kind: TokenKind) -> bool
    ensures { result ≡ spec.opens_brace kind }
{
    matches!(kind, TokenKind::Open(Delimiter::Brace))
}

pub(crate) fn opens(kind: TokenKind) -> bool
    ensures { result ≡ spec.opens kind }
{
    matches!(kind, TokenKind::Open(_))
}

pub(crate) fn closes(kind: TokenKind) -> bool
    ensures { result ≡ spec.closes kind }
{
    matches!(kind, TokenKind::Close(_))
}

/// What ends a visibility behind its `pub`.
fn restriction_len(tokens: &[Token]) -> usize
    ensures small { result ≤ length tokens.now + 3 }
    ensures exact { result ≡ spec.restriction_len tokens.now }
{
    if !matches!(kind_at(tokens, 0), TokenKind::Open(Delimiter::Parenthesis)) {
        return 0;
    }
    match kind_at(tokens, 1) {
        TokenKind::Word(Word::In) => tree_len(tokens),
        TokenKind::Word(Word::Crate | Word::SelfValue | Word::Super) => {
            if matches!(kind_at(tokens, 2), TokenKind::Close(_)) {
                3
            } else {
                0
            }
        }
        _ => 0,
    }
}

/// The tokens of a visibility.
pub(crate) fn visibility_len(tokens: &[Token]) -> usize
    ensures small { result ≤ length tokens.now + 4 }
    ensures exact { result ≡ spec.visibility_len tokens.now }
{
    match kind_at(tokens, 0) {
        TokenKind::FragmentOpen(FragmentKind::Vis) => tree_len(tokens),
        TokenKind::Word(Word::Pub) => match tokens.get(1..) {
            None => 1,
            Some(behind) => 1 + restriction_len(behind),
        },
        _ => 0,
    }
}

/// The tokens of a literal that is no fragment, with what stands before it.
fn signed_len(first: TokenKind, second: TokenKind) -> Option<usize>
    ensures small { IfSome result (λ len. len ≤ 2) }
    ensures exact { result ≡ spec.signed_len first second }
{
    if is_literal(first) {
        Some(1)
    } else if is_literal(second) {
        Some(2)
    } else {
        None
    }
}

/// The tokens of a literal behind a minus, with that.
fn behind_minus(first: TokenKind, tokens: &[Token]) -> Option<usize>
    ensures small { IfSome result (λ len. len ≤ length tokens.now + 2) }
    ensures exact { result ≡ spec.fragment_or first (spec.kind_at tokens.now 1) tokens.now }
{
    match kind_at(tokens, 1) {
        TokenKind::FragmentOpen(_) => Some(1 + tree_len(behind(tokens, 1))),
        second => signed_len(first, second),
    }
}

fn plain_literal_len(kind: TokenKind, tokens: &[Token]) -> Option<usize>
    ensures small { IfSome result (λ len. len ≤ length tokens.now + 2) }
    ensures exact { result ≡ spec.plain_literal_len kind tokens.now }
{
    if is_mark(b'-', kind) {
        behind_minus(kind, tokens)
    } else {
        signed_len(kind, kind_at(tokens, 1))
    }
}

/// The tokens of a literal, with its minus.
pub(crate) fn literal_len(tokens: &[Token]) -> Option<usize>
    ensures small { IfSome result (λ len. len ≤ length tokens.now + 2) }
    ensures exact { result ≡ spec.literal_len tokens.now }
{
    match kind_at(tokens, 0) {
        TokenKind::FragmentOpen(_) => Some(tree_len(tokens)),
        kind => plain_literal_len(kind, tokens),
    }
}

/// The tokens of a block.
pub(crate) fn block_len(tokens: &[Token]) -> Option<usize>
    ensures small { IfSome result (λ len. len ≤ length tokens.now) }
    ensures exact { result ≡ spec.block_len tokens.now }
{
    match kind_at(tokens, 0) {
        TokenKind::Open(Delimiter::Brace) => Some(tree_len(tokens)),
        TokenKind::FragmentOpen(FragmentKind::Block) => Some(tree_len(tokens)),
        _ => None,
    }
}
