//! Pieces of a text, and what names and strings stand for.
ghost use Rattle.std.specs.Prelude.{◌≡◌, ◌+◌, ◌≤◌, length, drop};
ghost use Rattle.item_tree.specs.Spans as spec;

/// A piece of a text.
#[derive(Clone, Copy, PartialEq, Eq, Debug)]
pub struct Span {
    pub start: usize,
    pub len: usize,
}

/// The bytes of a piece, so far as the text has it.
pub fn piece(text: &[u8], span: Span) -> &[u8]
    ensures { result.now ≡ spec.piece text.now span }
{
    let rest = &text[span.start.min(text.len())..];
    &rest[..span.len.min(rest.len())]
}

/// The name that a piece is, without the `r#` of a raw one.
pub fn name_text(text: &[u8], span: Span) -> &[u8]
    ensures { result.now ≡ spec.name_text text.now span }
{
    let name = piece(text, span);
    if name.starts_with(b"r#") {
        return &name[2..];
    }
    name
}

/// What a string has between its quotes, raw or not. Escapes stay as they stand.
pub fn string_text(text: &[u8], span: Span) -> &[u8]
    ensures { result.now ≡ spec.string_text text.now span }
{
    let literal = piece(text, span);
    let before = before_quote(literal);
    let body = behind_quote(literal, before);
    &body[..body.len() - before.max(1).min(body.len())]
}

/// How many bytes stand before the first quote.
pub(crate) fn before_quote(literal: &[u8]) -> usize
    ensures in_range { result ≤ length literal.now }
    ensures exact { result ≡ spec.before_quote literal.now }
{
    literal.iter().take_while(|byte| **byte != b'"').count()
}

/// What is behind so many bytes and the quote.
fn behind_quote(literal: &[u8], before: usize) -> &[u8]
    requires { before ≤ length literal.now }
    ensures { result.now ≡ drop (before + 1) literal.now }
{
    &literal[(before + 1).min(literal.len())..]
}
