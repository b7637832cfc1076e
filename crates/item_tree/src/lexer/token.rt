//! A token.

/// What a token is. Keywords are identifiers, and doc comments are comments.
#[derive(Clone, Copy, PartialEq, Eq, Debug)]
pub enum TokenKind {
    /// Blanks and newlines, or a byte order mark.
    Blank,
    /// `//` up to the newline.
    LineComment,
    /// `/*` up to its `*/`, with such comments within.
    BlockComment,
    /// `#!` at the start of the text, up to the newline.
    Shebang,
    /// A name, also a raw one.
    Identifier,
    /// A quote and a name, also a raw one.
    Lifetime,
    /// A character, also of bytes.
    Char,
    /// A string, also of bytes or of C.
    Str,
    /// A raw string, also of bytes or of C.
    RawStr,
    /// A number with its suffix.
    Number,
    /// One byte of those that are no part of other tokens.
    Punctuation,
    /// A comment, character or string without an end, or a character that begins no token.
    Error,
}

/// A token: so many bytes of the text, behind those of the tokens before it.
#[derive(Clone, Copy, PartialEq, Eq, Debug)]
pub struct Token {
    pub kind: TokenKind,
    pub len: usize,
}
