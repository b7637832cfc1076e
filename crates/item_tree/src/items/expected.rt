//! What a text lacks.
ghost use Rattle.std.specs.Prelude.{Some};
ghost use Rattle.item_tree.specs.ExpectedTexts.{expected_text};

use crate::lexer::lexeme::Delimiter;
use std::fmt;

/// What should stand at a place where it does not.
#[derive(Clone, Copy, PartialEq, Eq, Debug)]
pub enum Expected {
    Item,
    /// The end of an item that has no body, or of a macro call.
    Semicolon,
    /// The body of an item, or a semicolon in its place.
    Body,
    /// The group of a macro.
    Group,
    /// What an open delimiter there belongs to.
    Closing(Delimiter),
    /// What a closing one there does.
    Opening(Delimiter),
    Token,
}

impl fmt::Display for Expected {
    ghost output = { λ expected. Some (expected_text expected) };

    fn fmt<W: fmt::Write>(&self, f: &mut fmt::Formatter<W>) -> fmt::Result {
        match *self {
            Expected::Item => f.write_str("expected an item"),
            Expected::Semicolon => f.write_str("expected `;`"),
            Expected::Body => f.write_str("expected a body or `;`"),
            Expected::Group => f.write_str("expected `(`, `[` or `{`"),
            Expected::Closing(Delimiter::Parenthesis) => f.write_str("expected `)`"),
            Expected::Closing(Delimiter::Bracket) => f.write_str("expected `]`"),
            Expected::Closing(Delimiter::Brace) => f.write_str("expected `}`"),
            Expected::Opening(Delimiter::Parenthesis) => f.write_str("expected `(` before `)`"),
            Expected::Opening(Delimiter::Bracket) => f.write_str("expected `[` before `]`"),
            Expected::Opening(Delimiter::Brace) => f.write_str("expected `{` before `}`"),
            Expected::Token => f.write_str("expected a token"),
        }
    }
}
