//! A matcher, or a transcriber, laid out as a row of positions.

use crate::token::{FragmentKind, Token};

/// A variable of a matcher.
#[derive(Clone, Copy)]
pub struct Variable {
    /// Its name.
    pub name: Token,
    pub kind: FragmentKind,
    /// Where the innermost repetition begins in which it stands.
    pub within: Option<usize>,
}

/// The begin of a repetition.
#[derive(Clone, Copy)]
pub struct Repetition {
    /// Where its iterations end.
    pub end: usize,
    /// The position behind it, where it may be left out.
    pub behind: Option<usize>,
    /// Where the innermost repetition begins in which it stands.
    pub within: Option<usize>,
}

/// A position of a matcher or a transcriber. A repetition is its begin, the start of an iteration, what is repeated, its end, and its
/// separator, if it has one.
#[derive(Clone, Copy)]
pub enum Row {
    /// A token, which has to stand in the input.
    Token(Token),
    /// A fragment of its kind is read.
    Variable(Variable),
    /// In a transcriber: what the variable at that position of the matcher captured.
    Capture(usize),
    Begin(Repetition),
    /// An iteration starts.
    Iteration,
    /// An iteration ends, and the repetition may with it; another position to go on at.
    End(Option<usize>),
    /// A token that has to stand before the next iteration, which starts at that position.
    Separator(Token, usize),
}
