//! What has to be read of a fragment next.
ghost use Rattle.std.specs.Prelude.{◌≡◌};
ghost use Rattle.macro_rules.specs.Goals as spec;

/// Where a path stands: its generic arguments are written by it.
#[derive(Clone, Copy)]
pub(crate) enum Style {
    /// A path of names alone.
    Names,
    /// A path of a type: `Vec<u8>`, `Fn(u8) -> u8`.
    Types,
    /// A path of an expression or a pattern: `Vec::<u8>::new`.
    Values,
}

/// Where an expression stands.
#[derive(Clone, Copy)]
pub(crate) enum Mode {
    /// At the begin of an expression, which ends with a range.
    First,
    /// Behind an operator that binds more than a range: with one behind an operand it ends.
    Later,
    /// Behind an assignment and in a closure, where it goes on behind a range.
    Plain,
    /// In the head of `if`, `while`, `for` or `match`, where braces behind a path are a block.
    Head,
    /// At the begin of a statement, which ends behind a block.
    Statement,
    /// Behind a range, which ends before an assignment and another range.
    Range,
}

/// What has to be read next.
#[derive(Clone, Copy)]
pub(crate) enum Goal {
    Nothing,
    /// What cannot be read.
    Impossible,
    /// Braces.
    Block,
    Path(Style),
    Segment(Style),
    /// What may follow a segment.
    Arguments(Style),
    /// What may follow a segment with its arguments.
    Tail(Style),
    /// What a function type may give.
    Output,
    /// A type, and whether more bounds may follow.
    Type(bool),
    /// What may follow the path of a type.
    TypeEnd(bool),
    Plus(bool),
    Bounds,
    Meta,
    MetaValue,
    Operand(Mode),
    Operator(Mode),
    /// An operand, if the next token begins one.
    Optional(Mode),
    /// What may follow the path of an expression.
    PathEnd(Mode),
    /// A block, with which an expression ends.
    Ended(Mode),
    /// What may follow that.
    Behind(Mode),
    Else(Mode),
    /// The parameters of a closure.
    Parameters(Mode),
    Body(Mode),
    /// What a `let` is of.
    Value(Mode),
    /// What a `for` goes over.
    Each(Mode),
    /// A pattern, and whether it may have bars.
    Pattern(bool),
    Bars,
    /// A pattern without bars.
    Atom,
    /// What may follow the path of a pattern.
    PatternEnd,
    /// What may follow the begin of a range.
    Range,
    RangeEnd,
    Statement,
    /// What follows the pattern of a `let`: a type, a value, and another block.
    LocalType,
    LocalValue,
    LocalElse,
    Item,
    /// The `!` of a macro call among items, and what follows.
    Call,
    Group,
    /// All up to a semicolon.
    Semicolon,
    /// All up to a semicolon or a body.
    ItemBody,
}

/// How a goal is read: so many tokens, and behind them these goals, in order.
#[derive(Clone, Copy)]
pub(crate) struct Move {
    pub len: usize,
    pub first: Goal,
    pub second: Goal,
    pub third: Goal,
}

/// So many tokens and three goals.
pub(crate) fn takes_all(len: usize, first: Goal, second: Goal, third: Goal) -> Move
    ensures { result ≡ spec.takes_all len first second third }
{
    Move {
        len,
        first,
        second,
        third,
    }
}

/// So many tokens and two goals.
pub(crate) fn takes_both(len: usize, first: Goal, second: Goal) -> Move
    ensures { result ≡ spec.takes_both len first second }
{
    takes_all(len, first, second, Goal::Nothing)
}

/// So many tokens and a goal.
pub(crate) fn takes_then(len: usize, first: Goal) -> Move
    ensures { result ≡ spec.takes_then len first }
{
    takes_all(len, first, Goal::Nothing, Goal::Nothing)
}

/// So many tokens, which are the whole goal.
pub(crate) fn takes(len: usize) -> Move
    ensures { result ≡ spec.takes len }
{
    takes_then(len, Goal::Nothing)
}

/// A goal that cannot be read.
pub(crate) fn impossible() -> Move
    ensures { result ≡ spec.impossible }
{
    takes_then(0, Goal::Impossible)
}
