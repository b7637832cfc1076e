//! How far fragments go.
ghost use Rattle.std.specs.Prelude.{◌≡◌, ◌+◌, ◌≤◌, IfOk, IfSome, OnOk, length};
ghost use Rattle.macro_rules.specs.Fragments as spec;

use crate::expressions::{
    behind_move, block_move, body_move, each_move, else_move, ended_move, operand_move,
    operator_move, optional_move, parameters_move, path_end_move, value_move,
};
use crate::extents::{behind, block_len, first_tree_len, literal_len, visibility_len};
use crate::goal::{Goal, Mode, Move, Style, impossible, takes};
use crate::patterns::{
    atom_move, bars_move, pattern_end_move, pattern_move, range_end_move, range_move,
};
use crate::statements::{
    call_move, group_move, item_body_move, item_move, local_else_move, local_type_move,
    local_value_move, semicolon_move, statement_move,
};
use crate::token::{FragmentKind, Token};
use crate::types::{
    arguments_move, bounds_move, meta_move, meta_value_move, output_move, path_move, plus_move,
    segment_move, tail_move, type_end_move, type_move,
};
use std::alloc::{AllocError, Global};

fn statement_goal_move(goal: Goal, tokens: &[Token]) -> Move
    ensures { result ≡ spec.statement_goal_move goal tokens.now }
{
    match goal {
        Goal::Statement => statement_move(tokens),
        Goal::LocalType => local_type_move(tokens),
        Goal::LocalValue => local_value_move(tokens),
        Goal::LocalElse => local_else_move(tokens),
        Goal::Item => item_move(tokens),
        Goal::Call => call_move(tokens),
        Goal::Group => group_move(tokens),
        Goal::Semicolon => semicolon_move(tokens),
        Goal::ItemBody => item_body_move(tokens),
        Goal::Nothing => takes(0),
        _ => impossible(),
    }
}

fn pattern_goal_move(goal: Goal, tokens: &[Token]) -> Move
    ensures { result ≡ spec.pattern_goal_move goal tokens.now }
{
    match goal {
        Goal::Pattern(bars) => pattern_move(bars, tokens),
        Goal::Bars => bars_move(tokens),
        Goal::Atom => atom_move(tokens),
        Goal::PatternEnd => pattern_end_move(tokens),
        Goal::Range => range_move(tokens),
        Goal::RangeEnd => range_end_move(tokens),
        _ => statement_goal_move(goal, tokens),
    }
}

fn expression_goal_move(goal: Goal, tokens: &[Token]) -> Move
    ensures { result ≡ spec.expression_goal_move goal tokens.now }
{
    match goal {
        Goal::Operand(mode) => operand_move(mode, tokens),
        Goal::Operator(mode) => operator_move(mode, tokens),
        Goal::Optional(mode) => optional_move(mode, tokens),
        Goal::PathEnd(mode) => path_end_move(mode, tokens),
        Goal::Ended(mode) => ended_move(mode),
        Goal::Behind(mode) => behind_move(mode, tokens),
        Goal::Else(mode) => else_move(mode, tokens),
        Goal::Parameters(mode) => parameters_move(mode, tokens),
        Goal::Body(mode) => body_move(mode, tokens),
        Goal::Value(mode) => value_move(mode, tokens),
        Goal::Each(mode) => each_move(mode, tokens),
        Goal::Block => block_move(tokens),
        _ => pattern_goal_move(goal, tokens),
    }
}

/// How a goal is read, by the tokens that follow.
#[tactic(auto, unfolding(crate::specs::Fragments::goal_move))]
fn goal_move(goal: Goal, tokens: &[Token]) -> Move
    ensures { result ≡ spec.goal_move goal tokens.now }
{
    match goal {
        Goal::Path(style) => path_move(style, tokens),
        Goal::Segment(style) => segment_move(style, tokens),
        Goal::Arguments(style) => arguments_move(style, tokens),
        Goal::Tail(style) => tail_move(style, tokens),
        Goal::Output => output_move(tokens),
        Goal::Type(plus) => type_move(plus, tokens),
        Goal::TypeEnd(plus) => type_end_move(plus, tokens),
        Goal::Plus(plus) => plus_move(plus, tokens),
        Goal::Bounds => bounds_move(tokens),
        Goal::Meta => meta_move(tokens),
        Goal::MetaValue => meta_value_move(tokens),
        _ => expression_goal_move(goal, tokens),
    }
}

/// Adds a goal, which is next.
fn add(goals: &mut Vec<Goal>, goal: Goal) -> Result<(), AllocError>
    ensures { OnOk result (goals.new.items ≡ spec.added goal goals.old.items) }
{
    match goal {
        Goal::Nothing => {}
        _ => goals.push(goal)?,
    }
    Ok(())
}

/// Adds the goals of a move, of which the first is next.
fn push(goals: &mut Vec<Goal>, step: Move) -> Result<(), AllocError>
    ensures { OnOk result (goals.new.items ≡ spec.pushed step goals.old.items) }
{
    add(goals, step.third)?;
    add(goals, step.second)?;
    add(goals, step.first)
}

/// The place behind so many tokens, but not behind the last one.
fn place_behind(place: usize, len: usize, size: usize) -> usize
    ensures within { result ≤ size }
    ensures exact { result ≡ spec.place_behind place len size }
{
    place.saturating_add(len).min(size)
}

/// How many tokens a goal takes; nothing where it cannot be read.
fn goal_len(alloc: Global, goal: Goal, tokens: &[Token]) -> Result<Option<usize>, AllocError>
    ensures small { IfOk result (λ found. IfSome found (λ len. len ≤ length tokens.now)) }
    ensures exact { IfOk result (λ found. found ≡ spec.goal_len goal tokens.now) }
{
    let mut goals = Vec::new(alloc);
    goals.push(goal)?;
    let mut place: usize = 0;
    let mut left = tokens.len().saturating_mul(16).saturating_add(16);
    while left != 0 {
        match goals.pop() {
            None => return Ok(Some(place)),
            Some(next) => {
                let step = goal_move(next, behind(tokens, place));
                push(&mut goals, step)?;
                place = place_behind(place, step.len, tokens.len());
                left -= 1;
            }
        }
    }
    Ok(None)
}

/// How many tokens a fragment of the kind takes that may begin so; nothing where it cannot be read.
///
/// # Errors
///
/// Fails only where memory runs out.
#[tactic(auto, unfolding(crate::specs::Fragments::fragment_len))]
pub fn fragment_len(
    alloc: Global,
    kind: FragmentKind,
    tokens: &[Token],
) -> Result<Option<usize>, AllocError>
    ensures small { IfOk result (λ found. IfSome found (λ len. len ≤ length tokens.now + 4)) }
    ensures exact { IfOk result (λ found. found ≡ spec.fragment_len kind tokens.now) }
{
    match kind {
        FragmentKind::Ident | FragmentKind::Lifetime => Ok(Some(1)),
        FragmentKind::Tt => Ok(Some(first_tree_len(tokens))),
        FragmentKind::Literal => Ok(literal_len(tokens)),
        FragmentKind::Vis => Ok(Some(visibility_len(tokens))),
        FragmentKind::Block => Ok(block_len(tokens)),
        FragmentKind::Path => goal_len(alloc, Goal::Path(Style::Types), tokens),
        FragmentKind::Ty => goal_len(alloc, Goal::Type(true), tokens),
        FragmentKind::Meta => goal_len(alloc, Goal::Meta, tokens),
        FragmentKind::Expr | FragmentKind::Expr2021 => {
            goal_len(alloc, Goal::Operand(Mode::First), tokens)
        }
        FragmentKind::Pat => goal_len(alloc, Goal::Pattern(true), tokens),
        FragmentKind::PatParam => goal_len(alloc, Goal::Pattern(false), tokens),
        FragmentKind::Stmt => goal_len(alloc, Goal::Statement, tokens),
        FragmentKind::Item => goal_len(alloc, Goal::Item, tokens),
    }
}
