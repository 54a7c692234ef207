//! Expressions, assignments and steps by one, as they stand before a semicolon.
ghost use Rattle.std.specs.Prelude.{◌≡◌, ◌≤◌, ◌<◌, IfOk, length, option_map};
ghost use mathlib.Core.Logic.{inl};
ghost use Rattle.isp_tree.specs.Views.{expr_of, simple_of};
ghost use Rattle.isp_grammar.specs.reader.Readers.{Gives};
ghost use Rattle.isp_grammar.specs.reader.Choices.{found_at, perhaps_at};
ghost use Rattle.isp_grammar.specs.reader.Stmts.{assignment_of, change_of, is_ending, ending_of, ending_at, ended_from, simple_from, simple_at};

use crate::expr::{expr, unary};
use crate::reading::{in_box, tail};
use crate::stop::Stop;
use isp_base::Span;
use isp_lex::{Mark, Token, TokenKind};
use isp_tree::{Assignment, Change, Expr, Simple};
use std::alloc::Global;

/// What stands after an expression, with the place of its sign.
#[derive(Drop)]
pub enum Ending {
    Assign(Assignment, Span, Box<Expr>),
    Change(Change, Span),
}

fn assignment_of(kind: &TokenKind) -> Option<Assignment>
    ensures { result ≡ assignment_of kind.now }
{
    match kind {
        TokenKind::Mark(Mark::Assign) => Some(Assignment::Replace),
        TokenKind::Mark(Mark::PlusAssign) => Some(Assignment::Add),
        TokenKind::Mark(Mark::MinusAssign) => Some(Assignment::Subtract),
        TokenKind::Mark(Mark::StarAssign) => Some(Assignment::Multiply),
        TokenKind::Mark(Mark::SlashAssign) => Some(Assignment::Divide),
        TokenKind::Mark(Mark::PercentAssign) => Some(Assignment::Remainder),
        TokenKind::Mark(Mark::AndAssign) => Some(Assignment::And),
        TokenKind::Mark(Mark::OrAssign) => Some(Assignment::Or),
        TokenKind::Mark(Mark::XorAssign) => Some(Assignment::Xor),
        TokenKind::Mark(Mark::ShiftLeftAssign) => Some(Assignment::ShiftLeft),
        TokenKind::Mark(Mark::ShiftRightAssign) => Some(Assignment::ShiftRight),
        _ => None,
    }
}

fn change_of(kind: &TokenKind) -> Option<Change>
    ensures { result ≡ change_of kind.now }
{
    match kind {
        TokenKind::Mark(Mark::Increment) => Some(Change::Increment),
        TokenKind::Mark(Mark::Decrement) => Some(Change::Decrement),
        _ => None,
    }
}

/// The sign of an assignment, if one stands first, and where it stands.
fn assignment_at(tokens: &[Token]) -> Option<(Assignment, Span)>
    ensures { result ≡ found_at assignment_of tokens.now }
{
    match tokens {
        [] => None,
        [first, ..] => match assignment_of(&first.kind) {
            Some(sign) => Some((sign, first.span)),
            None => None,
        },
    }
}

/// `++` or `--`, if one stands first, and where it stands.
fn change_at(tokens: &[Token]) -> Option<(Change, Span)>
    ensures { result ≡ found_at change_of tokens.now }
{
    match tokens {
        [] => None,
        [first, ..] => match change_of(&first.kind) {
            Some(sign) => Some((sign, first.span)),
            None => None,
        },
    }
}

/// The ending of an expression, if one stands here: the sign of an assignment and a value, or a step by one.
fn maybe_end(
    alloc: Global,
    left: usize,
    tokens: &[Token],
) -> Result<(Option<Ending>, &[Token]), Stop>
    ensures value { Gives (λ r. (option_map ending_of r.0, r.1.now)) result (perhaps_at is_ending (ending_at left) tokens.now) }
    ensures rest { IfOk result (λ r. length r.1.now ≤ length tokens.now) }
{
    if let Some((sign, place)) = assignment_at(tokens) {
        let (value, _height, rest) = expr(alloc, left, tail(tokens))?;
        return Ok((Some(Ending::Assign(sign, place, value)), rest));
    }
    if let Some((sign, place)) = change_at(tokens) {
        return Ok((Some(Ending::Change(sign, place)), tail(tokens)));
    }
    Ok((None, tokens))
}

/// A step by one, written before its target.
fn stepped(change: Change, place: Span, target: Box<Expr>) -> Simple
    ensures { simple_of result ≡ simple_from (inl ((change, place), expr_of target.value)) }
{
    let span = place.to(target.span());
    Simple::Change {
        change,
        target: Box::into_inner(target),
        span,
    }
}

/// An expression with what stands after it.
fn ended(target: Box<Expr>, ending: Option<Ending>) -> Simple
    ensures { simple_of result ≡ ended_from (expr_of target.value) (option_map ending_of ending) }
{
    match ending {
        None => Simple::Value(Box::into_inner(target)),
        Some(Ending::Assign(assignment, _place, value)) => {
            let span = target.span().to(value.span());
            Simple::Assign {
                assignment,
                target: Box::into_inner(target),
                value: Box::into_inner(value),
                span,
            }
        }
        Some(Ending::Change(change, place)) => {
            let span = target.span().to(place);
            Simple::Change {
                change,
                target: Box::into_inner(target),
                span,
            }
        }
    }
}

/// An expression, an assignment or a step by one.
pub fn simple(alloc: Global, left: usize, tokens: &[Token]) -> Result<(Box<Simple>, &[Token]), Stop>
    ensures value { Gives (λ r. (simple_of r.0.value, r.1.now)) result (simple_at left tokens.now) }
    ensures rest { IfOk result (λ r. length r.1.now < length tokens.now) }
{
    if let Some((sign, place)) = change_at(tokens) {
        let (target, _height, rest) = unary(alloc, left, tail(tokens))?;
        return in_box(alloc, stepped(sign, place, target), rest);
    }
    let (target, _height, rest) = expr(alloc, left, tokens)?;
    let (ending, rest) = maybe_end(alloc, left, rest)?;
    in_box(alloc, ended(target, ending), rest)
}
