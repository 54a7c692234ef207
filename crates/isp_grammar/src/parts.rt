//! Parts of statements.
ghost use Rattle.std.specs.Prelude.{◌≡◌, ◌≤◌, ◌<◌, ◌+◌, IfOk, length, map, option_map};
ghost use Rattle.isp_tree.specs.Views.{expr_of, exprs_of, simple_of, first_of, range_of};
ghost use Rattle.isp_grammar.specs.Signs.{loosest};
ghost use Rattle.isp_grammar.specs.reader.Readers.{Gives, mark_at, both};
ghost use Rattle.isp_grammar.specs.reader.Choices.{begins_with, sign_at, maybe_closed_at};
ghost use Rattle.isp_grammar.specs.reader.Exprs.{expr_at};
ghost use Rattle.isp_grammar.specs.reader.Starts.{begins_first, begins_simple};
ghost use Rattle.isp_grammar.specs.reader.Stmts.{closed_test_at, test_at, first_at, first_part_at, step_part_at, range_at, with_last, last_range_at, with_more, more_ranges_at, ranges_at, unique_parts_at, text_of, behind_at, values_at, do_end_at};

use crate::declaration::declaration;
use crate::expr::expr;
use crate::reading::{
    closed_by, in_box, mark, preposition, refuse, refuse_at_limit, starts_with, tail, with_boxed,
    word,
};
use crate::simple::simple;
use crate::start::{Start, stmt_start};
use crate::stop::{Stop, Why};
use crate::types::begins_type;
use isp_base::Span;
use isp_lex::{Mark, Text, Token, TokenKind};
use isp_tree::{Expr, First, Range, Simple, Word};
use std::alloc::Global;

/// An expression in brackets, and where the closing one stands.
#[tactic(auto, unfolding(crate::specs::reader::Stmts::closed_test_at))]
pub fn closed_test(
    alloc: Global,
    left: usize,
    tokens: &[Token],
) -> Result<((Box<Expr>, Span), &[Token]), Stop>
    ensures value { Gives (λ r. ((expr_of r.0.0.value, r.0.1), r.1.now)) result (closed_test_at left tokens.now) }
    ensures rest { IfOk result (λ r. length r.1.now < length tokens.now) }
{
    let (_open, rest) = mark(Mark::ParenOpen, tokens)?;
    let (value, _height, rest) = expr(alloc, left, rest)?;
    closed_by(Mark::ParenClose, value, rest)
}

/// An expression in brackets.
#[tactic(auto, unfolding(crate::specs::reader::Stmts::test_at, crate::specs::reader::Stmts::closed_test_at))]
pub fn test(alloc: Global, left: usize, tokens: &[Token]) -> Result<(Box<Expr>, &[Token]), Stop>
    ensures value { Gives (λ r. (expr_of r.0.value, r.1.now)) result (test_at left tokens.now) }
    ensures rest { IfOk result (λ r. length r.1.now < length tokens.now) }
{
    let ((value, _close), rest) = closed_test(alloc, left, tokens)?;
    Ok((value, rest))
}

/// An expression or nothing, and the semicolon after it.
#[tactic(auto, unfolding(crate::specs::reader::Choices::maybe_at, crate::specs::reader::Choices::maybe_closed_at))]
pub fn maybe_expr(
    alloc: Global,
    left: usize,
    tokens: &[Token],
) -> Result<((Option<Box<Expr>>, Span), &[Token]), Stop>
    ensures value { Gives (λ r. ((option_map (λ b. expr_of b.value) r.0.0, r.0.1), r.1.now)) result (maybe_closed_at Mark.Semicolon (expr_at left loosest) tokens.now) }
    ensures rest { IfOk result (λ r. length r.1.now < length tokens.now) }
{
    if starts_with(Mark::Semicolon, tokens) {
        return closed_by(Mark::Semicolon, None, tokens);
    }
    let (found, _height, rest) = expr(alloc, left, tokens)?;
    closed_by(Mark::Semicolon, Some(found), rest)
}

/// Whether a declaration or a simple statement begins here.
fn begins_first(tokens: &[Token]) -> bool
    ensures { result ≡ begins_with begins_first tokens.now }
{
    match tokens {
        [] => false,
        [first, ..] => match stmt_start(&first.kind) {
            Start::Declare | Start::Simple => true,
            _ => false,
        },
    }
}

/// Whether a simple statement begins here.
fn begins_simple(tokens: &[Token]) -> bool
    ensures { result ≡ begins_with begins_simple tokens.now }
{
    match tokens {
        [] => false,
        [first, ..] => match stmt_start(&first.kind) {
            Start::Simple => true,
            _ => false,
        },
    }
}

/// A declaration or a simple statement.
#[tactic(auto, unfolding(crate::specs::reader::Stmts::first_at, crate::specs::reader::Choices::either_at))]
fn first(alloc: Global, left: usize, tokens: &[Token]) -> Result<(Box<First>, &[Token]), Stop>
    ensures value { Gives (λ r. (first_of r.0.value, r.1.now)) result (first_at left tokens.now) }
    ensures rest { IfOk result (λ r. length r.1.now < length tokens.now) }
{
    if begins_type(tokens) {
        let (declaration, rest) = declaration(alloc, left, tokens)?;
        let first = First::Declare(Box::into_inner(declaration));
        return in_box(alloc, first, rest);
    }
    let (simple, rest) = simple(alloc, left, tokens)?;
    let first = First::Simple(Box::into_inner(simple));
    in_box(alloc, first, rest)
}

/// The first part of a `for`, which counts as a statement.
fn first_part(alloc: Global, left: usize, tokens: &[Token]) -> Result<(Box<First>, &[Token]), Stop>
    ensures value { Gives (λ r. (first_of r.0.value, r.1.now)) result (first_part_at left tokens.now) }
    ensures rest { IfOk result (λ r. length r.1.now < length tokens.now) }
{
    if left == 0 {
        return Err(refuse_at_limit(begins_first(tokens), tokens));
    }
    first(alloc, left - 1, tokens)
}

/// The step of a `for`, which counts as a statement.
fn step_part(alloc: Global, left: usize, tokens: &[Token]) -> Result<(Box<Simple>, &[Token]), Stop>
    ensures value { Gives (λ r. (simple_of r.0.value, r.1.now)) result (step_part_at left tokens.now) }
    ensures rest { IfOk result (λ r. length r.1.now < length tokens.now) }
{
    if left == 0 {
        return Err(refuse_at_limit(begins_simple(tokens), tokens));
    }
    simple(alloc, left - 1, tokens)
}

/// The first part of a `for` or nothing, and the semicolon after it.
#[tactic(auto, unfolding(crate::specs::reader::Choices::maybe_at, crate::specs::reader::Choices::maybe_closed_at))]
pub fn maybe_first(
    alloc: Global,
    left: usize,
    tokens: &[Token],
) -> Result<((Option<Box<First>>, Span), &[Token]), Stop>
    ensures value { Gives (λ r. ((option_map (λ b. first_of b.value) r.0.0, r.0.1), r.1.now)) result (maybe_closed_at Mark.Semicolon (first_part_at left) tokens.now) }
    ensures rest { IfOk result (λ r. length r.1.now < length tokens.now) }
{
    if starts_with(Mark::Semicolon, tokens) {
        return closed_by(Mark::Semicolon, None, tokens);
    }
    let (found, rest) = first_part(alloc, left, tokens)?;
    closed_by(Mark::Semicolon, Some(found), rest)
}

/// The step of a `for` or nothing, and the closing bracket after it.
#[tactic(auto, unfolding(crate::specs::reader::Choices::maybe_at, crate::specs::reader::Choices::maybe_closed_at))]
pub fn maybe_step(
    alloc: Global,
    left: usize,
    tokens: &[Token],
) -> Result<((Option<Box<Simple>>, Span), &[Token]), Stop>
    ensures value { Gives (λ r. ((option_map (λ b. simple_of b.value) r.0.0, r.0.1), r.1.now)) result (maybe_closed_at Mark.ParenClose (step_part_at left) tokens.now) }
    ensures rest { IfOk result (λ r. length r.1.now < length tokens.now) }
{
    if starts_with(Mark::ParenClose, tokens) {
        return closed_by(Mark::ParenClose, None, tokens);
    }
    let (found, rest) = step_part(alloc, left, tokens)?;
    closed_by(Mark::ParenClose, Some(found), rest)
}

/// The first part, the test and the step of a `for`, each in a box of its own.
#[derive(Drop)]
pub struct ForHead {
    pub first: Option<Box<First>>,
    pub test: Option<Box<Expr>>,
    pub step: Option<Box<Simple>>,
}

/// An expression after a mark.
#[tactic(auto, unfolding(crate::specs::reader::Stmts::behind_at))]
fn behind(
    alloc: Global,
    sign: Mark,
    left: usize,
    tokens: &[Token],
) -> Result<(Box<Expr>, &[Token]), Stop>
    ensures value { Gives (λ r. (expr_of r.0.value, r.1.now)) result (behind_at sign left tokens.now) }
    ensures rest { IfOk result (λ r. length r.1.now < length tokens.now) }
{
    let (_sign, rest) = mark(sign, tokens)?;
    let (value, _height, rest) = expr(alloc, left, rest)?;
    Ok((value, rest))
}

/// One dimension of a `foreach`.
#[tactic(auto, unfolding(crate::specs::reader::Stmts::range_at))]
fn range(alloc: Global, left: usize, tokens: &[Token]) -> Result<(Box<Range>, &[Token]), Stop>
    ensures value { Gives (λ r. (range_of r.0.value, r.1.now)) result (range_at left tokens.now) }
    ensures rest { IfOk result (λ r. length r.1.now < length tokens.now) }
{
    let (word, rest) = word(tokens)?;
    let (start, rest) = behind(alloc, Mark::Assign, left, rest)?;
    let (end, rest) = behind(alloc, Mark::Ellipsis, left, rest)?;
    let span = word.span.to(end.span());
    let range = Range {
        word,
        start: Box::into_inner(start),
        end: Box::into_inner(end),
        span,
    };
    in_box(alloc, range, rest)
}

/// The ranges before, and the third range if there is one.
fn last_range(
    alloc: Global,
    left: usize,
    all: Vec<Range>,
    tokens: &[Token],
) -> Result<(Vec<Range>, &[Token]), Stop>
    ensures value { Gives (λ r. (map range_of r.0.items, r.1.now)) result (with_last (map range_of all.items) (last_range_at left tokens.now)) }
    ensures rest { IfOk result (λ r. length r.1.now ≤ length tokens.now) }
{
    if !starts_with(Mark::Comma, tokens) {
        return Ok((all, tokens));
    }
    let (range, rest) = range(alloc, left, tail(tokens))?;
    let all = with_boxed(all, range)?;
    Ok((all, rest))
}

/// The range before, and the second and the third range if there are any.
fn more_ranges(
    alloc: Global,
    left: usize,
    all: Vec<Range>,
    tokens: &[Token],
) -> Result<(Vec<Range>, &[Token]), Stop>
    ensures value { Gives (λ r. (map range_of r.0.items, r.1.now)) result (with_more (map range_of all.items) (more_ranges_at left tokens.now)) }
    ensures rest { IfOk result (λ r. length r.1.now ≤ length tokens.now) }
{
    if !starts_with(Mark::Comma, tokens) {
        return Ok((all, tokens));
    }
    let (range, rest) = range(alloc, left, tail(tokens))?;
    let all = with_boxed(all, range)?;
    last_range(alloc, left, all, rest)
}

/// One to three ranges.
#[tactic(auto, unfolding(crate::specs::reader::Stmts::ranges_at))]
pub fn ranges(alloc: Global, left: usize, tokens: &[Token]) -> Result<(Vec<Range>, &[Token]), Stop>
    ensures value { Gives (λ r. (map range_of r.0.items, r.1.now)) result (ranges_at left tokens.now) }
    ensures rest { IfOk result (λ r. length r.1.now < length tokens.now) }
{
    let (first, rest) = range(alloc, left, tokens)?;
    let all = with_boxed(Vec::new(alloc), first)?;
    more_ranges(alloc, left, all, rest)
}

/// The name of a `foreach_unique`, and the value after `in`.
#[tactic(auto, unfolding(crate::specs::reader::Stmts::unique_parts_at))]
pub fn unique_parts(
    alloc: Global,
    left: usize,
    tokens: &[Token],
) -> Result<((Word, Box<Expr>), &[Token]), Stop>
    ensures value { Gives (λ r. ((r.0.0, expr_of r.0.1.value), r.1.now)) result (unique_parts_at left tokens.now) }
    ensures rest { IfOk result (λ r. length r.1.now < length tokens.now) }
{
    let (word, rest) = word(tokens)?;
    let (_in, rest) = preposition(rest)?;
    let (value, _height, rest) = expr(alloc, left, rest)?;
    Ok(((word, value), rest))
}

/// A text in quotes, and where it stands.
#[tactic(auto, unfolding(crate::specs::reader::Choices::sign_at))]
pub fn text(tokens: &[Token]) -> Result<((Text, Span), &[Token]), Stop>
    ensures value { Gives (λ r. (r.0, r.1.now)) result (sign_at text_of tokens.now) }
    ensures rest { IfOk result (λ r. length r.1.now < length tokens.now) }
{
    let Some((first, rest)) = tokens.split_first() else {
        return Err(refuse(Why::Unexpected, tokens));
    };
    match &first.kind {
        TokenKind::Text(text) => Ok(((text.copied()?, first.span), rest)),
        _ => Err(refuse(Why::Unexpected, tokens)),
    }
}

/// The values after a text, each after a comma, up to a closing bracket.
fn values(alloc: Global, left: usize, tokens: &[Token]) -> Result<(Vec<Expr>, &[Token]), Stop>
    ensures value { Gives (λ r. (exprs_of r.0.items, r.1.now)) result (values_at left tokens.now) }
    ensures rest { IfOk result (λ r. length r.1.now ≤ length tokens.now) }
{
    let mut all = Vec::new(alloc);
    let mut rest = tokens;
    'each: while !starts_with(Mark::ParenClose, rest) {
        let (next, after) = behind(alloc, Mark::Comma, left, rest)?;
        all = with_boxed(all, next)?;
        rest = after;
    }
    Ok((all, rest))
}

/// The values, and where the closing bracket and the semicolon after them stand.
pub fn closed_values(
    alloc: Global,
    left: usize,
    tokens: &[Token],
) -> Result<((Vec<Expr>, (Span, Span)), &[Token]), Stop>
    ensures value { Gives (λ r. ((exprs_of r.0.0.items, r.0.1), r.1.now)) result (both (values_at left) (both (mark_at Mark.ParenClose) (mark_at Mark.Semicolon)) tokens.now) }
    ensures rest { IfOk result (λ r. length r.1.now < length tokens.now) }
{
    let (values, rest) = values(alloc, left, tokens)?;
    let ((values, close), rest) = closed_by(Mark::ParenClose, values, rest)?;
    let ((values, end), rest) = closed_by(Mark::Semicolon, values, rest)?;
    Ok(((values, (close, end)), rest))
}

/// `while`, a test and a semicolon: the test, and where the semicolon stands.
#[tactic(auto, unfolding(crate::specs::reader::Stmts::do_end_at))]
pub fn do_end(
    alloc: Global,
    left: usize,
    tokens: &[Token],
) -> Result<((Box<Expr>, Span), &[Token]), Stop>
    ensures value { Gives (λ r. ((expr_of r.0.0.value, r.0.1), r.1.now)) result (do_end_at left tokens.now) }
    ensures rest { IfOk result (λ r. length r.1.now < length tokens.now) }
{
    let (_while, rest) = mark(Mark::While, tokens)?;
    let (test, rest) = test(alloc, left, rest)?;
    closed_by(Mark::Semicolon, test, rest)
}
