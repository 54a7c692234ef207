//! Statements without statements in them.
ghost use Rattle.std.specs.Prelude.{◌≡◌, ◌≤◌, ◌<◌, IfOk, length};
ghost use Rattle.isp_tree.specs.Views.{stmt_of};
ghost use Rattle.isp_grammar.specs.reader.Readers.{Gives};
ghost use Rattle.isp_grammar.specs.reader.Stmts.{declare_at, simple_stmt_at, jump_at, return_at, print_at, assert_at};

use crate::declaration::declaration;
use crate::make::{Found, boxed, unboxed_expr};
use crate::parts::{closed_test, closed_values, maybe_expr, text};
use crate::reading::mark;
use crate::simple::simple;
use crate::stop::Stop;
use isp_base::Span;
use isp_lex::{Mark, Token};
use isp_tree::{Jump, Stmt};
use std::alloc::Global;

/// A declaration and its semicolon.
#[tactic(auto, unfolding(crate::specs::reader::Stmts::declare_at))]
pub fn declare_stmt(alloc: Global, inner: usize, tokens: &[Token]) -> Result<Found<'_>, Stop>
    ensures value { Gives (λ r. (stmt_of r.0.value, r.1.now)) result (declare_at inner tokens.now) }
    ensures rest { IfOk result (λ r. length r.1.now < length tokens.now) }
{
    let (declaration, rest) = declaration(alloc, inner, tokens)?;
    let (end, rest) = mark(Mark::Semicolon, rest)?;
    let span = declaration.span.to(end);
    let declaration = Box::into_inner(declaration);
    boxed(alloc, Stmt::Declare { declaration, span }, rest)
}

/// An expression, an assignment or a step by one, and its semicolon.
#[tactic(auto, unfolding(crate::specs::reader::Stmts::simple_stmt_at))]
pub fn simple_stmt(alloc: Global, inner: usize, tokens: &[Token]) -> Result<Found<'_>, Stop>
    ensures value { Gives (λ r. (stmt_of r.0.value, r.1.now)) result (simple_stmt_at inner tokens.now) }
    ensures rest { IfOk result (λ r. length r.1.now < length tokens.now) }
{
    let (simple, rest) = simple(alloc, inner, tokens)?;
    let (end, rest) = mark(Mark::Semicolon, rest)?;
    let span = simple.span().to(end);
    let simple = Box::into_inner(simple);
    boxed(alloc, Stmt::Simple { simple, span }, rest)
}

/// What stands after `break` or `continue` at this place.
#[tactic(auto, unfolding(crate::specs::reader::Stmts::jump_at))]
pub fn jump_stmt(
    alloc: Global,
    jump: Jump,
    keyword: Span,
    tokens: &[Token],
) -> Result<Found<'_>, Stop>
    ensures value { Gives (λ r. (stmt_of r.0.value, r.1.now)) result (jump_at jump keyword tokens.now) }
    ensures rest { IfOk result (λ r. length r.1.now < length tokens.now) }
{
    let (end, rest) = mark(Mark::Semicolon, tokens)?;
    let span = keyword.to(end);
    let found = Stmt::Jump {
        jump,
        keyword,
        span,
    };
    boxed(alloc, found, rest)
}

/// What stands after `return` at this place.
#[tactic(auto, unfolding(crate::specs::reader::Stmts::return_at))]
pub fn return_stmt(
    alloc: Global,
    inner: usize,
    keyword: Span,
    tokens: &[Token],
) -> Result<Found<'_>, Stop>
    ensures value { Gives (λ r. (stmt_of r.0.value, r.1.now)) result (return_at inner keyword tokens.now) }
    ensures rest { IfOk result (λ r. length r.1.now < length tokens.now) }
{
    let ((value, end), rest) = maybe_expr(alloc, inner, tokens)?;
    let found = Stmt::Return {
        keyword,
        value: unboxed_expr(value),
        span: keyword.to(end),
    };
    boxed(alloc, found, rest)
}

/// What stands after `print` at this place.
#[tactic(auto, unfolding(crate::specs::reader::Stmts::print_at))]
pub fn print_stmt(
    alloc: Global,
    inner: usize,
    keyword: Span,
    tokens: &[Token],
) -> Result<Found<'_>, Stop>
    ensures value { Gives (λ r. (stmt_of r.0.value, r.1.now)) result (print_at inner keyword tokens.now) }
    ensures rest { IfOk result (λ r. length r.1.now < length tokens.now) }
{
    let (_open, rest) = mark(Mark::ParenOpen, tokens)?;
    let ((text, text_span), rest) = text(rest)?;
    let ((values, (_close, end)), rest) = closed_values(alloc, inner, rest)?;
    let found = Stmt::Print {
        keyword,
        text,
        text_span,
        values,
        span: keyword.to(end),
    };
    boxed(alloc, found, rest)
}

/// What stands after `assert` at this place.
#[tactic(auto, unfolding(crate::specs::reader::Stmts::assert_at))]
pub fn assert_stmt(
    alloc: Global,
    inner: usize,
    keyword: Span,
    tokens: &[Token],
) -> Result<Found<'_>, Stop>
    ensures value { Gives (λ r. (stmt_of r.0.value, r.1.now)) result (assert_at inner keyword tokens.now) }
    ensures rest { IfOk result (λ r. length r.1.now < length tokens.now) }
{
    let ((test, close), rest) = closed_test(alloc, inner, tokens)?;
    let (end, rest) = mark(Mark::Semicolon, rest)?;
    let found = Stmt::Assert {
        test: Box::into_inner(test),
        call_span: keyword.to(close),
        span: keyword.to(end),
    };
    boxed(alloc, found, rest)
}
