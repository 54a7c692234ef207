//! Statements.
ghost use Rattle.std.specs.Prelude.{◌≡◌, ◌≤◌, ◌<◌, ◌∷◌, IfOk, length, option_map};
ghost use Rattle.isp_tree.specs.Views.{stmt_of, block_of, stmts_of};
ghost use Rattle.isp_grammar.specs.reader.Readers.{Gives, optional};
ghost use Rattle.isp_grammar.specs.reader.Choices.{begins_with};
ghost use Rattle.isp_grammar.specs.reader.Starts.{start_of, begins_stmt};
ghost use Rattle.isp_grammar.specs.reader.Stmts.{stmts_at, braced_at, block_at, block_stmt_at, if_at, do_at, loop_at, unmasked_at, stmt_from, stmt_at};

use crate::heads::{Loop, loop_head};
use crate::make::{Found, boxed, do_of, if_of, loop_of, unmasked_of};
use crate::parts::{do_end, test};
use crate::reading::{closed_by, mark, refuse, refuse_at_limit, starts_with, tail, with_boxed};
use crate::single::{assert_stmt, declare_stmt, jump_stmt, print_stmt, return_stmt, simple_stmt};
use crate::start::{Start, stmt_start};
use crate::stop::{Stop, Why};
use isp_base::Span;
use isp_lex::{Mark, Token};
use isp_tree::{Block, Form, Stmt};
use std::alloc::Global;

/// Whether a statement begins here.
fn begins_stmt(tokens: &[Token]) -> bool
    ensures { result ≡ begins_with begins_stmt tokens.now }
{
    match tokens {
        [] => false,
        [first, ..] => match stmt_start(&first.kind) {
            Start::Nothing => false,
            _ => true,
        },
    }
}

/// The statements up to a closing brace, none deeper than `left`.
#[cycle(stmt)]
fn stmts(alloc: Global, left: usize, tokens: &[Token]) -> Result<(Vec<Stmt>, &[Token]), Stop>
    ensures value { Gives (λ r. (stmts_of r.0.items, r.1.now)) result (stmts_at (stmt_at left) tokens.now) }
    ensures rest { IfOk result (λ r. length r.1.now ≤ length tokens.now) }
{
    let mut all = Vec::new(alloc);
    let mut rest = tokens;
    'each: while !starts_with(Mark::BraceClose, rest) {
        let (next, after) = stmt(alloc, left, rest)?;
        all = with_boxed(all, next)?;
        rest = after;
    }
    Ok((all, rest))
}

/// A block with its braces, its statements no deeper than `inner`.
#[cycle(stmt)]
#[tactic(auto, unfolding(crate::specs::reader::Stmts::braced_at))]
fn braced(alloc: Global, inner: usize, tokens: &[Token]) -> Result<(Block, &[Token]), Stop>
    ensures value { Gives (λ r. (block_of r.0, r.1.now)) result (braced_at (stmt_at inner) tokens.now) }
    ensures rest { IfOk result (λ r. length r.1.now < length tokens.now) }
{
    let (brace, rest) = mark(Mark::BraceOpen, tokens)?;
    let (inside, rest) = stmts(alloc, inner, rest)?;
    let ((statements, end), rest) = closed_by(Mark::BraceClose, inside, rest)?;
    let span = brace.to(end);
    Ok((Block { statements, span }, rest))
}

/// A block no deeper than `left`.
#[cycle(stmt)]
pub fn block(alloc: Global, left: usize, tokens: &[Token]) -> Result<(Block, &[Token]), Stop>
    ensures value { Gives (λ r. (block_of r.0, r.1.now)) result (block_at left tokens.now) }
    ensures rest { IfOk result (λ r. length r.1.now < length tokens.now) }
{
    if left == 0 {
        return Err(refuse_at_limit(starts_with(Mark::BraceOpen, tokens), tokens));
    }
    braced(alloc, left - 1, tokens)
}

/// A block as a statement.
#[cycle(stmt)]
#[tactic(auto, unfolding(crate::specs::reader::Stmts::block_stmt_at))]
fn block_stmt(alloc: Global, inner: usize, tokens: &[Token]) -> Result<Found<'_>, Stop>
    ensures value { Gives (λ r. (stmt_of r.0.value, r.1.now)) result (block_stmt_at (stmt_at inner) tokens.now) }
    ensures rest { IfOk result (λ r. length r.1.now < length tokens.now) }
{
    let (block, rest) = braced(alloc, inner, tokens)?;
    boxed(alloc, Stmt::Block(block), rest)
}

/// `else` and its statement, where `else` stands: it belongs to the nearest `if`.
#[cycle(stmt)]
#[tactic(auto, unfolding(crate::specs::reader::Readers::optional))]
fn else_branch(
    alloc: Global,
    inner: usize,
    tokens: &[Token],
) -> Result<(Option<Box<Stmt>>, &[Token]), Stop>
    ensures value { Gives (λ r. (option_map (λ b. stmt_of b.value) r.0, r.1.now)) result (optional Mark.Else (stmt_at inner) tokens.now) }
    ensures rest { IfOk result (λ r. length r.1.now ≤ length tokens.now) }
{
    if !starts_with(Mark::Else, tokens) {
        return Ok((None, tokens));
    }
    let (other, rest) = stmt(alloc, inner, tail(tokens))?;
    Ok((Some(other), rest))
}

/// What stands after `if` at this place.
#[cycle(stmt)]
#[tactic(auto, unfolding(crate::specs::reader::Stmts::if_at))]
fn conditional(
    alloc: Global,
    inner: usize,
    form: Form,
    keyword: Span,
    tokens: &[Token],
) -> Result<Found<'_>, Stop>
    ensures value { Gives (λ r. (stmt_of r.0.value, r.1.now)) result (if_at (stmt_at inner) inner form keyword tokens.now) }
    ensures rest { IfOk result (λ r. length r.1.now < length tokens.now) }
{
    let (test, rest) = test(alloc, inner, tokens)?;
    let (then, rest) = stmt(alloc, inner, rest)?;
    let (other, rest) = else_branch(alloc, inner, rest)?;
    boxed(alloc, if_of(form, keyword, test, then, other), rest)
}

/// What stands after the first word of such a loop at this place.
#[cycle(stmt)]
#[tactic(auto, unfolding(crate::specs::reader::Stmts::loop_at))]
fn loop_stmt(
    alloc: Global,
    inner: usize,
    which: Loop,
    keyword: Span,
    tokens: &[Token],
) -> Result<Found<'_>, Stop>
    ensures value { Gives (λ r. (stmt_of r.0.value, r.1.now)) result (loop_at (stmt_at inner) inner which keyword tokens.now) }
    ensures rest { IfOk result (λ r. length r.1.now < length tokens.now) }
{
    let (head, rest) = loop_head(alloc, inner, which, tokens)?;
    let (body, rest) = stmt(alloc, inner, rest)?;
    boxed(alloc, loop_of(keyword, head, body), rest)
}

/// What stands after `do` at this place.
#[cycle(stmt)]
#[tactic(auto, unfolding(crate::specs::reader::Stmts::do_at))]
fn do_loop(
    alloc: Global,
    inner: usize,
    form: Form,
    keyword: Span,
    tokens: &[Token],
) -> Result<Found<'_>, Stop>
    ensures value { Gives (λ r. (stmt_of r.0.value, r.1.now)) result (do_at (stmt_at inner) inner form keyword tokens.now) }
    ensures rest { IfOk result (λ r. length r.1.now < length tokens.now) }
{
    let (body, rest) = stmt(alloc, inner, tokens)?;
    let ((test, end), rest) = do_end(alloc, inner, rest)?;
    boxed(alloc, do_of(form, keyword, body, test, end), rest)
}

/// What stands after `unmasked` at this place.
#[cycle(stmt)]
#[tactic(auto, unfolding(crate::specs::reader::Stmts::unmasked_at))]
fn unmasked(alloc: Global, inner: usize, keyword: Span, tokens: &[Token]) -> Result<Found<'_>, Stop>
    ensures value { Gives (λ r. (stmt_of r.0.value, r.1.now)) result (unmasked_at (block_at inner) keyword tokens.now) }
    ensures rest { IfOk result (λ r. length r.1.now < length tokens.now) }
{
    let (body, rest) = block(alloc, inner, tokens)?;
    boxed(alloc, unmasked_of(keyword, body), rest)
}

/// A statement by its first token, its parts no deeper than `inner`.
#[cycle(stmt)]
#[tactic(auto, unfolding(crate::specs::reader::Stmts::loop_at))]
fn stmt_from<'a>(
    alloc: Global,
    inner: usize,
    first: &Token,
    tokens: &'a [Token],
    rest: &'a [Token],
) -> Result<Found<'a>, Stop>
    requires whole { tokens.now ≡ first.now ∷ rest.now }
    ensures value { Gives (λ r. (stmt_of r.0.value, r.1.now)) result
        (stmt_from (stmt_at inner) (block_at inner) inner (start_of first.now.kind) first.now rest.now) }
    ensures rest { IfOk result (λ r. length r.1.now < length tokens.now) }
{
    let keyword = first.span;
    match stmt_start(&first.kind) {
        Start::Block => block_stmt(alloc, inner, tokens),
        Start::Empty => boxed(alloc, Stmt::Empty { span: keyword }, rest),
        Start::Declare => declare_stmt(alloc, inner, tokens),
        Start::Simple => simple_stmt(alloc, inner, tokens),
        Start::If(form) => conditional(alloc, inner, form, keyword, rest),
        Start::While(form) => loop_stmt(alloc, inner, Loop::While(form), keyword, rest),
        Start::Do(form) => do_loop(alloc, inner, form, keyword, rest),
        Start::For(form) => loop_stmt(alloc, inner, Loop::For(form), keyword, rest),
        Start::Foreach(tiling) => loop_stmt(alloc, inner, Loop::Foreach(tiling), keyword, rest),
        Start::ForeachActive => loop_stmt(alloc, inner, Loop::ForeachActive, keyword, rest),
        Start::ForeachUnique => loop_stmt(alloc, inner, Loop::ForeachUnique, keyword, rest),
        Start::Unmasked => unmasked(alloc, inner, keyword, rest),
        Start::Jump(jump) => jump_stmt(alloc, jump, keyword, rest),
        Start::Return => return_stmt(alloc, inner, keyword, rest),
        Start::Print => print_stmt(alloc, inner, keyword, rest),
        Start::Assert => assert_stmt(alloc, inner, keyword, rest),
        Start::Nothing => Err(refuse(Why::Unexpected, tokens)),
    }
}

/// A statement no deeper than `left`.
#[cycle(stmt)]
fn stmt(alloc: Global, left: usize, tokens: &[Token]) -> Result<Found<'_>, Stop>
    ensures value { Gives (λ r. (stmt_of r.0.value, r.1.now)) result (stmt_at left tokens.now) }
    ensures rest { IfOk result (λ r. length r.1.now < length tokens.now) }
{
    if left == 0 {
        return Err(refuse_at_limit(begins_stmt(tokens), tokens));
    }
    let Some((first, rest)) = tokens.split_first() else {
        return Err(refuse(Why::Unexpected, tokens));
    };
    stmt_from(alloc, left - 1, first, tokens, rest)
}
