//! Statements made of their parts, each from its first word to the end of its last part, and put in a box.
ghost use Rattle.std.specs.Prelude.{◌≡◌, IfOk, IfErr, option_map};
ghost use Rattle.isp_tree.specs.Tree.{loop_for, foreach_unique};
ghost use Rattle.isp_tree.specs.Views.{expr_of, stmt_of, block_of};
ghost use Rattle.isp_grammar.specs.reader.Stmts.{head_of, heading_of, if_from, do_from, looped, unmasked_from};

use crate::heads::LoopHead;
use crate::parts::ForHead;
use crate::reading::in_box;
use crate::stop::Stop;
use isp_base::Span;
use isp_lex::Token;
use isp_tree::{Block, Expr, First, Form, Simple, Stmt, Word};
use std::alloc::Global;

/// A statement in a box, and the tokens after it.
pub type Found<'a> = (Box<Stmt>, &'a [Token]);

/// A statement put in a box.
pub fn boxed(alloc: Global, found: Stmt, rest: &[Token]) -> Result<Found<'_>, Stop>
    ensures value { IfOk result (λ r. stmt_of r.0.value ≡ stmt_of found) }
    ensures rest { IfOk result (λ r. r.1.now ≡ rest.now) }
    ensures memory { IfErr result (λ e. e ≡ Stop.Memory) }
{
    in_box(alloc, found, rest)
}

/// What a box holds, if there is one.
pub fn unboxed_expr(value: Option<Box<Expr>>) -> Option<Expr>
    ensures { option_map expr_of result ≡ option_map (λ b. expr_of b.value) value }
{
    match value {
        None => None,
        Some(value) => Some(Box::into_inner(value)),
    }
}

fn unboxed_first(first: Option<Box<First>>) -> Option<First>
    ensures { result ≡ option_map (λ b. b.value) first }
{
    match first {
        None => None,
        Some(first) => Some(Box::into_inner(first)),
    }
}

fn unboxed_step(step: Option<Box<Simple>>) -> Option<Simple>
    ensures { result ≡ option_map (λ b. b.value) step }
{
    match step {
        None => None,
        Some(step) => Some(Box::into_inner(step)),
    }
}

pub fn if_of(
    form: Form,
    keyword: Span,
    test: Box<Expr>,
    then: Box<Stmt>,
    other: Option<Box<Stmt>>,
) -> Stmt
    ensures { stmt_of result ≡ if_from form keyword (expr_of test.value) (stmt_of then.value) (option_map (λ b. stmt_of b.value) other) }
{
    let test = Box::into_inner(test);
    match other {
        None => {
            let span = keyword.to(then.span());
            Stmt::If {
                form,
                test,
                then,
                span,
            }
        }
        Some(otherwise) => {
            let span = keyword.to(otherwise.span());
            Stmt::IfElse {
                form,
                test,
                then,
                otherwise,
                span,
            }
        }
    }
}

pub fn do_of(form: Form, keyword: Span, body: Box<Stmt>, test: Box<Expr>, end: Span) -> Stmt
    ensures { stmt_of result ≡ do_from form keyword (stmt_of body.value) (expr_of test.value) end }
{
    Stmt::Do {
        form,
        body,
        test: Box::into_inner(test),
        span: keyword.to(end),
    }
}

fn for_of(form: Form, head: ForHead, body: Box<Stmt>, span: Span) -> Stmt
    ensures { stmt_of result ≡ loop_for form (head_of head).first (head_of head).test (head_of head).step (stmt_of body.value) span }
{
    Stmt::For {
        form,
        first: unboxed_first(head.first),
        test: unboxed_expr(head.test),
        step: unboxed_step(head.step),
        body,
        span,
    }
}

fn unique_of(keyword: Span, word: Word, value: Box<Expr>, body: Box<Stmt>, span: Span) -> Stmt
    ensures { stmt_of result ≡ foreach_unique keyword word (expr_of value.value) (stmt_of body.value) span }
{
    Stmt::ForeachUnique {
        keyword,
        word,
        value: Box::into_inner(value),
        body,
        span,
    }
}

/// A loop of what stands before its body, and the body.
pub fn loop_of(keyword: Span, head: Box<LoopHead>, body: Box<Stmt>) -> Stmt
    ensures { stmt_of result ≡ looped keyword (heading_of head.value) (stmt_of body.value) }
{
    let span = keyword.to(body.span());
    match Box::into_inner(head) {
        LoopHead::While(form, test) => {
            let test = Box::into_inner(test);
            Stmt::While {
                form,
                test,
                body,
                span,
            }
        }
        LoopHead::For(form, head) => for_of(form, head, body, span),
        LoopHead::Foreach(tiling, ranges) => Stmt::Foreach {
            tiling,
            keyword,
            ranges,
            body,
            span,
        },
        LoopHead::ForeachActive(word) => Stmt::ForeachActive {
            keyword,
            word,
            body,
            span,
        },
        LoopHead::ForeachUnique(word, value) => unique_of(keyword, word, value, body, span),
    }
}

pub fn unmasked_of(keyword: Span, body: Block) -> Stmt
    ensures { stmt_of result ≡ unmasked_from keyword (block_of body) }
{
    let span = keyword.to(body.span);
    Stmt::Unmasked {
        keyword,
        body,
        span,
    }
}
