//! Statements of their parts.
ghost use Rattle.std.specs.Prelude.{◌≡◌, IfOk, option_map};
ghost use Rattle.isp_typed.specs.Typed.{call_span, t_block, t_braces, t_no_stmts, t_stmts};
ghost use Rattle.isp_typed.specs.Verdicts.{both, made};
ghost use Rattle.isp_typed.specs.Views.{block_of, expr_of, first_of, simple_of, stmt_of};
ghost use Rattle.isp_exprs.specs.reader.Parts.{boxed_of};
ghost use Rattle.isp_types.specs.reader.Boxes.{boxed_behind_first, boxed_bodies, boxed_first, boxed_simple, boxed_stmt};
ghost use Rattle.isp_types.specs.reader.Boxes.{listed_exprs, listed_items, listed_ranges, listed_stmts};
ghost use Rattle.isp_types.specs.Nodes.{active_stmt, assert_stmt, braces_made, declared_stmt, do_stmt, for_stmt, foreach_stmt};
ghost use Rattle.isp_types.specs.Nodes.{if_else_stmt, if_stmt, print_stmt, return_stmt, simple_stmt, unique_stmt};
ghost use Rattle.isp_types.specs.Nodes.{unmasked_stmt, while_stmt};
ghost use Rattle.isp_exprs.specs.reader.Lists.{and_one};

use crate::gathered;
use isp_base::{Span, operand};
use isp_exprs::converted;
use isp_lex::Text;
use isp_tree::Form;
use isp_typed::{
    TypedBlock, TypedExpr, TypedFirst, TypedItem, TypedRange, TypedSimple, TypedStmt, Verdict, both,
};
use std::alloc::{AllocError, Global};

pub fn declared_stmt(items: Verdict<Vec<TypedItem>>, span: Span) -> Verdict<TypedStmt>
    ensures { made stmt_of result ≡ made (declared_stmt span) (made listed_items items) }
{
    let items = items?;
    Ok(TypedStmt::Declare { items, span })
}

pub fn simple_stmt(simple: Verdict<Box<TypedSimple>>, span: Span) -> Verdict<TypedStmt>
    ensures { made stmt_of result ≡ made (simple_stmt span) (made boxed_simple simple) }
{
    let simple = Box::into_inner(simple?);
    Ok(TypedStmt::Simple { simple, span })
}

pub fn block_stmt(block: Verdict<TypedBlock>) -> Verdict<TypedStmt>
    ensures { made stmt_of result ≡ made t_block (made block_of block) }
{
    Ok(TypedStmt::Block(block?))
}

/// A `;`, which is a block without statements.
pub fn empty_stmt(alloc: Global, span: Span) -> TypedStmt
    ensures { stmt_of result ≡ t_block (t_braces t_no_stmts span) }
{
    TypedStmt::Block(TypedBlock {
        statements: Vec::new(alloc),
        span,
    })
}

/// A body in a box.
pub fn boxed(
    alloc: Global,
    inner: Verdict<TypedStmt>,
) -> Result<Verdict<Box<TypedStmt>>, AllocError>
    ensures { IfOk result (λ v. made boxed_stmt v ≡ made stmt_of inner) }
{
    gathered::boxed(alloc, inner)
}

pub fn if_stmt(
    form: Form,
    before: usize,
    test: Verdict<Box<TypedExpr>>,
    then: Verdict<Box<TypedStmt>>,
    span: Span,
) -> Verdict<TypedStmt>
    ensures { made stmt_of result ≡ made (if_stmt form before span) (both (made boxed_of test) (made boxed_stmt then)) }
{
    let (test, then) = both(test, then)?;
    Ok(TypedStmt::If {
        form,
        before,
        test: Box::into_inner(test),
        then,
        span,
    })
}

pub fn if_else_stmt(
    form: Form,
    before: usize,
    test: Verdict<Box<TypedExpr>>,
    branches: Verdict<(Box<TypedStmt>, Box<TypedStmt>)>,
    span: Span,
) -> Verdict<TypedStmt>
    ensures { made stmt_of result ≡ made (if_else_stmt form before span) (both (made boxed_of test) (made boxed_bodies branches)) }
{
    let (test, (then, otherwise)) = both(test, branches)?;
    Ok(TypedStmt::IfElse {
        form,
        before,
        test: Box::into_inner(test),
        then,
        otherwise,
        span,
    })
}

pub fn while_stmt(
    form: Form,
    before: usize,
    test: Verdict<Box<TypedExpr>>,
    body: Verdict<Box<TypedStmt>>,
    span: Span,
) -> Verdict<TypedStmt>
    ensures { made stmt_of result ≡ made (while_stmt form before span) (both (made boxed_of test) (made boxed_stmt body)) }
{
    let (test, body) = both(test, body)?;
    Ok(TypedStmt::While {
        form,
        before,
        test: Box::into_inner(test),
        body,
        span,
    })
}

pub fn do_stmt(
    form: Form,
    before: usize,
    body: Verdict<Box<TypedStmt>>,
    test: Verdict<Box<TypedExpr>>,
    span: Span,
) -> Verdict<TypedStmt>
    ensures { made stmt_of result ≡ made (do_stmt form before span) (both (made boxed_stmt body) (made boxed_of test)) }
{
    let (body, test) = both(body, test)?;
    Ok(TypedStmt::Do {
        form,
        before,
        body,
        test: Box::into_inner(test),
        span,
    })
}

/// A value that may be left out, out of its box.
fn value_out(value: Option<Box<TypedExpr>>) -> Option<TypedExpr>
    ensures { option_map expr_of result ≡ option_map boxed_of value }
{
    match value {
        Some(value) => Some(Box::into_inner(value)),
        None => None,
    }
}

/// A step that may be left out, out of its box.
fn step_out(step: Option<Box<TypedSimple>>) -> Option<TypedSimple>
    ensures { option_map simple_of result ≡ option_map boxed_simple step }
{
    match step {
        Some(step) => Some(Box::into_inner(step)),
        None => None,
    }
}

/// A first part that may be left out, out of its box.
fn first_out(first: Option<Box<TypedFirst>>) -> Option<TypedFirst>
    ensures { option_map first_of result ≡ option_map boxed_first first }
{
    match first {
        Some(first) => Some(Box::into_inner(first)),
        None => None,
    }
}

pub fn for_stmt(
    form: Form,
    before: usize,
    inside: usize,
    first: Verdict<Option<Box<TypedFirst>>>,
    rest: Verdict<
        (
            Option<Box<TypedExpr>>,
            (Option<Box<TypedSimple>>, Box<TypedStmt>),
        ),
    >,
    span: Span,
) -> Verdict<TypedStmt>
    ensures { made stmt_of result
        ≡ made (for_stmt form before inside span) (both (made (option_map boxed_first) first) (made boxed_behind_first rest)) }
{
    let (first, (test, (step, body))) = both(first, rest)?;
    Ok(TypedStmt::For {
        form,
        before,
        first: first_out(first),
        test: value_out(test),
        step: step_out(step),
        inside,
        body,
        span,
    })
}

pub fn foreach_stmt(
    keyword: Span,
    before: usize,
    ranges: Verdict<Vec<TypedRange>>,
    body: Verdict<Box<TypedStmt>>,
    span: Span,
) -> Verdict<TypedStmt>
    ensures { made stmt_of result ≡ made (foreach_stmt keyword before span) (both (made listed_ranges ranges) (made boxed_stmt body)) }
{
    let (ranges, body) = both(ranges, body)?;
    Ok(TypedStmt::Foreach {
        keyword,
        before,
        ranges,
        body,
        span,
    })
}

pub fn active_stmt(
    keyword: Span,
    before: usize,
    body: Verdict<Box<TypedStmt>>,
    span: Span,
) -> Verdict<TypedStmt>
    ensures { made stmt_of result ≡ made (active_stmt keyword before span) (made boxed_stmt body) }
{
    let body = body?;
    Ok(TypedStmt::ForeachActive {
        keyword,
        before,
        index: before,
        body,
        span,
    })
}

pub fn unique_stmt(
    alloc: Global,
    keyword: Span,
    before: usize,
    value: Verdict<Box<TypedExpr>>,
    body: Verdict<Box<TypedStmt>>,
    span: Span,
) -> Result<Verdict<TypedStmt>, AllocError>
    ensures { IfOk result (λ v. made stmt_of v
        ≡ made (unique_stmt keyword before span) (both (made boxed_of value) (made boxed_stmt body))) }
{
    match both(value, body) {
        Ok((value, body)) => {
            let elem = value.ty().elem;
            let value = converted(alloc, operand(elem), value)?;
            Ok(Ok(TypedStmt::ForeachUnique {
                keyword,
                before,
                index: before,
                elem,
                value: Box::into_inner(value),
                body,
                span,
            }))
        }
        Err(fault) => Ok(Err(fault)),
    }
}

pub fn unmasked_stmt(keyword: Span, body: Verdict<TypedBlock>, span: Span) -> Verdict<TypedStmt>
    ensures { made stmt_of result ≡ made (unmasked_stmt keyword span) (made block_of body) }
{
    let body = body?;
    Ok(TypedStmt::Unmasked {
        keyword,
        body,
        span,
    })
}

pub fn return_stmt(
    keyword: Span,
    value: Verdict<Option<Box<TypedExpr>>>,
    span: Span,
) -> Verdict<TypedStmt>
    ensures { made stmt_of result ≡ made (return_stmt keyword span) (made (option_map boxed_of) value) }
{
    let value = value?;
    Ok(TypedStmt::Return {
        keyword,
        value: value_out(value),
        span,
    })
}

pub fn print_stmt(
    keyword: Span,
    text: &Text,
    values: Verdict<Vec<TypedExpr>>,
    span: Span,
) -> Result<Verdict<TypedStmt>, AllocError>
    ensures { IfOk result (λ v. made stmt_of v ≡ made (print_stmt keyword text.now span) (made listed_exprs values)) }
{
    match values {
        Ok(values) => Ok(Ok(TypedStmt::Print {
            keyword,
            text: text.copied()?,
            values,
            span,
        })),
        Err(fault) => Ok(Err(fault)),
    }
}

pub fn assert_stmt(test: Verdict<Box<TypedExpr>>, call_span: Span, span: Span) -> Verdict<TypedStmt>
    ensures { made stmt_of result ≡ made (assert_stmt call_span span) (made boxed_of test) }
{
    let test = test?;
    Ok(TypedStmt::Assert {
        test: Box::into_inner(test),
        call_span,
        span,
    })
}

pub fn braces(statements: Verdict<Vec<TypedStmt>>, span: Span) -> Verdict<TypedBlock>
    ensures { made block_of result ≡ made (braces_made span) (made t_stmts (made listed_stmts statements)) }
{
    let statements = statements?;
    Ok(TypedBlock { statements, span })
}

/// One more statement after the others.
pub fn push(
    so_far: Verdict<Vec<TypedStmt>>,
    part: Verdict<TypedStmt>,
) -> Result<Verdict<Vec<TypedStmt>>, AllocError>
    ensures { IfOk result (λ v. made listed_stmts v ≡ made and_one (both (made listed_stmts so_far) (made stmt_of part))) }
{
    gathered::push(so_far, part)
}
