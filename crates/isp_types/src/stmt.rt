//! Statements. `stmt` alone matches them, and hands the fields of each over.
ghost use Rattle.std.specs.Prelude.{◌≡◌, IfOk, length, map, option_map, take};
ghost use Rattle.isp_tree.specs.declared.stmt.Tiling.TheVariants as tiling;
ghost use Rattle.isp_tree.specs.Tree.{foreach, foreach_active, foreach_unique, if_else, if_then, loop_do, loop_for, loop_while};
ghost use Rattle.isp_tree.specs.Views.{block_of as read_block, expr_of as read_expr, first_of as read_first, range_of as read_range};
ghost use Rattle.isp_tree.specs.Views.{simple_of as read_simple, stmt_of as read_stmt};
ghost use Rattle.isp_typed.specs.Verdicts.{made};
ghost use Rattle.isp_typed.specs.Views.{block_of, stmt_of};
ghost use Rattle.isp_types.specs.Numbering.{block_variables, names_after};
ghost use Rattle.isp_types.specs.reader.Boxes.{boxed_stmt};
ghost use Rattle.isp_types.specs.Statements.{block_typing, stmt_typing};
ghost use Rattle.isp_types.specs.reader.Settings.{within};
ghost use Rattle.isp_types.specs.reader.Walks.{variables_at, verdict_at};

use crate::declaration::declaration;
use crate::make::{
    active_stmt, assert_stmt, block_stmt, boxed, braces, declared_stmt, do_stmt, empty_stmt,
    for_stmt, foreach_stmt, if_else_stmt, if_stmt, print_stmt, push, return_stmt, simple_stmt,
    unique_stmt, unmasked_stmt, while_stmt,
};
use crate::parts::{
    active_index, behind_first, first_if, printed, ranges, returned, test, unique_value,
};
use crate::simple::simple;
use crate::walk::{Context, Walk};
use isp_base::Span;
use isp_exprs::Known;
use isp_tree::{Block, Expr, First, Form, Range, Simple, Stmt, Word};
use isp_typed::{TypedBlock, TypedStmt, Verdict, both};
use std::alloc::AllocError;

/// A body, which is a scope of its own.
#[cycle(stmt)]
fn body(walk: &mut Walk, context: &Context, s: &Stmt) -> Result<Verdict<Box<TypedStmt>>, AllocError>
    ensures value { IfOk result (λ v. made boxed_stmt v
        ≡ (within context.now.setting stmt_typing context.now.answer walk.old.scope (length walk.old.scope) walk.old.variables.items (read_stmt s.now)).verdict) }
    ensures names { IfOk result (λ v. walk.new.scope ≡ walk.old.scope) }
    ensures variables { IfOk result (λ v. walk.new.variables.items ≡ variables_at context.now walk.old (read_stmt s.now)) }
{
    let start = walk.scope.len();
    let found = stmt(walk, context, start, s)?;
    walk.scope.leave(start);
    boxed(context.setting.alloc, found)
}

/// A block, whose names from `start` on are its scope's.
#[cycle(stmt)]
pub fn block(
    walk: &mut Walk,
    context: &Context,
    start: usize,
    b: &Block,
) -> Result<Verdict<TypedBlock>, AllocError>
    ensures value { IfOk result (λ v. made block_of v
        ≡ (within context.now.setting block_typing context.now.answer walk.old.scope start walk.old.variables.items (read_block b.now)).verdict) }
    ensures names { IfOk result (λ v. take (length walk.old.scope) walk.new.scope ≡ walk.old.scope) }
    ensures variables { IfOk result (λ v. walk.new.variables.items
        ≡ within context.now.setting block_variables walk.old.scope walk.old.variables.items (read_block b.now)) }
{
    let mut done = Ok(Vec::new(context.setting.alloc));
    for s in &b.statements {
        let part = stmt(walk, context, start, s)?;
        done = push(done, part)?;
    }
    Ok(braces(done, b.span))
}

/// A block that is a scope of its own.
#[cycle(stmt)]
fn inner_block(
    walk: &mut Walk,
    context: &Context,
    b: &Block,
) -> Result<Verdict<TypedBlock>, AllocError>
    ensures value { IfOk result (λ v. made block_of v
        ≡ (within context.now.setting block_typing context.now.answer walk.old.scope (length walk.old.scope) walk.old.variables.items (read_block b.now)).verdict) }
    ensures names { IfOk result (λ v. walk.new.scope ≡ walk.old.scope) }
    ensures variables { IfOk result (λ v. walk.new.variables.items
        ≡ within context.now.setting block_variables walk.old.scope walk.old.variables.items (read_block b.now)) }
{
    let start = walk.scope.len();
    let found = block(walk, context, start, b)?;
    walk.scope.leave(start);
    Ok(found)
}

/// An `if` without `else`.
#[cycle(stmt)]
fn if_then(
    walk: &mut Walk,
    context: &Context,
    form: Form,
    x: &Expr,
    then: &Stmt,
    span: Span,
) -> Result<Verdict<TypedStmt>, AllocError>
    ensures value { IfOk result (λ v. made stmt_of v ≡ verdict_at context.now walk.old (if_then form (read_expr x.now) (read_stmt then.now) span)) }
    ensures names { IfOk result (λ v. walk.new.scope ≡ walk.old.scope) }
    ensures variables { IfOk result (λ v. walk.new.variables.items ≡ variables_at context.now walk.old (read_stmt then.now)) }
{
    let before = walk.variables.len();
    let done = body(walk, context, then)?;
    let found = test(&context.setting, &walk.scope, x)?;
    Ok(if_stmt(form, before, found, done, span))
}

/// An `if` with `else`.
#[cycle(stmt)]
fn if_else(
    walk: &mut Walk,
    context: &Context,
    form: Form,
    x: &Expr,
    then: &Stmt,
    otherwise: &Stmt,
    span: Span,
) -> Result<Verdict<TypedStmt>, AllocError>
    ensures value { IfOk result (λ v. made stmt_of v
        ≡ verdict_at context.now walk.old (if_else form (read_expr x.now) (read_stmt then.now) (read_stmt otherwise.now) span)) }
    ensures names { IfOk result (λ v. walk.new.scope ≡ walk.old.scope) }
    ensures variables { IfOk result (λ v. walk.new.variables.items
        ≡ variables_at context.now walk.old (if_else form (read_expr x.now) (read_stmt then.now) (read_stmt otherwise.now) span)) }
{
    let before = walk.variables.len();
    let chosen = body(walk, context, then)?;
    let other = body(walk, context, otherwise)?;
    let found = test(&context.setting, &walk.scope, x)?;
    Ok(if_else_stmt(form, before, found, both(chosen, other), span))
}

/// A `while`.
#[cycle(stmt)]
fn while_loop(
    walk: &mut Walk,
    context: &Context,
    form: Form,
    x: &Expr,
    inner: &Stmt,
    span: Span,
) -> Result<Verdict<TypedStmt>, AllocError>
    ensures value { IfOk result (λ v. made stmt_of v ≡ verdict_at context.now walk.old (loop_while form (read_expr x.now) (read_stmt inner.now) span)) }
    ensures names { IfOk result (λ v. walk.new.scope ≡ walk.old.scope) }
    ensures variables { IfOk result (λ v. walk.new.variables.items ≡ variables_at context.now walk.old (read_stmt inner.now)) }
{
    let before = walk.variables.len();
    let done = body(walk, context, inner)?;
    let found = test(&context.setting, &walk.scope, x)?;
    Ok(while_stmt(form, before, found, done, span))
}

/// A `do`.
#[cycle(stmt)]
fn do_loop(
    walk: &mut Walk,
    context: &Context,
    form: Form,
    inner: &Stmt,
    x: &Expr,
    span: Span,
) -> Result<Verdict<TypedStmt>, AllocError>
    ensures value { IfOk result (λ v. made stmt_of v ≡ verdict_at context.now walk.old (loop_do form (read_stmt inner.now) (read_expr x.now) span)) }
    ensures names { IfOk result (λ v. walk.new.scope ≡ walk.old.scope) }
    ensures variables { IfOk result (λ v. walk.new.variables.items ≡ variables_at context.now walk.old (read_stmt inner.now)) }
{
    let before = walk.variables.len();
    let done = body(walk, context, inner)?;
    let found = test(&context.setting, &walk.scope, x)?;
    Ok(do_stmt(form, before, done, found, span))
}

/// What stands between the brackets of a `for`.
#[derive(Clone, Copy)]
struct Head<'a> {
    first: &'a Option<First>,
    test: &'a Option<Expr>,
    step: &'a Option<Simple>,
}

/// A `for`, which is a scope of its own.
#[cycle(stmt)]
fn for_loop(
    walk: &mut Walk,
    context: &Context,
    form: Form,
    head: Head,
    inner: &Stmt,
    span: Span,
) -> Result<Verdict<TypedStmt>, AllocError>
    ensures value { IfOk result (λ v. made stmt_of v
        ≡ verdict_at context.now walk.old (loop_for form (option_map read_first head.entry.first.now)
        (option_map read_expr head.entry.test.now) (option_map read_simple head.entry.step.now) (read_stmt inner.now) span)) }
    ensures names { IfOk result (λ v. walk.new.scope ≡ walk.old.scope) }
    ensures variables { IfOk result (λ v. walk.new.variables.items
        ≡ variables_at context.now walk.old (loop_for form (option_map read_first head.entry.first.now)
        (option_map read_expr head.entry.test.now) (option_map read_simple head.entry.step.now) (read_stmt inner.now) span)) }
{
    let before = walk.variables.len();
    let outer = walk.scope.len();
    let first = first_if(
        &context.setting,
        &mut walk.scope,
        outer,
        &mut walk.variables,
        head.first,
    )?;
    let inside = walk.variables.len();
    let done = body(walk, context, inner)?;
    let rest = behind_first(&context.setting, &walk.scope, head.test, head.step, done)?;
    walk.scope.leave(outer);
    Ok(for_stmt(form, before, inside, first, rest, span))
}

/// A `foreach`, whose indices are a scope of their own. It is the same for each tiling.
#[cycle(stmt)]
fn foreach(
    walk: &mut Walk,
    context: &Context,
    keyword: Span,
    all: &[Range],
    inner: &Stmt,
    span: Span,
) -> Result<Verdict<TypedStmt>, AllocError>
    ensures value { IfOk result (λ v. made stmt_of v
        ≡ verdict_at context.now walk.old (foreach tiling.Plain keyword (map read_range all.now) (read_stmt inner.now) span)) }
    ensures names { IfOk result (λ v. walk.new.scope ≡ walk.old.scope) }
    ensures variables { IfOk result (λ v. walk.new.variables.items
        ≡ variables_at context.now walk.old (foreach tiling.Plain keyword (map read_range all.now) (read_stmt inner.now) span)) }
{
    let before = walk.variables.len();
    let outer = walk.scope.len();
    let found = ranges(&context.setting, &mut walk.scope, &mut walk.variables, all)?;
    let done = body(walk, context, inner)?;
    walk.scope.leave(outer);
    Ok(foreach_stmt(keyword, before, found, done, span))
}

/// A `foreach_active`, whose index is a scope of its own.
#[cycle(stmt)]
fn foreach_active(
    walk: &mut Walk,
    context: &Context,
    keyword: Span,
    word: &Word,
    inner: &Stmt,
    span: Span,
) -> Result<Verdict<TypedStmt>, AllocError>
    ensures value { IfOk result (λ v. made stmt_of v ≡ verdict_at context.now walk.old (foreach_active keyword word.now (read_stmt inner.now) span)) }
    ensures names { IfOk result (λ v. walk.new.scope ≡ walk.old.scope) }
    ensures variables { IfOk result (λ v. walk.new.variables.items
        ≡ variables_at context.now walk.old (foreach_active keyword word.now (read_stmt inner.now) span)) }
{
    let number = walk.variables.len();
    let outer = walk.scope.len();
    let variable = active_index();
    walk.variables.push(variable)?;
    walk.scope.push(
        context.setting.alloc,
        &word.name,
        Ok(Known { number, variable }),
    )?;
    let done = body(walk, context, inner)?;
    walk.scope.leave(outer);
    Ok(active_stmt(keyword, number, done, span))
}

/// A `foreach_unique`, whose index is a scope of its own.
#[cycle(stmt)]
fn foreach_unique(
    walk: &mut Walk,
    context: &Context,
    keyword: Span,
    word: &Word,
    value: &Expr,
    inner: &Stmt,
    span: Span,
) -> Result<Verdict<TypedStmt>, AllocError>
    ensures value { IfOk result (λ v. made stmt_of v
        ≡ verdict_at context.now walk.old (foreach_unique keyword word.now (read_expr value.now) (read_stmt inner.now) span)) }
    ensures names { IfOk result (λ v. walk.new.scope ≡ walk.old.scope) }
    ensures variables { IfOk result (λ v. walk.new.variables.items
        ≡ variables_at context.now walk.old (foreach_unique keyword word.now (read_expr value.now) (read_stmt inner.now) span)) }
{
    let before = walk.variables.len();
    let outer = walk.scope.len();
    let found = unique_value(
        &context.setting,
        &mut walk.scope,
        &mut walk.variables,
        word,
        value,
    )?;
    let done = body(walk, context, inner)?;
    walk.scope.leave(outer);
    unique_stmt(context.setting.alloc, keyword, before, found, done, span)
}

/// A statement. Of the names in scope, those from `start` on are the innermost scope's.
#[cycle(stmt)]
fn stmt(
    walk: &mut Walk,
    context: &Context,
    start: usize,
    s: &Stmt,
) -> Result<Verdict<TypedStmt>, AllocError>
    ensures value { IfOk result (λ v. made stmt_of v
        ≡ (within context.now.setting stmt_typing context.now.answer walk.old.scope start walk.old.variables.items (read_stmt s.now)).verdict) }
    ensures names { IfOk result (λ v. walk.new.scope ≡ names_after context.now.setting.gang walk.old.scope walk.old.variables.items (read_stmt s.now)) }
    ensures variables { IfOk result (λ v. walk.new.variables.items ≡ variables_at context.now walk.old (read_stmt s.now)) }
{
    match s {
        Stmt::Block(b) => {
            let found = inner_block(walk, context, b)?;
            Ok(block_stmt(found))
        }
        Stmt::Empty { span } => Ok(Ok(empty_stmt(context.setting.alloc, *span))),
        Stmt::Declare {
            declaration: d,
            span,
        } => {
            let items = declaration(
                &context.setting,
                &mut walk.scope,
                start,
                &mut walk.variables,
                d,
            )?;
            Ok(declared_stmt(items, *span))
        }
        Stmt::Simple { simple: x, span } => {
            let found = simple(&context.setting, &walk.scope, x)?;
            Ok(simple_stmt(found, *span))
        }
        Stmt::If {
            form,
            test: x,
            then,
            span,
        } => if_then(walk, context, *form, x, then, *span),
        Stmt::IfElse {
            form,
            test: x,
            then,
            otherwise,
            span,
        } => { if_else(walk, context, *form, x, then, otherwise, *span) }
        Stmt::While {
            form,
            test: x,
            body: inner,
            span,
        } => while_loop(walk, context, *form, x, inner, *span),
        Stmt::Do {
            form,
            body: inner,
            test: x,
            span,
        } => do_loop(walk, context, *form, inner, x, *span),
        Stmt::For {
            form,
            first,
            test: x,
            step,
            body: inner,
            span,
        } => {
            let head = Head {
                first,
                test: x,
                step,
            };
            for_loop(walk, context, *form, head, inner, *span)
        }
        Stmt::Foreach {
            keyword,
            ranges: all,
            body: inner,
            span,
            ..
        } => foreach(walk, context, *keyword, all, inner, *span),
        Stmt::ForeachActive {
            keyword,
            word,
            body: inner,
            span,
        } => foreach_active(walk, context, *keyword, word, inner, *span),
        Stmt::ForeachUnique {
            keyword,
            word,
            value,
            body: inner,
            span,
        } => { foreach_unique(walk, context, *keyword, word, value, inner, *span) }
        Stmt::Unmasked {
            keyword,
            body: b,
            span,
        } => {
            let found = inner_block(walk, context, b)?;
            Ok(unmasked_stmt(*keyword, found, *span))
        }
        Stmt::Jump {
            jump,
            keyword,
            span,
        } => Ok(Ok(TypedStmt::Jump {
            jump: *jump,
            keyword: *keyword,
            span: *span,
        })),
        Stmt::Return {
            keyword,
            value,
            span,
        } => {
            let found = returned(
                &context.setting,
                context.answer,
                &walk.scope,
                *keyword,
                value,
            )?;
            Ok(return_stmt(*keyword, found, *span))
        }
        Stmt::Print {
            keyword,
            text,
            text_span,
            values,
            span,
        } => {
            let found = printed(&context.setting, &walk.scope, text, *text_span, values)?;
            print_stmt(*keyword, text, found, *span)
        }
        Stmt::Assert {
            test: x,
            call_span,
            span,
        } => {
            let found = test(&context.setting, &walk.scope, x)?;
            Ok(assert_stmt(found, *call_span, *span))
        }
    }
}
