//! Statements.
ghost use Rattle.std.specs.Prelude.{◌≡◌, ◌++◌, ◌∷◌, [], IfOk, Ok, length, map, option_map, take};
ghost use Rattle.isp_tree.specs.Views.{block_of as read_block, expr_of as read_expr, first_of as read_first, range_of as read_range, simple_of as read_simple, stmt_of as read_stmt};
ghost use Rattle.isp_typed.specs.Indices.{active_index};
ghost use Rattle.isp_exprs.specs.Scopes.{with_name};
ghost use Rattle.isp_types.specs.Numbering.{block_variables, first_names, first_variables, names_after, range_names, range_variables, unique_names, unique_variables, variables_after};
ghost use Rattle.isp_types.specs.reader.Settings.{within};
ghost use Rattle.isp_name_breaches.specs.reader.Exprs.{expr_faults};
ghost use Rattle.isp_name_breaches.specs.reader.Stmts.{active_faults, block_faults, for_faults, foreach_faults, stmt_faults, unique_faults};

use crate::declaration::declaration;
use crate::expr::expr;
use crate::parts::{printed, ranges, returned};
use crate::simple::{first, simple, step, value};
use crate::walk::{Context, Walk};
use isp_tree::{Block, Expr, First, Range, Simple, Stmt, Word};
use isp_types::{active_index, unique_value};
use std::alloc::AllocError;

/// Finds the faults in a body, which is a scope of its own.
#[cycle(stmt)]
fn body(walk: &mut Walk, context: &Context, s: &Stmt) -> Result<(), AllocError>
    ensures found { IfOk result (λ u. walk.new.found.items ≡ walk.old.found.items
        ++ within context.now.setting stmt_faults context.now.answer walk.old.scope (length walk.old.scope) walk.old.variables.items (read_stmt s.now)) }
    ensures names { IfOk result (λ u. walk.new.scope ≡ walk.old.scope) }
    ensures variables { IfOk result (λ u. walk.new.variables.items
        ≡ within context.now.setting variables_after walk.old.scope walk.old.variables.items (read_stmt s.now)) }
{
    let start = walk.scope.len();
    stmt(walk, context, start, s)?;
    walk.scope.leave(start);
    Ok(())
}

/// Finds the faults in a block, whose names from `start` on are its scope's.
#[cycle(stmt)]
pub fn block(walk: &mut Walk, context: &Context, start: usize, b: &Block) -> Result<(), AllocError>
    ensures found { IfOk result (λ u. walk.new.found.items ≡ walk.old.found.items
        ++ within context.now.setting block_faults context.now.answer walk.old.scope start walk.old.variables.items (read_block b.now)) }
    ensures names { IfOk result (λ u. take (length walk.old.scope) walk.new.scope ≡ walk.old.scope) }
    ensures variables { IfOk result (λ u. walk.new.variables.items
        ≡ within context.now.setting block_variables walk.old.scope walk.old.variables.items (read_block b.now)) }
{
    for s in &b.statements {
        stmt(walk, context, start, s)?;
    }
    Ok(())
}

/// Finds the faults in a block that is a scope of its own.
#[cycle(stmt)]
fn inner_block(walk: &mut Walk, context: &Context, b: &Block) -> Result<(), AllocError>
    ensures found { IfOk result (λ u. walk.new.found.items ≡ walk.old.found.items
        ++ within context.now.setting block_faults context.now.answer walk.old.scope (length walk.old.scope) walk.old.variables.items (read_block b.now)) }
    ensures names { IfOk result (λ u. walk.new.scope ≡ walk.old.scope) }
    ensures variables { IfOk result (λ u. walk.new.variables.items
        ≡ within context.now.setting block_variables walk.old.scope walk.old.variables.items (read_block b.now)) }
{
    let start = walk.scope.len();
    block(walk, context, start, b)?;
    walk.scope.leave(start);
    Ok(())
}

/// Finds the faults in a test and in the body after it.
#[cycle(stmt)]
fn tested(walk: &mut Walk, context: &Context, inner: &Stmt, test: &Expr) -> Result<(), AllocError>
    ensures found { IfOk result (λ u. walk.new.found.items ≡ walk.old.found.items
        ++ (within context.now.setting expr_faults walk.old.scope (read_expr test.now)
        ++ within context.now.setting stmt_faults context.now.answer walk.old.scope (length walk.old.scope) walk.old.variables.items (read_stmt inner.now))) }
    ensures names { IfOk result (λ u. walk.new.scope ≡ walk.old.scope) }
    ensures variables { IfOk result (λ u. walk.new.variables.items
        ≡ within context.now.setting variables_after walk.old.scope walk.old.variables.items (read_stmt inner.now)) }
{
    expr(&mut walk.found, &context.setting, &walk.scope, test)?;
    body(walk, context, inner)
}

/// Finds the faults in a body and in the test after it.
#[cycle(stmt)]
fn repeated(walk: &mut Walk, context: &Context, inner: &Stmt, test: &Expr) -> Result<(), AllocError>
    ensures found { IfOk result (λ u. walk.new.found.items ≡ walk.old.found.items
        ++ (within context.now.setting stmt_faults context.now.answer walk.old.scope (length walk.old.scope) walk.old.variables.items (read_stmt inner.now)
        ++ within context.now.setting expr_faults walk.old.scope (read_expr test.now))) }
    ensures names { IfOk result (λ u. walk.new.scope ≡ walk.old.scope) }
    ensures variables { IfOk result (λ u. walk.new.variables.items
        ≡ within context.now.setting variables_after walk.old.scope walk.old.variables.items (read_stmt inner.now)) }
{
    body(walk, context, inner)?;
    expr(&mut walk.found, &context.setting, &walk.scope, test)
}

/// Finds the faults in a `for`, which is a scope of its own.
#[cycle(stmt)]
fn for_loop(
    walk: &mut Walk,
    context: &Context,
    start_part: &Option<First>,
    test: &Option<Expr>,
    last: &Option<Simple>,
    inner: &Stmt,
) -> Result<(), AllocError>
    ensures found { IfOk result (λ u. walk.new.found.items ≡ walk.old.found.items
        ++ within context.now.setting for_faults context.now.answer walk.old.scope walk.old.variables.items
        (option_map read_first start_part.now) (option_map read_expr test.now) (option_map read_simple last.now) (read_stmt inner.now)) }
    ensures names { IfOk result (λ u. walk.new.scope ≡ walk.old.scope) }
    ensures variables { IfOk result (λ u. walk.new.variables.items ≡ within context.now.setting variables_after
        (first_names context.now.setting.gang walk.old.scope walk.old.variables.items (option_map read_first start_part.now))
        (first_variables context.now.setting.gang walk.old.variables.items (option_map read_first start_part.now)) (read_stmt inner.now)) }
{
    let outer = walk.scope.len();
    first(walk, &context.setting, outer, start_part)?;
    value(&mut walk.found, &context.setting, &walk.scope, test)?;
    step(&mut walk.found, &context.setting, &walk.scope, last)?;
    body(walk, context, inner)?;
    walk.scope.leave(outer);
    Ok(())
}

/// Finds the faults in a `foreach`, whose indices are a scope of their own.
#[cycle(stmt)]
fn foreach(
    walk: &mut Walk,
    context: &Context,
    all: &[Range],
    inner: &Stmt,
) -> Result<(), AllocError>
    ensures found { IfOk result (λ u. walk.new.found.items ≡ walk.old.found.items
        ++ within context.now.setting foreach_faults context.now.answer walk.old.scope walk.old.variables.items (map read_range all.now) (read_stmt inner.now)) }
    ensures names { IfOk result (λ u. walk.new.scope ≡ walk.old.scope) }
    ensures variables { IfOk result (λ u. walk.new.variables.items ≡ within context.now.setting variables_after
        (range_names walk.old.scope walk.old.variables.items (map read_range all.now))
        (range_variables walk.old.variables.items (map read_range all.now)) (read_stmt inner.now)) }
{
    let outer = walk.scope.len();
    ranges(walk, &context.setting, outer, all)?;
    body(walk, context, inner)?;
    walk.scope.leave(outer);
    Ok(())
}

/// Finds the faults in a `foreach_active`, whose index is a scope of its own.
#[cycle(stmt)]
fn active(walk: &mut Walk, context: &Context, word: &Word, inner: &Stmt) -> Result<(), AllocError>
    ensures found { IfOk result (λ u. walk.new.found.items ≡ walk.old.found.items
        ++ within context.now.setting active_faults context.now.answer walk.old.scope walk.old.variables.items word.now (read_stmt inner.now)) }
    ensures names { IfOk result (λ u. walk.new.scope ≡ walk.old.scope) }
    ensures variables { IfOk result (λ u. walk.new.variables.items ≡ within context.now.setting variables_after
        (with_name walk.old.scope walk.old.variables.items word.now.name (Ok active_index)) (walk.old.variables.items ++ active_index ∷ []) (read_stmt inner.now)) }
{
    let outer = walk.scope.len();
    walk.declare(context.setting.alloc, word, active_index())?;
    body(walk, context, inner)?;
    walk.scope.leave(outer);
    Ok(())
}

/// Finds the faults in a `foreach_unique`, whose value does not know its index.
#[cycle(stmt)]
fn unique(
    walk: &mut Walk,
    context: &Context,
    inner: &Stmt,
    word: &Word,
    x: &Expr,
) -> Result<(), AllocError>
    ensures found { IfOk result (λ u. walk.new.found.items ≡ walk.old.found.items
        ++ within context.now.setting unique_faults context.now.answer walk.old.scope walk.old.variables.items word.now (read_expr x.now) (read_stmt inner.now)) }
    ensures names { IfOk result (λ u. walk.new.scope ≡ walk.old.scope) }
    ensures variables { IfOk result (λ u. walk.new.variables.items ≡ within context.now.setting variables_after
        (within context.now.setting unique_names walk.old.scope walk.old.variables.items word.now (read_expr x.now))
        (within context.now.setting unique_variables walk.old.scope walk.old.variables.items (read_expr x.now)) (read_stmt inner.now)) }
{
    let outer = walk.scope.len();
    expr(&mut walk.found, &context.setting, &walk.scope, x)?;
    let _ = unique_value(
        &context.setting,
        &mut walk.scope,
        &mut walk.variables,
        word,
        x,
    )?;
    body(walk, context, inner)?;
    walk.scope.leave(outer);
    Ok(())
}

/// Finds the faults in a statement. Of the names in scope, those from `start` on are the innermost scope's.
#[cycle(stmt)]
fn stmt(walk: &mut Walk, context: &Context, start: usize, s: &Stmt) -> Result<(), AllocError>
    ensures found { IfOk result (λ u. walk.new.found.items ≡ walk.old.found.items
        ++ within context.now.setting stmt_faults context.now.answer walk.old.scope start walk.old.variables.items (read_stmt s.now)) }
    ensures names { IfOk result (λ u. walk.new.scope ≡ names_after context.now.setting.gang walk.old.scope walk.old.variables.items (read_stmt s.now)) }
    ensures variables { IfOk result (λ u. walk.new.variables.items
        ≡ within context.now.setting variables_after walk.old.scope walk.old.variables.items (read_stmt s.now)) }
{
    match s {
        Stmt::Block(b) | Stmt::Unmasked { body: b, .. } => inner_block(walk, context, b),
        Stmt::Empty { .. } | Stmt::Jump { .. } => Ok(()),
        Stmt::Declare { declaration: d, .. } => declaration(walk, &context.setting, start, d),
        Stmt::Simple { simple: x, .. } => {
            simple(&mut walk.found, &context.setting, &walk.scope, x)
        }
        Stmt::If {
            test,
            then: inner,
            ..
        }
        | Stmt::While {
            test,
            body: inner,
            ..
        } => tested(walk, context, inner, test),
        Stmt::IfElse {
            test,
            then,
            otherwise,
            ..
        } => {
            expr(&mut walk.found, &context.setting, &walk.scope, test)?;
            body(walk, context, then)?;
            body(walk, context, otherwise)
        }
        Stmt::Do {
            body: inner,
            test,
            ..
        } => repeated(walk, context, inner, test),
        Stmt::For {
            first: start_part,
            test,
            step: last,
            body: inner,
            ..
        } => for_loop(walk, context, start_part, test, last, inner),
        Stmt::Foreach {
            ranges: all,
            body: inner,
            ..
        } => foreach(walk, context, all, inner),
        Stmt::ForeachActive {
            word,
            body: inner,
            ..
        } => active(walk, context, word, inner),
        Stmt::ForeachUnique {
            word,
            value: x,
            body: inner,
            ..
        } => unique(walk, context, inner, word, x),
        Stmt::Return {
            keyword,
            value: x,
            ..
        } => { returned(&mut walk.found, context, &walk.scope, *keyword, x) }
        Stmt::Print {
            text,
            text_span,
            values,
            ..
        } => printed(
            &mut walk.found,
            &context.setting,
            &walk.scope,
            text,
            *text_span,
            values,
        ),
        Stmt::Assert { test, .. } => expr(&mut walk.found, &context.setting, &walk.scope, test),
    }
}
