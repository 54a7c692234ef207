//! What stands before a semicolon.
ghost use Rattle.std.specs.Prelude.{◌≡◌, ◌++◌, IfOk, option_map};
ghost use Rattle.isp_tree.specs.Tree.{value as read_value};
ghost use Rattle.isp_tree.specs.Views.{expr_of as read_expr, first_of as read_first, simple_of as read_simple};
ghost use Rattle.isp_types.specs.Numbering.{first_names, first_variables};
ghost use Rattle.isp_types.specs.reader.Settings.{within};
ghost use Rattle.isp_name_breaches.specs.reader.Exprs.{expr_faults, of_any};
ghost use Rattle.isp_name_breaches.specs.reader.Stmts.{assigned_faults, first_faults, simple_faults, target_faults};

use crate::declaration::declaration;
use crate::expr::{call, expr, parts};
use crate::faults::own;
use crate::verdicts::target_fault;
use crate::walk::Walk;
use isp_exprs::{Scope, Setting};
use isp_lex::Fault;
use isp_tree::{Expr, First, Simple};
use std::alloc::AllocError;

/// Finds the faults in the parts of what is assigned.
fn assigned(
    found: &mut Vec<Fault>,
    setting: &Setting,
    scope: &Scope,
    x: &Expr,
) -> Result<(), AllocError>
    ensures { IfOk result (λ u. found.new.items ≡ found.old.items ++ within setting.now assigned_faults scope.now (read_expr x.now)) }
{
    match x {
        Expr::Place(p) => parts(found, setting, scope, p),
        Expr::Number { .. }
        | Expr::Truth { .. }
        | Expr::ProgramIndex { .. }
        | Expr::ProgramCount { .. }
        | Expr::Call { .. }
        | Expr::Brackets { .. }
        | Expr::Cast { .. }
        | Expr::Prefix { .. }
        | Expr::Binary { .. }
        | Expr::Choose { .. } => expr(found, setting, scope, x),
    }
}

/// Finds the faults in what is assigned.
fn target(
    found: &mut Vec<Fault>,
    setting: &Setting,
    scope: &Scope,
    x: &Expr,
) -> Result<(), AllocError>
    ensures { IfOk result (λ u. found.new.items ≡ found.old.items ++ within setting.now target_faults scope.now (read_expr x.now)) }
{
    match target_fault(setting, scope, x)? {
        None => Ok(()),
        Some(fault) => {
            let before = found.len();
            assigned(found, setting, scope, x)?;
            own(found, before, fault)
        }
    }
}

/// Finds the faults in an expression as a statement: a call may be without a result.
fn expression(
    found: &mut Vec<Fault>,
    setting: &Setting,
    scope: &Scope,
    x: &Expr,
) -> Result<(), AllocError>
    ensures { IfOk result (λ u. found.new.items ≡ found.old.items ++ within setting.now simple_faults scope.now (read_value (read_expr x.now))) }
{
    match x {
        Expr::Call {
            function,
            arguments: all,
            span,
        } => call(found, setting, scope, function, all, *span),
        Expr::Number { .. }
        | Expr::Truth { .. }
        | Expr::ProgramIndex { .. }
        | Expr::ProgramCount { .. }
        | Expr::Place(_)
        | Expr::Brackets { .. }
        | Expr::Cast { .. }
        | Expr::Prefix { .. }
        | Expr::Binary { .. }
        | Expr::Choose { .. } => expr(found, setting, scope, x),
    }
}

/// Finds the faults in an expression, an assignment, or a step by one.
pub fn simple(
    found: &mut Vec<Fault>,
    setting: &Setting,
    scope: &Scope,
    x: &Simple,
) -> Result<(), AllocError>
    ensures { IfOk result (λ u. found.new.items ≡ found.old.items ++ within setting.now simple_faults scope.now (read_simple x.now)) }
{
    match x {
        Simple::Value(value) => expression(found, setting, scope, value),
        Simple::Assign {
            target: place,
            value,
            ..
        } => {
            target(found, setting, scope, place)?;
            expr(found, setting, scope, value)
        }
        Simple::Change { target: place, .. } => target(found, setting, scope, place),
    }
}

fn first_part(walk: &mut Walk, setting: &Setting, start: usize, x: &First) -> Result<(), AllocError>
    ensures found { IfOk result (λ u. walk.new.found.items
        ≡ walk.old.found.items ++ within setting.now first_faults walk.old.scope start walk.old.variables.items (read_first x.now)) }
    ensures names { IfOk result (λ u. walk.new.scope
        ≡ first_names setting.now.gang walk.old.scope walk.old.variables.items (Some (read_first x.now))) }
    ensures variables { IfOk result (λ u. walk.new.variables.items
        ≡ first_variables setting.now.gang walk.old.variables.items (Some (read_first x.now))) }
{
    match x {
        First::Declare(d) => declaration(walk, setting, start, d),
        First::Simple(x) => simple(&mut walk.found, setting, &walk.scope, x),
    }
}

/// Finds the faults in the first part of a `for`, whose names and variables join the others.
pub fn first(
    walk: &mut Walk,
    setting: &Setting,
    start: usize,
    x: &Option<First>,
) -> Result<(), AllocError>
    ensures found { IfOk result (λ u. walk.new.found.items
        ≡ walk.old.found.items ++ of_any (within setting.now first_faults walk.old.scope start walk.old.variables.items) (option_map read_first x.now)) }
    ensures names { IfOk result (λ u. walk.new.scope
        ≡ first_names setting.now.gang walk.old.scope walk.old.variables.items (option_map read_first x.now)) }
    ensures variables { IfOk result (λ u. walk.new.variables.items
        ≡ first_variables setting.now.gang walk.old.variables.items (option_map read_first x.now)) }
{
    match x {
        None => Ok(()),
        Some(x) => first_part(walk, setting, start, x),
    }
}

/// Finds the faults in the test of a `for`, or in the value of a `return`.
pub fn value(
    found: &mut Vec<Fault>,
    setting: &Setting,
    scope: &Scope,
    x: &Option<Expr>,
) -> Result<(), AllocError>
    ensures { IfOk result (λ u. found.new.items ≡ found.old.items ++ of_any (within setting.now expr_faults scope.now) (option_map read_expr x.now)) }
{
    match x {
        None => Ok(()),
        Some(x) => expr(found, setting, scope, x),
    }
}

/// Finds the faults in the step of a `for`.
pub fn step(
    found: &mut Vec<Fault>,
    setting: &Setting,
    scope: &Scope,
    x: &Option<Simple>,
) -> Result<(), AllocError>
    ensures { IfOk result (λ u. found.new.items ≡ found.old.items ++ of_any (within setting.now simple_faults scope.now) (option_map read_simple x.now)) }
{
    match x {
        None => Ok(()),
        Some(x) => simple(found, setting, scope, x),
    }
}
