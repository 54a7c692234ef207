//! Expressions. Before the walk goes into a node, it asks for the fault that the checker answers there: where there is
//! none, nothing in it is wrong.
ghost use Rattle.std.specs.Prelude.{◌≡◌, ◌++◌, IfOk, Some};
ghost use Rattle.isp_tree.specs.Tree.{listed};
ghost use Rattle.isp_tree.specs.Views.{argument_of as read_argument, arguments_of as read_arguments, expr_of as read_expr, place_of as read_place};
ghost use Rattle.isp_exprs.specs.Rules.{expr_typing};
ghost use Rattle.isp_exprs.specs.reader.Lists.{fault_of};
ghost use Rattle.isp_types.specs.reader.Settings.{within};
ghost use Rattle.isp_name_breaches.specs.reader.Exprs.{argument_faults, arguments_faults, call_of_faults, expr_faults, parts_faults, passed_faults};

use crate::faults::{own, refused};
use crate::verdicts::{call_fault, expr_fault};
use isp_base::Span;
use isp_exprs::{
    Scope, Setting, Want, argument_fault, asked_past, unless_unknown, value_said, want_at,
};
use isp_lex::Fault;
use isp_tree::{Argument, Expr, Place, Word};
use std::alloc::AllocError;

/// Finds the faults in an expression.
#[cycle(expr)]
pub fn expr(
    found: &mut Vec<Fault>,
    setting: &Setting,
    scope: &Scope,
    x: &Expr,
) -> Result<(), AllocError>
    ensures { IfOk result (λ u. found.new.items ≡ found.old.items ++ within setting.now expr_faults scope.now (read_expr x.now)) }
{
    match expr_fault(setting, scope, x)? {
        None => Ok(()),
        Some(fault) => faulty(found, setting, scope, fault, x),
    }
}

/// Finds the faults in an expression at which the checker answers one.
#[cycle(expr)]
fn faulty(
    found: &mut Vec<Fault>,
    setting: &Setting,
    scope: &Scope,
    fault: Fault,
    x: &Expr,
) -> Result<(), AllocError>
    requires { fault_of (within setting.now expr_typing scope.now (read_expr x.now)).verdict ≡ Some fault }
    ensures { IfOk result (λ u. found.new.items ≡ found.old.items ++ within setting.now expr_faults scope.now (read_expr x.now)) }
{
    let before = found.len();
    match x {
        Expr::Number { .. }
        | Expr::Truth { .. }
        | Expr::ProgramIndex { .. }
        | Expr::ProgramCount { .. } => Ok(()),
        Expr::Place(p) => {
            parts(found, setting, scope, p)?;
            own(found, before, fault)
        }
        Expr::Call {
            function,
            arguments: all,
            span,
        } => {
            call(found, setting, scope, function, all, *span)?;
            own(found, before, fault)
        }
        Expr::Brackets { inner: operand, .. } | Expr::Prefix { operand, .. } => expr(
            found, setting, scope, operand,
        ),
        Expr::Cast { ty, operand, .. } => {
            refused(found, value_said(ty))?;
            expr(found, setting, scope, operand)
        }
        Expr::Binary { left, right, .. } => {
            expr(found, setting, scope, left)?;
            expr(found, setting, scope, right)
        }
        Expr::Choose {
            test,
            then,
            otherwise,
            ..
        } => {
            expr(found, setting, scope, test)?;
            expr(found, setting, scope, then)?;
            expr(found, setting, scope, otherwise)
        }
    }
}

/// Finds the faults in the parts of a place: its name and its index.
#[cycle(expr)]
pub fn parts(
    found: &mut Vec<Fault>,
    setting: &Setting,
    scope: &Scope,
    p: &Place,
) -> Result<(), AllocError>
    ensures { IfOk result (λ u. found.new.items ≡ found.old.items ++ within setting.now parts_faults scope.now (read_place p.now)) }
{
    match p {
        Place::Variable(word) => refused(found, scope.named(word)),
        Place::Element { array, index, .. } => {
            refused(found, scope.named(array))?;
            expr(found, setting, scope, index)
        }
    }
}

/// Finds the faults in an argument by itself.
#[cycle(expr)]
fn argument(
    found: &mut Vec<Fault>,
    setting: &Setting,
    scope: &Scope,
    x: &Argument,
) -> Result<(), AllocError>
    ensures { IfOk result (λ u. found.new.items ≡ found.old.items ++ within setting.now argument_faults scope.now (read_argument x.now)) }
{
    match x {
        Argument::Value(value) => match value {
            Expr::Place(Place::Variable(word)) => refused(found, scope.named(word)),
            Expr::Call {
                function,
                arguments: all,
                span,
            } => call(found, setting, scope, function, all, *span),
            Expr::Number { .. }
            | Expr::Truth { .. }
            | Expr::ProgramIndex { .. }
            | Expr::ProgramCount { .. }
            | Expr::Place(Place::Element { .. })
            | Expr::Brackets { .. }
            | Expr::Cast { .. }
            | Expr::Prefix { .. }
            | Expr::Binary { .. }
            | Expr::Choose { .. } => expr(found, setting, scope, value),
        },
        Argument::Reference { place, .. } => parts(found, setting, scope, place),
    }
}

/// Finds the faults in an argument where something is asked of it.
#[cycle(expr)]
fn passed(
    found: &mut Vec<Fault>,
    setting: &Setting,
    scope: &Scope,
    want: Want,
    x: &Argument,
) -> Result<(), AllocError>
    ensures { IfOk result (λ u. found.new.items ≡ found.old.items ++ within setting.now passed_faults scope.now want (read_argument x.now)) }
{
    match argument_fault(setting, scope, want, x)? {
        None => Ok(()),
        Some(fault) => {
            let before = found.len();
            argument(found, setting, scope, x)?;
            own(found, before, fault)
        }
    }
}

/// Finds the faults in arguments, each where something is asked; `past` is asked past the last.
#[cycle(expr)]
fn arguments(
    found: &mut Vec<Fault>,
    setting: &Setting,
    scope: &Scope,
    past: Want,
    wants: &[Want],
    all: &[Argument],
) -> Result<(), AllocError>
    ensures { IfOk result (λ u. found.new.items ≡ found.old.items ++ within setting.now arguments_faults scope.now past wants.now (listed (read_arguments all.now))) }
{
    for (place, x) in all.iter().enumerate() {
        passed(found, setting, scope, want_at(past, wants, place), x)?;
    }
    Ok(())
}

/// Finds the faults in a call, which may be without a result.
#[cycle(expr)]
pub fn call(
    found: &mut Vec<Fault>,
    setting: &Setting,
    scope: &Scope,
    function: &Word,
    all: &[Argument],
    span: Span,
) -> Result<(), AllocError>
    ensures { IfOk result (λ u. found.new.items ≡ found.old.items ++ within setting.now call_of_faults scope.now function.now (listed (read_arguments all.now)) span) }
{
    match call_fault(setting, scope, function, all, span)? {
        None => Ok(()),
        Some(fault) => {
            let before = found.len();
            let (callee, wants) = setting.headers.called(&function.name, all.len());
            refused(found, unless_unknown(function, callee))?;
            arguments(found, setting, scope, asked_past(callee), wants, all)?;
            own(found, before, fault)
        }
    }
}
