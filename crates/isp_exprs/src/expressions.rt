//! Expressions.
ghost use Rattle.std.specs.Prelude.{◌≡◌, IfOk, Ok, drop};
ghost use Rattle.isp_tree.specs.Views.{argument_of as read_argument, arguments_of as read_arguments, expr_of as read_expr, place_of as read_place};
ghost use Rattle.isp_tree.specs.Tree.{listed, span_of_argument};
ghost use Rattle.isp_typed.specs.Typed.{t_constant, t_place, t_program_index};
ghost use Rattle.isp_typed.specs.Verdicts.{both, found, made};
ghost use Rattle.isp_typed.specs.Views.{place_of};
ghost use Rattle.isp_exprs.specs.Passing.{h_value, handed_element, handed_reference};
ghost use Rattle.isp_exprs.specs.Calls.{first_want, suits};
ghost use Rattle.isp_exprs.specs.Rules.{expr_typing, argument_typing, arguments_typing, call_of_typing, place_typing};
ghost use Rattle.isp_exprs.specs.reader.Lists.{and_one, fault_of};
ghost use Rattle.isp_exprs.specs.reader.Parts.{boxed_of, called_of, handed_of, list_passed, passed_of};

use crate::callee::{Headers, Want, asked_past, unless_unknown};
use crate::calls::{
    Called, Handed, Passed, call_of, handed_call, handed_name, suits, value_called,
};
use crate::places::{element_at, variable_at};
use crate::scope::{Known, Scope};
use crate::values::{
    boxed, cast_to, choice, count_value, in_brackets, joined, truth_value, with_sign,
};
use crate::words::value_said;
use isp_base::{Gang, Span, Value};
use isp_lex::Fault;
use isp_tree::{Argument, Expr, Place, Word};
use isp_typed::{TypedExpr, TypedPlace, Verdict, both};
use std::alloc::{AllocError, Global};

/// What stays the same in a program: its gang's size, and its functions as callers see them.
#[derive(Clone, Copy)]
pub struct Setting<'a> {
    pub alloc: Global,
    pub gang: Gang,
    pub headers: &'a Headers,
}

/// A place as an expression.
fn of_place(
    alloc: Global,
    place: Verdict<TypedPlace>,
) -> Result<Verdict<Box<TypedExpr>>, AllocError>
    ensures { IfOk result (λ v. made boxed_of v ≡ made t_place (made place_of place)) }
{
    match place {
        Ok(place) => Ok(Ok(boxed(alloc, TypedExpr::Place(place))?)),
        Err(fault) => Ok(Err(fault)),
    }
}

/// A number.
fn constant(alloc: Global, value: Value, span: Span) -> Result<Verdict<Box<TypedExpr>>, AllocError>
    ensures { IfOk result (λ v. made boxed_of v ≡ Ok (t_constant value span)) }
{
    Ok(Ok(boxed(alloc, TypedExpr::Constant { value, span })?))
}

/// `programIndex`.
fn index(alloc: Global, span: Span) -> Result<Verdict<Box<TypedExpr>>, AllocError>
    ensures { IfOk result (λ v. made boxed_of v ≡ Ok (t_program_index span)) }
{
    Ok(Ok(boxed(alloc, TypedExpr::ProgramIndex { span })?))
}

/// A value as an argument.
fn handed_value(value: Verdict<Box<TypedExpr>>) -> Verdict<Handed>
    ensures { made handed_of result ≡ made h_value (made boxed_of value) }
{
    match value {
        Ok(value) => Ok(Handed::Value(value)),
        Err(fault) => Err(fault),
    }
}

/// `&x` as an argument.
fn handed_reference(known: Verdict<Known>, span: Span) -> Verdict<Handed>
    ensures { made handed_of result ≡ made (handed_reference span) known }
{
    match known {
        Ok(known) => Ok(Handed::Name(known, span)),
        Err(fault) => Err(fault),
    }
}

/// `&a[e]` as an argument.
fn handed_element(
    known: Verdict<Known>,
    index: Verdict<Box<TypedExpr>>,
    span: Span,
) -> Verdict<Handed>
    ensures { made handed_of result ≡ made (handed_element span) (both known (made boxed_of index)) }
{
    match both(known, index) {
        Ok((known, index)) => Ok(Handed::Element(known, span, index)),
        Err(fault) => Err(fault),
    }
}

/// What is asked in a place, where `past` is asked past the last.
pub fn want_at(past: Want, wants: &[Want], place: usize) -> Want
    ensures { result ≡ first_want past (drop place wants.now) }
{
    match wants.get(place) {
        Some(want) => *want,
        None => past,
    }
}

/// One more argument after the others.
fn push(
    so_far: Verdict<Vec<Passed>>,
    part: Verdict<Passed>,
) -> Result<Verdict<Vec<Passed>>, AllocError>
    ensures { IfOk result (λ v. made (λ l. list_passed l.items) v ≡ made and_one (both (made (λ l. list_passed l.items) so_far) (made passed_of part))) }
{
    match both(so_far, part) {
        Ok((mut all, passed)) => {
            all.push(passed)?;
            Ok(Ok(all))
        }
        Err(fault) => Ok(Err(fault)),
    }
}

/// A variable or an element, with its type.
#[cycle(expr)]
pub fn place(setting: &Setting, scope: &Scope, p: &Place) -> Result<Verdict<TypedPlace>, AllocError>
    ensures { IfOk result (λ v. made place_of v ≡ (place_typing setting.now.gang setting.now.headers.now scope.now (read_place p.now)).verdict) }
{
    match p {
        Place::Variable(word) => Ok(variable_at(scope.named(word), word.span)),
        Place::Element { array, index, span } => {
            let index = expr(setting, scope, index)?;
            Ok(element_at(scope.named(array), index, *span))
        }
    }
}

/// What an argument is by itself.
#[cycle(expr)]
fn argument(setting: &Setting, scope: &Scope, x: &Argument) -> Result<Verdict<Handed>, AllocError>
    ensures { IfOk result (λ v. made handed_of v ≡ (argument_typing setting.now.gang setting.now.headers.now scope.now (read_argument x.now)).verdict) }
{
    match x {
        Argument::Value(value) => match value {
            Expr::Place(p) => match p {
                Place::Variable(word) => handed_name(setting.alloc, scope.named(word), word.span),
                Place::Element { .. } => {
                    let value = expr(setting, scope, value)?;
                    Ok(handed_value(value))
                }
            },
            Expr::Call {
                function,
                arguments,
                span,
            } => {
                let called = call(setting, scope, function, arguments, *span)?;
                Ok(handed_call(called))
            }
            Expr::Number { .. }
            | Expr::Truth { .. }
            | Expr::ProgramIndex { .. }
            | Expr::ProgramCount { .. }
            | Expr::Brackets { .. }
            | Expr::Cast { .. }
            | Expr::Prefix { .. }
            | Expr::Binary { .. }
            | Expr::Choose { .. } => {
                let value = expr(setting, scope, value)?;
                Ok(handed_value(value))
            }
        },
        Argument::Reference {
            place: Place::Variable(word),
            ..
        } => Ok(handed_reference(scope.named(word), word.span)),
        Argument::Reference {
            place: Place::Element { array, index, .. },
            ..
        } => {
            let index = expr(setting, scope, index)?;
            Ok(handed_element(scope.named(array), index, array.span))
        }
    }
}

/// Arguments, each where something is asked; `past` is asked past the last.
#[cycle(expr)]
fn arguments(
    setting: &Setting,
    scope: &Scope,
    past: Want,
    wants: &[Want],
    all: &[Argument],
) -> Result<Verdict<Vec<Passed>>, AllocError>
    ensures { IfOk result (λ v. made (λ l. list_passed l.items) v ≡ (arguments_typing setting.now.gang setting.now.headers.now scope.now (listed (read_arguments all.now)) past wants.now).verdict) }
{
    let mut done = Ok(Vec::new(setting.alloc));
    for (place, x) in all.iter().enumerate() {
        let handed = argument(setting, scope, x)?;
        let passed = suits(setting.alloc, want_at(past, wants, place), x.span(), handed)?;
        done = push(done, passed)?;
    }
    Ok(done)
}

/// A call.
#[cycle(expr)]
pub fn call(
    setting: &Setting,
    scope: &Scope,
    function: &Word,
    all: &[Argument],
    span: Span,
) -> Result<Verdict<Called>, AllocError>
    ensures { IfOk result (λ v. made called_of v ≡ (call_of_typing setting.now.gang setting.now.headers.now scope.now function.now (listed (read_arguments all.now)) span).verdict) }
{
    let (callee, wants) = setting.headers.called(&function.name, all.len());
    let passed = arguments(setting, scope, asked_past(callee), wants, all)?;
    call_of(
        setting.alloc,
        unless_unknown(function, callee),
        passed,
        span,
    )
}

/// An expression with its types, by the names in scope.
#[cycle(expr)]
pub fn expr(
    setting: &Setting,
    scope: &Scope,
    x: &Expr,
) -> Result<Verdict<Box<TypedExpr>>, AllocError>
    ensures { IfOk result (λ v. made boxed_of v ≡ (expr_typing setting.now.gang setting.now.headers.now scope.now (read_expr x.now)).verdict) }
{
    let alloc = setting.alloc;
    match x {
        Expr::Number { value, span } => constant(alloc, *value, *span),
        Expr::Truth { value, span } => constant(alloc, truth_value(*value), *span),
        Expr::ProgramIndex { span } => index(alloc, *span),
        Expr::ProgramCount { span } => constant(alloc, count_value(setting.gang), *span),
        Expr::Place(p) => {
            let found = place(setting, scope, p)?;
            of_place(alloc, found)
        }
        Expr::Call {
            function,
            arguments,
            span,
        } => {
            let called = call(setting, scope, function, arguments, *span)?;
            Ok(value_called(called, *span))
        }
        Expr::Brackets { inner, span } => {
            let inner = expr(setting, scope, inner)?;
            in_brackets(alloc, inner, *span)
        }
        Expr::Cast { ty, operand, span } => {
            let operand = expr(setting, scope, operand)?;
            cast_to(alloc, value_said(ty), operand, *span)
        }
        Expr::Prefix {
            operator,
            operand,
            span,
        } => {
            let operand = expr(setting, scope, operand)?;
            with_sign(alloc, *operator, operand, *span)
        }
        Expr::Binary {
            operator,
            left,
            right,
            span,
        } => {
            let left = expr(setting, scope, left)?;
            let right = expr(setting, scope, right)?;
            joined(alloc, *operator, left, right, *span)
        }
        Expr::Choose {
            test,
            then,
            otherwise,
            span,
        } => {
            let test = expr(setting, scope, test)?;
            let then = expr(setting, scope, then)?;
            let otherwise = expr(setting, scope, otherwise)?;
            choice(alloc, test, then, otherwise, *span)
        }
    }
}

/// The fault of an argument where something is asked of it: its own, or the first of its parts. The rules
/// are in docs/LANGUAGE.md, Names and types.
pub fn argument_fault(
    setting: &Setting,
    scope: &Scope,
    want: Want,
    x: &Argument,
) -> Result<Option<Fault>, AllocError>
    ensures { IfOk result (λ o. o ≡ fault_of (found (suits want (span_of_argument (read_argument x.now))) (argument_typing setting.now.gang setting.now.headers.now scope.now (read_argument x.now)).verdict)) }
{
    let handed = argument(setting, scope, x)?;
    match suits(setting.alloc, want, x.span(), handed)? {
        Ok(_) => Ok(None),
        Err(fault) => Ok(Some(fault)),
    }
}
