//! What stands before a semicolon.
ghost use Rattle.std.specs.Prelude.{◌≡◌, IfOk};
ghost use Rattle.isp_tree.specs.Tree.{value as read_value};
ghost use Rattle.isp_tree.specs.Views.{expr_of as read_expr, first_of as read_first, simple_of as read_simple};
ghost use Rattle.isp_typed.specs.Typed.{t_first_simple, t_value};
ghost use Rattle.isp_typed.specs.Verdicts.{both, found, made};
ghost use Rattle.isp_typed.specs.Views.{place_of};
ghost use Rattle.isp_types.specs.Numbering.{first_names, first_variables};
ghost use Rattle.isp_types.specs.Simple.{assigned, assigned_by, assignment_operator, change_operator, no_place, stated, stepped, simple_typing, target_typing};
ghost use Rattle.isp_types.specs.Nodes.{declared_first};
ghost use Rattle.isp_types.specs.Statements.{first_typing};
ghost use Rattle.isp_exprs.specs.reader.Parts.{boxed_of, called_of};
ghost use Rattle.isp_types.specs.reader.Boxes.{boxed_first, boxed_simple, listed_items};
ghost use Rattle.isp_types.specs.reader.Settings.{within};

use crate::declaration::declaration;
use isp_base::{BinOp, Elem, Span, common};
use isp_exprs::{
    Called, Scope, Setting, call, converted, element_target, expr, mismatch, variable_target,
};
use isp_tree::{Assignment, Change, Expr, First, Place, Simple};
use isp_typed::{
    TypedExpr, TypedFirst, TypedItem, TypedPlace, TypedSimple, Variable, Verdict, both,
};
use std::alloc::{AllocError, Global};

fn no_place(value: Verdict<Box<TypedExpr>>, span: Span) -> Verdict<TypedPlace>
    ensures { made place_of result ≡ found (no_place span) (made boxed_of value) }
{
    value?;
    Err(mismatch(span))
}

/// What is assigned.
pub fn target(setting: &Setting, scope: &Scope, x: &Expr) -> Result<Verdict<TypedPlace>, AllocError>
    ensures { IfOk result (λ v. made place_of v ≡ (within setting.now target_typing scope.now (read_expr x.now)).verdict) }
{
    match x {
        Expr::Place(p) => match p {
            Place::Variable(word) => Ok(variable_target(scope.named(word), word.span)),
            Place::Element { array, index, span } => {
                let index = expr(setting, scope, index)?;
                Ok(element_target(scope.named(array), index, *span))
            }
        },
        Expr::Number { .. }
        | Expr::Truth { .. }
        | Expr::ProgramIndex { .. }
        | Expr::ProgramCount { .. }
        | Expr::Call { .. }
        | Expr::Brackets { .. }
        | Expr::Cast { .. }
        | Expr::Prefix { .. }
        | Expr::Binary { .. }
        | Expr::Choose { .. } => {
            let value = expr(setting, scope, x)?;
            Ok(no_place(value, x.span()))
        }
    }
}

fn assignment_operator(assignment: Assignment) -> Option<BinOp>
    ensures { result ≡ assignment_operator assignment }
{
    match assignment {
        Assignment::Replace => None,
        Assignment::Add => Some(BinOp::Add),
        Assignment::Subtract => Some(BinOp::Sub),
        Assignment::Multiply => Some(BinOp::Mul),
        Assignment::Divide => Some(BinOp::Div),
        Assignment::Remainder => Some(BinOp::Rem),
        Assignment::And => Some(BinOp::And),
        Assignment::Or => Some(BinOp::Or),
        Assignment::Xor => Some(BinOp::Xor),
        Assignment::ShiftLeft => Some(BinOp::Shl),
        Assignment::ShiftRight => Some(BinOp::Shr),
    }
}

fn assign(
    alloc: Global,
    operator: Option<BinOp>,
    target: TypedPlace,
    value: Box<TypedExpr>,
    span: Span,
) -> Result<Box<TypedSimple>, AllocError>
    ensures { IfOk result (λ t. boxed_simple t ≡ assigned_by operator span (place_of target, boxed_of value)) }
{
    match operator {
        None => {
            let value = converted(alloc, target.ty().elem, value)?;
            let assign = TypedSimple::Assign {
                target,
                value: Box::into_inner(value),
                span,
            };
            Ok(Box::new(alloc, assign)?)
        }
        Some(operator) => {
            let elem = common(target.ty().elem, value.ty().elem);
            let value = converted(alloc, elem, value)?;
            let update = TypedSimple::Update {
                operator,
                elem,
                target,
                value: Box::into_inner(value),
                span,
            };
            Ok(Box::new(alloc, update)?)
        }
    }
}

fn assigned(
    alloc: Global,
    assignment: Assignment,
    target: Verdict<TypedPlace>,
    value: Verdict<Box<TypedExpr>>,
    span: Span,
) -> Result<Verdict<Box<TypedSimple>>, AllocError>
    ensures { IfOk result (λ v. made boxed_simple v ≡ made (assigned assignment span) (both (made place_of target) (made boxed_of value))) }
{
    match both(target, value) {
        Ok((target, value)) => Ok(Ok(assign(
            alloc,
            assignment_operator(assignment),
            target,
            value,
            span,
        )?)),
        Err(fault) => Ok(Err(fault)),
    }
}

fn change_operator(change: Change) -> BinOp
    ensures { result ≡ change_operator change }
{
    match change {
        Change::Increment => BinOp::Add,
        Change::Decrement => BinOp::Sub,
    }
}

fn stepped(
    alloc: Global,
    change: Change,
    target: Verdict<TypedPlace>,
    span: Span,
) -> Result<Verdict<Box<TypedSimple>>, AllocError>
    ensures { IfOk result (λ v. made boxed_simple v ≡ made (stepped change span) (made place_of target)) }
{
    match target {
        Ok(target) => {
            let elem = common(target.ty().elem, Elem::I32);
            let step = TypedSimple::Step {
                operator: change_operator(change),
                elem,
                target,
                span,
            };
            Ok(Ok(Box::new(alloc, step)?))
        }
        Err(fault) => Ok(Err(fault)),
    }
}

fn stated(alloc: Global, called: Verdict<Called>) -> Result<Verdict<Box<TypedSimple>>, AllocError>
    ensures { IfOk result (λ v. made boxed_simple v ≡ made stated (made called_of called)) }
{
    match called {
        Ok(Called::Value(value)) => {
            let value = TypedSimple::Value(Box::into_inner(value));
            Ok(Ok(Box::new(alloc, value)?))
        }
        Ok(Called::Run(call)) => Ok(Ok(Box::new(alloc, TypedSimple::Call(call))?)),
        Err(fault) => Ok(Err(fault)),
    }
}

fn value_stated(
    alloc: Global,
    value: Verdict<Box<TypedExpr>>,
) -> Result<Verdict<Box<TypedSimple>>, AllocError>
    ensures { IfOk result (λ v. made boxed_simple v ≡ made t_value (made boxed_of value)) }
{
    match value {
        Ok(value) => {
            let value = TypedSimple::Value(Box::into_inner(value));
            Ok(Ok(Box::new(alloc, value)?))
        }
        Err(fault) => Ok(Err(fault)),
    }
}

/// An expression as a statement: a call may be without a result.
fn expression(
    setting: &Setting,
    scope: &Scope,
    x: &Expr,
) -> Result<Verdict<Box<TypedSimple>>, AllocError>
    ensures { IfOk result (λ v. made boxed_simple v ≡ (within setting.now simple_typing scope.now (read_value (read_expr x.now))).verdict) }
{
    match x {
        Expr::Call {
            function,
            arguments,
            span,
        } => {
            let called = call(setting, scope, function, arguments, *span)?;
            stated(setting.alloc, called)
        }
        Expr::Number { .. }
        | Expr::Truth { .. }
        | Expr::ProgramIndex { .. }
        | Expr::ProgramCount { .. }
        | Expr::Place(_)
        | Expr::Brackets { .. }
        | Expr::Cast { .. }
        | Expr::Prefix { .. }
        | Expr::Binary { .. }
        | Expr::Choose { .. } => {
            let value = expr(setting, scope, x)?;
            value_stated(setting.alloc, value)
        }
    }
}

/// An expression, an assignment, or a step by one.
pub fn simple(
    setting: &Setting,
    scope: &Scope,
    x: &Simple,
) -> Result<Verdict<Box<TypedSimple>>, AllocError>
    ensures { IfOk result (λ v. made boxed_simple v ≡ (within setting.now simple_typing scope.now (read_simple x.now)).verdict) }
{
    match x {
        Simple::Value(value) => expression(setting, scope, value),
        Simple::Assign {
            assignment,
            target: place,
            value,
            span,
        } => {
            let place = target(setting, scope, place)?;
            let value = expr(setting, scope, value)?;
            assigned(setting.alloc, *assignment, place, value, *span)
        }
        Simple::Change {
            change,
            target: place,
            span,
        } => {
            let place = target(setting, scope, place)?;
            stepped(setting.alloc, *change, place, *span)
        }
    }
}

fn declared_first(
    alloc: Global,
    items: Verdict<Vec<TypedItem>>,
    span: Span,
) -> Result<Verdict<Box<TypedFirst>>, AllocError>
    ensures { IfOk result (λ v. made boxed_first v ≡ made (declared_first span) (made listed_items items)) }
{
    match items {
        Ok(items) => Ok(Ok(Box::new(alloc, TypedFirst::Declare { items, span })?)),
        Err(fault) => Ok(Err(fault)),
    }
}

fn simple_first(
    alloc: Global,
    simple: Verdict<Box<TypedSimple>>,
) -> Result<Verdict<Box<TypedFirst>>, AllocError>
    ensures { IfOk result (λ v. made boxed_first v ≡ made t_first_simple (made boxed_simple simple)) }
{
    match simple {
        Ok(simple) => {
            let first = TypedFirst::Simple(Box::into_inner(simple));
            Ok(Ok(Box::new(alloc, first)?))
        }
        Err(fault) => Ok(Err(fault)),
    }
}

/// The first part of a `for`.
pub fn first_part(
    setting: &Setting,
    scope: &mut Scope,
    start: usize,
    variables: &mut Vec<Variable>,
    x: &First,
) -> Result<Verdict<Box<TypedFirst>>, AllocError>
    ensures value { IfOk result (λ v. made boxed_first v
        ≡ (within setting.now first_typing scope.old start variables.old.items (read_first x.now)).verdict) }
    ensures names { IfOk result (λ v. scope.new ≡ first_names setting.now.gang scope.old variables.old.items (Some (read_first x.now))) }
    ensures variables { IfOk result (λ v. variables.new.items
        ≡ first_variables setting.now.gang variables.old.items (Some (read_first x.now))) }
{
    match x {
        First::Declare(d) => {
            let items = declaration(setting, scope, start, variables, d)?;
            declared_first(setting.alloc, items, d.span)
        }
        First::Simple(x) => {
            let part = simple(setting, scope, x)?;
            simple_first(setting.alloc, part)
        }
    }
}
