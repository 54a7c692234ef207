//! Typed expressions of typed parts: conversions, and the type of each operator.
ghost use Rattle.std.specs.Prelude.{◌≡◌, IfOk};
ghost use Rattle.isp_typed.specs.Verdicts.{both, made};
ghost use Rattle.isp_exprs.specs.reader.Parts.{boxed_of};
ghost use Rattle.isp_exprs.specs.Values.{cast_to, choice, converted, count_value, in_brackets, joined, joining, joins, rate_cast, truth_value, unary_as, with_sign, computes, compares, decides};
ghost use Rattle.isp_base.specs.Ranks.{chosen};
ghost use Rattle.isp_typed.specs.Typed.{rate_or};

use crate::words::ValueWords;
use isp_base::{BinOp, Compare, Elem, Gang, Rate, Span, Ty, UnaryOp, Value, common, operand};
use isp_tree::{Operator, Prefix};
use isp_typed::{Logic, TypedExpr, Verdict, both};
use std::alloc::{AllocError, Global};

/// What an operator between two operands does: it computes in their common type, compares there, or
/// decides by two bools.
#[derive(Clone, Copy)]
pub enum Joining {
    Computes(BinOp),
    Compares(Compare),
    Decides(Logic),
}

/// Varying where one of the two is.
pub fn rate_or(a: Rate, b: Rate) -> Rate
    ensures { result ≡ rate_or a b }
{
    match a {
        Rate::Uniform => b,
        Rate::Varying => Rate::Varying,
    }
}

/// An expression in a box.
pub fn boxed(alloc: Global, x: TypedExpr) -> Result<Box<TypedExpr>, AllocError>
    ensures { IfOk result (λ b. b.value ≡ x) }
{
    Ok(Box::new(alloc, x)?)
}

/// A value as one of an element type: a conversion where it has another.
pub fn converted(alloc: Global, elem: Elem, x: Box<TypedExpr>) -> Result<Box<TypedExpr>, AllocError>
    ensures { IfOk result (λ t. boxed_of t ≡ converted elem (boxed_of x)) }
{
    if x.ty().elem == elem {
        return Ok(x);
    }
    boxed(alloc, TypedExpr::Convert { elem, operand: x })
}

/// The type of `?:` and of `select`: bool where both are, else the common type.
pub fn chosen(a: Elem, b: Elem) -> Elem
    ensures { result ≡ chosen a b }
{
    match (a, b) {
        (Elem::Bool, Elem::Bool) => Elem::Bool,
        _ => common(a, b),
    }
}

/// The value of `true` or `false`.
pub fn truth_value(truth: bool) -> Value
    ensures { result ≡ truth_value truth }
{
    Value {
        elem: Elem::Bool,
        bits: u64::from(truth),
    }
}

/// The value of `programCount`.
pub fn count_value(gang: Gang) -> Value
    ensures { result ≡ count_value gang }
{
    Value {
        elem: Elem::I32,
        bits: gang.width() as u64,
    }
}

/// A value in brackets.
pub fn in_brackets(
    alloc: Global,
    inner: Verdict<Box<TypedExpr>>,
    span: Span,
) -> Result<Verdict<Box<TypedExpr>>, AllocError>
    ensures { IfOk result (λ v. made boxed_of v ≡ made (in_brackets span) (made boxed_of inner)) }
{
    match inner {
        Ok(inner) => {
            let ty = inner.ty();
            let cast = TypedExpr::Cast {
                operand: inner,
                ty,
                span,
            };
            Ok(Ok(boxed(alloc, cast)?))
        }
        Err(fault) => Ok(Err(fault)),
    }
}

fn rate_cast(said: Option<Rate>, rate: Rate) -> Rate
    ensures { result ≡ rate_cast said rate }
{
    match said {
        None => rate,
        Some(said) => said,
    }
}

fn cast(
    alloc: Global,
    words: ValueWords,
    x: Box<TypedExpr>,
    span: Span,
) -> Result<Box<TypedExpr>, AllocError>
    ensures { IfOk result (λ t. boxed_of t ≡ cast_to span (words, boxed_of x)) }
{
    let ty = Ty {
        rate: rate_cast(words.rate, x.ty().rate),
        elem: words.elem,
    };
    let operand = converted(alloc, words.elem, x)?;
    boxed(alloc, TypedExpr::Cast { operand, ty, span })
}

/// A cast to what words say.
pub fn cast_to(
    alloc: Global,
    words: Verdict<ValueWords>,
    x: Verdict<Box<TypedExpr>>,
    span: Span,
) -> Result<Verdict<Box<TypedExpr>>, AllocError>
    ensures { IfOk result (λ v. made boxed_of v ≡ made (cast_to span) (both words (made boxed_of x))) }
{
    match both(words, x) {
        Ok((words, x)) => Ok(Ok(cast(alloc, words, x, span)?)),
        Err(fault) => Ok(Err(fault)),
    }
}

/// An operator on a value that is converted to an element type.
fn unary_as(
    alloc: Global,
    operator: UnaryOp,
    elem: Elem,
    x: Box<TypedExpr>,
    span: Span,
) -> Result<Box<TypedExpr>, AllocError>
    ensures { IfOk result (λ t. boxed_of t ≡ unary_as operator elem span (boxed_of x)) }
{
    let ty = Ty {
        rate: x.ty().rate,
        elem,
    };
    let operand = converted(alloc, elem, x)?;
    let unary = TypedExpr::Unary {
        operator,
        operand,
        ty,
        span,
    };
    boxed(alloc, unary)
}

/// An operator and its operand.
pub fn with_sign(
    alloc: Global,
    prefix: Prefix,
    x: Verdict<Box<TypedExpr>>,
    span: Span,
) -> Result<Verdict<Box<TypedExpr>>, AllocError>
    ensures { IfOk result (λ v. made boxed_of v ≡ made (with_sign prefix span) (made boxed_of x)) }
{
    match x {
        Ok(x) => {
            let kept = operand(x.ty().elem);
            let (operator, elem) = match prefix {
                Prefix::Negative => (UnaryOp::Negate, kept),
                Prefix::Inverse => (UnaryOp::Invert, kept),
                Prefix::Not => (UnaryOp::Not, Elem::Bool),
            };
            Ok(Ok(unary_as(alloc, operator, elem, x, span)?))
        }
        Err(fault) => Ok(Err(fault)),
    }
}

/// What an operator between two operands does.
fn make_joining(operator: Operator) -> Joining
    ensures { result ≡ joining operator }
{
    match operator {
        Operator::Multiply => Joining::Computes(BinOp::Mul),
        Operator::Divide => Joining::Computes(BinOp::Div),
        Operator::Remainder => Joining::Computes(BinOp::Rem),
        Operator::Add => Joining::Computes(BinOp::Add),
        Operator::Subtract => Joining::Computes(BinOp::Sub),
        Operator::ShiftLeft => Joining::Computes(BinOp::Shl),
        Operator::ShiftRight => Joining::Computes(BinOp::Shr),
        Operator::Less => Joining::Compares(Compare::Less),
        Operator::LessEqual => Joining::Compares(Compare::LessOrEqual),
        Operator::Greater => Joining::Compares(Compare::Greater),
        Operator::GreaterEqual => Joining::Compares(Compare::GreaterOrEqual),
        Operator::Equal => Joining::Compares(Compare::Equal),
        Operator::NotEqual => Joining::Compares(Compare::NotEqual),
        Operator::And => Joining::Computes(BinOp::And),
        Operator::Xor => Joining::Computes(BinOp::Xor),
        Operator::Or => Joining::Computes(BinOp::Or),
        Operator::AndAlso => Joining::Decides(Logic::And),
        Operator::OrElse => Joining::Decides(Logic::Or),
    }
}

/// Two values of the common type, an operator between them.
fn computes(
    alloc: Global,
    operator: BinOp,
    x: Box<TypedExpr>,
    y: Box<TypedExpr>,
    span: Span,
) -> Result<Box<TypedExpr>, AllocError>
    ensures { IfOk result (λ t. boxed_of t ≡ computes span (boxed_of x) (boxed_of y) operator) }
{
    let ty = Ty {
        rate: rate_or(x.ty().rate, y.ty().rate),
        elem: common(x.ty().elem, y.ty().elem),
    };
    let left = converted(alloc, ty.elem, x)?;
    let right = converted(alloc, ty.elem, y)?;
    let binary = TypedExpr::Binary {
        operator,
        left,
        right,
        ty,
        span,
    };
    boxed(alloc, binary)
}

/// Two values of the common type, a comparison between them.
fn compares(
    alloc: Global,
    comparison: Compare,
    x: Box<TypedExpr>,
    y: Box<TypedExpr>,
    span: Span,
) -> Result<Box<TypedExpr>, AllocError>
    ensures { IfOk result (λ t. boxed_of t ≡ compares span (boxed_of x) (boxed_of y) comparison) }
{
    let rate = rate_or(x.ty().rate, y.ty().rate);
    let elem = common(x.ty().elem, y.ty().elem);
    let left = converted(alloc, elem, x)?;
    let right = converted(alloc, elem, y)?;
    let compare = TypedExpr::Compare {
        comparison,
        left,
        right,
        rate,
        span,
    };
    boxed(alloc, compare)
}

/// Two bools, `&&` or `||` between them.
fn decides(
    alloc: Global,
    logic: Logic,
    x: Box<TypedExpr>,
    y: Box<TypedExpr>,
    span: Span,
) -> Result<Box<TypedExpr>, AllocError>
    ensures { IfOk result (λ t. boxed_of t ≡ decides span (boxed_of x) (boxed_of y) logic) }
{
    let rate = rate_or(x.ty().rate, y.ty().rate);
    let left = converted(alloc, Elem::Bool, x)?;
    let right = converted(alloc, Elem::Bool, y)?;
    let decision = TypedExpr::Logic {
        logic,
        left,
        right,
        rate,
        span,
    };
    boxed(alloc, decision)
}

fn joins(
    alloc: Global,
    joining: Joining,
    x: Box<TypedExpr>,
    y: Box<TypedExpr>,
    span: Span,
) -> Result<Box<TypedExpr>, AllocError>
    ensures { IfOk result (λ t. boxed_of t ≡ joins span (boxed_of x) (boxed_of y) joining) }
{
    match joining {
        Joining::Computes(operator) => computes(alloc, operator, x, y, span),
        Joining::Compares(comparison) => compares(alloc, comparison, x, y, span),
        Joining::Decides(logic) => decides(alloc, logic, x, y, span),
    }
}

/// An operator on two operands.
pub fn joined(
    alloc: Global,
    operator: Operator,
    x: Verdict<Box<TypedExpr>>,
    y: Verdict<Box<TypedExpr>>,
    span: Span,
) -> Result<Verdict<Box<TypedExpr>>, AllocError>
    ensures { IfOk result (λ v. made boxed_of v ≡ made (joined operator span) (both (made boxed_of x) (made boxed_of y))) }
{
    match both(x, y) {
        Ok((x, y)) => Ok(Ok(joins(alloc, make_joining(operator), x, y, span)?)),
        Err(fault) => Ok(Err(fault)),
    }
}

/// A bool, and two values of one type.
fn choose(
    alloc: Global,
    test: Box<TypedExpr>,
    x: Box<TypedExpr>,
    y: Box<TypedExpr>,
    span: Span,
) -> Result<Box<TypedExpr>, AllocError>
    ensures { IfOk result (λ t. boxed_of t ≡ choice span (boxed_of test, (boxed_of x, boxed_of y))) }
{
    let ty = Ty {
        rate: rate_or(test.ty().rate, rate_or(x.ty().rate, y.ty().rate)),
        elem: chosen(x.ty().elem, y.ty().elem),
    };
    let test = converted(alloc, Elem::Bool, test)?;
    let then = converted(alloc, ty.elem, x)?;
    let otherwise = converted(alloc, ty.elem, y)?;
    let choice = TypedExpr::Choose {
        test,
        then,
        otherwise,
        ty,
        span,
    };
    boxed(alloc, choice)
}

/// `test ? x : y`.
pub fn choice(
    alloc: Global,
    test: Verdict<Box<TypedExpr>>,
    x: Verdict<Box<TypedExpr>>,
    y: Verdict<Box<TypedExpr>>,
    span: Span,
) -> Result<Verdict<Box<TypedExpr>>, AllocError>
    ensures { IfOk result (λ v. made boxed_of v ≡ made (choice span) (both (made boxed_of test) (both (made boxed_of x) (made boxed_of y)))) }
{
    match both(test, both(x, y)) {
        Ok((test, (x, y))) => Ok(Ok(choose(alloc, test, x, y, span)?)),
        Err(fault) => Ok(Err(fault)),
    }
}
