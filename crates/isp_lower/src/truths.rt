//! Tests of trees that choose their code.
ghost use Rattle.std.specs.Prelude.{◌≡◌, ◌&&◌};
ghost use Rattle.isp_meaning.specs.Calls.{same_rate};
ghost use Rattle.isp_lower_code.specs.Asks.{is_lane};
ghost use Rattle.isp_lower_code.specs.Elements.{counts, is_counter, is_run};
ghost use Rattle.isp_lower_code.specs.Found.{is_kept, is_whole};
ghost use Rattle.isp_lower_code.specs.Known.{constant_of, known, known_as};
ghost use Rattle.isp_lower_code.specs.Pieces.{decided};
ghost use Rattle.isp_lower_code.specs.Stays.{is_short, stays, stays_at};
ghost use Rattle.isp_lower.specs.Emitted.{layout};
ghost use Rattle.isp_typed.specs.Typed.{type_of};
ghost use Rattle.isp_typed.specs.Views.{expr_of};

use crate::types::Scope;
use isp_base::{Elem, Rate, Value, convert as value_as};
use isp_code::JumpTest;
use isp_typed::{Logic, TypedExpr, TypedPlace};

/// When a uniform left side needs no right one.
pub fn decided(logic: Logic) -> JumpTest
    ensures { result ≡ decided logic }
{
    match logic {
        Logic::And => JumpTest::False,
        Logic::Or => JumpTest::True,
    }
}

/// Whether an expression is the number of its lane, with nothing around it.
pub fn is_lane(x: &TypedExpr) -> bool
    ensures { result ≡ is_lane (expr_of x.now) }
{
    matches!(x, TypedExpr::ProgramIndex { .. })
}

/// Whether a variable counts the lanes of a run in which code is.
fn is_counter(on: &Scope, rate: Rate, number: usize) -> bool
    ensures { result ≡ is_counter (layout on.now) rate number }
{
    match (rate, on.run) {
        (Rate::Varying, Some(index)) => on.in_run && number == index,
        _ => false,
    }
}

/// Whether an expression counts the lanes, with nothing around it.
fn counts(on: &Scope, x: &TypedExpr) -> bool
    ensures { result ≡ counts (layout on.now) (expr_of x.now) }
{
    match x {
        TypedExpr::ProgramIndex { .. } => true,
        TypedExpr::Place(TypedPlace::Variable { number, ty, .. }) => {
            is_counter(on, ty.rate, *number)
        }
        _ => false,
    }
}

/// Whether the lanes' elements of an array of a rate stand in a row, each one place after that of the lane before.
pub fn is_run(on: &Scope, array: Rate, index: &TypedExpr) -> bool
    ensures { result ≡ is_run (layout on.now) array (expr_of index.now) }
{
    match array {
        Rate::Uniform => counts(on, index),
        Rate::Varying => false,
    }
}

/// Whether two rates are one.
fn same_rate(a: Rate, b: Rate) -> bool
    ensures { result ≡ same_rate a b }
{
    match a {
        Rate::Uniform => matches!(b, Rate::Uniform),
        Rate::Varying => matches!(b, Rate::Varying),
    }
}

/// Whether a value as one of another type is a constant that is kept.
pub(crate) fn is_kept(on: &Scope, elem: Elem, x: &TypedExpr) -> bool
    ensures { result ≡ is_kept (layout on.now) (constant_of (expr_of x.now)) (type_of (expr_of x.now)).rate elem }
{
    match constant_of(x) {
        Some(value) => {
            let bits = value_as(value.elem, elem, value.bits);
            on.keeps(x.ty().rate, elem, bits)
        }
        None => false,
    }
}

/// Whether an expression is a variable that stays in place, in brackets or not, or a constant that is kept.
fn stays(on: &Scope, x: &TypedExpr) -> bool
    ensures { result ≡ stays (layout on.now) (expr_of x.now) }
{
    match x {
        TypedExpr::Place(TypedPlace::Variable { number, ty, .. }) => !on.copies(ty.rate, *number),
        TypedExpr::Cast { operand, ty, .. } => same_rate(ty.rate, operand.ty().rate)
            && stays(on, operand),
        TypedExpr::Constant { value, .. } => on.keeps(Rate::Uniform, value.elem, value.bits),
        TypedExpr::Convert { elem, operand } => is_kept(on, *elem, operand),
        TypedExpr::Place(TypedPlace::Element { .. })
        | TypedExpr::ProgramIndex { .. }
        | TypedExpr::Unary { .. }
        | TypedExpr::Binary { .. }
        | TypedExpr::Compare { .. }
        | TypedExpr::Logic { .. }
        | TypedExpr::Choose { .. }
        | TypedExpr::Call { .. }
        | TypedExpr::Library { .. }
        | TypedExpr::PackedStore { .. }
        | TypedExpr::PackedLoad { .. } => false,
    }
}

/// The same where a rate is wanted.
fn stays_at(on: &Scope, rate: Rate, x: &TypedExpr) -> bool
    ensures { result ≡ stays_at (layout on.now) rate (expr_of x.now) }
{
    same_rate(rate, x.ty().rate) && stays(on, x)
}

/// Whether two expressions stay in place.
fn both_stay(on: &Scope, rate: Rate, then: &TypedExpr, otherwise: &TypedExpr) -> bool
    ensures { result ≡ (stays_at (layout on.now) rate (expr_of then.now) && stays_at (layout on.now) rate (expr_of otherwise.now)) }
{
    stays_at(on, rate, then) && stays_at(on, rate, otherwise)
}

/// Whether a choice is one instruction: between two that stay in place, by a test of their rate.
pub fn is_short(
    on: &Scope,
    rate: Rate,
    test: &TypedExpr,
    then: &TypedExpr,
    otherwise: &TypedExpr,
) -> bool
    ensures { result ≡ is_short (layout on.now) rate (expr_of test.now) (expr_of then.now) (expr_of otherwise.now) }
{
    same_rate(rate, test.ty().rate) && both_stay(on, rate, then, otherwise)
}

/// A constant, where the expression is nothing else.
pub(crate) fn constant_of(x: &TypedExpr) -> Option<Value>
    ensures { result ≡ constant_of (expr_of x.now) }
{
    match x {
        TypedExpr::Constant { value, .. } => Some(*value),
        TypedExpr::ProgramIndex { .. }
        | TypedExpr::Place(_)
        | TypedExpr::Convert { .. }
        | TypedExpr::Cast { .. }
        | TypedExpr::Unary { .. }
        | TypedExpr::Binary { .. }
        | TypedExpr::Compare { .. }
        | TypedExpr::Logic { .. }
        | TypedExpr::Choose { .. }
        | TypedExpr::Call { .. }
        | TypedExpr::Library { .. }
        | TypedExpr::PackedStore { .. }
        | TypedExpr::PackedLoad { .. } => None,
    }
}

/// A constant as one of another type.
fn known_as(elem: Elem, value: Option<Value>) -> Option<Value>
    ensures { result ≡ known_as elem value }
{
    match value {
        Some(value) => {
            let bits = value_as(value.elem, elem, value.bits);
            Some(Value { elem, bits })
        }
        None => None,
    }
}

/// The constant that an expression is, converted or not.
pub fn known(x: &TypedExpr) -> Option<Value>
    ensures { result ≡ known (expr_of x.now) }
{
    match x {
        TypedExpr::Constant { value, .. } => Some(*value),
        TypedExpr::Convert { elem, operand } => known_as(*elem, constant_of(operand)),
        TypedExpr::ProgramIndex { .. }
        | TypedExpr::Place(_)
        | TypedExpr::Cast { .. }
        | TypedExpr::Unary { .. }
        | TypedExpr::Binary { .. }
        | TypedExpr::Compare { .. }
        | TypedExpr::Logic { .. }
        | TypedExpr::Choose { .. }
        | TypedExpr::Call { .. }
        | TypedExpr::Library { .. }
        | TypedExpr::PackedStore { .. }
        | TypedExpr::PackedLoad { .. } => None,
    }
}

/// Whether values of the type are indices as they are.
pub(crate) fn is_whole(elem: Elem) -> bool
    ensures { result ≡ is_whole elem }
{
    matches!(elem, Elem::I64)
}
