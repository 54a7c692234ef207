//! What a name is where it stands: a value, an array, a place that is stored to.
ghost use Rattle.std.specs.Prelude.{◌≡◌};
ghost use Rattle.isp_typed.specs.Verdicts.{both, found, made};
ghost use Rattle.isp_typed.specs.Views.{place_of};
ghost use Rattle.isp_exprs.specs.reader.Parts.{boxed_of};
ghost use Rattle.isp_exprs.specs.Places.{array_of, as_array, element_at, element_target, mismatch, variable_at, variable_target};

use crate::scope::Known;
use crate::values::rate_or;
use isp_base::{Rate, Span, Ty};
use isp_lex::{Fault, Rule};
use isp_typed::{ArrayVariable, Holds, TypedExpr, TypedPlace, Verdict, both};

/// 22 Mismatch at a place.
pub fn mismatch(span: Span) -> Fault
    ensures { result ≡ record { rule = Rule.Mismatch; span = span } }
{
    Fault {
        rule: Rule::Mismatch,
        span,
    }
}

/// 24 ConstAssigned at a place.
pub fn const_assigned(span: Span) -> Fault
    ensures { result ≡ record { rule = Rule.ConstAssigned; span = span } }
{
    Fault {
        rule: Rule::ConstAssigned,
        span,
    }
}

fn as_array(known: Known, ty: Ty) -> ArrayVariable
    ensures { result ≡ as_array known ty }
{
    ArrayVariable {
        number: known.number,
        ty,
        constant: known.variable.constant,
    }
}

/// The array that a variable is.
pub fn array_of(known: Known) -> Option<ArrayVariable>
    ensures { result ≡ array_of known }
{
    match known.variable.holds {
        Holds::Value(_) => None,
        Holds::Given(elem) => {
            let ty = Ty {
                rate: Rate::Uniform,
                elem,
            };
            Some(as_array(known, ty))
        }
        Holds::Local(ty, _) => Some(as_array(known, ty)),
    }
}

/// The variable as a place: it holds a value.
fn variable_of(known: Known, span: Span) -> Verdict<TypedPlace>
    ensures { made place_of result ≡ variable_at span known }
{
    match known.variable.holds {
        Holds::Value(ty) => Ok(TypedPlace::Variable {
            number: known.number,
            ty,
            span,
        }),
        Holds::Given(_) | Holds::Local(_, _) => Err(mismatch(span)),
    }
}

/// The value that a name stands for.
pub fn variable_at(known: Verdict<Known>, span: Span) -> Verdict<TypedPlace>
    ensures { made place_of result ≡ found (variable_at span) known }
{
    match known {
        Ok(known) => variable_of(known, span),
        Err(fault) => Err(fault),
    }
}

/// The element of an array at an index.
fn element_of(known: Known, index: Box<TypedExpr>, span: Span) -> Verdict<TypedPlace>
    ensures { made place_of result ≡ element_at span (known, boxed_of index) }
{
    let Some(array) = array_of(known) else {
        return Err(mismatch(span));
    };
    let ty = Ty {
        rate: rate_or(array.ty.rate, index.ty().rate),
        elem: array.ty.elem,
    };
    Ok(TypedPlace::Element {
        array,
        index,
        ty,
        span,
    })
}

/// The element at an index of the array that a name stands for.
pub fn element_at(
    known: Verdict<Known>,
    index: Verdict<Box<TypedExpr>>,
    span: Span,
) -> Verdict<TypedPlace>
    ensures { made place_of result ≡ found (element_at span) (both known (made boxed_of index)) }
{
    match both(known, index) {
        Ok((known, index)) => element_of(known, index, span),
        Err(fault) => Err(fault),
    }
}

/// The variable that a name stands for, to be assigned.
pub fn variable_target(known: Verdict<Known>, span: Span) -> Verdict<TypedPlace>
    ensures { made place_of result ≡ found (variable_target span) known }
{
    match known {
        Ok(known) => match variable_of(known, span) {
            Ok(place) => if known.variable.constant {
                Err(const_assigned(span))
            } else {
                Ok(place)
            },
            Err(fault) => Err(fault),
        },
        Err(fault) => Err(fault),
    }
}

/// The element at an index of the array that a name stands for, to be assigned.
pub fn element_target(
    known: Verdict<Known>,
    index: Verdict<Box<TypedExpr>>,
    span: Span,
) -> Verdict<TypedPlace>
    ensures { made place_of result ≡ found (element_target span) (both known (made boxed_of index)) }
{
    match both(known, index) {
        Ok((known, index)) => match element_of(known, index, span) {
            Ok(place) => if known.variable.constant {
                Err(const_assigned(span))
            } else {
                Ok(place)
            },
            Err(fault) => Err(fault),
        },
        Err(fault) => Err(fault),
    }
}
