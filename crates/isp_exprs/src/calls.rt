//! Arguments that suit what is asked of them, and calls of what is passed.
ghost use Rattle.std.specs.Prelude.{◌≡◌, ◌++◌, IfOk, OnOk, option_map, slice_get};
ghost use Rattle.isp_typed.specs.Verdicts.{both, found, made};
ghost use Rattle.isp_typed.specs.Typed.{t_arguments};
ghost use Rattle.isp_typed.specs.Views.{base_of, arguments_of};
ghost use Rattle.isp_exprs.specs.Passing.{handed_call, handed_name, value_called};
ghost use Rattle.isp_exprs.specs.PackedCalls.{as_base, base_fits, destination, loaded, packed_load, packed_store};
ghost use Rattle.isp_exprs.specs.LibraryCalls.{values_among};
ghost use Rattle.isp_exprs.specs.Calls.{arguments_among, answered, array_fits, call_of, function_call, suits};
ghost use Rattle.isp_exprs.specs.reader.Parts.{argument_in, base_passed, boxed_of, boxes_of, called_of, destination_passed, handed_of, list_passed, passed_of, value_in, value_passed};

use crate::callee::{Callee, Want};
use crate::library::library_call;
use crate::places::{array_of, const_assigned, mismatch};
use crate::scope::Known;
use crate::values::{boxed, converted};
use isp_base::{Elem, Rate, Span, Ty};
use isp_lex::{Fault, Rule};
use isp_typed::{
    ArrayVariable, Holds, TypedArgument, TypedBase, TypedCall, TypedExpr, TypedPlace, Verdict, both,
};
use std::alloc::{AllocError, Global};

/// What an argument is by itself. A span is that of the name.
#[derive(Drop)]
pub enum Handed {
    Value(Box<TypedExpr>),
    /// A call of a function without a result.
    Run(TypedCall),
    /// An array's name.
    Array(ArrayVariable, Span),
    /// `&x` or `&a`.
    Name(Known, Span),
    /// `&a[e]`.
    Element(Known, Span, Box<TypedExpr>),
}

/// What an argument is where it fits what is asked.
#[derive(Drop)]
pub enum Passed {
    Value(Box<TypedExpr>),
    Array(ArrayVariable, Span),
    Base(TypedBase),
    /// The variable that a packed call loads, its type, and where the argument stands.
    Destination(Known, Ty, Span),
    /// Nothing is asked.
    Unasked,
}

/// What a call is: a value, or a call of a function without a result.
#[derive(Drop)]
pub enum Called {
    Value(Box<TypedExpr>),
    Run(TypedCall),
}

/// A name as an argument: the value of a variable, or an array.
fn name_handed(alloc: Global, known: Known, span: Span) -> Result<Handed, AllocError>
    ensures { IfOk result (λ h. handed_of h ≡ handed_name span known) }
{
    match known.variable.holds {
        Holds::Value(ty) => {
            let value = TypedExpr::Place(TypedPlace::Variable {
                number: known.number,
                ty,
                span,
            });
            Ok(Handed::Value(boxed(alloc, value)?))
        }
        Holds::Given(elem) => {
            let ty = Ty {
                rate: Rate::Uniform,
                elem,
            };
            let array = ArrayVariable {
                number: known.number,
                ty,
                constant: known.variable.constant,
            };
            Ok(Handed::Array(array, span))
        }
        Holds::Local(ty, _) => {
            let array = ArrayVariable {
                number: known.number,
                ty,
                constant: known.variable.constant,
            };
            Ok(Handed::Array(array, span))
        }
    }
}

/// A name as an argument.
pub fn handed_name(
    alloc: Global,
    known: Verdict<Known>,
    span: Span,
) -> Result<Verdict<Handed>, AllocError>
    ensures { IfOk result (λ v. made handed_of v ≡ made (handed_name span) known) }
{
    match known {
        Ok(known) => Ok(Ok(name_handed(alloc, known, span)?)),
        Err(fault) => Ok(Err(fault)),
    }
}

/// An array for a parameter of an element type; a constant one for a constant parameter alone.
fn array_fits(elem: Elem, constant: bool, span: Span, array: ArrayVariable) -> Verdict<Passed>
    ensures { made passed_of result ≡ array_fits elem constant span array }
{
    if array.ty.elem != elem {
        Err(mismatch(span))
    } else if array.constant && !constant {
        Err(const_assigned(span))
    } else {
        Ok(Passed::Array(array, span))
    }
}

/// The base of a packed call, which is of int32 or uint32; nothing is stored in a constant array.
fn base_fits(stored: bool, span: Span, array: ArrayVariable, base: TypedBase) -> Verdict<Passed>
    ensures { made passed_of result ≡ base_fits stored span array (base_of base) }
{
    if array.ty.elem != Elem::I32 && array.ty.elem != Elem::U32 {
        Err(mismatch(span))
    } else if array.constant && stored {
        Err(const_assigned(span))
    } else {
        Ok(Passed::Base(base))
    }
}

/// An argument as the base of a packed call.
fn as_base(stored: bool, span: Span, handed: Handed) -> Verdict<Passed>
    ensures { made passed_of result ≡ as_base stored span (handed_of handed) }
{
    match handed {
        Handed::Array(array, name) => base_fits(
            stored,
            span,
            array,
            TypedBase::Whole { array, span: name },
        ),
        Handed::Name(known, name) => match array_of(known) {
            Some(array) => base_fits(stored, span, array, TypedBase::Whole { array, span: name }),
            None => Err(mismatch(span)),
        },
        Handed::Element(known, name, index) => match array_of(known) {
            Some(array) => {
                let base = TypedBase::From {
                    array,
                    index,
                    span: name,
                };
                base_fits(stored, span, array, base)
            }
            None => Err(mismatch(span)),
        },
        Handed::Value(_) | Handed::Run(_) => Err(mismatch(span)),
    }
}

/// A variable that a packed call loads: a varying one.
fn destination(span: Span, known: Known) -> Verdict<Passed>
    ensures { made passed_of result ≡ destination span known }
{
    match known.variable.holds {
        Holds::Value(ty) => match ty.rate {
            Rate::Uniform => Err(mismatch(span)),
            Rate::Varying => Ok(Passed::Destination(known, ty, span)),
        },
        Holds::Given(_) | Holds::Local(_, _) => Err(mismatch(span)),
    }
}

/// An argument of which nothing is asked, but that it has no `&`.
fn unreferenced(span: Span, handed: Handed) -> Verdict<Passed>
    ensures { made passed_of result ≡ suits Want.NoReference span (handed_of handed) }
{
    match handed {
        Handed::Name(_, _) | Handed::Element(_, _, _) => Err(mismatch(span)),
        Handed::Value(_) | Handed::Run(_) | Handed::Array(_, _) => Ok(Passed::Unasked),
    }
}

/// An argument where something is asked. 22 Mismatch and 24 ConstAssigned stand at the argument.
fn suit(
    alloc: Global,
    want: Want,
    span: Span,
    handed: Handed,
) -> Result<Verdict<Passed>, AllocError>
    ensures { IfOk result (λ v. made passed_of v ≡ suits want span (handed_of handed)) }
{
    match want {
        Want::AnyValue => match handed {
            Handed::Value(x) => Ok(Ok(Passed::Value(x))),
            _ => Ok(Err(mismatch(span))),
        },
        Want::ValueOf(elem) => match handed {
            Handed::Value(x) => Ok(Ok(Passed::Value(converted(alloc, elem, x)?))),
            _ => Ok(Err(mismatch(span))),
        },
        Want::ArrayOf { elem, constant } => match handed {
            Handed::Array(array, _) => Ok(array_fits(elem, constant, span, array)),
            _ => Ok(Err(mismatch(span))),
        },
        Want::Base { stored } => Ok(as_base(stored, span, handed)),
        Want::Destination => match handed {
            Handed::Name(known, _) => Ok(destination(span, known)),
            _ => Ok(Err(mismatch(span))),
        },
        Want::NoReference => Ok(unreferenced(span, handed)),
        Want::Anything => Ok(Ok(Passed::Unasked)),
    }
}

/// An argument where something is asked, if it is one.
pub fn suits(
    alloc: Global,
    want: Want,
    span: Span,
    handed: Verdict<Handed>,
) -> Result<Verdict<Passed>, AllocError>
    ensures { IfOk result (λ v. made passed_of v ≡ found (suits want span) (made handed_of handed)) }
{
    match handed {
        Ok(handed) => suit(alloc, want, span, handed),
        Err(fault) => Ok(Err(fault)),
    }
}

/// The value that a call gives. 22 Mismatch at the call where it gives none.
pub fn value_called(called: Verdict<Called>, span: Span) -> Verdict<Box<TypedExpr>>
    ensures { made boxed_of result ≡ found (value_called span) (made called_of called) }
{
    match called {
        Ok(Called::Value(x)) => Ok(x),
        Ok(Called::Run(_)) => Err(mismatch(span)),
        Err(fault) => Err(fault),
    }
}

/// A call as an argument.
pub fn handed_call(called: Verdict<Called>) -> Verdict<Handed>
    ensures { made handed_of result ≡ made handed_call (made called_of called) }
{
    match called {
        Ok(Called::Value(x)) => Ok(Handed::Value(x)),
        Ok(Called::Run(call)) => Ok(Handed::Run(call)),
        Err(fault) => Err(fault),
    }
}

/// One value more, if a value is passed.
fn push_value(values: &mut Vec<Box<TypedExpr>>, passed: Passed) -> Result<(), AllocError>
    ensures { OnOk result (boxes_of values.new.items ≡ boxes_of values.old.items ++ value_in (passed_of passed)) }
{
    match passed {
        Passed::Value(x) => {
            values.push(x)?;
            Ok(())
        }
        Passed::Array(_, _) | Passed::Base(_) | Passed::Destination(_, _, _) | Passed::Unasked =>
            Ok(()),
    }
}

/// The values among what is passed.
fn values_among(alloc: Global, passed: Vec<Passed>) -> Result<Vec<Box<TypedExpr>>, AllocError>
    ensures { IfOk result (λ l. boxes_of l.items ≡ values_among (list_passed passed.items)) }
{
    let mut values = Vec::new(alloc);
    for part in passed {
        push_value(&mut values, part)?;
    }
    Ok(values)
}

/// One argument more, if a value or an array is passed.
fn push_argument(arguments: &mut Vec<TypedArgument>, passed: Passed) -> Result<(), AllocError>
    ensures { OnOk result (arguments_of arguments.new.items ≡ arguments_of arguments.old.items ++ argument_in (passed_of passed)) }
{
    match passed {
        Passed::Value(x) => {
            arguments.push(TypedArgument::Value(Box::into_inner(x)))?;
            Ok(())
        }
        Passed::Array(array, span) => {
            arguments.push(TypedArgument::Array { array, span })?;
            Ok(())
        }
        Passed::Base(_) | Passed::Destination(_, _, _) | Passed::Unasked => Ok(()),
    }
}

/// The arguments of a function among what is passed.
#[tactic(auto, using(crate::proofs::PassedParts::arguments_are))]
fn arguments_among(alloc: Global, passed: Vec<Passed>) -> Result<Vec<TypedArgument>, AllocError>
    ensures { IfOk result (λ l. t_arguments (arguments_of l.items) ≡ arguments_among (list_passed passed.items)) }
{
    let mut arguments = Vec::new(alloc);
    for part in passed {
        push_argument(&mut arguments, part)?;
    }
    Ok(arguments)
}

/// A call of a function of the program.
fn function_call(
    alloc: Global,
    function: usize,
    answer: Option<Ty>,
    passed: Vec<Passed>,
    span: Span,
) -> Result<Called, AllocError>
    ensures { IfOk result (λ c. called_of c ≡ function_call function span (list_passed passed.items) answer) }
{
    let arguments = arguments_among(alloc, passed)?;
    let call = TypedCall {
        function,
        arguments,
        span,
    };
    match answer {
        None => Ok(Called::Run(call)),
        Some(ty) => Ok(Called::Value(boxed(alloc, TypedExpr::Call { call, ty })?)),
    }
}

/// The first two of what is passed.
fn first_two(passed: Vec<Passed>) -> (Option<Passed>, Option<Passed>)
    ensures { result ≡ (slice_get passed.items 0, slice_get passed.items 1) }
{
    let mut parts = passed.into_iter();
    let first = parts.next();
    let second = parts.next();
    (first, second)
}

/// The base that is passed, if it is one.
fn base_passed(passed: Option<Passed>) -> Option<TypedBase>
    ensures { option_map base_of result ≡ base_passed (option_map passed_of passed) }
{
    match passed {
        Some(Passed::Base(base)) => Some(base),
        _ => None,
    }
}

/// The value that is passed, if it is one.
fn value_passed(passed: Option<Passed>) -> Option<Box<TypedExpr>>
    ensures { option_map boxed_of result ≡ value_passed (option_map passed_of passed) }
{
    match passed {
        Some(Passed::Value(x)) => Some(x),
        _ => None,
    }
}

/// The variable that is passed to be loaded, if it is one.
fn destination_passed(passed: Option<Passed>) -> Option<(Known, Ty, Span)>
    ensures { result ≡ destination_passed (option_map passed_of passed) }
{
    match passed {
        Some(Passed::Destination(known, ty, span)) => Some((known, ty, span)),
        _ => None,
    }
}

/// `packed_store_active` of what is passed.
fn packed_store(
    alloc: Global,
    passed: Vec<Passed>,
    span: Span,
) -> Result<Verdict<Called>, AllocError>
    ensures { IfOk result (λ v. made called_of v ≡ packed_store span (list_passed passed.items)) }
{
    let (first, second) = first_two(passed);
    let Some(base) = base_passed(first) else {
        return Ok(Err(mismatch(span)));
    };
    let Some(x) = value_passed(second) else {
        return Ok(Err(mismatch(span)));
    };
    let value = converted(alloc, base.array().ty.elem, x)?;
    let store = TypedExpr::PackedStore { base, value, span };
    Ok(Ok(Called::Value(boxed(alloc, store)?)))
}

/// What a packed call loads: a variable of the array's element type, not constant.
fn loaded(
    alloc: Global,
    base: TypedBase,
    known: Known,
    ty: Ty,
    place: Span,
    span: Span,
) -> Result<Verdict<Called>, AllocError>
    ensures { IfOk result (λ v. made called_of v ≡ loaded span (base_of base) known ty place) }
{
    if ty.elem != base.array().ty.elem {
        return Ok(Err(mismatch(place)));
    }
    if known.variable.constant {
        return Ok(Err(const_assigned(place)));
    }
    let load = TypedExpr::PackedLoad {
        base,
        variable: known.number,
        span,
    };
    Ok(Ok(Called::Value(boxed(alloc, load)?)))
}

/// `packed_load_active` of what is passed.
fn packed_load(
    alloc: Global,
    passed: Vec<Passed>,
    span: Span,
) -> Result<Verdict<Called>, AllocError>
    ensures { IfOk result (λ v. made called_of v ≡ packed_load span (list_passed passed.items)) }
{
    let (first, second) = first_two(passed);
    let Some(base) = base_passed(first) else {
        return Ok(Err(mismatch(span)));
    };
    let Some((known, ty, place)) = destination_passed(second) else {
        return Ok(Err(mismatch(span)));
    };
    loaded(alloc, base, known, ty, place, span)
}

/// A call of what is passed. 23 Arguments at the call where their number is wrong.
fn make_call(
    alloc: Global,
    callee: Callee,
    passed: Vec<Passed>,
    span: Span,
) -> Result<Verdict<Called>, AllocError>
    ensures { IfOk result (λ v. made called_of v ≡ call_of span (callee, list_passed passed.items)) }
{
    match callee {
        Callee::Unknown => Ok(Err(mismatch(span))),
        Callee::Miscounted { .. } => Ok(Err(Fault {
            rule: Rule::Arguments,
            span,
        })),
        Callee::Function { number, answer } => match answer {
            Ok(answer) => Ok(Ok(function_call(alloc, number, answer, passed, span)?)),
            Err(fault) => Ok(Err(fault)),
        },
        Callee::Library(function) => {
            let values = values_among(alloc, passed)?;
            Ok(Ok(Called::Value(library_call(alloc, function, values, span)?)))
        }
        Callee::PackedStore => packed_store(alloc, passed, span),
        Callee::PackedLoad => packed_load(alloc, passed, span),
    }
}

/// A call of what is passed, if callee and arguments are found.
pub fn call_of(
    alloc: Global,
    callee: Verdict<Callee>,
    passed: Verdict<Vec<Passed>>,
    span: Span,
) -> Result<Verdict<Called>, AllocError>
    ensures { IfOk result (λ v. made called_of v ≡ found (call_of span) (both callee (made (λ l. list_passed l.items) passed))) }
{
    match both(callee, passed) {
        Ok((callee, passed)) => make_call(alloc, callee, passed, span),
        Err(fault) => Ok(Err(fault)),
    }
}
