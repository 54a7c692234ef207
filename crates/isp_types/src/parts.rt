//! Parts of statements: tests, bounds, values that are printed or given back.
ghost use Rattle.std.specs.Prelude.{◌≡◌, IfOk, length, map, option_map};
ghost use Rattle.isp_tree.specs.Views.{expr_of as read_expr, exprs_of as read_exprs, first_of as read_first};
ghost use Rattle.isp_tree.specs.Views.{range_of as read_range, simple_of as read_simple};
ghost use Rattle.isp_typed.specs.Verdicts.{beside, both, made};
ghost use Rattle.isp_exprs.specs.reader.Parts.{boxed_of};
ghost use Rattle.isp_types.specs.reader.Boxes.{boxed_behind_first, boxed_first, boxed_pair, boxed_range, boxed_simple};
ghost use Rattle.isp_types.specs.reader.Boxes.{boxed_step_and_body, boxed_stmt, listed_exprs, listed_ranges};
ghost use Rattle.isp_types.specs.reader.Settings.{within};
ghost use Rattle.isp_types.specs.Numbering.{first_names, first_variables, index_of, or_active};
ghost use Rattle.isp_types.specs.Numbering.{range_names, range_variables, unique_names, unique_variables};
ghost use Rattle.isp_types.specs.Statements.{as_answer, places, range_made, first_typing, ranges_typing, returned_typing, test_typing, values_typing};
ghost use Rattle.isp_typed.specs.Indices.{active_index, foreach_index as index, unique_index};
ghost use Rattle.isp_exprs.specs.Values.{converted};
ghost use Rattle.isp_exprs.specs.Typing.{perhaps};
ghost use Rattle.isp_exprs.specs.Rules.{expr_typing};
ghost use Rattle.isp_types.specs.Simple.{simple_typing};
ghost use Rattle.isp_exprs.specs.reader.Lists.{and_one};
ghost use Rattle.isp_types.specs.reader.Lists.{agrees_with, after_first_verdict, bounds_verdict, step_and_body_verdict, known_next, print_fault};

use crate::declaration::twice;
use crate::gathered;
use crate::simple::{first_part, simple};
use isp_base::{Elem, Rate, Span, Ty};
use isp_exprs::{Known, Scope, Setting, converted, expr, mismatch};
use isp_lex::{Fault, Rule, Text};
use isp_tree::{Expr, First, Range, Simple, Word};
use isp_typed::{
    Holds, TypedExpr, TypedFirst, TypedRange, TypedSimple, TypedStmt, Variable, Verdict, beside,
    both, unless,
};
use std::alloc::{AllocError, Global};

fn converted_to(
    alloc: Global,
    elem: Elem,
    value: Verdict<Box<TypedExpr>>,
) -> Result<Verdict<Box<TypedExpr>>, AllocError>
    ensures { IfOk result (λ v. made boxed_of v ≡ made (converted elem) (made boxed_of value)) }
{
    match value {
        Ok(value) => Ok(Ok(converted(alloc, elem, value)?)),
        Err(fault) => Ok(Err(fault)),
    }
}

/// A test, which is converted to bool.
pub fn test(
    setting: &Setting,
    scope: &Scope,
    x: &Expr,
) -> Result<Verdict<Box<TypedExpr>>, AllocError>
    ensures { IfOk result (λ v. made boxed_of v ≡ (within setting.now test_typing scope.now (read_expr x.now)).verdict) }
{
    let value = expr(setting, scope, x)?;
    converted_to(setting.alloc, Elem::Bool, value)
}

fn some<T: Drop>(found: Verdict<T>) -> Verdict<Option<T>>
    ensures { result ≡ made (λ t. Some t) found }
{
    Ok(Some(found?))
}

/// A test that may be left out.
fn test_if(
    setting: &Setting,
    scope: &Scope,
    x: &Option<Expr>,
) -> Result<Verdict<Option<Box<TypedExpr>>>, AllocError>
    ensures { IfOk result (λ v. made (option_map boxed_of) v
        ≡ (perhaps (within setting.now test_typing scope.now) (option_map read_expr x.now)).verdict) }
{
    match x {
        None => Ok(Ok(None)),
        Some(x) => {
            let found = test(setting, scope, x)?;
            Ok(some(found))
        }
    }
}

/// A step that may be left out.
fn simple_if(
    setting: &Setting,
    scope: &Scope,
    x: &Option<Simple>,
) -> Result<Verdict<Option<Box<TypedSimple>>>, AllocError>
    ensures { IfOk result (λ v. made (option_map boxed_simple) v
        ≡ (perhaps (within setting.now simple_typing scope.now) (option_map read_simple x.now)).verdict) }
{
    match x {
        None => Ok(Ok(None)),
        Some(x) => {
            let found = simple(setting, scope, x)?;
            Ok(some(found))
        }
    }
}

/// A first part that may be left out.
pub fn first_if(
    setting: &Setting,
    scope: &mut Scope,
    start: usize,
    variables: &mut Vec<Variable>,
    x: &Option<First>,
) -> Result<Verdict<Option<Box<TypedFirst>>>, AllocError>
    ensures value { IfOk result (λ v. made (option_map boxed_first) v
        ≡ (perhaps (within setting.now first_typing scope.old start variables.old.items) (option_map read_first x.now)).verdict) }
    ensures names { IfOk result (λ v. scope.new
        ≡ first_names setting.now.gang scope.old variables.old.items (option_map read_first x.now)) }
    ensures variables { IfOk result (λ v. variables.new.items
        ≡ first_variables setting.now.gang variables.old.items (option_map read_first x.now)) }
{
    match x {
        None => Ok(Ok(None)),
        Some(x) => {
            let found = first_part(setting, scope, start, variables, x)?;
            Ok(some(found))
        }
    }
}

/// The step of a `for` and its judged body.
fn step_and_body(
    setting: &Setting,
    scope: &Scope,
    step: &Option<Simple>,
    body: Verdict<Box<TypedStmt>>,
) -> Result<Verdict<(Option<Box<TypedSimple>>, Box<TypedStmt>)>, AllocError>
    ensures { IfOk result (λ v. made boxed_step_and_body v
        ≡ within setting.now step_and_body_verdict scope.now (option_map read_simple step.now) (made boxed_stmt body)) }
{
    let next = simple_if(setting, scope, step)?;
    Ok(both(next, body))
}

/// The test of a `for`, its step and its judged body.
pub fn behind_first(
    setting: &Setting,
    scope: &Scope,
    x: &Option<Expr>,
    step: &Option<Simple>,
    body: Verdict<Box<TypedStmt>>,
) -> Result<
    Verdict<
        (
            Option<Box<TypedExpr>>,
            (Option<Box<TypedSimple>>, Box<TypedStmt>),
        ),
    >,
    AllocError,
>
    ensures { IfOk result (λ v. made boxed_behind_first v
        ≡ within setting.now after_first_verdict scope.now
        (option_map read_expr x.now) (option_map read_simple step.now) (made boxed_stmt body)) }
{
    let rest = step_and_body(setting, scope, step, body)?;
    let found = test_if(setting, scope, x)?;
    Ok(both(found, rest))
}

/// The index of a `foreach`: a constant varying int32.
pub fn foreach_index() -> Variable
    ensures { result ≡ index }
{
    Variable {
        holds: Holds::Value(Ty {
            rate: Rate::Varying,
            elem: Elem::I32,
        }),
        constant: true,
    }
}

/// The index of a `foreach_unique`: a constant uniform of the type of its value.
fn unique_index(elem: Elem) -> Variable
    ensures { result ≡ unique_index elem }
{
    Variable {
        holds: Holds::Value(Ty {
            rate: Rate::Uniform,
            elem,
        }),
        constant: true,
    }
}

/// The index of a `foreach_active`: a constant uniform int64.
pub fn active_index() -> Variable
    ensures { result ≡ active_index }
{
    unique_index(Elem::I64)
}

/// The index of a `foreach_unique`, or the fault of its value.
fn index_of(value: &Verdict<Box<TypedExpr>>) -> Verdict<Variable>
    ensures { result ≡ index_of (made boxed_of value.now) }
{
    match value {
        Ok(value) => Ok(unique_index(value.ty().elem)),
        Err(fault) => Err(*fault),
    }
}

/// Where the value is faulty, an int64 stands in the index's place, in no accepted program.
fn or_active(index: Verdict<Variable>) -> Variable
    ensures { result ≡ or_active index }
{
    match index {
        Ok(index) => index,
        Err(_) => active_index(),
    }
}

/// What the name of an index stands for.
fn known(number: usize, index: Verdict<Variable>) -> Verdict<Known>
    ensures { result ≡ known_next number index }
{
    let variable = index?;
    Ok(Known { number, variable })
}

/// The value of a `foreach_unique`, which does not know the index. Then the index joins the names and variables.
pub fn unique_value(
    setting: &Setting,
    scope: &mut Scope,
    variables: &mut Vec<Variable>,
    word: &Word,
    value: &Expr,
) -> Result<Verdict<Box<TypedExpr>>, AllocError>
    ensures value { IfOk result (λ v. made boxed_of v ≡ (within setting.now expr_typing scope.old (read_expr value.now)).verdict) }
    ensures names { IfOk result (λ v. scope.new
        ≡ within setting.now unique_names scope.old variables.old.items word.now (read_expr value.now)) }
    ensures variables { IfOk result (λ v. variables.new.items
        ≡ within setting.now unique_variables scope.old variables.old.items (read_expr value.now)) }
{
    let found = expr(setting, scope, value)?;
    let index = index_of(&found);
    let number = variables.len();
    variables.push(or_active(index))?;
    scope.push(setting.alloc, &word.name, known(number, index))?;
    Ok(found)
}

fn make_range(
    alloc: Global,
    index: usize,
    start: Box<TypedExpr>,
    end: Box<TypedExpr>,
    span: Span,
) -> Result<Box<TypedRange>, AllocError>
    ensures { IfOk result (λ r. boxed_range r ≡ range_made index span (boxed_of start, boxed_of end)) }
{
    let start = converted(alloc, Elem::I32, start)?;
    let end = converted(alloc, Elem::I32, end)?;
    let range = TypedRange {
        index,
        start: Box::into_inner(start),
        end: Box::into_inner(end),
        span,
    };
    Ok(Box::new(alloc, range)?)
}

/// A range of its bounds.
fn range_made(
    alloc: Global,
    index: usize,
    bounds: Verdict<(Box<TypedExpr>, Box<TypedExpr>)>,
    span: Span,
) -> Result<Verdict<Box<TypedRange>>, AllocError>
    ensures { IfOk result (λ v. made boxed_range v ≡ made (range_made index span) (made boxed_pair bounds)) }
{
    match bounds {
        Ok((start, end)) => Ok(Ok(make_range(alloc, index, start, end, span)?)),
        Err(fault) => Ok(Err(fault)),
    }
}

/// The bounds of a range, before its index has a name.
fn bounds(
    setting: &Setting,
    scope: &Scope,
    r: &Range,
) -> Result<Verdict<(Box<TypedExpr>, Box<TypedExpr>)>, AllocError>
    ensures { IfOk result (λ v. made boxed_pair v ≡ within setting.now bounds_verdict scope.now (read_range r.now)) }
{
    let start = expr(setting, scope, &r.start)?;
    let end = expr(setting, scope, &r.end)?;
    Ok(both(start, end))
}

/// The bounds of all ranges.
fn all_bounds(
    setting: &Setting,
    scope: &Scope,
    all: &[Range],
) -> Result<Vec<Verdict<(Box<TypedExpr>, Box<TypedExpr>)>>, AllocError>
    ensures { IfOk result (λ l. map (made boxed_pair) l.items ≡ map (within setting.now bounds_verdict scope.now) (map read_range all.now)) }
{
    let mut done = Vec::new(setting.alloc);
    for r in all {
        let part = bounds(setting, scope, r)?;
        done.push(part)?;
    }
    Ok(done)
}

fn push_range(
    so_far: Verdict<Vec<TypedRange>>,
    part: Verdict<Box<TypedRange>>,
) -> Result<Verdict<Vec<TypedRange>>, AllocError>
    ensures { IfOk result (λ v. made listed_ranges v ≡ made and_one (both (made listed_ranges so_far) (made boxed_range part))) }
{
    gathered::push_boxed(so_far, part)
}

/// The ranges of a `foreach`, whose indices join the names and variables.
pub fn ranges(
    setting: &Setting,
    scope: &mut Scope,
    variables: &mut Vec<Variable>,
    all: &[Range],
) -> Result<Verdict<Vec<TypedRange>>, AllocError>
    ensures value { IfOk result (λ v. made listed_ranges v
        ≡ (within setting.now ranges_typing scope.old (length scope.old) scope.old variables.old.items (map read_range all.now)).verdict) }
    ensures names { IfOk result (λ v. scope.new ≡ range_names scope.old variables.old.items (map read_range all.now)) }
    ensures variables { IfOk result (λ v. variables.new.items ≡ range_variables variables.old.items (map read_range all.now)) }
{
    let start = scope.len();
    let found = all_bounds(setting, scope, all)?;
    let mut done = Ok(Vec::new(setting.alloc));
    for (r, bounds) in all.iter().zip(found) {
        let seen = twice(scope, start, &r.word);
        let number = variables.len();
        let variable = foreach_index();
        let part = range_made(setting.alloc, number, beside(seen, bounds), r.span)?;
        variables.push(variable)?;
        scope.push(setting.alloc, &r.word.name, Ok(Known { number, variable }))?;
        done = push_range(done, part)?;
    }
    Ok(done)
}

fn push_value(
    so_far: Verdict<Vec<TypedExpr>>,
    part: Verdict<Box<TypedExpr>>,
) -> Result<Verdict<Vec<TypedExpr>>, AllocError>
    ensures { IfOk result (λ v. made listed_exprs v ≡ made and_one (both (made listed_exprs so_far) (made boxed_of part))) }
{
    gathered::push_boxed(so_far, part)
}

/// Values that are printed.
fn values(
    setting: &Setting,
    scope: &Scope,
    all: &[Expr],
) -> Result<Verdict<Vec<TypedExpr>>, AllocError>
    ensures { IfOk result (λ v. made listed_exprs v ≡ (within setting.now values_typing scope.now (read_exprs all.now)).verdict) }
{
    let mut done = Ok(Vec::new(setting.alloc));
    for x in all {
        let part = expr(setting, scope, x)?;
        done = push_value(done, part)?;
    }
    Ok(done)
}

/// How many places a text has for values.
pub fn places(text: &Text) -> usize
    ensures { result ≡ places text.now }
{
    text.as_slice().iter().filter(|c| **c == b'%').count()
}

/// The values of a `print`. 25 BadPrint at the text where they are not as many as its places.
pub fn printed(
    setting: &Setting,
    scope: &Scope,
    text: &Text,
    text_span: Span,
    all: &[Expr],
) -> Result<Verdict<Vec<TypedExpr>>, AllocError>
    ensures { IfOk result (λ v. made listed_exprs v
        ≡ beside (print_fault text.now text_span (length all.now)) (within setting.now values_typing scope.now (read_exprs all.now)).verdict) }
{
    let seen = unless(
        places(text) == all.len(),
        Fault {
            rule: Rule::BadPrint,
            span: text_span,
        },
    );
    let found = values(setting, scope, all)?;
    Ok(beside(seen, found))
}

/// Whether a value that is given back, or none, agrees with what the function gives back.
pub fn agrees(answer: Verdict<Option<Ty>>, has_value: bool) -> bool
    ensures { result ≡ agrees_with answer has_value }
{
    match answer {
        Err(_) => true,
        Ok(None) => !has_value,
        Ok(Some(_)) => has_value,
    }
}

fn as_answer(
    alloc: Global,
    answer: Verdict<Option<Ty>>,
    value: Verdict<Box<TypedExpr>>,
) -> Result<Verdict<Box<TypedExpr>>, AllocError>
    ensures { IfOk result (λ v. made boxed_of v ≡ made (as_answer answer) (made boxed_of value)) }
{
    match answer {
        Ok(Some(ty)) => converted_to(alloc, ty.elem, value),
        _ => Ok(value),
    }
}

/// What is given back. 22 Mismatch at the word where the function gives back a value and none stands
/// there, or the other way round.
pub fn returned(
    setting: &Setting,
    answer: Verdict<Option<Ty>>,
    scope: &Scope,
    keyword: Span,
    x: &Option<Expr>,
) -> Result<Verdict<Option<Box<TypedExpr>>>, AllocError>
    ensures { IfOk result (λ v. made (option_map boxed_of) v
        ≡ (within setting.now returned_typing answer scope.now keyword (option_map read_expr x.now)).verdict) }
{
    let seen = unless(agrees(answer, x.is_some()), mismatch(keyword));
    match x {
        None => Ok(beside(seen, Ok(None))),
        Some(x) => {
            let value = expr(setting, scope, x)?;
            let value = as_answer(setting.alloc, answer, value)?;
            Ok(beside(seen, some(value)))
        }
    }
}
