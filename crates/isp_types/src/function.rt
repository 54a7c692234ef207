//! Functions.
ghost use Rattle.std.specs.Prelude.{◌≡◌, IfOk, List, bytes_eq, cond, map, option_map, true, ◌++◌, ◌∷◌, [], ℕ};
ghost use Rattle.std.specs.List.{list_any};
ghost use Rattle.std.specs.BTreeSet.{contains_text};
ghost use Rattle.isp_tree.specs.Views.{function_of as read_function, param_of as read_param};
ghost use Rattle.isp_typed.specs.Verdicts.{both, made};
ghost use Rattle.isp_typed.specs.Views.{block_of, function_of};
ghost use Rattle.isp_types.specs.Functions.{heading, is_export, param_fits, param_names, param_span, param_variable, param_want, functions_typing};
ghost use Rattle.isp_types.specs.Functions.{parameter_of, params_names, variable_for};
ghost use Rattle.isp_exprs.specs.reader.Headings.{heading_of};
ghost use Rattle.isp_types.specs.reader.Boxes.{listed_functions};
ghost use Rattle.isp_types.specs.reader.Settings.{within};
ghost use Rattle.isp_exprs.specs.reader.Lists.{and_one, fault_of};
ghost use Rattle.isp_types.specs.reader.Lists.{IsParamsFault, function_of_parts, name_fault, param_fault, function_verdict};

use crate::declaration::{declared, or_nothing, twice, value_variable};
use crate::gathered;
use crate::stmt::block;
use crate::walk::{Context, Walk};
use isp_base::{Elem, Name, Parameter, Rate, Signature, Span, Ty};
use isp_exprs::{
    Header, Scope, Setting, ValueWords, Want, answer_said, library_named, mismatch,
    rate_or_varying, value_said,
};
use isp_lex::{Fault, Rule};
use isp_tree::{Function, Linkage, Param, Word};
use isp_typed::{Holds, TypedBlock, TypedFunction, Variable, Verdict, beside, both, first, unless};
use std::alloc::{AllocError, Global};
use std::collections::BTreeSet;

/// What a parameter holds: a value, or an array by reference.
fn param_variable(is_array: bool, words: ValueWords) -> Variable
    ensures { result ≡ variable_for is_array words }
{
    if is_array {
        Variable {
            holds: Holds::Given(words.elem),
            constant: words.constant,
        }
    } else {
        value_variable(words)
    }
}

/// What a parameter asks of an argument; nothing where its type is not found.
fn param_want(p: &Param) -> Want
    ensures { result ≡ param_want (read_param p.now) }
{
    match value_said(&p.ty) {
        Ok(words) => if p.is_array {
            Want::ArrayOf {
                elem: words.elem,
                constant: words.constant,
            }
        } else {
            Want::ValueOf(words.elem)
        },
        Err(_) => Want::NoReference,
    }
}

/// An array parameter is uniform.
pub fn param_fits(p: &Param) -> bool
    ensures { result ≡ param_fits (read_param p.now) }
{
    match value_said(&p.ty) {
        Ok(words) => !p.is_array || matches!(rate_or_varying(words.rate), Rate::Uniform),
        Err(_) => true,
    }
}

fn wants(alloc: Global, all: &[Param]) -> Result<Vec<Want>, AllocError>
    ensures { IfOk result (λ l. l.items ≡ map param_want (map read_param all.now)) }
{
    let mut done = Vec::new(alloc);
    for p in all {
        done.push(param_want(p))?;
    }
    Ok(done)
}

/// A function as callers see it.
pub fn header(alloc: Global, f: &Function) -> Result<Header, AllocError>
    ensures { IfOk result (λ h. heading_of h ≡ heading (read_function f.now)) }
{
    let wants = wants(alloc, &f.params)?;
    Ok(Header {
        name: f.word.name.copied()?,
        answer: answer_said(&f.result),
        wants,
    })
}

fn parameter(p: &Param) -> Result<Parameter, AllocError>
    ensures { IfOk result (λ q. q ≡ parameter_of (read_param p.now)) }
{
    Ok(Parameter {
        name: p.word.name.copied()?,
        elem: or_nothing(value_said(&p.ty)).elem,
        is_array: p.is_array,
    })
}

/// What a caller of an exported function sees of its parameters.
fn parameters(alloc: Global, all: &[Param]) -> Result<Vec<Parameter>, AllocError>
    ensures { IfOk result (λ l. l.items ≡ map parameter_of (map read_param all.now)) }
{
    let mut done = Vec::new(alloc);
    for p in all {
        done.push(parameter(p)?)?;
    }
    Ok(done)
}

fn spans(alloc: Global, all: &[Param]) -> Result<Vec<Span>, AllocError>
    ensures { IfOk result (λ l. l.items ≡ map param_span (map read_param all.now)) }
{
    let mut done = Vec::new(alloc);
    for p in all {
        done.push(p.word.span)?;
    }
    Ok(done)
}

fn words_fault(words: Verdict<ValueWords>) -> Option<Fault>
    ensures { result ≡ fault_of words }
{
    match words {
        Ok(_) => None,
        Err(fault) => Some(fault),
    }
}

/// A parameter, whose name and variable join the others, and the first of its faults.
pub fn declare_parameter(
    alloc: Global,
    scope: &mut Scope,
    variables: &mut Vec<Variable>,
    p: &Param,
) -> Result<Option<Fault>, AllocError>
    ensures fault { IfOk result (λ o. o ≡ param_fault scope.old (read_param p.now)) }
    ensures names { IfOk result (λ o. scope.new ≡ param_names scope.old variables.old.items (read_param p.now)) }
    ensures variables { IfOk result (λ o. variables.new.items ≡ variables.old.items ++ param_variable (read_param p.now) ∷ []) }
{
    let words = value_said(&p.ty);
    let seen = twice(scope, 0, &p.word);
    let misfit = unless(param_fits(p), mismatch(p.word.span));
    let number = variables.len();
    let variable = param_variable(p.is_array, or_nothing(words));
    variables.push(variable)?;
    scope.push(alloc, &p.word.name, declared(words, number, variable))?;
    Ok(first(first(seen, misfit), words_fault(words)))
}

/// The parameters, which are the first names and variables of a body, and the first of their faults.
fn declare_all(
    alloc: Global,
    scope: &mut Scope,
    variables: &mut Vec<Variable>,
    all: &[Param],
) -> Result<Option<Fault>, AllocError>
    ensures fault { IfOk result (IsParamsFault scope.old variables.old.items (map read_param all.now) scope.new variables.new.items) }
    ensures names { IfOk result (λ o. scope.new ≡ params_names scope.old variables.old.items (map read_param all.now)) }
    ensures variables { IfOk result (λ o. variables.new.items ≡ variables.old.items ++ map param_variable (map read_param all.now)) }
{
    let mut seen = None;
    for p in all {
        let fault = declare_parameter(alloc, scope, variables, p)?;
        seen = first(seen, fault);
    }
    Ok(seen)
}

fn is_exported(all: &[Linkage]) -> bool
    ensures { result ≡ list_any is_export all.now }
{
    all.iter().any(|word| matches!(word, Linkage::Export))
}

fn result_elem(answer: Option<Ty>) -> Option<Elem>
    ensures { result ≡ option_map (λ t. t.elem) answer }
{
    match answer {
        None => None,
        Some(ty) => Some(ty.elem),
    }
}

/// A function of its result and body.
fn make_function(
    alloc: Global,
    f: &Function,
    answer: Option<Ty>,
    variables: Vec<Variable>,
    body: TypedBlock,
) -> Result<TypedFunction, AllocError>
    ensures { IfOk result (λ g. function_of g ≡ function_of_parts (read_function f.now) answer variables.items (block_of body)) }
{
    let params = parameters(alloc, &f.params)?;
    let signature = Signature {
        params,
        result: result_elem(answer),
    };
    let params = spans(alloc, &f.params)?;
    Ok(TypedFunction {
        name: f.word.name.copied()?,
        span: f.word.span,
        exported: is_exported(&f.linkages),
        signature,
        params,
        result: answer,
        variables,
        body,
    })
}

/// A function, with the fault of its name.
fn function(
    setting: &Setting,
    taken: Option<Fault>,
    f: &Function,
) -> Result<Verdict<TypedFunction>, AllocError>
    ensures { IfOk result (λ v. made function_of v ≡ within setting.now function_verdict taken (read_function f.now)) }
{
    let alloc = setting.alloc;
    let answer = answer_said(&f.result);
    let mut scope = Scope::new(alloc);
    let mut variables = Vec::new(alloc);
    let seen = declare_all(alloc, &mut scope, &mut variables, &f.params)?;
    let context = Context {
        setting: *setting,
        answer,
    };
    let mut walk = Walk { scope, variables };
    let body = block(&mut walk, &context, 0, &f.body)?;
    match beside(taken, both(answer, beside(seen, body))) {
        Ok((answer, body)) => Ok(Ok(make_function(alloc, f, answer, walk.variables, body)?)),
        Err(fault) => Ok(Err(fault)),
    }
}

/// The fault of a function whose name the library has or an earlier function.
pub fn name_fault(word: &Word, taken: &BTreeSet<String>) -> Option<Fault>
    ensures { result ≡ name_fault word.now (contains_text taken.now word.now.name) }
{
    let is_taken = taken.contains(word.name.as_str());
    unless(
        !(library_named(&word.name).is_some() || is_taken),
        Fault {
            rule: Rule::NameTwice,
            span: word.span,
        },
    )
}

/// One more name that is taken.
pub fn take(alloc: Global, taken: &mut BTreeSet<String>, name: &Name) -> Result<(), AllocError>
    ensures { IfOk result (λ _. (w : List ℕ)
        → contains_text taken.new w ≡ cond (bytes_eq name.now w) true (contains_text taken.old w)) }
{
    let key = String::from_str(alloc, name.as_str())?;
    taken.insert(key)?;
    Ok(())
}

/// One more function after the others.
fn push(
    so_far: Verdict<Vec<TypedFunction>>,
    part: Verdict<TypedFunction>,
) -> Result<Verdict<Vec<TypedFunction>>, AllocError>
    ensures { IfOk result (λ v. made listed_functions v ≡ made and_one (both (made listed_functions so_far) (made function_of part))) }
{
    gathered::push(so_far, part)
}

/// The functions of a program.
pub fn functions(
    setting: &Setting,
    all: &[Function],
) -> Result<Verdict<Vec<TypedFunction>>, AllocError>
    ensures { IfOk result (λ v. made listed_functions v ≡ (within setting.now functions_typing [] (map read_function all.now)).verdict) }
{
    let mut taken = BTreeSet::new(setting.alloc);
    let mut done = Ok(Vec::new(setting.alloc));
    for f in all {
        let part = function(setting, name_fault(&f.word, &taken), f)?;
        done = push(done, part)?;
        take(setting.alloc, &mut taken, &f.word.name)?;
    }
    Ok(done)
}
