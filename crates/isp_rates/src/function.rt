//! Functions and programs: exports, and the first fault.
ghost use Rattle.std.specs.Prelude.{◌≡◌};
ghost use Rattle.isp_base.specs.declared.types.Rate.TheVariants.{Uniform};
ghost use Rattle.isp_lex.specs.Faults.{fault};
ghost use Rattle.isp_typed.specs.Verdicts.{fault_unless};
ghost use Rattle.isp_rates.specs.Rates.{goes_to};
ghost use Rattle.isp_typed.specs.Views.{function_of, functions_of, program_of};
ghost use Rattle.isp_rates.specs.reader.Faults.{export_fault, function_fault, of_any, of_each, parameters_fault, program_fault, result_fault};

use crate::demand::{goes_to, rate_held};
use crate::exits::Within;
use crate::stmt::block;
use isp_base::{Rate, Span, Ty};
use isp_lex::{Fault, Rule};
use isp_typed::{Program, TypedFunction, Variable, first, unless};

/// The fault of an exported parameter or result of a rate.
fn exported(rate: Rate, span: Span) -> Option<Fault>
    ensures { result ≡ fault_unless (goes_to Uniform rate) (fault Rule.BadExport span) }
{
    unless(
        goes_to(Rate::Uniform, rate),
        Fault {
            rule: Rule::BadExport,
            span,
        },
    )
}

/// The first fault in the parameters of an exported function.
fn parameters(names: &[Span], variables: &[Variable]) -> Option<Fault>
    ensures { result ≡ parameters_fault names.now variables.now }
{
    let mut seen = None;
    for (name, variable) in names.iter().zip(variables) {
        seen = first(seen, exported(rate_held(variable.holds), *name));
    }
    seen
}

/// The fault of the result of an exported function.
fn answer(name: Span, ty: Option<Ty>) -> Option<Fault>
    ensures { result ≡ of_any (result_fault name) ty }
{
    match ty {
        Some(ty) => exported(ty.rate, name),
        None => None,
    }
}

/// The first fault of a function as an export.
fn export(function: &TypedFunction) -> Option<Fault>
    ensures { result ≡ export_fault (function_of function.now) }
{
    if function.exported {
        let before = parameters(&function.params, &function.variables);
        first(before, answer(function.span, function.result))
    } else {
        None
    }
}

/// The first fault in a function.
fn function(functions: &[TypedFunction], one: &TypedFunction) -> Option<Fault>
    ensures { result ≡ function_fault (functions_of functions.now) (function_of one.now) }
{
    let before = export(one);
    let inner = block(functions, one.result, Within::start(), &one.body);
    first(before, inner)
}

/// The first fault in functions.
fn functions(functions: &[TypedFunction]) -> Option<Fault>
    ensures { result ≡ of_each (function_fault (functions_of functions.now)) (functions_of functions.now) }
{
    let mut seen = None;
    for one in functions {
        seen = first(seen, function(functions, one));
    }
    seen
}

/// The first fault in a program.
pub fn program(program: &Program) -> Option<Fault>
    ensures { result ≡ program_fault (program_of program.now) }
{
    functions(&program.functions)
}
