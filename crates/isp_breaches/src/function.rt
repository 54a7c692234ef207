//! Functions: exports, and the statements of the body.
ghost use Rattle.std.specs.Prelude.{◌≡◌, ◌++◌, IfOk};
ghost use Rattle.isp_base.specs.declared.types.Rate.TheVariants.{Uniform};
ghost use Rattle.isp_lex.specs.Faults.{fault};
ghost use Rattle.isp_typed.specs.Views.{function_of, functions_of};
ghost use Rattle.isp_rates.specs.Rates.{goes_to};
ghost use Rattle.isp_breaches.specs.reader.Lists.{export_faults, function_faults, of_any, of_each, parameters_faults, result_faults, unmet};

use crate::demand::{goes_to, rate_held, unless};
use crate::stmt::block;
use crate::within::Within;
use isp_base::{Rate, Span, Ty};
use isp_lex::{Fault, Rule};
use isp_typed::{TypedFunction, Variable};
use std::alloc::AllocError;

/// Tells the fault of an exported parameter or result of a rate.
fn exported(found: &mut Vec<Fault>, rate: Rate, span: Span) -> Result<(), AllocError>
    ensures { IfOk result (λ u. found.new.items ≡ found.old.items ++ unmet (goes_to Uniform rate) (fault Rule.BadExport span)) }
{
    let fault = Fault {
        rule: Rule::BadExport,
        span,
    };
    unless(found, goes_to(Rate::Uniform, rate), fault)
}

/// Finds the faults in the parameters of an exported function.
fn parameters(
    found: &mut Vec<Fault>,
    names: &[Span],
    variables: &[Variable],
) -> Result<(), AllocError>
    ensures { IfOk result (λ u. found.new.items ≡ found.old.items ++ parameters_faults names.now variables.now) }
{
    for (name, variable) in names.iter().zip(variables) {
        exported(found, rate_held(variable.holds), *name)?;
    }
    Ok(())
}

/// Tells the fault of the result of an exported function.
fn answer(found: &mut Vec<Fault>, name: Span, ty: Option<Ty>) -> Result<(), AllocError>
    ensures { IfOk result (λ u. found.new.items ≡ found.old.items ++ of_any (result_faults name) ty) }
{
    match ty {
        Some(ty) => exported(found, ty.rate, name),
        None => Ok(()),
    }
}

/// Finds the faults of a function as an export.
fn export(found: &mut Vec<Fault>, function: &TypedFunction) -> Result<(), AllocError>
    ensures { IfOk result (λ u. found.new.items ≡ found.old.items ++ export_faults (function_of function.now)) }
{
    if !function.exported {
        return Ok(());
    }
    parameters(found, &function.params, &function.variables)?;
    answer(found, function.span, function.result)
}

/// Finds the faults in a function.
fn function(
    found: &mut Vec<Fault>,
    functions: &[TypedFunction],
    one: &TypedFunction,
) -> Result<(), AllocError>
    ensures { IfOk result (λ u. found.new.items ≡ found.old.items ++ function_faults (functions_of functions.now) (function_of one.now)) }
{
    export(found, one)?;
    block(found, functions, one.result, Within::start(), &one.body)
}

/// Finds the faults in functions that call one another.
pub fn functions(found: &mut Vec<Fault>, functions: &[TypedFunction]) -> Result<(), AllocError>
    ensures { IfOk result (λ u. found.new.items ≡ found.old.items ++ of_each (function_faults (functions_of functions.now)) (functions_of functions.now)) }
{
    for one in functions {
        function(found, functions, one)?;
    }
    Ok(())
}
