//! Where a value of one rate stands and another is wanted.
ghost use Rattle.std.specs.Prelude.{◌≡◌, ◌++◌, IfOk, drop};
ghost use Rattle.isp_typed.specs.Views.{functions_of};
ghost use Rattle.isp_rates.specs.Rates.{goes_to, next_part, next_rate, part_rate, rate_held, variables_of};
ghost use Rattle.isp_breaches.specs.reader.Lists.{mismatch, unmet};

use isp_base::{Rate, Span};
use isp_lex::{Fault, Rule};
use isp_typed::{Holds, Part, TypedFunction, Variable};
use std::alloc::AllocError;

/// Tells a fault where what has to hold does not.
pub fn unless(found: &mut Vec<Fault>, holds: bool, fault: Fault) -> Result<(), AllocError>
    ensures { IfOk result (λ u. found.new.items ≡ found.old.items ++ unmet holds fault) }
{
    if !holds {
        found.push(fault)?;
    }
    Ok(())
}

/// Whether a value of one rate may stand where another is wanted.
pub fn goes_to(wanted: Rate, given: Rate) -> bool
    ensures { result ≡ goes_to wanted given }
{
    match (wanted, given) {
        (Rate::Varying, _) => true,
        (Rate::Uniform, Rate::Uniform) => true,
        (Rate::Uniform, Rate::Varying) => false,
    }
}

/// Tells the fault of what is given at a place.
pub fn mismatch(
    found: &mut Vec<Fault>,
    wanted: Rate,
    given: Rate,
    span: Span,
) -> Result<(), AllocError>
    ensures { IfOk result (λ u. found.new.items ≡ found.old.items ++ mismatch wanted given span) }
{
    let fault = Fault {
        rule: Rule::VaryingToUniform,
        span,
    };
    unless(found, goes_to(wanted, given), fault)
}

/// The rate of what a variable or a parameter holds.
pub fn rate_held(holds: Holds) -> Rate
    ensures { result ≡ rate_held holds }
{
    match holds {
        Holds::Value(ty) | Holds::Local(ty, _) => ty.rate,
        Holds::Given(_) => Rate::Uniform,
    }
}

/// The variables of a function, its parameters first.
pub fn variables(functions: &[TypedFunction], number: usize) -> &[Variable]
    ensures { result.now ≡ variables_of (functions_of functions.now) number }
{
    match functions.get(number) {
        Some(function) => &function.variables,
        None => &[],
    }
}

/// The rate that an argument is to have, by its place in a call.
pub fn parameter_rate(variables: &[Variable], place: usize) -> Rate
    ensures { result ≡ next_rate (drop place variables.now) }
{
    match variables.get(place) {
        Some(variable) => rate_held(variable.holds),
        None => Rate::Varying,
    }
}

fn part_rate(part: Part) -> Rate
    ensures { result ≡ part_rate part }
{
    if part.asks_uniform() {
        Rate::Uniform
    } else {
        Rate::Varying
    }
}

/// The rate that a value is to have, by its place in a call of the library.
pub fn value_rate(parts: &[Part], place: usize) -> Rate
    ensures { result ≡ next_part (drop place parts.now) }
{
    match parts.get(place) {
        Some(part) => part_rate(*part),
        None => Rate::Varying,
    }
}
