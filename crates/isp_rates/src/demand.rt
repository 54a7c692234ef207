//! Where a value of one rate stands and another is wanted.
ghost use Rattle.std.specs.Prelude.{◌≡◌, drop};
ghost use Rattle.isp_typed.specs.Views.{expr_of, functions_of};
ghost use Rattle.isp_rates.specs.Rates.{goes_to, next_part, next_rate, part_rate, rate_held, variables_of};
ghost use Rattle.isp_rates.specs.reader.Faults.{demand, mismatch};

use isp_base::{Rate, Span};
use isp_lex::{Fault, Rule};
use isp_typed::{Holds, Part, TypedExpr, TypedFunction, Variable, unless};

/// Whether a value of one rate may stand where another is wanted.
pub fn goes_to(wanted: Rate, given: Rate) -> bool
    ensures { result ≡ goes_to wanted given }
{
    match (wanted, given) {
        (Rate::Varying, _) => true,
        (Rate::Uniform, Rate::Uniform) => true,
        (Rate::Uniform, Rate::Varying) => false,
    }
}

/// The fault of what is given at a place.
pub fn mismatch(wanted: Rate, given: Rate, span: Span) -> Option<Fault>
    ensures { result ≡ mismatch wanted given span }
{
    unless(
        goes_to(wanted, given),
        Fault {
            rule: Rule::VaryingToUniform,
            span,
        },
    )
}

/// The fault of an expression where a rate is wanted, `inner` being that of the expression itself.
pub fn demand(wanted: Rate, x: &TypedExpr, inner: Option<Fault>) -> Option<Fault>
    ensures { result ≡ demand wanted (expr_of x.now) inner }
{
    match inner {
        Some(fault) => Some(fault),
        None => mismatch(wanted, x.ty().rate, x.span()),
    }
}

/// The rate of what a variable or a parameter holds.
pub fn rate_held(holds: Holds) -> Rate
    ensures { result ≡ rate_held holds }
{
    match holds {
        Holds::Value(ty) | Holds::Local(ty, _) => ty.rate,
        Holds::Given(_) => Rate::Uniform,
    }
}

/// The variables of a function, its parameters first.
pub fn variables(functions: &[TypedFunction], number: usize) -> &[Variable]
    ensures { result.now ≡ variables_of (functions_of functions.now) number }
{
    match functions.get(number) {
        Some(function) => &function.variables,
        None => &[],
    }
}

/// The rate that an argument is to have, by its place in a call.
pub fn parameter_rate(variables: &[Variable], place: usize) -> Rate
    ensures { result ≡ next_rate (drop place variables.now) }
{
    match variables.get(place) {
        Some(variable) => rate_held(variable.holds),
        None => Rate::Varying,
    }
}

fn part_rate(part: Part) -> Rate
    ensures { result ≡ part_rate part }
{
    if part.asks_uniform() {
        Rate::Uniform
    } else {
        Rate::Varying
    }
}

/// The rate that a value is to have, by its place in a call of the library.
pub fn value_rate(parts: &[Part], place: usize) -> Rate
    ensures { result ≡ next_part (drop place parts.now) }
{
    match parts.get(place) {
        Some(part) => part_rate(*part),
        None => Rate::Varying,
    }
}
