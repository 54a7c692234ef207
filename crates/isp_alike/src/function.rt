//! Whether a program is another one in which something has a new name.
ghost use Rattle.std.specs.Prelude.{◌≡◌, IsTrue, if◌then◌else◌, map};
ghost use Rattle.isp_typed.specs.Views.{function_of, functions_of, program_of};
ghost use Rattle.isp_alike.specs.Bare.{bare_function, bare_program, nowhere};
ghost use Rattle.isp_alike.specs.Renamed.{function_renamed, functions_renamed, params_renamed, program_renamed};

use crate::spot::{Renaming, same_variables};
use crate::stmt::same_block;
use isp_base::{Name, Parameter, Span};
use isp_typed::{Program, TypedFunction};

// Whether a name is an old one, or a new one where something is renamed.
fn is_name(found: &Name, old: &Name, name: &str, renamed: bool) -> bool
    ensures { IsTrue result → found.now ≡ (if renamed then name.now else old.now) }
{
    if renamed {
        found.is(name)
    } else {
        found.is(old.as_str())
    }
}

// Whether a parameter is another one, with a new name where it is renamed.
fn is_param(new: &Parameter, old: &Parameter, name: &str, renamed: bool) -> bool
    ensures { IsTrue result → new.now ≡ record old.now { name = if renamed then name.now else old.now.name } }
{
    is_name(&new.name, &old.name, name, renamed)
        && new.elem == old.elem
        && new.is_array == old.is_array
}

fn are_params(new: &[Parameter], old: &[Parameter], to: &Renaming<'_>, function: usize) -> bool
    ensures { IsTrue result → new.now ≡ params_renamed to.now.subject to.now.name.now function 0 old.now }
{
    let mut rest = new;
    for (number, before) in old.iter().enumerate() {
        let [after, more @ ..] = rest else {
            return false;
        };
        if !is_param(after, before, to.name, to.is_variable(function, number)) {
            return false;
        }
        rest = more;
    }
    rest.is_empty()
}

// Whether two functions have as many places of parameters.
#[tactic(auto, using(crate::proofs::Nowhere::as_many))]
fn as_many(new: &[Span], old: &[Span]) -> bool
    ensures { IsTrue result → map (λ s. nowhere) new.now ≡ map (λ s. nowhere) old.now }
{
    new.len() == old.len()
}

// Whether what a caller sees of a function is that of another one, where something has a new name.
fn is_seen(new: &TypedFunction, old: &TypedFunction, to: &Renaming<'_>, number: usize) -> bool
    ensures name { IsTrue result → (function_of new.now).name ≡ (function_renamed to.now.subject to.now.name.now number (function_of old.now)).name }
    ensures parameters { IsTrue result → (function_of new.now).parameters ≡ (function_renamed to.now.subject to.now.name.now number (function_of old.now)).parameters }
    ensures rest { IsTrue result → (new.now.exported ≡ old.now.exported) × (new.now.signature.result ≡ old.now.signature.result) × (new.now.result ≡ old.now.result) }
{
    is_name(&new.name, &old.name, to.name, to.is_function(number))
        && are_params(&new.signature.params, &old.signature.params, to, number)
        && new.exported == old.exported
        && new.signature.result == old.signature.result
        && new.result == old.result
}

fn is_function(new: &TypedFunction, old: &TypedFunction, to: &Renaming<'_>, number: usize) -> bool
    ensures { IsTrue result → bare_function (function_of new.now) ≡ bare_function (function_renamed to.now.subject to.now.name.now number (function_of old.now)) }
{
    is_seen(new, old, to, number)
        && as_many(&new.params, &old.params)
        && same_variables(&new.variables, &old.variables)
        && same_block(&new.body, &old.body)
}

fn are_functions(new: &[TypedFunction], old: &[TypedFunction], to: &Renaming<'_>) -> bool
    ensures { IsTrue result → map bare_function (functions_of new.now) ≡ map bare_function (functions_renamed to.now.subject to.now.name.now 0 (functions_of old.now)) }
{
    let mut rest = new;
    for (number, before) in old.iter().enumerate() {
        let [after, more @ ..] = rest else {
            return false;
        };
        if !is_function(after, before, to, number) {
            return false;
        }
        rest = more;
    }
    rest.is_empty()
}

/// Whether a program is another one in which something has a new name, but for its places.
pub fn is_renamed(new: &Program, old: &Program, to: &Renaming<'_>) -> bool
    ensures { IsTrue result → bare_program (program_of new.now) ≡ bare_program (program_renamed to.now.subject to.now.name.now (program_of old.now)) }
{
    new.gang == old.gang && are_functions(&new.functions, &old.functions, to)
}
