//! The first breach of each function as an entry, with what it reaches.
ghost use Rattle.std.specs.Prelude.{◌≡◌, IfOk, map};
ghost use Rattle.isp_typed.specs.Views.{function_of, functions_of, program_of};
ghost use Rattle.isp_independence.specs.Independent.{AreDependences};
ghost use Rattle.isp_independence.specs.Reaches.{function_calls};
ghost use Rattle.isp_independence.specs.Tables.{lists_of};
ghost use Rattle.isp_independence.specs.reader.Answers.{called_answer, entry_answer, first_of, of_each};
ghost use Rattle.isp_independence.specs.reader.Firsts.{function_answer};
ghost use Rattle.isp_independence.specs.reader.Paths.{found_at};

use crate::dependence::{Dependence, first};
use crate::firsts::firsts;
use crate::function::{called, entry};
use crate::spread::known;
use isp_typed::{Program, TypedFunction};
use std::alloc::{AllocError, Global};

/// For each function its own first breach, where it is called.
fn own(alloc: Global, functions: &[TypedFunction]) -> Result<Vec<Option<Dependence>>, AllocError>
    ensures { IfOk result (λ v. v.items ≡ map called_answer (functions_of functions.now)) }
{
    let mut own = Vec::new(alloc);
    for function in functions {
        own.push(called(function))?;
    }
    Ok(own)
}

/// The first breach of an entry that calls these functions, by the first of those that each of them reaches.
fn of_entry(
    function: &TypedFunction,
    calls: &[usize],
    least: &[Option<Dependence>],
) -> Option<Dependence>
    ensures { result ≡ first_of (entry_answer (function_of function.now)) (of_each (found_at least.now) calls.now) }
{
    let mut seen = entry(function);
    for called in calls {
        seen = first(seen, known(least, *called));
    }
    seen
}

/// The same for each function.
fn of_each_entry(
    alloc: Global,
    functions: &[TypedFunction],
    calls: &[Vec<usize>],
    least: &[Option<Dependence>],
) -> Result<Vec<Option<Dependence>>, AllocError>
    requires { lists_of calls.now ≡ map function_calls (functions_of functions.now) }
    ensures { IfOk result (λ v. v.items ≡ map (function_answer least.now) (functions_of functions.now)) }
{
    let mut answers = Vec::new(alloc);
    for (number, function) in functions.iter().enumerate() {
        answers.push(of_entry(function, calls[number].as_slice(), least))?;
    }
    Ok(answers)
}

/// For each function, by its number, the first breach of the seven rules by it as an entry and by what it reaches; None
/// where it is independent. Of several that one is first whose place starts first, a tie by the lower number of its rule
/// (docs/INDEPENDENCE.md).
///
/// `calls` has for each function the numbers of those that it calls. Room and time grow with the program, as every call is
/// looked at once; the functions that break a rule themselves are sorted.
pub fn dependences(
    alloc: Global,
    program: &Program,
    calls: &[Vec<usize>],
) -> Result<Vec<Option<Dependence>>, AllocError>
    requires { lists_of calls.now ≡ map function_calls (functions_of program.now.functions.items) }
    ensures { IfOk result (λ v. AreDependences (program_of program.now) v.items) }
{
    let functions = program.functions.as_slice();
    let own = own(alloc, functions)?;
    let least = firsts(alloc, calls, &own)?;
    of_each_entry(alloc, functions, calls, &least)
}
