//! What a run leaves: its arrays and its result.
ghost use Rattle.std.specs.Prelude.{◌≡◌, ◌++◌, ◌^◌, ◌%◌, length, IfOk, OnOk};
ghost use Rattle.isp_base.specs.Arguments.{rows, tabulate};
ghost use Rattle.isp_base.specs.Values.{width};
ghost use Rattle.isp_typed.specs.Views.{function_of};
ghost use Rattle.isp_meaning.specs.Outcomes.{Val};
ghost use Rattle.isp_meaning.specs.Payloads.{Payload};
ghost use Rattle.isp_meaning.specs.Runs.{answer_as, outcome_of, state_of};
ghost use Rattle.isp_type_laws.specs.Fits.{GivenFits, RowsFit};
ghost use Rattle.isp_gang_values.specs.Seen.{payload_of};
ghost use Rattle.isp_type_laws.specs.Cut.{cut, one_cut, rows_cut};
ghost use Rattle.isp_model.specs.Evaluated.{ResultFits, outcome_seen};
ghost use Rattle.isp_gang_run.specs.Runs.{IsRunOf};
ghost use Rattle.isp_gang_arrays.specs.Stores.{stores_of};

use crate::outcome::Outcome;
use isp_base::{Argument, Array, Elem, Value, low_bits};
use isp_gang_run::{Ending, Run};
use isp_gang_values::computed::Computed;
use isp_typed::TypedFunction;
use std::alloc::{AllocError, Global};

/// How the run of a function from arguments stands.
pub fn outcome(
    alloc: Global,
    function: &TypedFunction,
    arguments: &[Argument],
    run: Run,
) -> Result<Outcome, AllocError>
    ensures is { IfOk result (λ o. (v : Val Payload) → IsRunOf run v → RowsFit (rows arguments.now) (state_of v).arrays
        → outcome_seen o ≡ outcome_of (function_of function.now).gives arguments.now v) }
    ensures fits { IfOk result (λ o. (v : Val Payload) → IsRunOf run v → GivenFits (function_of function.now).gives v → ResultFits o) }
{
    match run.ending {
        Ending::Gave(value) => Ok(Outcome::Ends {
            arrays: arrays(alloc, arguments, &run)?,
            result: answer(function.signature.result, &value),
            output: run.output,
        }),
        Ending::Trapped(trap) => Ok(Outcome::Traps {
            trap,
            arrays: arrays(alloc, arguments, &run)?,
            output: run.output,
        }),
        Ending::Cut => Ok(Outcome::Cut { output: run.output }),
    }
}

// The value that a function gives.
fn answer(elem: Option<Elem>, value: &Computed) -> Option<Value>
    ensures { result ≡ answer_as elem (payload_of value.now) }
{
    match elem {
        Some(elem) => Some(Value {
            elem,
            bits: value.sole(),
        }),
        None => None,
    }
}

// The arrays among the arguments, with the elements that a run left.
fn arrays(alloc: Global, arguments: &[Argument], run: &Run) -> Result<Vec<Array>, AllocError>
    ensures { IfOk result (λ rs. rs.items ≡ rows_cut (rows arguments.now) (stores_of run.now.stores.items)) }
{
    let mut arrays = Vec::new(alloc);
    for place in 0..arguments.len() {
        push_array(alloc, &mut arrays, &arguments[place], run)?;
    }
    Ok(arrays)
}

fn push_array(
    alloc: Global,
    arrays: &mut Vec<Array>,
    argument: &Argument,
    run: &Run,
) -> Result<(), AllocError>
    ensures { OnOk result (arrays.new.items ≡ arrays.old.items ++ one_cut argument.now (stores_of run.now.stores.items (length arrays.old.items))) }
{
    match argument {
        Argument::Value(_) => Ok(()),
        Argument::Array(array) => {
            let store = arrays.len();
            arrays.push(array_now(alloc, array, run, store)?)?;
            Ok(())
        }
    }
}

// An array with the elements of its store.
fn array_now(alloc: Global, array: &Array, run: &Run, store: usize) -> Result<Array, AllocError>
    ensures { IfOk result (λ r. r ≡ cut array.now (stores_of run.now.stores.items store)) }
{
    let mut now = Array::empty(alloc, array.elem());
    for place in 0..array.len() {
        now.push(low_bits(array.elem(), run.element(store, place)))?;
    }
    Ok(now)
}
