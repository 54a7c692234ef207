//! The instances of an entry, each run alone: from 0 up, and from the last down.
use crate::case::Case;
use isp_base::{Argument, Array, Bound, Value, low_bits};
use isp_bind::{answer, bind};
use isp_engine::front;
use isp_rates::Checked;
use isp_solo::{EvalFault, SoloReport, one_by_one};
use isp_solo_run::arrays::Arrays;
use isp_solo_run::running::{Ending, run_alone};
use std::alloc::{AllocError, Global};

// The program of a case and its arguments, where neither is refused.
fn begun(alloc: Global, case: &Case<'_>) -> Option<(Checked, Bound)> {
    let checked = front(alloc, case.marked.source.as_str(), case.gang).ok()?;
    let bound = bind(
        alloc,
        checked.signature(case.entry)?,
        case.arguments.as_str(),
    )
    .ok()?;
    Some((checked, bound))
}

// An end with its answer.
fn ended(
    alloc: Global,
    checked: &Checked,
    entry: &str,
    arrays: &[Array],
    given: Option<Value>,
) -> Result<String, AllocError> {
    match checked.signature(entry) {
        Some(signature) => {
            let text = answer(alloc, signature, arrays, given)?;
            format!(in alloc; "ends {text}")
        }
        None => String::from_str(alloc, "no entry"),
    }
}

/// What the instances come to one by one, from 0 up.
pub(crate) fn upward(alloc: Global, case: &Case<'_>) -> Result<String, AllocError> {
    let Some((checked, bound)) = begun(alloc, case) else {
        return String::from_str(alloc, "refused");
    };
    match one_by_one(alloc, &checked, case.entry, &bound, case.turns) {
        Err(EvalFault::NotIndependent(it)) => {
            format!(in alloc; "rule {} at {}", it.rule.number(), it.span)
        }
        Err(fault) => format!(in alloc; "{fault}"),
        Ok(SoloReport::Trapped(trap)) => format!(in alloc; "{trap}"),
        Ok(SoloReport::Cut(instance)) => format!(in alloc; "cut {instance}"),
        Ok(SoloReport::Clash { parameter, element }) => {
            format!(in alloc; "clash {parameter} {element}")
        }
        Ok(SoloReport::Ended { arrays, result }) => {
            ended(alloc, &checked, case.entry, arrays.as_slice(), result)
        }
    }
}

/// What they come to from the last down, each from the arrays that the one before left.
pub(crate) fn downward(alloc: Global, case: &Case<'_>) -> Result<String, AllocError> {
    match begun(alloc, case) {
        Some((checked, bound)) => left_downward(alloc, case, &checked, bound.arguments),
        None => String::from_str(alloc, "refused"),
    }
}

fn left_downward(
    alloc: Global,
    case: &Case<'_>,
    checked: &Checked,
    mut arguments: Vec<Argument>,
) -> Result<String, AllocError> {
    let Some(bits) = run_downward(alloc, case, checked, arguments.as_mut_slice()) else {
        return String::from_str(alloc, "an instance that does not end");
    };
    let arrays = arrays_of(alloc, arguments)?;
    let result = value(checked, case.entry, bits);
    ended(alloc, checked, case.entry, arrays.as_slice(), result)
}

// What instance 0 gives at last, where each ends. The arrays are as the instances leave them.
fn run_downward(
    alloc: Global,
    case: &Case<'_>,
    checked: &Checked,
    arguments: &mut [Argument],
) -> Option<u64> {
    let function = checked.entry(case.entry)?;
    let program = checked.program();
    let mut marks = Arrays::new(alloc);
    let mut given = 0;
    for instance in (0..program.gang.width()).rev() {
        let run = run_alone(program, function, arguments, case.turns, instance, marks).ok()?;
        let Ending::Gave(bits) = run.ending else {
            return None;
        };
        given = bits;
        store(arguments, &run.arrays);
        marks = run.arrays;
    }
    Some(given)
}

// What a run stored goes into the arrays.
fn store(arguments: &mut [Argument], run: &Arrays) {
    let mut store = 0usize;
    for argument in arguments.iter_mut() {
        if let Argument::Array(array) = argument {
            store_in(array, run, store);
            store = store.saturating_add(1);
        }
    }
}

fn store_in(array: &mut Array, run: &Arrays, store: usize) {
    for place in 0..array.len() {
        match run.stored_at(store, place) {
            Some(stored) if place < array.len() => {
                let bits = low_bits(array.elem(), stored);
                array.put(place, bits);
            }
            _ => {}
        }
    }
}

fn arrays_of(alloc: Global, arguments: Vec<Argument>) -> Result<Vec<Array>, AllocError> {
    let mut arrays = Vec::new(alloc);
    for argument in arguments {
        if let Argument::Array(array) = argument {
            arrays.push(array)?;
        }
    }
    Ok(arrays)
}

// The value that an entry gives.
fn value(checked: &Checked, entry: &str, bits: u64) -> Option<Value> {
    let elem = checked.signature(entry)?.result?;
    Some(Value { elem, bits })
}
