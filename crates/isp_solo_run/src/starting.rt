//! What a run begins with: its arguments.
ghost use Rattle.std.specs.Prelude.{◌≡◌, ◌≤◌, ◌<◌, ◌-◌, ◌^◌, ◌++◌, length, map, IfOk, OnOk};
ghost use Rattle.isp_base.specs.Arguments.{rows};
ghost use Rattle.isp_meaning.specs.Runs.{handed};
ghost use Rattle.isp_solo_run.specs.Seen.{passed_seen};
ghost use Rattle.isp_solo_run.specs.Starting.{next_after, one_handed, one_row, one_size};

use crate::tasks::Passed;
use isp_base::{Argument, Array, low_bits};
use std::alloc::{AllocError, Global};

/// What the arguments hand over: the arrays are the first stores, in order.
pub fn handed(alloc: Global, arguments: &[Argument]) -> Result<Vec<Passed>, AllocError>
    ensures { IfOk result (λ ps. map passed_seen ps.items ≡ handed 0 arguments.now) }
{
    let mut passed = Vec::new(alloc);
    let mut next: usize = 0;
    for place in 0..arguments.len() {
        passed.push(hand(&arguments[place], next))?;
        next = after(&arguments[place], next, place);
    }
    Ok(passed)
}

// What an argument hands over, where so many arrays came before.
fn hand(argument: &Argument, next: usize) -> Passed
    ensures { passed_seen result ≡ one_handed next argument.now }
{
    match argument {
        Argument::Value(value) => Passed::Value(low_bits(value.elem, value.bits)),
        Argument::Array(_) => Passed::Store(next),
    }
}

// How many arrays have come then.
fn after(argument: &Argument, next: usize, place: usize) -> usize
    requires low { next ≤ place }
    requires few { place < 2 ^ 64 - 1 }
    ensures { result ≡ next_after next argument.now }
{
    match argument {
        Argument::Value(_) => next,
        Argument::Array(_) => next + 1,
    }
}

/// The arrays among the arguments, in order.
pub fn bound_arrays<'a>(
    alloc: Global,
    arguments: &'a [Argument],
) -> Result<Vec<&'a Array>, AllocError>
    ensures { IfOk result (λ r. map (λ a. a.now) r.items ≡ rows arguments.now) }
{
    let mut arrays = Vec::new(alloc);
    for place in 0..arguments.len() {
        push_array(&mut arrays, &arguments[place])?;
    }
    Ok(arrays)
}

fn push_array<'a>(arrays: &mut Vec<&'a Array>, argument: &'a Argument) -> Result<(), AllocError>
    ensures { OnOk result (map (λ a. a.now) arrays.new.items ≡ map (λ a. a.now) arrays.old.items ++ one_row argument.now) }
{
    match argument {
        Argument::Value(_) => Ok(()),
        Argument::Array(array) => {
            arrays.push(array)?;
            Ok(())
        }
    }
}

/// The numbers of elements of the arrays among the arguments.
pub fn sizes(alloc: Global, arguments: &[Argument]) -> Result<Vec<usize>, AllocError>
    ensures { IfOk result (λ ns. ns.items ≡ map (λ r. length r.bits) (rows arguments.now)) }
{
    let mut sizes = Vec::new(alloc);
    for place in 0..arguments.len() {
        push_size(&mut sizes, &arguments[place])?;
    }
    Ok(sizes)
}

fn push_size(sizes: &mut Vec<usize>, argument: &Argument) -> Result<(), AllocError>
    ensures { OnOk result (sizes.new.items ≡ sizes.old.items ++ one_size argument.now) }
{
    match argument {
        Argument::Value(_) => Ok(()),
        Argument::Array(array) => {
            sizes.push(array.len())?;
            Ok(())
        }
    }
}
