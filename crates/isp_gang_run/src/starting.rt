//! What a run begins with: its arguments.
ghost use Rattle.std.specs.Prelude.{◌≡◌, ◌≤◌, ◌<◌, ◌-◌, ◌^◌, ◌++◌, length, map, IfOk, OnOk};
ghost use Rattle.isp_base.specs.Arguments.{rows};
ghost use Rattle.isp_base.specs.Rows.{Fit};
ghost use Rattle.isp_meaning.specs.Runs.{handed};
ghost use Rattle.isp_gang_run.specs.Seen.{passed_seen};
ghost use Rattle.isp_gang_run.specs.Starting.{ArgumentsFit, OneFits, next_after, one_handed, one_size, one_store};

use crate::tasks::Passed;
use isp_base::{Argument, Array, low_bits};
use isp_gang_values::computed::Computed;
use std::alloc::{AllocError, Global};

/// What the arguments hand over: the arrays are the first stores, in order.
pub fn handed(alloc: Global, arguments: &[Argument]) -> Result<Vec<Passed>, AllocError>
    ensures { IfOk result (λ ps. map passed_seen ps.items ≡ handed 0 arguments.now) }
{
    let mut passed = Vec::new(alloc);
    let mut next: usize = 0;
    for place in 0..arguments.len() {
        passed.push(hand(&arguments[place], next))?;
        next = after(&arguments[place], next, place);
    }
    Ok(passed)
}

// What an argument hands over, where so many arrays came before.
fn hand(argument: &Argument, next: usize) -> Passed
    ensures { passed_seen result ≡ one_handed next argument.now }
{
    match argument {
        Argument::Value(value) => Passed::Value(Computed::One(low_bits(value.elem, value.bits))),
        Argument::Array(_) => Passed::Store(next),
    }
}

// How many arrays have come then.
fn after(argument: &Argument, next: usize, place: usize) -> usize
    requires low { next ≤ place }
    requires few { place < 2 ^ 64 - 1 }
    ensures { result ≡ next_after next argument.now }
{
    match argument {
        Argument::Value(_) => next,
        Argument::Array(_) => next + 1,
    }
}

/// The elements of the arrays among the arguments.
pub fn stores(alloc: Global, arguments: &[Argument]) -> Result<Vec<Vec<u64>>, AllocError>
    ensures same { IfOk result (λ vs. map (λ v. v.items) vs.items ≡ map (λ r. r.bits) (rows arguments.now)) }
    ensures fits { IfOk result (λ vs. ArgumentsFit arguments.now) }
{
    let mut stores = Vec::new(alloc);
    for place in 0..arguments.len() {
        push_store(alloc, &mut stores, &arguments[place])?;
    }
    Ok(stores)
}

fn push_store(
    alloc: Global,
    stores: &mut Vec<Vec<u64>>,
    argument: &Argument,
) -> Result<(), AllocError>
    ensures more { OnOk result (map (λ v. v.items) stores.new.items ≡ map (λ v. v.items) stores.old.items ++ one_store argument.now) }
    ensures fits { OnOk result (OneFits argument.now) }
{
    match argument {
        Argument::Value(_) => Ok(()),
        Argument::Array(array) => {
            stores.push(elements(alloc, array)?)?;
            Ok(())
        }
    }
}

/// The numbers of elements of the arrays among the arguments.
pub fn sizes(alloc: Global, arguments: &[Argument]) -> Result<Vec<usize>, AllocError>
    ensures { IfOk result (λ ns. ns.items ≡ map (λ r. length r.bits) (rows arguments.now)) }
{
    let mut sizes = Vec::new(alloc);
    for place in 0..arguments.len() {
        push_size(&mut sizes, &arguments[place])?;
    }
    Ok(sizes)
}

fn push_size(sizes: &mut Vec<usize>, argument: &Argument) -> Result<(), AllocError>
    ensures { OnOk result (sizes.new.items ≡ sizes.old.items ++ one_size argument.now) }
{
    match argument {
        Argument::Value(_) => Ok(()),
        Argument::Array(array) => {
            sizes.push(array.len())?;
            Ok(())
        }
    }
}

// The elements of an array.
fn elements(alloc: Global, array: &Array) -> Result<Vec<u64>, AllocError>
    ensures same { IfOk result (λ v. v.items ≡ array.now.bits) }
    ensures fits { IfOk result (λ v. Fit array.now.elem array.now.bits) }
{
    let mut values = Vec::new(alloc);
    for place in 0..array.len() {
        values.push(array.at(place))?;
    }
    Ok(values)
}
