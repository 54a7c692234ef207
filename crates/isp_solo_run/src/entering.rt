//! What a call begins with.
ghost use Rattle.std.specs.Prelude.{◌≡◌, ◌≤◌, ◌++◌, ℕ, IfOk, OnOk, get_or, if◌then◌else◌, length, map, slice_get};
ghost use Rattle.isp_solo_meaning.specs.Alone.{Alone};
ghost use Rattle.isp_solo_meaning.specs.Calls as Begun;
ghost use Rattle.isp_base.specs.declared.types.Rate.TheVariants.{Uniform, Varying};
ghost use Rattle.isp_typed.specs.Views.{function_of};
ghost use Rattle.isp_meaning.specs.Calls as Calls;
ghost use Rattle.isp_gang_values.specs.Growing.{values_of};
ghost use Rattle.isp_solo_run.specs.Entering.{named_at, opened_by, passed_at};
ghost use Rattle.isp_solo_run.specs.Seen.{frame_seen, passed_seen, with_variables};

use crate::activation::Activation;
use crate::tasks::Passed;
use isp_base::Rate;
use isp_typed::{Holds, TypedFunction, Variable};
use std::alloc::{AllocError, Global};

impl<'a> Activation<'a> {
    /// A call of a function.
    pub fn begun(
        alloc: Global,
        function: &'a TypedFunction,
        passed: &[Passed],
        caller: &Activation<'_>,
    ) -> Result<Activation<'a>, AllocError>
        ensures frame { IfOk result (λ r. frame_seen r ≡ Calls.frame_of (function_of function.now) (map passed_seen passed.now)
            (frame_seen caller.now)) }
        ensures state { IfOk result (λ r. (s : Alone) → with_variables r s ≡ Begun.begun (function_of function.now) (map passed_seen passed.now) s) }
    {
        let variables = function.variables.as_slice();
        let mut sizes = copied(alloc, caller.sizes.as_slice())?;
        let named = stores(alloc, variables, passed, &mut sizes)?;
        let uniforms = values(alloc, variables, passed, Rate::Uniform)?;
        let varying = values(alloc, variables, passed, Rate::Varying)?;
        Ok(Activation {
            function: Some(function),
            named,
            sizes,
            uniforms,
            varying,
            own: Vec::new(alloc),
            result: 0,
        })
    }
}

// The store of each variable: the one that was passed, or else the next new one. A local array that all instances share
// opens a store of its size.
fn stores(
    alloc: Global,
    variables: &[Variable],
    passed: &[Passed],
    sizes: &mut Vec<usize>,
) -> Result<Vec<usize>, AllocError>
    ensures sizes { OnOk result (sizes.new.items ≡ sizes.old.items ++ Calls.shared_sizes variables.now) }
    ensures named { IfOk result (λ r. (v : ℕ) → get_or r.items v (length sizes.new.items)
        ≡ named_at variables.now (map passed_seen passed.now) (length sizes.old.items) v) }
{
    let count = longer(variables.len(), passed.len());
    let mut named = Vec::new(alloc);
    for place in 0..count {
        named.push(store_or(passed, place, sizes.len()))?;
        open(variables, place, sizes)?;
    }
    Ok(named)
}

// The same numbers.
fn copied(alloc: Global, values: &[usize]) -> Result<Vec<usize>, AllocError>
    ensures { IfOk result (λ r. r.items ≡ values.now) }
{
    let mut copy = Vec::new(alloc);
    copy.extend_from_slice(values)?;
    Ok(copy)
}

// The greater of two lengths.
fn longer(first: usize, second: usize) -> usize
    ensures first { first ≤ result }
    ensures second { second ≤ result }
{
    if first < second { second } else { first }
}

// The store that was passed, or else the new one.
fn store_or(passed: &[Passed], place: usize, next: usize) -> usize
    ensures { result ≡ Calls.store_or (slice_get (map passed_seen passed.now) place) next }
{
    match passed.get(place) {
        Some(Passed::Store(store)) => *store,
        Some(Passed::Value(_)) | None => next,
    }
}

// A local array that all instances share has a store of its own.
fn open(variables: &[Variable], place: usize, sizes: &mut Vec<usize>) -> Result<(), AllocError>
    ensures { OnOk result (sizes.new.items ≡ sizes.old.items ++ opened_by (slice_get variables.now place)) }
{
    let Some(variable) = variables.get(place) else {
        return Ok(());
    };
    match variable.holds {
        Holds::Local(ty, count) => match ty.rate {
            Rate::Uniform => sizes.push(count)?,
            Rate::Varying => {}
        },
        Holds::Value(_) | Holds::Given(_) => {}
    }
    Ok(())
}

// What a parameter of a rate is handed.
fn value_passed(variables: &[Variable], passed: &[Passed], rate: Rate, place: usize) -> u64
    ensures { result ≡ passed_at rate variables.now (map passed_seen passed.now) place }
{
    let (Some(variable), Some(Passed::Value(value))) = (variables.get(place), passed.get(place))
    else {
        return 0;
    };
    match variable.holds {
        Holds::Value(ty) => of_rate(rate, ty.rate, *value),
        Holds::Given(_) | Holds::Local(_, _) => 0,
    }
}

// A value among those of one rate, 0 where it is of the other.
fn of_rate(rate: Rate, own: Rate, value: u64) -> u64
    ensures { result ≡ (if Calls.same_rate rate own then value else 0) }
{
    match (rate, own) {
        (Rate::Uniform, Rate::Uniform) | (Rate::Varying, Rate::Varying) => value,
        _ => 0,
    }
}

// The parameters of a rate.
fn values(
    alloc: Global,
    variables: &[Variable],
    passed: &[Passed],
    rate: Rate,
) -> Result<Vec<u64>, AllocError>
    ensures { IfOk result (λ r. values_of r.items ≡ passed_at rate variables.now (map passed_seen passed.now)) }
{
    let mut values = Vec::new(alloc);
    for place in 0..variables.len() {
        values.push(value_passed(variables, passed, rate, place))?;
    }
    Ok(values)
}
