//! What a call begins with, and what it gives.
ghost use Rattle.std.specs.Prelude.{◌≡◌, ◌≤◌, ◌++◌, ℕ, IfOk, List, OnOk, [], get_or, length, map, option_map, slice_get};
ghost use Rattle.isp_base.specs.Maps.{lane_of};
ghost use Rattle.isp_base.specs.Sets.{Mask, flag_of};
ghost use Rattle.isp_typed.specs.Views.{function_of};
ghost use Rattle.isp_meaning.specs.Calls as Calls;
ghost use Rattle.isp_meaning.specs.State.{State, below};
ghost use Rattle.isp_gang_values.specs.Growing.{lanes_of, values_of};
ghost use Rattle.isp_gang_values.specs.Seen.{payload_of};
ghost use Rattle.isp_gang_run.specs.Entering.{each_at, each_given, named_at, one_at, opened_by};
ghost use Rattle.isp_gang_run.specs.Seen.{answer_in, frame_seen, passed_seen, variables_seen};

use crate::activation::Activation;
use crate::tasks::Passed;
use isp_base::Rate;
use isp_gang_values::computed::Computed;
use isp_gang_values::row::{Lanes, on, over};
use isp_gang_values::sets::{Active, WIDEST};
use isp_typed::{Holds, TypedFunction, Variable};
use std::alloc::{AllocError, Global};

impl<'a> Activation<'a> {
    /// A call of a function.
    pub fn begun(
        alloc: Global,
        function: &'a TypedFunction,
        passed: &[Passed],
        caller: &Activation<'_>,
        set: &Active,
    ) -> Result<Activation<'a>, AllocError>
        ensures frame { IfOk result (λ r. frame_seen r ≡ Calls.frame_of (function_of function.now) (map passed_seen passed.now)
            (frame_seen caller.now)) }
        ensures state { IfOk result (λ r. (s : State) → variables_seen r (below (length caller.now.sizes.items) s.arrays) s.out s.work
            ≡ Calls.begun (function_of function.now) (map passed_seen passed.now) (frame_seen caller.now) (flag_of set.now) s) }
    {
        let variables = function.variables.as_slice();
        let mut sizes = copied(alloc, caller.sizes.as_slice())?;
        let named = stores(alloc, variables, passed, &mut sizes)?;
        let uniforms = uniforms(alloc, variables, passed)?;
        let varying = varying(alloc, variables, passed, set)?;
        Ok(Activation {
            function: Some(function),
            named,
            sizes,
            uniforms,
            varying,
            own: Vec::new(alloc),
            result: 0,
            results: [0; WIDEST],
        })
    }

    /// What the call gives the members of a set.
    pub fn answered(&self, set: &Active) -> Computed
        ensures { (stores : ℕ → ℕ → ℕ) (out : List ℕ) (w : ℕ) → payload_of result
            ≡ Calls.answer_of (answer_in self.now.function) (flag_of set.now) (variables_seen self.now stores out w) }
    {
        match self.answer() {
            Some(ty) => match ty.rate {
                Rate::Uniform => Computed::One(self.result),
                Rate::Varying => Computed::Each(on(set, &self.results)),
            },
            None => Computed::One(0),
        }
    }
}

// The store of each variable: the one that was passed, or else the next new one. A local array that all instances share
// opens a store of its size.
fn stores(
    alloc: Global,
    variables: &[Variable],
    passed: &[Passed],
    sizes: &mut Vec<usize>,
) -> Result<Vec<usize>, AllocError>
    ensures sizes { OnOk result (sizes.new.items ≡ sizes.old.items ++ Calls.shared_sizes variables.now) }
    ensures named { IfOk result (λ r. (v : ℕ) → get_or r.items v (length sizes.new.items)
        ≡ named_at variables.now (map passed_seen passed.now) (length sizes.old.items) v) }
{
    let count = longer(variables.len(), passed.len());
    let mut named = Vec::new(alloc);
    for place in 0..count {
        named.push(store_or(passed, place, sizes.len()))?;
        open(variables, place, sizes)?;
    }
    Ok(named)
}

// The same numbers.
fn copied(alloc: Global, values: &[usize]) -> Result<Vec<usize>, AllocError>
    ensures { IfOk result (λ r. r.items ≡ values.now) }
{
    let mut copy = Vec::new(alloc);
    copy.extend_from_slice(values)?;
    Ok(copy)
}

// The greater of two lengths.
fn longer(first: usize, second: usize) -> usize
    ensures first { first ≤ result }
    ensures second { second ≤ result }
{
    if first < second { second } else { first }
}

// The store that was passed, or else the new one.
fn store_or(passed: &[Passed], place: usize, next: usize) -> usize
    ensures { result ≡ Calls.store_or (slice_get (map passed_seen passed.now) place) next }
{
    match passed.get(place) {
        Some(Passed::Store(store)) => *store,
        Some(Passed::Value(_)) | None => next,
    }
}

// A local array that all instances share has a store of its own.
fn open(variables: &[Variable], place: usize, sizes: &mut Vec<usize>) -> Result<(), AllocError>
    ensures { OnOk result (sizes.new.items ≡ sizes.old.items ++ opened_by (slice_get variables.now place)) }
{
    let Some(variable) = variables.get(place) else {
        return Ok(());
    };
    match variable.holds {
        Holds::Local(ty, count) => match ty.rate {
            Rate::Uniform => sizes.push(count)?,
            Rate::Varying => {}
        },
        Holds::Value(_) | Holds::Given(_) => {}
    }
    Ok(())
}

// What a uniform parameter is handed.
fn one_passed(variables: &[Variable], passed: &[Passed], place: usize) -> u64
    ensures { result ≡ one_at variables.now (map passed_seen passed.now) place }
{
    let (Some(variable), Some(Passed::Value(value))) = (variables.get(place), passed.get(place))
    else {
        return 0;
    };
    match variable.holds {
        Holds::Value(ty) => match ty.rate {
            Rate::Uniform => value.sole(),
            Rate::Varying => 0,
        },
        Holds::Given(_) | Holds::Local(_, _) => 0,
    }
}

// The value of a varying parameter, if it is one.
fn varying_passed(variables: &[Variable], passed: &[Passed], place: usize) -> Option<Computed>
    ensures { (a : Mask) → each_given a (option_map payload_of result) ≡ each_at variables.now (map passed_seen passed.now) a place }
{
    let (Some(variable), Some(Passed::Value(value))) = (variables.get(place), passed.get(place))
    else {
        return None;
    };
    match variable.holds {
        Holds::Value(ty) => match ty.rate {
            Rate::Uniform => None,
            Rate::Varying => Some(*value),
        },
        Holds::Given(_) | Holds::Local(_, _) => None,
    }
}

// What a varying parameter is handed: 0 in those that do not call.
fn each_passed(variables: &[Variable], passed: &[Passed], place: usize, set: &Active) -> Lanes
    ensures { lane_of result ≡ each_at variables.now (map passed_seen passed.now) (flag_of set.now) place }
{
    match varying_passed(variables, passed, place) {
        Some(value) => over(&value.spread(set), &[0; WIDEST]),
        None => [0; WIDEST],
    }
}

// The uniform parameters.
fn uniforms(
    alloc: Global,
    variables: &[Variable],
    passed: &[Passed],
) -> Result<Vec<u64>, AllocError>
    ensures { IfOk result (λ r. values_of r.items ≡ one_at variables.now (map passed_seen passed.now)) }
{
    let mut values = Vec::new(alloc);
    for place in 0..variables.len() {
        values.push(one_passed(variables, passed, place))?;
    }
    Ok(values)
}

// The varying parameters.
fn varying(
    alloc: Global,
    variables: &[Variable],
    passed: &[Passed],
    set: &Active,
) -> Result<Vec<Lanes>, AllocError>
    ensures { IfOk result (λ r. lanes_of r.items ≡ each_at variables.now (map passed_seen passed.now) (flag_of set.now)) }
{
    let mut values = Vec::new(alloc);
    for place in 0..variables.len() {
        values.push(each_passed(variables, passed, place, set))?;
    }
    Ok(values)
}
