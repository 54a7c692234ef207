//! Memory refused to arguments, answers and arrays, at each growth.
use crate::base::arguments::{array_of, push_number, signature};
use isp_base::{Argument, Array, Bound, Elem};
use isp_bind::{BindFault, answer, bind};
use isp_tests_support::{Hoard, Tried, sweep, sweep_call};
use std::alloc::Global;
use std::test::Fail;

fn has(array: &Array, items: &[u64]) -> bool {
    array.len() == items.len()
        && items.iter().enumerate().all(|(place, bits)| place < array.len()
            && array.at(place) == *bits)
}

/// Whether arguments are an array of these elements and a value of these bits.
pub(crate) fn holds(bound: &Bound, items: &[u64], bits: u64) -> bool {
    match bound.arguments.as_slice() {
        [Argument::Array(array), Argument::Value(value)] => {
            has(array, items) && value.bits == bits
        }
        _ => false,
    }
}

#[test]
fn memory_refused_to_arguments_and_answers(rt: HostRuntime) -> Result<(), Fail> {
    let alloc = rt.alloc();
    let signature = signature(&rt, alloc, "a:int32[] n:int32");
    sweep_call(alloc, "bind", || {
        match bind(alloc, &signature, "{\"a\":[1,2,3,4,5],\"n\":5}") {
            Ok(bound) => Tried::answered(holds(&bound, &[1, 2, 3, 4, 5], 5)),
            Err(fault) => Tried::failed(fault == BindFault::Memory),
        }
    })?;
    let arrays = [array_of(&rt, alloc, Elem::I32, &[2, 3, 4, 5, 6])];
    sweep_call(alloc, "answer", || {
        match answer(alloc, &signature, &arrays, None) {
            Ok(text) => {
                Tried::answered(text.as_str() == "{\"arrays\":{\"a\":[2,3,4,5,6]},\"result\":null}")
            }
            Err(_) => Tried::Refused,
        }
    })
}

// Whether an array has so many elements, each its place.
fn counts(array: &Array, length: usize) -> bool {
    array.len() == length
        && (0..length).all(|place| place < array.len() && array.at(place) == place as u64)
}

// One more element of an array whose room is used up.
fn pushed(alloc: Global, elem: Elem, hoard: &mut Hoard, bytes: usize) -> Result<Tried, Fail> {
    let mut array = Array::empty(alloc, elem);
    for number in 0..64u64 {
        push_number(&mut array, number as i128)?;
    }
    hoard.beside(bytes)?;
    let first = push_number(&mut array, 64);
    hoard.ample();
    if first.is_ok() {
        return Ok(Tried::answered(counts(&array, 65)));
    }
    let stays = counts(&array, 64);
    push_number(&mut array, 64)?;
    Ok(Tried::failed(stays && counts(&array, 65)))
}

#[test]
fn memory_refused_to_push(rt: HostRuntime) -> Result<(), Fail> {
    let alloc = rt.alloc();
    for elem in [Elem::I8, Elem::U16, Elem::I32, Elem::U64] {
        sweep(alloc, "push", |hoard, bytes| {
            pushed(alloc, elem, hoard, bytes)
        })?;
    }
    Ok(())
}
