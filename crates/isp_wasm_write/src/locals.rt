//! The places of a function, in the order of its locals, and their names.
ghost use Rattle.std.specs.Prelude.{◌≡◌, ◌++◌, ◌+◌, ◌-◌, ◌<◌, ◌≤◌, ◌^◌, ◌∷◌, List, length, map, None, OnOk, IfOk, IfErr};
ghost use Rattle.isp_code.specs.declared.function.Param as params;
ghost use Rattle.isp_code.specs.Listing.{routine_of};
ghost use Rattle.isp_code.specs.Registers.{param_elems, table_of};
ghost use Rattle.isp_code.specs.declared.register.Class.TheVariants as classes;
ghost use Rattle.isp_wasm.specs.Locals.{row, vector_places, mask_places, array_places, own_places, name_of};
ghost use Rattle.isp_wasm.specs.Places as places;
ghost use Rattle.isp_wasm_meaning.specs.Syntax as wasm;
ghost use Rattle.isp_wasm_write.specs.Limits.{explains};
ghost use Rattle.isp_wasm_write.specs.declared.refusal.Refusal.TheVariants.{NoLocal};
ghost use Rattle.isp_wasm_write.specs.Places.{place_of};
ghost use Rattle.isp_wasm_write.specs.Settings.{given_places};
ghost use Rattle.isp_wasm_write.specs.reader.Given as by_caller;
ghost use Rattle.isp_wasm_write.specs.reader.Own as own;

use crate::kernel::{Caller, Place, name};
use crate::limits::vector_width;
use crate::refusal::Refusal;
use crate::types::{parts_for, shape_of};
use isp_base::Elem;
use isp_code::{Function, Param, ParamKind};
use isp_verify::Registers;
use isp_wasm_binary::{Shape, Size};
use std::alloc::{AllocError, Global};

// The parts of a vector.
#[tactic(auto, using(crate::proofs::Listed::row_step))]
fn push_parts(out: &mut Vec<Place>, vector: u32, parts: u32) -> Result<(), AllocError>
    ensures { OnOk result (map place_of out.new.items ≡ map place_of out.old.items ++ row parts (places.Vector vector)) }
{
    for part in 0..parts {
        out.push(Place::Vector(vector, part))?;
    }
    Ok(())
}

// The first parts of the mask of a call.
#[tactic(auto, using(crate::proofs::Listed::row_step))]
fn push_call_mask(out: &mut Vec<Place>, parts: u32) -> Result<(), AllocError>
    ensures { OnOk result (map place_of out.new.items ≡ map place_of out.old.items ++ row parts (places.Mask 0)) }
{
    for part in 0..parts {
        out.push(Place::Mask(0, part))?;
    }
    Ok(())
}

// What a call passes before its arguments: how many calls wait, where the next array lies, and its mask.
fn push_call(out: &mut Vec<Place>, caller: Caller, lanes: u32) -> Result<(), AllocError>
    requires { lanes ≤ 32 }
    ensures { OnOk result (map place_of out.new.items ≡ map place_of out.old.items ++ by_caller.call_places caller lanes) }
{
    match caller {
        Caller::Host => Ok(()),
        Caller::Function => {
            out.push(Place::Depth)?;
            out.push(Place::Top)?;
            push_call_mask(out, parts_for(lanes, Shape::I8x16))?;
            Ok(())
        }
    }
}

/// How many scalars, vectors and arrays come before a parameter.
#[derive(Clone, Copy)]
struct Before {
    scalars: u32,
    vectors: u32,
    arrays: u32,
}

// The locals of a parameter: a scalar, an array's address and count, the parts of a vector.
#[tactic(auto, using(crate::proofs::Passed::scalar_next, crate::proofs::Passed::array_next, crate::proofs::Passed::vector_next))]
fn push_param(
    out: &mut Vec<Place>,
    caller: Caller,
    lanes: u32,
    param: &Param,
    before: Before,
) -> Result<Before, AllocError>
    requires scalars { before.scalars + 1 < 2 ^ 32 }
    requires vectors { before.vectors + 1 < 2 ^ 32 }
    requires arrays { before.arrays + 1 < 2 ^ 32 }
    requires gang { lanes ≤ 32 }
    ensures pushed { IfOk result (λ b. (more : List params.Param) → map place_of out.new.items ++ by_caller.given_from caller lanes more b.scalars b.vectors b.arrays ≡ map place_of out.old.items ++ by_caller.given_from caller lanes (param.now ∷ more) before.scalars before.vectors before.arrays) }
    ensures scalars { IfOk result (λ b. b.scalars ≤ before.scalars + 1) }
    ensures vectors { IfOk result (λ b. b.vectors ≤ before.vectors + 1) }
    ensures arrays { IfOk result (λ b. b.arrays ≤ before.arrays + 1) }
{
    let mut next = before;
    match param.kind {
        ParamKind::Scalar => {
            out.push(Place::Scalar(before.scalars))?;
            next.scalars += 1;
        }
        ParamKind::Array => {
            out.push(Place::Base(before.arrays))?;
            out.push(Place::Count(before.arrays))?;
            next.arrays += 1;
        }
        ParamKind::Vector => {
            push_parts(out, before.vectors, vector_width(caller, lanes, param.elem))?;
            next.vectors += 1;
        }
    }
    Ok(next)
}

// The locals of all of them.
fn push_params(
    out: &mut Vec<Place>,
    caller: Caller,
    lanes: u32,
    params: &[Param],
) -> Result<(), AllocError>
    requires few { length params.now < 2 ^ 32 }
    requires gang { lanes ≤ 32 }
    ensures { OnOk result (map place_of out.new.items ≡ map place_of out.old.items ++ by_caller.given_from caller lanes params.now 0 0 0) }
{
    let mut before = Before {
        scalars: 0,
        vectors: 0,
        arrays: 0,
    };
    for param in params {
        before = push_param(out, caller, lanes, param, before)?;
    }
    Ok(())
}

// What is of use within one instruction.
#[tactic(auto, using(crate::proofs::Listed::row_step))]
fn push_spares(out: &mut Vec<Place>, parts: u32) -> Result<(), AllocError>
    ensures { OnOk result (map place_of out.new.items ≡ map place_of out.old.items ++ places.Counter ∷ places.Spare wasm.I32 0 ∷ places.Spare wasm.I32 1 ∷ places.Spare wasm.I64 0 ∷ row parts places.Fresh) }
{
    out.push(Place::Counter)?;
    out.push(Place::Spare(Size::I32, 0))?;
    out.push(Place::Spare(Size::I32, 1))?;
    out.push(Place::Spare(Size::I64, 0))?;
    for part in 0..parts {
        out.push(Place::Fresh(part))?;
    }
    Ok(())
}

// So many scalars, from a number on.
#[tactic(auto, using(crate::proofs::Listed::row_step))]
fn push_scalars(out: &mut Vec<Place>, first: u32, count: u32) -> Result<(), AllocError>
    requires { first + count < 2 ^ 32 }
    ensures { OnOk result (map place_of out.new.items ≡ map place_of out.old.items ++ row count (λ r. places.Scalar (first + r))) }
{
    for number in 0..count {
        out.push(Place::Scalar(first + number))?;
    }
    Ok(())
}

// The parts of all vectors.
fn push_vectors(out: &mut Vec<Place>, lanes: u32, vectors: &[Elem]) -> Result<(), AllocError>
    requires few { length vectors.now < 2 ^ 32 }
    requires gang { lanes ≤ 32 }
    ensures { OnOk result (map place_of out.new.items ≡ map place_of out.old.items ++ vector_places lanes vectors.now 0) }
{
    for (number, elem) in vectors.iter().enumerate() {
        push_parts(out, number as u32, parts_for(lanes, shape_of(*elem)))?;
    }
    Ok(())
}

// The two parts of each mask.
fn push_masks(out: &mut Vec<Place>, masks: u32) -> Result<(), AllocError>
    ensures { OnOk result (map place_of out.new.items ≡ map place_of out.old.items ++ mask_places masks 0) }
{
    for mask in 0..masks {
        out.push(Place::Mask(mask, 0))?;
        out.push(Place::Mask(mask, 1))?;
    }
    Ok(())
}

// How many of the scalar registers are parameters.
#[tactic(auto, using(crate::proofs::Listed::passed_is))]
fn passed(function: &Function, registers: &Registers) -> usize
    requires { registers.now ≡ table_of (routine_of function.now) }
    ensures { result ≡ length (param_elems classes.Scalar (routine_of function.now).params) }
{
    registers.scalars().len() - function.scalars.len()
}

// A number of registers, which has 32 bits.
fn small(count: usize) -> Result<u32, Refusal>
    ensures same { IfOk result (λ n. n ≡ count) }
    ensures refused { IfErr result (λ e. e ≡ NoLocal) }
{
    match u32::try_from(count) {
        Ok(count) => Ok(count),
        Err(_) => Err(Refusal::NoLocal),
    }
}

// What control needs, what an instruction needs, and the registers.
fn push_registers(
    out: &mut Vec<Place>,
    lanes: u32,
    function: &Function,
    registers: &Registers,
) -> Result<(), Refusal>
    requires registers { registers.now ≡ table_of (routine_of function.now) }
    requires gang { lanes ≤ 32 }
    ensures own { OnOk result (map place_of out.new.items ≡ map place_of out.old.items ++ own.register_places lanes (routine_of function.now)) }
    ensures refused { IfErr result (λ e. explains e None) }
{
    let vectors = registers.vectors();
    small(registers.scalars().len())?;
    small(vectors.len())?;
    let first = passed(function, registers) as u32;
    push_spares(out, parts_for(lanes, Shape::I64x2))?;
    push_scalars(out, first, function.scalars.len() as u32)?;
    push_vectors(out, lanes, vectors)?;
    push_masks(out, function.masks)?;
    Ok(())
}

// So many arrays, from a number on.
fn push_arrays(out: &mut Vec<Place>, first: u32, count: u32) -> Result<(), AllocError>
    requires { first + count < 2 ^ 32 }
    ensures { OnOk result (map place_of out.new.items ≡ map place_of out.old.items ++ array_places count first) }
{
    for number in 0..count {
        out.push(Place::Base(first + number))?;
        out.push(Place::Count(first + number))?;
    }
    Ok(())
}

// How many calls wait, where the next array lies, and those that the function opens.
fn push_last(
    out: &mut Vec<Place>,
    function: &Function,
    registers: &Registers,
) -> Result<(), Refusal>
    requires { registers.now ≡ table_of (routine_of function.now) }
    ensures own { OnOk result (map place_of out.new.items ≡ map place_of out.old.items ++ own.last_places (routine_of function.now)) }
    ensures refused { IfErr result (λ e. explains e None) }
{
    let passed = small(registers.passed())?;
    let opened = small(function.locals.len())?;
    small(passed as usize + opened as usize)?;
    out.push(Place::Depth)?;
    out.push(Place::Top)?;
    push_arrays(out, passed, opened)?;
    Ok(())
}

/// The places of what a caller passes.
pub(crate) fn given_places(
    alloc: Global,
    caller: Caller,
    lanes: u32,
    function: &Function,
) -> Result<Vec<Place>, Refusal>
    requires { lanes ≤ 32 }
    ensures places { IfOk result (λ v. map place_of v.items ≡ given_places caller lanes (routine_of function.now)) }
    ensures refused { IfErr result (λ e. explains e None) }
{
    small(function.params.len())?;
    let mut places = Vec::new(alloc);
    push_call(&mut places, caller, lanes)?;
    push_params(&mut places, caller, lanes, &function.params)?;
    Ok(places)
}

/// The places of the other locals.
pub(crate) fn own_places(
    alloc: Global,
    lanes: u32,
    function: &Function,
    registers: &Registers,
) -> Result<Vec<Place>, Refusal>
    requires registers { registers.now ≡ table_of (routine_of function.now) }
    requires gang { lanes ≤ 32 }
    ensures places { IfOk result (λ v. map place_of v.items ≡ own_places lanes (routine_of function.now)) }
    ensures refused { IfErr result (λ e. explains e None) }
{
    let mut places = Vec::new(alloc);
    push_registers(&mut places, lanes, function, registers)?;
    push_last(&mut places, function, registers)?;
    Ok(places)
}

// The name of each place.
fn push_names(names: &mut Vec<u64>, places: &[Place]) -> Result<(), Refusal>
    ensures names { OnOk result (names.new.items ≡ names.old.items ++ map name_of (map place_of places.now)) }
    ensures refused { IfErr result (λ e. explains e None) }
{
    for place in places {
        let Some(name) = name(*place) else {
            return Err(Refusal::NoLocal);
        };
        names.push(name)?;
    }
    Ok(())
}

/// The names of the places that are given, and of the others.
#[tactic(auto, using(crate::proofs::Listed::names_join))]
pub(crate) fn names_of(alloc: Global, given: &[Place], own: &[Place]) -> Result<Vec<u64>, Refusal>
    ensures names { IfOk result (λ v. v.items ≡ map name_of (map place_of given.now ++ map place_of own.now)) }
    ensures refused { IfErr result (λ e. explains e None) }
{
    let mut names = Vec::new(alloc);
    push_names(&mut names, given)?;
    push_names(&mut names, own)?;
    Ok(names)
}
