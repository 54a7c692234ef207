//! What an engine does not take.
ghost use Rattle.std.specs.Prelude.{◌≡◌, ◌+◌, ◌<◌, ◌≤◌, ◌^◌, length};
ghost use Rattle.isp_code.specs.Listing.{routine_of};
ghost use Rattle.isp_code.specs.Registers.{table_of};
ghost use Rattle.isp_wasm.specs.Locals.{vector_places, own_places};
ghost use Rattle.isp_wasm_write.specs.Limits.{limit_fault};
ghost use Rattle.isp_wasm_write.specs.Settings.{given_places};
ghost use Rattle.isp_wasm_write.specs.reader.Given as by_caller;

use crate::kernel::Caller;
use crate::refusal::Refusal;
use crate::types::{parts_for, shape_of};
use isp_base::Elem;
use isp_code::{Function, Param, ParamKind};
use isp_verify::Registers;
use isp_wasm_binary::Shape;

/// The most parameters that an engine takes.
const PARAMETERS: u128 = 1_000;

/// The most locals, the parameters among them.
const LOCALS: u128 = 50_000;

/// How many instructions have a number of 32 bits.
const INSTRUCTIONS: usize = 1 << 32;

/// How many locals a vector is that is passed.
pub(crate) fn vector_width(caller: Caller, lanes: u32, elem: Elem) -> u32
    requires { lanes ≤ 32 }
    ensures is { result ≡ by_caller.vector_width caller lanes elem }
    ensures few { result ≤ 16 }
{
    match caller {
        Caller::Host => 0,
        Caller::Function => parts_for(lanes, shape_of(elem)),
    }
}

// How many locals a parameter is.
fn param_width(caller: Caller, lanes: u32, param: &Param) -> u32
    requires { lanes ≤ 32 }
    ensures is { result ≡ by_caller.param_width caller lanes param.now.kind param.now.elem }
    ensures few { result ≤ 16 }
{
    match param.kind {
        ParamKind::Scalar => 1,
        ParamKind::Array => 2,
        ParamKind::Vector => vector_width(caller, lanes, param.elem),
    }
}

// How many locals the parameters are.
fn param_count(caller: Caller, lanes: u32, params: &[Param]) -> u128
    requires { lanes ≤ 32 }
    ensures is { result ≡ length (by_caller.given_from caller lanes params.now 0 0 0) }
    ensures few { result < 2 ^ 70 }
{
    let mut count = 0;
    for param in params {
        count += u128::from(param_width(caller, lanes, param));
    }
    count
}

// How many locals a call is besides.
fn call_width(caller: Caller, lanes: u32) -> u32
    requires { lanes ≤ 32 }
    ensures is { result ≡ length (by_caller.call_places caller lanes) }
    ensures few { result ≤ 18 }
{
    match caller {
        Caller::Host => 0,
        Caller::Function => 2 + parts_for(lanes, Shape::I8x16),
    }
}

// How many locals a caller passes.
fn given_count(caller: Caller, lanes: u32, function: &Function) -> u128
    requires { lanes ≤ 32 }
    ensures is { result ≡ length (given_places caller lanes (routine_of function.now)) }
    ensures few { result < 2 ^ 80 }
{
    u128::from(call_width(caller, lanes)) + param_count(caller, lanes, &function.params)
}

// How many parts vectors have.
fn part_count(lanes: u32, vectors: &[Elem]) -> u128
    requires { lanes ≤ 32 }
    ensures is { result ≡ length (vector_places lanes vectors.now 0) }
    ensures few { result < 2 ^ 70 }
{
    let mut count = 0;
    for elem in vectors {
        count += u128::from(parts_for(lanes, shape_of(*elem)));
    }
    count
}

// How many locals there are besides.
fn own_count(lanes: u32, function: &Function, registers: &Registers) -> u128
    requires registers { registers.now ≡ table_of (routine_of function.now) }
    requires gang { lanes ≤ 32 }
    ensures is { result ≡ length (own_places lanes (routine_of function.now)) }
    ensures few { result < 2 ^ 80 }
{
    let spares = 6 + u128::from(parts_for(lanes, Shape::I64x2));
    let scalars = function.scalars.len() as u128;
    let masks = 2 * u128::from(registers.masks());
    let arrays = 2 * function.locals.len() as u128;
    spares + scalars + part_count(lanes, registers.vectors()) + masks + arrays
}

/// What an engine does not take of a function.
pub fn limit_fault(
    caller: Caller,
    lanes: u32,
    function: &Function,
    registers: &Registers,
) -> Option<Refusal>
    requires registers { registers.now ≡ table_of (routine_of function.now) }
    requires gang { lanes ≤ 32 }
    ensures { result ≡ limit_fault caller lanes (routine_of function.now) }
{
    let given = given_count(caller, lanes, function);
    if given > PARAMETERS {
        return Some(Refusal::TooManyParameters);
    }
    if given + own_count(lanes, function, registers) > LOCALS {
        return Some(Refusal::TooManyLocals);
    }
    if function.code.len() >= INSTRUCTIONS {
        return Some(Refusal::TooLong);
    }
    None
}
