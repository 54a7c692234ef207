//! Calls of other functions of the module.
ghost use Rattle.std.specs.Prelude.{◌≡◌, ◌++◌, ◌+◌, ◌∷◌, ◌≤◌, [], suc, OnOk, IfOk, length};
ghost use Rattle.std.specs.List.{flat_map};
ghost use Rattle.isp_wasm_meaning.specs.Syntax as wasm;
ghost use Rattle.isp_wasm.specs.Places as places;
ghost use Rattle.isp_wasm.specs.Templates as templates;
ghost use Rattle.isp_wasm.specs.Templates.{each};
ghost use Rattle.isp_wasm_binary.specs.Instructions.{hosts, code_bytes, expr_bytes, result_bytes};
ghost use Rattle.isp_wasm_write.specs.Settings.{setting};
ghost use Rattle.isp_wasm_module.specs.reader.Calls as calls;

use isp_code::{Call, Class, Register};
use isp_wasm_binary::{Binary, Bytes, Size, Test, Whole};
use isp_wasm_vectors::{select_lanes, widened_mask};
use isp_wasm_write::{Kernel, Part, Place, Refusal, shape_of};

/// How many functions the host gives.
const HOSTS: usize = 6;

/// The most calls that may wait for another one.
const MOST_WAITING: u32 = 255;

// Appends a trap, kind 3, where as many calls run as may: of a place from one byte up to another.
fn guarded(
    kernel: &Kernel,
    out: &mut Bytes,
    mask: Register,
    span: (u32, u32),
) -> Result<(), Refusal>
    ensures { OnOk result (out.new ≡ out.old ++ code_bytes (calls.guarded (setting kernel.now) mask span.0 span.1)) }
{
    kernel.get(out, Place::Depth)?;
    out.const32(MOST_WAITING)?;
    out.binary(Binary::Compare(Size::I32, Test::LtU))?;
    out.begin_if()?;
    out.begin_else()?;
    kernel.fault_of_lowest(out, 3, span, mask)?;
    out.end()?;
    Ok(())
}

// The same, of a place by its number.
fn checked(kernel: &Kernel, out: &mut Bytes, mask: Register, place: u32) -> Result<(), Refusal>
    ensures { OnOk result (out.new ≡ out.old ++ code_bytes (calls.checked (setting kernel.now) mask place)) }
{
    let span = kernel.span(place)?;
    guarded(kernel, out, mask, span)
}

// ---- what is passed

// Appends so many parts of the mask of a call.
#[tactic(auto, using(crate::proofs::Lists::one_listed))]
fn mask_passed(kernel: &Kernel, out: &mut Bytes, mask: Register, parts: u32) -> Result<(), Refusal>
    ensures { OnOk result (out.new ≡ out.old ++ flat_map expr_bytes (templates.listed (setting kernel.now) parts (templates.mask_local (setting kernel.now) mask))) }
{
    for part in 0..parts {
        kernel.get(out, Place::Mask(mask.number, part))?;
    }
    Ok(())
}

// Appends how many calls wait for the one that is called, and where its arrays lie.
fn depth_passed(kernel: &Kernel, out: &mut Bytes) -> Result<(), Refusal>
    ensures { OnOk result (out.new ≡ out.old ++ (expr_bytes (templates.plus (setting kernel.now) (templates.waiting_calls (setting kernel.now)) 1) ++ expr_bytes (wasm.Local ((setting kernel.now).local places.Top)))) }
{
    kernel.get(out, Place::Depth)?;
    out.const32(1)?;
    out.binary(Binary::Of(Size::I32, Whole::Add))?;
    kernel.get(out, Place::Top)
}

// Appends a part of a vector, 0 in the lanes that do not call.
fn part_passed(
    kernel: &Kernel,
    out: &mut Bytes,
    mask: Register,
    vector: Register,
    part: u8,
) -> Result<(), Refusal>
    ensures { OnOk result (out.new ≡ out.old ++ expr_bytes (templates.part_under (setting kernel.now) mask vector part)) }
{
    kernel.get(out, Place::Vector(vector.number, u32::from(part)))?;
    Part::Zero.write(out)?;
    widened_mask(kernel, out, shape_of(kernel.elem(vector)), mask, part)?;
    Ok(out.bitselect()?)
}

// Appends so many parts of it.
#[tactic(auto, using(crate::proofs::Lists::one_listed))]
fn parts_passed(
    kernel: &Kernel,
    out: &mut Bytes,
    mask: Register,
    vector: Register,
    parts: u8,
) -> Result<(), Refusal>
    ensures { OnOk result (out.new ≡ out.old ++ flat_map expr_bytes (templates.listed (setting kernel.now) parts (templates.part_under (setting kernel.now) mask vector))) }
{
    for part in 0..parts {
        part_passed(kernel, out, mask, vector, part)?;
    }
    Ok(())
}

// Appends a vector register.
fn vector_passed(
    kernel: &Kernel,
    out: &mut Bytes,
    mask: Register,
    vector: Register,
) -> Result<(), Refusal>
    ensures { OnOk result (out.new ≡ out.old ++ flat_map expr_bytes (calls.vector_under (setting kernel.now) mask vector)) }
{
    parts_passed(kernel, out, mask, vector, kernel.parts_of(vector) as u8)
}

// Appends what a register has, as it is passed.
#[tactic(auto, using(crate::proofs::Lists::one_is, crate::proofs::Lists::two_are))]
fn passed(
    kernel: &Kernel,
    out: &mut Bytes,
    mask: Register,
    register: Register,
) -> Result<(), Refusal>
    ensures { OnOk result (out.new ≡ out.old ++ flat_map expr_bytes (templates.passed_of (setting kernel.now) mask register.class register)) }
{
    match register.class {
        Class::Scalar => kernel.get(out, Place::Scalar(register.number)),
        Class::Vector => vector_passed(kernel, out, mask, register),
        Class::Array => {
            kernel.get(out, Place::Base(register.number))?;
            kernel.get(out, Place::Count(register.number))
        }
        Class::Mask => Ok(()),
    }
}

// Appends what all of them have.
#[tactic(auto, using(crate::proofs::Lists::one_passed))]
fn all_passed(
    kernel: &Kernel,
    out: &mut Bytes,
    mask: Register,
    registers: &[Register],
) -> Result<(), Refusal>
    ensures { OnOk result (out.new ≡ out.old ++ flat_map expr_bytes (templates.passed_all (setting kernel.now) mask registers.now)) }
{
    for register in registers {
        passed(kernel, out, mask, *register)?;
    }
    Ok(())
}

// Appends all that a call passes.
fn arguments(kernel: &Kernel, out: &mut Bytes, call: &Call) -> Result<(), Refusal>
    ensures { OnOk result (out.new ≡ out.old ++ flat_map expr_bytes (templates.arguments_of (setting kernel.now) call.now)) }
{
    depth_passed(kernel, out)?;
    mask_passed(kernel, out, call.mask, kernel.mask_parts())?;
    all_passed(kernel, out, call.mask, call.arguments.as_slice())?;
    Ok(())
}

// ---- what comes back

// Appends that a scalar goes to its register.
fn scalar_taken(
    kernel: &Kernel,
    out: &mut Bytes,
    result_to: Option<Register>,
) -> Result<(), Refusal>
    ensures { OnOk result (out.new ≡ out.old ++ result_bytes (templates.result_local (setting kernel.now) result_to)) }
{
    let Some(register) = result_to else {
        return Ok(());
    };
    match register.class {
        Class::Vector => Ok(()),
        Class::Scalar | Class::Mask | Class::Array => {
            kernel.set(out, Place::Scalar(register.number))
        }
    }
}

// Appends that so many globals go to the locals of parts.
#[tactic(auto, using(crate::proofs::Lists::one_more))]
fn parts_taken(kernel: &Kernel, out: &mut Bytes, parts: u32) -> Result<(), Refusal>
    requires { parts ≤ 16 }
    ensures { OnOk result (out.new ≡ out.old ++ code_bytes (each parts (λ j. wasm.GetGlobal ((setting kernel.now).local (places.Fresh j)) (suc j)))) }
{
    for part in 0..parts {
        out.get_global(part + 1)?;
        kernel.set(out, Place::Fresh(part))?;
    }
    Ok(())
}

// Appends that a vector register's lanes are set to what is in the globals.
fn vector_taken(
    kernel: &Kernel,
    out: &mut Bytes,
    result_to: Register,
    mask: Register,
) -> Result<(), Refusal>
    ensures { OnOk result (out.new ≡ out.old ++ code_bytes (calls.vector_taken (setting kernel.now) result_to mask)) }
{
    parts_taken(kernel, out, kernel.parts_of(result_to))?;
    select_lanes(kernel, out, result_to, mask)
}

// Appends that a vector goes to its register.
fn lanes_taken(
    kernel: &Kernel,
    out: &mut Bytes,
    result_to: Option<Register>,
    mask: Register,
) -> Result<(), Refusal>
    ensures { OnOk result (out.new ≡ out.old ++ code_bytes (templates.take_result (setting kernel.now) result_to mask)) }
{
    let Some(register) = result_to else {
        return Ok(());
    };
    match register.class {
        Class::Vector => vector_taken(kernel, out, register, mask),
        Class::Scalar | Class::Mask | Class::Array => Ok(()),
    }
}

// The number of a function that others call: after the host's, and as many as the code has.
fn number_of(kernel: &Kernel, function: u32) -> Result<u32, Refusal>
    ensures { IfOk result (λ n. n ≡ hosts + (length kernel.now.code.routines + function)) }
{
    let number = HOSTS as u128 + kernel.code().functions().len() as u128 + u128::from(function);
    match u32::try_from(number) {
        Ok(number) => Ok(number),
        Err(_) => Err(Refusal::TooLong),
    }
}

/// Appends a call.
pub(crate) fn call_line(kernel: &Kernel, out: &mut Bytes, call: &Call) -> Result<(), Refusal>
    ensures { OnOk result (out.new ≡ out.old ++ code_bytes (templates.call_code (setting kernel.now) call.now)) }
{
    let number = number_of(kernel, call.function)?;
    checked(kernel, out, call.mask, call.place)?;
    arguments(kernel, out, call)?;
    out.call(number)?;
    scalar_taken(kernel, out, call.result)?;
    lanes_taken(kernel, out, call.result, call.mask)?;
    Ok(())
}
