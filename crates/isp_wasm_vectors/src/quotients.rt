//! Quotients and remainders: those of the magnitudes, with the sign put back.
ghost use Rattle.std.specs.Prelude.{◌≡◌, ◌++◌, OnOk};
ghost use Rattle.isp_wasm.specs.Templates as templates;
ghost use Rattle.isp_wasm.specs.Templates.{each};
ghost use Rattle.isp_wasm_binary.specs.Instructions.{code_bytes, expr_bytes};
ghost use Rattle.isp_wasm_binary.specs.Named as named;
ghost use Rattle.isp_wasm_write.specs.Operands.{operand_expr};
ghost use Rattle.isp_wasm_write.specs.Settings.{setting};
ghost use Rattle.isp_wasm_vectors.specs.reader.Quotients as quotients;

use crate::cells::{begin_lane, end_lane};
use crate::loops::{Who, begin_member, fault};
use crate::parts::{lane, lanes, value};
use isp_base::{Elem, UnaryOp};
use isp_code::{Division, Register};
use isp_wasm_binary as binary;
use isp_wasm_binary::{Binary, Bytes, Size, Test, Unary};
use isp_wasm_write::{Kernel, Operand, Place, Refusal, below, size_of, unary};
use std::alloc::AllocError;

/// A quotient or a remainder of two values, and the place of the trap where the divisor is 0.
#[derive(Clone, Copy)]
pub(crate) struct Quotient {
    pub op: Division,
    pub elem: Elem,
    pub dividend: Operand,
    pub divisor: Operand,
    pub place: u32,
}

/// Where it goes.
#[derive(Clone, Copy)]
pub(crate) enum Target {
    Scalar(Register),
    /// A lane of a vector register.
    Lane(Register, u8),
}

/// Quotients or remainders of two registers, in the lanes of a mask.
#[derive(Clone, Copy)]
pub(crate) struct Quotients {
    pub op: Division,
    pub result: Register,
    pub dividend: Register,
    pub divisor: Register,
    pub mask: Register,
    pub place: u32,
}

fn division_of(_kernel: &Kernel, op: Division) -> binary::Division
    ensures { named.division result ≡ templates.division_of (setting _kernel.now) op }
{
    match op {
        Division::Div => binary::Division::DivU,
        Division::Rem => binary::Division::RemU,
    }
}

// Appends that a number of its own gets that of the magnitudes.
fn divided(kernel: &Kernel, out: &mut Bytes, quotient: &Quotient) -> Result<(), Refusal>
    ensures { OnOk result (out.new ≡ out.old ++ code_bytes (quotients.divided (setting kernel.now) quotient.now)) }
{
    let elem = quotient.elem;
    unary(out, UnaryOp::Absolute, elem, quotient.dividend)?;
    unary(out, UnaryOp::Absolute, elem, quotient.divisor)?;
    out.division(size_of(elem), division_of(kernel, quotient.op))?;
    kernel.set(out, Place::Spare(size_of(elem), 0))
}

// Appends whether that has the other sign.
fn turns_sign(kernel: &Kernel, out: &mut Bytes, quotient: &Quotient) -> Result<(), AllocError>
    ensures { OnOk result (out.new ≡ out.old ++ expr_bytes (quotients.turns_sign (setting kernel.now) quotient.now)) }
{
    let elem = quotient.elem;
    below(out, elem, quotient.dividend, Operand::Zero(elem))?;
    match quotient.op {
        Division::Div => {
            below(out, elem, quotient.divisor, Operand::Zero(elem))?;
            out.binary(Binary::Compare(Size::I32, Test::Ne))
        }
        Division::Rem => Ok(()),
    }
}

// Appends it with its sign.
fn signed(kernel: &Kernel, out: &mut Bytes, quotient: &Quotient) -> Result<(), Refusal>
    ensures { OnOk result (out.new ≡ out.old ++ expr_bytes (quotients.signed (setting kernel.now) quotient.now)) }
{
    let got = value(kernel, Place::Spare(size_of(quotient.elem), 0))?;
    unary(out, UnaryOp::Negate, quotient.elem, got)?;
    got.write(out)?;
    turns_sign(kernel, out, quotient)?;
    Ok(out.select()?)
}

// Before a value that a target gets.
fn begin_put(kernel: &Kernel, out: &mut Bytes, to: Target) -> Result<(), Refusal>
    ensures { OnOk result (out.new ≡ out.old ++ quotients.put_head (setting kernel.now) to) }
{
    match to {
        Target::Scalar(_) => Ok(()),
        Target::Lane(register, number) => begin_lane(kernel, out, register, number),
    }
}

// After it.
fn end_put(kernel: &Kernel, out: &mut Bytes, to: Target) -> Result<(), Refusal>
    ensures { OnOk result (out.new ≡ out.old ++ quotients.put_tail (setting kernel.now) to) }
{
    match to {
        Target::Scalar(register) => kernel.set(out, Place::Scalar(register.number)),
        Target::Lane(register, number) => end_lane(kernel, out, register, number),
    }
}

// Appends that a target gets it with its sign.
fn put(kernel: &Kernel, out: &mut Bytes, quotient: &Quotient, to: Target) -> Result<(), Refusal>
    ensures { OnOk result (out.new ≡ out.old ++ code_bytes (quotients.put_signed (setting kernel.now) quotient.now to)) }
{
    begin_put(kernel, out, to)?;
    signed(kernel, out, quotient)?;
    end_put(kernel, out, to)
}

// Appends whether the divisor is 0.
fn by_nought(out: &mut Bytes, quotient: &Quotient) -> Result<(), AllocError>
    ensures { OnOk result (out.new ≡ out.old ++ expr_bytes (quotients.by_nought quotient.now)) }
{
    quotient.divisor.write(out)?;
    out.unary(Unary::Eqz(size_of(quotient.elem)))
}

// Appends a quotient that goes to a target, where the divisor is not 0.
fn whole(kernel: &Kernel, out: &mut Bytes, quotient: &Quotient, to: Target) -> Result<(), Refusal>
    ensures { OnOk result (out.new ≡ out.old ++ code_bytes (quotients.whole (setting kernel.now) quotient.now to)) }
{
    divided(kernel, out, quotient)?;
    put(kernel, out, quotient, to)
}

// Appends a quotient that goes to a target, or traps.
fn quotient_to(
    kernel: &Kernel,
    out: &mut Bytes,
    quotient: &Quotient,
    to: Target,
    who: Who,
) -> Result<(), Refusal>
    ensures { OnOk result (out.new ≡ out.old ++ code_bytes (quotients.quotient_to (setting kernel.now) quotient.now to who)) }
{
    by_nought(out, quotient)?;
    out.begin_if()?;
    fault(kernel, out, 0, quotient.place, who)?;
    out.begin_else()?;
    whole(kernel, out, quotient, to)?;
    Ok(out.end()?)
}

/// Appends a quotient of two scalar registers.
pub(crate) fn scalar_quotient(
    kernel: &Kernel,
    out: &mut Bytes,
    all: &Quotients,
) -> Result<(), Refusal>
    ensures { OnOk result (out.new ≡ out.old ++ code_bytes (quotients.scalar_quotient (setting kernel.now) all.now)) }
{
    let quotient = Quotient {
        op: all.op,
        elem: kernel.elem(all.result),
        dividend: value(kernel, Place::Scalar(all.dividend.number))?,
        divisor: value(kernel, Place::Scalar(all.divisor.number))?,
        place: all.place,
    };
    quotient_to(
        kernel,
        out,
        &quotient,
        Target::Scalar(all.result),
        Who::Lowest(all.mask),
    )
}

// Appends a quotient of a lane of two vector registers, where the mask has it.
fn lane_quotient(
    kernel: &Kernel,
    out: &mut Bytes,
    all: &Quotients,
    number: u8,
) -> Result<(), Refusal>
    ensures { OnOk result (out.new ≡ out.old ++ code_bytes (quotients.lane_quotient (setting kernel.now) all.now number)) }
{
    let elem = kernel.elem(all.result);
    let quotient = Quotient {
        op: all.op,
        elem,
        dividend: lane(kernel, elem, all.dividend, number)?,
        divisor: lane(kernel, elem, all.divisor, number)?,
        place: all.place,
    };
    begin_member(kernel, out, all.mask, number)?;
    quotient_to(
        kernel,
        out,
        &quotient,
        Target::Lane(all.result, number),
        Who::Lane(number),
    )?;
    Ok(out.end()?)
}

/// Appends a quotient for each lane that the mask has.
#[tactic(auto, using(crate::proofs::Each::one_more))]
pub(crate) fn lane_quotients(
    kernel: &Kernel,
    out: &mut Bytes,
    all: &Quotients,
) -> Result<(), Refusal>
    ensures { OnOk result (out.new ≡ out.old ++ code_bytes (quotients.lane_quotients (setting kernel.now) all.now)) }
{
    for number in 0..lanes(kernel) {
        lane_quotient(kernel, out, all, number)?;
    }
    Ok(())
}
