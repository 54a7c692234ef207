//! Instructions that write a scalar register.
ghost use Rattle.std.specs.Prelude.{◌≡◌, ◌+◌, ◌<◌, ◌^◌, ℕ, List, Ok, Err, IfOk, IfErr, IfSome, if◌then◌else◌, true, slice_get, length};
ghost use Rattle.isp_base.specs.Types.{gang_width};
ghost use Rattle.isp_base.specs.Unary.{unary_bits};
ghost use Rattle.isp_base.specs.Values.{width, number, wrap, convert_bits, op_bits};
ghost use Rattle.isp_code.specs.Fine.{AllFine, IsThere};
ghost use Rattle.isp_code.specs.Lines.{plain_of, scalar_value};
ghost use Rattle.isp_base.specs.Truths.{is_true};
ghost use Rattle.isp_code.specs.Operands.{scalar_operands};
ghost use Rattle.isp_code.specs.Registers.{elem_of};
ghost use Rattle.isp_frames.specs.Moves.{ScalarIs, Goes, Fails};
ghost use Rattle.isp_frames.specs.Shapes.{Shaped};
ghost use Rattle.isp_frames.specs.Views.{conf_of, scalars_at};
ghost use Rattle.isp_machine.specs.reader.Instructions.{load_of};
ghost use Rattle.isp_machine.specs.Steps.{Works};
ghost use Rattle.isp_store.specs.Held.{Held, shapes};
ghost use Rattle.isp_base.specs.declared.types.Elem.{Elem};

use crate::cross::{extract, reduce};
use crate::operands::Access;
use crate::order::compare;
use isp_base::{Elem, Trap, TrapKind, UnaryOp, apply_nonzero, apply_unary, convert, wrap};
use isp_code::{Class, Instr, Plain, Register, ScalarInstr};
use isp_frames::frame::Frame;
use isp_frames::here::Here;
use isp_frames::kernels::{first_lane, plain_operator};
use isp_store::Arrays;

// A number, which the type may not have.
fn constant(elem: Elem, value: i128) -> u64
    ensures value { result ≡ wrap elem value }
    ensures fits { result < 2 ^ width elem }
{
    wrap(elem, value)
}

// A value as one of another type.
fn converted(from: Elem, to: Elem, bits: u64) -> u64
    ensures value { result ≡ convert_bits to (number from bits) }
    ensures fits { result < 2 ^ width to }
{
    convert(from, to, bits)
}

// An operator on one value.
fn unary(op: UnaryOp, elem: Elem, x: u64) -> u64
    ensures value { result ≡ unary_bits op elem x }
    ensures fits { result < 2 ^ width elem }
{
    apply_unary(op, elem, x)
}

// An operator on two values that has a result for all of them.
fn binary(op: Plain, elem: Elem, x: u64, y: u64) -> u64
    requires x_fits { x < 2 ^ width elem }
    requires y_fits { y < 2 ^ width elem }
    ensures value { result ≡ op_bits (plain_of op) elem x y }
    ensures fits { result < 2 ^ width elem }
{
    apply_nonzero(plain_operator(op), elem, x, y)
}

// One of two.
fn select<const N: usize>(
    here: &Here,
    frame: &Frame<N>,
    test: Register,
    x: Register,
    y: Register,
) -> u64
    requires shaped { Shaped here.now.routine frame.now }
    requires test { IsThere here.now.routine Class.Scalar test }
    requires x { IsThere here.now.routine Class.Scalar x }
    requires y { IsThere here.now.routine Class.Scalar y }
    ensures value { result ≡ (if is_true (scalars_at frame.now test.number) then scalars_at frame.now x.number else scalars_at frame.now y.number) }
    ensures fits { (t : Elem) → elem_of here.now.routine x ≡ t → elem_of here.now.routine y ≡ t → result < 2 ^ width t }
{
    if here.scalar(frame, test) != 0 {
        here.scalar(frame, x)
    } else {
        here.scalar(frame, y)
    }
}

/// What an instruction that cannot fail gives, where a sprint does it.
#[inline(always)]
pub(crate) fn sure_scalar<const N: usize>(
    here: &Here,
    frame: &Frame<N>,
    d: Register,
    instr: &ScalarInstr,
) -> Option<u64>
    requires gang { N ≡ gang_width here.now.code.gang }
    requires shaped { Shaped here.now.routine frame.now }
    requires operands { AllFine here.now.code here.now.routine (scalar_operands d instr.now) }
    ensures value { IfSome result (λ bits. (s : Held) → ScalarIs here.now s frame.now d instr.now (Ok bits)) }
    ensures fits { IfSome result (λ bits. bits < 2 ^ width (elem_of here.now.routine d)) }
{
    match instr {
        ScalarInstr::Constant(number) => Some(constant(here.elem(d), *number)),
        ScalarInstr::Copy(x) => Some(here.scalar(frame, *x)),
        ScalarInstr::Convert(x) => {
            let bits = here.scalar(frame, *x);
            Some(converted(here.elem(*x), here.elem(d), bits))
        }
        ScalarInstr::Binary { op, left, right } => {
            let x = here.scalar(frame, *left);
            let y = here.scalar(frame, *right);
            Some(binary(*op, here.elem(d), x, y))
        }
        ScalarInstr::Compare { op, left, right } => {
            let x = here.scalar(frame, *left);
            let y = here.scalar(frame, *right);
            Some(u64::from(compare(*op, here.elem(*left), x, y)))
        }
        _ => None,
    }
}

// What the instruction gives.
fn scalar_value<const N: usize>(
    here: &Here,
    frame: &Frame<N>,
    stores: &Arrays,
    d: Register,
    instr: ScalarInstr,
) -> Result<u64, Trap>
    requires works { Works N here.now (shapes stores.now) frame.now }
    requires operands { AllFine here.now.code here.now.routine (scalar_operands d instr) }
    ensures value { ScalarIs here.now stores.now frame.now d instr result }
    ensures fits { IfOk result (λ bits. bits < 2 ^ width (elem_of here.now.routine d)) }
{
    let elem = here.elem(d);
    match instr {
        ScalarInstr::Constant(number) => Ok(constant(elem, number)),
        ScalarInstr::Copy(x) => Ok(here.scalar(frame, x)),
        ScalarInstr::Convert(x) => Ok(converted(here.elem(x), elem, here.scalar(frame, x))),
        ScalarInstr::Unary { op, value } => Ok(unary(op, elem, here.scalar(frame, value))),
        ScalarInstr::Binary { op, left, right } => {
            let x = here.scalar(frame, left);
            let y = here.scalar(frame, right);
            Ok(binary(op, elem, x, y))
        }
        ScalarInstr::Compare { op, left, right } => {
            let x = here.scalar(frame, left);
            let y = here.scalar(frame, right);
            Ok(u64::from(compare(op, here.elem(left), x, y)))
        }
        ScalarInstr::Select {
            test,
            if_true,
            if_false,
        } => Ok(select(here, frame, test, if_true, if_false)),
        ScalarInstr::First(k) => Ok(first_lane(here.mask(frame, k)) as u64),
        ScalarInstr::Load {
            array,
            index,
            mask,
            place,
        } => {
            let access = Access {
                array,
                index,
                mask,
                place,
            };
            load(here, frame, stores, d, access)
        }
        ScalarInstr::Reduce { op, vector, mask } => Ok(reduce(here, frame, d, op, vector, mask)),
        ScalarInstr::Extract { vector, lane, mask } => Ok(extract(
            here, frame, d, vector, lane, mask,
        )),
    }
}

// An element.
fn load<const N: usize>(
    here: &Here,
    frame: &Frame<N>,
    stores: &Arrays,
    d: Register,
    access: Access,
) -> Result<u64, Trap>
    requires works { Works N here.now (shapes stores.now) frame.now }
    requires operands { AllFine here.now.code here.now.routine (scalar_operands d (load_of access)) }
    ensures value { ScalarIs here.now stores.now frame.now d (load_of access) result }
    ensures fits { IfOk result (λ bits. bits < 2 ^ width (elem_of here.now.routine d)) }
{
    let store = here.store(frame, stores, access.array);
    match stores.load(
        store,
        here.scalar(frame, access.index),
        here.mask(frame, access.mask),
    ) {
        Ok(bits) => Ok(bits),
        Err(trap) => Err(here.trap(TrapKind::Index, access.place, trap.instance)),
    }
}

/// Writes a scalar register, and goes on to the next instruction.
pub(crate) fn scalar<const N: usize>(
    here: &Here,
    frame: &mut Frame<N>,
    stores: &Arrays,
    d: Register,
    instr: ScalarInstr,
) -> Result<(), Trap>
    requires works { Works N here.now (shapes stores.now) frame.old }
    requires operands { AllFine here.now.code here.now.routine (scalar_operands d instr) }
    requires next { frame.old.pc + 1 < length here.now.routine.code }
    ensures ok { IfOk result (λ _. Goes here.now (Instr.Scalar d instr) stores.now frame.old stores.now frame.new) }
    ensures err { IfErr result (λ t. Fails here.now (Instr.Scalar d instr) stores.now frame.old t) }
    ensures same { IfErr result (λ t. frame.new ≡ frame.old) }
{
    let bits = scalar_value(here, frame, stores, d, instr)?;
    let _count = here.count();
    frame.set_scalar(d.number, bits);
    frame.next();
    Ok(())
}
