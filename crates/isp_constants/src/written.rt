//! Which registers an instruction writes, and whether a fact stays so.
ghost use Rattle.std.specs.Prelude.{◌≡◌, Some};
ghost use Rattle.isp_constants.specs.reader.Passing.{breaks, enters, fills_scalar, fills_vector, is_vector, lines_keep, writes, writes_mask, writes_scalar, writes_vector};

use crate::fact::{Fact, Known};
use isp_code::{Class, Instr, Register};

fn is_vector(register: Register) -> bool
    ensures { result ≡ is_vector register }
{
    matches!(register.class, Class::Vector)
}

// Whether a result goes into a scalar.
fn fills_scalar(to: Option<Register>, number: u32) -> bool
    ensures { result ≡ fills_scalar to number }
{
    match to {
        None => false,
        Some(d) => !is_vector(d) && number == d.number,
    }
}

fn fills_vector(to: Option<Register>, number: u32) -> bool
    ensures { result ≡ fills_vector to number }
{
    match to {
        None => false,
        Some(d) => is_vector(d) && number == d.number,
    }
}

fn writes_scalar(instr: &Instr, number: u32) -> bool
    ensures { result ≡ writes_scalar instr.now number }
{
    match instr {
        Instr::Scalar { result, .. } => number == result.number,
        Instr::Divide { result, .. } => fills_scalar(Some(*result), number),
        Instr::PackedStore { count, .. } => number == count.number,
        Instr::PackedLoad { count, .. } => number == count.number,
        Instr::Call(call) => fills_scalar(call.get().result, number),
        _ => false,
    }
}

fn writes_vector(instr: &Instr, number: u32) -> bool
    ensures { result ≡ writes_vector instr.now number }
{
    match instr {
        Instr::Vector { result, .. } => number == result.number,
        Instr::Divide { result, .. } => fills_vector(Some(*result), number),
        Instr::PackedLoad { result, .. } => number == result.number,
        Instr::Call(call) => fills_vector(call.get().result, number),
        _ => false,
    }
}

fn writes_mask(instr: &Instr, number: u32) -> bool
    ensures { result ≡ writes_mask instr.now number }
{
    match instr {
        Instr::Mask { result, .. } => number == result.number,
        _ => false,
    }
}

/// Whether an instruction writes the register of which something is known.
pub(crate) fn writes(instr: &Instr, known: Known) -> bool
    ensures { result ≡ writes instr.now known }
{
    match known {
        Known::Scalar { register, .. } => writes_scalar(instr, register),
        Known::Vector { register, .. } => writes_vector(instr, register),
        Known::Full { mask } => writes_mask(instr, mask),
    }
}

// Whether an instruction jumps into the range of a fact.
fn enters(instr: &Instr, x: Fact) -> bool
    ensures { result ≡ enters instr.now x }
{
    match instr {
        Instr::Jump { target } => x.is_in(*target as usize),
        Instr::JumpIf { target, .. } => x.is_in(*target as usize),
        _ => false,
    }
}

// Whether a fact may not be so because of an instruction.
fn breaks(x: Fact, pc: usize, instr: &Instr) -> bool
    ensures { result ≡ breaks x pc instr.now }
{
    if x.is_in(pc) {
        writes(instr, x.known)
    } else {
        enters(instr, x)
    }
}

/// Whether a fact stays so: no instruction in its range writes its register, and none from elsewhere jumps there.
pub(crate) fn lines_keep(x: Fact, instrs: &[Instr]) -> bool
    ensures { result ≡ lines_keep x 0 instrs.now }
{
    for (pc, instr) in instrs.iter().enumerate() {
        if breaks(x, pc, instr) {
            return false;
        }
    }
    true
}
