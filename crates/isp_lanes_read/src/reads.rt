//! Which lanes of vectors an instruction reads and writes.
ghost use Rattle.std.specs.Prelude.{◌≡◌, Some};
ghost use Rattle.isp_lanes_read.specs.Reads.{gives_lanes, is_pure, is_vector, mask_of, result_written, under, written};

use crate::table::{LaneSet, Reading};
use isp_code::{Class, Instr, Register, Returns, VectorInstr};

/// The lanes of a vector register that are in a mask register.
pub(crate) fn under(mask: Register, vector: Register) -> Reading
    ensures { result ≡ under mask vector }
{
    Reading {
        vector: vector.number,
        lanes: LaneSet::Mask(mask.number),
    }
}

/// Whether a register holds a value in each lane.
pub(crate) fn is_vector(register: Register) -> bool
    ensures { result ≡ is_vector register }
{
    matches!(register.class, Class::Vector)
}

/// Whether a function gives a value in each lane.
pub(crate) fn gives_lanes(returns: Returns) -> bool
    ensures { result ≡ gives_lanes returns }
{
    matches!(returns, Returns::Vector(_))
}

/// The mask under which a vector is written.
pub fn mask_of(instr: &VectorInstr) -> Register
    ensures { result ≡ mask_of instr.now }
{
    match *instr {
        VectorInstr::Copy { mask, .. } => mask,
        VectorInstr::Convert { mask, .. } => mask,
        VectorInstr::Unary { mask, .. } => mask,
        VectorInstr::Binary { mask, .. } => mask,
        VectorInstr::Compare { mask, .. } => mask,
        VectorInstr::Select { mask, .. } => mask,
        VectorInstr::Splat { mask, .. } => mask,
        VectorInstr::Index(mask) => mask,
        VectorInstr::Gather { mask, .. } => mask,
        VectorInstr::LoadRun { mask, .. } => mask,
        VectorInstr::Scan { mask, .. } => mask,
        VectorInstr::Exchange { mask, .. } => mask,
        VectorInstr::Shuffle { mask, .. } => mask,
        VectorInstr::ShuffleTwo { mask, .. } => mask,
        VectorInstr::Insert { mask, .. } => mask,
    }
}

/// Whether an instruction never traps.
pub(crate) fn is_pure(instr: &VectorInstr) -> bool
    ensures { result ≡ is_pure instr.now }
{
    !matches!(
        instr,
        VectorInstr::Gather { .. } | VectorInstr::LoadRun { .. }
    )
}

// The lanes of a register that is written, where it is a vector.
fn vector_written(mask: Register, to: Register) -> Option<Reading>
    ensures { result ≡ result_written mask (Some to) }
{
    if is_vector(to) {
        Some(under(mask, to))
    } else {
        None
    }
}

/// The vector that an instruction writes, and in which lanes; of a call its result.
pub fn written(instr: &Instr) -> Option<Reading>
    ensures { result ≡ written instr.now }
{
    match instr {
        Instr::Vector { result, instr } => Some(under(mask_of(instr), *result)),
        Instr::Divide { result, mask, .. } => vector_written(*mask, *result),
        Instr::PackedLoad { result, mask, .. } => Some(under(*mask, *result)),
        Instr::Call(call) => match call.get().result {
            Some(to) => vector_written(call.get().mask, to),
            None => None,
        },
        _ => None,
    }
}
