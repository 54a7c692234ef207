//! What an access asked for.
ghost use Rattle.std.specs.Prelude.{◌≡◌};
ghost use Rattle.isp_machine.specs.Seen.{seen_conf};
ghost use Rattle.isp_outside.specs.Asked.{asked_by, by_scalar, by_vector, outside_of};

use crate::access::{each, packed, row, shared};
use isp_code::{Instr, ScalarInstr, VectorInstr};
use isp_machine::Machine;
use isp_verify::Verified;

/// An access of an array, as an instance asked for it.
#[derive(Clone, Copy, Debug, PartialEq, Eq)]
pub struct Outside {
    /// The index.
    pub index: i128,
    /// How many elements after the index: lanes that read or store elements in a row share one index.
    pub after: usize,
    /// How many elements the array has, or each instance's own.
    pub size: usize,
}

/// What an instance asks for in the instruction before which a machine stands, as after a trap; `code` is the code of the machine.
/// None where that instruction is no access of an array.
pub fn asked_for<const N: usize>(
    code: &Verified,
    machine: &Machine<'_, N>,
    instance: usize,
) -> Option<Outside>
    requires { machine.now.code ≡ code.now }
    ensures { result ≡ outside_of machine.now.code (seen_conf machine.now) instance }
{
    let spot = machine.spot();
    let functions = code.code().functions();
    if spot.function < functions.len() && spot.instr < functions[spot.function].code.len() {
        by_instr(
            machine,
            &functions[spot.function].code[spot.instr],
            instance,
        )
    } else {
        None
    }
}

fn by_instr<const N: usize>(
    machine: &Machine<'_, N>,
    instr: &Instr,
    instance: usize,
) -> Option<Outside>
    ensures { result ≡ asked_by machine.now.code (seen_conf machine.now) instance instr.now }
{
    match instr {
        Instr::Scalar { instr, .. } => by_scalar(machine, instr),
        Instr::Vector { instr, .. } => by_vector(machine, instr, instance),
        Instr::Store { array, index, .. } => shared(machine, *array, *index),
        Instr::Scatter { array, indices, .. } => each(machine, *array, *indices, instance),
        Instr::StoreRun { array, index, .. } => row(machine, *array, *index, instance),
        Instr::PackedStore {
            array,
            index,
            mask,
            ..
        }
        | Instr::PackedLoad {
            array,
            index,
            mask,
            ..
        } => packed(machine, *array, *index, *mask, instance),
        Instr::Mask { .. }
        | Instr::Divide { .. }
        | Instr::Clear { .. }
        | Instr::Jump { .. }
        | Instr::JumpIf { .. }
        | Instr::Say { .. }
        | Instr::PrintScalar(_)
        | Instr::PrintVector { .. }
        | Instr::Fail { .. }
        | Instr::Call(_)
        | Instr::Return(_) => None,
    }
}

fn by_scalar<const N: usize>(machine: &Machine<'_, N>, instr: &ScalarInstr) -> Option<Outside>
    ensures { result ≡ by_scalar machine.now.code (seen_conf machine.now) instr.now }
{
    match instr {
        ScalarInstr::Load { array, index, .. } => shared(machine, *array, *index),
        ScalarInstr::Constant(_)
        | ScalarInstr::Copy(_)
        | ScalarInstr::Convert(_)
        | ScalarInstr::Unary { .. }
        | ScalarInstr::Binary { .. }
        | ScalarInstr::Compare { .. }
        | ScalarInstr::Select { .. }
        | ScalarInstr::First(_)
        | ScalarInstr::Reduce { .. }
        | ScalarInstr::Extract { .. } => None,
    }
}

fn by_vector<const N: usize>(
    machine: &Machine<'_, N>,
    instr: &VectorInstr,
    instance: usize,
) -> Option<Outside>
    ensures { result ≡ by_vector machine.now.code (seen_conf machine.now) instance instr.now }
{
    match instr {
        VectorInstr::Gather { array, indices, .. } => each(machine, *array, *indices, instance),
        VectorInstr::LoadRun { array, index, .. } => row(machine, *array, *index, instance),
        VectorInstr::Copy { .. }
        | VectorInstr::Convert { .. }
        | VectorInstr::Unary { .. }
        | VectorInstr::Binary { .. }
        | VectorInstr::Compare { .. }
        | VectorInstr::Select { .. }
        | VectorInstr::Splat { .. }
        | VectorInstr::Index(_)
        | VectorInstr::Scan { .. }
        | VectorInstr::Exchange { .. }
        | VectorInstr::Shuffle { .. }
        | VectorInstr::ShuffleTwo { .. }
        | VectorInstr::Insert { .. } => None,
    }
}
