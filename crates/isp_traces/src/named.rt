//! The places that instructions name.
ghost use Rattle.std.specs.Prelude.{◌≡◌};
ghost use Rattle.isp_traces.specs.Named.{place_of, scalar_place, vector_place};

use isp_code::{Instr, ScalarInstr, VectorInstr};

/// The place that an instruction names, by its number: the one that its trap would have. None of an instruction without a trap.
pub(crate) fn place_of(instr: &Instr) -> Option<u32>
    ensures { result ≡ place_of instr.now }
{
    match instr {
        Instr::Scalar { instr, .. } => scalar_place(instr),
        Instr::Vector { instr, .. } => vector_place(instr),
        Instr::Divide { place, .. }
        | Instr::Store { place, .. }
        | Instr::Scatter { place, .. }
        | Instr::StoreRun { place, .. }
        | Instr::PackedStore { place, .. }
        | Instr::PackedLoad { place, .. }
        | Instr::Fail { place, .. } => Some(*place),
        Instr::Call(call) => Some(call.get().place),
        Instr::Mask { .. }
        | Instr::Clear { .. }
        | Instr::Jump { .. }
        | Instr::JumpIf { .. }
        | Instr::Say { .. }
        | Instr::PrintScalar(_)
        | Instr::PrintVector { .. }
        | Instr::Return(_) => None,
    }
}

fn scalar_place(instr: &ScalarInstr) -> Option<u32>
    ensures { result ≡ scalar_place instr.now }
{
    match instr {
        ScalarInstr::Load { place, .. } => Some(*place),
        _ => None,
    }
}

fn vector_place(instr: &VectorInstr) -> Option<u32>
    ensures { result ≡ vector_place instr.now }
{
    match instr {
        VectorInstr::Gather { place, .. } | VectorInstr::LoadRun { place, .. } => Some(*place),
        _ => None,
    }
}
