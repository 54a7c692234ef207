//! What is slow, and what is slow about an instruction.
ghost use Rattle.std.specs.Prelude.{◌≡◌, slice_get};
ghost use Rattle.isp_hints.specs.Accesses.{at, hint_of, vector_hint};

use isp_base::Span;
use isp_code::{Code, Instr, VectorInstr};

/// Why something is slow.
#[derive(Clone, Copy, Debug, PartialEq, Eq)]
pub enum Slow {
    /// An access whose elements are read one by one.
    Gathered,
    /// An access whose elements are written one by one.
    Scattered,
    /// The test of a loop that instances leave one by one, while the others wait.
    Parted,
    /// The range of a `foreach` whose last run leaves lanes off, for each step of the ranges before it.
    LeftOff,
}

/// Something that is slow, by its bytes in the source.
#[derive(Clone, Copy, Debug, PartialEq, Eq)]
pub struct Hint {
    pub slow: Slow,
    pub place: Span,
}

pub(crate) fn hint_of(code: &Code, instr: &Instr) -> Option<Hint>
    ensures { result ≡ hint_of code.now instr.now }
{
    match instr {
        Instr::Vector { instr, .. } => vector_hint(code, instr),
        Instr::Scatter { place, .. } => at_place(code, Slow::Scattered, *place),
        Instr::Scalar { .. }
        | Instr::Mask { .. }
        | Instr::Divide { .. }
        | Instr::Store { .. }
        | Instr::StoreRun { .. }
        | Instr::PackedStore { .. }
        | Instr::PackedLoad { .. }
        | Instr::Clear { .. }
        | Instr::Jump { .. }
        | Instr::JumpIf { .. }
        | Instr::Say { .. }
        | Instr::PrintScalar(_)
        | Instr::PrintVector { .. }
        | Instr::Fail { .. }
        | Instr::Call(_)
        | Instr::Return(_) => None,
    }
}

fn vector_hint(code: &Code, instr: &VectorInstr) -> Option<Hint>
    ensures { result ≡ vector_hint code.now instr.now }
{
    match instr {
        VectorInstr::Gather { place, .. } => at_place(code, Slow::Gathered, *place),
        VectorInstr::Copy { .. }
        | VectorInstr::Convert { .. }
        | VectorInstr::Unary { .. }
        | VectorInstr::Binary { .. }
        | VectorInstr::Compare { .. }
        | VectorInstr::Select { .. }
        | VectorInstr::Splat { .. }
        | VectorInstr::Index(_)
        | VectorInstr::LoadRun { .. }
        | VectorInstr::Scan { .. }
        | VectorInstr::Exchange { .. }
        | VectorInstr::Shuffle { .. }
        | VectorInstr::ShuffleTwo { .. }
        | VectorInstr::Insert { .. } => None,
    }
}

// At a place of the code, by its number.
fn at_place(code: &Code, slow: Slow, number: u32) -> Option<Hint>
    ensures { result ≡ at slow (slice_get code.now.places number) }
{
    let places = code.places();
    if (number as usize) < places.len() {
        let place = places[number as usize];
        Some(Hint { slow, place })
    } else {
        None
    }
}
