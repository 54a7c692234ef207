//! Kinds of instructions.
ghost use Rattle.std.specs.Prelude.{◌≡◌, ◌<◌};
ghost use Rattle.isp_traces.specs.Kinds.{divided, kind_of, name_of, number_of, scalar_kind, vector_kind};

use isp_code::{Class, Instr, ScalarInstr, VectorInstr};

/// What an instruction is for, as who reads code text groups them.
#[derive(Clone, Copy, Debug, PartialEq, Eq)]
pub enum Kind {
    /// Writes a scalar that it computes.
    Scalars,
    /// Writes a vector that it computes.
    Vectors,
    /// Reads or writes an array.
    Memory,
    /// Writes a mask.
    Masks,
    /// Jumps, or does not.
    Jumps,
    /// Calls a function or goes back.
    Calls,
    /// Writes to the output.
    Output,
    /// Traps where an assertion does not hold.
    Asserts,
}

impl Kind {
    /// How many kinds there are.
    pub const COUNT: usize = 8;

    /// Every kind, in the order in which they are shown.
    pub const ALL: [Kind; 8] = [
        Kind::Scalars,
        Kind::Vectors,
        Kind::Memory,
        Kind::Masks,
        Kind::Jumps,
        Kind::Calls,
        Kind::Output,
        Kind::Asserts,
    ];

    /// Its place in `ALL`.
    pub fn number(self) -> usize
        ensures number { result ≡ number_of self }
        ensures low { result < 8 }
    {
        match self {
            Kind::Scalars => 0,
            Kind::Vectors => 1,
            Kind::Memory => 2,
            Kind::Masks => 3,
            Kind::Jumps => 4,
            Kind::Calls => 5,
            Kind::Output => 6,
            Kind::Asserts => 7,
        }
    }

    /// Its word.
    pub fn name(self) -> &'static str
        ensures { result.now ≡ name_of self }
    {
        match self {
            Kind::Scalars => "scalars",
            Kind::Vectors => "vectors",
            Kind::Memory => "memory",
            Kind::Masks => "masks",
            Kind::Jumps => "jumps",
            Kind::Calls => "calls",
            Kind::Output => "output",
            Kind::Asserts => "asserts",
        }
    }
}

/// The kind of an instruction.
pub fn kind_of(instr: &Instr) -> Kind
    ensures { result ≡ kind_of instr.now }
{
    match instr {
        Instr::Scalar { instr, .. } => scalar_kind(instr),
        Instr::Vector { instr, .. } => vector_kind(instr),
        Instr::Mask { .. } => Kind::Masks,
        Instr::Divide { result, .. } => divided(result.class),
        Instr::Store { .. }
        | Instr::Scatter { .. }
        | Instr::StoreRun { .. }
        | Instr::PackedStore { .. }
        | Instr::PackedLoad { .. }
        | Instr::Clear { .. } => Kind::Memory,
        Instr::Jump { .. } | Instr::JumpIf { .. } => Kind::Jumps,
        Instr::Say { .. } | Instr::PrintScalar(_) | Instr::PrintVector { .. } => Kind::Output,
        Instr::Fail { .. } => Kind::Asserts,
        Instr::Call(_) | Instr::Return(_) => Kind::Calls,
    }
}

fn scalar_kind(instr: &ScalarInstr) -> Kind
    ensures { result ≡ scalar_kind instr.now }
{
    match instr {
        ScalarInstr::Load { .. } => Kind::Memory,
        _ => Kind::Scalars,
    }
}

fn vector_kind(instr: &VectorInstr) -> Kind
    ensures { result ≡ vector_kind instr.now }
{
    match instr {
        VectorInstr::Gather { .. } | VectorInstr::LoadRun { .. } => Kind::Memory,
        _ => Kind::Vectors,
    }
}

// A division is of lanes where it writes a vector, else of scalars.
fn divided(class: Class) -> Kind
    ensures { result ≡ divided class }
{
    match class {
        Class::Vector => Kind::Vectors,
        _ => Kind::Scalars,
    }
}
