//! Which masks an instruction has, and which lanes it writes.
ghost use Rattle.std.specs.Prelude.{◌≡◌, [], ◌∷◌, None, Some};
ghost use Rattle.isp_traces.specs.Operands.{divided_lanes, read_masks, under, written_lanes, written_mask};
ghost use Rattle.isp_traces.specs.reader.Listed.{listed};

use isp_code::{Class, Instr, JumpTest, MaskInstr, Register, ScalarInstr, VectorInstr};

/// The mask under which an instruction stands: K in the table of docs/MACHINE.md. None where it has none.
pub(crate) fn under(instr: &Instr) -> Option<Register>
    ensures { result ≡ under instr.now }
{
    match instr {
        Instr::Scalar { result, instr } => scalar_under(*result, instr),
        Instr::Vector { result, instr } => Some(vector_under(*result, instr)),
        Instr::Divide { mask, .. }
        | Instr::Store { mask, .. }
        | Instr::Scatter { mask, .. }
        | Instr::StoreRun { mask, .. }
        | Instr::PackedStore { mask, .. }
        | Instr::PackedLoad { mask, .. }
        | Instr::Clear { mask, .. }
        | Instr::PrintVector { mask, .. } => Some(*mask),
        Instr::Call(call) => Some(call.get().mask),
        Instr::Mask { .. }
        | Instr::Jump { .. }
        | Instr::JumpIf { .. }
        | Instr::Say { .. }
        | Instr::PrintScalar(_)
        | Instr::Fail { .. }
        | Instr::Return(_) => None,
    }
}

fn scalar_under(d: Register, instr: &ScalarInstr) -> Option<Register>
    ensures { result ≡ under (Instr.Scalar d instr.now) }
{
    match instr {
        ScalarInstr::Load { mask, .. }
        | ScalarInstr::Reduce { mask, .. }
        | ScalarInstr::Extract { mask, .. } => Some(*mask),
        ScalarInstr::Constant(_)
        | ScalarInstr::Copy(_)
        | ScalarInstr::Convert(_)
        | ScalarInstr::Unary { .. }
        | ScalarInstr::Binary { .. }
        | ScalarInstr::Compare { .. }
        | ScalarInstr::Select { .. }
        | ScalarInstr::First(_) => None,
    }
}

fn vector_under(d: Register, instr: &VectorInstr) -> Register
    ensures under { under (Instr.Vector d instr.now) ≡ Some result }
    ensures reads { read_masks (Instr.Vector d instr.now) ≡ result ∷ [] }
{
    match instr {
        VectorInstr::Index(mask) => *mask,
        VectorInstr::Copy { mask, .. }
        | VectorInstr::Convert { mask, .. }
        | VectorInstr::Unary { mask, .. }
        | VectorInstr::Binary { mask, .. }
        | VectorInstr::Compare { mask, .. }
        | VectorInstr::Select { mask, .. }
        | VectorInstr::Splat { mask, .. }
        | VectorInstr::Gather { mask, .. }
        | VectorInstr::LoadRun { mask, .. }
        | VectorInstr::Scan { mask, .. }
        | VectorInstr::Exchange { mask, .. }
        | VectorInstr::Shuffle { mask, .. }
        | VectorInstr::ShuffleTwo { mask, .. }
        | VectorInstr::Insert { mask, .. } => *mask,
    }
}

/// The masks that an instruction reads, from left to right.
#[derive(Clone, Copy)]
pub(crate) struct ReadMasks {
    pub(crate) first: Option<Register>,
    pub(crate) second: Option<Register>,
}

/// The masks that an instruction reads.
pub(crate) fn read_masks(instr: &Instr) -> ReadMasks
    ensures { listed result ≡ read_masks instr.now }
{
    match instr {
        Instr::Scalar { result, instr } => scalar_reads(*result, instr),
        Instr::Vector { result, instr } => one(vector_under(*result, instr)),
        Instr::Mask { result, instr } => mask_reads(*result, instr),
        Instr::Divide { mask, .. }
        | Instr::Store { mask, .. }
        | Instr::Scatter { mask, .. }
        | Instr::StoreRun { mask, .. }
        | Instr::PackedStore { mask, .. }
        | Instr::PackedLoad { mask, .. }
        | Instr::Clear { mask, .. }
        | Instr::PrintVector { mask, .. }
        | Instr::Fail { mask, .. } => one(*mask),
        Instr::JumpIf {
            test,
            register,
            target,
        } => test_reads(*test, *register, *target),
        Instr::Call(call) => one(call.get().mask),
        Instr::Jump { .. } | Instr::Say { .. } | Instr::PrintScalar(_) | Instr::Return(_) => none(),
    }
}

fn none() -> ReadMasks
    ensures { result ≡ record { first = None; second = None } }
{
    ReadMasks {
        first: None,
        second: None,
    }
}

fn one(mask: Register) -> ReadMasks
    ensures { result ≡ record { first = Some mask; second = None } }
{
    ReadMasks {
        first: Some(mask),
        second: None,
    }
}

fn scalar_reads(d: Register, instr: &ScalarInstr) -> ReadMasks
    ensures { listed result ≡ read_masks (Instr.Scalar d instr.now) }
{
    match instr {
        ScalarInstr::Load { mask, .. }
        | ScalarInstr::Reduce { mask, .. }
        | ScalarInstr::Extract { mask, .. } => one(*mask),
        ScalarInstr::First(mask) => one(*mask),
        ScalarInstr::Constant(_)
        | ScalarInstr::Copy(_)
        | ScalarInstr::Convert(_)
        | ScalarInstr::Unary { .. }
        | ScalarInstr::Binary { .. }
        | ScalarInstr::Compare { .. }
        | ScalarInstr::Select { .. } => none(),
    }
}

fn mask_reads(d: Register, instr: &MaskInstr) -> ReadMasks
    ensures { listed result ≡ read_masks (Instr.Mask d instr.now) }
{
    match instr {
        MaskInstr::Copy(mask) | MaskInstr::Lowest(mask) | MaskInstr::Test { mask, .. } => {
            one(*mask)
        }
        MaskInstr::Binary { left, right, .. } => ReadMasks {
            first: Some(*left),
            second: Some(*right),
        },
        MaskInstr::Full | MaskInstr::Off | MaskInstr::Range { .. } => none(),
    }
}

fn test_reads(test: JumpTest, register: Register, target: u32) -> ReadMasks
    ensures { listed result ≡ read_masks (Instr.JumpIf test register target) }
{
    match test {
        JumpTest::False | JumpTest::True => none(),
        JumpTest::Off | JumpTest::On | JumpTest::All => one(register),
    }
}

/// The mask that an instruction writes.
pub(crate) fn written_mask(instr: &Instr) -> Option<Register>
    ensures { result ≡ written_mask instr.now }
{
    match instr {
        Instr::Mask { result, .. } => Some(*result),
        _ => None,
    }
}

/// The vector that an instruction writes, and the mask in whose lanes it does.
#[derive(Clone, Copy)]
pub(crate) struct Written {
    pub(crate) vector: Register,
    pub(crate) mask: Register,
}

/// The lanes that an instruction writes.
pub(crate) fn written_lanes(instr: &Instr) -> Option<Written>
    ensures { result ≡ written_lanes instr.now }
{
    match instr {
        Instr::Vector { result, instr } => Some(Written {
            vector: *result,
            mask: vector_under(*result, instr),
        }),
        Instr::Divide { result, mask, .. } => divided_lanes(*result, *mask),
        Instr::PackedLoad { result, mask, .. } => Some(Written {
            vector: *result,
            mask: *mask,
        }),
        _ => None,
    }
}

fn divided_lanes(vector: Register, mask: Register) -> Option<Written>
    ensures { result ≡ divided_lanes vector.class vector mask }
{
    match vector.class {
        Class::Vector => Some(Written { vector, mask }),
        _ => None,
    }
}
