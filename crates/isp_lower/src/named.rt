//! The number after the registers of a class that code names.
ghost use Rattle.std.specs.Prelude.{◌≡◌, ◌≤◌};
ghost use Rattle.isp_code.specs.Operands.{call_operands, mask_operands, operands, scalar_operands, vector_operands};
ghost use Rattle.isp_code.specs.Registers.{same_class};
ghost use Rattle.isp_lower_code.specs.Layout.{class_at};
ghost use Rattle.isp_lower_code.specs.Named.{behind_named, behind_one, behind_registers, registers_named};

use crate::line::Line;
use isp_base::Rate;
use isp_code::{Call, Class, Instr, MaskInstr, Register, ScalarInstr, VectorInstr};

/// The class of the registers of a rate.
pub(crate) fn class_at(rate: Rate) -> Class
    ensures { result ≡ class_at rate }
{
    match rate {
        Rate::Uniform => Class::Scalar,
        Rate::Varying => Class::Vector,
    }
}

/// Whether two classes are one.
fn same_class(a: Class, b: Class) -> bool
    ensures { result ≡ same_class a b }
{
    match (a, b) {
        (Class::Scalar, Class::Scalar)
        | (Class::Vector, Class::Vector)
        | (Class::Mask, Class::Mask)
        | (Class::Array, Class::Array) => true,
        _ => false,
    }
}

/// The number after a register of a class, and 0 of another one.
fn behind_one(class: Class, register: Register) -> usize
    ensures is { result ≡ behind_one class register }
    ensures few { result ≤ 4294967296 }
{
    if same_class(register.class, class) {
        register.number as usize + 1
    } else {
        0
    }
}

/// The number after those of some registers.
fn behind(class: Class, registers: &[Register]) -> usize
    ensures is { result ≡ behind_registers class registers.now }
    ensures few { result ≤ 4294967296 }
{
    let mut most = 0;
    for register in registers {
        most = most.max(behind_one(class, *register));
    }
    most
}

/// The number after those that an instruction names that writes a scalar.
fn behind_scalar(class: Class, d: Register, instr: ScalarInstr) -> usize
    ensures is { result ≡ behind_registers class (registers_named (scalar_operands d instr)) }
    ensures few { result ≤ 4294967296 }
{
    match instr {
        ScalarInstr::Constant(_) => behind(class, &[d]),
        ScalarInstr::Copy(x)
        | ScalarInstr::Convert(x)
        | ScalarInstr::First(x)
        | ScalarInstr::Unary { value: x, .. } => behind(class, &[d, x]),
        ScalarInstr::Binary {
            left: x,
            right: y,
            ..
        }
        | ScalarInstr::Compare {
            left: x,
            right: y,
            ..
        }
        | ScalarInstr::Reduce {
            vector: x,
            mask: y,
            ..
        } => behind(class, &[d, x, y]),
        ScalarInstr::Select {
            test: x,
            if_true: y,
            if_false: z,
        }
        | ScalarInstr::Load {
            array: x,
            index: y,
            mask: z,
            ..
        }
        | ScalarInstr::Extract {
            vector: x,
            lane: y,
            mask: z,
        } => behind(class, &[d, x, y, z]),
    }
}

/// Those that one names that writes a vector, of one or two others.
fn behind_vector(class: Class, d: Register, instr: VectorInstr) -> usize
    ensures is { result ≡ behind_registers class (registers_named (vector_operands d instr)) }
    ensures few { result ≤ 4294967296 }
{
    match instr {
        VectorInstr::Index(k) => behind(class, &[d, k]),
        VectorInstr::Copy { value: x, mask: k }
        | VectorInstr::Convert { value: x, mask: k }
        | VectorInstr::Splat { value: x, mask: k }
        | VectorInstr::Unary {
            value: x,
            mask: k,
            ..
        }
        | VectorInstr::Scan {
            value: x,
            mask: k,
            ..
        } => behind(class, &[d, x, k]),
        VectorInstr::Binary {
            left: x,
            right: y,
            mask: k,
            ..
        }
        | VectorInstr::Compare {
            left: x,
            right: y,
            mask: k,
            ..
        }
        | VectorInstr::Gather {
            array: x,
            indices: y,
            mask: k,
            ..
        }
        | VectorInstr::LoadRun {
            array: x,
            index: y,
            mask: k,
            ..
        }
        | VectorInstr::Exchange {
            vector: x,
            by: y,
            mask: k,
            ..
        }
        | VectorInstr::Shuffle {
            vector: x,
            lanes: y,
            mask: k,
        } => behind(class, &[d, x, y, k]),
        VectorInstr::Select {
            test: x,
            if_true: y,
            if_false: z,
            mask: k,
        }
        | VectorInstr::ShuffleTwo {
            first: x,
            second: y,
            lanes: z,
            mask: k,
        }
        | VectorInstr::Insert {
            vector: x,
            lane: y,
            value: z,
            mask: k,
        } => behind(class, &[d, x, y, z, k]),
    }
}

/// Those that one names that writes a mask.
fn behind_mask(class: Class, d: Register, instr: MaskInstr) -> usize
    ensures is { result ≡ behind_registers class (registers_named (mask_operands d instr)) }
    ensures few { result ≤ 4294967296 }
{
    match instr {
        MaskInstr::Full | MaskInstr::Off => behind(class, &[d]),
        MaskInstr::Copy(x) | MaskInstr::Lowest(x) => behind(class, &[d, x]),
        MaskInstr::Binary {
            left: x,
            right: y,
            ..
        }
        | MaskInstr::Test { vector: x, mask: y }
        | MaskInstr::Range { first: x, end: y } => behind(class, &[d, x, y]),
    }
}

/// Those that a call names.
fn behind_call(class: Class, call: &Call) -> usize
    ensures is { result ≡ behind_registers class (registers_named (call_operands call.now)) }
    ensures few { result ≤ 4294967296 }
{
    let passed = behind(class, call.arguments.as_slice()).max(behind(class, &[call.mask]));
    match call.result {
        None => passed,
        Some(d) => passed.max(behind(class, &[d])),
    }
}

/// Those that an instruction names.
pub(crate) fn behind_instr(class: Class, instr: &Instr) -> usize
    ensures is { result ≡ behind_registers class (registers_named (operands instr.now)) }
    ensures few { result ≤ 4294967296 }
{
    match instr {
        Instr::Scalar { result, instr } => behind_scalar(class, *result, *instr),
        Instr::Vector { result, instr } => behind_vector(class, *result, *instr),
        Instr::Mask { result, instr } => behind_mask(class, *result, *instr),
        Instr::Divide {
            result: d,
            dividend: x,
            divisor: y,
            mask: k,
            ..
        }
        | Instr::Store {
            array: d,
            index: x,
            value: y,
            mask: k,
            ..
        }
        | Instr::Scatter {
            array: d,
            indices: x,
            value: y,
            mask: k,
            ..
        }
        | Instr::StoreRun {
            array: d,
            index: x,
            value: y,
            mask: k,
            ..
        } => behind(class, &[*d, *x, *y, *k]),
        Instr::PackedStore {
            count: d,
            array: a,
            index: x,
            value: y,
            mask: k,
            ..
        }
        | Instr::PackedLoad {
            count: d,
            array: a,
            index: x,
            result: y,
            mask: k,
            ..
        } => behind(class, &[*d, *a, *x, *y, *k]),
        Instr::Clear { array: x, mask: k } | Instr::PrintVector { vector: x, mask: k } => {
            behind(class, &[*x, *k])
        }
        Instr::JumpIf { register: x, .. }
        | Instr::PrintScalar(x)
        | Instr::Fail { mask: x, .. }
        | Instr::Return(Some(x)) => behind(class, &[*x]),
        Instr::Jump { .. } | Instr::Say { .. } | Instr::Return(None) => 0,
        Instr::Call(call) => behind_call(class, call.get()),
    }
}

/// Those that code names.
pub(crate) fn behind_named(class: Class, code: &[Line]) -> usize
    ensures is { result ≡ behind_named class code.now }
    ensures few { result ≤ 4294967296 }
{
    let mut most = 0;
    for line in code {
        most = most.max(line.behind(class));
    }
    most
}
