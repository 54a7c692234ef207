//! The instruction of a row.
ghost use Rattle.std.specs.Prelude.{◌≡◌, IsTrue};
ghost use Rattle.isp_asm.specs.reader.Kinds.{is_from_lanes, is_load, is_operator, is_packed, is_store, is_to_lanes, is_to_mask};
ghost use Rattle.isp_asm.specs.reader.Making as making;

use crate::head::Op;
use crate::row::Tail;
use isp_code::{Class, Instr, MaskInstr, Register, ScalarInstr, VectorInstr};

/// Stands where a row has fewer registers.
const NONE: Register = Register {
    class: Class::Scalar,
    number: 0,
};

fn at(registers: &[Register], place: usize) -> Register
    ensures { result ≡ making.nth registers.now place }
{
    match registers.get(place) {
        Some(register) => *register,
        None => NONE,
    }
}

fn number_of(tail: Tail) -> u32
    ensures { result ≡ making.number_of tail }
{
    match tail {
        Tail::Place(number) | Tail::Label(number) | Tail::Text(number) => number,
        Tail::Nothing | Tail::Number(_) | Tail::Back(_) => 0,
    }
}

fn constant_of(tail: Tail) -> i128
    ensures { result ≡ making.constant_of tail }
{
    match tail {
        Tail::Number(number) => number,
        _ => 0,
    }
}

fn result_of(tail: Tail) -> Option<Register>
    ensures { result ≡ making.result_of tail }
{
    match tail {
        Tail::Back(register) => register,
        _ => None,
    }
}

// What sets a scalar register.
fn scalar(d: Register, instr: ScalarInstr) -> Instr
    ensures { result ≡ Instr.Scalar d instr }
{
    Instr::Scalar { result: d, instr }
}

// What sets lanes of a vector register.
fn vector(d: Register, instr: VectorInstr) -> Instr
    ensures { result ≡ Instr.Vector d instr }
{
    Instr::Vector { result: d, instr }
}

// What sets a mask register.
fn mask(d: Register, instr: MaskInstr) -> Instr
    ensures { result ≡ Instr.Mask d instr }
{
    Instr::Mask { result: d, instr }
}

// What a scalar register is set to by a word that lanes have too.
fn scalar_operator(op: Op, registers: &[Register]) -> ScalarInstr
    requires { IsTrue (is_operator op) }
    ensures { result ≡ making.scalar_made op registers.now }
{
    let x = at(registers, 1);
    let y = at(registers, 2);
    match op {
        Op::Copy => ScalarInstr::Copy(x),
        Op::Convert => ScalarInstr::Convert(x),
        Op::Unary(op) => ScalarInstr::Unary { op, value: x },
        Op::Plain(op) => ScalarInstr::Binary {
            op,
            left: x,
            right: y,
        },
        Op::Compare(op) => ScalarInstr::Compare {
            op,
            left: x,
            right: y,
        },
        Op::Select => ScalarInstr::Select {
            test: x,
            if_true: y,
            if_false: at(registers, 3),
        },
        _ => unreachable!(),
    }
}

// What lanes are set to by a word that scalars have too.
fn vector_operator(op: Op, registers: &[Register]) -> VectorInstr
    requires { IsTrue (is_operator op) }
    ensures { result ≡ making.vector_made op registers.now }
{
    let x = at(registers, 1);
    let y = at(registers, 2);
    let z = at(registers, 3);
    match op {
        Op::Copy => VectorInstr::Copy { value: x, mask: y },
        Op::Convert => VectorInstr::Convert { value: x, mask: y },
        Op::Unary(op) => VectorInstr::Unary {
            op,
            value: x,
            mask: y,
        },
        Op::Plain(op) => VectorInstr::Binary {
            op,
            left: x,
            right: y,
            mask: z,
        },
        Op::Compare(op) => VectorInstr::Compare {
            op,
            left: x,
            right: y,
            mask: z,
        },
        Op::Select => VectorInstr::Select {
            test: x,
            if_true: y,
            if_false: z,
            mask: at(registers, 4),
        },
        _ => unreachable!(),
    }
}

// With the fewest registers such a word is of scalars.
fn operator(op: Op, registers: &[Register]) -> Instr
    requires { IsTrue (is_operator op) }
    ensures { result ≡ making.operator_made op registers.now }
{
    let d = at(registers, 0);
    if registers.len() == op.shape().fewest {
        scalar(d, scalar_operator(op, registers))
    } else {
        vector(d, vector_operator(op, registers))
    }
}

// What a scalar register is set to from lanes.
fn from_lanes(op: Op, registers: &[Register]) -> ScalarInstr
    requires { IsTrue (is_from_lanes op) }
    ensures { Instr.Scalar (making.nth registers.now 0) result ≡ making.made op registers.now Tail.Nothing }
{
    let x = at(registers, 1);
    let y = at(registers, 2);
    let z = at(registers, 3);
    match op {
        Op::First => ScalarInstr::First(x),
        Op::Reduce(op) => ScalarInstr::Reduce {
            op,
            vector: x,
            mask: y,
        },
        Op::Extract => ScalarInstr::Extract {
            vector: x,
            lane: y,
            mask: z,
        },
        _ => unreachable!(),
    }
}

// What lanes are set to from a scalar or from other lanes.
fn to_lanes(op: Op, registers: &[Register]) -> VectorInstr
    requires { IsTrue (is_to_lanes op) }
    ensures { Instr.Vector (making.nth registers.now 0) result ≡ making.made op registers.now Tail.Nothing }
{
    let x = at(registers, 1);
    let y = at(registers, 2);
    let z = at(registers, 3);
    let k = at(registers, 4);
    match op {
        Op::Splat => VectorInstr::Splat { value: x, mask: y },
        Op::Index => VectorInstr::Index(x),
        Op::Scan(op) => VectorInstr::Scan {
            op,
            value: x,
            mask: y,
        },
        Op::Exchange(op) => VectorInstr::Exchange {
            op,
            vector: x,
            by: y,
            mask: z,
        },
        Op::Shuffle => VectorInstr::Shuffle {
            vector: x,
            lanes: y,
            mask: z,
        },
        Op::ShuffleTwo => VectorInstr::ShuffleTwo {
            first: x,
            second: y,
            lanes: z,
            mask: k,
        },
        Op::Insert => VectorInstr::Insert {
            vector: x,
            lane: y,
            value: z,
            mask: k,
        },
        _ => unreachable!(),
    }
}

// What a mask register is set to.
fn to_mask(op: Op, registers: &[Register]) -> MaskInstr
    requires { IsTrue (is_to_mask op) }
    ensures { Instr.Mask (making.nth registers.now 0) result ≡ making.made op registers.now Tail.Nothing }
{
    let x = at(registers, 1);
    let y = at(registers, 2);
    match op {
        Op::MaskCopy => MaskInstr::Copy(x),
        Op::MaskBinary(op) => MaskInstr::Binary {
            op,
            left: x,
            right: y,
        },
        Op::Full => MaskInstr::Full,
        Op::Off => MaskInstr::Off,
        Op::Test => MaskInstr::Test { vector: x, mask: y },
        Op::Lowest => MaskInstr::Lowest(x),
        Op::Range => MaskInstr::Range { first: x, end: y },
        _ => unreachable!(),
    }
}

// What loads.
fn load(op: Op, registers: &[Register], place: u32) -> Instr
    requires { IsTrue (is_load op) }
    ensures { result ≡ making.made op registers.now (Tail.Place place) }
{
    let d = at(registers, 0);
    let array = at(registers, 1);
    let index = at(registers, 2);
    let mask = at(registers, 3);
    match op {
        Op::Load => scalar(
            d,
            ScalarInstr::Load {
                array,
                index,
                mask,
                place,
            },
        ),
        Op::Gather => vector(
            d,
            VectorInstr::Gather {
                array,
                indices: index,
                mask,
                place,
            },
        ),
        Op::LoadRun => vector(
            d,
            VectorInstr::LoadRun {
                array,
                index,
                mask,
                place,
            },
        ),
        _ => unreachable!(),
    }
}

// What stores.
fn store(op: Op, registers: &[Register], place: u32) -> Instr
    requires { IsTrue (is_store op) }
    ensures { result ≡ making.made op registers.now (Tail.Place place) }
{
    let array = at(registers, 0);
    let index = at(registers, 1);
    let value = at(registers, 2);
    let mask = at(registers, 3);
    match op {
        Op::Store => Instr::Store {
            array,
            index,
            value,
            mask,
            place,
        },
        Op::Scatter => Instr::Scatter {
            array,
            indices: index,
            value,
            mask,
            place,
        },
        Op::StoreRun => Instr::StoreRun {
            array,
            index,
            value,
            mask,
            place,
        },
        _ => unreachable!(),
    }
}

// What stores or loads the lanes of a mask one after the other.
fn packed(op: Op, registers: &[Register], place: u32) -> Instr
    requires { IsTrue (is_packed op) }
    ensures { result ≡ making.made op registers.now (Tail.Place place) }
{
    let count = at(registers, 0);
    let array = at(registers, 1);
    let index = at(registers, 2);
    let z = at(registers, 3);
    let mask = at(registers, 4);
    match op {
        Op::PackedLoad => Instr::PackedLoad {
            count,
            array,
            index,
            result: z,
            mask,
            place,
        },
        Op::PackedStore => Instr::PackedStore {
            count,
            array,
            index,
            value: z,
            mask,
            place,
        },
        _ => unreachable!(),
    }
}

/// The instruction with this word, these registers and this ending.
pub(crate) fn assemble(op: Op, registers: &[Register], tail: Tail) -> Instr
    ensures { result ≡ making.made op registers.now tail }
{
    let d = at(registers, 0);
    let x = at(registers, 1);
    let y = at(registers, 2);
    let z = at(registers, 3);
    let number = number_of(tail);
    match op {
        Op::Const => scalar(d, ScalarInstr::Constant(constant_of(tail))),
        Op::Copy | Op::Convert | Op::Unary(_) | Op::Plain(_) | Op::Compare(_) | Op::Select =>
            operator(op, registers),
        Op::Divide(op) => Instr::Divide {
            op,
            result: d,
            dividend: x,
            divisor: y,
            mask: z,
            place: number,
        },
        Op::First | Op::Reduce(_) | Op::Extract => scalar(d, from_lanes(op, registers)),
        Op::Load | Op::Gather | Op::LoadRun => load(op, registers, number),
        Op::Store | Op::Scatter | Op::StoreRun => store(op, registers, number),
        Op::PackedLoad | Op::PackedStore => packed(op, registers, number),
        Op::Splat
        | Op::Index
        | Op::Scan(_)
        | Op::Exchange(_)
        | Op::Shuffle
        | Op::ShuffleTwo
        | Op::Insert => vector(d, to_lanes(op, registers)),
        Op::MaskCopy | Op::MaskBinary(_) | Op::Full | Op::Off | Op::Test | Op::Lowest | Op::Range =>
            mask(d, to_mask(op, registers)),
        Op::Clear => Instr::Clear { array: d, mask: x },
        Op::Jump => Instr::Jump { target: number },
        Op::JumpIf(test) => Instr::JumpIf {
            test,
            register: d,
            target: number,
        },
        Op::Say => Instr::Say { text: number },
        Op::PrintScalar => Instr::PrintScalar(d),
        Op::PrintVector => Instr::PrintVector { vector: d, mask: x },
        Op::Fail => Instr::Fail {
            mask: d,
            place: number,
        },
        Op::Return => Instr::Return(result_of(tail)),
    }
}
