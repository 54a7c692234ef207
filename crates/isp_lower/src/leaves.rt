//! Instructions of a rate: on scalars, or on the lanes of a mask.
ghost use Rattle.std.specs.Prelude.{◌≡◌};
ghost use Rattle.isp_base.specs.Values.{number};
ghost use Rattle.isp_base.specs.declared.types.Rate.TheVariants.{Uniform, Varying};
ghost use Rattle.isp_code.specs.declared.instr.Instr.TheVariants as instr;
ghost use Rattle.isp_code.specs.declared.instr.VectorInstr.TheVariants as instr_vector;
ghost use Rattle.isp_lower_code.specs.Layout.{array_register, mask_register, register};
ghost use Rattle.isp_lower_code.specs.Instructions.{compare, compute, constant, convert, copy, operate, packed_load, packed_store, read, read_by, select, the_others, unary, where_so, write, write_by};
ghost use Rattle.isp_lower.specs.Written.{division_at};

use crate::line::Line;
use crate::sites::{Element, Target};
use isp_base::{BinOp, Compare, Elem, Rate, UnaryOp, number};
use isp_code::{Division, Instr, MaskInstr, MaskOp, Plain, Register, ScalarInstr, VectorInstr};
use isp_registers::{MaskNumber, PlaceNumber, RegisterNumber};

/// A scalar register.
pub fn scalar(x: RegisterNumber) -> Register
    ensures { result ≡ register Uniform x.number }
{
    Register::scalar(x.number)
}

/// A vector register.
pub fn vector(x: RegisterNumber) -> Register
    ensures { result ≡ register Varying x.number }
{
    Register::vector(x.number)
}

/// A mask register.
pub fn mask(k: MaskNumber) -> Register
    ensures { result ≡ mask_register k.number }
{
    Register::mask(k.number)
}

/// A register of a rate.
pub fn of_rate(rate: Rate, x: RegisterNumber) -> Register
    ensures { result ≡ register rate x.number }
{
    match rate {
        Rate::Uniform => scalar(x),
        Rate::Varying => vector(x),
    }
}

/// A register gets what another has.
pub fn copy(rate: Rate, to: RegisterNumber, from: RegisterNumber, k: MaskNumber) -> Instr
    ensures { result ≡ copy rate to.number from.number k.number }
{
    match rate {
        Rate::Uniform => Instr::Scalar {
            result: scalar(to),
            instr: ScalarInstr::Copy(scalar(from)),
        },
        Rate::Varying => Instr::Vector {
            result: vector(to),
            instr: VectorInstr::Copy {
                value: vector(from),
                mask: mask(k),
            },
        },
    }
}

/// The same as a value of the type of the register that is written.
pub fn convert(rate: Rate, to: RegisterNumber, from: RegisterNumber, k: MaskNumber) -> Instr
    ensures { result ≡ convert rate to.number from.number k.number }
{
    match rate {
        Rate::Uniform => Instr::Scalar {
            result: scalar(to),
            instr: ScalarInstr::Convert(scalar(from)),
        },
        Rate::Varying => Instr::Vector {
            result: vector(to),
            instr: VectorInstr::Convert {
                value: vector(from),
                mask: mask(k),
            },
        },
    }
}

/// An operator on one value.
pub fn unary(
    rate: Rate,
    operator: UnaryOp,
    to: RegisterNumber,
    from: RegisterNumber,
    k: MaskNumber,
) -> Instr
    ensures { result ≡ unary rate operator to.number from.number k.number }
{
    match rate {
        Rate::Uniform => Instr::Scalar {
            result: scalar(to),
            instr: ScalarInstr::Unary {
                op: operator,
                value: scalar(from),
            },
        },
        Rate::Varying => Instr::Vector {
            result: vector(to),
            instr: VectorInstr::Unary {
                op: operator,
                value: vector(from),
                mask: mask(k),
            },
        },
    }
}

/// Whether two values compare so.
pub fn compare(
    rate: Rate,
    comparison: Compare,
    to: RegisterNumber,
    left: RegisterNumber,
    right: RegisterNumber,
    k: MaskNumber,
) -> Instr
    ensures { result ≡ compare rate comparison to.number left.number right.number k.number }
{
    match rate {
        Rate::Uniform => Instr::Scalar {
            result: scalar(to),
            instr: ScalarInstr::Compare {
                op: comparison,
                left: scalar(left),
                right: scalar(right),
            },
        },
        Rate::Varying => Instr::Vector {
            result: vector(to),
            instr: VectorInstr::Compare {
                op: comparison,
                left: vector(left),
                right: vector(right),
                mask: mask(k),
            },
        },
    }
}

/// An operator on two values that has a result for each two.
pub fn compute(
    rate: Rate,
    operator: Plain,
    to: RegisterNumber,
    left: RegisterNumber,
    right: RegisterNumber,
    k: MaskNumber,
) -> Instr
    ensures { result ≡ compute rate operator to.number left.number right.number k.number }
{
    match rate {
        Rate::Uniform => Instr::Scalar {
            result: scalar(to),
            instr: ScalarInstr::Binary {
                op: operator,
                left: scalar(left),
                right: scalar(right),
            },
        },
        Rate::Varying => Instr::Vector {
            result: vector(to),
            instr: VectorInstr::Binary {
                op: operator,
                left: vector(left),
                right: vector(right),
                mask: mask(k),
            },
        },
    }
}

/// An operator on two values; a division names the place of its trap.
pub(crate) fn operate(
    operator: BinOp,
    left: RegisterNumber,
    right: RegisterNumber,
    target: Target,
    place: PlaceNumber,
) -> Line
    ensures { result ≡ operate target.ty.rate operator target.to.number left.number right.number target.site.mask.number place.number }
{
    let plain = match operator {
        BinOp::Add => Plain::Add,
        BinOp::Sub => Plain::Sub,
        BinOp::Mul => Plain::Mul,
        BinOp::And => Plain::And,
        BinOp::Or => Plain::Or,
        BinOp::Xor => Plain::Xor,
        BinOp::Shl => Plain::Shl,
        BinOp::Shr => Plain::Shr,
        BinOp::Min => Plain::Min,
        BinOp::Max => Plain::Max,
        BinOp::Div => {
            return divide(Division::Div, left, right, target, place);
        }
        BinOp::Rem => {
            return divide(Division::Rem, left, right, target, place);
        }
    };
    Line::new(compute(
        target.ty.rate,
        plain,
        target.to,
        left,
        right,
        target.site.mask,
    ))
}

/// A division, which names the place of its trap.
fn divide(
    division: Division,
    left: RegisterNumber,
    right: RegisterNumber,
    target: Target,
    place: PlaceNumber,
) -> Line
    ensures { result ≡ division_at division left right target place.number }
{
    let rate = target.ty.rate;
    let instr = Instr::Divide {
        op: division,
        result: of_rate(rate, target.to),
        dividend: of_rate(rate, left),
        divisor: of_rate(rate, right),
        mask: mask(target.site.mask),
        place: 0,
    };
    Line::naming(instr, place.number)
}

/// A number of an element type.
pub fn constant(to: RegisterNumber, elem: Elem, bits: u64) -> Instr
    ensures { result ≡ constant to.number elem bits }
{
    Instr::Scalar {
        result: scalar(to),
        instr: ScalarInstr::Constant(number(elem, bits)),
    }
}

/// The number of each lane.
pub fn index(to: RegisterNumber, k: MaskNumber) -> Instr
    ensures { result ≡ instr.Vector (register Varying to.number) (instr_vector.Index (mask_register k.number)) }
{
    Instr::Vector {
        result: vector(to),
        instr: VectorInstr::Index(mask(k)),
    }
}

/// One value in each lane.
pub fn splat(to: RegisterNumber, from: RegisterNumber, k: MaskNumber) -> Instr
    ensures { result ≡ instr.Vector (register Varying to.number) (instr_vector.Splat (register Uniform from.number) (mask_register k.number)) }
{
    Instr::Vector {
        result: vector(to),
        instr: VectorInstr::Splat {
            value: scalar(from),
            mask: mask(k),
        },
    }
}

/// An array.
pub fn array(x: RegisterNumber) -> Register
    ensures { result ≡ array_register x.number }
{
    Register::array(x.number)
}

/// An element of an array, or one for each lane.
pub fn read(
    rate: Rate,
    to: RegisterNumber,
    from: RegisterNumber,
    index: RegisterNumber,
    k: MaskNumber,
    place: PlaceNumber,
) -> Line
    ensures { result ≡ read rate to.number from.number index.number k.number place.number }
{
    let instr = match rate {
        Rate::Uniform => Instr::Scalar {
            result: scalar(to),
            instr: ScalarInstr::Load {
                array: array(from),
                index: scalar(index),
                mask: mask(k),
                place: 0,
            },
        },
        Rate::Varying => Instr::Vector {
            result: vector(to),
            instr: VectorInstr::Gather {
                array: array(from),
                indices: vector(index),
                mask: mask(k),
                place: 0,
            },
        },
    };
    Line::naming(instr, place.number)
}

/// An element of an array gets a value, or one for each lane.
pub fn write(
    rate: Rate,
    to: RegisterNumber,
    index: RegisterNumber,
    from: RegisterNumber,
    k: MaskNumber,
    place: PlaceNumber,
) -> Line
    ensures { result ≡ write rate to.number index.number from.number k.number place.number }
{
    let instr = match rate {
        Rate::Uniform => Instr::Store {
            array: array(to),
            index: scalar(index),
            value: scalar(from),
            mask: mask(k),
            place: 0,
        },
        Rate::Varying => Instr::Scatter {
            array: array(to),
            indices: vector(index),
            value: vector(from),
            mask: mask(k),
            place: 0,
        },
    };
    Line::naming(instr, place.number)
}

/// An element of an array, or one for each lane, by an index for each or as a run.
pub(crate) fn read_by(
    element: Element,
    to: RegisterNumber,
    from: RegisterNumber,
    k: MaskNumber,
    place: PlaceNumber,
) -> Line
    ensures { result ≡ read_by element.is_run element.ty.rate to.number from.number element.index.number k.number place.number }
{
    if element.is_run {
        let instr = Instr::Vector {
            result: vector(to),
            instr: VectorInstr::LoadRun {
                array: array(from),
                index: scalar(element.index),
                mask: mask(k),
                place: 0,
            },
        };
        Line::naming(instr, place.number)
    } else {
        read(element.ty.rate, to, from, element.index, k, place)
    }
}

/// An element of an array gets a value, or one for each lane, by an index for each or as a run.
pub(crate) fn write_by(
    element: Element,
    to: RegisterNumber,
    from: RegisterNumber,
    k: MaskNumber,
    place: PlaceNumber,
) -> Line
    ensures { result ≡ write_by element.is_run element.ty.rate to.number element.index.number from.number k.number place.number }
{
    if element.is_run {
        let instr = Instr::StoreRun {
            array: array(to),
            index: scalar(element.index),
            value: vector(from),
            mask: mask(k),
            place: 0,
        };
        Line::naming(instr, place.number)
    } else {
        write(element.ty.rate, to, element.index, from, k, place)
    }
}

/// An array gets zeros.
pub fn clear(to: RegisterNumber, k: MaskNumber) -> Instr
    ensures { result ≡ instr.Clear (array_register to.number) (mask_register k.number) }
{
    Instr::Clear {
        array: array(to),
        mask: mask(k),
    }
}

/// Members store consecutive elements from one on, and a register gets their count.
pub(crate) fn packed_store(
    to: RegisterNumber,
    into: RegisterNumber,
    first: RegisterNumber,
    from: RegisterNumber,
    k: MaskNumber,
    place: PlaceNumber,
) -> Line
    ensures { result ≡ packed_store to.number into.number first.number from.number k.number place.number }
{
    let instr = Instr::PackedStore {
        count: scalar(to),
        array: array(into),
        index: scalar(first),
        value: vector(from),
        mask: mask(k),
        place: 0,
    };
    Line::naming(instr, place.number)
}

/// Members load consecutive elements from one on into a register, and another one gets their count.
pub(crate) fn packed_load(
    to: RegisterNumber,
    from: RegisterNumber,
    first: RegisterNumber,
    into: RegisterNumber,
    k: MaskNumber,
    place: PlaceNumber,
) -> Line
    ensures { result ≡ packed_load to.number from.number first.number into.number k.number place.number }
{
    let instr = Instr::PackedLoad {
        count: scalar(to),
        array: array(from),
        index: scalar(first),
        result: vector(into),
        mask: mask(k),
        place: 0,
    };
    Line::naming(instr, place.number)
}

/// The second register where the first is true, else the third.
pub fn select(
    rate: Rate,
    to: RegisterNumber,
    test: RegisterNumber,
    then: RegisterNumber,
    otherwise: RegisterNumber,
    k: MaskNumber,
) -> Instr
    ensures { result ≡ select rate to.number test.number then.number otherwise.number k.number }
{
    match rate {
        Rate::Uniform => Instr::Scalar {
            result: scalar(to),
            instr: ScalarInstr::Select {
                test: scalar(test),
                if_true: scalar(then),
                if_false: scalar(otherwise),
            },
        },
        Rate::Varying => Instr::Vector {
            result: vector(to),
            instr: VectorInstr::Select {
                test: vector(test),
                if_true: vector(then),
                if_false: vector(otherwise),
                mask: mask(k),
            },
        },
    }
}

/// The lanes of a mask where a vector is true.
pub fn where_so(to: MaskNumber, from: RegisterNumber, k: MaskNumber) -> Instr
    ensures { result ≡ where_so to.number from.number k.number }
{
    Instr::Mask {
        result: mask(to),
        instr: MaskInstr::Test {
            vector: vector(from),
            mask: mask(k),
        },
    }
}

/// The lanes of a mask that are not in another.
pub fn the_others(to: MaskNumber, k: MaskNumber, other: MaskNumber) -> Instr
    ensures { result ≡ the_others to.number k.number other.number }
{
    Instr::Mask {
        result: mask(to),
        instr: MaskInstr::Binary {
            op: MaskOp::AndNot,
            left: mask(k),
            right: mask(other),
        },
    }
}
