//! The operators on lanes, at the ends of each type, 0, 1 and their neighbours, under each mask: against those on one value.
ghost use Rattle.std.specs.Prelude.{◌≡◌, ◌≤◌};

use crate::cross::samples::{MASKS, SAMPLES, TYPES, as_wanted, mask, samples};
use isp_base::{BinOp, Compare, Elem, UnaryOp, apply, apply_unary, compare, convert};
use isp_lanes::{LaneMask, Lanes};

/// An operator, or the conversion to a type.
#[derive(Clone, Copy)]
enum Kernel {
    Binary(BinOp),
    Unary(UnaryOp),
    Compare(Compare),
    Convert(Elem),
}

const KERNELS: [Kernel; 31] = [
    Kernel::Binary(BinOp::Add),
    Kernel::Binary(BinOp::Sub),
    Kernel::Binary(BinOp::Mul),
    Kernel::Binary(BinOp::Div),
    Kernel::Binary(BinOp::Rem),
    Kernel::Binary(BinOp::And),
    Kernel::Binary(BinOp::Or),
    Kernel::Binary(BinOp::Xor),
    Kernel::Binary(BinOp::Shl),
    Kernel::Binary(BinOp::Shr),
    Kernel::Binary(BinOp::Min),
    Kernel::Binary(BinOp::Max),
    Kernel::Unary(UnaryOp::Negate),
    Kernel::Unary(UnaryOp::Invert),
    Kernel::Unary(UnaryOp::Absolute),
    Kernel::Unary(UnaryOp::Not),
    Kernel::Compare(Compare::Equal),
    Kernel::Compare(Compare::NotEqual),
    Kernel::Compare(Compare::Less),
    Kernel::Compare(Compare::LessOrEqual),
    Kernel::Compare(Compare::Greater),
    Kernel::Compare(Compare::GreaterOrEqual),
    Kernel::Convert(Elem::Bool),
    Kernel::Convert(Elem::I8),
    Kernel::Convert(Elem::U8),
    Kernel::Convert(Elem::I16),
    Kernel::Convert(Elem::U16),
    Kernel::Convert(Elem::I32),
    Kernel::Convert(Elem::U32),
    Kernel::Convert(Elem::I64),
    Kernel::Convert(Elem::U64),
];

// What a kernel gives for one value or two; None where it divides by zero.
fn of_values(kernel: Kernel, elem: Elem, x: u64, y: u64) -> Option<u64> {
    match kernel {
        Kernel::Binary(op) => apply(op, elem, x, y).ok(),
        Kernel::Unary(op) => Some(apply_unary(op, elem, x)),
        Kernel::Compare(op) => Some(u64::from(compare(op, elem, x, y))),
        Kernel::Convert(to) => Some(convert(elem, to, x)),
    }
}

// What a vector of the samples from one on is before a kernel writes it.
const OLD: usize = 3;

// What a kernel leaves in that vector, and the lane in which it divides by zero.
fn left<const N: usize>(
    kernel: Kernel,
    x: &Lanes<N>,
    y: &Lanes<N>,
    mask: &LaneMask<N>,
) -> (Lanes<N>, Option<usize>)
    requires { y.now.elem ≡ x.now.elem }
{
    match kernel {
        Kernel::Binary(op) => {
            let mut row = samples::<N>(x.elem(), OLD);
            let end = row.binary(op, x, y, mask);
            (row, end.err())
        }
        Kernel::Unary(op) => {
            let mut row = samples::<N>(x.elem(), OLD);
            row.unary(op, x, mask);
            (row, None)
        }
        Kernel::Compare(op) => {
            let mut row = samples::<N>(Elem::Bool, OLD);
            row.compare(op, x, y, mask);
            (row, None)
        }
        Kernel::Convert(to) => {
            let mut row = samples::<N>(to, OLD);
            row.convert(x, mask);
            (row, None)
        }
    }
}

// Whether a kernel gives in each lane of the mask what it gives for the values, and leaves the others. Where it divides by
// zero, it names the lowest such lane of the mask, and leaves all.
fn agrees<const N: usize>(kernel: Kernel, x: &Lanes<N>, y: &Lanes<N>, mask: &LaneMask<N>) -> bool
    requires { y.now.elem ≡ x.now.elem }
{
    let (row, zero) = left(kernel, x, y, mask);
    let old = samples::<N>(row.elem(), OLD);
    let mut wanted = [0; N];
    let mut lowest = None;
    for lane in 0..N {
        match of_values(kernel, x.elem(), x.get(lane), y.get(lane)) {
            Some(bits) => wanted[lane] = bits,
            None if mask.get(lane) && lowest.is_none() => lowest = Some(lane),
            None => {}
        }
    }
    let right = match lowest {
        Some(_) => row.bits() == old.bits(),
        None => as_wanted(&row, &old, mask, &wanted),
    };
    right && zero == lowest
}

// Whether each kernel does so for a type, at one choice of the samples and of the mask.
fn all_agree<const N: usize>(elem: Elem, number: usize) -> bool
    requires { N ≤ 64 }
{
    let first = number / SAMPLES % 2 * 4;
    let x = samples::<N>(elem, first);
    let y = samples::<N>(elem, first.wrapping_add(number));
    let mask = mask::<N>(number / (2 * SAMPLES));
    for kernel in KERNELS {
        if !agrees(kernel, &x, &y, &mask) {
            return false;
        }
    }
    true
}

// Each sample meets each, in a gang of four too, since the first lane has 0 and then the fifth of them.
#[test]
fn kernels(rt: HostRuntime) {
    for number in 0..2 * SAMPLES * MASKS {
        for elem in TYPES {
            let good = all_agree::<4>(elem, number)
                && all_agree::<8>(elem, number)
                && all_agree::<16>(elem, number)
                && all_agree::<32>(elem, number);
            assert!(rt; good, "{elem:?}, {number}");
        }
    }
}
