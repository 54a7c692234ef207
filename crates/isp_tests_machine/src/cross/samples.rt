//! The vectors, masks and numbers that the calls are tried on.
ghost use Rattle.std.specs.Prelude.{◌≡◌, ◌≤◌, ◌<◌, ◌^◌};
ghost use Rattle.isp_base.specs.declared.types.Elem.TheVariants.{I32};
ghost use Rattle.isp_base.specs.Values.{width};

use isp_base::{Elem, greatest_of, low_bits};
use isp_lanes::{LaneMask, Lanes};

pub(crate) const TYPES: [Elem; 9] = [
    Elem::Bool,
    Elem::I8,
    Elem::U8,
    Elem::I16,
    Elem::U16,
    Elem::I32,
    Elem::U32,
    Elem::I64,
    Elem::U64,
];

// The numbers by which lanes are named.
pub(crate) const NUMBERS: [i64; 10] = [0, 1, -1, 3, -6, 16, 31, -32, 2_147_483_647, -2_147_483_648];

// How many samples a type has, and how many masks are tried.
pub(crate) const SAMPLES: usize = 8;

pub(crate) const MASKS: usize = 7;

// The bits of 0, 1, the ends of a type and their neighbours, in turn.
pub(crate) fn sample(elem: Elem, number: usize) -> u64
    ensures { result < 2 ^ width elem }
{
    let greatest = greatest_of(elem);
    let bits = match number % SAMPLES {
        0 => 0,
        1 => 1,
        2 => greatest,
        3 => greatest.wrapping_add(1),
        4 => 2,
        5 => u64::MAX,
        6 => greatest.wrapping_sub(1),
        _ => greatest.wrapping_add(2),
    };
    low_bits(elem, bits)
}

// The samples in order from one of them on.
pub(crate) fn samples<const N: usize>(elem: Elem, first: usize) -> Lanes<N>
    ensures { result.elem ≡ elem }
{
    let mut row = Lanes::zero(elem);
    for lane in 0..N {
        row.set(lane, sample(elem, first.wrapping_add(lane)));
    }
    row
}

// The bits of a number as an int32.
pub(crate) fn int32(number: i64) -> u64
    ensures { result < 2 ^ 32 }
{
    number.rem_euclid(0x1_0000_0000) as u64
}

// The numbers in order from one of them on.
pub(crate) fn numbers<const N: usize>(first: usize) -> Lanes<N>
    ensures { result.elem ≡ I32 }
{
    let mut row = Lanes::zero(Elem::I32);
    for lane in 0..N {
        row.set(
            lane,
            int32(NUMBERS[first.wrapping_add(lane) % NUMBERS.len()]),
        );
    }
    row
}

// All lanes, none, the even ones, one, all but one, and each half.
pub(crate) fn mask<const N: usize>(kind: usize) -> LaneMask<N>
    requires { N ≤ 64 }
{
    let mut mask = LaneMask::none();
    for lane in 0..N {
        let on = match kind {
            0 => true,
            1 => false,
            2 => lane % 2 == 0,
            3 => lane == 2,
            4 => lane != 1,
            5 => lane < N / 2,
            _ => lane >= N / 2,
        };
        mask.set(lane, on);
    }
    mask
}

// Whether the lanes of the mask have what is wanted of them, and the others the old value.
pub(crate) fn as_wanted<const N: usize>(
    row: &Lanes<N>,
    old: &Lanes<N>,
    mask: &LaneMask<N>,
    wanted: &[u64; N],
) -> bool {
    for lane in 0..N {
        let want = if mask.get(lane) {
            wanted[lane]
        } else {
            old.get(lane)
        };
        if row.get(lane) != want {
            return false;
        }
    }
    true
}
