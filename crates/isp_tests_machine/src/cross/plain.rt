//! What the calls answer, lane by lane.
ghost use Rattle.std.specs.Prelude.{◌≡◌, ◌≤◌, ◌<◌};

use isp_base::{BinOp, Elem, apply, number, wrap};
use isp_lanes::{LaneMask, Lanes};

// What a call reads: the values in the lanes of a mask.
#[derive(Clone, Copy)]
pub(crate) struct Active<const N: usize> {
    elem: Elem,
    values: [Option<u64>; N],
}

pub(crate) fn read<const N: usize>(x: &Lanes<N>, mask: &LaneMask<N>) -> Active<N> {
    let mut values = [None; N];
    for lane in 0..N {
        if mask.get(lane) {
            values[lane] = Some(x.get(lane));
        }
    }
    Active {
        elem: x.elem(),
        values,
    }
}

impl<const N: usize> Active<N> {
    // The value of a lane, where there is one.
    fn value(&self, lane: usize) -> Option<u64> {
        if lane < N { self.values[lane] } else { None }
    }

    // The same, 0 where there is none.
    fn bits(&self, lane: usize) -> u64 {
        self.value(lane).unwrap_or(0)
    }

    // The value of a lane by its number modulo N.
    fn around(&self, place: i64) -> u64
        requires { N ≤ 64 }
    {
        let named = modulo(place, N as i64);
        for lane in 0..N {
            if named == lane as i64 {
                return self.bits(lane);
            }
        }
        0
    }

    pub(crate) fn extract(&self, place: i64) -> u64
        requires { N ≤ 64 }
    {
        self.around(place)
    }

    pub(crate) fn rotate(&self, lane: usize, by: i64) -> u64
        requires few { N ≤ 64 }
        requires there { lane < N }
    {
        self.around(by.wrapping_add(lane as i64))
    }

    pub(crate) fn shift(&self, lane: usize, by: i64) -> u64
        requires few { N ≤ 64 }
        requires there { lane < N }
    {
        let place = by.wrapping_add(lane as i64);
        for from in 0..N {
            if from as i64 == place {
                return self.bits(from);
            }
        }
        0
    }

    pub(crate) fn insert(&self, lane: usize, place: i64, bits: u64) -> u64
        requires few { N ≤ 64 }
        requires there { lane < N }
    {
        if modulo(place, N as i64) == lane as i64 {
            bits
        } else {
            self.bits(lane)
        }
    }

    // The value that is named among these and those of another.
    pub(crate) fn of_two(&self, other: &Self, place: i64) -> u64
        requires { N ≤ 64 }
    {
        let named = modulo(place, N as i64 * 2);
        if named < N as i64 {
            self.around(named)
        } else {
            other.around(named)
        }
    }

    // What the lanes below one give by an operator.
    pub(crate) fn scan(&self, op: BinOp, lane: usize) -> u64 {
        let elem = self.elem;
        let mut total = match op {
            BinOp::And => wrap(elem, -1),
            _ => 0,
        };
        for lower in 0..lane {
            if let Some(bits) = self.value(lower) {
                total = apply(op, elem, total, bits).unwrap_or(0);
            }
        }
        total
    }

    pub(crate) fn sum(&self) -> u64 {
        let elem = self.elem;
        let mut total = 0i128;
        for lane in 0..N {
            if let Some(bits) = self.value(lane) {
                total = total.wrapping_add(number(elem, bits));
            }
        }
        wrap(sum_type(elem), total)
    }

    // The least value, or the greatest.
    pub(crate) fn best(&self, greatest: bool) -> u64 {
        let elem = self.elem;
        let mut best = None;
        for lane in 0..N {
            if let Some(bits) = self.value(lane) {
                let keeps = match best {
                    None => false,
                    Some(other) if greatest => number(elem, other) >= number(elem, bits),
                    Some(other) => number(elem, other) <= number(elem, bits),
                };
                if !keeps {
                    best = Some(bits);
                }
            }
        }
        best.unwrap_or(0)
    }

    // How many lanes of the mask are below one and have a value other than 0.
    pub(crate) fn trues(&self, end: usize) -> u64 {
        let mut count = 0u64;
        for lane in 0..end {
            if self.bits(lane) != 0 {
                count = count.wrapping_add(1);
            }
        }
        count
    }

    // How many lanes of the mask are below one.
    pub(crate) fn rank(&self, end: usize) -> u64 {
        let mut count = 0u64;
        for lane in 0..end {
            if self.value(lane).is_some() {
                count = count.wrapping_add(1);
            }
        }
        count
    }
}

// From 0 up; 0 by nothing.
fn modulo(place: i64, count: i64) -> i64 {
    if count > 0 {
        place.rem_euclid(count)
    } else {
        0
    }
}

fn sum_type(elem: Elem) -> Elem {
    match elem {
        Elem::I8 => Elem::I16,
        Elem::U8 => Elem::U16,
        Elem::I16 => Elem::I32,
        Elem::U16 => Elem::U32,
        Elem::Bool | Elem::I32 | Elem::I64 => Elem::I64,
        Elem::U32 | Elem::U64 => Elem::U64,
    }
}
