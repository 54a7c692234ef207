//! Vectors of zeros.
ghost use Rattle.std.specs.Prelude.{◌≡◌, ◌≤◌};
ghost use Rattle.isp_frames.specs.Begun.{seen, zero_seen};

use isp_base::Elem;
use isp_lanes::Lanes;
use std::alloc::{AllocError, Global};
use std::marker::Model;

/// A vector that is zero in each lane, of each element type. New registers are copied from these: a
/// vector that has just been written in pieces is slow to copy.
#[derive(Drop)]
pub struct Zeros<const N: usize> {
    truths: Lanes<N>,
    i8s: Lanes<N>,
    i16s: Lanes<N>,
    i32s: Lanes<N>,
    i64s: Lanes<N>,
    u8s: Lanes<N>,
    u16s: Lanes<N>,
    u32s: Lanes<N>,
    u64s: Lanes<N>,
}

impl<const N: usize> Model for Zeros<N> {
    ghost use Rattle.std.specs.Prelude.{◌≡◌, ℕ};
    ghost use Rattle.isp_base.specs.declared.types.Elem.TheVariants.{Bool, I8, I16, I32, I64, U8, U16, U32, U64};
    ghost use Rattle.isp_frames.specs.Begun.{seen, zero_seen};

    ghost Value = { ℕ };

    ghost view = { λ z. N };

    ghost invariant = { λ z. (seen z.truths ≡ zero_seen Bool) × (seen z.i8s ≡ zero_seen I8) × (seen z.i16s ≡ zero_seen I16) × (seen z.i32s ≡ zero_seen I32) × (seen z.i64s ≡ zero_seen I64) × (seen z.u8s ≡ zero_seen U8) × (seen z.u16s ≡ zero_seen U16) × (seen z.u32s ≡ zero_seen U32) × (seen z.u64s ≡ zero_seen U64) };
}

/// The same in a place of their own, so that a run stays small.
#[derive(Drop)]
pub struct ZerosBox<const N: usize> {
    pub at: Box<Zeros<N>>,
}

impl<const N: usize> Model for ZerosBox<N> {
    ghost use Rattle.std.specs.Prelude.{◌≤◌, ℕ};

    ghost Value = { ℕ };

    ghost view = { λ z. z.at.value };

    ghost invariant = { λ z. N ≤ 64 };
}

impl<const N: usize> ZerosBox<N> {
    /// All of them.
    pub fn new(alloc: Global) -> Result<Self, AllocError>
        requires { N ≤ 64 }
    {
        Ok(ZerosBox {
            at: Box::new(alloc, Zeros::new())?,
        })
    }
}

// Zero in each lane.
fn zero<const N: usize>(elem: Elem) -> Lanes<N>
    ensures { seen result ≡ zero_seen elem }
{
    Lanes::zero(elem)
}

impl<const N: usize> Zeros<N> {
    /// All of them.
    pub fn new() -> Self {
        Zeros {
            truths: zero(Elem::Bool),
            i8s: zero(Elem::I8),
            i16s: zero(Elem::I16),
            i32s: zero(Elem::I32),
            i64s: zero(Elem::I64),
            u8s: zero(Elem::U8),
            u16s: zero(Elem::U16),
            u32s: zero(Elem::U32),
            u64s: zero(Elem::U64),
        }
    }

    /// The one of an element type.
    pub fn of(&self, elem: Elem) -> &Lanes<N>
        ensures { seen result.now ≡ zero_seen elem }
    {
        match elem {
            Elem::Bool => &self.truths,
            Elem::I8 => &self.i8s,
            Elem::I16 => &self.i16s,
            Elem::I32 => &self.i32s,
            Elem::I64 => &self.i64s,
            Elem::U8 => &self.u8s,
            Elem::U16 => &self.u16s,
            Elem::U32 => &self.u32s,
            Elem::U64 => &self.u64s,
        }
    }
}
