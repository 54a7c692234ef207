//! The function that runs.
ghost use Rattle.std.specs.Prelude.{◌≡◌, ◌<◌, ◌≤◌, ◌^◌, [], length, slice_get, slice_index_or, Some, false};
ghost use Rattle.isp_base.specs.Maps.{lane_of};
ghost use Rattle.isp_base.specs.Sets.{flag_of};
ghost use Rattle.isp_base.specs.Traps.{trap};
ghost use Rattle.isp_base.specs.Values.{width};
ghost use Rattle.isp_code.specs.Calls.{place_at};
ghost use Rattle.isp_code.specs.Fine.{IsThere};
ghost use Rattle.isp_code.specs.Listing.{routine_of};
ghost use Rattle.isp_code.specs.Registers.{elem_of, is_per_lane};
ghost use Rattle.isp_frames.specs.Arrays.{vector_in, mask_in};
ghost use Rattle.isp_frames.specs.Shapes.{Shaped, Opened};
ghost use Rattle.isp_frames.specs.Views.{scalars_at, vectors_at, masks_at, home_at};
ghost use Rattle.isp_store.specs.Held.{shapes, elem, size};
ghost use Rattle.isp_verify.specs.Progress.{NeverStuck};

use crate::frame::Frame;
use isp_base::{Elem, Trap, TrapKind};
use isp_code::{Class, Code, Function, Instr, Register};
use isp_lanes::{LaneMask, Lanes};
use isp_store::Arrays;
use isp_verify::{Registers, Verified};
use std::marker::Model;

/// A function of some code, with the types of its registers.
#[derive(Drop)]
pub struct Here<'a> {
    code: &'a Code,
    function: &'a Function,
    registers: &'a Registers,
}

impl<'a> Model for Here<'a> {
    ghost use Rattle.std.specs.Prelude.{◌≡◌};
    ghost use Rattle.isp_code.specs.Listing.{routine_of};
    ghost use Rattle.isp_code.specs.Registers.{table_of};
    ghost use Rattle.isp_frames.specs.Rows.{Place};

    ghost Value = { Place };

    ghost view = { λ h. record { code = h.code.now; routine = routine_of h.function.now } };

    ghost invariant = { λ h. h.registers.now ≡ table_of (routine_of h.function.now) };
}

impl<'a> Here<'a> {
    /// The function of this number.
    pub fn new(code: &'a Verified, number: usize) -> Here<'a>
        requires { number < length code.now.routines }
        ensures code { result.code ≡ code.now }
        ensures goes_on { NeverStuck code.now }
        ensures found { slice_get code.now.routines number ≡ Some result.routine }
    {
        Here {
            code: code.code(),
            function: &code.code().functions()[number],
            registers: code.registers(number),
        }
    }

    /// An instruction.
    pub fn instr(&self, pc: usize) -> &'a Instr
        requires { pc < length self.now.routine.code }
        ensures { slice_get self.now.routine.code pc ≡ Some result.now }
    {
        &self.function.code[pc]
    }

    /// The instructions.
    pub fn list(&self) -> &'a [Instr]
        ensures { result.now ≡ self.now.routine.code }
    {
        self.function.code.as_slice()
    }

    /// The number of instructions.
    pub fn count(&self) -> usize
        ensures { result ≡ length self.now.routine.code }
    {
        self.function.code.len()
    }

    /// A text.
    pub fn text(&self, number: u32) -> &'a [u8]
        requires { number < length self.now.code.texts }
        ensures { result.now ≡ slice_index_or self.now.code.texts number [] }
    {
        self.code.text(number as usize)
    }

    /// A trap of a lane at a place of the code.
    pub fn trap(&self, kind: TrapKind, place: u32, instance: usize) -> Trap
        requires { place < length self.now.code.places }
        ensures { result ≡ trap kind (place_at self.now.code place) instance }
    {
        Trap {
            kind,
            place: self.code.places()[place as usize],
            instance,
        }
    }

    /// The type of a scalar register.
    pub fn elem(&self, x: Register) -> Elem
        requires { IsThere self.now.routine Class.Scalar x }
        ensures { result ≡ elem_of self.now.routine x }
    {
        self.registers.scalars()[x.number as usize]
    }

    /// The bits of a scalar register.
    pub fn scalar<const N: usize>(&self, frame: &Frame<N>, x: Register) -> u64
        requires shaped { Shaped self.now.routine frame.now }
        requires there { IsThere self.now.routine Class.Scalar x }
        ensures value { result ≡ scalars_at frame.now x.number }
        ensures fits { result < 2 ^ width (elem_of self.now.routine x) }
    {
        frame.scalar(x.number)
    }

    /// A vector register.
    pub fn vector<'b, const N: usize>(&self, frame: &'b Frame<N>, x: Register) -> &'b Lanes<N>
        requires shaped { Shaped self.now.routine frame.now }
        requires there { IsThere self.now.routine Class.Vector x }
        ensures lanes { lane_of result.now.bits ≡ vectors_at frame.now x.number }
        ensures elem { result.now.elem ≡ elem_of self.now.routine x }
    {
        frame.vector(x.number)
    }

    /// A mask register.
    pub fn mask<'b, const N: usize>(&self, frame: &'b Frame<N>, k: Register) -> &'b LaneMask<N>
        requires shaped { Shaped self.now.routine frame.now }
        requires there { IsThere self.now.routine Class.Mask k }
        ensures { flag_of result.now ≡ masks_at frame.now k.number }
    {
        frame.mask(k.number)
    }

    /// What holds of a vector register. Changes nothing.
    pub fn vector_told<const N: usize>(&self, frame: &Frame<N>, x: Register)
        requires shaped { Shaped self.now.routine frame.now }
        requires there { IsThere self.now.routine Class.Vector x }
        requires few { N ≤ 64 }
        ensures low { x.number < length frame.now.vectors }
        ensures elem { (vector_in frame.now x.number).elem ≡ elem_of self.now.routine x }
        ensures long { length (vector_in frame.now x.number).bits ≡ N }
    {
        frame.vector(x.number).told();
    }

    /// What holds of a mask register. Changes nothing.
    pub fn mask_told<const N: usize>(&self, frame: &Frame<N>, k: Register)
        requires shaped { Shaped self.now.routine frame.now }
        requires there { IsThere self.now.routine Class.Mask k }
        ensures low { k.number < length frame.now.masks }
        ensures few { N ≤ 64 }
        ensures long { length (mask_in frame.now k.number) ≡ N }
    {
        frame.mask(k.number).told();
    }

    /// The number of the store that an array is, one that all lanes share.
    pub fn store<const N: usize>(&self, frame: &Frame<N>, stores: &Arrays, a: Register) -> usize
        requires arrays { Opened self.now.routine (shapes stores.now) frame.now }
        requires there { IsThere self.now.routine Class.Array a }
        requires shared { is_per_lane self.now.routine a ≡ false }
        ensures value { result ≡ (home_at (shapes stores.now) frame.now).named a.number }
        ensures there { result < length stores.now.rows }
        ensures elem { elem stores.now result ≡ elem_of self.now.routine a }
        ensures size { (home_at (shapes stores.now) frame.now).sizes result ≡ size stores.now result }
    {
        frame.array(a.number).store()
    }
}
