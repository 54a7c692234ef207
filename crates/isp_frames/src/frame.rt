//! A call: where it stands, and its registers.
ghost use Rattle.std.specs.Prelude.{◌≡◌, ◌<◌, ◌≤◌, ◌+◌, ◌^◌, ◌++◌, ◌&&◌, [], length, get_or, nat_lt, slice_set, map, replicate, unsigned_abs, None, Some, IfOk, IfErr, OnOk, OnErr, if◌then◌else◌};
ghost use Rattle.isp_base.specs.Arguments.{rows};
ghost use Rattle.isp_base.specs.Cross.{rank, run_index, run_outside};
ghost use Rattle.isp_base.specs.Sets.{flag_of, lowest};
ghost use Rattle.isp_code.specs.Listing.{routine_of};
ghost use Rattle.isp_code.specs.Registers.{arrays_of};
ghost use Rattle.isp_frames.specs.Begun.{AreThere, Begun, by_call, by_run, given, new_stores, no_frame};
ghost use Rattle.isp_frames.specs.Shapes.{Shaped};
ghost use Rattle.isp_base.specs.Maps.{on, over};
ghost use Rattle.isp_base.specs.declared.types.Elem.TheVariants.{Bool as Truth, I32, I64};
ghost use Rattle.std.specs.List.{range_with_len};
ghost use Rattle.std.specs.Simd.Lanes.{zip2, sel_l};
ghost use Rattle.isp_base.specs.Values.{width, number, op_bits, compare_bits, convert_bits};
ghost use Rattle.isp_base.specs.Unary.{unary_bits};
ghost use Rattle.isp_lanes.specs.Lanes.{is_on, first_zero, written, no_row};
ghost use Rattle.isp_frames.specs.Arrays.{ArrayThere, Rewritten, Scattered, array_count, array_elem, array_in, bits_in, elem_in, gathered_at, lanes_set, mask_in, outside_at, vector_in};
ghost use Rattle.isp_frames.specs.Views.{no_array, scalars_at, vectors_at, masks_at};
ghost use Rattle.isp_store.specs.Held.{elem, elements, size};

use crate::array::FrameArray;
use crate::here::Here;
use crate::locals::open_locals;
use crate::passed::{
    argument_arrays, argument_values, first_masks, passed_arrays, passed_scalars, passed_vectors,
    push_zero_lanes, push_zeros,
};
use crate::zeros::Zeros;
use isp_base::{Argument, BinOp, Compare, UnaryOp};
use isp_code::{Function, Register};
use isp_lanes::{LaneMask, Lanes};
use isp_store::{Arrays, IndexTrap};
use std::alloc::{AllocError, Global};
use std::marker::Model;

/// The registers of a call by class, each by its number.
#[derive(Drop)]
pub struct Frame<const N: usize> {
    function: usize,
    pc: usize,
    scalars: Vec<u64>,
    vectors: Vec<Lanes<N>>,
    masks: Vec<LaneMask<N>>,
    arrays: Vec<FrameArray<N>>,
    // How many local arrays are open that all lanes share.
    locals: usize,
    // Where the result of the call goes that this one waits for, and in which lanes.
    to: Option<Register>,
    under: LaneMask<N>,
}

impl<const N: usize> Model for Frame<N> {
    ghost use Rattle.isp_frames.specs.Rows.{FrameRows};

    ghost Value = { FrameRows };

    ghost view = { λ f. record { function = f.function; pc = f.pc; scalars = f.scalars.items; vectors = f.vectors.items; masks = f.masks.items; arrays = f.arrays.items; locals = f.locals; to = f.to; under = f.under } };
}

/// A frame in a place of its own, so that no register moves where calls begin, wait and end.
/// Contracts see the frame.
#[derive(Drop)]
pub struct FrameBox<const N: usize> {
    pub at: Box<Frame<N>>,
}

impl<const N: usize> Model for FrameBox<N> {
    ghost use Rattle.std.specs.Prelude.{◌≤◌};
    ghost use Rattle.isp_frames.specs.Rows.{FrameRows};

    ghost Value = { FrameRows };

    ghost view = { λ f. f.at.value };

    ghost invariant = { λ f. N ≤ 64 };
}

impl<const N: usize> FrameBox<N> {
    /// A frame without registers.
    pub fn empty(alloc: Global) -> Result<Self, AllocError>
        requires { N ≤ 64 }
        ensures { IfOk result (λ f. f ≡ no_frame N) }
    {
        Ok(FrameBox {
            at: Box::new(alloc, Frame::empty(alloc))?,
        })
    }
}

impl<const N: usize> Frame<N> {
    /// A frame without registers.
    pub fn empty(alloc: Global) -> Self
        requires { N ≤ 64 }
        ensures { result ≡ no_frame N }
    {
        Frame {
            function: 0,
            pc: 0,
            scalars: Vec::new(alloc),
            vectors: Vec::new(alloc),
            masks: Vec::new(alloc),
            arrays: Vec::new(alloc),
            locals: 0,
            to: None,
            under: LaneMask::none(),
        }
    }

    /// The number of the function.
    pub fn function(&self) -> usize
        ensures { result ≡ self.now.function }
    {
        self.function
    }

    /// The instruction before which the call stands.
    pub fn pc(&self) -> usize
        ensures { result ≡ self.now.pc }
    {
        self.pc
    }

    /// How many local arrays are open that all lanes share.
    pub fn locals(&self) -> usize
        ensures { result ≡ self.now.locals }
    {
        self.locals
    }

    /// Where the result goes of the call that this one waits for.
    pub fn to(&self) -> Option<Register>
        ensures { result ≡ self.now.to }
    {
        self.to
    }

    /// The lanes that made that call.
    pub fn under(&self) -> LaneMask<N>
        ensures { result ≡ self.now.under }
    {
        self.under
    }

    /// A scalar register.
    pub fn scalar(&self, r: u32) -> u64
        requires { r < length self.now.scalars }
        ensures { result ≡ get_or self.now.scalars r 0 }
    {
        self.scalars[r as usize]
    }

    /// A vector register.
    pub fn vector(&self, r: u32) -> &Lanes<N>
        requires { r < length self.now.vectors }
        ensures { result.now ≡ get_or self.now.vectors r no_row }
    {
        &self.vectors[r as usize]
    }

    /// A mask register.
    pub fn mask(&self, r: u32) -> &LaneMask<N>
        requires { r < length self.now.masks }
        ensures { result.now ≡ get_or self.now.masks r [] }
    {
        &self.masks[r as usize]
    }

    /// An array.
    pub fn array(&self, r: u32) -> &FrameArray<N>
        requires { r < length self.now.arrays }
        ensures { result.now ≡ get_or self.now.arrays r (no_array 0) }
    {
        &self.arrays[r as usize]
    }

    /// Goes on at this instruction.
    pub fn jump(&mut self, to: usize)
        ensures { self.new ≡ record self.old { pc = to } }
    {
        self.pc = to;
    }

    /// Goes on at the next instruction.
    pub fn next(&mut self)
        requires { self.old.pc + 1 < 2 ^ 64 }
        ensures { self.new ≡ record self.old { pc = self.old.pc + 1 } }
    {
        self.pc += 1;
    }

    /// Waits at the next instruction for the result of a call.
    pub fn wait(&mut self, to: Option<Register>, under: &LaneMask<N>)
        requires { self.old.pc + 1 < 2 ^ 64 }
        ensures { self.new ≡ record self.old { pc = self.old.pc + 1; to = to; under = under.now } }
    {
        self.pc += 1;
        self.to = to;
        self.under = *under;
    }

    /// Writes a scalar register.
    pub fn set_scalar(&mut self, r: u32, bits: u64)
        requires { r < length self.old.scalars }
        ensures { self.new ≡ record self.old { scalars = slice_set self.old.scalars r bits } }
    {
        self.scalars[r as usize] = bits;
    }

    /// Writes a vector register.
    pub fn set_vector(&mut self, r: u32, value: &Lanes<N>)
        requires { r < length self.old.vectors }
        ensures { self.new ≡ record self.old { vectors = slice_set self.old.vectors r value.now } }
    {
        self.vectors[r as usize] = *value;
    }

    /// Writes a mask register.
    pub fn set_mask(&mut self, r: u32, value: LaneMask<N>)
        requires { r < length self.old.masks }
        ensures { self.new ≡ record self.old { masks = slice_set self.old.masks r value.entry } }
    {
        self.masks[r as usize] = value;
    }
}

// Registers and lanes that may not be there.
impl<const N: usize> Frame<N> {
    /// A scalar register.
    pub fn scalar_there(&self, r: usize) -> Option<u64>
        ensures { result ≡ (if nat_lt r (length self.now.scalars) then Some (scalars_at self.now r) else None) }
    {
        if r < self.scalars.len() {
            Some(self.scalars[r])
        } else {
            None
        }
    }

    /// A lane of a vector register.
    pub fn lane_there(&self, r: usize, lane: usize) -> Option<u64>
        ensures { result ≡ (if nat_lt r (length self.now.vectors) && nat_lt lane N then Some (vectors_at self.now r lane) else None) }
    {
        self.under.told();
        if r < self.vectors.len() && lane < N {
            Some(self.vectors[r].get(lane))
        } else {
            None
        }
    }

    /// How many elements an array has.
    pub fn size_there(&self, stores: &Arrays, a: usize) -> Option<usize>
        requires { a < length self.now.arrays → ArrayThere stores.now (array_in self.now a) }
        ensures { result ≡ (if nat_lt a (length self.now.arrays) then Some (array_count stores.now (array_in self.now a)) else None) }
    {
        if a < self.arrays.len() {
            Some(self.arrays[a].size(stores))
        } else {
            None
        }
    }

    /// Whether a lane of a mask register is on.
    pub fn flag_there(&self, r: usize, lane: usize) -> Option<bool>
        ensures { result ≡ (if nat_lt r (length self.now.masks) && nat_lt lane N then Some (masks_at self.now r lane) else None) }
    {
        if r < self.masks.len() && lane < N {
            Some(self.masks[r].get(lane))
        } else {
            None
        }
    }

    /// How many lanes of a mask register are on.
    pub fn flags_there(&self, r: usize) -> Option<u32>
        ensures { result ≡ (if nat_lt r (length self.now.masks) then Some (rank (masks_at self.now r) N) else None) }
    {
        if r < self.masks.len() {
            Some(flags_on(&self.masks[r]))
        } else {
            None
        }
    }
}

// How many lanes are on.
fn flags_on<const N: usize>(mask: &LaneMask<N>) -> u32
    ensures { result ≡ rank (flag_of mask.now) N }
{
    mask.told();
    let mut on = 0;
    for lane in 0..N {
        if mask.get(lane) {
            on += 1;
        }
    }
    on
}

// A call that begins, in the memory of one that is over.
impl<const N: usize> Frame<N> {
    /// Takes what a call passes in the lanes of a mask, in the place of the registers.
    pub fn pass_call(
        &mut self,
        here: &Here,
        caller: &Frame<N>,
        arguments: &[Register],
        mask: &LaneMask<N>,
    ) -> Result<(), AllocError>
        requires shaped { Shaped here.now.routine caller.now }
        requires count { length caller.now.arrays ≡ length (arrays_of here.now.routine) }
        requires there { AreThere here.now.routine arguments.now }
        ensures { OnOk result (given self.new ≡ by_call caller.now (flag_of mask.now) arguments.now) }
    {
        mask.told();
        passed_scalars(&mut self.scalars, here, caller, arguments)?;
        passed_vectors(&mut self.vectors, here, caller, arguments, mask)?;
        passed_arrays(&mut self.arrays, here, caller, arguments)?;
        Ok(())
    }

    /// Takes what a run passes that has so many arrays, in the place of the registers.
    pub fn pass_run(
        &mut self,
        alloc: Global,
        arguments: &[Argument],
        count: usize,
    ) -> Result<(), AllocError>
        requires { count ≡ length (rows arguments.now) }
        ensures { OnOk result (given self.new ≡ by_run arguments.now) }
    {
        self.scalars = argument_values(alloc, arguments)?;
        self.vectors.clear();
        self.arrays = argument_arrays(alloc, count)?;
        Ok(())
    }

    /// Begins a call of a function with what the registers hold, and opens its local arrays. Where
    /// memory is refused no store is open that was not.
    pub fn begin(
        &mut self,
        alloc: Global,
        stores: &mut Arrays,
        number: usize,
        function: &Function,
        mask: &LaneMask<N>,
        zeros: &Zeros<N>,
    ) -> Result<(), AllocError>
        requires few { N ≤ 64 }
        requires masks { 0 < (routine_of function.now).masks }
        ensures begun { OnOk result (Begun N (routine_of function.now) number mask.now (length stores.old.rows) (given self.old) self.new) }
        ensures stores { OnOk result (stores.new ≡ record stores.old { rows = stores.old.rows ++ new_stores (routine_of function.now).locals }) }
        ensures all { OnOk result (stores.new.params + self.new.locals ≡ length stores.new.rows) }
        ensures err { OnErr result (stores.new ≡ stores.old) }
    {
        push_zeros(&mut self.scalars, function.scalars.len())?;
        push_zero_lanes(&mut self.vectors, zeros, &function.vectors)?;
        first_masks(&mut self.masks, function.masks, mask)?;
        open_locals(alloc, stores, &mut self.arrays, &function.locals)?;
        self.function = number;
        self.pc = 0;
        self.locals = stores.locals();
        self.to = None;
        Ok(())
    }

    /// Ends the call: its arrays are dropped, and the memory of its other registers is kept.
    pub fn end(&mut self)
        ensures { self.new ≡ record self.old { arrays = [] } }
    {
        self.arrays.clear();
    }
}

// Vector registers that are written where they stand, in the lanes of a mask.
impl<const N: usize> Frame<N> {
    /// An operator on two vectors.
    ///
    /// A division by zero in a lane of the mask is `Err` with the lowest such lane, and then nothing
    /// changes.
    pub fn binary(&mut self, op: BinOp, d: u32, x: u32, y: u32, k: u32) -> Result<(), usize>
        requires d { d < length self.old.vectors }
        requires x { x < length self.old.vectors }
        requires y { y < length self.old.vectors }
        requires k { k < length self.old.masks }
        requires x_elem { elem_in self.old x ≡ elem_in self.old d }
        requires y_elem { elem_in self.old y ≡ elem_in self.old d }
        ensures divided { IfOk result (λ _. first_zero op (mask_in self.old k) (bits_in self.old y) ≡ None) }
        ensures value { IfOk result (λ _. self.new ≡ lanes_set self.old d k (zip2 (op_bits op (elem_in self.old d)) (bits_in self.old x) (bits_in self.old y))) }
        ensures lowest { IfErr result (λ lane. first_zero op (mask_in self.old k) (bits_in self.old y) ≡ Some lane) }
        ensures same { IfErr result (λ _. self.new ≡ self.old) }
    {
        Lanes::binary_at(
            &mut self.vectors,
            d as usize,
            op,
            x as usize,
            y as usize,
            &self.masks[k as usize],
        )
    }

    /// An operator on one vector.
    pub fn unary(&mut self, op: UnaryOp, d: u32, x: u32, k: u32)
        requires d { d < length self.old.vectors }
        requires x { x < length self.old.vectors }
        requires k { k < length self.old.masks }
        requires elem { elem_in self.old x ≡ elem_in self.old d }
        ensures { self.new ≡ lanes_set self.old d k (map (unary_bits op (elem_in self.old d)) (bits_in self.old x)) }
    {
        Lanes::unary_at(
            &mut self.vectors,
            d as usize,
            op,
            x as usize,
            &self.masks[k as usize],
        );
    }

    /// A comparison of two vectors of one type.
    pub fn compare(&mut self, op: Compare, d: u32, x: u32, y: u32, k: u32)
        requires d { d < length self.old.vectors }
        requires x { x < length self.old.vectors }
        requires y { y < length self.old.vectors }
        requires k { k < length self.old.masks }
        requires elem { elem_in self.old d ≡ Truth }
        requires y_elem { elem_in self.old y ≡ elem_in self.old x }
        ensures { self.new ≡ lanes_set self.old d k (zip2 (compare_bits op (elem_in self.old x)) (bits_in self.old x) (bits_in self.old y)) }
    {
        Lanes::compare_at(
            &mut self.vectors,
            d as usize,
            op,
            x as usize,
            y as usize,
            &self.masks[k as usize],
        );
    }

    /// The lanes of a vector of any type.
    pub fn convert(&mut self, d: u32, x: u32, k: u32)
        requires d { d < length self.old.vectors }
        requires x { x < length self.old.vectors }
        requires k { k < length self.old.masks }
        ensures { self.new ≡ lanes_set self.old d k (map (λ b. convert_bits (elem_in self.old d) (number (elem_in self.old x) b)) (bits_in self.old x)) }
    {
        Lanes::convert_at(
            &mut self.vectors,
            d as usize,
            x as usize,
            &self.masks[k as usize],
        );
    }

    /// The lanes of one vector where a vector of bools is true, of another where it is false.
    pub fn select(&mut self, d: u32, test: u32, x: u32, y: u32, k: u32)
        requires d { d < length self.old.vectors }
        requires test { test < length self.old.vectors }
        requires x { x < length self.old.vectors }
        requires y { y < length self.old.vectors }
        requires k { k < length self.old.masks }
        requires truth { elem_in self.old test ≡ Truth }
        requires x_elem { elem_in self.old x ≡ elem_in self.old d }
        requires y_elem { elem_in self.old y ≡ elem_in self.old d }
        ensures { self.new ≡ lanes_set self.old d k (sel_l (map is_on (bits_in self.old test)) (bits_in self.old x) (bits_in self.old y)) }
    {
        Lanes::select_at(
            &mut self.vectors,
            d as usize,
            test as usize,
            x as usize,
            y as usize,
            &self.masks[k as usize],
        );
    }

    /// The lanes of another vector.
    pub fn copy(&mut self, d: u32, x: u32, k: u32)
        requires d { d < length self.old.vectors }
        requires x { x < length self.old.vectors }
        requires k { k < length self.old.masks }
        requires elem { elem_in self.old x ≡ elem_in self.old d }
        ensures { self.new ≡ lanes_set self.old d k (bits_in self.old x) }
    {
        Lanes::copy_at(
            &mut self.vectors,
            d as usize,
            x as usize,
            &self.masks[k as usize],
        );
    }

    /// The lanes of a vector of another call, in the lanes that made that call.
    pub fn receive(&mut self, d: u32, x: &Lanes<N>)
        requires there { d < length self.old.vectors }
        requires elem { x.now.elem ≡ elem_in self.old d }
        ensures { self.new ≡ record self.old { vectors = slice_set self.old.vectors d (written self.old.under x.now.bits (vector_in self.old d)) } }
    {
        self.vectors[d as usize].copy(x, &self.under);
    }

    /// One value.
    pub fn splat(&mut self, d: u32, bits: u64, k: u32)
        requires d { d < length self.old.vectors }
        requires k { k < length self.old.masks }
        requires fits { bits < 2 ^ width (elem_in self.old d) }
        ensures { self.new ≡ lanes_set self.old d k (replicate N bits) }
    {
        let mask = &self.masks[k as usize];
        mask.told();
        self.vectors[d as usize].splat(bits, mask);
    }

    /// The lanes' numbers.
    pub fn index(&mut self, d: u32, k: u32)
        requires d { d < length self.old.vectors }
        requires k { k < length self.old.masks }
        requires elem { elem_in self.old d ≡ I32 }
        ensures { self.new ≡ lanes_set self.old d k (range_with_len 0 N) }
    {
        let mask = &self.masks[k as usize];
        mask.told();
        self.vectors[d as usize].index(mask);
    }
}

// The arrays.
impl<const N: usize> Frame<N> {
    /// In each lane of a mask the element at its index in an array, in a vector that is written where
    /// it stands.
    ///
    /// Index where one is outside, with the lowest such lane, and then nothing changes.
    pub fn gather(
        &mut self,
        stores: &Arrays,
        d: u32,
        a: u32,
        i: u32,
        k: u32,
    ) -> Result<(), IndexTrap>
        requires d { d < length self.old.vectors }
        requires a { a < length self.old.arrays }
        requires i { i < length self.old.vectors }
        requires k { k < length self.old.masks }
        requires there { ArrayThere stores.now (array_in self.old a) }
        requires index { elem_in self.old i ≡ I64 }
        requires elem { elem_in self.old d ≡ array_elem stores.now (array_in self.old a) }
        ensures inside { IfOk result (λ _. outside_at N stores.now self.old a k i ≡ None) }
        ensures lanes { IfOk result (λ _. vectors_at self.new d ≡ over (gathered_at stores.now self.old a k i) (vectors_at self.old d)) }
        ensures elem { elem_in self.new d ≡ elem_in self.old d }
        ensures others { self.new ≡ record self.old { vectors = slice_set self.old.vectors d (vector_in self.new d) } }
        ensures lowest { IfErr result (λ t. outside_at N stores.now self.old a k i ≡ Some t.instance) }
        ensures same { IfErr result (λ t. self.new ≡ self.old) }
    {
        let array = &self.arrays[a as usize];
        let mask = &self.masks[k as usize];
        array.gather(stores, &mut self.vectors, d as usize, i as usize, mask)
    }

    /// In each lane of a mask the element of a store that is as many after an index as the lane's number
    /// says, in a vector that is written where it stands.
    ///
    /// Index where one is outside, with the lowest such lane, and then nothing changes.
    #[inline(never)]
    pub fn load_run(
        &mut self,
        stores: &Arrays,
        d: u32,
        store: usize,
        index: u64,
        k: u32,
    ) -> Result<(), IndexTrap>
        requires d { d < length self.old.vectors }
        requires k { k < length self.old.masks }
        requires there { store < length stores.now.rows }
        requires elem { elem_in self.old d ≡ elem stores.now store }
        ensures inside { IfOk result (λ _. lowest N (run_outside (size stores.now store) (number I64 index) (masks_at self.old k)) ≡ None) }
        ensures lanes { IfOk result (λ _. vectors_at self.new d ≡ over (on (masks_at self.old k) (λ p. elements stores.now store (unsigned_abs (run_index (number I64 index) p)))) (vectors_at self.old d)) }
        ensures elem { elem_in self.new d ≡ elem_in self.old d }
        ensures others { self.new ≡ record self.old { vectors = slice_set self.old.vectors d (vector_in self.new d) } }
        ensures lowest { IfErr result (λ t. lowest N (run_outside (size stores.now store) (number I64 index) (masks_at self.old k)) ≡ Some t.instance) }
        ensures same { IfErr result (λ t. self.new ≡ self.old) }
    {
        let mask = &self.masks[k as usize];
        mask.told();
        stores.load_run(store, index, mask, &mut self.vectors[d as usize])
    }

    /// Each lane of a mask writes its value at its index in an array.
    ///
    /// Index where one is outside, with the lowest such lane, and then nothing changes.
    pub fn scatter(
        &mut self,
        stores: &mut Arrays,
        a: u32,
        i: u32,
        y: u32,
        k: u32,
    ) -> Result<(), IndexTrap>
        requires a { a < length self.old.arrays }
        requires i { i < length self.old.vectors }
        requires y { y < length self.old.vectors }
        requires k { k < length self.old.masks }
        requires there { ArrayThere stores.old (array_in self.old a) }
        requires index { elem_in self.old i ≡ I64 }
        requires elem { elem_in self.old y ≡ array_elem stores.old (array_in self.old a) }
        ensures inside { IfOk result (λ _. outside_at N stores.old self.old a k i ≡ None) }
        ensures written { IfOk result (λ _. Scattered N stores.old (array_in self.old a) stores.new (array_in self.new a) (masks_at self.old k) (vectors_at self.old i) (vectors_at self.old y)) }
        ensures others { IfOk result (λ _. self.new ≡ record self.old { arrays = slice_set self.old.arrays a (array_in self.new a) }) }
        ensures lowest { IfErr result (λ t. outside_at N stores.old self.old a k i ≡ Some t.instance) }
        ensures same { IfErr result (λ t. self.new ≡ self.old) }
        ensures same_stores { IfErr result (λ t. stores.new ≡ stores.old) }
    {
        let index = &self.vectors[i as usize];
        let value = &self.vectors[y as usize];
        let mask = &self.masks[k as usize];
        mask.told();
        self.arrays[a as usize].scatter(stores, index, value, mask)
    }

    /// Zeroes an array that all lanes share, or the lanes' own in a mask.
    pub fn clear(&mut self, stores: &mut Arrays, a: u32, k: u32)
        requires a { a < length self.old.arrays }
        requires k { k < length self.old.masks }
        requires there { ArrayThere stores.old (array_in self.old a) }
        ensures written { Rewritten stores.old (array_in self.old a) stores.new (array_in self.new a) (λ f e. 0) (λ f e p. if masks_at self.old k p then 0 else f e p) }
        ensures others { self.new ≡ record self.old { arrays = slice_set self.old.arrays a (array_in self.new a) } }
    {
        let mask = &self.masks[k as usize];
        self.arrays[a as usize].clear(stores, mask);
    }
}
