//! Lists of values of one element type.
ghost use Rattle.std.specs.Prelude.{◌≡◌, ◌<◌, ◌^◌, ◌++◌, ◌∷◌, [], length, slice_index, slice_set, OnOk, OnErr};
ghost use Rattle.isp_base.specs.Values.{width};
ghost use Rattle.isp_base.specs.Cells.{cell_width};
ghost use Rattle.isp_base.specs.Held.{held, held_width};
ghost use Rattle.isp_base.specs.Rows.{Fit};

use crate::types::Elem;
use std::alloc::{AllocError, Global};
use std::marker::Model;
use std::mem;

/// An array of a program: an element type and the bits of each element, zero above the element
/// type's width. Contracts see a `Row`.
///
/// An element takes as many bits as its type has, and a `bool` takes 8.
#[derive(Debug, Drop)]
pub struct Array {
    elem: Elem,
    cells: Cells,
}

/// The elements' bits, in words of the width that their type takes.
#[derive(Debug, Drop)]
pub enum Cells {
    Bits8(Vec<u8>),
    Bits16(Vec<u16>),
    Bits32(Vec<u32>),
    Bits64(Vec<u64>),
}

impl Model for Array {
    ghost use Rattle.std.specs.Prelude.{◌≡◌};
    ghost use Rattle.isp_base.specs.Rows.{Row, Fit};
    ghost use Rattle.isp_base.specs.Cells.{cell_width};
    ghost use Rattle.isp_base.specs.Held.{held, held_width};

    ghost Value = { Row };

    ghost view = { λ a. record { elem = a.elem; bits = held a.cells } };

    ghost invariant = { λ a. Fit a.elem (held a.cells) × (held_width a.cells ≡ cell_width a.elem) };
}

impl Array {
    /// The array without elements.
    pub fn empty(alloc: Global, elem: Elem) -> Array
        ensures { result ≡ record { elem = elem; bits = [] } }
    {
        Array {
            elem,
            cells: Cells::empty(alloc, elem),
        }
    }

    /// The element type.
    pub fn elem(&self) -> Elem
        ensures { result ≡ self.now.elem }
    {
        self.elem
    }

    /// The number of elements.
    pub fn len(&self) -> usize
        ensures { result ≡ length self.now.bits }
    {
        match &self.cells {
            Cells::Bits8(words) => words.len(),
            Cells::Bits16(words) => words.len(),
            Cells::Bits32(words) => words.len(),
            Cells::Bits64(words) => words.len(),
        }
    }

    /// What every array promises: a whole number of 64 bits with a sign can name each of its elements.
    pub fn told(&self)
        ensures { length self.now.bits < 2 ^ 63 }
    {
        let _held = &self.cells;
    }

    /// The elements' words.
    pub fn cells(&self) -> &Cells
        ensures words { held result.now ≡ self.now.bits }
        ensures wide { held_width result.now ≡ cell_width self.now.elem }
        ensures fits { Fit self.now.elem (held result.now) }
    {
        &self.cells
    }

    /// The bits of one element.
    pub fn at(&self, place: usize) -> u64
        requires { place < length self.now.bits }
        ensures value { result ≡ slice_index self.now.bits place }
        ensures fits { result < 2 ^ width self.now.elem }
    {
        match &self.cells {
            Cells::Bits8(words) => words.as_slice()[place] as u64,
            Cells::Bits16(words) => words.as_slice()[place] as u64,
            Cells::Bits32(words) => words.as_slice()[place] as u64,
            Cells::Bits64(words) => words.as_slice()[place],
        }
    }

    /// Writes one element.
    pub fn put(&mut self, place: usize, bits: u64)
        requires there { place < length self.old.bits }
        requires fits { bits < 2 ^ width self.old.elem }
        ensures { self.new ≡ record { elem = self.old.elem; bits = slice_set self.old.bits place bits } }
    {
        match &mut self.cells {
            Cells::Bits8(words) => words[place] = bits as u8,
            Cells::Bits16(words) => words[place] = bits as u16,
            Cells::Bits32(words) => words[place] = bits as u32,
            Cells::Bits64(words) => words[place] = bits,
        }
    }

    /// One more element, after the others.
    pub fn push(&mut self, bits: u64) -> Result<(), AllocError>
        requires { bits < 2 ^ width self.old.elem }
        ensures ok { OnOk result (self.new ≡ record { elem = self.old.elem; bits = self.old.bits ++ bits ∷ [] }) }
        ensures err { OnErr result (self.new ≡ self.old) }
    {
        match &mut self.cells {
            Cells::Bits8(words) => words.push(bits as u8)?,
            Cells::Bits16(words) => words.push(bits as u16)?,
            Cells::Bits32(words) => words.push(bits as u32)?,
            Cells::Bits64(words) => words.push(bits)?,
        }
        Ok(())
    }

    /// The elements' words, for who writes many of them and gives them back by `put_cells`. No element is left, and none is
    /// copied.
    pub fn take_cells(&mut self, alloc: Global) -> Cells
        ensures words { held result ≡ self.old.bits }
        ensures wide { held_width result ≡ cell_width self.old.elem }
        ensures fits { Fit self.old.elem (held result) }
        ensures left { self.new ≡ record { elem = self.old.elem; bits = [] } }
    {
        mem::replace(&mut self.cells, Cells::empty(alloc, self.elem))
    }

    /// These words in the place of all elements.
    pub fn put_cells(&mut self, cells: Cells)
        requires wide { held_width cells ≡ cell_width self.old.elem }
        requires fits { Fit self.old.elem (held cells) }
        ensures { self.new ≡ record { elem = self.old.elem; bits = held cells } }
    {
        self.cells = cells;
    }
}

impl Cells {
    // No words, of the width that the type takes.
    fn empty(alloc: Global, elem: Elem) -> Cells
        ensures none { held result ≡ [] }
        ensures wide { held_width result ≡ cell_width elem }
    {
        match elem {
            Elem::Bool | Elem::I8 | Elem::U8 => Cells::Bits8(Vec::new(alloc)),
            Elem::I16 | Elem::U16 => Cells::Bits16(Vec::new(alloc)),
            Elem::I32 | Elem::U32 => Cells::Bits32(Vec::new(alloc)),
            Elem::I64 | Elem::U64 => Cells::Bits64(Vec::new(alloc)),
        }
    }
}
