//! The places that assignments write.

ghost use Rattle.std.specs.Prelude.{◌≡◌, OnOk};
ghost use Rattle.isp_solo_meaning.specs.Alone.{put_in, variable, written};
ghost use Rattle.isp_solo_meaning.specs.Places.{cleared, element_kept, kept, outside};
ghost use Rattle.isp_base.specs.Access as Access;
ghost use Rattle.isp_base.specs.Maps.{put};
ghost use Rattle.isp_solo_run.specs.Seen.{frame_seen, own_of, spot_seen};
ghost use Rattle.isp_solo_run.specs.Tasks.{Changes, Finds, HasFound, state_seen};

use crate::state::{Single, Stop};
use isp_base::{BinOp, Elem, Rate, Span, TrapKind, Ty, UnaryOp, apply_unary, number};
use isp_gang_values::growing::{at, put};
use isp_typed::{ArrayVariable, TypedExpr};
use std::alloc::{AllocError, Global};

/// A variable, or the element of an array at an index, whose type is said.
#[derive(Clone, Copy)]
pub enum Place {
    Variable {
        number: usize,
        ty: Ty,
    },
    Element {
        array: ArrayVariable,
        elem: Elem,
        index: u64,
    },
}

/// What is to be done with a place.
#[derive(Clone, Copy)]
pub enum Writing<'a> {
    Assign(&'a TypedExpr),
    Update {
        operator: BinOp,
        elem: Elem,
        value: &'a TypedExpr,
        span: Span,
    },
    Step {
        operator: BinOp,
        elem: Elem,
        span: Span,
    },
}

// Whether an index is outside an array of so many elements.
fn is_outside(elem: Elem, count: usize, bits: u64) -> bool
    ensures { result ≡ Access.is_outside elem count bits }
{
    let index = number(elem, bits);
    index < 0 || index >= count as i128
}

// The element that an index inside its array means.
#[tactic(auto, using(crate::proofs::Elements::absolute_bits))]
fn element(elem: Elem, bits: u64) -> usize
    ensures { result ≡ Access.element elem bits }
{
    apply_unary(UnaryOp::Absolute, elem, bits) as usize
}

impl<'a> Single<'a> {
    /// Whether the index is outside the array.
    pub fn is_outside(&self, place: &Place) -> bool
        ensures { result ≡ outside (frame_seen self.now.here) (spot_seen place.now) }
    {
        match place {
            Place::Variable { .. } => false,
            Place::Element { array, elem, index } => {
                is_outside(*elem, self.here.extent(*array), *index)
            }
        }
    }

    /// What is held at a place, a trap where the index is outside. Of an array that all share it is noted that it was read.
    pub fn hold(&mut self, place: &Place, span: Span) -> Result<u64, Stop>
        ensures { Finds result self.old self.new span (spot_seen place.now) }
    {
        match place {
            Place::Variable { number, ty } => Ok(self.variable(*number, ty.rate)),
            Place::Element { array, elem, index } => {
                if self.is_outside(place) {
                    Err(self.trap(TrapKind::Index, span))
                } else {
                    self.found(*array, element(*elem, *index))
                }
            }
        }
    }

    // What a variable holds.
    fn variable(&self, number: usize, rate: Rate) -> u64
        ensures { result ≡ variable rate number (state_seen self.now) }
    {
        match rate {
            Rate::Uniform => at(self.here.uniforms.as_slice(), number),
            Rate::Varying => at(self.here.varying.as_slice(), number),
        }
    }

    // What an array has at an element.
    fn found(&mut self, array: ArrayVariable, place: usize) -> Result<u64, Stop>
        ensures { HasFound result self.old self.new array place }
    {
        match array.ty.rate {
            Rate::Uniform => {
                let store = self.here.store(array.number);
                match self.arrays.read(self.setting.bound, store, place) {
                    Ok(bits) => Ok(bits),
                    Err(_) => Err(Stop::Memory),
                }
            }
            Rate::Varying => Ok(own_at(self.here.own.as_slice(), array.number, place)),
        }
    }

    /// Writes a place, whose index is not outside.
    pub fn keep(&mut self, place: &Place, bits: u64) -> Result<(), AllocError>
        ensures { OnOk result (Changes self.old self.new (kept (frame_seen self.old.here) (spot_seen place.now) bits)) }
    {
        match place {
            Place::Variable { number, ty } => self.write(*number, ty.rate, bits),
            Place::Element { array, elem, index } => {
                self.store(*array, element(*elem, *index), bits)
            }
        }
    }

    /// Writes a variable.
    pub fn write(&mut self, number: usize, rate: Rate, bits: u64) -> Result<(), AllocError>
        ensures { OnOk result (Changes self.old self.new (written rate number bits)) }
    {
        match rate {
            Rate::Uniform => {
                put(&mut self.here.uniforms, number, bits)?;
                Ok(())
            }
            Rate::Varying => {
                put(&mut self.here.varying, number, bits)?;
                Ok(())
            }
        }
    }

    // Stores in an element of an array.
    fn store(&mut self, array: ArrayVariable, place: usize, bits: u64) -> Result<(), AllocError>
        ensures { OnOk result (Changes self.old self.new (element_kept (frame_seen self.old.here) array.ty.rate array place bits)) }
    {
        match array.ty.rate {
            Rate::Uniform => {
                let store = self.here.store(array.number);
                self.arrays.store(store, place, bits)?;
                Ok(())
            }
            Rate::Varying => {
                put_own(self.alloc, &mut self.here.own, array.number, place, bits)?;
                Ok(())
            }
        }
    }

    /// A declared array begins with zeros.
    pub fn clear(&mut self, array: ArrayVariable) -> Result<(), AllocError>
        ensures { OnOk result (Changes self.old self.new (cleared (frame_seen self.old.here) array.ty.rate array.number)) }
    {
        match array.ty.rate {
            Rate::Uniform => {
                let store = self.here.store(array.number);
                self.arrays.declare(store)?;
                Ok(())
            }
            Rate::Varying => {
                clear_own(&mut self.here.own, array.number);
                Ok(())
            }
        }
    }
}

// The element of an array of the instance's own, 0 where there is none.
fn own_at(arrays: &[Vec<u64>], array: usize, place: usize) -> u64
    ensures { result ≡ own_of arrays.now array place }
{
    if array < arrays.len() {
        at(arrays[array].as_slice(), place)
    } else {
        0
    }
}

// Writes the element of an array of the instance's own.
fn put_own(
    alloc: Global,
    arrays: &mut Vec<Vec<u64>>,
    array: usize,
    place: usize,
    bits: u64,
) -> Result<(), AllocError>
    ensures { OnOk result (own_of arrays.new.items ≡ put_in (own_of arrays.old.items) array place bits) }
{
    for _next in arrays.len()..array {
        arrays.push(Vec::new(alloc))?;
    }
    if array < arrays.len() {
        put(&mut arrays[array], place, bits)?;
    } else {
        let mut values = Vec::new(alloc);
        put(&mut values, place, bits)?;
        arrays.push(values)?;
    }
    Ok(())
}

// All elements of an array of the instance's own become 0.
fn clear_own(arrays: &mut Vec<Vec<u64>>, array: usize)
    ensures { own_of arrays.new.items ≡ put (own_of arrays.old.items) array (λ e. 0) }
{
    if array < arrays.len() {
        arrays[array].clear();
    }
}
