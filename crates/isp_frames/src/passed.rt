//! What a function is given.
ghost use Rattle.std.specs.Prelude.{◌≡◌, ◌≤◌, ◌<◌, ◌+◌, ◌++◌, ◌∷◌, [], map, length, replicate, slice_set, true, false, IfOk, OnOk, OnErr};
ghost use Rattle.std.specs.List.{All};
ghost use Rattle.isp_base.specs.Maps.{lane_of, on, over};
ghost use Rattle.isp_base.specs.Sets.{flag_of};
ghost use Rattle.isp_code.specs.Calls.{numbers};
ghost use Rattle.isp_code.specs.Machine.{values};
ghost use Rattle.isp_code.specs.Registers.{same_class, arrays_of};
ghost use Rattle.isp_frames.specs.Begun.{seen, zero_seen, seen_array, passed_lanes, passed_array, stores_from, AreThere};
ghost use Rattle.isp_frames.specs.Shapes.{Shaped};
ghost use Rattle.isp_frames.specs.Views.{scalars_at};

use crate::array::FrameArray;
use crate::frame::Frame;
use crate::here::Here;
use crate::kernels::copied;
use crate::zeros::Zeros;
use isp_base::{Argument, Elem, low_bits};
use isp_code::{Class, Register};
use isp_lanes::{LaneMask, Lanes};
use std::alloc::{AllocError, Global};
use std::slice;

// Whether a register has a class.
fn is_class(x: Register, class: Class) -> bool
    ensures same { result ≡ same_class x.class class }
    ensures class { result ≡ true → x.class ≡ class }
{
    x.class == class
}

/// The scalars that a call passes, in the place of others.
pub fn passed_scalars<const N: usize>(
    scalars: &mut Vec<u64>,
    here: &Here,
    frame: &Frame<N>,
    arguments: &[Register],
) -> Result<(), AllocError>
    requires shaped { Shaped here.now.routine frame.now }
    requires there { AreThere here.now.routine arguments.now }
    ensures { OnOk result (scalars.new.items ≡ map (scalars_at frame.now) (numbers Class.Scalar arguments.now)) }
{
    scalars.clear();
    for x in arguments {
        if is_class(*x, Class::Scalar) {
            scalars.push(here.scalar(frame, *x))?;
        }
    }
    Ok(())
}

// A vector that is zero in each lane.
fn zero_lanes<const N: usize>(elem: Elem) -> Lanes<N>
    ensures elem { result.elem ≡ elem }
    ensures lanes { lane_of result.bits ≡ (λ p. 0) }
{
    Lanes::zero(elem)
}

// The lanes of a mask, and 0 in the others.
fn masked<const N: usize>(x: &Lanes<N>, mask: &LaneMask<N>) -> Lanes<N>
    ensures elem { result.elem ≡ x.now.elem }
    ensures lanes { lane_of result.bits ≡ over (on (flag_of mask.now) (lane_of x.now.bits)) (λ p. 0) }
{
    let mut lanes = zero_lanes(x.elem());
    copied(&mut lanes, x, mask);
    lanes
}

/// The vectors that a call passes in the lanes of a mask, in the place of others.
pub fn passed_vectors<const N: usize>(
    vectors: &mut Vec<Lanes<N>>,
    here: &Here,
    frame: &Frame<N>,
    arguments: &[Register],
    mask: &LaneMask<N>,
) -> Result<(), AllocError>
    requires shaped { Shaped here.now.routine frame.now }
    requires there { AreThere here.now.routine arguments.now }
    ensures { OnOk result (map seen vectors.new.items ≡ map (passed_lanes frame.now (flag_of mask.now)) (numbers Class.Vector arguments.now)) }
{
    vectors.clear();
    for x in arguments {
        if is_class(*x, Class::Vector) {
            vectors.push(masked(frame.vector(x.number), mask))?;
        }
    }
    Ok(())
}

/// The arrays that a call passes, by reference, in the place of others.
pub fn passed_arrays<const N: usize>(
    arrays: &mut Vec<FrameArray<N>>,
    here: &Here,
    frame: &Frame<N>,
    arguments: &[Register],
) -> Result<(), AllocError>
    requires count { length frame.now.arrays ≡ length (arrays_of here.now.routine) }
    requires there { AreThere here.now.routine arguments.now }
    ensures { OnOk result (map seen_array arrays.new.items ≡ map (passed_array frame.now) (numbers Class.Array arguments.now)) }
{
    arrays.clear();
    for x in arguments {
        if is_class(*x, Class::Array) {
            arrays.push(FrameArray::new(frame.array(x.number).store(), None))?;
        }
    }
    Ok(())
}

/// The values among the arguments of a run.
pub fn argument_values(alloc: Global, arguments: &[Argument]) -> Result<Vec<u64>, AllocError>
    ensures { IfOk result (λ v. v.items ≡ values arguments.now) }
{
    let mut scalars = Vec::new(alloc);
    for argument in arguments {
        match argument {
            Argument::Value(value) => scalars.push(low_bits(value.elem, value.bits))?,
            Argument::Array(_array) => {}
        }
    }
    Ok(scalars)
}

/// The arrays among the arguments of a run are the first stores.
pub fn argument_arrays<const N: usize>(
    alloc: Global,
    count: usize,
) -> Result<Vec<FrameArray<N>>, AllocError>
    ensures { IfOk result (λ v. map seen_array v.items ≡ stores_from 0 count) }
{
    let mut arrays = Vec::new(alloc);
    for store in 0..count {
        arrays.push(FrameArray::new(store, None))?;
    }
    Ok(arrays)
}

/// Zeros after scalars.
pub fn push_zeros(scalars: &mut Vec<u64>, count: usize) -> Result<(), AllocError>
    ensures { OnOk result (scalars.new.items ≡ scalars.old.items ++ replicate count 0) }
{
    scalars.reserve(count)?;
    scalars.resize(scalars.len() + count, 0)?;
    Ok(())
}

// A vector that is zero after vectors.
fn push_zero<const N: usize>(
    vectors: &mut Vec<Lanes<N>>,
    zeros: &Zeros<N>,
    elem: Elem,
) -> Result<(), AllocError>
    ensures { OnOk result (map seen vectors.new.items ≡ map seen vectors.old.items ++ zero_seen elem ∷ []) }
{
    vectors.extend_from_slice(slice::from_ref(zeros.of(elem)))?;
    Ok(())
}

/// Vectors that are zero after vectors.
pub fn push_zero_lanes<const N: usize>(
    vectors: &mut Vec<Lanes<N>>,
    zeros: &Zeros<N>,
    elems: &[Elem],
) -> Result<(), AllocError>
    ensures { OnOk result (map seen vectors.new.items ≡ map seen vectors.old.items ++ map zero_seen elems.now) }
{
    vectors.reserve(elems.len())?;
    for elem in elems {
        push_zero(vectors, zeros, *elem)?;
    }
    Ok(())
}

/// So many masks in the place of others: no lane is on, but for the first mask.
pub fn first_masks<const N: usize>(
    masks: &mut Vec<LaneMask<N>>,
    count: u32,
    first: &LaneMask<N>,
) -> Result<(), AllocError>
    requires few { N ≤ 64 }
    requires some { 0 < count }
    ensures { OnOk result (masks.new.items ≡ slice_set (replicate count (replicate N false)) 0 first.now) }
{
    masks.clear();
    masks.resize(count as usize, LaneMask::none())?;
    masks[0] = *first;
    Ok(())
}
