//! Conversions of vectors, part by part.
ghost use Rattle.std.specs.Prelude.{◌≡◌, ◌++◌, ◌-◌, ◌^◌, ◌<◌, OnOk, slice_index};
ghost use Rattle.isp_base.specs.Values.{width};
ghost use Rattle.isp_wasm_meaning.specs.Digits.{packed};
ghost use Rattle.isp_wasm_meaning.specs.Meaning.{of_lanes, wide};
ghost use Rattle.isp_wasm_binary.specs.Instructions.{expr_bytes};
ghost use Rattle.isp_wasm_binary.specs.Named as named;
ghost use Rattle.isp_wasm_write.specs.Settings.{setting};
ghost use Rattle.isp_wasm_vectors.specs.reader.Tails as tails;
ghost use Rattle.isp_wasm_vectors.specs.reader.Vectors as vectors;

use crate::rows::{Row, as_bytes, resized};
use isp_base::Elem;
use isp_code::Register;
use isp_wasm_binary::{Binary, Bitwise, Bytes, Shape};
use isp_wasm_write::{Kernel, Refusal, shape_of};
use std::alloc::AllocError;

// How many bits a value has.
fn width_of(elem: Elem) -> u8
    ensures { result ≡ width elem }
{
    match elem {
        Elem::Bool => 1,
        Elem::I8 | Elem::U8 => 8,
        Elem::I16 | Elem::U16 => 16,
        Elem::I32 | Elem::U32 => 32,
        Elem::I64 | Elem::U64 => 64,
    }
}

// The bytes of a part whose lanes are all a number.
#[tactic(auto, unfolding(isp_wasm_meaning::specs::Digits::packed))]
fn same_lanes(shape: Shape, number: u8) -> [u8; 16]
    ensures { packed 256 16 (slice_index result) ≡ of_lanes (named.shape shape) (λ i. number) }
{
    let n = number;
    match shape {
        Shape::I8x16 => [n, n, n, n, n, n, n, n, n, n, n, n, n, n, n, n],
        Shape::I16x8 => [n, 0, n, 0, n, 0, n, 0, n, 0, n, 0, n, 0, n, 0],
        Shape::I32x4 => [n, 0, 0, 0, n, 0, 0, 0, n, 0, 0, 0, n, 0, 0, 0],
        Shape::I64x2 => [n, 0, 0, 0, 0, 0, 0, 0, n, 0, 0, 0, 0, 0, 0, 0],
    }
}

// Of a part whose lanes have the bits of values of a type alone, all ones.
#[tactic(auto, unfolding(isp_wasm_meaning::specs::Digits::packed))]
fn value_bits(elem: Elem, shape: Shape) -> [u8; 16]
    requires { width elem < wide (named.shape shape) }
    ensures { packed 256 16 (slice_index result) ≡ of_lanes (named.shape shape) (λ i. 2 ^ width elem - 1) }
{
    const N: u8 = 255;
    match (elem, shape) {
        (Elem::Bool, _) => same_lanes(shape, 1),
        (Elem::I8 | Elem::U8, _) => same_lanes(shape, N),
        (Elem::I16 | Elem::U16, Shape::I32x4) => {
            [N, N, 0, 0, N, N, 0, 0, N, N, 0, 0, N, N, 0, 0]
        }
        (Elem::I16 | Elem::U16, _) => [N, N, 0, 0, 0, 0, 0, 0, N, N, 0, 0, 0, 0, 0, 0],
        _ => [N, N, N, N, 0, 0, 0, 0, N, N, N, N, 0, 0, 0, 0],
    }
}

// After a part of lanes that were of a type: the bits of its values alone, where those of the other are wider.
#[tactic(auto, using(crate::proofs::ConvertBytes::value_fits))]
fn masked(out: &mut Bytes, from: Elem, to: Elem) -> Result<(), AllocError>
    ensures { OnOk result (out.new ≡ out.old ++ tails.masked_tail from to) }
{
    if width_of(from) >= width_of(to) {
        return Ok(());
    }
    out.const128(&value_bits(from, shape_of(to)))?;
    out.binary(Binary::Bits(Bitwise::And))
}

// The same, where the type has no sign: the one that came in is out again.
fn without_sign(out: &mut Bytes, from: Elem, to: Elem) -> Result<(), AllocError>
    ensures { OnOk result (out.new ≡ out.old ++ tails.unsigned_tail from to) }
{
    match from {
        Elem::I8 | Elem::I16 | Elem::I32 | Elem::I64 => Ok(()),
        _ => masked(out, from, to),
    }
}

/// Appends a part of a vector of a type as one of another's.
#[tactic(auto, using(crate::proofs::ConvertBytes::without_sign_bytes))]
pub(crate) fn converted(
    kernel: &Kernel,
    out: &mut Bytes,
    result_to: Register,
    value: Register,
    part: u8,
) -> Result<(), Refusal>
    requires { part < 16 }
    ensures { OnOk result (out.new ≡ out.old ++ expr_bytes (vectors.converted (setting kernel.now) result_to value part)) }
{
    let from = kernel.elem(value);
    match kernel.elem(result_to) {
        Elem::Bool => as_bytes(kernel, out, &Row::NotZero(value), part),
        to => {
            resized(kernel, out, shape_of(to), &Row::Lanes(value), part)?;
            Ok(without_sign(out, from, to)?)
        }
    }
}
