//! Arrays that a function opens: how many bytes they have.
ghost use Rattle.std.specs.Prelude.{◌≡◌, ◌≤◌, ◌<◌, ◌^◌, ◌*◌, nat_lt, suc};
ghost use Rattle.isp_wasm.specs.Places as places;
ghost use Rattle.isp_wasm.specs.Stack as stack;

use isp_base::Elem;
use isp_code::{Local, Sharing};

/// How many bytes have a number of 32 bits.
const BYTES: u128 = 1 << 32;

// The bytes of an array.
fn copy_bytes(local: &Local) -> u64
    ensures is { result ≡ local.now.size * places.bytes_of local.now.elem }
    ensures few { result ≤ 8 * 2 ^ 32 }
{
    let size = u64::from(local.size);
    match local.elem {
        Elem::Bool | Elem::I8 | Elem::U8 => size,
        Elem::I16 | Elem::U16 => 2 * size,
        Elem::I32 | Elem::U32 => 4 * size,
        Elem::I64 | Elem::U64 => 8 * size,
    }
}

// The same of all its copies, where each of so many lanes may have its own.
#[tactic(auto, using(crate::proofs::Covered::few_copies))]
fn local_bytes(lanes: u32, local: &Local) -> u64
    requires { lanes ≤ 32 }
    ensures is { result ≡ stack.local_bytes lanes local.now }
    ensures few { result ≤ 2 ^ 40 }
{
    let bytes = copy_bytes(local);
    match local.sharing {
        Sharing::Shared => bytes,
        Sharing::PerInstance => u64::from(lanes) * bytes,
    }
}

// How many bytes they have.
fn bytes_in(lanes: u32, locals: &[Local]) -> u128
    requires { lanes ≤ 32 }
    ensures is { result ≡ stack.bytes_in lanes locals.now }
    ensures few { result < 2 ^ 104 }
{
    let mut sum = 0;
    for local in locals {
        sum += u128::from(local_bytes(lanes, local));
    }
    sum
}

/// Whether their bytes, and one more, have a number of 32 bits.
pub(crate) fn is_small(lanes: u32, locals: &[Local]) -> bool
    requires { lanes ≤ 32 }
    ensures { result ≡ nat_lt (suc (stack.bytes_in lanes locals.now)) (2 ^ 32) }
{
    bytes_in(lanes, locals) + 1 < BYTES
}
