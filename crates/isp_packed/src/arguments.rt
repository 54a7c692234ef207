//! The arguments that bytes hold for a signature.
ghost use Rattle.std.specs.Prelude.{◌≡◌, ◌≢◌, ℕ, ◌+◌, ◌*◌, ◌<◌, ◌≤◌, ◌^◌, drop, false, length, slice_index, true, IfErr, IfNone, IfOk, IfSome, OnOk};
ghost use Rattle.isp_base.specs.Cells.{cell_width};
ghost use Rattle.isp_base.specs.Held.{held, held_width};
ghost use Rattle.isp_packed.specs.Packing.{ArePackable, longest, packed_argument, packed_array, size};
ghost use Rattle.isp_packed.specs.Unpacking.{argument_of, element_of, elements_of, unpacked_of};
ghost use Rattle.isp_packed.specs.reader.Bulk.{EachFits, numbers};

use crate::fault::PackedFault;
use byteorder::{ByteOrder, LittleEndian};
use isp_base::{Argument, Array, Bound, Cells, Elem, Parameter, Signature, Value, low_mask};
use std::alloc::{AllocError, Global};

/// The elements that an array may have: as many as one of the machine can.
const LONGEST: u64 = (1 << 63) - 1;

/// The bytes of a value, and of the number of elements that begins an array.
pub(crate) const WORD: usize = 8;

/// One argument for each parameter, in the order of the signature.
///
/// `bytes` hold for each parameter in turn, the little end first and nothing between: for a value 8
/// bytes, its bits, zero above the width; for an array 8 bytes with the number of its elements, then
/// the elements, each in as many bytes as its type has (a bool in one, 0 or 1).
///
/// The first fault in the order of the bytes is answered: `Short` where they end before a parameter
/// does, `OutOfRange` for a number that the type does not have, `TooLong` for an array of more than
/// 2^63 - 1 elements, `Long` for bytes after the last parameter. `Memory` takes the place of what
/// would follow.
pub fn unpack(alloc: Global, signature: &Signature, bytes: &[u8]) -> Result<Bound, PackedFault>
    ensures ok { IfOk result (λ b. unpacked_of signature.now.params.items bytes.now
        ≡ Ok b.arguments.items) }
    ensures err { IfErr result (λ e. e ≢ PackedFault.Memory
        → unpacked_of signature.now.params.items bytes.now ≡ Err e) }
    // What is unpacked has the signature.
    ensures bound { IfOk result (λ b. ArePackable signature.now.params.items b.arguments.items) }
{
    let mut arguments = Vec::new(alloc);
    let mut rest = bytes;
    for (number, parameter) in signature.params.iter().enumerate() {
        let argument = argument(alloc, number, parameter, rest)?;
        rest = behind(&argument, rest);
        arguments.push(argument)?;
    }
    if !rest.is_empty() {
        return Err(PackedFault::Long);
    }
    Ok(Bound { arguments })
}

// The argument at the beginning of the bytes.
fn argument(
    alloc: Global,
    number: usize,
    parameter: &Parameter,
    bytes: &[u8],
) -> Result<Argument, PackedFault>
    ensures ok { IfOk result (λ x. argument_of number parameter.now bytes.now ≡ Ok x) }
    ensures err { IfErr result (λ e. e ≢ PackedFault.Memory
        → argument_of number parameter.now bytes.now ≡ Err e) }
    ensures within { IfOk result (λ x. length (packed_argument x) ≤ length bytes.now) }
{
    if parameter.is_array {
        array(alloc, number, parameter, bytes)
    } else {
        value(number, parameter, bytes)
    }
}

fn value(number: usize, parameter: &Parameter, bytes: &[u8]) -> Result<Argument, PackedFault>
    requires { parameter.now.is_array ≡ false }
    ensures ok { IfOk result (λ x. argument_of number parameter.now bytes.now ≡ Ok x) }
    ensures err { IfErr result (λ e. argument_of number parameter.now bytes.now ≡ Err e) }
    ensures within { IfOk result (λ x. length (packed_argument x) ≤ length bytes.now) }
{
    let elem = parameter.elem;
    let bits = word(number, elem, bytes)?;
    Ok(Argument::Value(Value { elem, bits }))
}

fn array(
    alloc: Global,
    number: usize,
    parameter: &Parameter,
    bytes: &[u8],
) -> Result<Argument, PackedFault>
    requires { parameter.now.is_array ≡ true }
    ensures ok { IfOk result (λ x. argument_of number parameter.now bytes.now ≡ Ok x) }
    ensures err { IfErr result (λ e. e ≢ PackedFault.Memory
        → argument_of number parameter.now bytes.now ≡ Err e) }
    ensures within { IfOk result (λ x. length (packed_argument x) ≤ length bytes.now) }
{
    let count = word(number, Elem::U64, bytes)?;
    if count > LONGEST {
        return Err(PackedFault::TooLong { parameter: number });
    }
    let (_, rest) = bytes.split_at(WORD);
    let array = elements(alloc, number, parameter.elem, count as usize, rest)?;
    Ok(Argument::Array(array))
}

// The bytes after those of an argument.
fn behind<'a>(argument: &Argument, bytes: &'a [u8]) -> &'a [u8]
    requires { length (packed_argument argument.now) ≤ length bytes.now }
    ensures { result.now ≡ drop (length (packed_argument argument.now)) bytes.now }
{
    // A usize counts them, and so what an argument takes of them.
    let _room = bytes.len();
    match argument {
        Argument::Value(_) => bytes.split_at(WORD).1,
        Argument::Array(array) => bytes.split_at(array_bytes(array)).1,
    }
}

/// How many bytes an array takes.
pub(crate) fn array_bytes(array: &Array) -> usize
    requires { length (packed_array array.now) < 2 ^ 64 }
    ensures whole { result ≡ length (packed_array array.now) }
    ensures parts { result ≡ WORD + size array.now.elem * length array.now.bits }
{
    let elements = size(array.elem()) * array.len();
    WORD + elements
}

// How many bytes an element takes.
pub(crate) fn size(elem: Elem) -> usize
    ensures { result ≡ size elem }
{
    match elem {
        Elem::Bool | Elem::I8 | Elem::U8 => 1,
        Elem::I16 | Elem::U16 => 2,
        Elem::I32 | Elem::U32 => 4,
        Elem::I64 | Elem::U64 => 8,
    }
}

// The number in the first 8 bytes, where it is one of the type.
fn word(number: usize, elem: Elem, bytes: &[u8]) -> Result<u64, PackedFault>
    ensures found { result ≡ element_of number 0 WORD elem bytes.now }
    ensures room { OnOk result (WORD ≤ length bytes.now) }
{
    if bytes.len() < WORD {
        return Err(PackedFault::Short { parameter: number });
    }
    let bits = LittleEndian::read_u64(bytes);
    if bits > low_mask(elem) {
        return Err(PackedFault::OutOfRange {
            parameter: number,
            element: 0,
        });
    }
    Ok(bits)
}

// So many elements at the beginning of the bytes.
fn elements(
    alloc: Global,
    number: usize,
    elem: Elem,
    count: usize,
    bytes: &[u8],
) -> Result<Array, PackedFault>
    requires { count ≤ longest }
    ensures elem { IfOk result (λ a. a.elem ≡ elem) }
    ensures ok { IfOk result (λ a. elements_of number 0 count (size elem) elem bytes.now ≡ Ok a.bits) }
    ensures err { IfErr result (λ e. e ≢ PackedFault.Memory
        → elements_of number 0 count (size elem) elem bytes.now ≡ Err e) }
    ensures within { IfOk result (λ a. size elem * length a.bits ≤ length bytes.now) }
{
    if let Some(element) = misfit(number, elem, count, bytes) {
        return Err(PackedFault::OutOfRange {
            parameter: number,
            element,
        });
    }
    // A usize counts them, and more elements than it counts are not there.
    let _room = bytes.len();
    let Some(end) = size(elem).checked_mul(count) else {
        return Err(PackedFault::Short { parameter: number });
    };
    if bytes.len() < end {
        return Err(PackedFault::Short { parameter: number });
    }
    let (own, _) = bytes.split_at(end);
    let cells = cells(alloc, elem, count, own)?;
    let mut array = Array::empty(alloc, elem);
    array.put_cells(cells);
    Ok(array)
}

// The first of so many elements that is no value of its type, among those that the bytes hold whole.
fn misfit(number: usize, elem: Elem, count: usize, bytes: &[u8]) -> Option<usize>
    ensures none { IfNone result (EachFits (size elem) elem count bytes.now) }
    ensures some { IfSome result (λ k. elements_of number 0 count (size elem) elem bytes.now
        ≡ Err (PackedFault.OutOfRange number k)) }
{
    match elem {
        Elem::Bool => no_bool(count, bytes),
        _ => None,
    }
}

// The place of the first byte above 1 among so many.
fn no_bool(count: usize, bytes: &[u8]) -> Option<usize>
    ensures none { IfNone result ((k : ℕ) → k < count → k < length bytes.now → slice_index bytes.now k < 2) }
    ensures some { IfSome result (λ k. (k < count) × (k < length bytes.now) × (2 ≤ slice_index bytes.now k)
        × ((j : ℕ) → j < k → slice_index bytes.now j < 2)) }
{
    for (place, byte) in bytes.iter().enumerate() {
        if place == count {
            return None;
        }
        if *byte > 1 {
            return Some(place);
        }
    }
    None
}

// The numbers that bytes hold, in words of the width that the type takes.
fn cells(alloc: Global, elem: Elem, count: usize, bytes: &[u8]) -> Result<Cells, AllocError>
    requires { length bytes.now ≡ size elem * count }
    ensures wide { IfOk result (λ c. held_width c ≡ cell_width elem) }
    ensures words { IfOk result (λ c. held c ≡ numbers (size elem) count bytes.now) }
{
    match elem {
        Elem::Bool | Elem::I8 | Elem::U8 => Ok(Cells::Bits8(words_8(alloc, count, bytes)?)),
        Elem::I16 | Elem::U16 => Ok(Cells::Bits16(words_16(alloc, count, bytes)?)),
        Elem::I32 | Elem::U32 => Ok(Cells::Bits32(words_32(alloc, count, bytes)?)),
        Elem::I64 | Elem::U64 => Ok(Cells::Bits64(words_64(alloc, count, bytes)?)),
    }
}

fn words_8(alloc: Global, count: usize, bytes: &[u8]) -> Result<Vec<u8>, AllocError>
    requires { length bytes.now ≡ count }
    ensures { IfOk result (λ v. v.items ≡ numbers 1 count bytes.now) }
{
    let mut words = Vec::with_capacity(alloc, count)?;
    words.extend_from_slice(bytes)?;
    Ok(words)
}

fn words_16(alloc: Global, count: usize, bytes: &[u8]) -> Result<Vec<u16>, AllocError>
    requires { length bytes.now ≡ 2 * count }
    ensures { IfOk result (λ v. v.items ≡ numbers 2 count bytes.now) }
{
    let mut words = Vec::new(alloc);
    words.resize(count, 0u16)?;
    LittleEndian::read_u16_into(bytes, &mut words);
    Ok(words)
}

fn words_32(alloc: Global, count: usize, bytes: &[u8]) -> Result<Vec<u32>, AllocError>
    requires { length bytes.now ≡ 4 * count }
    ensures { IfOk result (λ v. v.items ≡ numbers 4 count bytes.now) }
{
    let mut words = Vec::new(alloc);
    words.resize(count, 0u32)?;
    LittleEndian::read_u32_into(bytes, &mut words);
    Ok(words)
}

fn words_64(alloc: Global, count: usize, bytes: &[u8]) -> Result<Vec<u64>, AllocError>
    requires { length bytes.now ≡ 8 * count }
    ensures { IfOk result (λ v. v.items ≡ numbers 8 count bytes.now) }
{
    let mut words = Vec::new(alloc);
    words.resize(count, 0u64)?;
    LittleEndian::read_u64_into(bytes, &mut words);
    Ok(words)
}
