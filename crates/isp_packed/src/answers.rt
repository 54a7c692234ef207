//! The answer of a run, as bytes.
ghost use Rattle.std.specs.Prelude.{◌≡◌, ◌*◌, ◌/◌, ◌<◌, ◌≤◌, ◌^◌, ◌++◌, drop, length, min, IfErr, IfOk, MatchOption, OnErr, OnOk};
ghost use Rattle.std.specs.List.{flat_map};
ghost use Rattle.byteorder.specs.Endian.{little_bytes};
ghost use Rattle.isp_base.specs.Held.{held, held_width};
ghost use Rattle.isp_packed.specs.Packing.{packed_answer, packed_array, packed_result};

use crate::arguments::{WORD, array_bytes, size};
use crate::fault::NoRoom;
use byteorder::{ByteOrder, LittleEndian};
use isp_base::{Array, Cells, Value, low_bits};

/// Writes the arrays of an answer and then its result at the beginning of `into`, and gives the number
/// of bytes that they take. The bytes after them stay.
///
/// The form is that of arguments: for each array 8 bytes with the number of its elements, then the
/// elements; for the result 8 bytes, its bits, zero above the width. So an answer whose arrays are as
/// long as those of the arguments takes no more bytes than these, and 8 for a result. Where `into` has
/// fewer, `NoRoom` says how many are wanted (usize::MAX where they are more), and nothing is written.
pub fn pack(arrays: &[Array], returned: Option<Value>, into: &mut [u8]) -> Result<usize, NoRoom>
    ensures count { IfOk result (λ n. n ≡ length (packed_answer arrays.now returned)) }
    ensures ok { OnOk result (into.new ≡ packed_answer arrays.now returned
        ++ drop (length (packed_answer arrays.now returned)) into.old) }
    ensures err { IfErr result (λ e. e.wanted ≡ min (length (packed_answer arrays.now returned)) usize.MAX) }
    ensures short { OnErr result (length into.old < length (packed_answer arrays.now returned)) }
    ensures unchanged { OnErr result (into.new ≡ into.old) }
{
    let Some(wanted) = wanted(arrays, returned) else {
        return Err(NoRoom { wanted: usize::MAX });
    };
    if into.len() < wanted {
        return Err(NoRoom { wanted });
    }
    put_answer(arrays, returned, into);
    Ok(wanted)
}

// The bytes that an answer takes, where a usize can count them.
fn wanted(arrays: &[Array], returned: Option<Value>) -> Option<usize>
    ensures { MatchOption result (2 ^ 64 ≤ length (packed_answer arrays.now returned))
        (λ n. n ≡ length (packed_answer arrays.now returned)) }
{
    let mut wanted = result_bytes(returned);
    for array in arrays {
        let bytes = array_wanted(array)?;
        wanted = wanted.checked_add(bytes)?;
    }
    Some(wanted)
}

// The same of one array.
fn array_wanted(array: &Array) -> Option<usize>
    ensures { MatchOption result (2 ^ 64 ≤ length (packed_array array.now))
        (λ n. n ≡ length (packed_array array.now)) }
{
    let elements = size(array.elem()).checked_mul(array.len())?;
    elements.checked_add(WORD)
}

fn result_bytes(returned: Option<Value>) -> usize
    ensures { result ≡ length (packed_result returned) }
{
    match returned {
        Some(_) => WORD,
        None => 0,
    }
}

fn put_answer(arrays: &[Array], returned: Option<Value>, into: &mut [u8])
    requires { length (packed_answer arrays.now returned) ≤ length into.old }
    ensures { into.new ≡ packed_answer arrays.now returned
        ++ drop (length (packed_answer arrays.now returned)) into.old }
{
    let end = put_arrays(arrays, into);
    put_result(returned, &mut into[end..]);
}

// Each array after the one before; where the last one ends.
fn put_arrays(arrays: &[Array], into: &mut [u8]) -> usize
    requires { length (flat_map packed_array arrays.now) ≤ length into.old }
    ensures end { result ≡ length (flat_map packed_array arrays.now) }
    ensures bytes { into.new ≡ flat_map packed_array arrays.now
        ++ drop (length (flat_map packed_array arrays.now)) into.old }
{
    let mut end = 0;
    for array in arrays {
        end += put_array(array, &mut into[end..]);
    }
    end
}

// The number of elements, then the elements; where they end.
fn put_array(array: &Array, into: &mut [u8]) -> usize
    requires { length (packed_array array.now) ≤ length into.old }
    ensures end { result ≡ length (packed_array array.now) }
    ensures bytes { into.new ≡ packed_array array.now ++ drop (length (packed_array array.now)) into.old }
{
    // A usize counts them, and so what the array takes of them.
    let _room = into.len();
    let end = array_bytes(array);
    LittleEndian::write_u64(into, array.len() as u64);
    put_cells(array.cells(), &mut into[WORD..end]);
    end
}

// The words, each in its bytes.
fn put_cells(cells: &Cells, into: &mut [u8])
    requires { length into.old ≡ held_width cells.now / 8 * length (held cells.now) }
    ensures { into.new ≡ flat_map (little_bytes (held_width cells.now / 8)) (held cells.now) }
{
    match cells {
        Cells::Bits8(words) => put_bytes(words.as_slice(), into),
        Cells::Bits16(words) => LittleEndian::write_u16_into(words.as_slice(), into),
        Cells::Bits32(words) => LittleEndian::write_u32_into(words.as_slice(), into),
        Cells::Bits64(words) => LittleEndian::write_u64_into(words.as_slice(), into),
    }
}

fn put_bytes(words: &[u8], into: &mut [u8])
    requires { length into.old ≡ length words.now }
    ensures { into.new ≡ flat_map (little_bytes 1) words.now }
{
    into.copy_from_slice(words);
}

fn put_result(returned: Option<Value>, into: &mut [u8])
    requires { length (packed_result returned) ≤ length into.old }
    ensures { into.new ≡ packed_result returned ++ drop (length (packed_result returned)) into.old }
{
    if let Some(value) = returned {
        LittleEndian::write_u64(into, low_bits(value.elem, value.bits));
    }
}
