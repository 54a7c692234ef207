//! One entry of the header of an NPY file.
ghost use Rattle.std.specs.Prelude.{◌≡◌, ◌≢◌, ◌<◌, ◌≤◌, ◌==◌, ℕ, List, slice_index, bytes_eq, drop, length, not, take, IfErr, IfOk, Ok, Err, OnOk};
ghost use Rattle.std.specs.List.{prefix_len};
ghost use Rattle.isp_files.specs.Npy.{dim_at, dims_of, elem_of, entry_of, is_little, mark_of, order_at, quoted_of, shape_of};
ghost use Rattle.isp_files.specs.Npy.{signed_of, type_at, unsigned_of, until_of, value_of, whole_of};
ghost use Rattle.isp_files.specs.Reading.{ahead, past_blanks};
ghost use Rattle.isp_files.specs.reader.Headers.{said};
ghost use Rattle.isp_files.specs.declared.fault.Flaw.TheVariants.{Keys};
ghost use Rattle.isp_files.specs.declared.fault.Slip.TheVariants as slip;

use crate::fault::{Flaw, Slip};
use crate::reader::Reader;
use isp_base::Elem;
use std::alloc::Global;

/// What an entry says.
#[derive(Drop)]
pub(crate) enum Entry {
    /// The type of the elements.
    Kind(Elem),
    /// The order is that of C.
    Order,
    /// The lengths of the dimensions.
    Shape(Vec<usize>),
}

/// A key, a colon and its value.
#[tactic(auto, unfolding(crate::specs::Npy::entry_of))]
pub(crate) fn next_entry(alloc: Global, reader: &mut Reader<'_>) -> Result<Entry, Slip>
    ensures ok { IfOk result (λ e. entry_of reader.old ≡ Ok (said e, reader.new)) }
    ensures err { IfErr result (λ e. e ≢ slip.Memory → entry_of reader.old ≡ Err e) }
{
    reader.blanks();
    let unknown = reader.flawed(Flaw::Keys);
    let key = quoted(reader)?;
    mark(reader, b':')?;
    value(alloc, key, unknown, reader)
}

// What stands after a key.
fn value(alloc: Global, key: &[u8], unknown: Slip, reader: &mut Reader<'_>) -> Result<Entry, Slip>
    ensures ok { (start : List ℕ) → unknown ≡ slip.At Keys (length start) → IfOk result (λ e. value_of key.now start reader.old ≡ Ok (said e, reader.new)) }
    ensures err { (start : List ℕ) → unknown ≡ slip.At Keys (length start) → IfErr result (λ e. e ≢ slip.Memory → value_of key.now start reader.old ≡ Err e) }
{
    if is_word(key, "descr") {
        reader.blanks();
        return Ok(Entry::Kind(kind(reader)?));
    }
    if is_word(key, "fortran_order") {
        reader.blanks();
        order(reader)?;
        return Ok(Entry::Order);
    }
    if is_word(key, "shape") {
        return Ok(Entry::Shape(shape(alloc, reader)?));
    }
    Err(unknown)
}

fn is_word(bytes: &[u8], word: &str) -> bool
    ensures { result ≡ bytes_eq bytes.now word.now }
{
    bytes == word.as_bytes()
}

/// Blanks, then this byte.
pub(crate) fn mark(reader: &mut Reader<'_>, wanted: u8) -> Result<(), Slip>
    ensures ok { OnOk result (mark_of wanted reader.old ≡ Ok (tt, reader.new)) }
    ensures err { IfErr result (λ e. mark_of wanted reader.old ≡ Err e) }
{
    reader.blanks();
    reader.sign(Flaw::Header, wanted)
}

// ---- texts

// A text in quotes of one kind.
fn quoted<'a>(reader: &mut Reader<'a>) -> Result<&'a [u8], Slip>
    ensures ok { IfOk result (λ t. quoted_of reader.old ≡ Ok (t.now, reader.new)) }
    ensures err { IfErr result (λ e. quoted_of reader.old ≡ Err e) }
{
    let strange = reader.flawed(Flaw::Header);
    let quote = reader.byte()?;
    if quote != b'\'' && quote != b'"' {
        return Err(strange);
    }
    until(reader, quote)
}

// The bytes before the next quote.
fn until<'a>(reader: &mut Reader<'a>, quote: u8) -> Result<&'a [u8], Slip>
    ensures ok { IfOk result (λ t. until_of quote reader.old ≡ Ok (t.now, reader.new)) }
    ensures err { IfErr result (λ e. until_of quote reader.old ≡ Err e) }
{
    let bytes = reader.rest();
    let count = before(bytes, quote);
    reader.skip(count);
    reader.sign(Flaw::Header, quote)?;
    Ok(&bytes[..count])
}

// How many bytes stand before the next quote.
fn before(bytes: &[u8], quote: u8) -> usize
    ensures count { result ≡ prefix_len (λ b. not (b == quote)) bytes.now }
    ensures bound { result ≤ length bytes.now }
{
    bytes.iter().take_while(|byte| **byte != quote).count()
}

// ---- the type

// The type of the elements.
fn kind(reader: &mut Reader<'_>) -> Result<Elem, Slip>
    ensures ok { IfOk result (λ t. type_at reader.old ≡ Ok (t, reader.new)) }
    ensures err { IfErr result (λ e. type_at reader.old ≡ Err e) }
{
    if reader.sees(b'[') {
        return Err(reader.flawed(Flaw::Struct));
    }
    let total = reader.rest().len();
    let word = quoted(reader)?;
    match elem(word) {
        Ok(elem) => Ok(elem),
        Err(flaw) => Err(Slip::At { flaw, left: total }),
    }
}

// The byte at a place, 0 where there is none.
fn byte_at(word: &[u8], place: usize) -> u8
    ensures { result ≡ slice_index word.now place }
{
    match word.get(place) {
        Some(byte) => *byte,
        None => 0,
    }
}

fn elem(word: &[u8]) -> Result<Elem, Flaw>
    ensures { result ≡ elem_of word.now }
{
    let (order, kind, size) = (byte_at(word, 0), byte_at(word, 1), byte_at(word, 2));
    if order == b'>' {
        return Err(Flaw::BigEndian);
    }
    if kind == b'f' || kind == b'c' {
        return Err(Flaw::Float);
    }
    if kind == b'V' {
        return Err(Flaw::Struct);
    }
    if word.len() == 3 && is_little(order, size) {
        whole(kind, size)
    } else {
        Err(Flaw::UnknownType)
    }
}

// `<`, or `|` where there is one byte.
fn is_little(order: u8, size: u8) -> bool
    ensures { result ≡ is_little order size }
{
    order == b'<' || (order == b'|' && size == b'1')
}

fn whole(kind: u8, size: u8) -> Result<Elem, Flaw>
    ensures { result ≡ whole_of kind size }
{
    if kind == b'i' {
        signed(size)
    } else if kind == b'u' {
        unsigned(size)
    } else if kind == b'b' && size == b'1' {
        Ok(Elem::Bool)
    } else {
        Err(Flaw::UnknownType)
    }
}

fn signed(size: u8) -> Result<Elem, Flaw>
    ensures { result ≡ signed_of size }
{
    match size {
        b'1' => Ok(Elem::I8),
        b'2' => Ok(Elem::I16),
        b'4' => Ok(Elem::I32),
        b'8' => Ok(Elem::I64),
        _ => Err(Flaw::UnknownType),
    }
}

fn unsigned(size: u8) -> Result<Elem, Flaw>
    ensures { result ≡ unsigned_of size }
{
    match size {
        b'1' => Ok(Elem::U8),
        b'2' => Ok(Elem::U16),
        b'4' => Ok(Elem::U32),
        b'8' => Ok(Elem::U64),
        _ => Err(Flaw::UnknownType),
    }
}

// ---- the order, and the shape

fn order(reader: &mut Reader<'_>) -> Result<(), Slip>
    ensures ok { OnOk result (order_at reader.old ≡ Ok (tt, reader.new)) }
    ensures err { IfErr result (λ e. order_at reader.old ≡ Err e) }
{
    if reader.sees(b'T') {
        return Err(reader.flawed(Flaw::Fortran));
    }
    reader.word(Flaw::Header, b"False")
}

// The lengths of the dimensions.
fn shape(alloc: Global, reader: &mut Reader<'_>) -> Result<Vec<usize>, Slip>
    ensures ok { IfOk result (λ v. shape_of reader.old ≡ Ok (v.items, reader.new)) }
    ensures err { IfErr result (λ e. e ≢ slip.Memory → shape_of reader.old ≡ Err e) }
{
    mark(reader, b'(')?;
    reader.blanks();
    let mut lengths = Vec::new(alloc);
    if reader.sees(b')') {
        reader.skip(1);
        return Ok(lengths);
    }
    lengths.push(reader.number()?)?;
    mark(reader, b',')?;
    dims(lengths, reader)
}

// The further lengths, after the first, up to `)`.
#[tactic(auto, using(crate::proofs::Steps::dims_next, crate::proofs::Steps::dims_bad, crate::proofs::Steps::dims_closed, crate::proofs::Steps::dims_last, crate::proofs::Steps::dims_deep))]
fn dims(first: Vec<usize>, reader: &mut Reader<'_>) -> Result<Vec<usize>, Slip>
    ensures ok { IfOk result (λ v. ahead first.items (dims_of 63 reader.old) ≡ Ok (v.items, reader.new)) }
    ensures err { IfErr result (λ e. e ≢ slip.Memory → ahead first.items (dims_of 63 reader.old) ≡ Err e) }
{
    let mut lengths = first;
    let mut left = 63usize;
    while left > 0 {
        reader.blanks();
        if reader.sees(b')') {
            reader.skip(1);
            return Ok(lengths);
        }
        let length = dim(reader)?;
        lengths.push(length)?;
        left -= 1;
    }
    reader.blanks();
    reader.sign(Flaw::TooDeep, b')')?;
    Ok(lengths)
}

// A length, and the comma after it, which may be left out before `)`.
fn dim(reader: &mut Reader<'_>) -> Result<usize, Slip>
    ensures ok { IfOk result (λ n. dim_at reader.old ≡ Ok (n, reader.new)) }
    ensures err { IfErr result (λ e. dim_at reader.old ≡ Err e) }
{
    let length = reader.number()?;
    reader.blanks();
    if !reader.sees(b')') {
        reader.sign(Flaw::Header, b',')?;
    }
    Ok(length)
}
