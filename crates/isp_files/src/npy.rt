//! NumPy's files of one array.
ghost use Rattle.std.specs.Prelude.{◌≡◌, ◌≢◌, ◌<◌, ◌≤◌, ◌-◌, ◌/◌, ◌^◌, IfErr, IfOk, Ok, Err};
ghost use Rattle.isp_base.specs.Cells.{cell_width};
ghost use Rattle.isp_base.specs.Values.{width};
ghost use Rattle.isp_files.specs.Npy.{elements_of, little_of, npy_of, opening_of, sheet_of};
ghost use Rattle.isp_files.specs.declared.fault.FileFault.TheVariants as fault;
ghost use Rattle.isp_files.specs.declared.fault.Slip.TheVariants as slip;

use crate::endian::Endian;
use crate::fault::{FileFault, Flaw, Slip};
use crate::grid::{Grid, count, placed};
use crate::header::header;
use crate::numbers::{Cell, numbers};
use crate::reader::Reader;
use isp_base::{Array, Elem, low_mask};
use std::alloc::Global;

/// The array of an NPY file, of version 1.0, 2.0 or 3.0, with its shape. Its type is bool, or whole numbers of 8 to 64 bits
/// with the little end first, and its order that of C.
///
/// The first flaw is answered, with its byte, counted from 0: `Ends`, at the length of the file, where it is too short; `Magic`
/// and `Version`; `Header` at the first byte at which no header goes on so; `BigEndian`, `Float`, `Struct` and `UnknownType` at the type,
/// `Fortran` at its `True`; `Keys` at a key that is not known, or at the header where one is there twice; `TooDeep` and `TooMany`
/// of the shape; `NoValue` at a byte of a bool above 1; `Long` at the first byte after the last element. `Memory` takes the
/// place of what would follow.
pub fn read_npy(alloc: Global, bytes: &[u8]) -> Result<Grid, FileFault>
    ensures ok { IfOk result (λ g. npy_of bytes.now ≡ Ok (g.shape.items, g.array)) }
    ensures err { IfErr result (λ e. e ≢ fault.Memory → npy_of bytes.now ≡ Err e) }
{
    let mut reader = Reader::new(bytes);
    match sheet(alloc, &mut reader) {
        Ok(grid) => Ok(grid),
        Err(slip) => Err(placed(bytes.len(), slip)),
    }
}

#[tactic(auto, unfolding(crate::specs::Npy::sheet_of))]
fn sheet(alloc: Global, reader: &mut Reader<'_>) -> Result<Grid, Slip>
    ensures ok { IfOk result (λ g. sheet_of reader.old ≡ Ok ((g.shape.items, g.array), reader.new)) }
    ensures err { IfErr result (λ e. e ≢ slip.Memory → sheet_of reader.old ≡ Err e) }
{
    let size = opening(reader)?;
    let (elem, shape) = header(alloc, size, reader)?;
    let array = elements(alloc, elem, count(&shape), reader)?;
    reader.end()?;
    Ok(Grid { shape, array })
}

// The magic, the version, and the length of the header.
fn opening(reader: &mut Reader<'_>) -> Result<usize, Slip>
    ensures ok { IfOk result (λ n. opening_of reader.old ≡ Ok (n, reader.new)) }
    ensures err { IfErr result (λ e. opening_of reader.old ≡ Err e) }
{
    reader.word(Flaw::Magic, b"\x93NUMPY")?;
    let start = reader.flawed(Flaw::Version);
    match reader.byte()? {
        1 => {
            reader.sign(Flaw::Version, 0)?;
            little(reader, 2)
        }
        2 | 3 => {
            reader.sign(Flaw::Version, 0)?;
            little(reader, 4)
        }
        _ => Err(start),
    }
}

// A number of so many bytes, the little end first.
fn little(reader: &mut Reader<'_>, size: usize) -> Result<usize, Slip>
    requires some { 1 ≤ size }
    requires few { size ≤ 8 }
    ensures ok { IfOk result (λ n. little_of size reader.old ≡ Ok (n, reader.new)) }
    ensures err { IfErr result (λ e. little_of size reader.old ≡ Err e) }
{
    let bytes = reader.rest();
    if bytes.len() < size {
        return Err(Slip::At {
            flaw: Flaw::Ends,
            left: 0,
        });
    }
    let number = Endian::Little.number(bytes, size);
    reader.skip(size);
    Ok(number as usize)
}

fn elements(
    alloc: Global,
    elem: Elem,
    count: Option<usize>,
    reader: &mut Reader<'_>,
) -> Result<Array, Slip>
    ensures elem { IfOk result (λ a. a.elem ≡ elem) }
    ensures ok { IfOk result (λ a. elements_of elem count reader.old ≡ Ok (a.bits, reader.new)) }
    ensures err { IfErr result (λ e. e ≢ slip.Memory → elements_of elem count reader.old ≡ Err e) }
{
    let Some(count) = count else {
        return Err(reader.flawed(Flaw::TooMany));
    };
    let cell = cell(elem);
    numbers(alloc, Endian::Little, cell, count, reader)
}

// How the elements of a type stand in bytes.
fn cell(elem: Elem) -> Cell
    ensures elem { result.elem ≡ elem }
    ensures size { result.size ≡ cell_width elem / 8 }
    ensures most { result.most ≡ 2 ^ width elem - 1 }
    ensures some { 1 ≤ result.size }
    ensures few { result.size ≤ 8 }
{
    let size = match elem {
        Elem::Bool | Elem::I8 | Elem::U8 => 1,
        Elem::I16 | Elem::U16 => 2,
        Elem::I32 | Elem::U32 => 4,
        Elem::I64 | Elem::U64 => 8,
    };
    Cell {
        elem,
        size,
        most: low_mask(elem),
    }
}
