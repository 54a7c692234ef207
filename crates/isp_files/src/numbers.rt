//! Elements in bytes.
ghost use Rattle.std.specs.Prelude.{◌≡◌, ◌≢◌, ◌<◌, ◌≤◌, ◌^◌, ◌++◌, IfErr, IfOk, Ok, Err};
ghost use Rattle.isp_base.specs.Values.{width};
ghost use Rattle.isp_files.specs.Endian.{number_in};
ghost use Rattle.isp_files.specs.Reading.{numbers_of, one_of};
ghost use Rattle.isp_files.specs.declared.fault.Slip.TheVariants as slip;

use crate::endian::Endian;
use crate::fault::{Flaw, Slip};
use crate::reader::Reader;
use isp_base::{Array, Elem};
use std::alloc::Global;

/// How elements stand in bytes: their type, the bytes of each, and the greatest.
#[derive(Clone, Copy)]
pub(crate) struct Cell {
    pub(crate) elem: Elem,
    pub(crate) size: usize,
    pub(crate) most: u64,
}

/// So many elements.
pub(crate) fn numbers(
    alloc: Global,
    endian: Endian,
    cell: Cell,
    count: usize,
    reader: &mut Reader<'_>,
) -> Result<Array, Slip>
    requires some { 1 ≤ cell.size }
    requires few { cell.size ≤ 8 }
    requires fits { cell.most < 2 ^ width cell.elem }
    ensures elem { IfOk result (λ a. a.elem ≡ cell.elem) }
    ensures ok { IfOk result (λ a. numbers_of (number_in endian) cell.size cell.most count reader.old ≡ Ok (a.bits, reader.new)) }
    ensures err { IfErr result (λ e. e ≢ slip.Memory → numbers_of (number_in endian) cell.size cell.most count reader.old ≡ Err e) }
{
    let mut array = Array::empty(alloc, cell.elem);
    let mut left = count;
    while left > 0 {
        let bits = number(endian, cell, reader)?;
        array.push(bits)?;
        left -= 1;
    }
    Ok(array)
}

// One element.
fn number(endian: Endian, cell: Cell, reader: &mut Reader<'_>) -> Result<u64, Slip>
    requires some { 1 ≤ cell.size }
    requires few { cell.size ≤ 8 }
    ensures fits { IfOk result (λ n. n ≤ cell.most) }
    ensures ok { IfOk result (λ n. one_of (number_in endian) cell.size cell.most reader.old ≡ Ok (n, reader.new)) }
    ensures err { IfErr result (λ e. one_of (number_in endian) cell.size cell.most reader.old ≡ Err e) }
{
    let bytes = reader.rest();
    if bytes.len() < cell.size {
        return Err(Slip::At {
            flaw: Flaw::Ends,
            left: 0,
        });
    }
    let number = endian.number(bytes, cell.size);
    if number > cell.most {
        return Err(reader.flawed(Flaw::NoValue));
    }
    reader.skip(cell.size);
    Ok(number)
}
