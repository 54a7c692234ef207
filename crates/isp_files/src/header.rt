//! The header of an NPY file.
ghost use Rattle.std.specs.Prelude.{◌≡◌, ◌≢◌, ◌≤◌, IfErr, IfOk, Ok, Err, OnOk, option_map};
ghost use Rattle.isp_files.specs.Npy.{close_of, dict_of, header_of, padding_of, told};
ghost use Rattle.isp_files.specs.reader.Headers.{said};
ghost use Rattle.isp_files.specs.declared.fault.Slip.TheVariants as slip;

use crate::entry::{Entry, mark, next_entry};
use crate::fault::{Flaw, Slip};
use crate::reader::Reader;
use isp_base::Elem;
use std::alloc::Global;

/// The entries of a header of so many bytes, and what fills it up: the type of the elements, and the shape.
pub(crate) fn header(
    alloc: Global,
    size: usize,
    reader: &mut Reader<'_>,
) -> Result<(Elem, Vec<usize>), Slip>
    ensures ok { IfOk result (λ h. header_of size reader.old ≡ Ok ((h.0, h.1.items), reader.new)) }
    ensures err { IfErr result (λ e. e ≢ slip.Memory → header_of size reader.old ≡ Err e) }
{
    let before = reader.rest().len();
    let told = dict(alloc, reader)?;
    let used = before.saturating_sub(reader.rest().len());
    padding(size.saturating_sub(used), reader)?;
    Ok(told)
}

// So many bytes more: blanks, and a line feed at the end.
#[tactic(auto, using(crate::proofs::Steps::padding_bad))]
fn padding(size: usize, reader: &mut Reader<'_>) -> Result<(), Slip>
    ensures ok { OnOk result (padding_of size reader.old ≡ Ok (tt, reader.new)) }
    ensures err { IfErr result (λ e. padding_of size reader.old ≡ Err e) }
{
    if size == 0 {
        return Err(reader.flawed(Flaw::Header));
    }
    let mut left = size;
    while left > 1 {
        reader.sign(Flaw::Header, b' ')?;
        left -= 1;
    }
    reader.sign(Flaw::Header, b'\n')
}

// The three entries in their braces.
#[tactic(auto, unfolding(crate::specs::Npy::dict_of))]
fn dict(alloc: Global, reader: &mut Reader<'_>) -> Result<(Elem, Vec<usize>), Slip>
    ensures ok { IfOk result (λ h. dict_of reader.old ≡ Ok ((h.0, h.1.items), reader.new)) }
    ensures err { IfErr result (λ e. e ≢ slip.Memory → dict_of reader.old ≡ Err e) }
{
    let start = reader.flawed(Flaw::Keys);
    mark(reader, b'{')?;
    let first = next_entry(alloc, reader)?;
    mark(reader, b',')?;
    let second = next_entry(alloc, reader)?;
    mark(reader, b',')?;
    let third = next_entry(alloc, reader)?;
    close(reader)?;
    match told(first, second, third) {
        Some(told) => Ok(told),
        None => Err(start),
    }
}

// A comma may stand before the brace.
fn close(reader: &mut Reader<'_>) -> Result<(), Slip>
    ensures ok { OnOk result (close_of reader.old ≡ Ok (tt, reader.new)) }
    ensures err { IfErr result (λ e. close_of reader.old ≡ Err e) }
{
    reader.blanks();
    if reader.sees(b',') {
        reader.skip(1);
        reader.blanks();
    }
    reader.sign(Flaw::Header, b'}')
}

// One entry of each kind.
fn told(first: Entry, second: Entry, third: Entry) -> Option<(Elem, Vec<usize>)>
    ensures { option_map (λ h. (h.0, h.1.items)) result ≡ told (said first) (said second) (said third) }
{
    match (first, second, third) {
        (Entry::Kind(elem), Entry::Order, Entry::Shape(shape)) => Some((elem, shape)),
        (Entry::Kind(elem), Entry::Shape(shape), Entry::Order) => Some((elem, shape)),
        (Entry::Order, Entry::Kind(elem), Entry::Shape(shape)) => Some((elem, shape)),
        (Entry::Shape(shape), Entry::Kind(elem), Entry::Order) => Some((elem, shape)),
        (Entry::Order, Entry::Shape(shape), Entry::Kind(elem)) => Some((elem, shape)),
        (Entry::Shape(shape), Entry::Order, Entry::Kind(elem)) => Some((elem, shape)),
        _ => None,
    }
}
