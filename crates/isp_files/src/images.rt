//! Images: PGM and PPM, with samples in bytes.
ghost use Rattle.std.specs.Prelude.{◌≡◌, ◌≢◌, ◌<◌, ◌≤◌, ◌^◌, drop, nat_lt, if◌then◌else◌, false, length, true, IfErr, IfOk, Ok, Err, OnOk};
ghost use Rattle.isp_base.specs.Values.{width};
ghost use Rattle.isp_files.specs.Images.{blank_of, elem_of, ends_line, gap_of, image_of, is_color_of, most_of, past_gap, samples_of, shape_of, sheet_of, size_of};
ghost use Rattle.isp_files.specs.declared.fault.FileFault.TheVariants as fault;
ghost use Rattle.isp_files.specs.declared.fault.Slip.TheVariants as slip;

use crate::endian::Endian;
use crate::fault::{FileFault, Flaw, Slip};
use crate::grid::{Grid, count, placed};
use crate::numbers::{Cell, numbers};
use crate::reader::{Reader, is_blank};
use isp_base::{Array, Elem};
use std::alloc::Global;

/// The samples of a PGM (P5) or a PPM (P6): `uint8` where the greatest is at most 255, else `uint16`. The shape is height and
/// width, and of a PPM 3 after them; the rows come from above.
///
/// The first flaw is answered, with its byte, counted from 0: `Ends`, at the length of the file, where it is too short; `Magic`;
/// `Header` at the first byte at which no header goes on so; `Maxval` at a greatest sample of 0 or above 65535; `TooMany`;
/// `NoValue` at a sample above the greatest; `Long` at the first byte after the last sample. `Memory` takes the place of what
/// would follow.
pub fn read_image(alloc: Global, bytes: &[u8]) -> Result<Grid, FileFault>
    ensures ok { IfOk result (λ g. image_of bytes.now ≡ Ok (g.shape.items, g.array)) }
    ensures err { IfErr result (λ e. e ≢ fault.Memory → image_of bytes.now ≡ Err e) }
{
    let mut reader = Reader::new(bytes);
    match sheet(alloc, &mut reader) {
        Ok(grid) => Ok(grid),
        Err(slip) => Err(placed(bytes.len(), slip)),
    }
}

#[tactic(auto, unfolding(crate::specs::Images::sheet_of))]
fn sheet(alloc: Global, reader: &mut Reader<'_>) -> Result<Grid, Slip>
    ensures ok { IfOk result (λ g. sheet_of reader.old ≡ Ok ((g.shape.items, g.array), reader.new)) }
    ensures err { IfErr result (λ e. e ≢ slip.Memory → sheet_of reader.old ≡ Err e) }
{
    reader.sign(Flaw::Magic, b'P')?;
    let is_color = is_color(reader)?;
    let width = size(reader)?;
    let height = size(reader)?;
    let most = most(reader)?;
    blank(reader)?;
    let shape = shape(alloc, is_color, height, width)?;
    let array = samples(alloc, most, count(&shape), reader)?;
    reader.end()?;
    Ok(Grid { shape, array })
}

// Whether the second byte of the magic is that of a PPM.
fn is_color(reader: &mut Reader<'_>) -> Result<bool, Slip>
    ensures ok { IfOk result (λ b. is_color_of reader.old ≡ Ok (b, reader.new)) }
    ensures err { IfErr result (λ e. is_color_of reader.old ≡ Err e) }
{
    let strange = reader.flawed(Flaw::Magic);
    let kind = reader.byte()?;
    if kind == b'5' {
        Ok(false)
    } else if kind == b'6' {
        Ok(true)
    } else {
        Err(strange)
    }
}

fn shape(alloc: Global, is_color: bool, height: usize, width: usize) -> Result<Vec<usize>, Slip>
    ensures ok { IfOk result (λ v. v.items ≡ shape_of is_color height width) }
    ensures err { IfErr result (λ e. e ≡ slip.Memory) }
{
    if is_color {
        Ok(vec![in alloc; height, width, 3]?)
    } else {
        Ok(vec![in alloc; height, width]?)
    }
}

// A number after a gap.
fn size(reader: &mut Reader<'_>) -> Result<usize, Slip>
    ensures ok { IfOk result (λ n. size_of reader.old ≡ Ok (n, reader.new)) }
    ensures err { IfErr result (λ e. size_of reader.old ≡ Err e) }
{
    gap(reader)?;
    reader.number()
}

// The greatest sample.
fn most(reader: &mut Reader<'_>) -> Result<usize, Slip>
    ensures ok { IfOk result (λ n. most_of reader.old ≡ Ok (n, reader.new)) }
    ensures fits { IfOk result (λ n. n ≤ 65535) }
    ensures err { IfErr result (λ e. most_of reader.old ≡ Err e) }
{
    gap(reader)?;
    let strange = reader.flawed(Flaw::Maxval);
    let most = reader.number()?;
    if most == 0 || most > 65535 {
        return Err(strange);
    }
    Ok(most)
}

// The blank after which the samples begin.
fn blank(reader: &mut Reader<'_>) -> Result<(), Slip>
    ensures ok { OnOk result (blank_of reader.old ≡ Ok (tt, reader.new)) }
    ensures err { IfErr result (λ e. blank_of reader.old ≡ Err e) }
{
    let strange = reader.flawed(Flaw::Header);
    if is_blank(reader.byte()?) {
        Ok(())
    } else {
        Err(strange)
    }
}

// At least one blank or a comment.
fn gap(reader: &mut Reader<'_>) -> Result<(), Slip>
    ensures ok { OnOk result (gap_of reader.old ≡ Ok (tt, reader.new)) }
    ensures err { IfErr result (λ e. gap_of reader.old ≡ Err e) }
{
    let bytes = reader.rest();
    let Some((first, _)) = bytes.split_first() else {
        return Err(reader.flawed(Flaw::Ends));
    };
    if *first != b'#' && !is_blank(*first) {
        return Err(reader.flawed(Flaw::Header));
    }
    reader.skip(gap_in(bytes));
    Ok(())
}

// How many bytes of blanks and comments stand first.
fn gap_in(bytes: &[u8]) -> usize
    ensures gap { drop result bytes.now ≡ past_gap false bytes.now }
    ensures bound { result ≤ length bytes.now }
{
    let mut in_comment = false;
    let mut count = 0;
    for byte in bytes {
        if in_comment {
            in_comment = !ends_line(*byte);
        } else if *byte == b'#' {
            in_comment = true;
        } else if !is_blank(*byte) {
            return count;
        }
        count += 1;
    }
    count
}

fn ends_line(byte: u8) -> bool
    ensures { result ≡ ends_line byte }
{
    byte == b'\r' || byte == b'\n'
}

fn samples(
    alloc: Global,
    most: usize,
    count: Option<usize>,
    reader: &mut Reader<'_>,
) -> Result<Array, Slip>
    requires { most ≤ 65535 }
    ensures elem { IfOk result (λ a. a.elem ≡ elem_of most) }
    ensures ok { IfOk result (λ a. samples_of most count reader.old ≡ Ok (a.bits, reader.new)) }
    ensures err { IfErr result (λ e. e ≢ slip.Memory → samples_of most count reader.old ≡ Err e) }
{
    let Some(count) = count else {
        return Err(reader.flawed(Flaw::TooMany));
    };
    numbers(alloc, Endian::Big, cell(most), count, reader)
}

// How samples stand in bytes.
fn cell(most: usize) -> Cell
    requires { most ≤ 65535 }
    ensures elem { result.elem ≡ elem_of most }
    ensures size { result.size ≡ (if nat_lt 255 most then 2 else 1) }
    ensures most { result.most ≡ most }
    ensures fits { result.most < 2 ^ width result.elem }
{
    let (elem, size) = if most > 255 {
        (Elem::U16, 2)
    } else {
        (Elem::U8, 1)
    };
    Cell {
        elem,
        size,
        most: most as u64,
    }
}
