//! Arrays as the bytes of files.
ghost use Rattle.std.specs.Prelude.{◌≡◌, ◌≤◌, ◌*◌, ◌/◌, ◌++◌, OnOk, IfOk};
ghost use Rattle.std.specs.Fmt.{decimal};
ghost use Rattle.std.specs.List.{flat_map};
ghost use Rattle.isp_base.specs.Cells.{cell_width};
ghost use Rattle.isp_files.specs.Endian.{bytes_in};
ghost use Rattle.isp_files.specs.Writing.{dict_text, header_text, image_bytes, image_magic, length_text, most_text};
ghost use Rattle.isp_files.specs.Writing.{npy_bytes, opened, padding_text, sizes_text, type_name};

use crate::endian::Endian;
use isp_base::{Array, Elem};
use itoa::Buffer;
use std::alloc::{AllocError, Global};

/// The bytes of an array as an NPY file of version 1.0, whose header has to be shorter than 65,536 bytes: that of a shape of up to
/// 64 dimensions is.
pub fn write_npy(alloc: Global, shape: &[usize], array: &Array) -> Result<Vec<u8>, AllocError>
    ensures { IfOk result (λ v. v.items ≡ npy_bytes shape.now array.now) }
{
    let header = header(alloc, array.elem(), shape)?;
    let mut bytes = opened(alloc, &header)?;
    push_elements(&mut bytes, Endian::Little, array)?;
    Ok(bytes)
}

/// The bytes of samples as a PGM, or as a PPM where three stand for each place. The greatest sample is that of the type.
pub fn write_image(
    alloc: Global,
    is_color: bool,
    height: usize,
    width: usize,
    array: &Array,
) -> Result<Vec<u8>, AllocError>
    ensures { IfOk result (λ v. v.items ≡ image_bytes is_color height width array.now) }
{
    let mut bytes = Vec::new(alloc);
    bytes.extend_from_slice(if is_color { b"P6 " } else { b"P5 " })?;
    push_sizes(&mut bytes, height, width, array.elem())?;
    push_elements(&mut bytes, Endian::Big, array)?;
    Ok(bytes)
}

// ---- NPY

// Magic, version, and the header after its length.
fn opened(alloc: Global, header: &[u8]) -> Result<Vec<u8>, AllocError>
    ensures { IfOk result (λ v. v.items ≡ opened header.now) }
{
    let mut bytes = Vec::new(alloc);
    bytes.extend_from_slice(b"\x93NUMPY\x01\x00")?;
    bytes.push((header.len() % 256) as u8)?;
    bytes.push((header.len() / 256 % 256) as u8)?;
    bytes.extend_from_slice(header)?;
    Ok(bytes)
}

// The entries, and what fills them up.
fn header(alloc: Global, elem: Elem, shape: &[usize]) -> Result<Vec<u8>, AllocError>
    ensures { IfOk result (λ v. v.items ≡ header_text elem shape.now) }
{
    let mut bytes = dict(alloc, elem, shape)?;
    let blanks = 63 - (bytes.len() % 64 + 10) % 64;
    let padding = vec![in alloc; b' '; blanks]?;
    bytes.extend_from_slice(&padding)?;
    bytes.push(b'\n')?;
    Ok(bytes)
}

fn dict(alloc: Global, elem: Elem, shape: &[usize]) -> Result<Vec<u8>, AllocError>
    ensures { IfOk result (λ v. v.items ≡ dict_text elem shape.now) }
{
    let mut bytes = Vec::new(alloc);
    bytes.extend_from_slice(b"{'descr': '")?;
    bytes.extend_from_slice(type_name(elem))?;
    bytes.extend_from_slice(b"', 'fortran_order': False, 'shape': (")?;
    for length in shape {
        push_decimal(&mut bytes, *length)?;
        bytes.push(b',')?;
    }
    bytes.extend_from_slice(b"), }")?;
    Ok(bytes)
}

fn type_name(elem: Elem) -> &'static [u8]
    ensures { result.now ≡ type_name elem }
{
    match elem {
        Elem::Bool => b"|b1",
        Elem::I8 => b"|i1",
        Elem::U8 => b"|u1",
        Elem::I16 => b"<i2",
        Elem::U16 => b"<u2",
        Elem::I32 => b"<i4",
        Elem::U32 => b"<u4",
        Elem::I64 => b"<i8",
        Elem::U64 => b"<u8",
    }
}

// ---- images

// Width, height, the greatest sample and a line feed.
fn push_sizes(
    bytes: &mut Vec<u8>,
    height: usize,
    width: usize,
    elem: Elem,
) -> Result<(), AllocError>
    ensures { OnOk result (bytes.new.items ≡ bytes.old.items ++ sizes_text height width elem) }
{
    push_decimal(bytes, width)?;
    bytes.push(b' ')?;
    push_decimal(bytes, height)?;
    bytes.push(b' ')?;
    bytes.extend_from_slice(most_text(elem))?;
    bytes.push(b'\n')?;
    Ok(())
}

fn most_text(elem: Elem) -> &'static [u8]
    ensures { result.now ≡ most_text elem }
{
    match elem {
        Elem::U16 => b"65535",
        _ => b"255",
    }
}

// ---- numbers

fn push_decimal(bytes: &mut Vec<u8>, number: usize) -> Result<(), AllocError>
    ensures { OnOk result (bytes.new.items ≡ bytes.old.items ++ decimal number) }
{
    let mut buffer = Buffer::new();
    bytes.extend_from_slice(buffer.format(number).as_bytes())?;
    Ok(())
}

// Each element in as many bytes as its type takes.
fn push_elements(bytes: &mut Vec<u8>, endian: Endian, array: &Array) -> Result<(), AllocError>
    ensures { OnOk result (bytes.new.items ≡ bytes.old.items ++ flat_map (bytes_in endian (cell_width array.now.elem / 8)) array.now.bits) }
{
    let size = size(array.elem());
    for place in 0..array.len() {
        endian.push(bytes, array.at(place), size)?;
    }
    Ok(())
}

// The bytes of an element.
fn size(elem: Elem) -> usize
    ensures size { result ≡ cell_width elem / 8 }
    ensures few { result ≤ 8 }
{
    match elem {
        Elem::Bool | Elem::I8 | Elem::U8 => 1,
        Elem::I16 | Elem::U16 => 2,
        Elem::I32 | Elem::U32 => 4,
        Elem::I64 | Elem::U64 => 8,
    }
}
