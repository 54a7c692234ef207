//! Files of arrays and images, many of them broken: each is read, and what is read or refused is compared.
//!
//! A row is a format, `npy` or `image`, the bytes of a file in hexadecimal digits, `|`, and what the file
//! holds, or its fault. `npy/` and `image/` read the bytes cut off at each place too, where the file has to end too early.
use hex::decode;
use isp_base::Array;
use isp_files::{FileFault, Flaw, Grid, read_image, read_npy};
use isp_tests_programs::Tried;
use isp_tests_support::parted;
use std::alloc::{AllocError, Global};
use std::fmt::Write;

/// Tries the rows of a file.
pub(crate) fn follow(alloc: Global, text: &str, tried: &mut Tried) -> Result<(), AllocError> {
    for row in text.lines() {
        let (shown, wanted) = parted(row, '|');
        let found = judged(alloc, shown)?;
        tried.begin();
        if found.as_str() != wanted {
            tried.differ(format!(in alloc; "{row}: {found}")?)?;
        }
    }
    Ok(())
}

// What becomes of the file of a row.
fn judged(alloc: Global, shown: &str) -> Result<String, AllocError> {
    let (format, digits) = shown.split_once(' ').unwrap_or((shown, ""));
    let Ok(bytes) = decode(alloc, digits) else {
        return String::from_str(alloc, "no bytes");
    };
    let is_npy = format.starts_with("npy");
    if format.ends_with('/') {
        for count in 0..bytes.len() {
            if !ends(alloc, is_npy, &bytes[..count]) {
                return format!(in alloc; "cut off at {count}");
            }
        }
    }
    let mut text = String::new(alloc);
    match read(alloc, is_npy, &bytes) {
        Ok(grid) => push_grid(&mut text, &grid)?,
        Err(FileFault::Memory) => return Err(AllocError),
        Err(fault) => write!(text, "{fault}")?,
    }
    Ok(text)
}

fn read(alloc: Global, is_npy: bool, bytes: &[u8]) -> Result<Grid, FileFault> {
    if is_npy {
        read_npy(alloc, bytes)
    } else {
        read_image(alloc, bytes)
    }
}

// Whether a file ends too early, at its last byte.
fn ends(alloc: Global, is_npy: bool, bytes: &[u8]) -> bool {
    match read(alloc, is_npy, bytes) {
        Err(FileFault::At { flaw, byte }) => flaw == Flaw::Ends && byte == bytes.len(),
        _ => false,
    }
}

// The type, the shape and the elements.
fn push_grid(text: &mut String, grid: &Grid) -> Result<(), AllocError> {
    write!(text, "{:?}", grid.array.elem())?;
    for length in &grid.shape {
        write!(text, " {length}")?;
    }
    push_elements(text, &grid.array)
}

fn push_elements(text: &mut String, array: &Array) -> Result<(), AllocError> {
    text.push_str(":")?;
    for place in 0..array.len() {
        write!(text, " {}", array.at(place))?;
    }
    Ok(())
}
