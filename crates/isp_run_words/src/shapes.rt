//! Shapes of arrays, from the files that gave them.
use crate::given::{Content, Given, Words};
use isp_base::{Argument, Bound, Signature};
use isp_files::{FileFault, Grid, read_image, read_npy};
use std::alloc::{AllocError, Global};

/// The shape of the file that gives the array of this name; none where no file gives it.
pub(crate) fn shape_of(
    alloc: Global,
    words: &Words,
    name: &str,
) -> Result<Option<Vec<usize>>, AllocError> {
    let Words::Each(given) = words else {
        return Ok(None);
    };
    match given.iter().find(|one| one.name.as_str() == name) {
        Some(one) => shape_in(alloc, one),
        None => Ok(None),
    }
}

/// The height and the width of an image of so many places: those of the first file that has as many, else the values of the parameters
/// `height` and `width`, where they come to as many.
pub(crate) fn size_of(
    alloc: Global,
    signature: &Signature,
    words: &Words,
    bound: &Bound,
    places: usize,
) -> Result<Option<(usize, usize)>, AllocError> {
    if let Words::Each(given) = words {
        for one in given {
            if let Some(shape) = shape_in(alloc, one)? {
                if let Some(size) = size_in(&shape, places) {
                    return Ok(Some(size));
                }
            }
        }
    }
    Ok(size_by_values(signature, bound, places))
}

// The first two dimensions of a shape, where they have so many places.
fn size_in(shape: &[usize], places: usize) -> Option<(usize, usize)> {
    let (height, width) = match shape {
        [height, width] => (*height, *width),
        [height, width, _samples] => (*height, *width),
        _ => return None,
    };
    fitting(height, width, places)
}

fn size_by_values(signature: &Signature, bound: &Bound, places: usize) -> Option<(usize, usize)> {
    let height = value_of(signature, bound, "height")?;
    let width = value_of(signature, bound, "width")?;
    fitting(height, width, places)
}

fn fitting(height: usize, width: usize, places: usize) -> Option<(usize, usize)> {
    if height.checked_mul(width)? == places {
        Some((height, width))
    } else {
        None
    }
}

// The value of the parameter of a name.
fn value_of(signature: &Signature, bound: &Bound, name: &str) -> Option<usize> {
    for (place, parameter) in signature.params.iter().enumerate() {
        if parameter.name.as_str() == name {
            return match bound.arguments.get(place) {
                Some(Argument::Value(value)) => usize::try_from(value.bits).ok(),
                _ => None,
            };
        }
    }
    None
}

// The shape of a file.
fn shape_in(alloc: Global, one: &Given) -> Result<Option<Vec<usize>>, AllocError> {
    let read = match &one.content {
        Content::Npy(bytes) => read_npy(alloc, bytes),
        Content::Image(bytes) => read_image(alloc, bytes),
        _ => return Ok(None),
    };
    shape_read(read)
}

fn shape_read(read: Result<Grid, FileFault>) -> Result<Option<Vec<usize>>, AllocError> {
    match read {
        Ok(grid) => Ok(Some(grid.shape)),
        Err(FileFault::Memory) => Err(AllocError),
        Err(_fault) => Ok(None),
    }
}
