//! An array with a shape.
ghost use Rattle.std.specs.Prelude.{◌≡◌, ◌<◌, ◌≤◌, ◌^◌, drop, MatchOption};
ghost use Rattle.isp_files.specs.Files.{count_of, counted, placed};
ghost use Rattle.isp_files.specs.Reading.{longest};

use crate::fault::{FileFault, Slip};
use crate::reader::LONGEST;
use isp_base::Array;

/// What a file holds: the lengths of the dimensions, the outermost first, and the elements, those of the innermost next to
/// each other.
#[derive(Debug, Drop)]
pub struct Grid {
    pub shape: Vec<usize>,
    pub array: Array,
}

/// How many elements a shape has, where an array may have them.
pub(crate) fn count(shape: &[usize]) -> Option<usize>
    ensures { result ≡ count_of shape.now }
{
    let mut count = 1usize;
    for length in shape {
        count = count.checked_mul(*length)?;
        if count > LONGEST {
            return None;
        }
    }
    Some(count)
}

/// Where a file of so many bytes is wrong.
pub(crate) fn placed(total: usize, slip: Slip) -> FileFault
    ensures { result ≡ placed total slip }
{
    match slip {
        Slip::Memory => FileFault::Memory,
        Slip::At { flaw, left } => FileFault::At {
            flaw,
            byte: total.saturating_sub(left),
        },
    }
}
