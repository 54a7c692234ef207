//! The elements of an array as a source of words.
ghost use Rattle.std.specs.Prelude.{false};
ghost use Rattle.isp_cells.specs.Cells.{found};

use crate::cell::Cell;
use isp_lanes::{LaneMask, Source};

// What stands in an array, by the number of the element. No number is outside: past the end there is 0.
#[derive(Drop)]
pub(crate) struct Elements<'a, C> {
    pub(crate) cells: &'a [C],
}

impl<'a, C: Cell<N>, const N: usize> Source<N> for Elements<'a, C> {
    ghost outside = { λ s place. false };

    ghost word = { λ s lane place. found C.find s.cells.now place lane };

    #[inline(always)]
    fn first_outside(&self, _places: &[u64; N], _mask: &LaneMask<N>) -> Option<usize> {
        None
    }

    #[inline(always)]
    fn find(&self, lane: usize, place: u64) -> u64 {
        match self.cells.get(place as usize) {
            Some(cell) => cell.word(lane),
            None => 0,
        }
    }
}
