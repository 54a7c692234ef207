//! The places of an array as a source of words.
ghost use Rattle.std.specs.Prelude.{length};
ghost use Rattle.isp_base.specs.Access.{element, is_outside};
ghost use Rattle.isp_base.specs.declared.types.Elem.TheVariants.{I64};
ghost use Rattle.isp_cells.specs.Cells.{found};

use crate::cell::Cell;
use crate::index::first_outside;
use isp_lanes::{LaneMask, Source};

// What stands at the places of an array. The bits of a place are those of an index.
#[derive(Drop)]
pub(crate) struct Places<'a, C> {
    pub(crate) cells: &'a [C],
}

impl<'a, C: Cell<N>, const N: usize> Source<N> for Places<'a, C> {
    ghost outside = { λ s. is_outside I64 (length s.cells.now) };

    ghost word = { λ s lane place. found C.find s.cells.now (element I64 place) lane };

    #[inline(always)]
    fn first_outside(&self, places: &[u64; N], mask: &LaneMask<N>) -> Option<usize> {
        first_outside(self.cells.len(), places, mask)
    }

    #[inline(always)]
    fn find(&self, lane: usize, place: u64) -> u64 {
        self.cells[place as usize].word(lane)
    }
}
