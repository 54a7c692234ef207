//! The words of an array of which each lane has its own: a row for each element, with a word for each lane.
ghost use Rattle.std.specs.Prelude.{◌≡◌, ℕ, ◌<◌, ◌≤◌, ◌^◌, length, replicate, Some, None, IfOk, IfErr};
ghost use Rattle.isp_base.specs.declared.types.Elem.TheVariants.{I64};
ghost use Rattle.isp_base.specs.Access.{element};
ghost use Rattle.isp_base.specs.Cells.{cell_width};
ghost use Rattle.isp_base.specs.Maps.{lane_of};
ghost use Rattle.isp_base.specs.Sets.{flag_of};
ghost use Rattle.isp_base.specs.Values.{width};
ghost use Rattle.isp_cells.specs.Cells.{found, stored, cleared, row_word, row_with};
ghost use Rattle.isp_store.specs.LaneRows.{lists, rows_width};
ghost use Rattle.isp_cells.specs.Access.{lowest_out, own_gathered};

use isp_base::Elem;
use isp_cells::{IndexTrap, clear, gathered, scattered};
use isp_lanes::{LaneMask, Lanes, Row};
use std::alloc::{AllocError, Global};

// Rows of words, of the width that the element type takes. So how wide they are is asked once for all lanes.
#[derive(Drop)]
pub(crate) enum LaneRows<const N: usize> {
    Bits8(Vec<[u8; N]>),
    Bits16(Vec<[u16; N]>),
    Bits32(Vec<[u32; N]>),
    Bits64(Vec<[u64; N]>),
}

impl<const N: usize> LaneRows<N> {
    // So many rows of zeros. 0 where memory is refused.
    pub(crate) fn zeros(alloc: Global, elem: Elem, count: usize) -> Result<Self, AllocError>
        requires { N ≤ 64 }
        ensures zeros { IfOk result (λ rows. lists rows ≡ replicate count (replicate N 0)) }
        ensures wide { IfOk result (λ rows. rows_width rows ≡ cell_width elem) }
    {
        match elem {
            Elem::Bool | Elem::I8 | Elem::U8 => Ok(LaneRows::Bits8(vec![in alloc; [0; N]; count]?)),
            Elem::I16 | Elem::U16 => Ok(LaneRows::Bits16(vec![in alloc; [0; N]; count]?)),
            Elem::I32 | Elem::U32 => Ok(LaneRows::Bits32(vec![in alloc; [0; N]; count]?)),
            Elem::I64 | Elem::U64 => Ok(LaneRows::Bits64(vec![in alloc; [0; N]; count]?)),
        }
    }

    // The number of rows.
    pub(crate) fn count(&self) -> usize
        ensures { result ≡ length (lists self.now) }
    {
        match self {
            LaneRows::Bits8(rows) => rows.len(),
            LaneRows::Bits16(rows) => rows.len(),
            LaneRows::Bits32(rows) => rows.len(),
            LaneRows::Bits64(rows) => rows.len(),
        }
    }

    // The lane's word at its place in each lane of the mask.
    //
    // Index where one is outside, with the lowest such lane, and then nothing changes.
    pub(crate) fn gather(
        &self,
        places: &[u64; N],
        mask: &LaneMask<N>,
        into: &mut Lanes<N>,
    ) -> Result<(), IndexTrap>
        requires { (e p : ℕ) → found row_word (lists self.now) e p < 2 ^ width into.old.elem }
        ensures inside { IfOk result (λ _. lowest_out N (length (lists self.now)) mask.now places.now ≡ None) }
        ensures lanes { IfOk result (λ _. lane_of into.new.bits ≡ own_gathered (found row_word (lists self.now)) mask.now places.now into.old.bits) }
        ensures elem { into.new.elem ≡ into.old.elem }
        ensures lowest { IfErr result (λ trap. lowest_out N (length (lists self.now)) mask.now places.now ≡ Some trap.instance) }
        ensures same { IfErr result (λ trap. into.new ≡ into.old) }
    {
        match self {
            LaneRows::Bits8(rows) => gathered(rows.as_slice(), places, mask, into),
            LaneRows::Bits16(rows) => gathered(rows.as_slice(), places, mask, into),
            LaneRows::Bits32(rows) => gathered(rows.as_slice(), places, mask, into),
            LaneRows::Bits64(rows) => gathered(rows.as_slice(), places, mask, into),
        }
    }

    // Each lane of the mask writes its value at its index.
    //
    // Index where one is outside, with the lowest such lane, and then nothing changes.
    pub(crate) fn store(
        &mut self,
        index: &Lanes<N>,
        mask: &LaneMask<N>,
        value: &Lanes<N>,
    ) -> Result<(), IndexTrap>
        requires index { index.now.elem ≡ I64 }
        requires wide { rows_width self.old ≡ cell_width value.now.elem }
        requires fits { (p : ℕ) → lane_of value.now.bits p < 2 ^ rows_width self.old }
        ensures inside { IfOk result (λ _. lowest_out N (length (lists self.old)) mask.now index.now.bits ≡ None) }
        ensures lists { IfOk result (λ _. lists self.new ≡ stored row_with N (flag_of mask.now) (lane_of index.now.bits) (lane_of value.now.bits) (lists self.old)) }
        ensures wide { rows_width self.new ≡ rows_width self.old }
        ensures lowest { IfErr result (λ trap. lowest_out N (length (lists self.old)) mask.now index.now.bits ≡ Some trap.instance) }
        ensures same { IfErr result (λ trap. lists self.new ≡ lists self.old) }
    {
        match (self, value.row()) {
            (LaneRows::Bits8(rows), Row::Bits8(row)) => scattered(
                rows.as_mut_slice(),
                index,
                mask,
                row,
            ),
            (LaneRows::Bits16(rows), Row::Bits16(row)) => scattered(
                rows.as_mut_slice(),
                index,
                mask,
                row,
            ),
            (LaneRows::Bits32(rows), Row::Bits32(row)) => scattered(
                rows.as_mut_slice(),
                index,
                mask,
                row,
            ),
            (LaneRows::Bits64(rows), Row::Bits64(row)) => scattered(
                rows.as_mut_slice(),
                index,
                mask,
                row,
            ),
            _ => unreachable!(),
        }
    }

    // Zero in the lanes of the mask, in each row.
    pub(crate) fn clear(&mut self, mask: &LaneMask<N>)
        ensures lists { lists self.new ≡ cleared row_with N (flag_of mask.now) (length (lists self.old)) (lists self.old) }
        ensures wide { rows_width self.new ≡ rows_width self.old }
    {
        mask.told();
        match self {
            LaneRows::Bits8(rows) => clear(rows.as_mut_slice(), mask),
            LaneRows::Bits16(rows) => clear(rows.as_mut_slice(), mask),
            LaneRows::Bits32(rows) => clear(rows.as_mut_slice(), mask),
            LaneRows::Bits64(rows) => clear(rows.as_mut_slice(), mask),
        }
    }
}
