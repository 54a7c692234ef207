//! Elements from an array into lanes, and back, where the width of the words is known.
ghost use Rattle.std.specs.Prelude.{◌≡◌, ℕ, ◌<◌, ◌^◌, length, true, Some, None, IfOk, IfErr};
ghost use Rattle.isp_base.specs.declared.types.Elem.TheVariants.{I64};
ghost use Rattle.isp_base.specs.Maps.{lane_of, each1, over};
ghost use Rattle.isp_base.specs.Sets.{flag_of};
ghost use Rattle.isp_base.specs.Values.{width};
ghost use Rattle.isp_cells.specs.Cells.{found, stored, cleared};
ghost use Rattle.isp_cells.specs.Access.{lanes_on, lowest_out, own_gathered};

use crate::cell::Cell;
use crate::elements::Elements;
use crate::index::{IndexTrap, first_outside};
use crate::places::Places;
use isp_lanes::{LaneMask, Lanes};

/// The word at its place in each lane of the mask.
///
/// Index where one is outside, with the lowest such lane, and then nothing changes.
#[inline(always)]
pub fn gathered<C: Cell<N>, const N: usize>(
    cells: &[C],
    places: &[u64; N],
    mask: &LaneMask<N>,
    into: &mut Lanes<N>,
) -> Result<(), IndexTrap>
    requires { (e p : ℕ) → found C.find cells.now e p < 2 ^ width into.old.elem }
    ensures inside { IfOk result (λ _. lowest_out N (length cells.now) mask.now places.now ≡ None) }
    ensures lanes { IfOk result (λ _. lane_of into.new.bits ≡ own_gathered (found C.find cells.now) mask.now places.now into.old.bits) }
    ensures elem { into.new.elem ≡ into.old.elem }
    ensures lowest { IfErr result (λ trap. lowest_out N (length cells.now) mask.now places.now ≡ Some trap.instance) }
    ensures same { IfErr result (λ trap. into.new ≡ into.old) }
{
    mask.told();
    into.told();
    match into.gather(places, &Places { cells }, mask) {
        Ok(()) => Ok(()),
        Err(instance) => Err(IndexTrap { instance }),
    }
}

/// The word at its place in each lane of the mask, and 0 past the end.
#[inline(always)]
pub fn loaded<C: Cell<N>, const N: usize>(
    cells: &[C],
    places: &[u64; N],
    mask: &LaneMask<N>,
    into: &mut Lanes<N>,
)
    requires { (e p : ℕ) → found C.find cells.now e p < 2 ^ width into.old.elem }
    ensures lanes { lane_of into.new.bits ≡ over (λ p. each1 (λ x. found C.find cells.now x p) (lanes_on mask.now places.now p)) (lane_of into.old.bits) }
    ensures elem { into.new.elem ≡ into.old.elem }
{
    mask.told();
    into.told();
    match into.gather(places, &Elements { cells }, mask) {
        Ok(()) => {}
        Err(_lane) => unreachable!(),
    }
}

/// Each lane of the mask leaves its word of a row at its index. Where two leave one at one place, the higher wins.
///
/// Index where one is outside, with the lowest such lane, and then nothing changes.
#[inline(always)]
pub fn scattered<C: Cell<N>, R: Cell<N>, const N: usize>(
    cells: &mut [C],
    index: &Lanes<N>,
    mask: &LaneMask<N>,
    row: &R,
) -> Result<(), IndexTrap>
    requires index { index.now.elem ≡ I64 }
    requires fits { (p : ℕ) → R.find row.now p < 2 ^ C.width }
    ensures inside { IfOk result (λ _. lowest_out N (length cells.old) mask.now index.now.bits ≡ None) }
    ensures words { IfOk result (λ _. cells.new ≡ stored C.with N (flag_of mask.now) (lane_of index.now.bits) (R.find row.now) cells.old) }
    ensures lowest { IfErr result (λ trap. lowest_out N (length cells.old) mask.now index.now.bits ≡ Some trap.instance) }
    ensures same { IfErr result (λ trap. cells.new ≡ cells.old) }
{
    index.told();
    mask.told();
    let places = index.wide_words();
    match first_outside(cells.len(), places, mask) {
        Some(instance) => Err(IndexTrap { instance }),
        None => {
            leave(cells, places, mask, row);
            Ok(())
        }
    }
}

/// Each lane of the mask leaves its word of a row at its place, which is there.
#[inline(always)]
pub fn leave<C: Cell<N>, R: Cell<N>, const N: usize>(
    cells: &mut [C],
    places: &[u64; N],
    mask: &LaneMask<N>,
    row: &R,
)
    requires inside { (p : ℕ) → p < N → flag_of mask.now p ≡ true → lane_of places.now p < length cells.old }
    requires fits { (p : ℕ) → R.find row.now p < 2 ^ C.width }
    ensures { cells.new ≡ stored C.with N (flag_of mask.now) (lane_of places.now) (R.find row.now) cells.old }
{
    mask.told();
    let lanes = mask.bits();
    for lane in 0..N {
        if lanes.get(lane) {
            cells[places[lane] as usize].set(lane, row.word(lane));
        }
    }
}

/// Zero in the lanes of the mask, at each place.
#[inline(always)]
pub fn clear<C: Cell<N>, const N: usize>(cells: &mut [C], mask: &LaneMask<N>)
    ensures { cells.new ≡ cleared C.with N (flag_of mask.now) (length cells.old) cells.old }
{
    for place in 0..cells.len() {
        clear_place(cells, place, mask);
    }
}

// Zero in the lanes of the mask, at one place.
#[inline(always)]
fn clear_place<C: Cell<N>, const N: usize>(cells: &mut [C], place: usize, mask: &LaneMask<N>)
    requires { place < length cells.old }
    ensures { cells.new ≡ stored C.with N (flag_of mask.now) (λ p. place) (λ p. 0) cells.old }
{
    for lane in 0..N {
        if mask.get(lane) {
            cells[place].set(lane, 0);
        }
    }
}
