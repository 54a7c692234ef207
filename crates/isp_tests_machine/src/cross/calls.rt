//! Each call at each type, under each mask.
ghost use Rattle.std.specs.Prelude.{◌≡◌, ◌≤◌, ◌<◌, ◌^◌, true};
ghost use Rattle.isp_base.specs.declared.types.Elem.TheVariants.{Bool as Truth, I32};
ghost use Rattle.isp_base.specs.Values.{width};
ghost use Rattle.isp_cross.specs.Scans.{scans};

use crate::cross::plain::{Active, read};
use crate::cross::samples::{
    MASKS, NUMBERS, SAMPLES, TYPES, as_wanted, int32, mask, numbers, sample, samples,
};
use isp_base::{BinOp, Elem};
use isp_lanes::{LaneMask, Lanes};

// The calls that name one lane.
#[derive(Clone, Copy)]
enum Move {
    Rotate,
    Shift,
    Broadcast,
    Insert,
}

const MOVES: [Move; 4] = [Move::Rotate, Move::Shift, Move::Broadcast, Move::Insert];

// What the call leaves in a vector.
fn moved<const N: usize>(
    call: Move,
    old: &Lanes<N>,
    x: &Lanes<N>,
    by: i64,
    mask: &LaneMask<N>,
) -> Lanes<N>
    requires some { 0 < N }
    requires elem { x.now.elem ≡ old.now.elem }
{
    let mut row = *old;
    let number = int32(by);
    match call {
        Move::Rotate => isp_cross::rotate(&mut row, x, number, mask),
        Move::Shift => isp_cross::shift(&mut row, x, number, mask),
        Move::Broadcast => isp_cross::broadcast(&mut row, x, number, mask),
        Move::Insert => isp_cross::insert(&mut row, x, number, sample(x.elem(), 3), mask),
    }
    row
}

// What it should leave in the lanes of the mask.
fn wanted<const N: usize>(call: Move, active: &Active<N>, by: i64, value: u64) -> [u64; N]
    requires { N ≤ 64 }
{
    let mut wanted = [0; N];
    for lane in 0..N {
        wanted[lane] = match call {
            Move::Rotate => active.rotate(lane, by),
            Move::Shift => active.shift(lane, by),
            Move::Broadcast => active.extract(by),
            Move::Insert => active.insert(lane, by, value),
        };
    }
    wanted
}

// Whether the calls that name one lane do so, by each number.
fn moves_agree<const N: usize>(x: &Lanes<N>, mask: &LaneMask<N>) -> bool
    requires { 0 < N }
{
    mask.told();
    let active = read(x, mask);
    let old = samples::<N>(x.elem(), 1);
    let value = sample(x.elem(), 3);
    for by in NUMBERS {
        for call in MOVES {
            let row = moved(call, &old, x, by, mask);
            if !as_wanted(&row, &old, mask, &wanted(call, &active, by, value)) {
                return false;
            }
        }
        if isp_cross::extract(x, int32(by), mask) != active.extract(by) {
            return false;
        }
    }
    true
}

// Whether the shuffles do so, from each number on.
fn shuffles_agree<const N: usize>(x: &Lanes<N>, mask: &LaneMask<N>) -> bool
    requires { 0 < N }
{
    mask.told();
    let old = samples::<N>(x.elem(), 1);
    let y = samples::<N>(x.elem(), 2);
    let first_values = read(x, mask);
    let second_values = read(&y, mask);
    for first in 0..NUMBERS.len() {
        let index = numbers::<N>(first);
        let mut one = old;
        isp_cross::shuffle(&mut one, x, &index, mask);
        let mut two = old;
        isp_cross::shuffle_two(&mut two, x, &y, &index, mask);
        let mut of_one = [0; N];
        let mut of_two = [0; N];
        for lane in 0..N {
            let place = NUMBERS[first.wrapping_add(lane) % NUMBERS.len()];
            of_one[lane] = first_values.extract(place);
            of_two[lane] = first_values.of_two(&second_values, place);
        }
        let good = as_wanted(&one, &old, mask, &of_one) && as_wanted(&two, &old, mask, &of_two);
        if !good {
            return false;
        }
    }
    true
}

// Whether a scan does so.
fn scan_agrees<const N: usize>(op: BinOp, x: &Lanes<N>, mask: &LaneMask<N>) -> bool
    requires some { 0 < N }
    requires op { scans op ≡ true }
{
    mask.told();
    let active = read(x, mask);
    let old = samples::<N>(x.elem(), 1);
    let mut row = old;
    isp_cross::exclusive_scan(op, &mut row, x, mask);
    let mut wanted = [0; N];
    for lane in 0..N {
        wanted[lane] = active.scan(op, lane);
    }
    as_wanted(&row, &old, mask, &wanted)
}

// Whether the lanes are counted so.
fn ranks_agree<const N: usize>(x: &Lanes<N>, mask: &LaneMask<N>) -> bool
    requires { 0 < N }
{
    mask.told();
    let active = read(x, mask);
    let old = samples::<N>(Elem::I32, 1);
    let mut row = old;
    isp_cross::ranks(&mut row, mask);
    let mut wanted = [0; N];
    for lane in 0..N {
        wanted[lane] = active.rank(lane);
    }
    as_wanted(&row, &old, mask, &wanted)
}

// Whether the reductions do so.
fn reductions_agree<const N: usize>(x: &Lanes<N>, mask: &LaneMask<N>) -> bool
    requires { 0 < N }
{
    mask.told();
    let active = read(x, mask);
    let least = active.best(false);
    let greatest = active.best(true);
    isp_cross::reduce_add(x, mask) == active.sum()
        && isp_cross::reduce_min(x, mask) == least
        && isp_cross::reduce_max(x, mask) == greatest
        && isp_cross::reduce_equal(x, mask) == (least == greatest)
}

// Whether the tests of a vector of bools do so.
fn tests_agree<const N: usize>(x: &Lanes<N>, mask: &LaneMask<N>) -> bool
    requires { x.now.elem ≡ Truth }
{
    mask.told();
    let active = read(x, mask);
    let trues = active.trues(N);
    isp_cross::any(x, mask) == (trues > 0)
        && isp_cross::all(x, mask) == (trues == active.rank(N))
        && isp_cross::none(x, mask) == (trues == 0)
}

// Whether all calls do so at a type, on each of the samples under each mask.
fn calls_agree<const N: usize>(elem: Elem) -> bool
    requires some { 0 < N }
    requires few { N ≤ 64 }
{
    for number in 0..SAMPLES * MASKS {
        let x = samples::<N>(elem, number % SAMPLES);
        let mask = mask::<N>(number / SAMPLES);
        let good = moves_agree(&x, &mask)
            && shuffles_agree(&x, &mask)
            && scan_agrees(BinOp::Add, &x, &mask)
            && scan_agrees(BinOp::And, &x, &mask)
            && scan_agrees(BinOp::Or, &x, &mask)
            && reductions_agree(&x, &mask)
            && ranks_agree(&x, &mask);
        if !good {
            return false;
        }
    }
    true
}

#[test]
fn calls(rt: HostRuntime) {
    for elem in TYPES {
        let good = calls_agree::<4>(elem)
            && calls_agree::<8>(elem)
            && calls_agree::<16>(elem)
            && calls_agree::<32>(elem);
        assert!(rt; good, "{elem:?}");
    }
}

#[test]
fn tests_of_bools(rt: HostRuntime) {
    for number in 0..SAMPLES * MASKS {
        let mask = mask::<4>(number / SAMPLES);
        let mixed = samples::<4>(Elem::Bool, number % SAMPLES);
        let mut same = Lanes::<4>::zero(Elem::Bool);
        same.splat(number as u64 % 2, &LaneMask::full());
        let good = tests_agree(&mixed, &mask) && tests_agree(&same, &mask);
        assert!(rt; good, "{number}");
    }
}
