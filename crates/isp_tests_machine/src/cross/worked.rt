//! Worked examples, whose answers were found without the crates.
ghost use Rattle.std.specs.Prelude.{◌≡◌, ◌<◌, ◌^◌};
ghost use Rattle.isp_base.specs.declared.types.Elem.TheVariants.{I32};

use crate::cross::samples::int32;
use isp_base::{BinOp, Elem};
use isp_lanes::{LaneMask, Lanes};

// A vector of int32.
fn vector<const N: usize>(numbers: [i64; N]) -> Lanes<N>
    ensures { result.elem ≡ I32 }
{
    let mut row = Lanes::zero(Elem::I32);
    for lane in 0..N {
        row.set(lane, int32(numbers[lane]));
    }
    row
}

fn has<const N: usize>(row: &Lanes<N>, wanted: [u64; N]) -> bool {
    row.bits() == wanted
}

#[test]
fn moves(rt: HostRuntime) {
    let all = LaneMask::<4>::full();
    let x = vector([0, 1, 2, 3]);
    let ten = vector([10, 11, 12, 13]);
    let up = vector([1, 2, 3, 4]);
    let mut row = vector([9, 9, 9, 9]);
    isp_cross::shift(&mut row, &up, 1, &all);
    assert!(rt; has(&row, [2, 3, 4, 0]));
    isp_cross::shuffle_two(&mut row, &x, &ten, &vector([7, 6, 5, 4]), &all);
    assert!(rt; has(&row, [13, 12, 11, 10]));
}

#[test]
fn moves_of_eight(rt: HostRuntime) {
    let all = LaneMask::<8>::full();
    let x = vector([1, 2, 3, 4, 5, 6, 7, 8]);
    let mut row = vector([9, 9, 9, 9, 9, 9, 9, 9]);
    isp_cross::rotate(&mut row, &x, int32(-1), &all);
    assert!(rt; has(&row, [8, 1, 2, 3, 4, 5, 6, 7]));
    isp_cross::shift(&mut row, &x, int32(-1), &all);
    assert!(rt; has(&row, [0, 1, 2, 3, 4, 5, 6, 7]));
}

#[test]
fn under_a_mask(rt: HostRuntime) {
    let mut mask = LaneMask::<4>::full();
    mask.set(1, false);
    let x = vector([1, 2, 3, 4]);
    let mut row = vector([77, 77, 77, 77]);
    isp_cross::exclusive_scan(BinOp::Add, &mut row, &x, &mask);
    assert!(rt; has(&row, [0, 77, 1, 4]));
    isp_cross::rotate(&mut row, &x, 1, &mask);
    assert!(rt; has(&row, [0, 77, 4, 1]));
}

#[test]
fn reductions(rt: HostRuntime) {
    let all = LaneMask::<4>::full();
    let mut x = Lanes::<4>::zero(Elem::I8);
    x.set(2, 0x80);
    assert_eq!(rt; isp_cross::reduce_min(&x, &all), 0x80);
    let greatest = vector([2_147_483_647; 4]);
    assert_eq!(rt; isp_cross::reduce_add(&greatest, &all), 8_589_934_588);
    assert_eq!(rt; isp_cross::reduce_min(&x, &LaneMask::none()), 0);
}
