//! Words that lanes find in a source, where the width of the lanes' own words is known.
ghost use Rattle.std.specs.Prelude.{◌≡◌, ℕ, ◌<◌, ◌^◌, map, Some, None, IfOk, IfErr};
ghost use Rattle.std.specs.List.{range_with_len};
ghost use Rattle.std.specs.Simd.Lanes.{zip2, sel_l};
ghost use Rattle.isp_base.specs.Maps.{lane_of, on, lowest_failing};
ghost use Rattle.isp_base.specs.Sets.{flag_of};

use crate::mask::LaneMask;
use crate::source::Source;
use crate::word::Word;

// The word found at its place in each lane of the mask. Where one is outside it is `Err` with the lowest such lane, and nothing changes.
#[inline(always)]
pub(crate) fn gather<const N: usize, S: Source<N>, W: Word>(
    words: &mut [W; N],
    places: &[u64; N],
    source: &S,
    mask: &LaneMask<N>,
) -> Result<(), usize>
    requires { (lane place : ℕ) → S.word source.now lane place < 2 ^ W.width }
    ensures inside { IfOk result (λ _. lowest_failing N (S.outside source.now) (on (flag_of mask.now) (lane_of places.now)) ≡ None) }
    ensures words { IfOk result (λ _. words.new ≡ sel_l mask.now (map W.with_bits (zip2 (S.word source.now) (range_with_len 0 N) places.now)) words.old) }
    ensures lowest { IfErr result (λ lane. lowest_failing N (S.outside source.now) (on (flag_of mask.now) (lane_of places.now)) ≡ Some lane) }
    ensures same { IfErr result (λ _. words.new ≡ words.old) }
{
    mask.told();
    match source.first_outside(places, mask) {
        Some(lane) => return Err(lane),
        None => {}
    }
    let lanes = mask.bits();
    for lane in 0..N {
        if lanes.get(lane) {
            words[lane] = W::of(source.find(lane, places[lane]));
        }
    }
    Ok(())
}
