//! Where lanes find words.
ghost use Rattle.std.specs.Prelude.{◌≡◌, ℕ, ◌<◌, Bool, false};
ghost use Rattle.isp_base.specs.Maps.{lane_of, on, lowest_failing};
ghost use Rattle.isp_base.specs.Sets.{flag_of};

use crate::mask::LaneMask;

/// A list of places, at each of which each of N lanes finds a word. Places are asked for by 64 bits, of which the source says which are
/// outside, so that nothing can be found there.
pub trait Source<const N: usize> {
    // whether there is no place of these bits
    ghost outside: { Self → ℕ → Bool };

    // what a lane finds at the place of these bits
    ghost word: { Self → ℕ → ℕ → ℕ };

    /// The lowest lane of the mask whose place is outside.
    fn first_outside(&self, places: &[u64; N], mask: &LaneMask<N>) -> Option<usize>
        ensures { result ≡ lowest_failing N (outside self.now) (on (flag_of mask.now) (lane_of places.now)) };

    /// What the lane finds at a place that is there.
    fn find(&self, lane: usize, place: u64) -> u64
        requires lane { lane < N }
        requires inside { outside self.now place ≡ false }
        ensures { result ≡ word self.now lane place };
}
