//! How much work was done: nodes that were reached, turns that were taken, and what ranges count.
ghost use Rattle.std.specs.Prelude.{◌≡◌, ◌+◌, ◌*◌, ◌<◌, ◌^◌, map};
ghost use Rattle.isp_base.specs.Types.{gang_width};
ghost use Rattle.isp_meaning.specs.Rounds.{counted, length_of, runs_for};
ghost use Rattle.isp_gang_run.specs.Capped.{capped};
ghost use Rattle.isp_gang_values.specs.Left.{range_seen};

use isp_base::Gang;
use isp_gang_values::ranges::Range;

/// The work so far, which stays at 18,446,744,073,709,551,615 once it is there.
#[derive(Clone, Copy)]
pub struct Work {
    pub count: u64,
}

impl Work {
    /// Before a run.
    pub fn none() -> Work
        ensures { result.count ≡ 0 }
    {
        Work { count: 0 }
    }

    /// One more.
    pub fn tick(&mut self)
        ensures { self.new.count ≡ capped (self.old.count + 1) }
    {
        self.add(1);
    }

    /// As many more.
    pub fn add(&mut self, more: u64)
        ensures { self.new.count ≡ capped (self.old.count + more) }
    {
        self.count = self.count.saturating_add(more);
    }
}

/// What the runs over ranges count: in each range the numbers up to it, in the last one its runs.
pub fn counted(gang: Gang, ranges: &[Range]) -> u64
    ensures { result ≡ capped (counted (gang_width gang) 1 (map range_seen ranges.now)) }
{
    let mut count = 0;
    let mut place = ranges.len();
    while place > 0 {
        place -= 1;
        let numbers = length(&ranges[place]);
        count = if place + 1 == ranges.len() {
            runs(gang, numbers)
        } else {
            count.saturating_add(1).saturating_mul(numbers)
        };
    }
    count
}

// How many numbers a range has.
fn length(range: &Range) -> u64
    ensures is { result ≡ length_of (range_seen range.now) }
    ensures small { result < 2 ^ 32 }
{
    if range.start < range.end {
        (i64::from(range.end) - i64::from(range.start)) as u64
    } else {
        0
    }
}

// In how many runs a gang takes so many numbers.
fn runs(gang: Gang, numbers: u64) -> u64
    requires { numbers < 2 ^ 32 }
    ensures { result ≡ runs_for (gang_width gang) numbers }
{
    let width = gang.width() as u64;
    (numbers + (width - 1)) / width
}
