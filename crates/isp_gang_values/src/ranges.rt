//! The ranges of a `foreach`: the gang deals out their numbers, run by run.
ghost use Rattle.std.specs.Prelude.{◌≡◌, ◌<◌, ◌≤◌, ◌+◌, length, not, pos, ◌+ℤ◌, true, int_lt};
ghost use Rattle.isp_base.specs.Types.{gang_width, widest};
ghost use Rattle.isp_base.specs.Values.{wrap};
ghost use Rattle.isp_base.specs.declared.types.Gang as GangType;
ghost use Rattle.isp_gang_values.specs.Left.{advanced, carried, goes, is_ready, number_now, restarted, runs_left, stepped, tail_within};

use isp_base::{Elem, Gang, wrap};

/// An index, and the whole numbers from the start to below the end, of which `next` comes next.
#[derive(Clone, Copy)]
pub struct Range {
    pub index: usize,
    pub start: i32,
    pub end: i32,
    pub next: i64,
}

/// The number of an index in an instance: in the last range each has its own.
pub fn index_at(range: &Range, is_last: bool, instance: usize) -> u64
    ensures { result ≡ wrap Elem.I32 (number_now range.now.next is_last instance) }
{
    if is_last {
        wrap(Elem::I32, i128::from(range.next) + instance as i128)
    } else {
        wrap(Elem::I32, i128::from(range.next))
    }
}

/// Whether an instance's number in a last range is below its end.
pub fn has_number(range: &Range, instance: usize) -> bool
    requires { instance < widest }
    ensures { result ≡ int_lt (range.now.next +ℤ pos instance) range.now.end }
{
    i128::from(range.next) + (instance as i128) < i128::from(range.end)
}

// So many numbers further, unless the end is reached.
fn further(range: &Range, count: usize) -> i64
    requires { count ≤ widest }
    ensures { result ≡ stepped range.now (pos count) }
{
    if range.next < i64::from(range.end) {
        range.next + count as i64
    } else {
        range.next
    }
}

/// The ranges from one on begin again.
#[tactic(auto, using(crate::proofs::Left::all_restarted))]
pub fn reset(ranges: &mut Vec<Range>, from: usize)
    ensures { ranges.new.items ≡ restarted from ranges.old.items }
{
    for place in from..ranges.len() {
        let next = restart(&ranges[place]);
        ranges[place].next = next;
    }
}

// The first number of a range.
fn restart(range: &Range) -> i64
    ensures { result ≡ range.now.start }
{
    i64::from(range.start)
}

// The next number of a range, after which all later ranges begin again.
fn carry_into(ranges: &mut Vec<Range>, place: usize)
    requires { place + 1 < length ranges.old.items }
    ensures { ranges.new.items ≡ carried place ranges.old.items }
{
    reset(ranges, place + 1);
    let next = further(&ranges[place], 1);
    ranges[place].next = next;
}

// Whether a range has no number left.
fn is_spent(range: &Range) -> bool
    ensures { result ≡ not (int_lt range.now.next range.now.end) }
{
    range.next >= i64::from(range.end)
}

/// Numbers past the end carry into the range before.
pub fn carry(ranges: &mut Vec<Range>)
    ensures left { (gang : GangType.Gang) → runs_left (gang_width gang) ranges.new.items ≡ runs_left (gang_width gang) ranges.old.items }
    ensures within { tail_within ranges.new.items ≡ true }
{
    let mut place = ranges.len();
    while place > 1 {
        place -= 1;
        if is_spent(&ranges[place]) {
            carry_into(ranges, place - 1);
        }
    }
}

// Whether a range has numbers and its next one is among them.
fn can_go(range: &Range) -> bool
    ensures { result ≡ goes range.now }
{
    range.start < range.end && range.next < i64::from(range.end)
}

/// Whether each range can go on, and there is one.
pub fn is_ready(ranges: &[Range]) -> bool
    ensures { result ≡ is_ready ranges.now }
{
    for place in 0..ranges.len() {
        if !can_go(&ranges[place]) {
            return false;
        }
    }
    !ranges.is_empty()
}

/// On to the next run.
pub fn advance(gang: Gang, ranges: &mut Vec<Range>)
    ensures { ranges.new.items ≡ advanced (gang_width gang) ranges.old.items }
{
    let count = ranges.len();
    if count > 0 {
        let next = further(&ranges[count - 1], gang.width());
        ranges[count - 1].next = next;
    }
}
