//! The index of an access, the elements after it, and the size of its array.
ghost use Rattle.std.specs.Prelude.{◌≡◌, ◌≤◌};
ghost use Rattle.isp_machine.specs.Seen.{seen_conf};
ghost use Rattle.isp_outside.specs.Asked.{access, if_on, lane_at, on_below, scalar_at, size_at};

use crate::outside::Outside;
use isp_base::{Elem, number};
use isp_code::Register;
use isp_machine::Machine;

/// At an index that all lanes share.
pub(crate) fn shared<const N: usize>(
    machine: &Machine<'_, N>,
    array: Register,
    index: Register,
) -> Option<Outside>
    ensures { result ≡ access (scalar_at machine.now.code (seen_conf machine.now) index) 0 (size_at machine.now.code (seen_conf machine.now) array) }
{
    let bits = machine.scalar(index.number as usize);
    at(machine, array, bits, 0)
}

/// At a lane's own index.
pub(crate) fn each<const N: usize>(
    machine: &Machine<'_, N>,
    array: Register,
    indices: Register,
    lane: usize,
) -> Option<Outside>
    ensures { result ≡ access (lane_at machine.now.code (seen_conf machine.now) indices lane) 0 (size_at machine.now.code (seen_conf machine.now) array) }
{
    let bits = machine.lane(indices.number as usize, lane);
    at(machine, array, bits, 0)
}

/// In a row of elements, one for each lane.
pub(crate) fn row<const N: usize>(
    machine: &Machine<'_, N>,
    array: Register,
    index: Register,
    lane: usize,
) -> Option<Outside>
    ensures { result ≡ access (scalar_at machine.now.code (seen_conf machine.now) index) lane (size_at machine.now.code (seen_conf machine.now) array) }
{
    let bits = machine.scalar(index.number as usize);
    at(machine, array, bits, lane)
}

/// In a row of elements, one for each lane that is on.
pub(crate) fn packed<const N: usize>(
    machine: &Machine<'_, N>,
    array: Register,
    index: Register,
    mask: Register,
    lane: usize,
) -> Option<Outside>
    ensures { result ≡ access (scalar_at machine.now.code (seen_conf machine.now) index) (on_below machine.now.code (seen_conf machine.now) mask lane) (size_at machine.now.code (seen_conf machine.now) array) }
{
    let bits = machine.scalar(index.number as usize);
    at(machine, array, bits, on_below(machine, mask, lane))
}

// How many lanes of a mask are on below a lane.
fn on_below<const N: usize>(machine: &Machine<'_, N>, mask: Register, lane: usize) -> usize
    ensures { result ≡ on_below machine.now.code (seen_conf machine.now) mask lane }
{
    let mut count = 0;
    for below in 0..lane {
        count += if_on(machine.is_on(mask.number as usize, below));
    }
    count
}

fn if_on(flag: Option<bool>) -> usize
    ensures value { result ≡ if_on flag }
    ensures one { result ≤ 1 }
{
    match flag {
        Some(true) => 1,
        _ => 0,
    }
}

// The access, where there is such an index and such an array.
fn at<const N: usize>(
    machine: &Machine<'_, N>,
    array: Register,
    index: Option<u64>,
    after: usize,
) -> Option<Outside>
    ensures { result ≡ access index after (size_at machine.now.code (seen_conf machine.now) array) }
{
    match (index, machine.array_size(array.number as usize)) {
        (Some(bits), Some(size)) => Some(Outside {
            index: number(Elem::I64, bits),
            after,
            size,
        }),
        _ => None,
    }
}
