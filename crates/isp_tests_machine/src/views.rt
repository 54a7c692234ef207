//! What is seen of a run, as a text.
use isp_base::Array;
use isp_machine::{Machine, Stop};
use std::alloc::{AllocError, Global};

/// What is looked at.
#[derive(Clone, Copy)]
pub(crate) enum View {
    /// How it stopped, its result, its output, and its arrays.
    Whole,
    /// How it stopped, and its output.
    Written,
    /// The instruction that comes next, and the scalars 0, 3 and 4.
    Counters,
    /// Where it stands, and some of its registers.
    Registers,
}

impl View {
    pub(crate) fn seen<const N: usize>(
        self,
        alloc: Global,
        machine: &Machine<'_, N>,
        stop: Stop,
    ) -> Result<String, AllocError> {
        match self {
            View::Whole => whole(alloc, machine, stop),
            View::Written => format!(in alloc; "{} {}", stopped(alloc, stop)?, output(machine)),
            View::Counters => counters(alloc, machine),
            View::Registers => registers(alloc, machine),
        }
    }
}

fn stopped(alloc: Global, stop: Stop) -> Result<String, AllocError> {
    match stop {
        Stop::Running => String::from_str(alloc, "running"),
        Stop::Ended => String::from_str(alloc, "ended"),
        Stop::Memory => String::from_str(alloc, "memory"),
        Stop::Trapped(trap) => format!(in alloc; "{trap}"),
    }
}

fn output<'m, const N: usize>(machine: &'m Machine<'_, N>) -> &'m str {
    str::from_utf8(machine.output()).unwrap_or("no text")
}

fn items(alloc: Global, array: &Array) -> Result<Vec<u64>, AllocError> {
    let mut items = Vec::new(alloc);
    for place in 0..array.len() {
        if place < array.len() {
            items.push(array.at(place))?;
        }
    }
    Ok(items)
}

/// The elements of each array, after a space.
pub(crate) fn elements(alloc: Global, arrays: &[Array]) -> Result<String, AllocError> {
    let mut text = String::new(alloc);
    for array in arrays {
        text = format!(in alloc; "{text} {:?}", items(alloc, array)?)?;
    }
    Ok(text)
}

/// How a run stopped, the bits of its result, or a dash, its output, and its arrays.
pub(crate) fn whole<const N: usize>(
    alloc: Global,
    machine: &Machine<'_, N>,
    stop: Stop,
) -> Result<String, AllocError> {
    let arrays = elements(alloc, machine.arrays())?;
    let stop = stopped(alloc, stop)?;
    let output = output(machine);
    match machine.result() {
        Some(value) => format!(in alloc; "{stop} {} \"{output}\"{arrays}", value.bits),
        None => format!(in alloc; "{stop} - \"{output}\"{arrays}"),
    }
}

fn counters<const N: usize>(alloc: Global, machine: &Machine<'_, N>) -> Result<String, AllocError> {
    format!(in alloc;
        "{} {} {} {}",
        machine.spot().instr,
        bits(machine.scalar(0)),
        bits(machine.scalar(3)),
        bits(machine.scalar(4))
    )
}

// The bits of a register, the greatest where it is not there.
fn bits(register: Option<u64>) -> u64 {
    register.unwrap_or(u64::MAX)
}

// The function and the instruction; scalars 1 and 2; of vector 0 the lanes 3 and 4, and of vector 1 lane 0; of mask 0 the lanes 1, 2 and 4, and of mask 2
// lane 0; how many lanes of the masks 0, 1 and 2 are on.
fn registers<const N: usize>(
    alloc: Global,
    machine: &Machine<'_, N>,
) -> Result<String, AllocError> {
    let spot = machine.spot();
    let scalars = [machine.scalar(1), machine.scalar(2)];
    let lanes = [machine.lane(0, 3), machine.lane(0, 4), machine.lane(1, 0)];
    let flags = [
        machine.is_on(0, 1),
        machine.is_on(0, 2),
        machine.is_on(0, 4),
        machine.is_on(2, 0),
    ];
    let counts = [
        machine.lanes_on(0),
        machine.lanes_on(1),
        machine.lanes_on(2),
    ];
    format!(in alloc;
        "{} {} {scalars:?} {lanes:?} {flags:?} {counts:?}",
        spot.function, spot.instr
    )
}
