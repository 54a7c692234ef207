//! What a run comes to.
ghost use Rattle.std.specs.Prelude.{◌≡◌, ◌<◌, length, map, slice_get, IfOk, IfNone, IfSome, OnErr, OnSome, Some, None};
ghost use Rattle.isp_code.specs.Listing.{routine_of};
ghost use Rattle.isp_machine.specs.Seen.{seen_conf};
ghost use Rattle.isp_traces.specs.Counting.{CountGives};
ghost use Rattle.isp_traces.specs.Operands.{under};
ghost use Rattle.isp_traces.specs.Executed.{as_executed, instr_at, instr_in, lanes_on};
ghost use Rattle.isp_traces.specs.Tallies.{IsGrouped};

use crate::kinds::{Kind, kind_of};
use crate::masks::under;
use crate::named::place_of;
use crate::tallies::{Counts, Grouping};
use isp_code::{Function, Instr};
use isp_machine::{Machine, Stop};
use isp_verify::Verified;
use std::alloc::{AllocError, Global};

/// An instruction as it is counted: its function, its kind, the place that it names, and how many lanes are on in the mask
/// under which it stands.
#[derive(Clone, Copy)]
pub(crate) struct Executed {
    pub(crate) function: usize,
    pub(crate) kind: Kind,
    pub(crate) place: Option<u32>,
    pub(crate) on: Option<u32>,
}

/// An instruction of a function, by the number of both. None where there is none.
pub(crate) fn instr_of(functions: &[Function], function: usize, instr: usize) -> Option<&Instr>
    ensures some { IfSome result (λ i. instr_in (slice_get (map routine_of functions.now) function) instr ≡ Some i.now) }
    ensures there { OnSome result (function < length functions.now) }
    ensures none { IfNone result (instr_in (slice_get (map routine_of functions.now) function) instr ≡ None) }
{
    if function < functions.len() && instr < functions[function].code.len() {
        Some(&functions[function].code[instr])
    } else {
        None
    }
}

// The instruction before which the machine stands.
fn next_executed<const N: usize>(
    machine: &Machine<'_, N>,
    functions: &[Function],
) -> Option<Executed>
    requires { map routine_of functions.now ≡ machine.now.code.routines }
    ensures executed { result ≡ as_executed machine.now.code (seen_conf machine.now) (instr_at machine.now.code (seen_conf machine.now)) }
    ensures there { IfSome result (λ e. e.function < length functions.now) }
{
    let spot = machine.spot();
    match instr_of(functions, spot.function, spot.instr) {
        None => None,
        Some(instr) => Some(Executed {
            function: spot.function,
            kind: kind_of(instr),
            place: place_of(instr),
            on: on_under(machine, instr),
        }),
    }
}

// How many lanes are on in the mask under which an instruction stands.
fn on_under<const N: usize>(machine: &Machine<'_, N>, instr: &Instr) -> Option<u32>
    ensures { result ≡ lanes_on machine.now.code (seen_conf machine.now) (under instr.now) }
{
    match under(instr) {
        None => None,
        Some(mask) => Some(machine.lanes_on(mask.number as usize).unwrap_or(0)),
    }
}

/// As many instructions as `budget` says, but none past an end, as `Machine::run` makes them, and what they come to.
/// `code` is the code of the machine. Those that name places are also counted by groups of these.
///
/// Where memory is refused in the midst of the run it stands before the instruction that wanted it, and the counts are of
/// those before. 0 where memory for the counts is refused; then nothing is run.
pub fn count<const N: usize>(
    alloc: Global,
    machine: &mut Machine<'_, N>,
    code: &Verified,
    budget: u64,
    grouping: Grouping,
) -> Result<(Stop, Counts), AllocError>
    requires { machine.old.code ≡ code.now }
    ensures gives { IfOk result (λ r. CountGives budget machine.old machine.new r.0 r.1) }
    ensures grouped { IfOk result (λ r. IsGrouped grouping r.1.groups) }
    ensures same { OnErr result (machine.new ≡ machine.old) }
{
    let functions = code.code().functions();
    let mut counts = Counts::nothing(alloc, functions.len(), grouping)?;
    let mut stop = machine.run(0);
    for done in 0..budget {
        match stop {
            Stop::Running => {}
            _ => return Ok((stop, counts)),
        }
        let executed = next_executed(machine, functions);
        stop = machine.run(1);
        match stop {
            Stop::Memory => return Ok((Stop::Memory, counts)),
            _ => counts.add_if(executed),
        }
    }
    Ok((stop, counts))
}
