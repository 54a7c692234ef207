//! The steps of a run.
ghost use Rattle.std.specs.Prelude.{◌≡◌, ◌++◌, [], min, IfOk, OnErr, OnOk, if◌then◌else◌};
ghost use Rattle.isp_code.specs.Listing.{Routine};
ghost use Rattle.isp_machine.specs.Kept.{state};
ghost use Rattle.isp_machine.specs.Runs.{IsRunning, Made};
ghost use Rattle.isp_machine.specs.Seen.{seen_conf};
ghost use Rattle.isp_traces.specs.Operands.{written_lanes, written_mask};
ghost use Rattle.isp_traces.specs.Steps.{before_text, line_between, new_mask_text, vector_text};
ghost use Rattle.isp_traces.specs.Tracing.{MadeUpTo, StopsAs, TraceGives, behind, first};

use crate::counting::instr_of;
use crate::lines::{push_instr, push_new_mask, push_place, push_read, push_vector};
use isp_code::Instr;
use isp_machine::{Machine, Stop};
use isp_verify::{Registers, Verified};
use std::alloc::{AllocError, Global};

/// Which steps have a line: `count` of them from number `from` on, where the first step of a run has number 0; and
/// whether the lanes that each wrote are shown.
#[derive(Clone, Copy, Debug, PartialEq, Eq)]
pub struct Window {
    pub from: u64,
    pub count: u64,
    pub lanes: bool,
}

impl Window {
    // The number of the first step that has a line, and that after the last one.
    fn steps(self, budget: u64) -> (u64, u64)
        ensures first { result.0 ≡ first self budget }
        ensures behind { result.1 ≡ behind self budget }
    {
        let behind = self.from.saturating_add(self.count);
        (least(self.from, budget), least(behind, budget))
    }
}

fn least(x: u64, y: u64) -> u64
    ensures { result ≡ min x y }
{
    if x < y { x } else { y }
}

/// Runs up to the end of a window, or for `budget` instructions where they are fewer, and gives the line of each step in
/// the window. `code` is the code of the machine, and steps are numbered from where it stands.
///
/// 0: memory was refused, to the run or to the lines; some of the steps are made.
pub fn trace<const N: usize>(
    alloc: Global,
    machine: &mut Machine<'_, N>,
    code: &Verified,
    window: Window,
    budget: u64,
) -> Result<(Stop, Vec<u8>), AllocError>
    requires { machine.old.code ≡ code.now }
    ensures gives { IfOk result (λ r. TraceGives window budget machine.old machine.new r.0 r.1.items) }
    ensures refused { OnErr result (MadeUpTo (behind window budget) machine.old machine.new) }
{
    let mut text = Vec::new(alloc);
    let (first, behind) = window.steps(budget);
    let mut stop = made(machine, first)?;
    for number in first..behind {
        match stop {
            Stop::Running => {}
            _ => return Ok((stop, text)),
        }
        stop = push_step(alloc, &mut text, machine, code, number, window.lanes)?;
    }
    Ok((stop, text))
}

// So many instructions at most.
fn made<const N: usize>(machine: &mut Machine<'_, N>, budget: u64) -> Result<Stop, AllocError>
    ensures made { OnOk result (Made budget machine.old machine.new) }
    ensures refused { OnErr result (MadeUpTo budget machine.old machine.new) }
    ensures stops { IfOk result (λ stop. StopsAs stop (state machine.new)) }
{
    match machine.run(budget) {
        Stop::Memory => Err(AllocError),
        stop => Ok(stop),
    }
}

/// A step that is shown: its number, the name of the function at work, the types of its registers, and its instruction.
#[derive(Clone, Copy)]
struct Shown<'a> {
    number: u64,
    name: &'a str,
    registers: &'a Registers,
    instr: &'a Instr,
}

// One step and its line.
fn push_step<const N: usize>(
    alloc: Global,
    text: &mut Vec<u8>,
    machine: &mut Machine<'_, N>,
    code: &Verified,
    number: u64,
    lanes: bool,
) -> Result<Stop, AllocError>
    requires code { machine.old.code ≡ code.now }
    requires running { IsRunning (state machine.old) }
    ensures made { OnOk result (Made 1 machine.old machine.new) }
    ensures refused { OnErr result (MadeUpTo 1 machine.old machine.new) }
    ensures stops { IfOk result (λ stop. StopsAs stop (state machine.new)) }
    ensures line { OnOk result (text.new.items ≡ text.old.items ++ line_between code.now lanes number (state machine.old) (state machine.new)) }
{
    let spot = machine.spot();
    let functions = code.code().functions();
    let Some(instr) = instr_of(functions, spot.function, spot.instr) else {
        return made(machine, 1);
    };
    let shown = Shown {
        number,
        name: functions[spot.function].name.as_str(),
        registers: code.registers(spot.function),
        instr,
    };
    push_before(alloc, text, machine, code, shown)?;
    let stop = made(machine, 1)?;
    if let Stop::Running = stop {
        push_after(text, machine, code, shown, lanes)?;
    }
    text.extend_from_slice(b"\n")?;
    Ok(stop)
}

// What is shown of a step before it is made.
fn push_before<const N: usize>(
    alloc: Global,
    text: &mut Vec<u8>,
    machine: &Machine<'_, N>,
    code: &Verified,
    shown: Shown<'_>,
) -> Result<(), AllocError>
    requires { machine.now.code ≡ code.now }
    ensures { OnOk result ((h : Routine) → h.name ≡ shown.entry.name.now → text.new.items ≡ text.old.items ++ before_text code.now shown.entry.number h (seen_conf machine.now) shown.entry.instr.now) }
{
    push_place(text, shown.number, shown.name, machine.spot().instr)?;
    push_instr(alloc, text, shown.instr)?;
    push_read(text, machine, code, shown.instr)
}

// What is shown of a step after which control goes on.
fn push_after<const N: usize>(
    text: &mut Vec<u8>,
    machine: &Machine<'_, N>,
    code: &Verified,
    shown: Shown<'_>,
    lanes: bool,
) -> Result<(), AllocError>
    requires { machine.now.code ≡ code.now }
    ensures { OnOk result (text.new.items ≡ text.old.items ++ (new_mask_text code.now (seen_conf machine.now) (written_mask shown.entry.instr.now)
        ++ (if lanes then vector_text code.now shown.entry.registers.now.vectors (seen_conf machine.now) (written_lanes shown.entry.instr.now) else []))) }
{
    push_new_mask(text, machine, code, shown.instr)?;
    if lanes {
        push_vector(text, machine, code, shown.registers, shown.instr)?;
    }
    Ok(())
}
