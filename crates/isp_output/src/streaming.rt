//! Output that is written while a machine runs.
ghost use Rattle.std.specs.Prelude.{◌≡◌, false, IfOk, OnOk, OnErr};
ghost use Rattle.isp_output.specs.Sinks.{TookAll, TookSome};
ghost use Rattle.isp_output.specs.Stops.{Adds, MadeSome};
ghost use Rattle.isp_machine.specs.Runs.{RunGives};

use crate::sink::{Sink, SinkFault, write_all};
use isp_machine::{Machine, Stop};

/// The greatest number of instructions after which what is new of the output goes out.
const STRETCH: u64 = 4_096;

// Runs so many instructions at most, and writes what they add to the output.
fn stretch<const N: usize, W: Sink>(
    machine: &mut Machine<'_, N>,
    count: u64,
    out: &mut W,
) -> Result<Stop, SinkFault>
    requires { W.has_failed out.old ≡ false }
    ensures ran { IfOk result (RunGives count machine.old machine.new) }
    ensures cut { OnErr result (MadeSome count machine.old machine.new) }
    ensures ok { OnOk result (Adds machine.old machine.new (λ bytes. TookAll bytes (W.written out.old)
        (W.written out.new) (W.has_failed out.new))) }
    ensures err { OnErr result (Adds machine.old machine.new (λ bytes. TookSome bytes
        (W.written out.old) (W.written out.new) (W.has_failed out.new))) }
{
    let told = machine.output().len();
    let stop = machine.run(count);
    let output = machine.output();
    let new = &output[told..];
    write_all(out, new)?;
    Ok(stop)
}

/// Runs at most `budget` instructions, as `Machine::run` does, and writes what they add to the output: after each 4,096
/// instructions, and at the stop. `SinkFault` where a write fails or takes no byte, which ends the run; then the beginning of
/// what was added has gone out.
pub fn stream<const N: usize, W: Sink>(
    machine: &mut Machine<'_, N>,
    budget: u64,
    out: &mut W,
) -> Result<Stop, SinkFault>
    requires { W.has_failed out.old ≡ false }
    ensures ran { IfOk result (RunGives budget machine.old machine.new) }
    ensures cut { OnErr result (MadeSome budget machine.old machine.new) }
    ensures ok { OnOk result (Adds machine.old machine.new (λ bytes. TookAll bytes (W.written out.old)
        (W.written out.new) (W.has_failed out.new))) }
    ensures err { OnErr result (Adds machine.old machine.new (λ bytes. TookSome bytes
        (W.written out.old) (W.written out.new) (W.has_failed out.new))) }
{
    let mut left = budget;
    while left > STRETCH {
        match stretch(machine, STRETCH, out)? {
            Stop::Running => left -= STRETCH,
            stop => return Ok(stop),
        }
    }
    stretch(machine, left, out)
}
