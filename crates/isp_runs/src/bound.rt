//! Runs from arguments as they are bound.
ghost use Rattle.std.specs.Prelude.{◌≡◌, ℕ, List, IfOk, IfErr};
ghost use Rattle.isp_base.specs.Rows.{Row};
ghost use Rattle.isp_base.specs.Types.{gang_width};
ghost use Rattle.isp_base.specs.declared.types.Gang.{Gang};
ghost use Rattle.isp_machine.specs.Kept.{given, state};
ghost use Rattle.isp_store.specs.Held.{shapes_of};
ghost use Rattle.isp_runs.specs.BoundReports.{Leaves, MeansBound, NotMeant, RefusesBound, RunsBound, StandsAs, outside_at};
ghost use Rattle.isp_runs.specs.Compilation.{IsCompilation};

use crate::image::Image;
use crate::report::BoundReport;
use isp_base::{Bound, Gang};
use isp_machine::{Machine, StartFault, Stop};
use isp_outside::{Outside, asked_for};
use isp_verify::Verified;
use std::alloc::Global;

// What a machine leaves that stopped. Nothing is copied.
fn left<const N: usize>(code: &Verified, machine: Machine<'_, N>, stop: Stop) -> BoundReport
    requires code { machine.code ≡ code.now }
    ensures stop { result.stop ≡ stop }
    ensures leaves { (rs : List Row) → shapes_of rs ≡ given machine.entry → StandsAs stop (state machine.entry)
        → Leaves code.now rs (state machine.entry) result }
{
    let value = machine.result();
    let outside = asked(code, &machine, stop);
    let rest = machine.into_rest();
    BoundReport {
        stop,
        output: rest.output,
        arrays: rest.arrays,
        result: value,
        outside,
    }
}

// The element that an access asked for, where that is why the machine stopped.
fn asked<const N: usize>(code: &Verified, machine: &Machine<'_, N>, stop: Stop) -> Option<Outside>
    requires code { machine.now.code ≡ code.now }
    ensures { StandsAs stop (state machine.now) → result ≡ outside_at code.now (state machine.now) }
{
    match stop {
        Stop::Trapped(trap) => asked_for(code, machine, trap.instance),
        Stop::Ended | Stop::Running | Stop::Memory => None,
    }
}

// Runs the function that is exported under a name.
fn run<const N: usize>(
    alloc: Global,
    code: &Verified,
    entry: &str,
    bound: Bound,
    budget: u64,
) -> Result<BoundReport, (Bound, StartFault)>
    requires { N ≡ gang_width code.now.gang }
    ensures ran { IfOk result (RunsBound code.now entry.now bound.arguments.items budget) }
    ensures returned { IfErr result (λ e. e.0 ≡ bound) }
    ensures refused { IfErr result (λ e. RefusesBound code.now entry.now bound.arguments.items e.1) }
{
    match Machine::<N>::start(alloc, code, entry, bound) {
        Ok(mut machine) => {
            let stop = machine.run(budget);
            Ok(left(code, machine, stop))
        }
        Err(refused) => Err(refused),
    }
}

// The same for the gang that the code is for.
fn run_for_gang(
    alloc: Global,
    code: &Verified,
    entry: &str,
    bound: Bound,
    budget: u64,
) -> Result<BoundReport, (Bound, StartFault)>
    ensures ran { IfOk result (RunsBound code.now entry.now bound.arguments.items budget) }
    ensures returned { IfErr result (λ e. e.0 ≡ bound) }
    ensures refused { IfErr result (λ e. RefusesBound code.now entry.now bound.arguments.items e.1) }
{
    match code.gang() {
        Gang::W4 => run::<4>(alloc, code, entry, bound, budget),
        Gang::W8 => run::<8>(alloc, code, entry, bound, budget),
        Gang::W16 => run::<16>(alloc, code, entry, bound, budget),
        Gang::W32 => run::<32>(alloc, code, entry, bound, budget),
    }
}

/// Runs an exported function of a compiled program from bound arguments, for at most `budget` instructions, and reports how
/// the run stands then. It takes the arrays among the arguments and gives them back, and copies none.
///
/// 50 NoEntry where no exported function has the name and takes the arguments, 0 where memory is refused before the first
/// instruction. The arguments come back on either. Memory that is refused later is a stop and no refusal, since the arrays
/// may then have changed: the report has them, and the output, as the instructions before left them.
pub fn execute_bound(
    alloc: Global,
    image: &Image,
    entry: &str,
    bound: Bound,
    budget: u64,
) -> Result<BoundReport, (Bound, StartFault)>
    ensures machine { IfOk result (RunsBound image.now entry.now bound.arguments.items budget) }
    ensures returned { IfErr result (λ e. e.0 ≡ bound) }
    ensures refused { IfErr result (λ e. RefusesBound image.now entry.now bound.arguments.items e.1) }
    // For each text of which the image is a compilation, this is what the program of that text means.
    ensures means { IfOk result (λ r. (gang : Gang) (text : List ℕ) (compiled : IsCompilation gang text image.now)
        → MeansBound compiled.program entry.now bound.arguments.items budget r) }
    ensures not_meant { IfErr result (λ e. (gang : Gang) (text : List ℕ) (compiled : IsCompilation gang text image.now)
        → NotMeant compiled.program entry.now bound.arguments.items e.1) }
{
    let code = image.verified();
    bound.told();
    run_for_gang(alloc, code, entry, bound, budget)
}
