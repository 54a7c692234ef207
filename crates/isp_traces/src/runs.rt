//! Runs of exported functions, with what they do.
ghost use Rattle.std.specs.Prelude.{◌≡◌, IfErr, IfOk};
ghost use Rattle.isp_base.specs.Types.{gang_width};
ghost use Rattle.isp_machine.specs.Starts.{NoEntryFor};
ghost use Rattle.isp_machine.specs.declared.stop.StartFault.TheVariants.{Memory, NoEntry};
ghost use Rattle.isp_traces.specs.Counting.{CountedRun, EntryFor};
ghost use Rattle.isp_traces.specs.Tallies.{IsGrouped};
ghost use Rattle.isp_traces.specs.Tracing.{TracedRun};

use crate::counting::count;
use crate::tallies::{Counts, Grouping};
use crate::tracing::{Window, trace};
use isp_base::{Array, Bound, Gang, Value};
use isp_machine::{Machine, StartFault, Stop};
use isp_verify::Verified;
use std::alloc::Global;

/// How a counted run stands: why it stopped, its output, the arrays among its arguments in their order, its result, and
/// what its instructions come to.
#[derive(Debug, Drop)]
pub struct Counted {
    pub stop: Stop,
    pub output: Vec<u8>,
    pub arrays: Vec<Array>,
    pub result: Option<Value>,
    pub counts: Counts,
}

/// How a traced run stands after the last step that has a line, and the lines.
#[derive(Debug, Drop)]
pub struct Traced {
    pub stop: Stop,
    pub text: Vec<u8>,
}

/// Runs an exported function from arguments for `budget` instructions at most, and counts them.
///
/// 50 NoEntry where no exported function has this name and takes these arguments; 0 where memory is refused, before the
/// run or in it.
pub fn count_run(
    alloc: Global,
    code: &Verified,
    entry: &str,
    bound: Bound,
    budget: u64,
) -> Result<Counted, StartFault>
    ensures counted { IfOk result (CountedRun code.now entry.now bound.arguments.items budget) }
    ensures none { IfErr result (λ e. e ≡ NoEntry → NoEntryFor code.now entry.now bound.arguments.items) }
    ensures memory { IfErr result (λ e. e ≡ Memory → EntryFor code.now entry.now bound.arguments.items) }
{
    count_grouped(alloc, code, entry, bound, budget, Grouping::none(alloc))
}

/// The same, and those that name a place are also counted by groups of places.
pub fn count_grouped(
    alloc: Global,
    code: &Verified,
    entry: &str,
    bound: Bound,
    budget: u64,
    grouping: Grouping,
) -> Result<Counted, StartFault>
    ensures counted { IfOk result (CountedRun code.now entry.now bound.arguments.items budget) }
    ensures grouped { IfOk result (λ r. IsGrouped grouping r.counts.groups) }
    ensures none { IfErr result (λ e. e ≡ NoEntry → NoEntryFor code.now entry.now bound.arguments.items) }
    ensures memory { IfErr result (λ e. e ≡ Memory → EntryFor code.now entry.now bound.arguments.items) }
{
    match code.gang() {
        Gang::W4 => count_for::<4>(alloc, code, entry, bound, budget, grouping),
        Gang::W8 => count_for::<8>(alloc, code, entry, bound, budget, grouping),
        Gang::W16 => count_for::<16>(alloc, code, entry, bound, budget, grouping),
        Gang::W32 => count_for::<32>(alloc, code, entry, bound, budget, grouping),
    }
}

fn count_for<const N: usize>(
    alloc: Global,
    code: &Verified,
    entry: &str,
    bound: Bound,
    budget: u64,
    grouping: Grouping,
) -> Result<Counted, StartFault>
    requires { N ≡ gang_width code.now.gang }
    ensures counted { IfOk result (CountedRun code.now entry.now bound.arguments.items budget) }
    ensures grouped { IfOk result (λ r. IsGrouped grouping r.counts.groups) }
    ensures none { IfErr result (λ e. e ≡ NoEntry → NoEntryFor code.now entry.now bound.arguments.items) }
    ensures memory { IfErr result (λ e. e ≡ Memory → EntryFor code.now entry.now bound.arguments.items) }
{
    let mut machine = match Machine::<N>::start(alloc, code, entry, bound) {
        Ok(machine) => machine,
        Err((_bound, fault)) => return Err(fault),
    };
    let (stop, counts) = count(alloc, &mut machine, code, budget, grouping)?;
    if let Stop::Memory = stop {
        return Err(StartFault::Memory);
    }
    let result = machine.result();
    let rest = machine.into_rest();
    Ok(Counted {
        stop,
        output: rest.output,
        arrays: rest.arrays,
        result,
        counts,
    })
}

/// Runs an exported function from arguments up to the end of a window, or for `budget` instructions where they are fewer,
/// and gives the line of each step in the window.
///
/// A line is `3 share L3: mtest m3 v2 m0 m0=1111 -> m3=1110`: the number of the step, the function, the number of the
/// instruction, its line of code text, the masks that it reads as they were before it, lane 0 first, and what it wrote,
/// a mask, or a vector where lanes are wanted. 50 and 0 as `count_run` answers them.
pub fn trace_run(
    alloc: Global,
    code: &Verified,
    entry: &str,
    bound: Bound,
    window: Window,
    budget: u64,
) -> Result<Traced, StartFault>
    ensures traced { IfOk result (TracedRun code.now entry.now bound.arguments.items window budget) }
    ensures none { IfErr result (λ e. e ≡ NoEntry → NoEntryFor code.now entry.now bound.arguments.items) }
    ensures memory { IfErr result (λ e. e ≡ Memory → EntryFor code.now entry.now bound.arguments.items) }
{
    match code.gang() {
        Gang::W4 => trace_for::<4>(alloc, code, entry, bound, window, budget),
        Gang::W8 => trace_for::<8>(alloc, code, entry, bound, window, budget),
        Gang::W16 => trace_for::<16>(alloc, code, entry, bound, window, budget),
        Gang::W32 => trace_for::<32>(alloc, code, entry, bound, window, budget),
    }
}

fn trace_for<const N: usize>(
    alloc: Global,
    code: &Verified,
    entry: &str,
    bound: Bound,
    window: Window,
    budget: u64,
) -> Result<Traced, StartFault>
    requires { N ≡ gang_width code.now.gang }
    ensures traced { IfOk result (TracedRun code.now entry.now bound.arguments.items window budget) }
    ensures none { IfErr result (λ e. e ≡ NoEntry → NoEntryFor code.now entry.now bound.arguments.items) }
    ensures memory { IfErr result (λ e. e ≡ Memory → EntryFor code.now entry.now bound.arguments.items) }
{
    let mut machine = match Machine::<N>::start(alloc, code, entry, bound) {
        Ok(machine) => machine,
        Err((_bound, fault)) => return Err(fault),
    };
    let (stop, text) = trace(alloc, &mut machine, code, window, budget)?;
    Ok(Traced { stop, text })
}
