//! The run of each instance alone, from the bound arrays.
ghost use Rattle.std.specs.Prelude.{◌<◌, IfErr, IfOk, length};
ghost use Rattle.std.specs.List.{All};
ghost use Rattle.isp_base.specs.Arguments.{rows};
ghost use Rattle.isp_base.specs.Rows.{Fit};
ghost use Rattle.isp_typed.specs.Views.{program_of};
ghost use Rattle.isp_solo.specs.Came.{Came};
ghost use Rattle.isp_solo.specs.Report.{IsRefused, IsSoloReport, ReportFits};

use crate::ending::ended;
use crate::report::SoloReport;
use crate::together::Together;
use isp_base::{Argument, Bound};
use isp_entry::{EvalFault, find_number};
use isp_rates::Checked;
use isp_solo_run::arrays::Arrays;
use isp_solo_run::running::{Ending, run_alone};
use isp_typed::Program;
use std::alloc::{AllocError, Global};

/// The instances of an exported function one by one, from bound arguments, where each loop makes at most so many turns each
/// time it is entered: each runs alone from the bound arrays, 0 first. The first that traps or is cut is the report; else the first
/// element at which two clash; else the arrays that they leave one after the other, 0 first, and the result of instance 0.
///
/// 50 where no exported function has that name and the arguments' signature; 80 where it is not independent
/// (docs/INDEPENDENCE.md), with its first breach; 0 where memory is refused.
pub fn one_by_one(
    alloc: Global,
    checked: &Checked,
    entry: &str,
    bound: &Bound,
    turns: u64,
) -> Result<SoloReport, EvalFault>
    ensures ok { IfOk result (IsSoloReport (program_of checked.now) entry.now bound.now.arguments.items turns) }
    ensures fits { IfOk result ReportFits }
    ensures err { IfErr result (λ e. IsRefused e (program_of checked.now) entry.now bound.now.arguments.items) }
{
    let program = checked.program();
    let Some(function) = find_number(program, entry, bound) else {
        return Err(EvalFault::NoEntry);
    };
    if let Err(dependence) = checked.independent(entry) {
        return Err(EvalFault::NotIndependent(dependence));
    }
    let report = report(alloc, program, function, bound.arguments.as_slice(), turns)?;
    Ok(report)
}

// The report of a function by its number.
fn report(
    alloc: Global,
    program: &Program,
    function: usize,
    arguments: &[Argument],
    turns: u64,
) -> Result<SoloReport, AllocError>
    requires { function < length program.now.functions.items }
    ensures came { IfOk result (Came (program_of program.now) function arguments.now turns) }
    ensures fits { IfOk result (λ r. All (λ r. Fit r.elem r.bits) (rows arguments.now)) }
{
    let mut together = Together::new(alloc, arguments)?;
    let mut arrays = Arrays::new(alloc);
    for instance in 0..program.gang.width() {
        let run = run_alone(program, function, arguments, turns, instance, arrays)?;
        match run.ending {
            Ending::Gave(value) => together.add(alloc, &run, instance, value)?,
            Ending::Trapped(trap) => return Ok(SoloReport::Trapped(trap)),
            Ending::Cut => return Ok(SoloReport::Cut(instance)),
        }
        arrays = run.arrays;
    }
    let gives = program.functions[function].signature.result;
    Ok(ended(together, arguments, gives))
}
