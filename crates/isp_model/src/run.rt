//! The run of an entry.
ghost use Rattle.std.specs.Prelude.{IfErr, IfOk};
ghost use Rattle.isp_typed.specs.Views.{program_of};
ghost use Rattle.isp_model.specs.Evaluated.{IsRefused, IsRun, IsWork, ResultFits};

use crate::ending::outcome;
use crate::outcome::Outcome;
use isp_base::Bound;
use isp_entry::{EvalFault, find};
use isp_gang_run::run_function;
use isp_rates::Checked;
use std::alloc::Global;

/// The run of an exported function from bound arguments, where each loop makes at most so many turns each
/// time it is entered.
///
/// 50 where no exported function has that name and the arguments' signature; 0 where memory is refused.
pub fn evaluate(
    alloc: Global,
    checked: &Checked,
    entry: &str,
    bound: &Bound,
    turns: u64,
) -> Result<Outcome, EvalFault>
    ensures ok { IfOk result (IsRun (program_of checked.now) entry.now bound.now.arguments.items turns) }
    ensures fits { IfOk result ResultFits }
    ensures err { IfErr result (λ e. IsRefused e (program_of checked.now) entry.now bound.now.arguments.items) }
{
    let program = checked.program();
    let Some(function) = find(program, entry, bound) else {
        return Err(EvalFault::NoEntry);
    };
    let arguments = bound.arguments.as_slice();
    let done = run_function(alloc, program, function, arguments, turns)?;
    let outcome = outcome(alloc, function, arguments, done)?;
    Ok(outcome)
}

/// The work of the run that `evaluate` makes, up to its end, trap or cut: 18,446,744,073,709,551,615 where it is more.
///
/// 50 where no exported function has that name and the arguments' signature; 0 where memory is refused.
pub fn work(
    alloc: Global,
    checked: &Checked,
    entry: &str,
    bound: &Bound,
    turns: u64,
) -> Result<u64, EvalFault>
    ensures ok { IfOk result (IsWork (program_of checked.now) entry.now bound.now.arguments.items turns) }
    ensures err { IfErr result (λ e. IsRefused e (program_of checked.now) entry.now bound.now.arguments.items) }
{
    let program = checked.program();
    let Some(function) = find(program, entry, bound) else {
        return Err(EvalFault::NoEntry);
    };
    let done = run_function(alloc, program, function, bound.arguments.as_slice(), turns)?;
    Ok(done.work)
}
