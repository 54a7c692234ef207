//! The run of a function from bound arguments.
ghost use Rattle.std.specs.Prelude.{◌≡◌, IfOk};
ghost use Rattle.isp_typed.specs.Views.{function_of, program_of};
ghost use Rattle.isp_meaning.specs.Outcomes.{Val};
ghost use Rattle.isp_meaning.specs.Payloads.{Payload};
ghost use Rattle.isp_gang_run.specs.Runs.{HasRun, IsRunOf};
ghost use Rattle.isp_gang_run.specs.Settled.{Stands, Stood};
ghost use Rattle.isp_gang_run.specs.Starting.{ArgumentsFit};
ghost use Rattle.isp_gang_arrays.specs.Stores.{stores_of};

use crate::evaluator::started;
use crate::starting::handed;
use crate::state::{Evaluator, Stop};
use isp_base::{Argument, Trap};
use isp_gang_arrays::stores::element_at;
use isp_gang_values::computed::Computed;
use isp_typed::{Program, TypedFunction};
use std::alloc::{AllocError, Global};

/// How a run ended.
#[derive(Clone, Copy)]
pub enum Ending {
    /// The function gave this.
    Gave(Computed),
    /// It trapped.
    Trapped(Trap),
    /// A loop would take one turn too many.
    Cut,
}

/// What a run came to.
#[derive(Drop)]
pub struct Run {
    pub ending: Ending,
    /// The elements of the arrays among the arguments, in their order.
    pub stores: Vec<Vec<u64>>,
    pub output: Vec<u8>,
    /// The work up to the end: 18,446,744,073,709,551,615 where it is more.
    pub work: u64,
}

impl Run {
    /// An element of an array as it is then, 0 where there is none.
    pub fn element(&self, array: usize, place: usize) -> u64
        ensures { result ≡ stores_of self.now.stores.items array place }
    {
        element_at(self.stores.as_slice(), array, place)
    }
}

// A call that was done: how it stands, and how its tasks ended.
#[derive(Drop)]
struct Finished<'a> {
    evaluator: Evaluator<'a>,
    ending: Result<(), Stop>,
}

/// Runs a function of a program from arguments that have its signature, where each loop makes at most so many turns each
/// time it is entered.
///
/// Only memory may be refused.
pub fn run_function(
    alloc: Global,
    program: &Program,
    function: &TypedFunction,
    arguments: &[Argument],
    turns: u64,
) -> Result<Run, AllocError>
    ensures ran { IfOk result (HasRun (program_of program.now) (function_of function.now) turns arguments.now) }
    ensures fits { IfOk result (λ r. ArgumentsFit arguments.now) }
{
    let finished = ran(alloc, program, function, arguments, turns)?;
    finished.run()
}

// The run up to where nothing is left to be done.
fn ran<'a>(
    alloc: Global,
    program: &'a Program,
    function: &'a TypedFunction,
    arguments: &[Argument],
    turns: u64,
) -> Result<Finished<'a>, AllocError>
    ensures stands { IfOk result (λ r. Stood (program_of program.now) (function_of function.now) turns arguments.now r.ending r.evaluator) }
    ensures fits { IfOk result (λ r. ArgumentsFit arguments.now) }
{
    let mut evaluator = started(alloc, program, arguments, turns)?;
    let passed = handed(alloc, arguments)?;
    let ending = evaluator.done(function, passed.as_slice());
    Ok(Finished { evaluator, ending })
}

impl Finished<'_> {
    // What it came to, where memory was not refused.
    fn run(self) -> Result<Run, AllocError>
        ensures { IfOk result (λ r. (v : Val Payload) → Stands self.entry.ending self.entry.evaluator v → IsRunOf r v) }
    {
        let value = self.evaluator.value;
        match self.ending {
            Ok(()) => Ok(self.evaluator.ended(Ending::Gave(value))),
            Err(Stop::Trapped(trap)) => Ok(self.evaluator.ended(Ending::Trapped(trap))),
            Err(Stop::Cut) => Ok(self.evaluator.ended(Ending::Cut)),
            Err(Stop::Memory) => Err(AllocError),
        }
    }
}

impl Evaluator<'_> {
    // What is left of it at the end.
    fn ended(self, ending: Ending) -> Run
        ensures { result ≡ record { ending = ending; stores = self.entry.stores; output = self.entry.output; work = self.entry.work.count } }
    {
        Run {
            ending,
            stores: self.stores,
            output: self.output,
            work: self.work.count,
        }
    }
}
