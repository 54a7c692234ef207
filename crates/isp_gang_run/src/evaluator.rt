//! The loop over the tasks, from before a run to its end.
ghost use Rattle.std.specs.Prelude.{◌≡◌, ◌<◌, ◌-◌, [], length, map, None, IfErr, IfOk, OnOk};
ghost use Rattle.isp_base.specs.Sets.{everyone};
ghost use Rattle.isp_base.specs.Types.{gang_width};
ghost use Rattle.isp_typed.specs.Views.{function_of, program_of};
ghost use Rattle.isp_gang_run.specs.Ends.{Ends};
ghost use Rattle.isp_gang_run.specs.Passing.{does_call};
ghost use Rattle.isp_gang_values.specs.Growing.{values_of};
ghost use Rattle.isp_gang_run.specs.Seen.{frame_seen, passed_seen, state_seen};
ghost use Rattle.isp_gang_run.specs.Starting.{ArgumentsFit};
ghost use Rattle.isp_gang_run.specs.Starts.{Starts, nothing_written};
ghost use Rattle.isp_gang_arrays.specs.Stores.{stores_of};
ghost use Rattle.isp_gang_run.specs.Tasks.{Halts, rest};

use crate::activation::Activation;
use crate::counting::Work;
use crate::starting::{sizes, stores};
use crate::state::{Evaluator, Sets, Stop};
use crate::tasks::Passed;
use isp_base::Argument;
use isp_gang_values::computed::Computed;
use isp_gang_values::sets::{WIDEST, everyone, nobody};
use isp_typed::{Program, TypedFunction};
use std::alloc::{AllocError, Global};

/// How many calls may run, one in the other.
const MOST_CALLS: usize = 256;

/// Before a run: the arrays among the arguments, and nothing else.
pub fn started<'a>(
    alloc: Global,
    program: &'a Program,
    arguments: &[Argument],
    turns: u64,
) -> Result<Evaluator<'a>, AllocError>
    ensures starts { IfOk result (Starts (program_of program.now) turns arguments.now) }
    ensures fits { IfOk result (λ e. ArgumentsFit arguments.now) }
{
    let stores = stores(alloc, arguments)?;
    let sizes = sizes(alloc, arguments)?;
    Ok(evaluator(alloc, program, turns, stores, sizes))
}

// Before a run with such stores.
#[tactic(auto, using(isp_gang_values::proofs::Vectors::zeros))]
fn evaluator<'a>(
    alloc: Global,
    program: &'a Program,
    turns: u64,
    stores: Vec<Vec<u64>>,
    sizes: Vec<usize>,
) -> Evaluator<'a>
    ensures program { result.program ≡ program.entry }
    ensures turns { result.turns ≡ turns }
    ensures left { result.left ≡ 256 }
    ensures frame { frame_seen result.here ≡ record (frame_seen result.here)
        { sizes = values_of sizes.items; opened = length sizes.items; own_sizes = λ v. 0; answer = None } }
    ensures state { state_seen result 0 ≡ nothing_written (stores_of stores.items) }
    ensures nothing { result.tasks.items ≡ [] }
    ensures work { result.work.count ≡ 0 }
{
    let here = Activation {
        function: None,
        named: Vec::new(alloc),
        sizes,
        uniforms: Vec::new(alloc),
        varying: Vec::new(alloc),
        own: Vec::new(alloc),
        result: 0,
        results: [0; WIDEST],
    };
    Evaluator {
        alloc,
        program,
        turns,
        left: MOST_CALLS,
        here,
        stores,
        output: Vec::new(alloc),
        work: Work::none(),
        value: Computed::One(0),
        sets: Sets::all(&nobody()),
        tasks: Vec::new(alloc),
    }
}

impl<'a> Evaluator<'a> {
    /// A call of a function, and all that comes of it.
    pub fn done(&mut self, function: &'a TypedFunction, passed: &[Passed]) -> Result<(), Stop>
        requires some { 0 < self.old.left }
        requires nothing { self.old.tasks.items ≡ [] }
        ensures ok { OnOk result (Ends self.old self.new (does_call self.old (self.old.left - 1) (function_of function.now)
            (everyone (gang_width self.old.program.now.gang)) (map passed_seen passed.now))) }
        ensures err { IfErr result (Halts self.old self.new (does_call self.old (self.old.left - 1) (function_of function.now)
            (everyone (gang_width self.old.program.now.gang)) (map passed_seen passed.now))) }
    {
        let set = everyone(self.gang());
        self.begin(function, passed, set)?;
        self.finish()?;
        Ok(())
    }

    // All tasks, the last one first. Each leaves fewer to be done, so they come to an end.
    fn finish(&mut self) -> Result<(), Stop>
        ensures ok { OnOk result (Ends self.old self.new (rest self.old)) }
        ensures err { IfErr result (Halts self.old self.new (rest self.old)) }
    {
        while let Some(task) = self.tasks.pop() {
            self.act(task)?;
        }
        Ok(())
    }
}
