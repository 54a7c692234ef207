//! The run of a function by one instance alone, from bound arguments.
ghost use Rattle.std.specs.Prelude.{◌≡◌, [], IfOk, None, length, map};
ghost use Rattle.isp_solo_meaning.specs.Runs.{bound, fresh, solo_run};
ghost use Rattle.isp_gang_values.specs.Growing.{values_of};
ghost use Rattle.isp_meaning.specs.Runs.{no_place};
ghost use Rattle.isp_typed.specs.Views.{program_of};
ghost use Rattle.isp_solo_run.specs.Ends as Ends;
ghost use Rattle.isp_solo_run.specs.Ends.{IsRunOf, entry_answer};
ghost use Rattle.isp_solo_run.specs.Seen.{frame_seen, passed_seen};
ghost use Rattle.isp_solo_run.specs.Tasks as Tasks;
ghost use Rattle.isp_solo_run.specs.Tasks.{enters, state_seen};

use crate::activation::Activation;
use crate::arrays::Arrays;
use crate::starting::{bound_arrays, handed, sizes};
use crate::state::{How, Setting, Single, Stop};
use crate::tasks::Passed;
use isp_base::{Argument, Span, Trap};
use isp_typed::Program;
use std::alloc::AllocError;

/// How many calls may run, one in the other.
const MOST_CALLS: usize = 256;

/// How a run ended.
#[derive(Clone, Copy)]
pub enum Ending {
    /// The function gave this, 0 without a `return`.
    Gave(u64),
    /// It trapped.
    Trapped(Trap),
    /// A loop would take one turn too many.
    Cut,
}

/// What a run came to: how it ended, what it stored in the arrays among the arguments, and where it read them.
#[derive(Drop)]
pub struct Run {
    pub ending: Ending,
    pub arrays: Arrays,
}

/// Runs a function of a program, by its number, by one instance alone: from arguments that have its signature, where each
/// loop makes at most so many turns each time it is entered. What `arrays` said of an earlier run is forgotten.
///
/// Memory may be refused.
pub fn run_alone(
    program: &Program,
    function: usize,
    arguments: &[Argument],
    turns: u64,
    instance: usize,
    arrays: Arrays,
) -> Result<Run, AllocError>
    ensures { IfOk result (IsRunOf (solo_run (program_of program.now) function turns arguments.now (bound arguments.now) instance)) }
{
    let alloc = arrays.alloc;
    let bound = bound_arrays(alloc, arguments)?;
    let passed = handed(alloc, arguments)?;
    let sizes = sizes(alloc, arguments)?;
    let setting = Setting {
        program,
        bound: bound.as_slice(),
        instance,
        turns,
    };
    let single = begun(setting, sizes, arrays);
    single.came_to(function, passed.as_slice())
}

// How a run ends that stops before its tasks are done, unless memory was refused.
fn ending_of(stop: Stop) -> Option<Ending>
    ensures { result ≡ Ends.ending_of stop }
{
    match stop {
        Stop::Memory => None,
        Stop::Trapped(trap) => Some(Ending::Trapped(trap)),
        Stop::Cut => Some(Ending::Cut),
    }
}

// Before a run: stores of these sizes, of which nothing is stored or read.
fn begun(setting: Setting<'_>, sizes: Vec<usize>, mut arrays: Arrays) -> Single<'_>
    ensures setting { result.setting ≡ setting.entry }
    ensures left { result.left ≡ 256 }
    ensures frame { frame_seen result.here ≡ record (frame_seen result.here)
        { sizes = values_of sizes.items; opened = length sizes.items; own_sizes = λ v. 0; answer = None } }
    ensures state { state_seen result ≡ fresh }
    ensures nothing { result.tasks.items ≡ [] }
{
    let alloc = arrays.alloc;
    arrays.begin();
    let uniforms = Vec::new(alloc);
    let varying = Vec::new(alloc);
    let own = Vec::new(alloc);
    let here = Activation {
        function: None,
        named: Vec::new(alloc),
        sizes,
        uniforms,
        varying,
        own,
        result: 0,
    };
    Single {
        alloc,
        setting,
        left: MOST_CALLS,
        here,
        arrays,
        value: 0,
        how: How::Going,
        tasks: Vec::new(alloc),
    }
}

impl Single<'_> {
    // The call that the run is, and what it came to.
    fn came_to(mut self, function: usize, passed: &[Passed]) -> Result<Run, AllocError>
        requires { self.tasks.items ≡ [] }
        ensures { IfOk result (IsRunOf (entry_answer self.entry function (map passed_seen passed.now))) }
    {
        match self.done(function, passed) {
            Ok(()) => Ok(Run {
                ending: Ending::Gave(self.value),
                arrays: self.arrays,
            }),
            Err(stop) => match ending_of(stop) {
                Some(ending) => Ok(Run {
                    ending,
                    arrays: self.arrays,
                }),
                None => Err(AllocError),
            },
        }
    }

    // A call of a function by its number, and all that comes of it.
    fn done(&mut self, function: usize, passed: &[Passed]) -> Result<(), Stop>
        requires { self.old.tasks.items ≡ [] }
        ensures { Tasks.Ends result self.old self.new (enters self.old function no_place (map passed_seen passed.now)) }
    {
        let nowhere = Span { start: 0, end: 0 };
        match self.enter(function, nowhere, passed) {
            Ok(()) => self.finish(),
            Err(stop) => Err(stop),
        }
    }
}
