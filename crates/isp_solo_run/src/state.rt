//! The run of one instance: its registers, and what is left to do.
ghost use Rattle.std.specs.Prelude.{◌≡◌, ◌++◌, ◌∷◌, [], OnOk};
ghost use Rattle.isp_base.specs.Traps.{trap};
ghost use Rattle.isp_solo_run.specs.Tasks.{Tells, WaitBoth, Waits, gives, goes, leaves};
ghost use Rattle.isp_solo_run.specs.declared.state.Stop.TheVariants as Stop;

use crate::activation::Activation;
use crate::arrays::Arrays;
use crate::tasks::Task;
use isp_base::{Array, Span, Trap, TrapKind};
use isp_typed::Program;
use std::alloc::{AllocError, Global};

/// Why a run stops before its tasks are done.
#[derive(Clone, Copy)]
pub enum Stop {
    /// Memory was refused.
    Memory,
    /// It trapped.
    Trapped(Trap),
    /// A loop would take one turn too many.
    Cut,
}

/// How the last statement was left.
#[derive(Clone, Copy)]
pub enum How {
    Going,
    Broke,
    Continued,
    Returned,
}

/// What stays during a run: the program, the arrays among the arguments, the instance, and how many turns a loop makes each
/// time it is entered.
#[derive(Clone, Copy)]
pub struct Setting<'a> {
    pub program: &'a Program,
    pub bound: &'a [&'a Array],
    pub instance: usize,
    pub turns: u64,
}

/// A run: the call that runs, the arrays that all instances share, what is left to do, and two registers.
#[derive(Drop)]
pub struct Single<'a> {
    pub alloc: Global,
    pub setting: Setting<'a>,
    /// How many more calls may run, one in the other.
    pub left: usize,
    pub here: Activation<'a>,
    pub arrays: Arrays,
    /// What the last expression gave.
    pub value: u64,
    pub how: How,
    /// What is left to do, the next last.
    pub tasks: Vec<Task<'a>>,
}

impl<'a> Single<'a> {
    /// One more task, to be done before the others.
    pub fn push(&mut self, task: Task<'a>) -> Result<(), AllocError>
        ensures more { OnOk result (self.new.tasks.items ≡ self.old.tasks.items ++ task.entry ∷ []) }
        ensures rest { OnOk result (self.new ≡ record self.old { tasks = self.new.tasks }) }
    {
        self.tasks.push(task)?;
        Ok(())
    }

    /// A task is done next.
    #[tactic(auto, using(crate::proofs::Steps::later_tells))]
    pub fn later(&mut self, task: Task<'a>) -> Result<(), Stop>
        ensures { Waits result self.old self.new task.entry }
    {
        match self.push(task) {
            Ok(()) => Ok(()),
            Err(_) => Err(Stop::Memory),
        }
    }

    /// A task is done next, and then the other.
    #[tactic(auto, using(crate::proofs::Steps::both_tell))]
    pub fn both(&mut self, first: Task<'a>, second: Task<'a>) -> Result<(), Stop>
        ensures { WaitBoth result self.old self.new first.entry second.entry }
    {
        match self.push(second) {
            Ok(()) => self.later(first),
            Err(_) => Err(Stop::Memory),
        }
    }
}

impl<'a> Single<'a> {
    /// An expression gives this.

    pub fn give(&mut self, value: u64) -> Result<(), Stop>
        ensures { Tells result self.old self.new (gives value) 0 }
    {
        self.value = value;
        self.how = How::Going;
        Ok(())
    }

    /// The instance goes on.

    pub fn go_on(&mut self) -> Result<(), Stop>
        ensures { Tells result self.old self.new goes 0 }
    {
        self.value = 0;
        self.how = How::Going;
        Ok(())
    }

    /// A statement is left.

    pub fn leave(&mut self, how: How) -> Result<(), Stop>
        ensures { Tells result self.old self.new (leaves how) 0 }
    {
        self.value = 0;
        self.how = how;
        Ok(())
    }

    /// A trap of the instance.
    pub fn trap(&self, kind: TrapKind, place: Span) -> Stop
        ensures { result ≡ Stop.Trapped (trap kind place self.now.setting.instance) }
    {
        Stop::Trapped(Trap {
            kind,
            place,
            instance: self.setting.instance,
        })
    }
}
