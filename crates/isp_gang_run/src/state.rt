//! The evaluator and its registers.
ghost use Rattle.std.specs.Prelude.{◌≡◌, ◌++◌, ◌∷◌, [], ℕ, IfErr, OnOk, None, Some};
ghost use Rattle.isp_base.specs.Sets.{flag_of, nobody};
ghost use Rattle.isp_base.specs.Traps.{trap};
ghost use Rattle.isp_gang_values.specs.declared.computed.Computed.TheVariants as Computed;
ghost use Rattle.isp_gang_run.specs.Due.{WaitBoth, Waits};
ghost use Rattle.isp_gang_run.specs.Tasks.{First, all_parts, parts_seen};

use crate::activation::Activation;
use crate::counting::Work;
use crate::tasks::Task;
use isp_base::{Gang, Span, Trap, TrapKind};
use isp_gang_values::computed::Computed;
use isp_gang_values::sets::{Active, nobody};
use isp_typed::Program;
use std::alloc::{AllocError, AllocFailed, Global};

/// Why a run stops before its tasks are done.
#[derive(Clone, Copy)]
pub enum Stop {
    /// Memory was refused.
    Memory,
    /// It trapped.
    Trapped(Trap),
    /// A loop would take one turn too many.
    Cut,
}

impl From<AllocError> for Stop {
    ghost use Rattle.std.specs.Prelude.{◌≡◌};
    ghost use Rattle.isp_gang_run.specs.declared.state.Stop.TheVariants.{Memory};

    ghost from_gives = { λ _ e. e ≡ Memory };

    fn from(_error: AllocError) -> Stop {
        Stop::Memory
    }
}

impl<T: Drop> From<AllocFailed<T>> for Stop {
    ghost use Rattle.std.specs.Prelude.{◌≡◌};
    ghost use Rattle.isp_gang_run.specs.declared.state.Stop.TheVariants.{Memory};

    ghost from_gives = { λ _ e. e ≡ Memory };

    fn from(_error: AllocFailed<T>) -> Stop {
        Stop::Memory
    }
}

/// Where the members of a set went by a statement that did not go on.
#[derive(Clone, Copy)]
pub struct Exits {
    pub broke: Active,
    pub continued: Active,
    pub returned: Active,
}

/// Where the members of a set went.
#[derive(Clone, Copy)]
pub struct Sets {
    pub went: Active,
    pub exits: Exits,
}

impl Exits {
    /// Nobody.
    pub fn none() -> Exits
        ensures broke { flag_of result.broke ≡ nobody }
        ensures continued { flag_of result.continued ≡ nobody }
        ensures returned { flag_of result.returned ≡ nobody }
    {
        Exits {
            broke: nobody(),
            continued: nobody(),
            returned: nobody(),
        }
    }
}

impl Sets {
    /// All of a set went on.
    pub fn all(set: &Active) -> Sets
        ensures { parts_seen result ≡ all_parts (flag_of set.now) }
    {
        Sets {
            went: *set,
            exits: Exits::none(),
        }
    }
}

/// A run: its program, the call that runs, what all calls share, what is left to do, and two registers.
#[derive(Drop)]
pub struct Evaluator<'a> {
    pub alloc: Global,
    pub program: &'a Program,
    /// How many turns a loop makes each time it is entered.
    pub turns: u64,
    /// How many more calls may run, one in the other.
    pub left: usize,
    pub here: Activation<'a>,
    pub stores: Vec<Vec<u64>>,
    pub output: Vec<u8>,
    /// How much was reached.
    pub work: Work,
    /// What the last expression gave.
    pub value: Computed,
    /// Where the last statement left its members.
    pub sets: Sets,
    /// What is left to do, the next last.
    pub tasks: Vec<Task<'a>>,
}

impl<'a> Evaluator<'a> {
    /// The gang's size.
    pub fn gang(&self) -> Gang
        ensures { result ≡ self.now.program.now.gang }
    {
        self.program.gang
    }

    /// What was found is not needed.
    pub fn forget(&mut self)
        ensures { self.new ≡ record self.old { value = Computed.One 0 } }
    {
        self.value = Computed::One(0);
    }

    /// A statement has left its members.
    pub fn leave(&mut self, sets: Sets)
        ensures { self.new ≡ record self.old { value = Computed.One 0; sets = sets } }
    {
        self.value = Computed::One(0);
        self.sets = sets;
    }

    /// One more task, to be done before the others.
    pub fn later(&mut self, task: Task<'a>) -> Result<(), Stop>
        ensures ok { OnOk result (self.new.tasks.items ≡ self.old.tasks.items ++ task.entry ∷ []) }
        ensures rest { OnOk result (self.new ≡ record self.old { tasks = self.new.tasks }) }
        ensures fewer { OnOk result (Waits self.old self.new task.entry) }
        ensures err { IfErr result (λ e. e ≡ Stop.Memory) }
    {
        self.tasks.push(task)?;
        Ok(())
    }
}

impl<'a> Evaluator<'a> {
    /// Two more tasks, of which the first is done before the second.
    pub fn both(&mut self, first: Task<'a>, second: Task<'a>) -> Result<(), Stop>
        ensures ok { OnOk result (First self.old self.new first.entry second.entry) }
        ensures rest { OnOk result (self.new ≡ record self.old { tasks = self.new.tasks }) }
        ensures fewer { OnOk result (WaitBoth self.old self.new first.entry second.entry) }
        ensures err { IfErr result (λ e. e ≡ Stop.Memory) }
    {
        self.later(second)?;
        self.later(first)?;
        Ok(())
    }
}

/// A trap, if an instance caused it.
pub fn checked(offender: Option<usize>, kind: TrapKind, place: Span) -> Result<(), Stop>
    ensures ok { OnOk result (offender ≡ None) }
    ensures err { IfErr result (λ e. (p : ℕ) × (offender ≡ Some p) × (e ≡ Stop.Trapped (trap kind place p))) }
{
    match offender {
        Some(instance) => Err(Stop::Trapped(Trap {
            kind,
            place,
            instance,
        })),
        None => Ok(()),
    }
}
