//! Calls: what they begin with and what they leave.
ghost use Rattle.std.specs.Prelude.{◌≡◌, ◌<◌, ◌-◌, IfErr, OnOk, map, option_map, slice_get};
ghost use Rattle.isp_base.specs.Cross.{or_zero};
ghost use Rattle.isp_base.specs.Sets.{flag_of, lowest};
ghost use Rattle.isp_base.specs.Types.{gang_width};
ghost use Rattle.isp_typed.specs.Views.{function_of, program_of};
ghost use Rattle.isp_gang_run.specs.Due.{Leaves, LeavesOf, body_due, call_due, own};
ghost use Rattle.isp_gang_run.specs.Passing.{does_call, goes_in};
ghost use Rattle.isp_gang_run.specs.Seen.{passed_seen};
ghost use Rattle.isp_gang_run.specs.Tasks.{Comes, Does, Halts, does};
ghost use Rattle.isp_gang_run.specs.declared.state.Stop.TheVariants as Stop;
ghost use Rattle.isp_gang_run.specs.declared.tasks.Task.TheVariants as Task;

use crate::activation::Activation;
use crate::state::{Evaluator, Sets, Stop};
use crate::tasks::{Passed, Task};
use isp_base::{Gang, Span, Trap, TrapKind};
use isp_gang_values::sets::{Active, lowest};
use isp_typed::{TypedArgument, TypedCall, TypedFunction};
use std::mem;

impl<'a> Evaluator<'a> {
    /// A call: its arguments come first.
    pub fn call(&mut self, call: &'a TypedCall, set: Active) -> Result<(), Stop>
        ensures ok { OnOk result (Does self.old self.new (Task.Call call.entry set)) }
        ensures fewer { OnOk result (LeavesOf self.old self.new (Task.Call call.entry set)) }
        ensures err { IfErr result (λ e. e ≡ Stop.Memory) }
    {
        self.work.tick();
        let after = Task::Arguments {
            call,
            rest: call.arguments.as_slice(),
            done: Vec::new(self.alloc),
            set,
        };
        self.later(after)?;
        Ok(())
    }

    /// The arguments that are left, then the call.
    #[tactic(auto, using(crate::proofs::Leaves::memory_halts))]
    pub fn arguments(
        &mut self,
        call: &'a TypedCall,
        rest: &'a [TypedArgument],
        mut done: Vec<Passed>,
        set: Active,
    ) -> Result<(), Stop>
        ensures ok { OnOk result (Does self.old self.new (Task.Arguments call.entry rest.entry done set)) }
        ensures fewer { OnOk result (LeavesOf self.old self.new (Task.Arguments call.entry rest.entry done set)) }
        ensures err { IfErr result (Halts self.old self.new (does self.old (Task.Arguments call.entry rest.entry done set))) }
    {
        match rest {
            [] => self.enter(call.function, call.span, done.as_slice(), set),
            [next, rest @ ..] => match next {
                TypedArgument::Value(x) => {
                    let after = Task::Argument {
                        call,
                        rest,
                        done,
                        set,
                    };
                    self.both(Task::Value(x, set), after)?;
                    Ok(())
                }
                TypedArgument::Array { array, .. } => {
                    self.work.tick();
                    done.push(Passed::Store(self.here.store(array.number)))?;
                    let after = Task::Arguments {
                        call,
                        rest,
                        done,
                        set,
                    };
                    self.later(after)?;
                    Ok(())
                }
            },
        }
    }

    /// An argument was found.
    pub fn argument(
        &mut self,
        call: &'a TypedCall,
        rest: &'a [TypedArgument],
        mut done: Vec<Passed>,
        set: Active,
    ) -> Result<(), Stop>
        ensures ok { OnOk result (Does self.old self.new (Task.Argument call.entry rest.entry done set)) }
        ensures fewer { OnOk result (LeavesOf self.old self.new (Task.Argument call.entry rest.entry done set)) }
        ensures err { IfErr result (λ e. e ≡ Stop.Memory) }
    {
        done.push(Passed::Value(self.value))?;
        let after = Task::Arguments {
            call,
            rest,
            done,
            set,
        };
        self.later(after)?;
        Ok(())
    }

    // A function runs, by its number; with no call left it traps at its place.
    #[tactic(auto, using(crate::proofs::Leaves::memory_halts))]
    fn enter(
        &mut self,
        function: usize,
        place: Span,
        passed: &[Passed],
        set: Active,
    ) -> Result<(), Stop>
        ensures ok { OnOk result (Comes self.old self.new (goes_in self.old function place (flag_of set) (map passed_seen passed.now))) }
        ensures fewer { OnOk result (Leaves self.old self.new (own self.old call_due function)) }
        ensures err { IfErr result (Halts self.old self.new (goes_in self.old function place (flag_of set) (map passed_seen passed.now))) }
    {
        if self.left == 0 {
            return Err(Stop::Trapped(Trap {
                kind: TrapKind::Depth,
                place,
                instance: first(self.gang(), &set),
            }));
        }
        match function_at(self.program.functions.as_slice(), function) {
            Some(function) => {
                self.begin(function, passed, set)?;
                Ok(())
            }
            None => Err(Stop::Cut),
        }
    }

    /// The body of a function, with what is passed; the caller goes on afterwards.
    pub fn begin(
        &mut self,
        function: &'a TypedFunction,
        passed: &[Passed],
        set: Active,
    ) -> Result<(), Stop>
        requires { 0 < self.old.left }
        ensures ok { OnOk result (Comes self.old self.new (does_call self.old (self.old.left - 1) (function_of function.now) (flag_of set)
            (map passed_seen passed.now))) }
        ensures fewer { OnOk result (Leaves self.old self.new (body_due (program_of self.old.program.now) self.old.turns (self.old.left - 1) (function_of function.now))) }
        ensures err { IfErr result (λ e. e ≡ Stop.Memory) }
    {
        let begun = Activation::begun(self.alloc, function, passed, &self.here, &set)?;
        self.stores.truncate(self.here.sizes.len());
        let caller = mem::replace(&mut self.here, begun);
        let left = self.left;
        self.left -= 1;
        let after = Task::Return {
            caller: Box::new(self.alloc, caller)?,
            left,
            sets: self.sets,
            set,
        };
        self.later(after)?;
        self.block(&function.body, set)?;
        Ok(())
    }

    /// The caller goes on, with its level and its registers.
    pub fn resume(&mut self, caller: Box<Activation<'a>>, left: usize, sets: Sets, set: Active)
        ensures comes { Does self.old self.new (Task.Return caller.entry left sets set) }
        ensures fewer { LeavesOf self.old self.new (Task.Return caller.entry left sets set) }
    {
        self.value = self.here.answered(&set);
        self.sets = sets;
        self.here = Box::into_inner(caller);
        self.stores.truncate(self.here.sizes.len());
        self.left = left;
    }
}

// The lowest member of a set, 0 where there is none.
fn first(gang: Gang, set: &Active) -> usize
    ensures { result ≡ or_zero (lowest (gang_width gang) (flag_of set.now)) }
{
    match lowest(gang, set) {
        Some(instance) => instance,
        None => 0,
    }
}

// A function by its number.
fn function_at(functions: &[TypedFunction], function: usize) -> Option<&TypedFunction>
    ensures { slice_get functions.now function ≡ option_map (λ f. f.now) result }
{
    functions.get(function)
}
