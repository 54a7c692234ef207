//! Calls: what they begin with and what they leave.
ghost use Rattle.std.specs.Prelude.{◌≡◌, ◌<◌, ◌-◌, map, option_map, slice_get};
ghost use Rattle.isp_typed.specs.Views.{arguments_of, call_of, function_of};
ghost use Rattle.isp_solo_run.specs.Seen.{passed_seen};
ghost use Rattle.isp_solo_run.specs.Tasks.{Calls, CallsAndGoes, DoesCall, DoesTask, Enters, Hands};
ghost use Rattle.isp_solo_run.specs.declared.tasks.Task.TheVariants as Task;

use crate::activation::Activation;
use crate::state::{How, Single, Stop};
use crate::tasks::{Passed, Task};
use isp_base::{Span, TrapKind};
use isp_typed::{TypedArgument, TypedCall, TypedFunction};
use std::mem;

impl<'a> Single<'a> {
    /// A call: its arguments come first.
    pub fn call(&mut self, call: &'a TypedCall) -> Result<(), Stop>
        ensures { Calls result self.old self.new (call_of call.now) }
    {
        let after = Task::Arguments {
            call,
            rest: call.arguments.as_slice(),
            done: Vec::new(self.alloc),
        };
        self.later(after)
    }

    /// A call whose result is not needed.
    pub fn call_and_go(&mut self, call: &'a TypedCall) -> Result<(), Stop>
        ensures { CallsAndGoes result self.old self.new (call_of call.now) }
    {
        let first = Task::Arguments {
            call,
            rest: call.arguments.as_slice(),
            done: Vec::new(self.alloc),
        };
        self.both(first, Task::Go)
    }

    /// The arguments that are left, then the call.
    pub fn arguments(
        &mut self,
        call: &'a TypedCall,
        rest: &'a [TypedArgument],
        mut done: Vec<Passed>,
    ) -> Result<(), Stop>
        ensures { Hands result self.old self.new (call_of call.now) (arguments_of rest.now) (map passed_seen done.items) }
    {
        match rest {
            [] => self.enter(call.function, call.span, done.as_slice()),
            [next, rest @ ..] => match next {
                TypedArgument::Value(x) => {
                    self.both(Task::Value(x), Task::Argument { call, rest, done })
                }
                TypedArgument::Array { array, .. } => {
                    match done.push(Passed::Store(self.here.store(array.number))) {
                        Ok(()) => self.later(Task::Arguments { call, rest, done }),
                        Err(_) => Err(Stop::Memory),
                    }
                }
            },
        }
    }

    /// An argument was found.
    pub fn argument(
        &mut self,
        call: &'a TypedCall,
        rest: &'a [TypedArgument],
        mut done: Vec<Passed>,
    ) -> Result<(), Stop>
        ensures { DoesTask result self.old self.new (Task.Argument call.entry rest.entry done) }
    {
        match done.push(Passed::Value(self.value)) {
            Ok(()) => self.arguments(call, rest, done),
            Err(_) => Err(Stop::Memory),
        }
    }

    /// A function runs, by its number; with no call left it traps at its place.
    pub fn enter(&mut self, function: usize, place: Span, passed: &[Passed]) -> Result<(), Stop>
        ensures { Enters result self.old self.new function place (map passed_seen passed.now) }
    {
        if self.left == 0 {
            return Err(self.trap(TrapKind::Depth, place));
        }
        match function_at(self.setting.program.functions.as_slice(), function) {
            Some(function) => self.begin(function, passed),
            None => Err(Stop::Cut),
        }
    }

    /// The body of a function, with what is passed; the caller goes on afterwards.
    pub fn begin(&mut self, function: &'a TypedFunction, passed: &[Passed]) -> Result<(), Stop>
        requires { 0 < self.old.left }
        ensures { DoesCall result self.old self.new (self.old.left - 1) (function_of function.now) (map passed_seen passed.now) }
    {
        let Ok(begun) = Activation::begun(self.alloc, function, passed, &self.here) else {
            return Err(Stop::Memory);
        };
        let caller = mem::replace(&mut self.here, begun);
        let left = self.left;
        self.left -= 1;
        let Ok(caller) = Box::new(self.alloc, caller) else {
            return Err(Stop::Memory);
        };
        match self.push(Task::Return { caller, left }) {
            Ok(()) => self.block(&function.body),
            Err(_) => Err(Stop::Memory),
        }
    }

    /// The caller goes on, with its level and its variables.
    pub fn resume(&mut self, caller: Box<Activation<'a>>, left: usize) -> Result<(), Stop>
        ensures { DoesTask result self.old self.new (Task.Return caller.entry left) }
    {
        self.value = self.here.result;
        self.how = How::Going;
        self.here = Box::into_inner(caller);
        self.left = left;
        Ok(())
    }
}

// A function by its number.
fn function_at(functions: &[TypedFunction], function: usize) -> Option<&TypedFunction>
    ensures { slice_get functions.now function ≡ option_map (λ f. f.now) result }
{
    functions.get(function)
}
