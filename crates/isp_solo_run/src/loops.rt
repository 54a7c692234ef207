//! Loops whose body runs while a test is true.
ghost use Rattle.std.specs.Prelude.{◌≡◌, Some, option_map};
ghost use Rattle.isp_typed.specs.Views.{first_of};
ghost use Rattle.isp_solo_run.specs.Tasks.{Firsts, KeepsOn, StepsOn, Tests, TurnedOn, Turns};

use crate::state::{How, Single, Stop};
use crate::tasks::Task;
use isp_typed::{TypedExpr, TypedFirst, TypedSimple, TypedStmt};

/// The parts of a loop, and the turns left. A test that is left out is true.
#[derive(Clone, Copy)]
pub struct Turning<'a> {
    pub test: Option<&'a TypedExpr>,
    pub step: Option<&'a TypedSimple>,
    pub body: &'a TypedStmt,
    pub left: u64,
}

impl<'a> Turning<'a> {
    /// A loop that is entered.
    pub fn new(
        test: Option<&'a TypedExpr>,
        step: Option<&'a TypedSimple>,
        body: &'a TypedStmt,
        left: u64,
    ) -> Turning<'a>
        ensures { result ≡ record { test = test.entry; step = step.entry; body = body.entry; left = left } }
    {
        Turning {
            test,
            step,
            body,
            left,
        }
    }
}

impl<'a> Single<'a> {
    /// The first part of a `for`, if there is one, and then the test.
    pub fn first(&mut self, first: Option<&'a TypedFirst>, turning: Turning<'a>) -> Result<(), Stop>
        ensures { Firsts result self.old self.new (option_map (λ x. first_of x.now) first.entry) turning.entry }
    {
        match Box::new(self.alloc, turning) {
            Ok(after) => match first {
                None => self.later(Task::Test(after)),
                Some(first) => self.some_first(first, after),
            },
            Err(_) => Err(Stop::Memory),
        }
    }

    // The first part, and then the test.
    fn some_first(&mut self, first: &'a TypedFirst, after: Box<Turning<'a>>) -> Result<(), Stop>
        ensures { Firsts result self.old self.new (Some (first_of first.now)) after.entry.value }
    {
        match first {
            TypedFirst::Declare { items, .. } => {
                self.both(Task::Items(items.as_slice()), Task::Test(after))
            }
            TypedFirst::Simple(simple) => self.both(Task::Simple(simple), Task::Test(after)),
        }
    }

    /// The test, and what it decides; a test that is left out is true.
    pub fn test(&mut self, turning: Turning<'a>) -> Result<(), Stop>
        ensures { Tests result self.old self.new turning.entry }
    {
        match turning.test {
            Some(test) => match Box::new(self.alloc, turning) {
                Ok(after) => self.both(Task::Value(test), Task::Tested(after)),
                Err(_) => Err(Stop::Memory),
            },
            None => self.turn(turning),
        }
    }

    /// A turn where the test is true, else the loop ends.
    pub fn tested(&mut self, turning: Turning<'a>) -> Result<(), Stop>
        ensures { KeepsOn result self.old self.new turning.entry }
    {
        if self.value != 0 {
            self.turn(turning)
        } else {
            self.leave(How::Going)
        }
    }

    /// A turn; with no turn left the run is cut.
    pub fn turn(&mut self, turning: Turning<'a>) -> Result<(), Stop>
        ensures { Turns result self.old self.new turning.entry }
    {
        let Turning {
            test,
            step,
            body,
            left,
        } = turning;
        if left == 0 {
            return Err(Stop::Cut);
        }
        let after = Turning::new(test, step, body, left - 1);
        match Box::new(self.alloc, after) {
            Ok(after) => self.both(Task::Run(body), Task::Turned(after)),
            Err(_) => Err(Stop::Memory),
        }
    }

    /// The body was run: `break` ends the loop alone, `return` the function; else come the step and the test.
    pub fn turned(&mut self, turning: Turning<'a>) -> Result<(), Stop>
        ensures { TurnedOn result self.old self.new turning.entry }
    {
        match self.how {
            How::Going => self.step(turning),
            How::Continued => self.step(turning),
            How::Broke => self.leave(How::Going),
            How::Returned => self.leave(How::Returned),
        }
    }

    // The step, and then the test.
    fn step(&mut self, turning: Turning<'a>) -> Result<(), Stop>
        ensures { StepsOn result self.old self.new turning.entry }
    {
        match Box::new(self.alloc, turning) {
            Ok(after) => match turning.step {
                Some(step) => self.both(Task::Simple(step), Task::Test(after)),
                None => self.later(Task::Test(after)),
            },
            Err(_) => Err(Stop::Memory),
        }
    }
}
