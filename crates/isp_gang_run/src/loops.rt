//! Loops whose body runs while a test keeps some.
ghost use Rattle.std.specs.Prelude.{◌≡◌, ◌+◌, IfErr, OnOk, None, Some};
ghost use Rattle.isp_base.specs.Sets.{flag_of, nobody};
ghost use Rattle.isp_gang_run.specs.Arms.{enters, enters_by_turn, firsts, looping};
ghost use Rattle.isp_gang_run.specs.Due.{Leaves, first_due, own, step_due, test_due, turns_due};
ghost use Rattle.isp_gang_run.specs.Most.{one};
ghost use Rattle.isp_gang_run.specs.Tasks.{Comes, Halts, ends_on, keeps_on, steps_on, tests_on, turned_on, turns_on};
ghost use Rattle.isp_gang_run.specs.declared.state.Stop.TheVariants as Stop;

use crate::state::{Evaluator, Exits, Sets, Stop};
use crate::tasks::Task;
use isp_gang_values::computed::Computed;
use isp_gang_values::sets::{Active, any, nobody, union, without};
use isp_typed::{TypedExpr, TypedFirst, TypedSimple, TypedStmt};

/// The parts of a loop. A test that is left out is true.
#[derive(Clone, Copy)]
pub struct Looping<'a> {
    pub test: Option<&'a TypedExpr>,
    pub step: Option<&'a TypedSimple>,
    pub body: &'a TypedStmt,
}

/// A loop that was entered by a set: the live instances, those that returned, and the turns left.
#[derive(Clone, Copy)]
pub struct Turning<'a> {
    pub looping: Looping<'a>,
    pub all: Active,
    pub live: Active,
    pub returned: Active,
    pub left: u64,
}

impl<'a> Turning<'a> {
    /// A loop that a set enters.
    pub fn new(looping: Looping<'a>, set: &Active, turns: u64) -> Turning<'a>
        ensures entered { result ≡ record result { looping = looping.entry; all = set.now; live = set.now; left = turns } }
        ensures returned { flag_of result.returned ≡ nobody }
    {
        Turning {
            looping,
            all: *set,
            live: *set,
            returned: nobody(),
            left: turns,
        }
    }
}

impl<'a> Evaluator<'a> {
    /// A `while`: its test comes first.
    #[tactic(auto, using(crate::proofs::Arms::enters_tests, crate::proofs::Arms::enters_tests_halts))]
    pub fn enter_while(
        &mut self,
        test: &'a TypedExpr,
        body: &'a TypedStmt,
        set: Active,
    ) -> Result<(), Stop>
        ensures ok { OnOk result (Comes self.old self.new (enters self.old None (Some test.entry) None body.entry (flag_of set))) }
        ensures fewer { OnOk result (Leaves self.old self.new (own self.old test_due (looping (Some test.entry) None body.entry) self.old.turns)) }
        ensures err { IfErr result (Halts self.old self.new (enters self.old None (Some test.entry) None body.entry (flag_of set))) }
    {
        self.work.tick();
        let looping = Looping {
            test: Some(test),
            step: None,
            body,
        };
        let turning = Turning::new(looping, &set, self.turns);
        self.test(turning)?;
        Ok(())
    }

    /// A `do`: a turn comes first.
    #[tactic(auto, using(crate::proofs::Arms::enters_turns, crate::proofs::Arms::enters_turns_halts))]
    pub fn enter_do(
        &mut self,
        test: &'a TypedExpr,
        body: &'a TypedStmt,
        set: Active,
    ) -> Result<(), Stop>
        ensures ok { OnOk result (Comes self.old self.new (enters_by_turn self.old (Some test.entry) body.entry (flag_of set))) }
        ensures fewer { OnOk result (Leaves self.old self.new (own self.old turns_due (looping (Some test.entry) None body.entry) self.old.turns)) }
        ensures err { IfErr result (Halts self.old self.new (enters_by_turn self.old (Some test.entry) body.entry (flag_of set))) }
    {
        self.work.tick();
        let looping = Looping {
            test: Some(test),
            step: None,
            body,
        };
        let turning = Turning::new(looping, &set, self.turns);
        self.turn(turning)?;
        Ok(())
    }

    /// A `for`: its first part comes first, then its test.
    #[tactic(auto, using(crate::proofs::Arms::enters_first))]
    pub fn enter_for(
        &mut self,
        first: Option<&'a TypedFirst>,
        test: Option<&'a TypedExpr>,
        step: Option<&'a TypedSimple>,
        body: &'a TypedStmt,
        set: Active,
    ) -> Result<(), Stop>
        ensures ok { OnOk result (Comes self.old self.new (enters self.old first.entry test.entry step.entry body.entry (flag_of set))) }
        ensures fewer { OnOk result (Leaves self.old self.new (own self.old first_due first.entry + one (own self.old test_due (looping test.entry step.entry body.entry) self.old.turns))) }
        ensures err { IfErr result (λ e. e ≡ Stop.Memory) }
    {
        self.work.tick();
        let looping = Looping { test, step, body };
        let turning = Turning::new(looping, &set, self.turns);
        let after = Box::new(self.alloc, turning)?;
        self.later(Task::Test(after))?;
        self.first(first, set)?;
        Ok(())
    }

    // The first part of a `for`, if there is one.
    #[tactic(auto, using(crate::proofs::Arms::no_first))]
    fn first(&mut self, first: Option<&'a TypedFirst>, set: Active) -> Result<(), Stop>
        ensures ok { OnOk result (Comes self.old self.new (firsts self.old first.entry (flag_of set))) }
        ensures fewer { OnOk result (Leaves self.old self.new (own self.old first_due first.entry)) }
        ensures err { IfErr result (λ e. e ≡ Stop.Memory) }
    {
        match first {
            None => {
                self.forget();
                Ok(())
            }
            Some(first) => {
                self.some_first(first, set)?;
                Ok(())
            }
        }
    }

    // The first part of a `for`.
    fn some_first(&mut self, first: &'a TypedFirst, set: Active) -> Result<(), Stop>
        ensures ok { OnOk result (Comes self.old self.new (firsts self.old (Some first.entry) (flag_of set))) }
        ensures fewer { OnOk result (Leaves self.old self.new (own self.old first_due (Some first.entry))) }
        ensures err { IfErr result (λ e. e ≡ Stop.Memory) }
    {
        match first {
            TypedFirst::Declare { items, .. } => {
                self.work.tick();
                self.later(Task::Items(items.as_slice(), set))?;
                Ok(())
            }
            TypedFirst::Simple(simple) => {
                self.later(Task::Simple(simple, set))?;
                Ok(())
            }
        }
    }
}

impl<'a> Evaluator<'a> {
    /// The live instances take the test.
    #[tactic(auto, using(crate::proofs::Turns::test_goes, crate::proofs::Turns::no_test, crate::proofs::Turns::no_test_halts))]
    pub fn test(&mut self, turning: Turning<'a>) -> Result<(), Stop>
        ensures ok { OnOk result (Comes self.old self.new (tests_on self.old turning.entry)) }
        ensures fewer { OnOk result (Leaves self.old self.new (own self.old test_due turning.entry.looping turning.entry.left)) }
        ensures err { IfErr result (Halts self.old self.new (tests_on self.old turning.entry)) }
    {
        match turning.looping.test {
            Some(test) => {
                let after = Box::new(self.alloc, turning)?;
                self.both(Task::Value(test, turning.live), Task::Tested(after))?;
                Ok(())
            }
            None => {
                self.value = Computed::One(1);
                self.tested(turning)?;
                Ok(())
            }
        }
    }

    /// Those that the test keeps go on with a turn, if there are any.
    #[tactic(auto, using(crate::proofs::Turns::turns_again, crate::proofs::Turns::turns_halt, crate::proofs::Turns::nobody_kept))]
    pub fn tested(&mut self, turning: Turning<'a>) -> Result<(), Stop>
        ensures ok { OnOk result (Comes self.old self.new (keeps_on self.old turning.entry)) }
        ensures fewer { OnOk result (Leaves self.old self.new (own self.old turns_due turning.entry.looping turning.entry.left)) }
        ensures err { IfErr result (Halts self.old self.new (keeps_on self.old turning.entry)) }
    {
        let kept = self.value.members(true, &turning.live);
        if any(self.gang(), &kept) {
            let Turning {
                looping,
                all,
                returned,
                left,
                ..
            } = turning;
            let turning = Turning {
                looping,
                all,
                live: kept,
                returned,
                left,
            };
            self.turn(turning)?;
            Ok(())
        } else {
            self.loop_end(&turning);
            Ok(())
        }
    }

    /// A turn of the live instances; with no turn left the run is cut.
    #[tactic(auto, using(crate::proofs::Turns::turn_goes, crate::proofs::Turns::no_turn))]
    pub fn turn(&mut self, turning: Turning<'a>) -> Result<(), Stop>
        ensures ok { OnOk result (Comes self.old self.new (turns_on self.old turning.entry)) }
        ensures fewer { OnOk result (Leaves self.old self.new (own self.old turns_due turning.entry.looping turning.entry.left)) }
        ensures err { IfErr result (Halts self.old self.new (turns_on self.old turning.entry)) }
    {
        let Turning {
            looping,
            all,
            live,
            returned,
            left,
        } = turning;
        if left == 0 {
            return Err(Stop::Cut);
        }
        self.work.tick();
        let after = Turning {
            looping,
            all,
            live,
            returned,
            left: left - 1,
        };
        let after = Box::new(self.alloc, after)?;
        self.both(Task::Run(looping.body, live), Task::Turned(after))?;
        Ok(())
    }

    /// The body was run: those that went on or continued make the step and take the test, if there are any.
    #[tactic(auto, using(crate::proofs::Turns::steps_again, crate::proofs::Turns::no_more))]
    pub fn turned(&mut self, turning: Turning<'a>) -> Result<(), Stop>
        ensures ok { OnOk result (Comes self.old self.new (turned_on self.old turning.entry)) }
        ensures fewer { OnOk result (Leaves self.old self.new (own self.old step_due turning.entry.looping turning.entry.left)) }
        ensures err { IfErr result (λ e. e ≡ Stop.Memory) }
    {
        let live = union(&self.sets.went, &self.sets.exits.continued);
        let returned = union(&turning.returned, &self.sets.exits.returned);
        let Turning {
            looping,
            all,
            left,
            ..
        } = turning;
        let turning = Turning {
            looping,
            all,
            live,
            returned,
            left,
        };
        if any(self.gang(), &live) {
            self.step(turning)?;
            Ok(())
        } else {
            self.loop_end(&turning);
            Ok(())
        }
    }

    // The live instances make the step, then take the test.
    #[tactic(auto, using(crate::proofs::Turns::step_goes, crate::proofs::Turns::no_step, crate::proofs::Branching::pushes))]
    fn step(&mut self, turning: Turning<'a>) -> Result<(), Stop>
        ensures ok { OnOk result (Comes self.old self.new (steps_on self.old turning.entry)) }
        ensures fewer { OnOk result (Leaves self.old self.new (own self.old step_due turning.entry.looping turning.entry.left)) }
        ensures err { IfErr result (λ e. e ≡ Stop.Memory) }
    {
        let after = Box::new(self.alloc, turning)?;
        match turning.looping.step {
            Some(step) => {
                self.both(Task::Simple(step, turning.live), Task::Test(after))?;
                Ok(())
            }
            None => {
                self.later(Task::Test(after))?;
                Ok(())
            }
        }
    }

    // Those that did not return went on.
    #[tactic(auto, using(crate::proofs::Turns::loop_ends))]
    fn loop_end(&mut self, turning: &Turning<'a>)
        ensures comes { Comes self.old self.new (ends_on self.old turning.now) }
        ensures fewer { Leaves self.old self.new 0 }
    {
        let went = without(&turning.all, &turning.returned);
        let Exits {
            broke,
            continued,
            ..
        } = Exits::none();
        let returned = turning.returned;
        let exits = Exits {
            broke,
            continued,
            returned,
        };
        self.leave(Sets { went, exits });
    }
}
