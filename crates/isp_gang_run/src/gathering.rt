//! Several values, and what is done with them once all were found.
ghost use Rattle.std.specs.Prelude.{◌≡◌, IfErr, OnOk, map};
ghost use Rattle.isp_base.specs.Sets.{flag_of};
ghost use Rattle.isp_typed.specs.Views.{exprs_of};
ghost use Rattle.isp_gang_values.specs.Seen.{payload_of};
ghost use Rattle.isp_gang_run.specs.Due.{Leaves, LeavesOf, own, values_due};
ghost use Rattle.isp_gang_run.specs.Passing.{gathers, gathers_all};
ghost use Rattle.isp_gang_run.specs.Tasks.{Comes, Does};
ghost use Rattle.isp_gang_run.specs.declared.state.Stop.TheVariants as Stop;
ghost use Rattle.isp_gang_run.specs.declared.tasks.Task.TheVariants as Task;

use crate::state::{Evaluator, Stop};
use crate::tasks::{Gathering, Task};
use isp_gang_values::computed::Computed;
use isp_gang_values::library::called;
use isp_gang_values::sets::Active;
use isp_typed::TypedExpr;

impl<'a> Evaluator<'a> {
    /// The rest of several values.
    pub fn values(
        &mut self,
        gathering: Gathering<'a>,
        rest: &'a [TypedExpr],
        done: Vec<Computed>,
        set: Active,
    ) -> Result<(), Stop>
        ensures ok { OnOk result (Comes self.old self.new (gathers self.old gathering.entry (exprs_of rest.now)
            (map payload_of done.items) (flag_of set))) }
        ensures fewer { OnOk result (Leaves self.old self.new (own self.old values_due (exprs_of rest.now))) }
        ensures err { IfErr result (λ e. e ≡ Stop.Memory) }
    {
        match rest {
            [] => self.gathered(gathering, done.as_slice(), set),
            [next, rest @ ..] => {
                let after = Task::Values {
                    gathering,
                    rest,
                    done,
                    set,
                };
                self.both(Task::Value(next, set), after)?;
                Ok(())
            }
        }
    }

    /// One of several values was found.
    pub fn one_more(
        &mut self,
        gathering: Gathering<'a>,
        rest: &'a [TypedExpr],
        mut done: Vec<Computed>,
        set: Active,
    ) -> Result<(), Stop>
        ensures ok { OnOk result (Does self.old self.new (Task.Values gathering.entry rest.entry done set)) }
        ensures fewer { OnOk result (LeavesOf self.old self.new (Task.Values gathering.entry rest.entry done set)) }
        ensures err { IfErr result (λ e. e ≡ Stop.Memory) }
    {
        done.push(self.value)?;
        self.values(gathering, rest, done, set)
    }

    // All values were found.
    fn gathered(
        &mut self,
        gathering: Gathering<'a>,
        values: &[Computed],
        set: Active,
    ) -> Result<(), Stop>
        ensures ok { OnOk result (Comes self.old self.new (gathers_all self.old gathering.entry (flag_of set) (map payload_of values.now))) }
        ensures fewer { OnOk result (Leaves self.old self.new 0) }
        ensures err { IfErr result (λ e. e ≡ Stop.Memory) }
    {
        match gathering {
            Gathering::Library(function, elem) => {
                self.value = called(self.gang(), function, elem, &set, values);
                Ok(())
            }
            Gathering::Print {
                text,
                values: shown,
            } => self.print(text, shown, values, set),
        }
    }
}
