//! `foreach_unique`: a turn for each distinct value, in the order of the lowest instance that holds it.
ghost use Rattle.std.specs.Prelude.{◌≡◌, IfErr, OnOk};
ghost use Rattle.isp_base.specs.Sets.{flag_of};
ghost use Rattle.isp_typed.specs.Views.{expr_of};
ghost use Rattle.isp_gang_run.specs.Due.{Leaves, LeavesOf, each_due, own, value_due};
ghost use Rattle.isp_gang_run.specs.Most.{two};
ghost use Rattle.isp_gang_run.specs.Foreach.{uniques};
ghost use Rattle.isp_gang_run.specs.Tasks.{Comes, does};
ghost use Rattle.isp_gang_run.specs.declared.state.Stop.TheVariants as Stop;
ghost use Rattle.isp_gang_run.specs.declared.tasks.Task.TheVariants as Task;

use crate::state::{Evaluator, Sets, Stop};
use crate::tasks::Task;
use isp_base::{Elem, Rate, convert};
use isp_gang_values::computed::Computed;
use isp_gang_values::row::{Row, except, or_zero, where_same, who_have};
use isp_gang_values::sets::{Active, lowest};
use isp_typed::{TypedExpr, TypedStmt};

/// A `foreach_unique` over a set. Its value is of the type `from`, its index of the type `to`.
#[derive(Clone, Copy)]
pub struct Unique<'a> {
    pub index: usize,
    pub from: Elem,
    pub to: Elem,
    pub body: &'a TypedStmt,
    pub set: Active,
}

/// The values whose turn is still to come.
#[derive(Clone, Copy)]
pub struct Distinct<'a> {
    pub unique: Unique<'a>,
    pub row: Row,
}

impl<'a> Evaluator<'a> {
    /// A `foreach_unique`: its value comes first.
    pub fn foreach_unique(
        &mut self,
        index: usize,
        elem: Elem,
        value: &'a TypedExpr,
        body: &'a TypedStmt,
        set: Active,
    ) -> Result<(), Stop>
        ensures ok { OnOk result (Comes self.old self.new (uniques self.old index elem (expr_of value.now) body.entry (flag_of set))) }
        ensures fewer { OnOk result (Leaves self.old self.new (two (own self.old value_due (expr_of value.now)) (own self.old each_due body.entry))) }
        ensures err { IfErr result (λ e. e ≡ Stop.Memory) }
    {
        self.work.tick();
        let unique = Unique {
            index,
            from: value.ty().elem,
            to: elem,
            body,
            set,
        };
        let after = Box::new(self.alloc, unique)?;
        self.both(Task::Value(value, set), Task::Unique(after))?;
        Ok(())
    }

    /// The value was found.
    pub fn unique(&mut self, unique: Box<Unique<'a>>) -> Result<(), Stop>
        ensures ok { OnOk result (Comes self.old self.new (does self.old (Task.Unique unique.entry))) }
        ensures fewer { OnOk result (LeavesOf self.old self.new (Task.Unique unique.entry)) }
        ensures err { IfErr result (λ e. e ≡ Stop.Memory) }
    {
        let unique = *unique;
        let row = self.value.spread(&unique.set);
        let distinct = Box::new(self.alloc, Distinct { unique, row })?;
        self.distinct(distinct)?;
        Ok(())
    }

    /// The next value's turn, if there is one; afterwards all that came go on.
    pub fn distinct(&mut self, distinct: Box<Distinct<'a>>) -> Result<(), Stop>
        ensures ok { OnOk result (Comes self.old self.new (does self.old (Task.Distinct distinct.entry))) }
        ensures fewer { OnOk result (LeavesOf self.old self.new (Task.Distinct distinct.entry)) }
        ensures err { IfErr result (λ e. e ≡ Stop.Memory) }
    {
        let Distinct { unique, row } = *distinct;
        match lowest(self.gang(), &who_have(&row)) {
            None => {
                self.leave(Sets::all(&unique.set));
                Ok(())
            }
            Some(instance) => {
                self.work.tick();
                let bits = or_zero(row[instance]);
                let same = where_same(unique.from, bits, &row);
                let number = Computed::One(convert(unique.from, unique.to, bits));
                self.write(unique.index, Rate::Uniform, &same, &number)?;
                let rest = except(&row, &same);
                let others = Box::new(self.alloc, Distinct { unique, row: rest })?;
                self.both(Task::Run(unique.body, same), Task::Distinct(others))?;
                Ok(())
            }
        }
    }
}
