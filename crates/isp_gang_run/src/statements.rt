//! What statements do.
ghost use Rattle.std.specs.Prelude.{◌≡◌, ◌+◌, IfErr, OnOk};
ghost use Rattle.isp_base.specs.Sets.{flag_of, nobody, union};
ghost use Rattle.isp_typed.specs.Views.{block_of, expr_of, exprs_of, items_of, simple_of, stmts_of};
ghost use Rattle.isp_meaning.specs.Statements.{answered, jumped};
ghost use Rattle.isp_gang_values.specs.Seen.{payload_of};
ghost use Rattle.isp_gang_run.specs.Due.{Leaves, LeavesAt, LeavesOf, WaitBoth, all_due, block_due, branch_due, give_due, left_after, own, perhaps_due, task_due, value_due, values_due};
ghost use Rattle.isp_gang_run.specs.Most.{one, two};
ghost use Rattle.isp_gang_run.specs.Seen.{frame_seen};
ghost use Rattle.isp_gang_run.specs.Arms.{all_does, chooses, claims, declares_all, gives, jumps, prints_all, unmasks};
ghost use Rattle.isp_gang_run.specs.Tasks.{Changes, Comes, Halts, blocks, does, left_as, parts_seen, runs, runs_all, runs_then};
ghost use Rattle.isp_gang_run.specs.declared.state.Stop.TheVariants as Stop;
ghost use Rattle.isp_gang_run.specs.declared.tasks.Task.TheVariants as Task;

use crate::state::{Evaluator, Exits, Sets, Stop, checked};
use crate::tasks::{Branches, Gathering, Statements, Task};
use isp_base::{Rate, Span, TrapKind};
use isp_gang_values::computed::{Computed, lowest_false};
use isp_gang_values::row::{over, where_is};
use isp_gang_values::sets::{Active, any, everyone, nobody, union, without};
use isp_tree::Jump;
use isp_typed::{TypedBlock, TypedExpr, TypedItem, TypedSimple, TypedStmt};

impl Exits {
    /// Those of either.
    pub fn or(&self, other: &Exits) -> Exits
        ensures broke { flag_of result.broke ≡ union (flag_of self.now.broke) (flag_of other.now.broke) }
        ensures continued { flag_of result.continued ≡ union (flag_of self.now.continued) (flag_of other.now.continued) }
        ensures returned { flag_of result.returned ≡ union (flag_of self.now.returned) (flag_of other.now.returned) }
    {
        Exits {
            broke: union(&self.broke, &other.broke),
            continued: union(&self.continued, &other.continued),
            returned: union(&self.returned, &other.returned),
        }
    }
}

impl<'a> Evaluator<'a> {
    /// A statement over a set.
    pub fn run(&mut self, statement: &'a TypedStmt, set: Active) -> Result<(), Stop>
        ensures ok { OnOk result (Comes self.old self.new (does self.old (Task.Run statement.entry set))) }
        ensures fewer { OnOk result (LeavesOf self.old self.new (Task.Run statement.entry set)) }
        ensures err { IfErr result (Halts self.old self.new (does self.old (Task.Run statement.entry set))) }
    {
        match statement {
            TypedStmt::Block(block) => self.block(block, set),
            TypedStmt::Declare { items, .. } => self.declare(items.as_slice(), set),
            TypedStmt::Simple { simple, .. } => self.all_do(simple, set),
            TypedStmt::If { test, then, .. } => self.choice(test, then, None, set),
            TypedStmt::IfElse {
                test,
                then,
                otherwise,
                ..
            } => self.choice(test, then, Some(otherwise), set),
            TypedStmt::While { test, body, .. } => self.enter_while(test, body, set),
            TypedStmt::Do { body, test, .. } => self.enter_do(test, body, set),
            TypedStmt::For {
                first,
                test,
                step,
                body,
                ..
            } => self.enter_for(first.as_ref(), test.as_ref(), step.as_ref(), body, set),
            TypedStmt::Foreach { ranges, body, .. } => self.foreach(ranges.as_slice(), body, set),
            TypedStmt::ForeachActive { index, body, .. } => self.foreach_active(*index, body, set),
            TypedStmt::ForeachUnique {
                index,
                elem,
                value,
                body,
                ..
            } => self.foreach_unique(*index, *elem, value, body, set),
            TypedStmt::Unmasked { body, .. } => self.unmask(body, set),
            TypedStmt::Jump { jump, .. } => {
                self.jump(*jump, &set);
                Ok(())
            }
            TypedStmt::Return { value, .. } => self.give(value.as_ref(), set),
            TypedStmt::Print { text, values, .. } => {
                self.print_all(text.as_slice(), values.as_slice(), set)
            }
            TypedStmt::Assert {
                test,
                call_span,
                ..
            } => self.claim(test, *call_span, set),
        }
    }

    // Declared items.
    fn declare(&mut self, items: &'a [TypedItem], set: Active) -> Result<(), Stop>
        ensures ok { OnOk result (Comes self.old self.new (declares_all self.old (items_of items.now) (flag_of set))) }
        ensures fewer { OnOk result (WaitBoth self.old self.new (Task.Items items.entry set) (Task.Went set)) }
        ensures err { IfErr result (λ e. e ≡ Stop.Memory) }
    {
        self.work.tick();
        self.both(Task::Items(items, set), Task::Went(set))?;
        Ok(())
    }

    // A statement after which all go on.
    #[tactic(auto, using(crate::proofs::Arms::all_did))]
    fn all_do(&mut self, simple: &'a TypedSimple, set: Active) -> Result<(), Stop>
        ensures ok { OnOk result (Comes self.old self.new (all_does self.old (simple_of simple.now) (flag_of set))) }
        ensures fewer { OnOk result (WaitBoth self.old self.new (Task.Simple simple.entry set) (Task.Went set)) }
        ensures err { IfErr result (λ e. e ≡ Stop.Memory) }
    {
        self.both(Task::Simple(simple, set), Task::Went(set))?;
        Ok(())
    }

    // An `if`: its test comes first.
    fn choice(
        &mut self,
        test: &'a TypedExpr,
        then: &'a TypedStmt,
        otherwise: Option<&'a TypedStmt>,
        set: Active,
    ) -> Result<(), Stop>
        ensures ok { OnOk result (Comes self.old self.new (chooses self.old (expr_of test.now) then.entry otherwise.entry (flag_of set))) }
        ensures fewer { OnOk result (Leaves self.old self.new (two (own self.old value_due (expr_of test.now)) (own self.old branch_due then.entry otherwise.entry))) }
        ensures err { IfErr result (λ e. e ≡ Stop.Memory) }
    {
        self.work.tick();
        let branches = Branches {
            then,
            otherwise,
            set,
        };
        let after = Box::new(self.alloc, branches)?;
        self.both(Task::Value(test, set), Task::Branch(after))?;
        Ok(())
    }

    // A block over all instances, after which those that came go on.
    fn unmask(&mut self, body: &'a TypedBlock, set: Active) -> Result<(), Stop>
        ensures ok { OnOk result (Comes self.old self.new (unmasks self.old (block_of body.now) (flag_of set))) }
        ensures fewer { OnOk result (Leaves self.old self.new (own self.old block_due (block_of body.now) + one 0)) }
        ensures err { IfErr result (λ e. e ≡ Stop.Memory) }
    {
        self.work.tick();
        let all = everyone(self.gang());
        self.later(Task::Went(set))?;
        self.block(body, all)?;
        Ok(())
    }

    // A `break` or a `continue`.
    #[tactic(auto, using(crate::proofs::Arms::jumped_away))]
    fn jump(&mut self, jump: Jump, set: &Active)
        ensures comes { Comes self.old self.new (jumps self.old jump (flag_of set.now)) }
        ensures fewer { Leaves self.old self.new 0 }
    {
        self.work.tick();
        self.leave(jumped(jump, set));
    }

    // A `return`: its value comes first.
    #[tactic(auto, using(crate::proofs::Arms::gave_nothing, crate::proofs::Arms::gave))]
    fn give(&mut self, value: Option<&'a TypedExpr>, set: Active) -> Result<(), Stop>
        ensures ok { OnOk result (Comes self.old self.new (gives self.old value.entry (flag_of set))) }
        ensures fewer { OnOk result (Leaves self.old self.new (own self.old give_due value.entry)) }
        ensures err { IfErr result (λ e. e ≡ Stop.Memory) }
    {
        self.work.tick();
        match value {
            None => {
                self.leave(returned(&set));
                Ok(())
            }
            Some(value) => {
                self.both(Task::Value(value, set), Task::Answer(set))?;
                Ok(())
            }
        }
    }

    // A `print`: its values come first.
    #[tactic(auto, using(crate::proofs::Arms::printed))]
    fn print_all(
        &mut self,
        text: &'a [u8],
        values: &'a [TypedExpr],
        set: Active,
    ) -> Result<(), Stop>
        ensures ok { OnOk result (Comes self.old self.new (prints_all self.old text.now (exprs_of values.now) (flag_of set))) }
        ensures fewer { OnOk result (Leaves self.old self.new (own self.old values_due (exprs_of values.now))) }
        ensures err { IfErr result (λ e. e ≡ Stop.Memory) }
    {
        self.work.tick();
        let gathering = Gathering::Print { text, values };
        let done = Vec::new(self.alloc);
        self.values(gathering, values, done, set)?;
        Ok(())
    }

    // An `assert`: its test comes first.
    fn claim(&mut self, test: &'a TypedExpr, span: Span, set: Active) -> Result<(), Stop>
        ensures ok { OnOk result (Comes self.old self.new (claims self.old (expr_of test.now) span (flag_of set))) }
        ensures fewer { OnOk result (WaitBoth self.old self.new (Task.Value test.entry set) (Task.Assert span set)) }
        ensures err { IfErr result (λ e. e ≡ Stop.Memory) }
    {
        self.work.tick();
        self.both(Task::Value(test, set), Task::Assert(span, set))?;
        Ok(())
    }
}

impl<'a> Evaluator<'a> {
    // A statement that may be left out.
    #[tactic(auto, using(crate::proofs::Branching::run_comes, crate::proofs::Branching::all_go_on))]
    fn run_or_go(&mut self, statement: Option<&'a TypedStmt>, set: Active) -> Result<(), Stop>
        ensures ok { OnOk result (Comes self.old self.new (runs self.old statement.entry (flag_of set))) }
        ensures fewer { OnOk result (Leaves self.old self.new (own self.old perhaps_due statement.entry)) }
        ensures err { IfErr result (λ e. e ≡ Stop.Memory) }
    {
        match statement {
            Some(statement) => {
                self.later(Task::Run(statement, set))?;
            }
            None => self.leave(Sets::all(&set)),
        }
        Ok(())
    }

    // A statement that may be left out, over a set that may be empty, and then a task.
    #[tactic(auto, using(crate::proofs::Branching::some_then, crate::proofs::Branching::none_then))]
    fn perhaps(
        &mut self,
        statement: Option<&'a TypedStmt>,
        set: Active,
        after: Task<'a>,
    ) -> Result<(), Stop>
        ensures ok { OnOk result (Comes self.old self.new (runs_then self.old statement.entry (flag_of set) after.entry)) }
        ensures fewer { OnOk result (LeavesAt (left_after after.entry self.old.left) self.old self.new (own self.old perhaps_due statement.entry + one (own self.old task_due after.entry))) }
        ensures err { IfErr result (λ e. e ≡ Stop.Memory) }
    {
        let some = any(self.gang(), &set);
        self.later(after)?;
        if some {
            self.run_or_go(statement, set)?;
            Ok(())
        } else {
            self.leave(Sets::all(&set));
            Ok(())
        }
    }

    /// The test of an `if` was found: a uniform one chooses a branch, else the first branch runs over those
    /// for which it is true, if there are any.
    #[tactic(auto, using(crate::proofs::Branching::true_branch, crate::proofs::Branching::false_branch, crate::proofs::Branching::first_branch))]
    pub fn branch(&mut self, branches: Box<Branches<'a>>) -> Result<(), Stop>
        ensures ok { OnOk result (Comes self.old self.new (does self.old (Task.Branch branches.entry))) }
        ensures fewer { OnOk result (LeavesOf self.old self.new (Task.Branch branches.entry)) }
        ensures err { IfErr result (λ e. e ≡ Stop.Memory) }
    {
        let Branches {
            then,
            otherwise,
            set,
        } = *branches;
        match self.value {
            Computed::One(bits) => {
                if bits != 0 {
                    self.run_or_go(Some(then), set)?;
                    Ok(())
                } else {
                    self.run_or_go(otherwise, set)?;
                    Ok(())
                }
            }
            Computed::Each(row) => {
                let chosen = where_is(true, &row);
                let others = Branches {
                    then,
                    otherwise,
                    set: without(&set, &chosen),
                };
                let others = Box::new(self.alloc, others)?;
                self.perhaps(Some(then), chosen, Task::Second(others))?;
                Ok(())
            }
        }
    }

    /// The first branch was run; the second runs over the others, if there are any.
    #[tactic(auto, using(crate::proofs::Branching::second_branch))]
    pub fn second(&mut self, branches: Box<Branches<'a>>) -> Result<(), Stop>
        ensures ok { OnOk result (Comes self.old self.new (does self.old (Task.Second branches.entry))) }
        ensures fewer { OnOk result (LeavesOf self.old self.new (Task.Second branches.entry)) }
        ensures err { IfErr result (λ e. e ≡ Stop.Memory) }
    {
        let first = self.sets;
        self.perhaps(branches.otherwise, branches.set, Task::Unite(first))?;
        Ok(())
    }

    /// Both branches were run.
    #[tactic(auto, using(crate::proofs::Branching::united))]
    pub fn unite(&mut self, first: Sets)
        ensures comes { Comes self.old self.new (does self.old (Task.Unite first)) }
        ensures fewer { LeavesOf self.old self.new (Task.Unite first) }
    {
        let sets = Sets {
            went: union(&first.went, &self.sets.went),
            exits: first.exits.or(&self.sets.exits),
        };
        self.leave(sets);
    }

    /// A block: its statements in order.
    pub fn block(&mut self, block: &'a TypedBlock, set: Active) -> Result<(), Stop>
        ensures ok { OnOk result (Comes self.old self.new (blocks self.old (block_of block.now) (flag_of set))) }
        ensures fewer { OnOk result (Leaves self.old self.new (own self.old block_due (block_of block.now))) }
        ensures err { IfErr result (λ e. e ≡ Stop.Memory) }
    {
        self.work.tick();
        self.statements(block.statements.as_slice(), Exits::none(), set)?;
        Ok(())
    }

    // One statement after the other, where some left before.
    fn statements(&mut self, rest: &'a [TypedStmt], before: Exits, set: Active) -> Result<(), Stop>
        ensures ok { OnOk result (Comes self.old self.new (runs_all self.old rest.now before (flag_of set))) }
        ensures fewer { OnOk result (Leaves self.old self.new (own self.old all_due (stmts_of rest.now))) }
        ensures err { IfErr result (λ e. e ≡ Stop.Memory) }
    {
        match rest {
            [] => {
                self.leave(Sets {
                    went: set,
                    exits: before,
                });
                Ok(())
            }
            [next, rest @ ..] => {
                let others = Box::new(self.alloc, Statements { rest, before })?;
                self.both(Task::Run(next, set), Task::Statements(others))?;
                Ok(())
            }
        }
    }

    /// A statement was run: the next runs over those that went on, if there are any.
    pub fn went_by(&mut self, statements: Box<Statements<'a>>) -> Result<(), Stop>
        ensures ok { OnOk result (Comes self.old self.new (does self.old (Task.Statements statements.entry))) }
        ensures fewer { OnOk result (LeavesOf self.old self.new (Task.Statements statements.entry)) }
        ensures err { IfErr result (λ e. e ≡ Stop.Memory) }
    {
        let Statements { rest, before } = *statements;
        let went = self.sets.went;
        let before = before.or(&self.sets.exits);
        if any(self.gang(), &went) {
            self.statements(rest, before, went)?;
            Ok(())
        } else {
            self.leave(Sets {
                went,
                exits: before,
            });
            Ok(())
        }
    }
}

impl<'a> Evaluator<'a> {
    /// The result was found.
    #[tactic(auto, using(crate::proofs::Arms::answer_comes))]
    pub fn answer(&mut self, set: Active)
        ensures comes { Comes self.old self.new (does self.old (Task.Answer set)) }
        ensures fewer { LeavesOf self.old self.new (Task.Answer set) }
    {
        self.keep_answer(&set);
        self.leave(returned(&set));
    }

    // It is kept: one for the gang, or one for each member.
    #[tactic(auto, using(crate::proofs::Arms::no_answer, crate::proofs::Arms::one_answer, crate::proofs::Arms::each_answer))]
    fn keep_answer(&mut self, set: &Active)
        ensures { Changes self.old self.new (answered (frame_seen self.old.here).answer (flag_of set.now) (payload_of self.old.value)) }
    {
        match self.here.answer() {
            None => {}
            Some(ty) => match ty.rate {
                Rate::Uniform => self.here.result = self.value.sole(),
                Rate::Varying => {
                    self.here.results = over(&self.value.spread(set), &self.here.results);
                }
            },
        }
    }

    /// The test of an `assert` was found.
    #[tactic(auto, using(crate::proofs::Arms::assert_comes, crate::proofs::Arms::assert_halts))]
    pub fn assert(&mut self, span: Span, set: Active) -> Result<(), Stop>
        ensures ok { OnOk result (Comes self.old self.new (does self.old (Task.Assert span set))) }
        ensures fewer { OnOk result (LeavesOf self.old self.new (Task.Assert span set)) }
        ensures err { IfErr result (Halts self.old self.new (does self.old (Task.Assert span set))) }
    {
        let offender = lowest_false(self.gang(), &set, &self.value);
        checked(offender, TrapKind::Assert, span)?;
        self.leave(Sets::all(&set));
        Ok(())
    }
}

// All of a set returned.
fn returned(set: &Active) -> Sets
    ensures { parts_seen result ≡ record { went = nobody; broke = nobody; continued = nobody; returned = flag_of set.now } }
{
    let Exits {
        broke,
        continued,
        ..
    } = Exits::none();
    let exits = Exits {
        broke,
        continued,
        returned: *set,
    };
    Sets {
        went: nobody(),
        exits,
    }
}

// All of a set left by a jump.
fn jumped(jump: Jump, set: &Active) -> Sets
    ensures { left_as (parts_seen result) ≡ jumped jump (flag_of set.now) }
{
    let Exits {
        broke,
        continued,
        returned,
    } = Exits::none();
    let exits = match jump {
        Jump::Break => Exits {
            broke: *set,
            continued,
            returned,
        },
        Jump::Continue => Exits {
            broke,
            continued: *set,
            returned,
        },
    };
    Sets {
        went: nobody(),
        exits,
    }
}
