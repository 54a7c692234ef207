//! What statements do.
ghost use Rattle.isp_typed.specs.Views.{block_of, expr_of, stmt_of, stmts_of};
ghost use Rattle.isp_solo_run.specs.Tasks.{BranchesOn, Chooses, DoesTask, Follows, RunsAll, RunsBlock, TakesTurn, TurnsByValue, TurnsWith};
ghost use Rattle.isp_solo_run.specs.declared.tasks.Task.TheVariants as Task;

use crate::loops::Turning;
use crate::state::{How, Single, Stop};
use crate::tasks::{Branches, Gathering, Statements, Task, Unique};
use isp_base::{Elem, Rate, Span, TrapKind, convert};
use isp_tree::Jump;
use isp_typed::{TypedBlock, TypedExpr, TypedStmt};

impl<'a> Single<'a> {
    /// A statement.
    pub fn run(&mut self, statement: &'a TypedStmt) -> Result<(), Stop>
        ensures { DoesTask result self.old self.new (Task.Run statement.entry) }
    {
        match statement {
            TypedStmt::Block(block) => self.block(block),
            TypedStmt::Declare { items, .. } => self.later(Task::Items(items.as_slice())),
            TypedStmt::Simple { simple, .. } => self.later(Task::Simple(simple)),
            TypedStmt::If { test, then, .. } => { self.choice(test, then, None) }
            TypedStmt::IfElse {
                test,
                then,
                otherwise,
                ..
            } => { self.choice(test, then, Some(otherwise)) }
            TypedStmt::While { test, body, .. } => {
                let turning = Turning::new(Some(test), None, body, self.setting.turns);
                self.test(turning)
            }
            TypedStmt::Do { body, test, .. } => {
                let turning = Turning::new(Some(test), None, body, self.setting.turns);
                self.turn(turning)
            }
            TypedStmt::For {
                first,
                test,
                step,
                body,
                ..
            } => {
                let turns = self.setting.turns;
                let turning = Turning::new(test.as_ref(), step.as_ref(), body, turns);
                self.first(first.as_ref(), turning)
            }
            TypedStmt::Foreach { ranges, body, .. } => {
                self.bounds(ranges.as_slice(), Vec::new(self.alloc), body)
            }
            TypedStmt::ForeachActive { index, body, .. } => {
                self.alone(*index, self.setting.instance as u64, body)
            }
            TypedStmt::ForeachUnique {
                index,
                elem,
                value,
                body,
                ..
            } => self.unique(*index, *elem, value, body),
            TypedStmt::Unmasked { body, .. } => match self.push(Task::Go) {
                Ok(()) => self.block(body),
                Err(_) => Err(Stop::Memory),
            },
            TypedStmt::Jump { jump, .. } => match jump {
                Jump::Break => self.leave(How::Broke),
                Jump::Continue => self.leave(How::Continued),
            },
            TypedStmt::Return { value, .. } => match value {
                Some(value) => self.both(Task::Value(value), Task::Answer),
                None => self.leave(How::Returned),
            },
            TypedStmt::Print { values, .. } => {
                self.values(Gathering::Print, values.as_slice(), Vec::new(self.alloc))
            }
            TypedStmt::Assert {
                test,
                call_span,
                ..
            } => self.both(Task::Value(test), Task::Assert(*call_span)),
        }
    }

    /// A block: its statements in order.
    pub fn block(&mut self, block: &'a TypedBlock) -> Result<(), Stop>
        ensures { RunsBlock result self.old self.new (block_of block.now) }
    {
        self.statements(block.statements.as_slice())
    }

    // Statements in order.
    fn statements(&mut self, statements: &'a [TypedStmt]) -> Result<(), Stop>
        ensures { RunsAll result self.old self.new (stmts_of statements.now) }
    {
        match statements {
            [] => self.leave(How::Going),
            [first, rest @ ..] => match Box::new(self.alloc, Statements { rest }) {
                Ok(others) => self.both(Task::Run(first), Task::Statements(others)),
                Err(_) => Err(Stop::Memory),
            },
        }
    }

    /// A statement was run; those that are left follow where it went on.
    pub fn went(&mut self, statements: Statements<'a>) -> Result<(), Stop>
        ensures { Follows result self.old self.new statements.entry }
    {
        match self.how {
            How::Going => self.statements(statements.rest),
            How::Broke => self.leave(How::Broke),
            How::Continued => self.leave(How::Continued),
            How::Returned => self.leave(How::Returned),
        }
    }

    // An `if`: its test comes first.
    fn choice(
        &mut self,
        test: &'a TypedExpr,
        then: &'a TypedStmt,
        otherwise: Option<&'a TypedStmt>,
    ) -> Result<(), Stop>
        ensures { Chooses result self.old self.new (expr_of test.now) (record { then = then.entry; otherwise = otherwise.entry }) }
    {
        match Box::new(self.alloc, Branches { then, otherwise }) {
            Ok(after) => self.both(Task::Value(test), Task::Branch(after)),
            Err(_) => Err(Stop::Memory),
        }
    }

    /// The test of an `if` was found.
    pub fn branch(&mut self, branches: Branches<'a>) -> Result<(), Stop>
        ensures { BranchesOn result self.old self.new branches.entry }
    {
        if self.value != 0 {
            return self.later(Task::Run(branches.then));
        }
        match branches.otherwise {
            Some(statement) => self.later(Task::Run(statement)),
            None => self.leave(How::Going),
        }
    }

    /// The result was found.
    pub fn answer(&mut self) -> Result<(), Stop>
        ensures { DoesTask result self.old self.new Task.Answer }
    {
        self.here.result = self.value;
        self.leave(How::Returned)
    }

    /// The test of an `assert` was found.
    pub fn assert(&mut self, span: Span) -> Result<(), Stop>
        ensures { DoesTask result self.old self.new (Task.Assert span) }
    {
        if self.value == 0 {
            Err(self.trap(TrapKind::Assert, span))
        } else {
            self.go_on()
        }
    }

    // A `foreach_unique`: its value comes first.
    fn unique(
        &mut self,
        index: usize,
        elem: Elem,
        value: &'a TypedExpr,
        body: &'a TypedStmt,
    ) -> Result<(), Stop>
        ensures { TurnsByValue result self.old self.new index elem (expr_of value.now) (stmt_of body.now) }
    {
        let unique = Unique {
            index,
            from: value.ty().elem,
            to: elem,
            body,
        };
        match Box::new(self.alloc, unique) {
            Ok(after) => self.both(Task::Value(value), Task::Turn(after)),
            Err(_) => Err(Stop::Memory),
        }
    }

    /// The value of a `foreach_unique` was found.
    pub fn with_value(&mut self, unique: Unique<'a>) -> Result<(), Stop>
        ensures { TurnsWith result self.old self.new unique.entry }
    {
        let bits = convert(unique.from, unique.to, self.value);
        self.alone(unique.index, bits, unique.body)
    }

    // The one turn that the instance takes alone, with these bits as its index.
    fn alone(&mut self, index: usize, bits: u64, body: &'a TypedStmt) -> Result<(), Stop>
        ensures { TakesTurn result self.old self.new index bits (stmt_of body.now) }
    {
        match self.write(index, Rate::Uniform, bits) {
            Ok(()) => self.both(Task::Run(body), Task::Go),
            Err(_) => Err(Stop::Memory),
        }
    }
}
