//! What is left to do.
ghost use Rattle.std.specs.Prelude.{◌≡◌, true};
ghost use Rattle.isp_solo_run.specs.Tasks.{DoesTask, Ends, is_of_foreach, is_of_statements, rest};

use crate::activation::Activation;
use crate::loops::Turning;
use crate::places::{Place, Writing};
use crate::rounds::{Bounds, Rounds};
use crate::state::{Single, Stop};
use isp_base::{BinOp, Compare, Elem, Span, Ty, UnaryOp, apply_unary, convert};
use isp_typed::{
    ArrayVariable, Library, Logic, TypedArgument, TypedCall, TypedExpr, TypedItem, TypedPlace,
    TypedSimple, TypedStmt,
};

/// An operator on two values.
#[derive(Clone, Copy)]
pub enum Joining {
    Operate {
        operator: BinOp,
        elem: Elem,
        span: Span,
    },
    Compare {
        comparison: Compare,
        elem: Elem,
    },
}

/// What is done with several values.
#[derive(Clone, Copy)]
pub enum Gathering {
    Library { function: Library, elem: Elem },
    /// Nothing: alone, an instance prints nothing.
    Print,
}

/// What is handed to a call.
#[derive(Clone, Copy)]
pub enum Passed {
    Value(u64),
    /// An array, by its store.
    Store(usize),
}

/// The statements of a block that are left.
#[derive(Clone, Copy)]
pub struct Statements<'a> {
    pub rest: &'a [TypedStmt],
}

/// The branches of an `if`.
#[derive(Clone, Copy)]
pub struct Branches<'a> {
    pub then: &'a TypedStmt,
    pub otherwise: Option<&'a TypedStmt>,
}

/// A `foreach_unique`. Its value is of the type `from`, its index of the type `to`.
#[derive(Clone, Copy)]
pub struct Unique<'a> {
    pub index: usize,
    pub from: Elem,
    pub to: Elem,
    pub body: &'a TypedStmt,
}

/// One thing that is left to do. A task in whose name nothing else is said takes up what a part has left in a register.
#[derive(Drop)]
pub enum Task<'a> {
    // ---- expressions
    Value(&'a TypedExpr),
    /// The element at the index that was found.
    Load {
        array: ArrayVariable,
        elem: Elem,
        span: Span,
    },
    Convert {
        from: Elem,
        to: Elem,
    },
    Unary {
        operator: UnaryOp,
        elem: Elem,
    },
    /// The left operand was found.
    Right {
        joining: Joining,
        right: &'a TypedExpr,
    },
    Join {
        joining: Joining,
        left: u64,
    },
    /// The left operand of `&&` or `||` was found.
    Logic {
        logic: Logic,
        right: &'a TypedExpr,
    },
    /// The test of `?:` was found.
    Choose {
        then: &'a TypedExpr,
        otherwise: &'a TypedExpr,
    },
    /// One of several values was found.
    Values {
        gathering: Gathering,
        rest: &'a [TypedExpr],
        done: Vec<u64>,
    },
    // ---- calls
    /// The arguments that are left, and then the call.
    Arguments {
        call: &'a TypedCall,
        rest: &'a [TypedArgument],
        done: Vec<Passed>,
    },
    /// An argument was found.
    Argument {
        call: &'a TypedCall,
        rest: &'a [TypedArgument],
        done: Vec<Passed>,
    },
    /// The function has ended; the caller goes on.
    Return {
        caller: Box<Activation<'a>>,
        left: usize,
    },
    // ---- statements after which the instance goes on
    Simple(&'a TypedSimple),
    /// What was found is not needed, or a statement was left in whatever way: the instance goes on.
    Go,
    /// The index of a place was found.
    Indexed {
        target: &'a TypedPlace,
        array: ArrayVariable,
        elem: Elem,
        writing: Writing<'a>,
    },
    /// The right side was found.
    Assign {
        place: Place,
        span: Span,
    },
    Update {
        operator: BinOp,
        elem: Elem,
        place: Place,
        target: &'a TypedPlace,
        span: Span,
    },
    Items(&'a [TypedItem]),
    /// The initial value was found.
    Declared {
        number: usize,
        ty: Ty,
    },
    // ---- statements
    Run(&'a TypedStmt),
    /// A statement was run; those that are left follow where it went on.
    Statements(Box<Statements<'a>>),
    /// The test of an `if` was found.
    Branch(Box<Branches<'a>>),
    /// The result was found.
    Answer,
    /// The test of an `assert` was found.
    Assert(Span),
    /// The value of a `foreach_unique` was found.
    Turn(Box<Unique<'a>>),
    // ---- loops
    Test(Box<Turning<'a>>),
    Tested(Box<Turning<'a>>),
    /// The body was run.
    Turned(Box<Turning<'a>>),
    // ---- foreach
    /// The start of a range was found.
    Start(Box<Bounds<'a>>),
    /// The end of a range was found.
    End {
        start: u64,
        bounds: Box<Bounds<'a>>,
    },
    /// The runs that are left.
    Rounds(Box<Rounds<'a>>),
}

impl<'a> Single<'a> {
    /// Does a task.
    pub fn act(&mut self, task: Task<'a>) -> Result<(), Stop>
        ensures { DoesTask result self.old self.new task.entry }
    {
        match task {
            Task::Value(x) => self.value(x),
            Task::Load { array, elem, span } => {
                let place = Place::Element {
                    array,
                    elem,
                    index: self.value,
                };
                self.load(&place, span)
            }
            Task::Convert { from, to } => self.give(convert(from, to, self.value)),
            Task::Unary { operator, elem } => self.give(apply_unary(operator, elem, self.value)),
            Task::Right { joining, right } => self.right(joining, right),
            Task::Join { joining, left } => self.join(joining, left),
            Task::Logic { logic, right } => self.logic(logic, right),
            Task::Choose { then, otherwise } => self.choose(then, otherwise),
            Task::Values {
                gathering,
                rest,
                done,
            } => self.one_more(gathering, rest, done),
            Task::Arguments { call, rest, done } => self.arguments(call, rest, done),
            Task::Argument { call, rest, done } => self.argument(call, rest, done),
            Task::Return { caller, left } => self.resume(caller, left),
            task => self.act_statement(task),
        }
    }

    // Does a task of statements.
    fn act_statement(&mut self, task: Task<'a>) -> Result<(), Stop>
        requires { is_of_statements task ≡ true }
        ensures { DoesTask result self.old self.new task.entry }
    {
        match task {
            Task::Simple(simple) => self.simple(simple),
            Task::Go => self.go_on(),
            Task::Indexed {
                target,
                array,
                elem,
                writing,
            } => {
                let place = Place::Element {
                    array,
                    elem,
                    index: self.value,
                };
                self.placed(target, place, writing)
            }
            Task::Assign { place, span } => self.assign(place, span),
            Task::Update {
                operator,
                elem,
                place,
                target,
                span,
            } => self.update(operator, elem, place, target, span, self.value),
            Task::Items(items) => self.items(items),
            Task::Declared { number, ty } => self.declared(number, ty),
            Task::Run(statement) => self.run(statement),
            Task::Statements(statements) => self.went(*statements),
            Task::Branch(branches) => self.branch(*branches),
            Task::Answer => self.answer(),
            Task::Assert(span) => self.assert(span),
            Task::Turn(unique) => self.with_value(*unique),
            Task::Test(turning) => self.test(*turning),
            Task::Tested(turning) => self.tested(*turning),
            Task::Turned(turning) => self.turned(*turning),
            Task::Start(_) | Task::End { .. } | Task::Rounds(_) => self.act_foreach(task),
            _ => unreachable!(),
        }
    }

    // Does a task of a `foreach`.
    fn act_foreach(&mut self, task: Task<'a>) -> Result<(), Stop>
        requires { is_of_foreach task ≡ true }
        ensures { DoesTask result self.old self.new task.entry }
    {
        match task {
            Task::Start(bounds) => self.start(bounds),
            Task::End { start, bounds } => self.end(start, bounds),
            Task::Rounds(rounds) => self.rounds(rounds),
            _ => unreachable!(),
        }
    }

    /// All tasks, the last one first. Each leaves fewer to be done, so they come to an end.
    pub fn finish(&mut self) -> Result<(), Stop>
        ensures { Ends result self.old self.new (rest self.old) }
    {
        while let Some(task) = self.tasks.pop() {
            match self.act(task) {
                Ok(()) => {}
                Err(stop) => return Err(stop),
            }
        }
        Ok(())
    }
}
