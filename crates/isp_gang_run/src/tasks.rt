//! What is left to do.
ghost use Rattle.std.specs.Prelude.{IfErr, IsTrue, OnOk};
ghost use Rattle.isp_gang_run.specs.Due.{LeavesOf};
ghost use Rattle.isp_gang_run.specs.Tasks.{Comes, Halts, does};
ghost use Rattle.isp_gang_run.specs.reader.Kinds.{is_access, is_calling, is_gathering, is_round, is_side, is_turn};

use crate::activation::Activation;
use crate::distinct::{Distinct, Unique};
use crate::loops::Turning;
use crate::places::{Place, Writing};
use crate::rounds::{Bounds, Members, Rounds};
use crate::state::{Evaluator, Exits, Sets, Stop};
use isp_base::{BinOp, Compare, Elem, Span, Ty, UnaryOp};
use isp_gang_values::computed::Computed;
use isp_gang_values::sets::Active;
use isp_typed::{
    ArrayVariable, Library, Logic, TypedArgument, TypedCall, TypedExpr, TypedItem, TypedPlace,
    TypedSimple, TypedStmt,
};

/// An operator on values of a type, and where it stands.
#[derive(Clone, Copy)]
pub struct Operation {
    pub operator: BinOp,
    pub elem: Elem,
    pub span: Span,
}

/// What is done with two values.
#[derive(Clone, Copy)]
pub enum Joining {
    Operate(Operation),
    Compare(Compare, Elem),
}

/// What is done with several values.
#[derive(Clone, Copy)]
pub enum Gathering<'a> {
    Library(Library, Elem),
    Print {
        text: &'a [u8],
        values: &'a [TypedExpr],
    },
}

/// What is handed to a call.
#[derive(Clone, Copy)]
pub enum Passed {
    Value(Computed),
    /// An array, by its store.
    Store(usize),
}

/// The elements of an array from an index on, whose type is said.
#[derive(Clone, Copy)]
pub struct Elements {
    pub array: ArrayVariable,
    pub elem: Elem,
    pub first: u64,
}

/// What a packed call does.
#[derive(Clone, Copy)]
pub enum Packing<'a> {
    Store(&'a TypedExpr),
    Load(usize),
}

/// The branches of an `if` over a set; once the first was run, over those that are left.
#[derive(Clone, Copy)]
pub struct Branches<'a> {
    pub then: &'a TypedStmt,
    pub otherwise: Option<&'a TypedStmt>,
    pub set: Active,
}

/// The statements of a block that are left, and where members left by those before.
#[derive(Clone, Copy)]
pub struct Statements<'a> {
    pub rest: &'a [TypedStmt],
    pub before: Exits,
}

/// One thing that is left to do, over a set. A task in whose name nothing else is said takes up what a
/// part has left in a register.
#[derive(Drop)]
pub enum Task<'a> {
    // ---- expressions
    Value(&'a TypedExpr, Active),
    /// The element at the index that was found.
    Load {
        array: ArrayVariable,
        elem: Elem,
        span: Span,
        set: Active,
    },
    Convert {
        from: Elem,
        to: Elem,
    },
    Unary(UnaryOp, Elem),
    /// The left operand was found.
    Right(Joining, &'a TypedExpr, Active),
    /// The right operand was found, after this left one.
    Join(Joining, Computed, Active),
    /// The left operand of `&&` or `||` was found.
    Logic(Logic, &'a TypedExpr, Active),
    /// The right operand was found, after this left one.
    Settle(Logic, Computed, Active),
    /// The test of `?:` was found.
    Choose {
        then: &'a TypedExpr,
        otherwise: &'a TypedExpr,
        set: Active,
    },
    Otherwise {
        test: Computed,
        otherwise: &'a TypedExpr,
        set: Active,
    },
    Select {
        test: Computed,
        then: Computed,
        set: Active,
    },
    /// One of several values was found.
    Values {
        gathering: Gathering<'a>,
        rest: &'a [TypedExpr],
        done: Vec<Computed>,
        set: Active,
    },
    /// The index of the first element of a packed call was found.
    Packed {
        packing: Packing<'a>,
        array: ArrayVariable,
        elem: Elem,
        span: Span,
        set: Active,
    },
    /// The value of a packed store was found.
    PackedStore(Elements, Span, Active),
    // ---- calls
    Call(&'a TypedCall, Active),
    /// The arguments that are left, and then the call.
    Arguments {
        call: &'a TypedCall,
        rest: &'a [TypedArgument],
        done: Vec<Passed>,
        set: Active,
    },
    /// An argument was found.
    Argument {
        call: &'a TypedCall,
        rest: &'a [TypedArgument],
        done: Vec<Passed>,
        set: Active,
    },
    /// The function has ended; the caller goes on.
    Return {
        caller: Box<Activation<'a>>,
        left: usize,
        sets: Sets,
        set: Active,
    },
    // ---- statements after which all go on
    Simple(&'a TypedSimple, Active),
    /// What a statement found is not needed.
    Forget,
    /// The index of a place was found.
    Indexed {
        target: &'a TypedPlace,
        array: ArrayVariable,
        elem: Elem,
        writing: Writing<'a>,
        set: Active,
    },
    /// The right side was found.
    Assign(Place, Span, Active),
    Update {
        operation: Operation,
        place: Place,
        target: &'a TypedPlace,
        set: Active,
    },
    Items(&'a [TypedItem], Active),
    /// The initial value was found.
    Declared {
        number: usize,
        ty: Ty,
        set: Active,
    },
    // ---- statements
    Run(&'a TypedStmt, Active),
    /// A statement was run.
    Statements(Box<Statements<'a>>),
    /// All of the set go on.
    Went(Active),
    /// The test of an `if` was found.
    Branch(Box<Branches<'a>>),
    /// The first branch was run.
    Second(Box<Branches<'a>>),
    /// The second branch was run.
    Unite(Sets),
    /// The result was found.
    Answer(Active),
    /// The test of an `assert` was found.
    Assert(Span, Active),
    // ---- loops
    /// The live instances take the test.
    Test(Box<Turning<'a>>),
    Tested(Box<Turning<'a>>),
    /// The body was run.
    Turned(Box<Turning<'a>>),
    // ---- bodies that run over each of a list of sets
    /// The start of a range was found.
    Start(Box<Bounds<'a>>),
    End {
        start: u64,
        bounds: Box<Bounds<'a>>,
    },
    Rounds(Box<Rounds<'a>>),
    /// Each member alone, from one on.
    Members(Box<Members<'a>>),
    /// The value of a `foreach_unique` was found.
    Unique(Box<Unique<'a>>),
    /// The turns of a `foreach_unique` that are left, one for each distinct value.
    Distinct(Box<Distinct<'a>>),
}

impl<'a> Evaluator<'a> {
    /// Does a task.
    pub fn act(&mut self, task: Task<'a>) -> Result<(), Stop>
        ensures ok { OnOk result (Comes self.old self.new (does self.old task.entry)) }
        ensures fewer { OnOk result (LeavesOf self.old self.new task.entry) }
        ensures err { IfErr result (Halts self.old self.new (does self.old task.entry)) }
    {
        match task {
            Task::Value(x, set) => self.value(x, set),
            Task::Convert { from, to } => Ok(self.convert(from, to)),
            Task::Unary(operator, elem) => Ok(self.unary(operator, elem)),
            Task::Right(joining, right, set) => self.right(joining, right, set),
            Task::Join(joining, left, set) => self.join(joining, left, set),
            Task::Logic(logic, right, set) => self.logic(logic, right, set),
            Task::Settle(logic, left, set) => Ok(self.settle(logic, left, set)),
            Task::Choose { .. } | Task::Otherwise { .. } => self.choose_side(task),
            Task::Select { test, then, set } => Ok(self.select(test, then, set)),
            Task::Load { .. } | Task::Indexed { .. } | Task::Update { .. } => self.access(task),
            Task::Values { .. } | Task::Packed { .. } => self.gather(task),
            Task::PackedStore(elements, span, set) => self.packed_store(elements, span, set),
            Task::Call(call, set) => self.call(call, set),
            Task::Arguments { .. } | Task::Argument { .. } | Task::Return { .. } => self.pass(task),
            Task::Simple(simple, set) => self.simple(simple, set),
            Task::Forget => Ok(self.forget()),
            Task::Assign(place, span, set) => self.assign(place, span, set),
            Task::Items(items, set) => self.items(items, set),
            Task::Declared { number, ty, set } => self.declared(number, ty, set),
            Task::Run(statement, set) => self.run(statement, set),
            Task::Statements(statements) => self.went_by(statements),
            Task::Went(set) => Ok(self.leave(Sets::all(&set))),
            Task::Branch(branches) => self.branch(branches),
            Task::Second(branches) => self.second(branches),
            Task::Unite(first) => Ok(self.unite(first)),
            Task::Answer(set) => Ok(self.answer(set)),
            Task::Assert(span, set) => self.assert(span, set),
            Task::Test(_) | Task::Tested(_) | Task::Turned(_) => self.take_turn(task),
            Task::Start(_)
            | Task::End { .. }
            | Task::Rounds(_)
            | Task::Members(_)
            | Task::Unique(_)
            | Task::Distinct(_) => self.run_each(task),
        }
    }

    // Of `?:`.
    fn choose_side(&mut self, task: Task<'a>) -> Result<(), Stop>
        requires { IsTrue (is_side task) }
        ensures ok { OnOk result (Comes self.old self.new (does self.old task.entry)) }
        ensures fewer { OnOk result (LeavesOf self.old self.new task.entry) }
        ensures err { IfErr result (Halts self.old self.new (does self.old task.entry)) }
    {
        match task {
            Task::Choose {
                then,
                otherwise,
                set,
            } => self.choose(then, otherwise, set),
            Task::Otherwise {
                test,
                otherwise,
                set,
            } => self.otherwise(test, otherwise, set),
            _ => unreachable!(),
        }
    }

    // Of an element, and of what a place holds.
    fn access(&mut self, task: Task<'a>) -> Result<(), Stop>
        requires { IsTrue (is_access task) }
        ensures ok { OnOk result (Comes self.old self.new (does self.old task.entry)) }
        ensures fewer { OnOk result (LeavesOf self.old self.new task.entry) }
        ensures err { IfErr result (Halts self.old self.new (does self.old task.entry)) }
    {
        match task {
            Task::Load {
                array,
                elem,
                span,
                set,
            } => self.load(array, elem, span, set),
            Task::Indexed {
                target,
                array,
                elem,
                writing,
                set,
            } => self.indexed(target, array, elem, writing, set),
            Task::Update {
                operation,
                place,
                target,
                set,
            } => self.update(operation, place, target, set),
            _ => unreachable!(),
        }
    }

    // Of several values, and of a packed call.
    fn gather(&mut self, task: Task<'a>) -> Result<(), Stop>
        requires { IsTrue (is_gathering task) }
        ensures ok { OnOk result (Comes self.old self.new (does self.old task.entry)) }
        ensures fewer { OnOk result (LeavesOf self.old self.new task.entry) }
        ensures err { IfErr result (Halts self.old self.new (does self.old task.entry)) }
    {
        match task {
            Task::Values {
                gathering,
                rest,
                done,
                set,
            } => self.one_more(gathering, rest, done, set),
            Task::Packed {
                packing,
                array,
                elem,
                span,
                set,
            } => self.packed(packing, array, elem, span, set),
            _ => unreachable!(),
        }
    }

    // Of a call.
    fn pass(&mut self, task: Task<'a>) -> Result<(), Stop>
        requires { IsTrue (is_calling task) }
        ensures ok { OnOk result (Comes self.old self.new (does self.old task.entry)) }
        ensures fewer { OnOk result (LeavesOf self.old self.new task.entry) }
        ensures err { IfErr result (Halts self.old self.new (does self.old task.entry)) }
    {
        match task {
            Task::Arguments {
                call,
                rest,
                done,
                set,
            } => self.arguments(call, rest, done, set),
            Task::Argument {
                call,
                rest,
                done,
                set,
            } => self.argument(call, rest, done, set),
            Task::Return {
                caller,
                left,
                sets,
                set,
            } => Ok(self.resume(caller, left, sets, set)),
            _ => unreachable!(),
        }
    }

    // Of a turn of a loop.
    fn take_turn(&mut self, task: Task<'a>) -> Result<(), Stop>
        requires { IsTrue (is_turn task) }
        ensures ok { OnOk result (Comes self.old self.new (does self.old task.entry)) }
        ensures fewer { OnOk result (LeavesOf self.old self.new task.entry) }
        ensures err { IfErr result (Halts self.old self.new (does self.old task.entry)) }
    {
        match task {
            Task::Test(turning) => self.test(*turning),
            Task::Tested(turning) => self.tested(*turning),
            Task::Turned(turning) => self.turned(*turning),
            _ => unreachable!(),
        }
    }

    // Of a body that runs over each of a list of sets.
    fn run_each(&mut self, task: Task<'a>) -> Result<(), Stop>
        requires { IsTrue (is_round task) }
        ensures ok { OnOk result (Comes self.old self.new (does self.old task.entry)) }
        ensures fewer { OnOk result (LeavesOf self.old self.new task.entry) }
        ensures err { IfErr result (Halts self.old self.new (does self.old task.entry)) }
    {
        match task {
            Task::Start(bounds) => self.start(bounds),
            Task::End { start, bounds } => self.end(start, bounds),
            Task::Rounds(rounds) => self.rounds(rounds),
            Task::Members(members) => self.members(members),
            Task::Unique(unique) => self.unique(unique),
            Task::Distinct(distinct) => self.distinct(distinct),
            _ => unreachable!(),
        }
    }
}
