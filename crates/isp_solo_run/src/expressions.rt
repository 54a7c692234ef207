//! What expressions give: the parts of a node come before what is done with them.
ghost use Rattle.std.specs.Prelude.{◌≡◌};
ghost use Rattle.isp_base.specs.Access as Access;
ghost use Rattle.isp_meaning.specs.Expressions as Expressions;
ghost use Rattle.isp_typed.specs.Views.{exprs_of};
ghost use Rattle.isp_solo_run.specs.Tasks.{DoesTask, Gathers};
ghost use Rattle.isp_solo_run.specs.declared.tasks.Task.TheVariants as Task;

use crate::library::by_instance;
use crate::state::{Single, Stop};
use crate::tasks::{Gathering, Joining, Task};
use isp_base::{BinOp, Elem, TrapKind, compare, low_bits};
use isp_gang_values::row::operated;
use isp_typed::{Logic, TypedExpr};

impl<'a> Single<'a> {
    /// An expression.
    pub fn value(&mut self, x: &'a TypedExpr) -> Result<(), Stop>
        ensures { DoesTask result self.old self.new (Task.Value x.entry) }
    {
        match x {
            TypedExpr::Constant { value, .. } => self.give(low_bits(value.elem, value.bits)),
            TypedExpr::ProgramIndex { .. } => self.give(self.setting.instance as u64),
            TypedExpr::Place(place) => self.place(place),
            TypedExpr::Convert { elem, operand } => {
                let after = Task::Convert {
                    from: operand.ty().elem,
                    to: *elem,
                };
                self.both(Task::Value(operand), after)
            }
            TypedExpr::Cast { operand, .. } => self.later(Task::Value(operand)),
            TypedExpr::Unary {
                operator,
                operand,
                ty,
                ..
            } => {
                let after = Task::Unary {
                    operator: *operator,
                    elem: ty.elem,
                };
                self.both(Task::Value(operand), after)
            }
            TypedExpr::Binary {
                operator,
                left,
                right,
                ty,
                span,
            } => {
                let joining = Joining::Operate {
                    operator: *operator,
                    elem: ty.elem,
                    span: *span,
                };
                self.both(Task::Value(left), Task::Right { joining, right })
            }
            TypedExpr::Compare {
                comparison,
                left,
                right,
                ..
            } => {
                let joining = Joining::Compare {
                    comparison: *comparison,
                    elem: left.ty().elem,
                };
                self.both(Task::Value(left), Task::Right { joining, right })
            }
            TypedExpr::Logic {
                logic,
                left,
                right,
                ..
            } => {
                let after = Task::Logic {
                    logic: *logic,
                    right,
                };
                self.both(Task::Value(left), after)
            }
            TypedExpr::Choose {
                test,
                then,
                otherwise,
                ..
            } => self.both(Task::Value(test), Task::Choose { then, otherwise }),
            TypedExpr::Call { call, .. } => self.call(call),
            TypedExpr::Library {
                function,
                elem,
                values,
                ..
            } => {
                let gathering = Gathering::Library {
                    function: *function,
                    elem: *elem,
                };
                self.values(gathering, values.as_slice(), Vec::new(self.alloc))
            }
            TypedExpr::PackedStore { .. } => self.give(0),
            TypedExpr::PackedLoad { .. } => self.give(0),
        }
    }

    /// The right one of two operands.
    #[tactic(auto)]
    pub fn right(&mut self, joining: Joining, right: &'a TypedExpr) -> Result<(), Stop>
        ensures { DoesTask result self.old self.new (Task.Right joining right.entry) }
    {
        let left = self.value;
        self.both(Task::Value(right), Task::Join { joining, left })
    }

    /// The operator, both operands being found.
    pub fn join(&mut self, joining: Joining, left: u64) -> Result<(), Stop>
        ensures { DoesTask result self.old self.new (Task.Join joining left) }
    {
        let right = self.value;
        match joining {
            Joining::Operate {
                operator,
                elem,
                span,
            } => {
                if is_zero(operator, elem, right) {
                    Err(self.trap(TrapKind::Divide, span))
                } else {
                    self.give(operated(operator, elem, left, right))
                }
            }
            Joining::Compare { comparison, elem } => {
                self.give(u64::from(compare(comparison, elem, left, right)))
            }
        }
    }

    /// The right operand of `&&` or `||`, where it is needed.
    pub fn logic(&mut self, logic: Logic, right: &'a TypedExpr) -> Result<(), Stop>
        ensures { DoesTask result self.old self.new (Task.Logic logic right.entry) }
    {
        if needed(logic, self.value) {
            self.later(Task::Value(right))
        } else {
            self.give(self.value)
        }
    }

    /// The value of `?:` that the test chooses.
    pub fn choose(&mut self, then: &'a TypedExpr, otherwise: &'a TypedExpr) -> Result<(), Stop>
        ensures { DoesTask result self.old self.new (Task.Choose then.entry otherwise.entry) }
    {
        if self.value != 0 {
            self.later(Task::Value(then))
        } else {
            self.later(Task::Value(otherwise))
        }
    }

    /// The values that are left, and then what is done with all.
    pub fn values(
        &mut self,
        gathering: Gathering,
        rest: &'a [TypedExpr],
        done: Vec<u64>,
    ) -> Result<(), Stop>
        ensures { Gathers result self.old self.new gathering (exprs_of rest.now) done.items }
    {
        match rest {
            [] => match gathering {
                Gathering::Library { function, elem } => {
                    self.give(by_instance(function, elem, done.as_slice()))
                }
                Gathering::Print => self.give(0),
            },
            [x, rest @ ..] => {
                let after = Task::Values {
                    gathering,
                    rest,
                    done,
                };
                self.both(Task::Value(x), after)
            }
        }
    }

    /// One of several values was found.
    pub fn one_more(
        &mut self,
        gathering: Gathering,
        rest: &'a [TypedExpr],
        mut done: Vec<u64>,
    ) -> Result<(), Stop>
        ensures { DoesTask result self.old self.new (Task.Values gathering rest.entry done) }
    {
        match done.push(self.value) {
            Ok(()) => self.values(gathering, rest, done),
            Err(_) => Err(Stop::Memory),
        }
    }
}

// Whether a left value leaves the right operand to be taken.
fn needed(logic: Logic, bits: u64) -> bool
    ensures { result ≡ Expressions.needs logic bits }
{
    match logic {
        Logic::And => bits != 0,
        Logic::Or => bits == 0,
    }
}

/// Whether an operator would divide by zero.
pub fn is_zero(operator: BinOp, elem: Elem, divisor: u64) -> bool
    ensures { result ≡ Access.is_zero operator elem divisor }
{
    operator.divides() && low_bits(elem, divisor) == 0
}
