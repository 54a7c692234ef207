//! What expressions give: the parts of a node come before what is done with them.
ghost use Rattle.std.specs.Prelude.{◌≡◌, IfErr, IsTrue, OnOk};
ghost use Rattle.isp_base.specs.Sets.{flag_of};
ghost use Rattle.isp_base.specs.declared.trap.Trap.{Trap};
ghost use Rattle.isp_typed.specs.Views.{expr_of, place_of};
ghost use Rattle.isp_typed.specs.Typed.{t_place};
ghost use Rattle.isp_gang_run.specs.Due.{Leaves, LeavesOf, WaitBoth, own, value_due};
ghost use Rattle.isp_gang_run.specs.Tasks.{Comes, Does, FirstValue, Halts, Reaches, Traps, does, finds};
ghost use Rattle.isp_gang_run.specs.reader.Kinds.{has_one, has_sides, has_two, is_library};
ghost use Rattle.isp_gang_run.specs.declared.tasks.Joining.TheVariants as Joining;
ghost use Rattle.isp_gang_run.specs.declared.state.Stop.TheVariants as Stop;
ghost use Rattle.isp_gang_run.specs.declared.tasks.Task.TheVariants as Task;

use crate::places::Place;
use crate::state::{Evaluator, Stop, checked};
use crate::tasks::{Gathering, Joining, Operation, Packing, Task};
use isp_base::{Compare, Elem, Span, TrapKind, UnaryOp, low_bits};
use isp_gang_values::computed::{
    Computed, binary, compared, dividing_by_zero, needing, numbers, selected, settled,
};
use isp_gang_values::sets::{Active, any};
use isp_typed::{ArrayVariable, Logic, TypedExpr, TypedPlace};

impl<'a> Evaluator<'a> {
    /// An expression over a set.
    #[tactic(auto, using(crate::proofs::Leaves::memory_halts))]
    pub fn value(&mut self, x: &'a TypedExpr, set: Active) -> Result<(), Stop>
        ensures ok { OnOk result (Does self.old self.new (Task.Value x.entry set)) }
        ensures fewer { OnOk result (LeavesOf self.old self.new (Task.Value x.entry set)) }
        ensures err { IfErr result (Halts self.old self.new (does self.old (Task.Value x.entry set))) }
    {
        match x {
            TypedExpr::Constant { value, .. } => {
                self.work.tick();
                self.value = Computed::One(low_bits(value.elem, value.bits));
                Ok(())
            }
            TypedExpr::ProgramIndex { .. } => {
                self.work.tick();
                self.value = numbers(&set);
                Ok(())
            }
            TypedExpr::Place(place) => self.place(place, set),
            TypedExpr::Convert { .. } | TypedExpr::Cast { .. } | TypedExpr::Unary { .. } => {
                self.of_one(x, set)
            }
            TypedExpr::Binary { .. } | TypedExpr::Compare { .. } => self.of_two(x, set),
            TypedExpr::Logic { .. } | TypedExpr::Choose { .. } => self.of_sides(x, set),
            TypedExpr::Call { call, .. } => self.later(Task::Call(call, set)),
            TypedExpr::Library { .. }
            | TypedExpr::PackedStore { .. }
            | TypedExpr::PackedLoad { .. } => self.of_library(x, set),
        }
    }

    // One with one operand.
    #[tactic(auto, using(crate::proofs::Leaves::memory_halts))]
    fn of_one(&mut self, x: &'a TypedExpr, set: Active) -> Result<(), Stop>
        requires { IsTrue (has_one (expr_of x.now)) }
        ensures ok { OnOk result (Does self.old self.new (Task.Value x.entry set)) }
        ensures fewer { OnOk result (LeavesOf self.old self.new (Task.Value x.entry set)) }
        ensures err { IfErr result (Halts self.old self.new (does self.old (Task.Value x.entry set))) }
    {
        match x {
            TypedExpr::Convert { elem, operand } => {
                let after = Task::Convert {
                    from: operand.ty().elem,
                    to: *elem,
                };
                self.both(Task::Value(operand, set), after)
            }
            TypedExpr::Cast { operand, .. } => {
                self.work.tick();
                self.later(Task::Value(operand, set))
            }
            TypedExpr::Unary {
                operator,
                operand,
                ty,
                ..
            } => self.reach(operand, set, Task::Unary(*operator, ty.elem)),
            _ => unreachable!(),
        }
    }

    // One with two operands: the left one comes first.
    #[tactic(auto, using(crate::proofs::Leaves::memory_halts))]
    fn of_two(&mut self, x: &'a TypedExpr, set: Active) -> Result<(), Stop>
        requires { IsTrue (has_two (expr_of x.now)) }
        ensures ok { OnOk result (Does self.old self.new (Task.Value x.entry set)) }
        ensures fewer { OnOk result (LeavesOf self.old self.new (Task.Value x.entry set)) }
        ensures err { IfErr result (Halts self.old self.new (does self.old (Task.Value x.entry set))) }
    {
        match x {
            TypedExpr::Binary {
                operator,
                left,
                right,
                ty,
                span,
            } => {
                let joining = Joining::Operate(Operation {
                    operator: *operator,
                    elem: ty.elem,
                    span: *span,
                });
                self.reach(left, set, Task::Right(joining, right, set))
            }
            TypedExpr::Compare {
                comparison,
                left,
                right,
                ..
            } => {
                let joining = Joining::Compare(*comparison, left.ty().elem);
                self.reach(left, set, Task::Right(joining, right, set))
            }
            _ => unreachable!(),
        }
    }

    // One whose first part says which members need the others.
    #[tactic(auto, using(crate::proofs::Leaves::memory_halts))]
    fn of_sides(&mut self, x: &'a TypedExpr, set: Active) -> Result<(), Stop>
        requires { IsTrue (has_sides (expr_of x.now)) }
        ensures ok { OnOk result (Does self.old self.new (Task.Value x.entry set)) }
        ensures fewer { OnOk result (LeavesOf self.old self.new (Task.Value x.entry set)) }
        ensures err { IfErr result (Halts self.old self.new (does self.old (Task.Value x.entry set))) }
    {
        match x {
            TypedExpr::Logic {
                logic,
                left,
                right,
                ..
            } => self.reach(left, set, Task::Logic(*logic, right, set)),
            TypedExpr::Choose {
                test,
                then,
                otherwise,
                ..
            } => {
                let after = Task::Choose {
                    then,
                    otherwise,
                    set,
                };
                self.reach(test, set, after)
            }
            _ => unreachable!(),
        }
    }

    // A call of the library, a packed one among them.
    #[tactic(auto, using(crate::proofs::Leaves::memory_halts))]
    fn of_library(&mut self, x: &'a TypedExpr, set: Active) -> Result<(), Stop>
        requires { IsTrue (is_library (expr_of x.now)) }
        ensures ok { OnOk result (Does self.old self.new (Task.Value x.entry set)) }
        ensures fewer { OnOk result (LeavesOf self.old self.new (Task.Value x.entry set)) }
        ensures err { IfErr result (Halts self.old self.new (does self.old (Task.Value x.entry set))) }
    {
        match x {
            TypedExpr::Library {
                function,
                elem,
                values,
                ..
            } => {
                let gathering = Gathering::Library(*function, *elem);
                let done = Vec::new(self.alloc);
                self.work.tick();
                self.values(gathering, values.as_slice(), done, set)
            }
            TypedExpr::PackedStore { base, value, span } => {
                self.work.tick();
                self.base(Packing::Store(value), base, *span, set)
            }
            TypedExpr::PackedLoad {
                base,
                variable,
                span,
            } => {
                self.work.tick();
                self.base(Packing::Load(*variable), base, *span, set)
            }
            _ => unreachable!(),
        }
    }

    // What is held at a place.
    fn place(&mut self, place: &'a TypedPlace, set: Active) -> Result<(), Stop>
        ensures ok { OnOk result (Comes self.old self.new (finds self.old (t_place (place_of place.now)) (flag_of set))) }
        ensures fewer { OnOk result (Leaves self.old self.new (own self.old value_due (t_place (place_of place.now)))) }
        ensures err { IfErr result (λ e. e ≡ Stop.Memory) }
    {
        self.work.tick();
        match place {
            TypedPlace::Variable { number, ty, .. } => {
                let place = Place::Variable {
                    number: *number,
                    ty: *ty,
                };
                self.value = self.held(&place, &set);
                Ok(())
            }
            TypedPlace::Element {
                array,
                index,
                span,
                ..
            } => {
                let after = Task::Load {
                    array: *array,
                    elem: index.ty().elem,
                    span: *span,
                    set,
                };
                self.both(Task::Value(index, set), after)?;
                Ok(())
            }
        }
    }

    /// The element at the index that was found.
    #[tactic(auto, using(crate::proofs::Leaves::load_does, crate::proofs::Leaves::load_traps))]
    pub fn load(
        &mut self,
        array: ArrayVariable,
        elem: Elem,
        span: Span,
        set: Active,
    ) -> Result<(), Stop>
        ensures ok { OnOk result (Does self.old self.new (Task.Load array elem span set)) }
        ensures fewer { OnOk result (LeavesOf self.old self.new (Task.Load array elem span set)) }
        ensures err { IfErr result (λ e. (t : Trap) × (e ≡ Stop.Trapped t) × Traps self.old self.new (Task.Load array elem span set) t) }
    {
        let place = Place::Element {
            array,
            elem,
            index: self.value,
        };
        checked(self.outside(&place, &set), TrapKind::Index, span)?;
        self.value = self.held(&place, &set);
        Ok(())
    }

    // A node counts: its first operand comes first, and then a task.
    fn reach(&mut self, first: &'a TypedExpr, set: Active, after: Task<'a>) -> Result<(), Stop>
        ensures ok { OnOk result (Reaches self.old self.new (Task.Value first.entry set) after.entry) }
        ensures fewer { OnOk result (WaitBoth self.old self.new (Task.Value first.entry set) after.entry) }
        ensures err { IfErr result (λ e. e ≡ Stop.Memory) }
    {
        self.work.tick();
        self.both(Task::Value(first, set), after)?;
        Ok(())
    }

    /// The right one of two operands.
    #[tactic(auto, using(crate::proofs::Nodes::right_does))]
    pub fn right(&mut self, joining: Joining, right: &'a TypedExpr, set: Active) -> Result<(), Stop>
        ensures ok { OnOk result (Does self.old self.new (Task.Right joining right.entry set)) }
        ensures fewer { OnOk result (LeavesOf self.old self.new (Task.Right joining right.entry set)) }
        ensures err { IfErr result (λ e. e ≡ Stop.Memory) }
    {
        let left = self.value;
        self.both(Task::Value(right, set), Task::Join(joining, left, set))?;
        Ok(())
    }

    /// The operator, both operands being found.
    pub fn join(&mut self, joining: Joining, left: Computed, set: Active) -> Result<(), Stop>
        ensures ok { OnOk result (Does self.old self.new (Task.Join joining left set)) }
        ensures fewer { OnOk result (LeavesOf self.old self.new (Task.Join joining left set)) }
        ensures err { IfErr result (λ e. (t : Trap) × (e ≡ Stop.Trapped t) × Traps self.old self.new (Task.Join joining left set) t) }
    {
        match joining {
            Joining::Operate(operation) => self.operate(operation, left, set),
            Joining::Compare(comparison, elem) => {
                self.compare(comparison, elem, left, set);
                Ok(())
            }
        }
    }

    // An operator, both operands being found.
    #[tactic(auto, using(crate::proofs::Nodes::operate_does, crate::proofs::Nodes::operate_traps))]
    fn operate(&mut self, operation: Operation, left: Computed, set: Active) -> Result<(), Stop>
        ensures ok { OnOk result (Does self.old self.new (Task.Join (Joining.Operate operation) left set)) }
        ensures fewer { OnOk result (Leaves self.old self.new 0) }
        ensures err { IfErr result (λ e. (t : Trap) × (e ≡ Stop.Trapped t)
            × Traps self.old self.new (Task.Join (Joining.Operate operation) left set) t) }
    {
        let Operation {
            operator,
            elem,
            span,
        } = operation;
        let offender = dividing_by_zero(self.gang(), operator, elem, &set, &self.value);
        checked(offender, TrapKind::Divide, span)?;
        self.value = binary(operator, elem, &set, &left, &self.value);
        Ok(())
    }

    // A comparison, both operands being found.
    #[tactic(auto, using(crate::proofs::Nodes::compare_does))]
    fn compare(&mut self, comparison: Compare, elem: Elem, left: Computed, set: Active)
        ensures comes { Does self.old self.new (Task.Join (Joining.Compare comparison elem) left set) }
        ensures fewer { Leaves self.old self.new 0 }
    {
        self.value = compared(comparison, elem, &set, &left, &self.value);
    }

    // An expression over a set that may be empty, and then a task.
    #[tactic(auto, using(crate::proofs::Nodes::some_value, crate::proofs::Nodes::no_value))]
    fn unless_empty(&mut self, x: &'a TypedExpr, set: Active, after: Task<'a>) -> Result<(), Stop>
        ensures ok { OnOk result (FirstValue self.old self.new (expr_of x.now) (flag_of set) after.entry) }
        ensures fewer { OnOk result (WaitBoth self.old self.new (Task.Value x.entry set) after.entry) }
        ensures err { IfErr result (λ e. e ≡ Stop.Memory) }
    {
        if any(self.gang(), &set) {
            self.both(Task::Value(x, set), after)?;
        } else {
            self.later(after)?;
            self.value = Computed::nothing();
        }
        Ok(())
    }

    /// The right operand of `&&` or `||`, over the members that need it.
    #[tactic(auto, using(crate::proofs::Nodes::logic_does))]
    pub fn logic(&mut self, logic: Logic, right: &'a TypedExpr, set: Active) -> Result<(), Stop>
        ensures ok { OnOk result (Does self.old self.new (Task.Logic logic right.entry set)) }
        ensures fewer { OnOk result (LeavesOf self.old self.new (Task.Logic logic right.entry set)) }
        ensures err { IfErr result (λ e. e ≡ Stop.Memory) }
    {
        let left = self.value;
        let needed = needing(logic, &set, &left);
        self.unless_empty(right, needed, Task::Settle(logic, left, set))?;
        Ok(())
    }

    /// `&&` or `||`, both operands being found.
    #[tactic(auto, using(crate::proofs::Nodes::settle_does))]
    pub fn settle(&mut self, logic: Logic, left: Computed, set: Active)
        ensures comes { Does self.old self.new (Task.Settle logic left set) }
        ensures fewer { LeavesOf self.old self.new (Task.Settle logic left set) }
    {
        self.value = settled(logic, &set, &left, &self.value);
    }

    /// The first value of `?:`, over the members whose test is true.
    #[tactic(auto, using(crate::proofs::Nodes::choose_does))]
    pub fn choose(
        &mut self,
        then: &'a TypedExpr,
        otherwise: &'a TypedExpr,
        set: Active,
    ) -> Result<(), Stop>
        ensures ok { OnOk result (Does self.old self.new (Task.Choose then.entry otherwise.entry set)) }
        ensures fewer { OnOk result (LeavesOf self.old self.new (Task.Choose then.entry otherwise.entry set)) }
        ensures err { IfErr result (λ e. e ≡ Stop.Memory) }
    {
        let test = self.value;
        let chosen = test.members(true, &set);
        let after = Task::Otherwise {
            test,
            otherwise,
            set,
        };
        self.unless_empty(then, chosen, after)?;
        Ok(())
    }

    /// The second value of `?:`, over the members whose test is false.
    #[tactic(auto, using(crate::proofs::Nodes::otherwise_does))]
    pub fn otherwise(
        &mut self,
        test: Computed,
        otherwise: &'a TypedExpr,
        set: Active,
    ) -> Result<(), Stop>
        ensures ok { OnOk result (Does self.old self.new (Task.Otherwise test otherwise.entry set)) }
        ensures fewer { OnOk result (LeavesOf self.old self.new (Task.Otherwise test otherwise.entry set)) }
        ensures err { IfErr result (λ e. e ≡ Stop.Memory) }
    {
        let then = self.value;
        let others = test.members(false, &set);
        self.unless_empty(otherwise, others, Task::Select { test, then, set })?;
        Ok(())
    }

    /// `?:`, all being found.
    #[tactic(auto, using(crate::proofs::Nodes::select_does))]
    pub fn select(&mut self, test: Computed, then: Computed, set: Active)
        ensures comes { Does self.old self.new (Task.Select test then set) }
        ensures fewer { LeavesOf self.old self.new (Task.Select test then set) }
    {
        self.value = selected(&set, &test, &then, &self.value);
    }

    /// The value converted to another element type.
    #[tactic(auto, using(crate::proofs::Nodes::convert_does))]
    pub fn convert(&mut self, from: Elem, to: Elem)
        ensures comes { Does self.old self.new (Task.Convert from to) }
        ensures fewer { LeavesOf self.old self.new (Task.Convert from to) }
    {
        self.value = self.value.converted(from, to);
    }

    /// An operator on the value.
    #[tactic(auto, using(crate::proofs::Nodes::unary_does))]
    pub fn unary(&mut self, operator: UnaryOp, elem: Elem)
        ensures comes { Does self.old self.new (Task.Unary operator elem) }
        ensures fewer { LeavesOf self.old self.new (Task.Unary operator elem) }
    {
        self.value = self.value.unary(operator, elem);
    }
}
