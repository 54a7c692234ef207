//! Statements after which all of the set go on: values, calls, assignments and declarations.
ghost use Rattle.std.specs.Prelude.{◌≡◌, IfErr, OnOk};
ghost use Rattle.isp_base.specs.Sets.{flag_of};
ghost use Rattle.isp_typed.specs.Views.{item_of, place_of};
ghost use Rattle.isp_gang_run.specs.Due.{Leaves, LeavesOf, item_due, own, target_due, write_due};
ghost use Rattle.isp_gang_run.specs.Seen.{place_seen};
ghost use Rattle.isp_gang_run.specs.Tasks.{Comes, Does, Halts, declares, does, targets, writes};
ghost use Rattle.isp_gang_run.specs.declared.state.Stop.TheVariants as Stop;
ghost use Rattle.isp_gang_run.specs.declared.tasks.Task.TheVariants as Task;

use crate::places::{Place, Writing};
use crate::state::{Evaluator, Stop, checked};
use crate::tasks::{Operation, Task};
use isp_base::{Elem, Span, TrapKind, Ty};
use isp_gang_values::computed::{Computed, binary, dividing_by_zero};
use isp_gang_values::sets::Active;
use isp_typed::{ArrayVariable, TypedItem, TypedPlace, TypedSimple};

impl<'a> Evaluator<'a> {
    /// What stands before a semicolon.
    #[tactic(auto, using(crate::proofs::Leaves::memory_halts))]
    pub fn simple(&mut self, simple: &'a TypedSimple, set: Active) -> Result<(), Stop>
        ensures ok { OnOk result (Does self.old self.new (Task.Simple simple.entry set)) }
        ensures fewer { OnOk result (LeavesOf self.old self.new (Task.Simple simple.entry set)) }
        ensures err { IfErr result (Halts self.old self.new (does self.old (Task.Simple simple.entry set))) }
    {
        self.work.tick();
        match simple {
            TypedSimple::Value(x) => {
                self.both(Task::Value(x, set), Task::Forget)?;
                Ok(())
            }
            TypedSimple::Call(call) => {
                self.both(Task::Call(call, set), Task::Forget)?;
                Ok(())
            }
            TypedSimple::Assign { target, value, .. } => {
                self.target(target, Writing::Assign(value), set)
            }
            TypedSimple::Update {
                operator,
                elem,
                target,
                value,
                span,
            } => {
                let operation = Operation {
                    operator: *operator,
                    elem: *elem,
                    span: *span,
                };
                let writing = Writing::Update { operation, value };
                self.target(target, writing, set)
            }
            TypedSimple::Step {
                operator,
                elem,
                target,
                span,
            } => {
                let operation = Operation {
                    operator: *operator,
                    elem: *elem,
                    span: *span,
                };
                self.target(target, Writing::Step(operation), set)
            }
        }
    }

    // The place that is written: its index goes first.
    #[tactic(auto, using(crate::proofs::Leaves::memory_halts))]
    fn target(
        &mut self,
        target: &'a TypedPlace,
        writing: Writing<'a>,
        set: Active,
    ) -> Result<(), Stop>
        ensures ok { OnOk result (Comes self.old self.new (targets self.old writing.entry (place_of target.now) (flag_of set))) }
        ensures fewer { OnOk result (Leaves self.old self.new (own self.old target_due writing.entry (place_of target.now))) }
        ensures err { IfErr result (Halts self.old self.new (targets self.old writing.entry (place_of target.now) (flag_of set))) }
    {
        self.work.tick();
        match target {
            TypedPlace::Variable { number, ty, .. } => {
                let place = Place::Variable {
                    number: *number,
                    ty: *ty,
                };
                self.placed(target, place, writing, set)
            }
            TypedPlace::Element { array, index, .. } => {
                let after = Task::Indexed {
                    target,
                    array: *array,
                    elem: index.ty().elem,
                    writing,
                    set,
                };
                self.both(Task::Value(index, set), after)?;
                Ok(())
            }
        }
    }

    /// The index of a place was found.
    pub fn indexed(
        &mut self,
        target: &'a TypedPlace,
        array: ArrayVariable,
        elem: Elem,
        writing: Writing<'a>,
        set: Active,
    ) -> Result<(), Stop>
        ensures ok { OnOk result (Does self.old self.new (Task.Indexed target.entry array elem writing.entry set)) }
        ensures fewer { OnOk result (LeavesOf self.old self.new (Task.Indexed target.entry array elem writing.entry set)) }
        ensures err { IfErr result (Halts self.old self.new (does self.old (Task.Indexed target.entry array elem writing.entry set))) }
    {
        let place = Place::Element {
            array,
            elem,
            index: self.value,
        };
        self.placed(target, place, writing, set)
    }

    // The place is known; then comes the right side.
    #[tactic(auto, using(crate::proofs::Leaves::memory_halts, crate::proofs::Assignments::placed_assign, crate::proofs::Assignments::placed_update, crate::proofs::Assignments::placed_step, crate::proofs::Assignments::placed_step_halts))]
    fn placed(
        &mut self,
        target: &'a TypedPlace,
        place: Place,
        writing: Writing<'a>,
        set: Active,
    ) -> Result<(), Stop>
        ensures ok { OnOk result (Comes self.old self.new (writes self.old writing.entry (place_of target.now) (place_seen place) (flag_of set))) }
        ensures fewer { OnOk result (Leaves self.old self.new (own self.old write_due writing.entry)) }
        ensures err { IfErr result (Halts self.old self.new (writes self.old writing.entry (place_of target.now) (place_seen place) (flag_of set))) }
    {
        match writing {
            Writing::Assign(value) => {
                let after = Task::Assign(place, target.span(), set);
                self.both(Task::Value(value, set), after)?;
                Ok(())
            }
            Writing::Update { operation, value } => {
                let after = Task::Update {
                    operation,
                    place,
                    target,
                    set,
                };
                self.both(Task::Value(value, set), after)?;
                Ok(())
            }
            Writing::Step(operation) => {
                self.value = Computed::One(1);
                self.update(operation, place, target, set)
            }
        }
    }

    /// The right side of `=` was found.
    #[tactic(auto, using(crate::proofs::Leaves::memory_halts, crate::proofs::Assignments::assign_does, crate::proofs::Assignments::assign_halts))]
    pub fn assign(&mut self, place: Place, span: Span, set: Active) -> Result<(), Stop>
        ensures ok { OnOk result (Does self.old self.new (Task.Assign place span set)) }
        ensures fewer { OnOk result (LeavesOf self.old self.new (Task.Assign place span set)) }
        ensures err { IfErr result (Halts self.old self.new (does self.old (Task.Assign place span set))) }
    {
        checked(self.outside(&place, &set), TrapKind::Index, span)?;
        let value = self.value;
        self.keep(&place, &set, &value)?;
        self.forget();
        Ok(())
    }

    /// The right side of `op=` was found: the place is read, and the result is stored in its own type.
    #[tactic(auto, using(crate::proofs::Leaves::memory_halts, crate::proofs::Assignments::update_does, crate::proofs::Assignments::update_halts_outside, crate::proofs::Assignments::update_halts_zero))]
    pub fn update(
        &mut self,
        operation: Operation,
        place: Place,
        target: &'a TypedPlace,
        set: Active,
    ) -> Result<(), Stop>
        ensures ok { OnOk result (Does self.old self.new (Task.Update operation place target.entry set)) }
        ensures fewer { OnOk result (LeavesOf self.old self.new (Task.Update operation place target.entry set)) }
        ensures err { IfErr result (Halts self.old self.new (does self.old (Task.Update operation place target.entry set))) }
    {
        let Operation {
            operator,
            elem,
            span,
        } = operation;
        checked(self.outside(&place, &set), TrapKind::Index, target.span())?;
        let right = self.value;
        let own = target.ty().elem;
        let left = self.held(&place, &set).converted(own, elem);
        let offender = dividing_by_zero(self.gang(), operator, elem, &set, &right);
        checked(offender, TrapKind::Divide, span)?;
        let value = binary(operator, elem, &set, &left, &right).converted(elem, own);
        self.keep(&place, &set, &value)?;
        self.forget();
        Ok(())
    }

    /// Declared items, one after the other.
    #[tactic(auto, using(crate::proofs::Assignments::no_items))]
    pub fn items(&mut self, items: &'a [TypedItem], set: Active) -> Result<(), Stop>
        ensures ok { OnOk result (Does self.old self.new (Task.Items items.entry set)) }
        ensures fewer { OnOk result (LeavesOf self.old self.new (Task.Items items.entry set)) }
        ensures err { IfErr result (λ e. e ≡ Stop.Memory) }
    {
        match items {
            [] => {
                self.forget();
                Ok(())
            }
            [item, rest @ ..] => {
                self.later(Task::Items(rest, set))?;
                self.item(item, set)?;
                Ok(())
            }
        }
    }

    // A declared item: without a value it is set to 0.
    fn item(&mut self, item: &'a TypedItem, set: Active) -> Result<(), Stop>
        ensures ok { OnOk result (Comes self.old self.new (declares self.old (item_of item.now) (flag_of set))) }
        ensures fewer { OnOk result (Leaves self.old self.new (own self.old item_due (item_of item.now))) }
        ensures err { IfErr result (λ e. e ≡ Stop.Memory) }
    {
        self.work.tick();
        match item {
            TypedItem::Plain { number, ty, .. } => {
                self.write(*number, ty.rate, &set, &Computed::One(0))?;
                self.forget();
                Ok(())
            }
            TypedItem::Value {
                number,
                ty,
                value,
                ..
            } => {
                let after = Task::Declared {
                    number: *number,
                    ty: *ty,
                    set,
                };
                self.both(Task::Value(value, set), after)?;
                Ok(())
            }
            TypedItem::Array { array, .. } => {
                self.clear(*array, &set);
                self.forget();
                Ok(())
            }
        }
    }

    /// The initial value was found.
    #[tactic(auto, using(crate::proofs::Assignments::declared_does))]
    pub fn declared(&mut self, number: usize, ty: Ty, set: Active) -> Result<(), Stop>
        ensures ok { OnOk result (Does self.old self.new (Task.Declared number ty set)) }
        ensures fewer { OnOk result (LeavesOf self.old self.new (Task.Declared number ty set)) }
        ensures err { IfErr result (λ e. e ≡ Stop.Memory) }
    {
        let value = self.value;
        self.write(number, ty.rate, &set, &value)?;
        self.forget();
        Ok(())
    }
}
