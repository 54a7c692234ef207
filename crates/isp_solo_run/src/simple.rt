//! Statements after which the instance goes on: values, calls, assignments and declarations.
ghost use Rattle.isp_typed.specs.Views.{item_of, place_of};
ghost use Rattle.isp_solo_run.specs.Seen.{spot_seen};
ghost use Rattle.isp_solo_run.specs.Tasks.{Declares, DoesTask, FindsValue, Targets, Tells, Writes, loads, updates};
ghost use Rattle.isp_typed.specs.Typed.{t_place};
ghost use Rattle.isp_solo_run.specs.declared.tasks.Task.TheVariants as Task;

use crate::expressions::is_zero;
use crate::places::{Place, Writing};
use crate::state::{Single, Stop};
use crate::tasks::Task;
use isp_base::{BinOp, Elem, Span, TrapKind, Ty, convert};
use isp_gang_values::row::operated;
use isp_typed::{TypedItem, TypedPlace, TypedSimple};

impl<'a> Single<'a> {
    /// What is held at a place, as an expression.
    pub fn place(&mut self, place: &'a TypedPlace) -> Result<(), Stop>
        ensures { FindsValue result self.old self.new (t_place (place_of place.now)) }
    {
        match place {
            TypedPlace::Variable { number, ty, span } => {
                let place = Place::Variable {
                    number: *number,
                    ty: *ty,
                };
                self.load(&place, *span)
            }
            TypedPlace::Element {
                array,
                index,
                span,
                ..
            } => {
                let after = Task::Load {
                    array: *array,
                    elem: index.ty().elem,
                    span: *span,
                };
                self.both(Task::Value(index), after)
            }
        }
    }

    /// What is held at a place that is known.
    pub fn load(&mut self, place: &Place, span: Span) -> Result<(), Stop>
        ensures { Tells result self.old self.new (loads self.old span (spot_seen place.now)) 0 }
    {
        match self.hold(place, span) {
            Ok(bits) => self.give(bits),
            Err(stop) => Err(stop),
        }
    }

    /// What stands before a semicolon.
    pub fn simple(&mut self, simple: &'a TypedSimple) -> Result<(), Stop>
        ensures { DoesTask result self.old self.new (Task.Simple simple.entry) }
    {
        match simple {
            TypedSimple::Value(x) => self.both(Task::Value(x), Task::Go),
            TypedSimple::Call(call) => self.call_and_go(call),
            TypedSimple::Assign { target, value, .. } => {
                self.target(target, Writing::Assign(value))
            }
            TypedSimple::Update {
                operator,
                elem,
                target,
                value,
                span,
            } => {
                let writing = Writing::Update {
                    operator: *operator,
                    elem: *elem,
                    value,
                    span: *span,
                };
                self.target(target, writing)
            }
            TypedSimple::Step {
                operator,
                elem,
                target,
                span,
            } => {
                let writing = Writing::Step {
                    operator: *operator,
                    elem: *elem,
                    span: *span,
                };
                self.target(target, writing)
            }
        }
    }

    // The place that is written: its index goes first.
    fn target(&mut self, target: &'a TypedPlace, writing: Writing<'a>) -> Result<(), Stop>
        ensures { Targets result self.old self.new writing.entry (place_of target.now) }
    {
        match target {
            TypedPlace::Variable { number, ty, .. } => {
                let place = Place::Variable {
                    number: *number,
                    ty: *ty,
                };
                self.placed(target, place, writing)
            }
            TypedPlace::Element { array, index, .. } => {
                let after = Task::Indexed {
                    target,
                    array: *array,
                    elem: index.ty().elem,
                    writing,
                };
                self.both(Task::Value(index), after)
            }
        }
    }

    /// The place is known; then comes the right side.
    pub fn placed(
        &mut self,
        target: &'a TypedPlace,
        place: Place,
        writing: Writing<'a>,
    ) -> Result<(), Stop>
        ensures { Writes result self.old self.new writing.entry (place_of target.now) (spot_seen place) }
    {
        match writing {
            Writing::Assign(value) => {
                let after = Task::Assign {
                    place,
                    span: target.span(),
                };
                self.both(Task::Value(value), after)
            }
            Writing::Update {
                operator,
                elem,
                value,
                span,
            } => {
                let after = Task::Update {
                    operator,
                    elem,
                    place,
                    target,
                    span,
                };
                self.both(Task::Value(value), after)
            }
            Writing::Step {
                operator,
                elem,
                span,
            } => self.update(operator, elem, place, target, span, 1),
        }
    }

    /// The right side of `=` was found.
    pub fn assign(&mut self, place: Place, span: Span) -> Result<(), Stop>
        ensures { DoesTask result self.old self.new (Task.Assign place span) }
    {
        if self.is_outside(&place) {
            return Err(self.trap(TrapKind::Index, span));
        }
        match self.keep(&place, self.value) {
            Ok(()) => self.go_on(),
            Err(_) => Err(Stop::Memory),
        }
    }

    /// The right side of `op=` was found: the place is read, and the result is stored in its own type.
    pub fn update(
        &mut self,
        operator: BinOp,
        elem: Elem,
        place: Place,
        target: &'a TypedPlace,
        span: Span,
        right: u64,
    ) -> Result<(), Stop>
        ensures { Tells result self.old self.new (updates self.old operator elem (place_of target.now) (spot_seen place) right span) 0 }
    {
        let own = target.ty().elem;
        let held = match self.hold(&place, target.span()) {
            Ok(bits) => bits,
            Err(stop) => return Err(stop),
        };
        if is_zero(operator, elem, right) {
            return Err(self.trap(TrapKind::Divide, span));
        }
        let bits = operated(operator, elem, convert(own, elem, held), right);
        match self.keep(&place, convert(elem, own, bits)) {
            Ok(()) => self.go_on(),
            Err(_) => Err(Stop::Memory),
        }
    }

    /// Declared items, one after the other.
    pub fn items(&mut self, items: &'a [TypedItem]) -> Result<(), Stop>
        ensures { DoesTask result self.old self.new (Task.Items items.entry) }
    {
        match items {
            [] => self.go_on(),
            [item, rest @ ..] => match self.push(Task::Items(rest)) {
                Ok(()) => self.item(item),
                Err(_) => Err(Stop::Memory),
            },
        }
    }

    // A declared item: without a value it is set to 0.
    fn item(&mut self, item: &'a TypedItem) -> Result<(), Stop>
        ensures { Declares result self.old self.new (item_of item.now) }
    {
        match item {
            TypedItem::Plain { number, ty, .. } => match self.write(*number, ty.rate, 0) {
                Ok(()) => self.go_on(),
                Err(_) => Err(Stop::Memory),
            },
            TypedItem::Value {
                number,
                ty,
                value,
                ..
            } => {
                let after = Task::Declared {
                    number: *number,
                    ty: *ty,
                };
                self.both(Task::Value(value), after)
            }
            TypedItem::Array { array, .. } => match self.clear(*array) {
                Ok(()) => self.go_on(),
                Err(_) => Err(Stop::Memory),
            },
        }
    }

    /// The initial value was found.
    pub fn declared(&mut self, number: usize, ty: Ty) -> Result<(), Stop>
        ensures { DoesTask result self.old self.new (Task.Declared number ty) }
    {
        match self.write(number, ty.rate, self.value) {
            Ok(()) => self.go_on(),
            Err(_) => Err(Stop::Memory),
        }
    }
}
