//! The registers that code asks for, before it is written.
ghost use Rattle.std.specs.Prelude.{◌≡◌, ◌<◌, ◌+◌, max, OnOk};
ghost use Rattle.isp_base.specs.Ranks.{same_elem};
ghost use Rattle.isp_base.specs.declared.types.Elem.TheVariants.{I64};
ghost use Rattle.isp_base.specs.declared.types.Rate.TheVariants.{Uniform, Varying};
ghost use Rattle.isp_typed.specs.Typed.{t_arguments, t_exprs, type_of};
ghost use Rattle.isp_typed.specs.Views.{argument_of, arguments_of, base_of, call_of, expr_of, exprs_of, item_of, items_of, place_of, simple_of};
ghost use Rattle.isp_lower_code.specs.Asks.{Both, Loads, MaskOf, Number, Register, argument_asks, arguments_asks, assign_asks, base_asks, call_asks, change_asks, copy_asks, element_asks, expr_asks, index_asks, item_asks, items_asks, lift_asks, one_asks, operand_asks, operands_asks, place_asks, read_asks, run_asks, sides_ask, spare_ask, start_asks, step_asks, target_asks, test_asks, update_asks, value_asks, values_asks, work_asks, zero_asks, beyond, first_slot, simple_asks};
ghost use Rattle.isp_lower_code.specs.Library.{library_rates};
ghost use Rattle.isp_lower_code.specs.Rows.{Place};
ghost use Rattle.isp_lower_code.specs.Room.{HasNumbers};
ghost use Rattle.isp_registers.specs.Reserved.{Gives, choice_asks, logic_asks, packed_load_asks, packed_store_asks};

use crate::numbered::{MaskNumber, Slot};
use crate::rates::value_rate;
use crate::registers::Registers;
use isp_base::{Elem, Rate, Ty};
use isp_typed::{
    Library, TypedArgument, TypedBase, TypedCall, TypedExpr, TypedItem, TypedPlace, TypedSimple,
};
use std::alloc::AllocError;

/// The registers of a function so far, and how many masks it has. Its variables and what it gives back have registers from its
/// beginning ([begin](crate::begin)), so a walk reserves spare registers and masks alone.
#[derive(Drop)]
pub struct Reserve {
    pub registers: Registers,
    pub masks: u32,
}

impl Reserve {
    /// A register of a slot for values of a type.
    pub fn spare(&mut self, rate: Rate, elem: Elem, slot: Slot) -> Result<(), AllocError>
        ensures { OnOk result (Gives self.old self.new (spare_ask rate elem slot.number)) }
    {
        self.registers.spare(rate, elem, slot)?;
        Ok(())
    }

    /// A register that a variable is copied to where it is read, if it is varying.
    fn copy(&mut self, ty: Ty, slot: Slot) -> Result<(), AllocError>
        ensures { OnOk result (Gives self.old self.new (copy_asks ty.rate ty.elem slot.number)) }
    {
        match ty.rate {
            Rate::Uniform => Ok(()),
            Rate::Varying => self.spare(Rate::Varying, ty.elem, slot),
        }
    }

    /// A packed load writes a variable.
    fn loaded(&mut self, number: usize) -> Result<(), AllocError>
        ensures { OnOk result (Gives self.old self.new (Loads number)) }
    {
        self.registers.load(number)?;
        Ok(())
    }

    /// The mask register of a slot.
    pub fn mask(&mut self, slot: Slot)
        requires { HasNumbers (MaskOf slot.number) }
        ensures { Gives self.old self.new (MaskOf slot.number) }
    {
        if self.masks <= slot.number {
            self.masks = slot.next().number;
        }
    }

    /// One more mask, and its number: this one at least.
    pub fn fresh_mask_from(&mut self, number: usize) -> MaskNumber
        requires { max self.old.masks number < 4294967295 }
        ensures number { result.number ≡ max self.old.masks number }
        ensures added { self.new ≡ record self.old { masks = max self.old.masks number + 1 } }
    {
        let slot = Slot {
            number: self.masks.max(number as u32),
        };
        self.masks = slot.next().number;
        slot.mask()
    }

    /// The number of the next slot.
    pub fn next(&mut self, slot: Slot) -> Slot
        requires { HasNumbers (Number (slot.number + 1)) }
        ensures number { result.number ≡ slot.number + 1 }
        ensures gives { Gives self.old self.new (Number result.number) }
    {
        slot.next()
    }

    /// A register for a uniform value that a varying one is made of.
    fn lift(&mut self, wanted: Rate, given: Rate, elem: Elem, slot: Slot) -> Result<(), AllocError>
        ensures { OnOk result (Gives self.old self.new (lift_asks wanted given elem slot.number)) }
    {
        match (wanted, given) {
            (Rate::Varying, Rate::Uniform) => self.spare(Rate::Varying, elem, slot),
            _ => Ok(()),
        }
    }

    /// A mask for those that pass a varying test.
    pub fn test(&mut self, rate: Rate, slot: Slot)
        requires { HasNumbers (test_asks rate slot.number) }
        ensures { Gives self.old self.new (test_asks rate slot.number) }
    {
        match rate {
            Rate::Uniform => (),
            Rate::Varying => self.mask(slot),
        }
    }

    /// Masks for those that pass a varying test, and for the others.
    fn both_sides(&mut self, slot: Slot)
        requires { HasNumbers (sides_ask Varying slot.number) }
        ensures { Gives self.old self.new (sides_ask Varying slot.number) }
    {
        let next = self.next(slot);
        self.next(next);
        self.mask(slot);
        self.mask(next);
    }

    fn sides(&mut self, rate: Rate, slot: Slot)
        requires { HasNumbers (sides_ask rate slot.number) }
        ensures { Gives self.old self.new (sides_ask rate slot.number) }
    {
        match rate {
            Rate::Uniform => (),
            Rate::Varying => self.both_sides(slot),
        }
    }

    /// What the code of an expression asks for, in the slots from one on.
    #[cycle(expr)]
    pub fn expr(&mut self, x: &TypedExpr, slot: Slot) -> Result<(), AllocError>
        requires { HasNumbers (expr_asks (expr_of x.now) slot.number) }
        ensures { OnOk result (Gives self.old self.new (expr_asks (expr_of x.now) slot.number)) }
    {
        match x {
            TypedExpr::Constant { value, .. } => self.spare(Rate::Uniform, value.elem, slot),
            TypedExpr::ProgramIndex { .. } => self.spare(Rate::Varying, Elem::I32, slot),
            TypedExpr::Place(place) => self.read(place, slot),
            TypedExpr::Convert { elem, operand } => self.converted(*elem, operand, slot),
            TypedExpr::Cast { operand, ty, .. } => self.operand(ty.rate, operand, slot),
            TypedExpr::Unary { operand, ty, .. } => self.unary(*ty, operand, slot),
            TypedExpr::Binary {
                left,
                right,
                ty,
                ..
            } => self.work_of_two(ty.rate, ty.elem, left, right, slot),
            TypedExpr::Compare {
                left,
                right,
                rate,
                ..
            } => self.work_of_two(*rate, Elem::Bool, left, right, slot),
            TypedExpr::Logic {
                left,
                right,
                rate,
                ..
            } => self.logic(*rate, left, right, slot),
            TypedExpr::Choose {
                test,
                then,
                otherwise,
                ..
            } => self.choice(x.ty(), test, then, otherwise, slot),
            TypedExpr::Call { call, ty } => self.called(*ty, call, slot),
            TypedExpr::Library {
                function,
                values,
                ty,
                ..
            } => self.library(*function, *ty, values, slot),
            TypedExpr::PackedStore { base, value, .. } => self.packed_store(base, value, slot),
            TypedExpr::PackedLoad { base, variable, .. } => self.packed_load(base, *variable, slot),
        }
    }

    #[cycle(expr)]
    fn converted(&mut self, elem: Elem, x: &TypedExpr, slot: Slot) -> Result<(), AllocError>
        requires { HasNumbers (Both (spare_ask (type_of (expr_of x.now)).rate elem slot.number) (expr_asks (expr_of x.now) slot.number)) }
        ensures { OnOk result (Gives self.old self.new (Both (spare_ask (type_of (expr_of x.now)).rate elem slot.number) (expr_asks (expr_of x.now) slot.number))) }
    {
        self.spare(x.ty().rate, elem, slot)?;
        self.expr(x, slot)?;
        Ok(())
    }

    /// A value that is taken at a rate.
    #[cycle(expr)]
    pub fn operand(&mut self, rate: Rate, x: &TypedExpr, slot: Slot) -> Result<(), AllocError>
        requires { HasNumbers (operand_asks rate (expr_of x.now) slot.number) }
        ensures { OnOk result (Gives self.old self.new (operand_asks rate (expr_of x.now) slot.number)) }
    {
        let ty = x.ty();
        self.lift(rate, ty.rate, ty.elem, slot)?;
        self.expr(x, slot)?;
        Ok(())
    }

    #[cycle(expr)]
    fn unary(&mut self, ty: Ty, x: &TypedExpr, slot: Slot) -> Result<(), AllocError>
        requires { HasNumbers (Both (spare_ask ty.rate ty.elem slot.number) (operand_asks ty.rate (expr_of x.now) slot.number)) }
        ensures { OnOk result (Gives self.old self.new (Both (spare_ask ty.rate ty.elem slot.number) (operand_asks ty.rate (expr_of x.now) slot.number))) }
    {
        self.spare(ty.rate, ty.elem, slot)?;
        self.operand(ty.rate, x, slot)?;
        Ok(())
    }

    /// Two operands that are taken at a rate, the second one slot on.
    #[cycle(expr)]
    fn pair(
        &mut self,
        rate: Rate,
        left: &TypedExpr,
        right: &TypedExpr,
        slot: Slot,
    ) -> Result<(), AllocError>
        requires { HasNumbers (operands_asks rate (expr_of left.now) (expr_of right.now) slot.number) }
        ensures { OnOk result (Gives self.old self.new (operands_asks rate (expr_of left.now) (expr_of right.now) slot.number)) }
    {
        let next = self.next(slot);
        self.operand(rate, left, slot)?;
        self.operand(rate, right, next)?;
        Ok(())
    }

    /// Two operands, and what is made of them.
    #[cycle(expr)]
    fn work_of_two(
        &mut self,
        rate: Rate,
        made: Elem,
        left: &TypedExpr,
        right: &TypedExpr,
        slot: Slot,
    ) -> Result<(), AllocError>
        requires { HasNumbers (Both (spare_ask rate made slot.number) (operands_asks rate (expr_of left.now) (expr_of right.now) slot.number)) }
        ensures { OnOk result (Gives self.old self.new (Both (spare_ask rate made slot.number) (operands_asks rate (expr_of left.now) (expr_of right.now) slot.number))) }
    {
        self.spare(rate, made, slot)?;
        self.pair(rate, left, right, slot)?;
        Ok(())
    }

    /// Two bools, of which the second may be asked under a mask.
    #[cycle(expr)]
    fn logic(
        &mut self,
        rate: Rate,
        left: &TypedExpr,
        right: &TypedExpr,
        slot: Slot,
    ) -> Result<(), AllocError>
        requires { HasNumbers (logic_asks rate (expr_of left.now) (expr_of right.now) slot.number) }
        ensures { OnOk result (Gives self.old self.new (logic_asks rate (expr_of left.now) (expr_of right.now) slot.number)) }
    {
        self.spare(rate, Elem::Bool, slot)?;
        self.test(rate, slot);
        self.pair(rate, left, right, slot)?;
        Ok(())
    }

    /// A choice: its sides work in slots after those of a varying test.
    #[cycle(expr)]
    fn choice(
        &mut self,
        ty: Ty,
        test: &TypedExpr,
        then: &TypedExpr,
        otherwise: &TypedExpr,
        slot: Slot,
    ) -> Result<(), AllocError>
        requires { HasNumbers (choice_asks ty (expr_of test.now) (expr_of then.now) (expr_of otherwise.now) slot.number) }
        ensures { OnOk result (Gives self.old self.new (choice_asks ty (expr_of test.now) (expr_of then.now) (expr_of otherwise.now) slot.number)) }
    {
        let rate = test.ty().rate;
        let first = side(rate, slot);
        let second = side(rate, first);
        self.spare(ty.rate, ty.elem, slot)?;
        self.expr(test, slot)?;
        self.operand(ty.rate, then, first)?;
        self.operand(ty.rate, otherwise, second)?;
        self.sides(rate, slot);
        Ok(())
    }

    /// A call of the library, and the register that its result goes to.
    #[cycle(expr)]
    fn library(
        &mut self,
        function: Library,
        ty: Ty,
        all: &[TypedExpr],
        slot: Slot,
    ) -> Result<(), AllocError>
        requires { HasNumbers (Both (spare_ask ty.rate ty.elem slot.number) (values_asks (library_rates function ty.rate) (t_exprs (exprs_of all.now)) slot.number)) }
        ensures { OnOk result (Gives self.old self.new (Both (spare_ask ty.rate ty.elem slot.number) (values_asks (library_rates function ty.rate) (t_exprs (exprs_of all.now)) slot.number))) }
    {
        self.spare(ty.rate, ty.elem, slot)?;
        self.values(function, ty.rate, all, slot)?;
        Ok(())
    }

    /// The values of a call of the library, each in a slot of its own, at the rate at which the function takes it.
    #[cycle(expr)]
    fn values(
        &mut self,
        function: Library,
        rate: Rate,
        all: &[TypedExpr],
        slot: Slot,
    ) -> Result<(), AllocError>
        requires { HasNumbers (values_asks (library_rates function rate) (t_exprs (exprs_of all.now)) slot.number) }
        ensures { OnOk result (Gives self.old self.new (values_asks (library_rates function rate) (t_exprs (exprs_of all.now)) slot.number)) }
    {
        let mut at = slot;
        for (place, x) in all.iter().enumerate() {
            let next = self.next(at);
            let taken = value_rate(function, rate, place);
            self.operand(taken, x, at)?;
            at = next;
        }
        Ok(())
    }

    /// The array of a packed call, from its first element or from an index on.
    #[cycle(expr)]
    fn base(&mut self, base: &TypedBase, slot: Slot) -> Result<(), AllocError>
        requires { HasNumbers (base_asks (base_of base.now) slot.number) }
        ensures { OnOk result (Gives self.old self.new (base_asks (base_of base.now) slot.number)) }
    {
        match base {
            TypedBase::Whole { .. } => self.spare(Rate::Uniform, Elem::I64, slot),
            TypedBase::From { index, .. } => self.index(Rate::Uniform, index, slot),
        }
    }

    /// A packed store, and the register that the count goes to.
    #[cycle(expr)]
    fn packed_store(
        &mut self,
        base: &TypedBase,
        value: &TypedExpr,
        slot: Slot,
    ) -> Result<(), AllocError>
        requires { HasNumbers (packed_store_asks (base_of base.now) (expr_of value.now) slot.number) }
        ensures { OnOk result (Gives self.old self.new (packed_store_asks (base_of base.now) (expr_of value.now) slot.number)) }
    {
        self.spare(Rate::Uniform, Elem::I32, slot)?;
        self.base(base, slot)?;
        let next = self.next(slot);
        self.operand(Rate::Varying, value, next)?;
        Ok(())
    }

    /// A packed load, and the register that the count goes to.
    #[cycle(expr)]
    fn packed_load(
        &mut self,
        base: &TypedBase,
        variable: usize,
        slot: Slot,
    ) -> Result<(), AllocError>
        requires { HasNumbers (packed_load_asks (base_of base.now) variable slot.number) }
        ensures { OnOk result (Gives self.old self.new (packed_load_asks (base_of base.now) variable slot.number)) }
    {
        self.spare(Rate::Uniform, Elem::I32, slot)?;
        self.base(base, slot)?;
        self.loaded(variable)?;
        Ok(())
    }

    /// A call, and the register that its result goes to.
    #[cycle(expr)]
    fn called(&mut self, ty: Ty, call: &TypedCall, slot: Slot) -> Result<(), AllocError>
        requires { HasNumbers (Both (spare_ask ty.rate ty.elem slot.number) (call_asks (call_of call.now) slot.number)) }
        ensures { OnOk result (Gives self.old self.new (Both (spare_ask ty.rate ty.elem slot.number) (call_asks (call_of call.now) slot.number))) }
    {
        self.spare(ty.rate, ty.elem, slot)?;
        self.call(call, slot)?;
        Ok(())
    }

    /// A call, which names its function by a number, and its arguments.
    #[cycle(expr)]
    fn call(&mut self, x: &TypedCall, slot: Slot) -> Result<(), AllocError>
        requires { HasNumbers (call_asks (call_of x.now) slot.number) }
        ensures { OnOk result (Gives self.old self.new (call_asks (call_of x.now) slot.number)) }
    {
        self.arguments(&x.arguments, slot)?;
        Ok(())
    }

    /// Arguments of a call, each in a slot of its own.
    #[cycle(expr)]
    fn arguments(&mut self, all: &[TypedArgument], slot: Slot) -> Result<(), AllocError>
        requires { HasNumbers (arguments_asks (t_arguments (arguments_of all.now)) slot.number) }
        ensures { OnOk result (Gives self.old self.new (arguments_asks (t_arguments (arguments_of all.now)) slot.number)) }
    {
        let mut at = slot;
        for x in all {
            let next = self.next(at);
            self.argument(x, at)?;
            at = next;
        }
        Ok(())
    }

    /// An argument, whatever the rate of its parameter.
    #[cycle(expr)]
    fn argument(&mut self, x: &TypedArgument, slot: Slot) -> Result<(), AllocError>
        requires { HasNumbers (argument_asks (argument_of x.now) slot.number) }
        ensures { OnOk result (Gives self.old self.new (argument_asks (argument_of x.now) slot.number)) }
    {
        match x {
            TypedArgument::Value(value) => self.operand(Rate::Varying, value, slot),
            TypedArgument::Array { .. } => Ok(()),
        }
    }

    /// A place, and the register that its value is read into.
    #[cycle(expr)]
    fn read(&mut self, place: &TypedPlace, slot: Slot) -> Result<(), AllocError>
        requires { HasNumbers (Both (target_asks (place_of place.now) slot.number) (value_asks (place_of place.now) slot.number)) }
        ensures { OnOk result (Gives self.old self.new (Both (target_asks (place_of place.now) slot.number) (value_asks (place_of place.now) slot.number))) }
    {
        self.target(place, slot)?;
        self.held(place, slot)?;
        Ok(())
    }

    /// The register that an element is read into, or that a variable is copied to.
    fn held(&mut self, place: &TypedPlace, slot: Slot) -> Result<(), AllocError>
        ensures { OnOk result (Gives self.old self.new (value_asks (place_of place.now) slot.number)) }
    {
        match place {
            TypedPlace::Variable { ty, .. } => self.copy(*ty, slot),
            TypedPlace::Element { ty, .. } => self.spare(ty.rate, ty.elem, slot),
        }
    }

    /// The register that an element is read into; none for a variable.
    fn element(&mut self, place: &TypedPlace, slot: Slot) -> Result<(), AllocError>
        ensures { OnOk result (Gives self.old self.new (read_asks (place_of place.now) slot.number)) }
    {
        match place {
            TypedPlace::Variable { .. } => Ok(()),
            TypedPlace::Element { ty, .. } => self.spare(ty.rate, ty.elem, slot),
        }
    }

    /// A place whose index is taken at a slot.
    #[cycle(expr)]
    fn target(&mut self, place: &TypedPlace, slot: Slot) -> Result<(), AllocError>
        requires { HasNumbers (target_asks (place_of place.now) slot.number) }
        ensures { OnOk result (Gives self.old self.new (target_asks (place_of place.now) slot.number)) }
    {
        match place {
            TypedPlace::Variable { .. } => Ok(()),
            TypedPlace::Element {
                array,
                index,
                ty,
                ..
            } => self.element_index(array.ty.rate, ty.rate, index, slot),
        }
    }

    /// The register of the place of a run.
    pub fn place(&mut self) -> Result<(), AllocError>
        ensures { OnOk result (Gives self.old self.new (Register Uniform Place I64)) }
    {
        self.registers.place()?;
        Ok(())
    }

    /// The same, where a varying variable may count its lanes.
    fn place_of(&mut self, rate: Rate) -> Result<(), AllocError>
        ensures { OnOk result (Gives self.old self.new (place_asks rate)) }
    {
        match rate {
            Rate::Uniform => Ok(()),
            Rate::Varying => self.place(),
        }
    }

    /// The number of a run's first element.
    fn start(&mut self, index: &TypedExpr, slot: Slot) -> Result<(), AllocError>
        ensures { OnOk result (Gives self.old self.new (start_asks (expr_of index.now) slot.number)) }
    {
        match index {
            TypedExpr::ProgramIndex { .. } => self.spare(Rate::Uniform, Elem::I64, slot),
            TypedExpr::Place(TypedPlace::Variable { ty, .. }) => self.place_of(ty.rate),
            _ => Ok(()),
        }
    }

    /// The same where all lanes share the array.
    fn run(&mut self, array: Rate, index: &TypedExpr, slot: Slot) -> Result<(), AllocError>
        ensures { OnOk result (Gives self.old self.new (run_asks array (expr_of index.now) slot.number)) }
    {
        match array {
            Rate::Uniform => self.start(index, slot),
            Rate::Varying => Ok(()),
        }
    }

    /// The index of an element of an array of a rate, at the element's rate.
    #[cycle(expr)]
    fn element_index(
        &mut self,
        array: Rate,
        rate: Rate,
        index: &TypedExpr,
        slot: Slot,
    ) -> Result<(), AllocError>
        requires { HasNumbers (element_asks array rate (expr_of index.now) slot.number (expr_asks (expr_of index.now) slot.number)) }
        ensures { OnOk result (Gives self.old self.new (element_asks array rate (expr_of index.now) slot.number (expr_asks (expr_of index.now) slot.number))) }
    {
        self.run(array, index, slot)?;
        self.index(rate, index, slot)?;
        Ok(())
    }

    /// An index, as int64, at the rate of the element.
    #[cycle(expr)]
    fn index(&mut self, rate: Rate, index: &TypedExpr, slot: Slot) -> Result<(), AllocError>
        requires { HasNumbers (index_asks rate (expr_of index.now) slot.number (expr_asks (expr_of index.now) slot.number)) }
        ensures { OnOk result (Gives self.old self.new (index_asks rate (expr_of index.now) slot.number (expr_asks (expr_of index.now) slot.number))) }
    {
        self.lift(rate, index.ty().rate, Elem::I64, slot)?;
        self.converted(Elem::I64, index, slot)?;
        Ok(())
    }

    /// The register in which an operator works whose type is not that of its place.
    fn work(&mut self, ty: Ty, elem: Elem, slot: Slot) -> Result<(), AllocError>
        ensures { OnOk result (Gives self.old self.new (work_asks (same_elem ty.elem elem) ty.rate elem slot.number)) }
    {
        if ty.elem == elem {
            Ok(())
        } else {
            self.spare(ty.rate, elem, slot)
        }
    }

    /// A place that an operator of a type reads and writes, at a slot of its own.
    fn change(&mut self, elem: Elem, place: &TypedPlace, slot: Slot) -> Result<(), AllocError>
        ensures { OnOk result (Gives self.old self.new (change_asks elem (place_of place.now) slot.number)) }
    {
        self.work(place.ty(), elem, slot)?;
        self.element(place, slot)?;
        Ok(())
    }

    /// The number 1 at a rate.
    fn one(&mut self, rate: Rate, elem: Elem, slot: Slot) -> Result<(), AllocError>
        ensures { OnOk result (Gives self.old self.new (one_asks rate elem slot.number)) }
    {
        self.spare(Rate::Uniform, elem, slot)?;
        self.lift(rate, Rate::Uniform, elem, slot)?;
        Ok(())
    }

    /// What the code of an assignment asks for, and of what else stands before a semicolon.
    pub fn simple(&mut self, x: &TypedSimple, slot: Slot) -> Result<(), AllocError>
        requires { HasNumbers (simple_asks (simple_of x.now) slot.number) }
        ensures { OnOk result (Gives self.old self.new (simple_asks (simple_of x.now) slot.number)) }
    {
        match x {
            TypedSimple::Value(value) => self.expr(value, slot),
            TypedSimple::Call(call) => self.call(call, slot),
            TypedSimple::Assign { target, value, .. } => self.assign(target, value, slot),
            TypedSimple::Update {
                elem,
                target,
                value,
                ..
            } => self.update(*elem, target, value, slot),
            TypedSimple::Step { elem, target, .. } => self.step(*elem, target, slot),
        }
    }

    /// The slot after that of a place's index.
    fn beyond(&mut self, place: &TypedPlace, slot: Slot) -> Slot
        requires { HasNumbers (Number (beyond (place_of place.now) slot.number)) }
        ensures number { result.number ≡ beyond (place_of place.now) slot.number }
        ensures gives { Gives self.old self.new (Number result.number) }
    {
        match place {
            TypedPlace::Variable { .. } => slot,
            TypedPlace::Element { .. } => self.next(slot),
        }
    }

    fn assign(
        &mut self,
        target: &TypedPlace,
        value: &TypedExpr,
        slot: Slot,
    ) -> Result<(), AllocError>
        requires { HasNumbers (assign_asks (place_of target.now) (expr_of value.now) slot.number) }
        ensures { OnOk result (Gives self.old self.new (assign_asks (place_of target.now) (expr_of value.now) slot.number)) }
    {
        self.target(target, slot)?;
        let next = self.beyond(target, slot);
        self.operand(target.ty().rate, value, next)?;
        Ok(())
    }

    fn update(
        &mut self,
        elem: Elem,
        target: &TypedPlace,
        value: &TypedExpr,
        slot: Slot,
    ) -> Result<(), AllocError>
        requires { HasNumbers (update_asks elem (place_of target.now) (expr_of value.now) slot.number) }
        ensures { OnOk result (Gives self.old self.new (update_asks elem (place_of target.now) (expr_of value.now) slot.number)) }
    {
        let next = self.beyond(target, slot);
        self.target(target, slot)?;
        let work = self.next(next);
        self.operand(target.ty().rate, value, next)?;
        self.change(elem, target, work)?;
        Ok(())
    }

    fn step(&mut self, elem: Elem, target: &TypedPlace, slot: Slot) -> Result<(), AllocError>
        requires { HasNumbers (step_asks elem (place_of target.now) slot.number) }
        ensures { OnOk result (Gives self.old self.new (step_asks elem (place_of target.now) slot.number)) }
    {
        let next = self.beyond(target, slot);
        self.target(target, slot)?;
        let work = self.next(next);
        self.one(target.ty().rate, elem, next)?;
        self.change(elem, target, work)?;
        Ok(())
    }

    /// A variable begins with 0: a varying one gets it from a slot.
    fn zero(&mut self, number: usize, ty: Ty, slot: Slot) -> Result<(), AllocError>
        ensures { OnOk result (Gives self.old self.new (zero_asks ty.rate ty.elem number slot.number)) }
    {
        match ty.rate {
            Rate::Uniform => Ok(()),
            Rate::Varying => self.spare(Rate::Uniform, ty.elem, slot),
        }
    }

    fn item(&mut self, x: &TypedItem, slot: Slot) -> Result<(), AllocError>
        requires { HasNumbers (item_asks slot.number (item_of x.now)) }
        ensures { OnOk result (Gives self.old self.new (item_asks slot.number (item_of x.now))) }
    {
        match x {
            TypedItem::Plain { number, ty, .. } => self.zero(*number, *ty, slot),
            TypedItem::Value { ty, value, .. } => self.operand(ty.rate, value, slot),
            TypedItem::Array { .. } => Ok(()),
        }
    }

    /// What the code of declared variables and arrays asks for.
    pub fn items(&mut self, all: &[TypedItem], slot: Slot) -> Result<(), AllocError>
        requires { HasNumbers (items_asks slot.number (items_of all.now)) }
        ensures { OnOk result (Gives self.old self.new (items_asks slot.number (items_of all.now))) }
    {
        for x in all {
            self.item(x, slot)?;
        }
        Ok(())
    }
}

/// The slot after that of a varying test.
fn side(rate: Rate, slot: Slot) -> Slot
    requires { rate ≡ Varying → slot.number + 1 < 4294967296 }
    ensures { result.number ≡ first_slot rate slot.number }
{
    match rate {
        Rate::Uniform => slot,
        Rate::Varying => slot.next(),
    }
}
