//! Registers are looked up; each that is asked for is there.
ghost use Rattle.std.specs.Prelude.{◌≡◌, ◌≤◌, drop, is_some, length, map, take, IfSome, Some};
ghost use Rattle.isp_lower_code.specs.Asks.{Ask as Asks, ArrayOf, Register as Ask};
ghost use Rattle.isp_lower_code.specs.Layout.{outside, within};
ghost use Rattle.isp_lower_code.specs.Callees.{next_rate, rate_held, rates_held};
ghost use Rattle.isp_lower_code.specs.Found.{is_copied};
ghost use Rattle.isp_registers.specs.Growth.{name_of, row_of};
ghost use Rattle.isp_lower.specs.Emitted.{Present, layout};
ghost use Rattle.isp_base.specs.declared.types.Elem.TheVariants.{I64};
ghost use Rattle.isp_base.specs.declared.types.Rate.TheVariants.{Uniform};
ghost use Rattle.isp_lower_code.specs.Rows.{Kept, Place, Result, Spare, Variable, elem_in, keeps, number_in};

use crate::types::Scope;
use isp_base::{Elem, Rate, Ty};
use isp_registers::{RegisterName, RegisterNumber, RegisterRows, Slot};
use isp_typed::{ArrayVariable, Holds};

/// The register of a name that has one.
fn given(rows: &RegisterRows, name: RegisterName, elem: Elem) -> RegisterNumber
    requires there { elem_in (map row_of rows.now) (name_of name) ≡ Some elem }
    requires few { length rows.now ≤ 4294967295 }
    ensures { result.number ≡ number_in (map row_of rows.now) (name_of name) }
{
    match rows.find(name) {
        Some((place, _)) => RegisterNumber {
            number: place as u32,
        },
        None => RegisterNumber { number: 0 },
    }
}

/// The register of a constant, if it is kept.
fn kept_in(rows: &RegisterRows, elem: Elem, bits: u64) -> Option<RegisterNumber>
    requires { length rows.now ≤ 4294967295 }
    ensures number { IfSome result (λ d. d.number ≡ number_in (map row_of rows.now) (Kept elem bits)) }
    ensures kept { is_some result ≡ keeps (map row_of rows.now) elem bits }
{
    match rows.find(RegisterName::Kept(elem, bits)) {
        Some((place, _)) => Some(RegisterNumber {
            number: place as u32,
        }),
        None => None,
    }
}

/// The rate of what a parameter holds.
fn rate_held(holds: Holds) -> Rate
    ensures { result ≡ rate_held holds }
{
    match holds {
        Holds::Value(ty) | Holds::Local(ty, _) => ty.rate,
        Holds::Given(_) => Rate::Uniform,
    }
}

/// The rate of a parameter, by its place among the first variables of a function.
#[tactic(auto, using(crate::proofs::Arguments::rate_past))]
fn rate_at(variables: &[isp_typed::Variable], count: usize, place: usize) -> Rate
    ensures { result ≡ next_rate (drop place (rates_held (take count variables.now))) }
{
    if place >= count {
        return Rate::Varying;
    }
    match variables.get(place) {
        Some(variable) => rate_held(variable.holds),
        None => Rate::Varying,
    }
}

impl Scope<'_> {
    /// The rate at which a function takes an argument, by its place in a call.
    #[tactic(auto, using(crate::proofs::Arguments::rate_of_one, crate::proofs::Arguments::rate_of_nobody))]
    pub fn parameter_rate(&self, function: usize, place: usize) -> Rate
        ensures { result ≡ next_rate (drop place ((layout self.now).rates function)) }
    {
        match self.callees.get(function) {
            Some(callee) => rate_at(&callee.variables, callee.params.len(), place),
            None => Rate::Varying,
        }
    }

    /// The same for lanes that need be no members of a run.
    pub fn outside(&self) -> Self
        ensures layout { layout result ≡ outside (layout self.now) }
        ensures present { (a : Asks) → Present self.now a → Present result a }
        ensures answer { result.answer ≡ self.now.answer }
    {
        Scope {
            callees: self.callees,
            registers: self.registers,
            masks: self.masks,
            answer: self.answer,
            run: self.run,
            in_run: false,
        }
    }

    /// The same for the members of a run of which a variable counts the lanes: there is no other yet, and no packed load writes it.
    pub fn within(&self, index: usize) -> Self
        ensures layout { layout result ≡ within (layout self.now) index }
        ensures present { (a : Asks) → Present self.now a → Present result a }
        ensures answer { result.answer ≡ self.now.answer }
    {
        if self.run.is_none() && !self.copies(Rate::Varying, index) {
            Scope {
                callees: self.callees,
                registers: self.registers,
                masks: self.masks,
                answer: self.answer,
                run: Some(index),
                in_run: true,
            }
        } else {
            self.outside()
        }
    }

    /// The register of a slot for values of a type.
    pub fn spare(&self, rate: Rate, elem: Elem, slot: Slot) -> RegisterNumber
        requires { Present self.now (Ask rate (Spare elem slot.number) elem) }
        ensures { result.number ≡ (layout self.now).spare rate elem slot.number }
    {
        let name = RegisterName::Spare(elem, slot);
        match rate {
            Rate::Uniform => given(&self.registers.scalars, name, elem),
            Rate::Varying => given(&self.registers.vectors, name, elem),
        }
    }

    /// The register of the place of a run.
    pub fn place(&self) -> RegisterNumber
        requires { Present self.now (Ask Uniform Place I64) }
        ensures { result.number ≡ (layout self.now).place Uniform }
    {
        given(&self.registers.scalars, RegisterName::Place, Elem::I64)
    }

    /// The register of a variable's value.
    pub fn variable(&self, number: usize, ty: Ty) -> RegisterNumber
        requires { Present self.now (Ask ty.rate (Variable number) ty.elem) }
        ensures { result.number ≡ (layout self.now).variable ty.rate number }
    {
        let name = RegisterName::Variable(number);
        match ty.rate {
            Rate::Uniform => given(&self.registers.scalars, name, ty.elem),
            Rate::Varying => given(&self.registers.vectors, name, ty.elem),
        }
    }

    /// Whether a variable is copied to a slot where it is read, since a packed load of the function writes it.
    pub fn copies(&self, rate: Rate, number: usize) -> bool
        ensures { result ≡ is_copied (layout self.now) rate number }
    {
        match rate {
            Rate::Uniform => false,
            Rate::Varying => self
                .registers
                .loaded
                .find(RegisterName::Variable(number))
                .is_some(),
        }
    }

    /// The register in which a constant is kept at a rate, if it is.
    pub fn kept(&self, rate: Rate, elem: Elem, bits: u64) -> Option<RegisterNumber>
        ensures number { IfSome result (λ d. d.number ≡ (layout self.now).constant rate elem bits) }
        ensures kept { is_some result ≡ (layout self.now).kept rate elem bits }
    {
        match rate {
            Rate::Uniform => kept_in(&self.registers.scalars, elem, bits),
            Rate::Varying => kept_in(&self.registers.vectors, elem, bits),
        }
    }

    /// Whether a constant is kept at a rate.
    pub fn keeps(&self, rate: Rate, elem: Elem, bits: u64) -> bool
        ensures { result ≡ (layout self.now).kept rate elem bits }
    {
        self.kept(rate, elem, bits).is_some()
    }

    /// The register of what the function gives back.
    pub fn result(&self, ty: Ty) -> RegisterNumber
        requires { Present self.now (Ask ty.rate Result ty.elem) }
        ensures { result.number ≡ (layout self.now).result ty.rate }
    {
        match ty.rate {
            Rate::Uniform => given(&self.registers.scalars, RegisterName::Result, ty.elem),
            Rate::Varying => given(&self.registers.vectors, RegisterName::Result, ty.elem),
        }
    }

    /// The register of an array.
    pub fn array(&self, array: ArrayVariable) -> RegisterNumber
        requires { Present self.now (ArrayOf array) }
        ensures { result.number ≡ (layout self.now).array array.number }
    {
        given(
            &self.registers.arrays,
            RegisterName::Variable(array.number),
            array.ty.elem,
        )
    }
}
