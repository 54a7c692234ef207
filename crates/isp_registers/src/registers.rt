//! The registers of the function in hand.
ghost use Rattle.std.specs.Prelude.{◌≡◌, ◌<◌, ◌≤◌, ◌+◌, ℕ, length, map, max, Some, IfOk, OnErr, OnOk};
ghost use Rattle.isp_lower_code.specs.FirstRows.{Begins};
ghost use Rattle.isp_registers.specs.Growth.{Grows, HasLoaded, HasRow, Keeps, KeepsIn, name_of, row_of, rows_of};
ghost use Rattle.isp_registers.specs.Lookup.{IsAsked, IsPlain, own_type};
ghost use Rattle.isp_base.specs.declared.types.Elem.{Elem};
ghost use Rattle.isp_base.specs.declared.types.Elem.TheVariants.{I64};
ghost use Rattle.isp_base.specs.declared.types.Rate.TheVariants.{Uniform};
ghost use Rattle.isp_lower_code.specs.Rows.{Place, Result, Spare, Variable as VariableName, elem_in, fresh_at, keeps, rows_at, with_fresh_from_at};

use crate::numbered::{RegisterNumber, Slot};
use crate::register_rows::RegisterRows;
use isp_base::{Elem, Rate, Ty};
use isp_lower_code::Constant;
use isp_typed::ArrayVariable;
use std::alloc::{AllocError, Global};

/// What a register is for: a variable, by its number, what the function gives back, values of a type in a slot, the place of a run,
/// what no tree asks for; then it is named by its own number; or a constant, by its type and its bits.
#[derive(Clone, Copy)]
pub enum RegisterName {
    Variable(usize),
    Result,
    Spare(Elem, Slot),
    Place,
    Fresh(usize),
    Kept(Elem, u64),
}

/// A register.
#[derive(Clone, Copy)]
pub struct RegisterRow {
    pub name: RegisterName,
    pub elem: Elem,
}

/// The registers that a function has so far, by class: the number of one is that of the first row of its name. The variables that
/// packed loads write are rows too, which are no registers.
pub struct Registers {
    pub scalars: RegisterRows,
    pub vectors: RegisterRows,
    pub arrays: RegisterRows,
    pub loaded: RegisterRows,
}

// Written, so that each way out of a function that owns registers lets go of them by one call; a derived one is eight.
impl Drop for Registers {
    fn drop(self) {
        let Registers {
            scalars: _,
            vectors: _,
            arrays: _,
            loaded: _,
        } = self;
    }
}

/// A register of a name that says its type: the next one where there is none.
fn given_or_new(rows: &mut RegisterRows, name: RegisterName, elem: Elem) -> Result<(), AllocError>
    requires asked { IsAsked (name_of name) }
    requires own { own_type (name_of name) ≡ Some elem }
    requires plain { IsPlain (name_of name) }
    ensures rows { OnOk result (Begins (map row_of rows.old) (map row_of rows.new)) }
    ensures elem { OnOk result (elem_in (map row_of rows.new) (name_of name) ≡ Some elem) }
    ensures kept { OnOk result ((t : Elem) (b : ℕ) → keeps (map row_of rows.new) t b ≡ keeps (map row_of rows.old) t b) }
    ensures few { OnOk result (length (map row_of rows.new) ≤ length (map row_of rows.old) + 1) }
{
    match rows.find(name) {
        Some(_) => Ok(()),
        None => rows.push(RegisterRow { name, elem }),
    }
}

/// A register that keeps a constant: the next one where there is none.
fn kept_or_new(rows: &mut RegisterRows, elem: Elem, bits: u64) -> Result<(), AllocError>
    ensures { OnOk result (KeepsIn (map row_of rows.old) (map row_of rows.new) elem bits) }
{
    let name = RegisterName::Kept(elem, bits);
    match rows.find(name) {
        Some(_) => Ok(()),
        None => rows.push(RegisterRow { name, elem }),
    }
}

impl Registers {
    /// A register of a slot for values of a type. It is a new one where the slot has none for that type.
    pub fn spare(&mut self, rate: Rate, elem: Elem, slot: Slot) -> Result<(), AllocError>
        ensures rows { OnOk result (Grows self.old self.new) }
        ensures given { OnOk result (HasRow self.new rate (Spare elem slot.number) elem) }
        ensures few_scalars { OnOk result (length (rows_of self.new).scalars ≤ length (rows_of self.old).scalars + 1) }
        ensures few_vectors { OnOk result (length (rows_of self.new).vectors ≤ length (rows_of self.old).vectors + 1) }
        ensures same_arrays { OnOk result ((rows_of self.new).arrays ≡ (rows_of self.old).arrays) }
    {
        let name = RegisterName::Spare(elem, slot);
        match rate {
            Rate::Uniform => given_or_new(&mut self.scalars, name, elem),
            Rate::Varying => given_or_new(&mut self.vectors, name, elem),
        }
    }

    /// The register of the place of a run.
    pub fn place(&mut self) -> Result<(), AllocError>
        ensures rows { OnOk result (Grows self.old self.new) }
        ensures given { OnOk result (HasRow self.new Uniform Place I64) }
        ensures few_scalars { OnOk result (length (rows_of self.new).scalars ≤ length (rows_of self.old).scalars + 1) }
        ensures same_vectors { OnOk result ((rows_of self.new).vectors ≡ (rows_of self.old).vectors) }
        ensures same_arrays { OnOk result ((rows_of self.new).arrays ≡ (rows_of self.old).arrays) }
    {
        given_or_new(&mut self.scalars, RegisterName::Place, Elem::I64)
    }

    /// A constant is kept: it gets a register of its rate, which is a new one where it has none.
    pub fn keep(&mut self, it: Constant) -> Result<(), AllocError>
        ensures { OnOk result (Keeps self.old self.new it) }
    {
        match it.rate {
            Rate::Uniform => kept_or_new(&mut self.scalars, it.elem, it.bits),
            Rate::Varying => kept_or_new(&mut self.vectors, it.elem, it.bits),
        }
    }

    /// A packed load writes a variable.
    pub fn load(&mut self, number: usize) -> Result<(), AllocError>
        ensures rows { OnOk result (Grows self.old self.new) }
        ensures given { OnOk result (HasLoaded self.new number) }
        ensures same_scalars { OnOk result ((rows_of self.new).scalars ≡ (rows_of self.old).scalars) }
        ensures same_vectors { OnOk result ((rows_of self.new).vectors ≡ (rows_of self.old).vectors) }
        ensures same_arrays { OnOk result ((rows_of self.new).arrays ≡ (rows_of self.old).arrays) }
    {
        let name = RegisterName::Variable(number);
        match self.loaded.find(name) {
            Some(_) => Ok(()),
            None => self.loaded.push(RegisterRow {
                name,
                elem: Elem::Bool,
            }),
        }
    }

    /// One more register of a rate, which no tree asks for, and its number: this one at least. Registers between have no
    /// use. Where memory is refused, all stay as they were.
    pub fn fresh_from(
        &mut self,
        alloc: Global,
        number: usize,
        rate: Rate,
        elem: Elem,
    ) -> Result<RegisterNumber, AllocError>
        requires { max (length (rows_at (rows_of self.old) rate)) number < 4294967296 }
        ensures number { IfOk result (λ d. d.number ≡ max (length (rows_at (rows_of self.old) rate)) number) }
        ensures added { OnOk result (rows_of self.new ≡ with_fresh_from_at number rate elem (rows_of self.old)) }
        ensures named { IfOk result (λ d. fresh_at (rows_of self.new) rate d.number ≡ d.number) }
        ensures refused { OnErr result (rows_of self.new ≡ rows_of self.old) }
    {
        match rate {
            Rate::Uniform => self.scalars.fresh_from(alloc, number, elem),
            Rate::Varying => self.vectors.fresh_from(alloc, number, elem),
        }
    }
}
