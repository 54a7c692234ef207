//! Where a function begins: each of its variables has a register, and what it gives back.
ghost use Rattle.std.specs.Prelude.{◌≡◌, ◌++◌, [], IfOk, OnOk};
ghost use Rattle.isp_base.specs.declared.types.Rate.TheVariants.{Uniform, Varying};
ghost use Rattle.isp_meaning.specs.Calls.{same_rate};
ghost use Rattle.isp_lower_code.specs.FirstRows.{array_row, array_rows, first_rows, result_rows, row_where, value_row, value_rows};
ghost use Rattle.isp_registers.specs.Growth.{name_of, rows_of};
ghost use Rattle.isp_registers.specs.Lookup.{HasOwnType, IsAsked};

use crate::register_rows::RegisterRows;
use crate::registers::{RegisterName, RegisterRow, Registers};
use isp_base::{Elem, Rate, Ty};
use isp_typed::{Holds, Variable};
use std::alloc::{AllocError, Global};

/// A register for a value.
fn add_value(
    registers: &mut Registers,
    rate: Rate,
    name: RegisterName,
    elem: Elem,
) -> Result<(), AllocError>
    requires asked { IsAsked (name_of name) }
    requires own { HasOwnType (name_of name) elem }
    ensures scalars { OnOk result ((rows_of registers.new).scalars ≡ (rows_of registers.old).scalars ++ row_where (same_rate Uniform rate) (record { name = name_of name; elem = elem }) []) }
    ensures vectors { OnOk result ((rows_of registers.new).vectors ≡ (rows_of registers.old).vectors ++ row_where (same_rate Varying rate) (record { name = name_of name; elem = elem }) []) }
    ensures arrays { OnOk result ((rows_of registers.new).arrays ≡ (rows_of registers.old).arrays) }
    ensures loaded { OnOk result ((rows_of registers.new).loaded ≡ (rows_of registers.old).loaded) }
{
    let row = RegisterRow { name, elem };
    match rate {
        Rate::Uniform => registers.scalars.push(row)?,
        Rate::Varying => registers.vectors.push(row)?,
    }
    Ok(())
}

/// A register for a variable.
fn add_variable(registers: &mut Registers, number: usize, holds: Holds) -> Result<(), AllocError>
    ensures scalars { OnOk result ((rows_of registers.new).scalars ≡ (rows_of registers.old).scalars ++ value_row Uniform holds number []) }
    ensures vectors { OnOk result ((rows_of registers.new).vectors ≡ (rows_of registers.old).vectors ++ value_row Varying holds number []) }
    ensures arrays { OnOk result ((rows_of registers.new).arrays ≡ (rows_of registers.old).arrays ++ array_row holds number []) }
    ensures loaded { OnOk result ((rows_of registers.new).loaded ≡ (rows_of registers.old).loaded) }
{
    let name = RegisterName::Variable(number);
    match holds {
        Holds::Value(ty) => add_value(registers, ty.rate, name, ty.elem)?,
        Holds::Given(elem) => registers.arrays.push(RegisterRow { name, elem })?,
        Holds::Local(ty, _) => registers.arrays.push(RegisterRow {
            name,
            elem: ty.elem,
        })?,
    }
    Ok(())
}

/// Registers for variables, in their order.
fn add_variables(registers: &mut Registers, variables: &[Variable]) -> Result<(), AllocError>
    ensures scalars { OnOk result ((rows_of registers.new).scalars ≡ (rows_of registers.old).scalars ++ value_rows Uniform 0 variables.now) }
    ensures vectors { OnOk result ((rows_of registers.new).vectors ≡ (rows_of registers.old).vectors ++ value_rows Varying 0 variables.now) }
    ensures arrays { OnOk result ((rows_of registers.new).arrays ≡ (rows_of registers.old).arrays ++ array_rows 0 variables.now) }
    ensures loaded { OnOk result ((rows_of registers.new).loaded ≡ (rows_of registers.old).loaded) }
{
    for (number, variable) in variables.iter().enumerate() {
        add_variable(registers, number, variable.holds)?;
    }
    Ok(())
}

/// A register for what a function gives back, if anything.
fn add_result(registers: &mut Registers, answer: Option<Ty>) -> Result<(), AllocError>
    ensures scalars { OnOk result ((rows_of registers.new).scalars ≡ (rows_of registers.old).scalars ++ result_rows Uniform answer) }
    ensures vectors { OnOk result ((rows_of registers.new).vectors ≡ (rows_of registers.old).vectors ++ result_rows Varying answer) }
    ensures arrays { OnOk result ((rows_of registers.new).arrays ≡ (rows_of registers.old).arrays) }
    ensures loaded { OnOk result ((rows_of registers.new).loaded ≡ (rows_of registers.old).loaded) }
{
    match answer {
        Some(ty) => add_value(registers, ty.rate, RegisterName::Result, ty.elem),
        None => Ok(()),
    }
}

/// No registers.
pub fn no_registers(alloc: Global) -> Registers
    ensures { rows_of result ≡ record { scalars = []; vectors = []; arrays = []; loaded = [] } }
{
    Registers {
        scalars: RegisterRows::new(alloc),
        vectors: RegisterRows::new(alloc),
        arrays: RegisterRows::new(alloc),
        loaded: RegisterRows::new(alloc),
    }
}

/// The registers with which a function begins: one for each of its variables, in their order, each the next of its class,
/// so parameters have the first; what it gives back has the one after them.
pub fn begin(
    alloc: Global,
    variables: &[Variable],
    answer: Option<Ty>,
) -> Result<Registers, AllocError>
    ensures { IfOk result (λ r. rows_of r ≡ first_rows variables.now answer) }
{
    let mut registers = no_registers(alloc);
    add_variables(&mut registers, variables)?;
    add_result(&mut registers, answer)?;
    Ok(registers)
}
