//! The slow accesses of code.
ghost use Rattle.std.specs.List.{cons_option};
ghost use Rattle.std.specs.Prelude.{◌≡◌, ◌++◌, [], OnOk};
ghost use Rattle.isp_hints.specs.Accesses.{accesses_of, hints_in};

use crate::hint::{Hint, hint_of};
use isp_code::{Code, Instr};
use std::alloc::AllocError;

/// Tells the accesses of code whose elements are read or written one by one.
pub(crate) fn accesses(found: &mut Vec<Hint>, code: &Code) -> Result<(), AllocError>
    ensures { OnOk result (found.new.items ≡ found.old.items ++ accesses_of code.now) }
{
    let functions = code.functions();
    for number in 0..functions.len() {
        push_hints(found, code, &functions[number].code)?;
    }
    Ok(())
}

fn push_hints(found: &mut Vec<Hint>, code: &Code, instrs: &Vec<Instr>) -> Result<(), AllocError>
    ensures { OnOk result (found.new.items ≡ found.old.items ++ hints_in code.now instrs.now.items) }
{
    for number in 0..instrs.len() {
        push_some(found, hint_of(code, &instrs[number]))?;
    }
    Ok(())
}

fn push_some(found: &mut Vec<Hint>, hint: Option<Hint>) -> Result<(), AllocError>
    ensures { OnOk result (found.new.items ≡ found.old.items ++ cons_option hint []) }
{
    if let Some(hint) = hint {
        found.push(hint)?;
    }
    Ok(())
}
