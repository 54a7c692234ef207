//! The forms that tables tell, and what is known of operands, of each instruction.
ghost use Rattle.std.specs.Prelude.{◌≡◌, ◌+◌, ◌<◌, not, IfOk};
ghost use Rattle.isp_code.specs.Listing.{routine_of};
ghost use Rattle.isp_forms.specs.Tables.{forms_in, lists_of};
ghost use Rattle.isp_lanes_read.specs.Free.{is_call};
ghost use Rattle.isp_lanes_read.specs.Rows.{row_at, rows_of};
ghost use Rattle.isp_lanes_forms.specs.Allowed.{IsAllowed, AreAllowed};
ghost use Rattle.isp_lanes_forms.specs.reader.Lists.{LinesAllowed};

use isp_code::{Code, Instr, Plain, VectorInstr};
use isp_constants::Constants;
use isp_forms::{Form, FormTable};
use isp_lanes_read::Tables;
use std::alloc::{AllocError, Global};

fn is_call(instr: &Instr) -> bool
    ensures { result ≡ is_call instr.now }
{
    matches!(instr, Instr::Call(_))
}

// The amount of a shift, where it is known.
fn amount_of(constants: &Constants, function: usize, pc: usize, instr: &Instr) -> Option<u64> {
    match instr {
        Instr::Vector {
            instr: VectorInstr::Binary {
                op: Plain::Shl | Plain::Shr,
                right,
                ..
            },
            ..
        } => constants.amount(function, pc, *right),
        _ => None,
    }
}

// The form of one instruction. One by which something is known stays as it is.
fn form_of(
    tables: &Tables,
    constants: &Constants,
    function: usize,
    pc: usize,
    instr: &Instr,
) -> Form
    requires { pc < 18446744073709551615 }
    ensures { IsAllowed (row_at (rows_of tables.now) function pc) (row_at (rows_of tables.now) function (pc + 1)) instr.now result }
{
    if constants.settles(function, pc) {
        return Form::Kept;
    }
    if tables.is_useless(function, pc, instr) {
        return Form::Useless;
    }
    let free = tables.is_free(function, pc, instr) && !is_call(instr);
    match amount_of(constants, function, pc, instr) {
        Some(amount) if free => Form::FreeBy(amount),
        Some(amount) => Form::KeptBy(amount),
        None if free => Form::Free,
        None => Form::Kept,
    }
}

// Those of a function.
fn line_forms(
    alloc: Global,
    tables: &Tables,
    constants: &Constants,
    function: usize,
    instrs: &[Instr],
) -> Result<Vec<Form>, AllocError>
    ensures { IfOk result (λ v. LinesAllowed (rows_of tables.now) function instrs.now v.items) }
{
    let mut forms = Vec::new(alloc);
    for (pc, instr) in instrs.iter().enumerate() {
        forms.push(form_of(tables, constants, function, pc, instr))?;
    }
    Ok(forms)
}

/// The forms that tables and constants tell: what is useless, what is free, what has to keep its lanes, and which shifts are by a known amount. They
/// are harmless where the laws of isp_lanes_read hold of the tables and operands have the numbers that are told (`forms_are_harmless`). The error is that memory was refused.
pub fn forms_of(
    alloc: Global,
    code: &Code,
    tables: &Tables,
    constants: &Constants,
) -> Result<FormTable, AllocError>
    ensures { IfOk result (λ t. AreAllowed code.now (rows_of tables.now) (forms_in (lists_of t))) }
{
    let routines = code.functions();
    let mut functions = Vec::new(alloc);
    for (number, function) in routines.iter().enumerate() {
        functions.push(line_forms(alloc, tables, constants, number, &function.code)?)?;
    }
    Ok(FormTable { functions })
}
