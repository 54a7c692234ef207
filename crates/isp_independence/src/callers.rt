//! Who calls a function: a table of calls turned round.
ghost use Rattle.std.specs.Prelude.{◌≡◌, [], Contains, IfOk, OnOk, length, replicate};
ghost use Rattle.isp_independence.specs.Tables.{lists_of};
ghost use Rattle.isp_independence.specs.reader.Paths.{Adds, IsReversed};

use std::alloc::{AllocError, Global};

/// As many rows, with nobody in them.
fn nobody(alloc: Global, count: usize) -> Result<Vec<Vec<usize>>, AllocError>
    ensures { IfOk result (λ v. lists_of v.items ≡ replicate count []) }
{
    let mut rows = Vec::new(alloc);
    for _next in 0..count {
        rows.push(Vec::new(alloc))?;
    }
    Ok(rows)
}

/// One more caller of a function. A number past the last function has no row.
fn add_caller(callers: &mut Vec<Vec<usize>>, called: usize, caller: usize) -> Result<(), AllocError>
    ensures { OnOk result (Adds (lists_of callers.old.items) (lists_of callers.new.items) (λ a b. (a ≡ called) × (b ≡ caller))) }
{
    if called < callers.len() {
        callers[called].push(caller)?;
    }
    Ok(())
}

/// One more caller of each function in a row of calls.
fn add_row(callers: &mut Vec<Vec<usize>>, row: &[usize], caller: usize) -> Result<(), AllocError>
    ensures { OnOk result (Adds (lists_of callers.old.items) (lists_of callers.new.items) (λ a b. Contains row.now a × (b ≡ caller))) }
{
    for called in row {
        add_caller(callers, *called, caller)?;
    }
    Ok(())
}

/// For each function the numbers of those that call it, by a table of what each calls.
pub fn callers(alloc: Global, calls: &[Vec<usize>]) -> Result<Vec<Vec<usize>>, AllocError>
    ensures { IfOk result (λ v. IsReversed (lists_of calls.now) (lists_of v.items)) }
{
    let mut callers = nobody(alloc, calls.len())?;
    for (caller, row) in calls.iter().enumerate() {
        add_row(&mut callers, row.as_slice(), caller)?;
    }
    Ok(callers)
}
