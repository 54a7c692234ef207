//! Forms for some code, by the tables and the constants that are found for it.
ghost use Rattle.std.specs.Prelude.{◌≡◌, [], IfOk};
ghost use Rattle.isp_forms.specs.Tables.{forms_in, lists_of};
ghost use Rattle.isp_lanes_forms.specs.Begins.{BeginHarmless};

use crate::forms_are_harmless;
use crate::told::forms_of;
use isp_code::Code;
use isp_constants::{check as amounts_hold, find as find_constants};
use isp_forms::{FormTable, runs_by_forms};
use isp_lanes_read::{check, find};
use std::alloc::{AllocError, Global};

// No tables are looked for where a function has more instructions: the search looks at each with all vectors that are read later.
const MOST_LINES: usize = 8192;

/// Forms of the instructions of some code: as many are free or useless as the tables tell that are found for it, shifts are by the amounts that are known, and
/// no run can tell. All are kept where the checks do not take what was found, and where a function has more than 8,192 instructions. The error is that memory was refused.
pub fn forms_for(alloc: Global, code: &Code) -> Result<FormTable, AllocError>
    ensures { IfOk result (λ t. BeginHarmless code.now (forms_in (lists_of t))) }
{
    runs_by_forms();
    forms_are_harmless();
    if is_large(code) {
        return Ok(kept(alloc));
    }
    let tables = find(alloc, code)?;
    let constants = find_constants(alloc, code)?;
    let forms = forms_of(alloc, code, &tables, &constants)?;
    if check(code, &tables) && amounts_hold(code, &forms, &constants) {
        Ok(forms)
    } else {
        Ok(kept(alloc))
    }
}

fn is_large(code: &Code) -> bool {
    code.functions().iter().any(|f| f.code.len() > MOST_LINES)
}

// Forms that are all kept.
fn kept(alloc: Global) -> FormTable
    ensures { lists_of result ≡ [] }
{
    FormTable {
        functions: Vec::new(alloc),
    }
}
