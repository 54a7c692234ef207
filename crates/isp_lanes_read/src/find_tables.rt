//! The pass that finds tables. Nothing is promised of them, since `check` looks at them.
use crate::backward::widen;
use crate::forward::{MOST_ROUNDS, inclusions};
use crate::table::{Table, Tables};
use isp_code::{Code, Function};
use std::alloc::{AllocError, Global};

// The table of a function.
fn table_of(alloc: Global, function: &Function) -> Result<Table, AllocError> {
    let mut lines = inclusions(alloc, function)?;
    for _round in 0..MOST_ROUNDS {
        if !widen(alloc, function, &mut lines)? {
            break;
        }
    }
    Ok(Table { lines })
}

/// Tables for some code: as many inclusions of masks as follow, and few lanes that are read. Fails only where memory is refused.
/// Nothing else is promised; `check` says whether they are right.
pub fn find(alloc: Global, code: &Code) -> Result<Tables, AllocError> {
    let mut functions = Vec::new(alloc);
    for function in code.functions() {
        functions.push(table_of(alloc, function)?)?;
    }
    Ok(Tables { functions })
}
