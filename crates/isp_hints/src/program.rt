//! All that is slow in a program.
ghost use Rattle.std.specs.Prelude.{IfOk};
ghost use Rattle.isp_typed.specs.Views.{program_of};
ghost use Rattle.isp_hints.specs.Hints.{AreHints};

use crate::accesses::accesses;
use crate::hint::Hint;
use crate::loops::loops;
use crate::ordered::put_in_order;
use isp_code::Code;
use isp_typed::Program;
use std::alloc::{AllocError, Global};

/// Where a program is slow, in the order of the places, and of one place in the order of `Slow`: the accesses of its code whose elements are read or
/// written one by one, its loops that instances leave one by one, and the inner ranges that leave lanes off. The body of a
/// `foreach` stands twice in code, and each hint is told once. AllocError: memory was refused.
pub fn hints(alloc: Global, code: &Code, program: &Program) -> Result<Vec<Hint>, AllocError>
    ensures { IfOk result (λ v. AreHints code.now (program_of program.now) v.items) }
{
    let mut found = Vec::new(alloc);
    accesses(&mut found, code)?;
    loops(&mut found, program)?;
    put_in_order(&mut found);
    Ok(found)
}
