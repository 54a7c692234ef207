//! The breaches of a program.
ghost use Rattle.std.specs.Prelude.{◌↔◌, AllPairs, Contains, IfOk, slice_get};
ghost use Rattle.isp_lex.specs.declared.fault.Fault.{Fault};
ghost use Rattle.isp_typed.specs.Views.{program_of};
ghost use Rattle.isp_rates.specs.Breaches.{Least};
ghost use Rattle.isp_rates.specs.Program.{ProgramBreach};
ghost use Rattle.isp_breaches.specs.Order.{Before};

use crate::function::functions;
use crate::ordered::put_in_order;
use isp_lex::Fault;
use isp_typed::Program;
use std::alloc::{AllocError, Global};

/// Every breach of rates, exits and exports in a typed program, each once: the faults 30 VaryingToUniform, 31 BadExit,
/// 32 NestedForeach and 33 BadExport, where `check` of isp_rates answers the first. Their order is that of the
/// bytes where their spans end, a tie by the lower number, and then by where they start. A program without a
/// breach has an empty list. AllocError: memory was refused.
pub fn breaches(alloc: Global, program: &Program) -> Result<Vec<Fault>, AllocError>
    // The faults in the list are the program's breaches.
    ensures listed { IfOk result (λ v. (f : Fault) → Contains v.items f ↔ ProgramBreach (program_of program.now) f) }
    // Each comes before all that follow it, so none is told twice.
    ensures ordered { IfOk result (λ v. AllPairs Before v.items) }
    // The first is what is answered of the program: nothing where it has no breach.
    ensures first { IfOk result (λ v. Least (slice_get v.items 0) (ProgramBreach (program_of program.now))) }
{
    let mut found = Vec::new(alloc);
    functions(&mut found, &program.functions)?;
    put_in_order(&mut found);
    Ok(found)
}
