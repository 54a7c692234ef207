//! Rates, exits and exports of a program.
ghost use Rattle.std.specs.Prelude.{◌≡◌, IfErr, IfOk, Some};
ghost use Rattle.isp_lex.specs.declared.fault.Fault.{Fault};
ghost use Rattle.isp_typed.specs.Views.{program_of};
ghost use Rattle.isp_rates.specs.Breaches.{Least};
ghost use Rattle.isp_rates.specs.Program.{ProgramBreach};

use crate::calls::table;
use crate::checked::Checked;
use crate::exports::{entries, exports};
use crate::function::program;
use isp_independence::dependences;
use isp_lex::SourceFault;
use isp_typed::Typed;
use std::alloc::Global;

/// A typed program that breaks no rule of rates, exits and exports.
///
/// Of the faults 30 VaryingToUniform (at the varying expression or the array's name; with `op=` at the right
/// side), 31 BadExit and 32 NestedForeach (at the word) and 33 BadExport (at the name of the parameter, or of
/// the function) the one is answered whose span ends first, a tie by the lower number. On a refusal the
/// program is dropped. 0: memory was refused, which comes where there is none of these faults.
pub fn check(alloc: Global, typed: Typed) -> Result<Checked, SourceFault>
    ensures program { IfOk result (λ c. c ≡ typed) }
    // Accepted is what has no breach.
    ensures accepted { IfOk result (λ c. (f : Fault) → ProgramBreach (program_of typed) f → ⊥) }
    // A refusal is a breach, and none is answered before it.
    ensures refused { IfErr result (λ e. (f : Fault) → e ≡ SourceFault.Refused f → Least (Some f) (ProgramBreach (program_of typed))) }
    // Memory is asked for only where nothing is to be refused.
    ensures memory { IfErr result (λ e. e ≡ SourceFault.Memory → (f : Fault) → ProgramBreach (program_of typed) f → ⊥) }
{
    match program(typed.program()) {
        Some(fault) => Err(SourceFault::Refused(fault)),
        None => {
            let functions = &typed.program().functions;
            let calls = table(alloc, functions)?;
            let dependences = dependences(alloc, typed.program(), &calls)?;
            let exports = exports(alloc, functions)?;
            let entries = entries(alloc, functions)?;
            Ok(Checked::new(typed, dependences, exports, entries))
        }
    }
}
