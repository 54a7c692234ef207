//! What the contracts of an emitter come to. No code is run here: each function carries a law in its contract.
ghost use Rattle.isp_base.specs.declared.types.Span.{Span};
ghost use Rattle.isp_code.specs.declared.instr.Instr.{Instr};
ghost use Rattle.isp_emitter_laws.specs.Called.{FinishedIsWritten};
ghost use Rattle.isp_emitter_laws.specs.Finished.{FinishedHas};
ghost use Rattle.isp_emitter_laws.specs.Fitting.{WrittenFits};
ghost use Rattle.isp_emitter_laws.specs.Parts.{PartsStay, PatchedStays};
ghost use Rattle.isp_emitter_laws.specs.Staying.{CodeStays, RegistersGrow, ReservedStays};
ghost use Rattle.isp_emitter_laws.specs.Written.{WrittenGoesOn, WrittenRuns};

use isp_lower_code::{
    assignments_go_on, assignments_run, expressions_go_on, expressions_run, layouts_are_apart,
};

/// A tree that names, types and rates accept is as the laws of expressions and assignments ask, in a call whose routine has
/// the registers that an emitter reserved for it.
pub fn written_fits()
    ensures { WrittenFits }
{}

/// What was reserved stays reserved while registers and masks are added.
pub fn reserved_stays()
    ensures { ReservedStays }
{}

/// Registers are added where none changes, where a fresh one is, and by two steps that add some.
pub fn registers_grow()
    ensures { RegistersGrow }
{}

/// The code of an expression or an assignment, and the register of a value, is the same by the registers that there were
/// when it was written and by those that there are later, if the same variables are copied where they are read.
pub fn code_stays()
    ensures { CodeStays }
{}

/// Instructions and places stay where they are while others are added and jumps outside them are patched.
pub fn parts_stay()
    ensures instructions { PartsStay Instr }
    ensures places { PartsStay Span }
    ensures patched { PatchedStays }
{}

/// In finished code the routine of a function has the registers and the instructions that the emitter had when it was
/// closed.
pub fn finished_has()
    ensures { FinishedHas }
{}

/// What `expr` or `store` added is in the code that `finish` gave as the laws ask, where the function was at work last.
pub fn finished_is_written()
    ensures { FinishedIsWritten }
{
    finished_has();
}

/// The instructions that `expr` added give the value of the expression in the register that it named, trap as it traps, and
/// go on where it is cut; those that `store` added leave the state after the assignment. Both within 32 for each unit of
/// work.
pub fn written_runs()
    ensures { WrittenRuns }
{
    layouts_are_apart();
    expressions_run();
    assignments_run();
}

/// Where the meaning is cut for each number of turns that a loop may make, they go on without end, with the output of the
/// cuts.
pub fn written_goes_on()
    ensures { WrittenGoesOn }
{
    layouts_are_apart();
    expressions_go_on();
    assignments_go_on();
}
