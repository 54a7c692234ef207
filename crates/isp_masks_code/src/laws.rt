//! What holds of all code. No code is run here: each function carries a law in its contract.
ghost use Rattle.isp_masks_code.specs.Agreed.{LoweredAgrees};
ghost use Rattle.isp_masks_code.specs.Laws.{StatementRuns};
ghost use Rattle.isp_masks_code.specs.LoopRuns.{AllLoopsRun};

/// The code of a statement does it for the instances of a mask that has members: afterwards the mask
/// has those that went on, and two others have grown by those that continued and that returned. It
/// traps as the statement traps, and goes on where it is cut, within 32 instructions for each unit of
/// work. No other mask and no register that code before it uses has changed.
pub fn statements_run()
    ensures { StatementRuns }
{}

/// The code of a `while`, a `for` and a `do` does what the loop means, where the codes of its test, its
/// body and its step do what these mean.
pub fn loops_run()
    ensures { AllLoopsRun }
{}

/// The code of a program that names, types and rates accept agrees with it, and the verifier accepts it.
pub fn lowered_agrees()
    ensures { LoweredAgrees }
{}
