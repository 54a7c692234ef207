//! Code of the machine as WebAssembly, and that it does the same. No code is run here: a function carries a law in its
//! contract.
#![tactic(auto)]

ghost use Rattle.isp_wasm.specs.Agreement.{CallsComeBack, FunctionsAgree};
ghost use Rattle.isp_wasm.specs.Entry.{EntriesAgree};
ghost use Rattle.isp_wasm.specs.Kernel.{KernelsAgree, ModulesValid};
ghost use Rattle.isp_wasm.specs.Lines.{FineIsThin};
ghost use Rattle.isp_wasm.specs.Numbering.{LocalsAreNumbered};
ghost use Rattle.isp_wasm.specs.Room.{RoomIsEnough};

/// A function in WebAssembly that stands before a rung as the machine stands before an instruction ends, traps and
/// writes as the machine does from there, where the code is covered.
pub fn functions_agree()
    ensures { FunctionsAgree }
{}

/// A function that another one called does so too, and the one that waits goes on where it returns.
pub fn calls_come_back()
    ensures { CallsComeBack }
{}

/// A function of a module that a host calls, with its arrays in memory and its arguments: its results are the outcomes of
/// the machine's run, and the machine's outcomes its results.
pub fn entries_agree()
    ensures { EntriesAgree }
{}

/// An instruction whose operands are as the table of the machine asks, as they are in accepted code, is covered where its
/// form has a template, each array lies in memory as it is declared, and jumps are to rungs.
pub fn fine_is_thin()
    ensures { FineIsThin }
{}

/// The module of accepted code: a function of it that is exported and covered, called by a host that lays its arrays into
/// memory, has the outcomes of the machine's run, and no others. Each local, rung and text has its number from the code.
pub fn kernels_agree()
    ensures { KernelsAgree }
{}

/// Each function of the module of accepted code is valid: its operators and locals get values of their types, its branches
/// go to labels that there are.
pub fn modules_valid()
    ensures { ModulesValid }
{}

/// The numbers of locals as sums, for who writes them: where the parameters, the other scalars, the parts of vectors and of
/// masks begin.
pub fn locals_are_numbered()
    ensures { LocalsAreNumbered }
{}

/// How many bytes are enough for all arrays that are open at a step of a run: a function that calls none opens its own alone,
/// else as many calls run as may, each with those of the function that opens most.
pub fn room_is_enough()
    ensures { RoomIsEnough }
{}
