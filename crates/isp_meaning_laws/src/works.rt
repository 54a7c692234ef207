//! The work of what has parts. No code is run here: each function carries a law in its contract.
ghost use Rattle.isp_meaning_laws.specs.Works.{WorkOfIf, WorkOfCall, WorkOfLoops, WorkOfForeach};

/// The work of an `if` is one, that of its test and that of the branches that run: of one by a uniform test, of both by a varying one.
/// A branch that nobody takes has none.
pub fn work_of_if()
    ensures { WorkOfIf }
{}

/// The work of a call is one, that of the arguments and that of the function's body.
pub fn work_of_call()
    ensures { WorkOfCall }
{}

/// The work of a loop whose parts have the same work each time, and from which nobody goes by a `break` or `return`, is one, its first
/// part, and for each turn one, the body, the step and a test; a `while` and a `for` take one test more.
pub fn work_of_loops()
    ensures { WorkOfLoops }
{}

/// A `foreach` of one range counts its runs, one of two ranges the numbers of the outer one and the runs. To that come one, the bounds
/// and, where the body has the same work each time, that for each run.
pub fn work_of_foreach()
    ensures { WorkOfForeach }
{}
