//! What is not set stays. No code is run here: each function carries a law in its contract.
ghost use Rattle.isp_steady.specs.Assigns.{StaysUnset};

/// Running a statement leaves each variable as it was, in every instance, that it neither declares nor assigns, into which
/// no packed load of it reads, and that is the index of no `foreach` or its kin in it: whatever it calls, and over any set.
pub fn stays_unset()
    ensures { StaysUnset }
{}
