//! Local arrays. No code is run here: each function carries a law in its contract.
ghost use Rattle.isp_meaning_laws.specs.LocalArrays.{AreLocal};

/// A local array of n elements has n: index n traps, in the lowest of the set, and a lower one does not. Where it is declared its
/// elements are zero, each time: all of a shared one, of the others those of each member; all else stays.
pub fn are_local()
    ensures { AreLocal }
{}
