//! What is taken once. No code is run here: each function carries a law in its contract.
ghost use Rattle.isp_meaning_laws.specs.Taken.{TakenOnce};

/// What is taken once is taken once: the value of a `foreach_unique`, the bounds of a `foreach`, and the index of an element that is
/// assigned, by `=`, `op=`, `++` or `--`. With another expression that gives the same there, the statement does the same.
pub fn taken_once()
    ensures { TakenOnce }
{}
