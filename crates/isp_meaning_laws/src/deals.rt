//! The law of the runs of a `foreach`. No code is run here: the function carries a law in its contract.
ghost use Rattle.isp_meaning_laws.specs.Deals.{DealtOnce};

/// The runs of a `foreach` deal each tuple of its ranges once: to the instance that its number in the last range says, which is
/// how far that is from the start, by the size of the gang. Outer numbers come first, then inner ones in order, nothing else is
/// dealt, and no run is without a member. A run is a whole gang: it has all tuples of the same outer numbers between two multiples of the
/// gang's size from the start, and no others.
pub fn dealt_once()
    ensures { DealtOnce }
{}
