//! Where all instances take part. No code is run here: each function carries a law in its contract.
ghost use Rattle.isp_meaning_laws.specs.Everybody.{WhoeverComes};

/// A `foreach` with the same bounds, and an `unmasked`, do the same whoever comes to them: the same state, trap or cut, and all that
/// came go on. An `unmasked` is its block over all instances.
pub fn whoever_comes()
    ensures { WhoeverComes }
{}
