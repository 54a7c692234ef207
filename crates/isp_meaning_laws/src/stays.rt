//! What stays of shared arrays and of the output. No code is run here: the function carries a law in its contract.
ghost use Rattle.isp_meaning_laws.specs.Stays.{ArraysStay};

/// A shared array in which code does not store, and which it hands to no call, stays as it is, whatever it calls and however it
/// ends. Where instances store in elements of their own alone, an element that no member of the set owns stays: where all stores
/// are at `[programIndex]`, that of each instance that is off. Where nothing prints, the output stays.
pub fn arrays_stay()
    ensures { ArraysStay }
{}
