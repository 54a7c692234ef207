//! What holds of an emitter's calls. No code is run here: each function carries a law in its contract.
ghost use Rattle.isp_lower.specs.Behind.{NextIsBehind};

/// Where the function at work has all registers that its code names, `fresh` gives the one after those that are there, and
/// `fresh_mask` the next mask.
pub fn next_is_behind()
    ensures { NextIsBehind }
{}
