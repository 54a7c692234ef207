//! What samples show. No code is run here: the function carries a law in its contract.
ghost use Rattle.isp_steady.specs.Samples.{SamplesTell};

/// Where the lines are drawn: which expressions are steady or linear, indices that wrap, conversions that count on and those that need
/// not, and what programs leave in which a variable is assigned once more, is read in an `unmasked`, or a call gives each instance another
/// value.
pub fn samples_tell()
    ensures { SamplesTell }
{}
