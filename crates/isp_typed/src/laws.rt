//! What the definition of scopes says of two programs. No code is run here: the function carries a law
//! in its contract.
ghost use Rattle.isp_typed.specs.Samples.{ScopesOfSamples};

/// A program with several kinds of declarations is scoped; one that reads a variable after the block
/// that declares it is not.
pub fn scopes_of_samples()
    ensures { ScopesOfSamples }
{}
