//! The rules on small programs. No code is run here: the function carries a law in its contract.
ghost use Rattle.isp_independence.specs.Samples.{RulesOfSamples};

/// Programs that break each of the seven rules at one place, and their like that break none; and which of two breaches is
/// the first (docs/INDEPENDENCE.md).
pub fn rules_of_samples()
    ensures { RulesOfSamples }
{}
