//! That the premises of the law of solo runs can be met. No code is run here: the function carries a law in its contract.
ghost use Rattle.isp_meaning_laws.specs.Samples.{PremisesOfSamples};

/// All premises of `solo_runs_agree` are met by two programs: they are accepted, the arguments fit the entry, it is independent,
/// each instance alone ends, and they are apart. One of them has a `foreach`, a call and a loop with a varying `break`. What the gang
/// leaves is computed, and is by the law what its instances leave one by one, in any order.
pub fn premises_of_samples()
    ensures { PremisesOfSamples }
{}
