//! One instance in the gang's meaning, and alone. No code is run here: the function carries a law in its contract.
ghost use Rattle.isp_meaning_laws.specs.Lone.{LoneIsAlone};

/// Over the set of one instance the gang's meaning is that of the instance alone: value, way, state, trap and cut.
pub fn lone_is_alone()
    ensures { LoneIsAlone }
{}
