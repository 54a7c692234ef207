//! What steady and linear expressions come to. No code is run here: each function carries a law in its contract.
ghost use Rattle.isp_steady.specs.Singled.{ScalarsAreFine};
ghost use Rattle.isp_steady.specs.Values.{LinearCountsOn, SteadyGivesOne};

/// A steady expression gives every member of a set one value, the same over each set of some of the members, or traps for
/// the lowest with the same kind and place. The scalar expression gives that value.
pub fn steady_gives_one()
    ensures { SteadyGivesOne }
{}

/// A linear expression gives member p the value of u + p, wrapped in its type, where u is what the scalar expression gives;
/// or it traps as that.
pub fn linear_counts_on()
    ensures { LinearCountsOn }
{}

/// The scalar expression of a steady or a linear one is uniform, has its element type, and is accepted by names and types
/// among variables of which each known one is uniform.
pub fn scalars_are_fine()
    ensures { ScalarsAreFine }
{}
