//! What holds of every run. No code is run here: each function carries a law in its contract.
ghost use Rattle.isp_type_laws.specs.Fits.{ElementsFit, ResultFits};
ghost use Rattle.isp_type_laws.specs.Uniform.{BodiesAccepted, UniformGivesOne};

/// Where the elements of the arrays that a run begins with fit their types, those of the arrays that it reaches do,
/// after any number of turns, and whether it has ended, trapped or goes on.
pub fn elements_fit()
    ensures { ElementsFit }
{}

/// Where the elements of the arrays that a run begins with fit their types, what it gives back fits the type that its
/// function gives.
pub fn result_fits()
    ensures { ResultFits }
{}

/// Of a program that names, types and rates accept, each expression in the body of a function is accepted too.
pub fn bodies_accepted()
    ensures { BodiesAccepted }
{}

/// A uniform expression that names, types and rates accept gives one value for all instances, over any set with a member
/// and in any state, whatever functions it calls.
pub fn uniform_gives_one()
    ensures { UniformGivesOne }
{}
