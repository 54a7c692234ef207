//! What stores of several leave. No code is run here: each function carries a law in its contract.
ghost use Rattle.isp_meaning_laws.specs.Scatters.{TheHighestWins};

/// `b[i] = x;` leaves in each element of a shared array the value of the highest member that stores there, and else what was there. It
/// changes no other array.
pub fn the_highest_wins()
    ensures { TheHighestWins }
{}
