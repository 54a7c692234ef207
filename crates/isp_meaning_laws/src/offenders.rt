//! Which member a trap names. No code is run here: each function carries a law in its contract.
ghost use Rattle.isp_meaning_laws.specs.Offenders.{TheLowestIsNamed};

/// A trap names the lowest member of the set that offends, by a divisor of zero, an index outside, a false test or one call too many, and
/// has that kind and place; and there is one exactly where a member offends. In `op=` the indices come before the divisors.
pub fn the_lowest_is_named()
    ensures { TheLowestIsNamed }
{}
