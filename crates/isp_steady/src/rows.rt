//! Elements at a linear index. No code is run here: the function carries a law in its contract.
ghost use Rattle.isp_steady.specs.Rows.{StandInARow};

/// Where no instance of the gang passes the greatest value of an index's type, which one test of a scalar says, the
/// elements of a shared array at a linear index are those of a row, from the scalar's number on: for a value and for an
/// assignment, with the same trap. A conversion of such an index goes on counting, also one to more bits.
pub fn stand_in_a_row()
    ensures { StandInARow }
{}
