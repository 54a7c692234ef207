//! What crosses the gang. No code is run here: each function carries a law in its contract.
ghost use Rattle.isp_meaning_laws.specs.Crossings.{AreMoved, AreCombined};

/// From which instance a value comes: by `rotate` and `shift` at 1 from the next, by `broadcast` and `extract` from the one that is
/// named, while `insert` changes that one's. Rotations add up; the last gets the first one's value, by `shift` 0.
pub fn are_moved()
    ensures { AreMoved }
{}

/// What several values come to: a scan gives the next one what this one got, with this one's value; the sum of one value is its number
/// in the wider type, and a sum is that of two parts; `reduce_equal` is true exactly where no two values differ.
pub fn are_combined()
    ensures { AreCombined }
{}
