//! What is known of variables on the way through a body. No code is run here: each function carries a law in its contract.
ghost use Rattle.isp_steady.specs.Declared.{BehindIsKnown, ItemIsKnown};
ghost use Rattle.isp_steady.specs.Indices.{IndicesAreKnown};
ghost use Rattle.isp_steady.specs.Kept.{StaysKnown};

/// Where the body of a `foreach` begins, in each of its runs, the last index is linear and the outer ones are steady, with
/// what instance 0 has for scalars.
pub fn indices_are_known()
    ensures { IndicesAreKnown }
{}

/// After a declared item the variable is steady or linear as its value is, where the code after sets it no more: its scalar is
/// what the scalar expression gives. Of a variable that is set again, and of one without a value, nothing is known.
pub fn item_is_known()
    ensures { ItemIsKnown }
{}

/// After each statement of a list what was known is so, and what its declarations tell; and the rest of the list sets nothing
/// that is known there.
pub fn behind_is_known()
    ensures { BehindIsKnown }
{}

/// What is known of variables stays so under statements that set none of them, over whatever set they run, and holds of each
/// part of the members.
pub fn stays_known()
    ensures { StaysKnown }
{}
