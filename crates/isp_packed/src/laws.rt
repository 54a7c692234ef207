//! What the two forms are to each other.
ghost use Rattle.std.specs.Prelude.{◌≡◌, ◌+◌, ◌<◌, ◌≤◌, length, ℕ, List, Ok, Option, slice_index};
ghost use Rattle.isp_base.specs.Arguments.{rows, rows_now};
ghost use Rattle.isp_base.specs.Maps.{Lanes};
ghost use Rattle.isp_packed.specs.Packing.{ArePackable, packed_answer, packed_of};
ghost use Rattle.isp_packed.specs.Unpacking.{unpacked_of};

use isp_base::{Argument, Parameter, Value};

/// What holds of all arguments and all bytes: arguments that were packed are unpacked as they were, the
/// bytes that are unpacked as some arguments are those that these are packed as, and an answer has room
/// where its arguments stood.
pub fn packed_laws()
    ensures back { (ps : List Parameter) (xs : List Argument)
        → ArePackable ps xs → unpacked_of ps (packed_of xs) ≡ Ok xs }
    ensures only { (ps : List Parameter) (bytes : List ℕ) (xs : List Argument)
        → ((k : ℕ) → slice_index bytes k < 256) → unpacked_of ps bytes ≡ Ok xs → packed_of xs ≡ bytes }
    // The arrays of an answer have the types and lengths of those of the arguments; a result takes 8 bytes more.
    ensures in_place { (xs : List Argument) (f : ℕ → Lanes) (returned : Option Value)
        → length (packed_answer (rows_now (rows xs) f) returned) ≤ length (packed_of xs) + 8 }
{}
