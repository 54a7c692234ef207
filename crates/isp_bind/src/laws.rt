//! What the definitions of arguments and answers come to.
ghost use Rattle.std.specs.Prelude.{◌≡◌, ℕ, ℤ, List, map, Ok, Err, None};
ghost use Rattle.serde_json.specs.Read.{read};
ghost use Rattle.serde_json.specs.View.{items_of};
ghost use Rattle.isp_base.specs.Ranges.{IsValue};
ghost use Rattle.isp_base.specs.Rows.{Fit};
ghost use Rattle.isp_base.specs.Values.{wrap};
ghost use Rattle.isp_bind.specs.Answering.{shown_bits};
ghost use Rattle.isp_bind.specs.Binding.{bound_of, elements_bits, whole_bits};

use crate::fault::BindFault;
use isp_base::{Elem, Parameter};

/// What holds of all texts and all arrays: 70 speaks of the text alone, 75 of the range of a type,
/// and what an answer says of an array is bound as the same array.
pub fn bind_laws()
    // 70 is the refusal exactly where serde_json reads no value.
    ensures no_json { (ps : List Parameter) (text : List ℕ) → read text ≡ None → bound_of ps text ≡ Err BindFault.NotJson }
    ensures only_no_json { (ps : List Parameter) (text : List ℕ) → bound_of ps text ≡ Err BindFault.NotJson → read text ≡ None }
    // A whole number is taken exactly where the type has it.
    ensures in_range { (t : Elem) (z : ℤ) → IsValue t z → whole_bits t z ≡ Ok (wrap t z) }
    ensures out_of_range { (t : Elem) (z : ℤ) → (IsValue t z → ⊥) → whole_bits t z ≡ Err BindFault.OutOfRange }
    // An array that was shown is bound as it was.
    ensures shown_again { (t : Elem) (bits : List ℕ) → Fit t bits → elements_bits t (items_of (map (shown_bits t) bits)) ≡ Ok bits }
{}
