//! The forms in which a translation of code writes an instruction: whether it keeps the lanes that are off. No code is run
//! here: a function carries a law in its contract.
#![tactic(auto)]

mod form;
mod table;

ghost use Rattle.isp_forms.specs.Laws.{RunsByForms};

pub use form::Form;
pub use table::FormTable;

/// A run of the machine is one by any forms; where all forms are kept there is no other.
pub fn runs_by_forms()
    ensures { RunsByForms }
{}
