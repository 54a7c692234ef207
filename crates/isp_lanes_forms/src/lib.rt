//! The forms of instructions that tables of isp_lanes_read tell, and the law that no run can tell them.
#![tactic(auto)]

mod found;
mod told;

ghost use Rattle.isp_lanes_forms.specs.Allowed.{FormsAreHarmless};

pub use found::forms_for;
pub use told::forms_of;

/// Forms that tables allow are harmless wherever a run begins: whatever lanes become that nobody reads, and whatever is left
/// out that nobody reads, a run looks like the machine's.
pub fn forms_are_harmless()
    ensures { FormsAreHarmless }
{}
