//! The instances of an entry one by one: what each does alone, where two clash, and what all leave.
#![tactic(auto)]

mod ending;
mod instances;
mod left;
mod report;
mod together;
mod touched;

pub use instances::one_by_one;
pub use isp_entry::EvalFault;
pub use report::SoloReport;
