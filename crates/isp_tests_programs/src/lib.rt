//! What programs come to, by records: each program is judged, evaluated, compiled and run, and what differs is told.
#![tactic(auto)]

mod alone;
mod case;
mod found;
mod records;
mod tried;
mod ways;

pub use records::follow;
pub use tried::Tried;
