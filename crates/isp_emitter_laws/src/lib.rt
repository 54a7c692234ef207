//! Laws for who writes code through an emitter: an expression or an assignment that was written does what the tree means. No code
//! is run here.
#![tactic(auto)]

mod laws;

pub use laws::{
    code_stays, finished_has, finished_is_written, parts_stay, registers_grow, reserved_stays,
    written_fits, written_goes_on, written_runs,
};
