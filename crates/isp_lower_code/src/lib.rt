//! Which code expressions, declarations and assignments become, and that it does what they mean. Nothing is written here.
#![tactic(auto)]

mod constant;
mod laws;

pub use constant::Constant;
pub use laws::{
    asks_are_few, assignments_go_on, assignments_run, assignments_sound, code_is_written,
    declarations_run, declarations_sound, expressions_go_on, expressions_run, expressions_sound,
    layouts_are_apart, own_is_there, rows_by_scalars, rows_read, rows_sound, rows_written,
    scalar_places, scalars_run,
};
