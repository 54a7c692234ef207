//! Writers of the code of expressions, declarations and assignments, and the emitter that owns what is written.
#![tactic(auto)]

mod apart;
mod assigned;
mod body;
mod changed;
mod closing;
mod elements;
mod emitter;
mod expressed;
mod expression;
mod header;
mod laws;
mod leaves;
mod library;
mod line;
mod listing;
mod located;
mod named;
mod packed;
mod scope;
mod sites;
mod statements;
mod truths;
mod types;
mod written;

pub use expression::{expr, index, operand};
pub use header::Heading;
pub use laws::next_is_behind;
pub use leaves::{constant, copy, mask, scalar, splat, the_others, vector, where_so};
pub use line::Line;
pub use sites::Site;
pub use statements::{declared, simple};
pub use truths::known;
pub use types::{Body, Emitter, Scope};
