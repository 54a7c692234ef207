//! What is known of the places of a typed program.
#![tactic(auto)]

mod expr;
mod function;
mod note;
mod place;
mod placed;
mod shown;
mod simple;
mod stmt;
mod word;

pub use function::notes;
pub use note::{Note, Subject};
pub use place::{Valued, declaration, mentions, subject_at, value_at};
pub use placed::with_places;
pub use shown::{Shown, shown_at, type_text};
pub use word::word_around;
