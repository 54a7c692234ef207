//! Code and its text: what is refused and what is accepted, against answers that were found without the crates.
mod broken;
mod codes;
mod limits;
mod refused;
mod scatter;
mod texts;
