//! Tokens and trees: what texts give, against answers that were found without the crates.
mod grammar;
mod lexer;
mod line;
mod outcomes;
mod refused;
mod shapes;
mod trees;
