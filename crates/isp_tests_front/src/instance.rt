//! Programs run by one instance alone, against what comes out by the rules of the language.
mod refused;
mod rows;
mod runs;
mod touched;
mod worked;
