//! The lowest layers: operators, arguments and answers, in JSON and as bytes, against answers that were found without them.
mod arguments;
mod operators;
mod packed;
mod refused;
