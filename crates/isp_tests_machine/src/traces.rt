//! Counts and lines of runs, against numbers and lines that were found without the crates.
mod counts;
mod kernels;
mod lines;
mod refused;
mod runs;
