//! The calls across lanes and the operators on lanes, against plain code and against answers that were found without the crates.
mod calls;
mod kernels;
mod plain;
mod samples;
mod worked;
