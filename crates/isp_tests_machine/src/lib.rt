//! Worked examples of code, lanes and runs, against answers that were found without the crates.
#![tactic(auto)]

#[cfg(test)]
mod code;
#[cfg(test)]
mod codes;
#[cfg(test)]
mod cross;
#[cfg(test)]
mod entries;
#[cfg(test)]
mod given;
#[cfg(test)]
mod lines;
#[cfg(test)]
mod refused;
#[cfg(test)]
mod rest;
#[cfg(test)]
mod runs;
#[cfg(test)]
mod traces;
#[cfg(test)]
mod views;
