//! The whole way, from words and files to statuses and lines, against answers that were found without it.
#![tactic(auto)]

#[cfg(test)]
mod bounds;
#[cfg(test)]
mod broken;
#[cfg(test)]
mod commands;
#[cfg(test)]
mod fakes;
#[cfg(test)]
mod fronts;
#[cfg(test)]
mod meant;
#[cfg(test)]
mod reading;
#[cfg(test)]
mod refused;
#[cfg(test)]
mod sources;
#[cfg(test)]
mod writes;
