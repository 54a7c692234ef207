//! Operators, arguments, words, trees and breaches; and programs by the evaluators: by the gang, by its instances one by one, and by one instance alone.
#![tactic(auto)]

#[cfg(test)]
mod base;
#[cfg(test)]
mod breaches;
#[cfg(test)]
mod gang;
#[cfg(test)]
mod instance;
#[cfg(test)]
mod programs;
#[cfg(test)]
mod solo;
#[cfg(test)]
mod syntax;
