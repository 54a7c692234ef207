//! `ispx test`: the cases of a source are run at each gang.
#![tactic(auto)]

mod command;
mod page;
mod stop;
mod told;
mod tried;
mod verdict;

pub use command::test;
pub use stop::TestStop;
