//! A run of an entry, as command words ask for it.
use isp_base::Gang;

/// What the code comes from that is run: a source that is compiled for a gang, or the text of code.
#[derive(Clone, Copy)]
pub enum Origin {
    Compiled(Gang),
    Loaded,
}

/// An entry that is run, for so many instructions at most. The text and the arguments are names of files.
#[derive(Clone, Copy)]
pub struct Job<'a> {
    pub origin: Origin,
    pub text: &'a str,
    pub entry: &'a str,
    pub arguments: &'a str,
    pub budget: u64,
}
