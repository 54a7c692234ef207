//! The command words, and what they ask for.
#![tactic(auto)]

mod words;

pub use words::{
    AsmRequest, CheckRequest, ExecRequest, Request, RunRequest, SoloRequest, VERSION, read_words,
};
