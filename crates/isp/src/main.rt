//! The program `isp`: what the system gives, handed to the library.
#![tactic(auto)]

use isp_commands::command;
use isp_host::{HostFiles, HostOutput, command_words};
use std::process::ExitCode;

fn main(rt: HostRuntime) -> ExitCode {
    let words = match command_words(&rt) {
        Ok(words) => words,
        Err(status) => return status,
    };
    let files = HostFiles::new(&rt);
    let mut out = HostOutput::new(&rt);
    let stderr = rt.stderr();
    let mut err = HostOutput::new(&stderr);
    let status = command(rt.alloc(), words.as_slice(), &files, &mut out, &mut err);
    ExitCode::from(status)
}
