//! The words that a program is called with.
use std::env;
use std::io::ErrorKind;
use std::process::ExitCode;

/// The words of the command line, of which the first is the program's name.
///
/// Where they cannot be had, standard error says why, and this is the status: 7, memory was refused; 2, one of them is no
/// text in UTF-8.
pub fn command_words(rt: &HostRuntime) -> Result<Vec<String>, ExitCode> {
    let words = match env::args(rt) {
        Ok(words) => words,
        Err(error) => return Err(without_words(rt, error.kind())),
    };
    match words.collect::<Vec<String>>(rt.alloc()) {
        Ok(words) => Ok(words),
        Err(_error) => Err(without_words(rt, ErrorKind::OutOfMemory)),
    }
}

// Says why there are no words.
fn without_words(rt: &impl Eprint, kind: ErrorKind) -> ExitCode {
    if kind == ErrorKind::OutOfMemory {
        let _ = rt.eprintln("isp: memory");
        return ExitCode::from(7);
    }
    let _ = rt.eprintln("error: invalid UTF-8 was detected in one or more arguments");
    ExitCode::from(2)
}
