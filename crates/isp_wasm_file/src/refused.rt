//! The line that says why there is no file.
ghost use Rattle.std.specs.Prelude.{◌≡◌, ◌++◌, string_bytes, IfOk, OnOk};
ghost use Rattle.isp_wasm_file.specs.Lines as lines;
ghost use Rattle.isp_wasm_file.specs.Lines.{name_at, place_text, reason_text};

use isp_code::Code;
use isp_wasm_module::Refusal;
use std::alloc::{AllocError, Global};

/// `isp: no module: NAME: WHY. Fix: WHAT.`, with a line feed: why the code has no file, of which function, and what to write
/// instead.
pub fn refusal_line(alloc: Global, refusal: Refusal, code: &Code) -> Result<String, AllocError>
    ensures { IfOk result (λ s. string_bytes s ≡ lines.refusal_line code.now refusal) }
{
    let mut line = String::from_str(alloc, "isp: no module: ")?;
    push_place(&mut line, refusal, code)?;
    line.push_str(reason(refusal))?;
    line.push_str("\n")?;
    Ok(line)
}

// Appends the name of the function that the refusal is of, if it is of one, with a colon.
fn push_place(line: &mut String, refusal: Refusal, code: &Code) -> Result<(), AllocError>
    ensures { OnOk result (string_bytes line.new ≡ string_bytes line.old ++ place_text code.now refusal) }
{
    match refusal {
        Refusal::NotCovered(number)
        | Refusal::TooManyParameters(number)
        | Refusal::TooManyLocals(number) => {
            line.push_str(name_of(code, number))?;
            line.push_str(": ")
        }
        Refusal::Memory | Refusal::NoLocal | Refusal::TooLong => Ok(()),
    }
}

// The name of a function.
fn name_of(code: &Code, number: usize) -> &str
    ensures { result.now ≡ name_at code.now number }
{
    match code.functions().get(number) {
        Some(function) => function.name.as_str(),
        None => "",
    }
}

fn reason(refusal: Refusal) -> &'static str
    ensures { result.now ≡ reason_text refusal }
{
    match refusal {
        Refusal::Memory => "memory was refused.",
        Refusal::NoLocal => {
            "a register has no local. Fix: none, for this is a fault of isp: report it."
        }
        Refusal::TooLong => {
            "a part of it would have 4 GB. Fix: put the functions into several files."
        }
        Refusal::NotCovered(_) => {
            "4 GB of local arrays, in it or, where it calls one, in any function; or of texts. Fix: smaller arrays, or fewer."
        }
        Refusal::TooManyParameters(_) => {
            "more than 1,000 parameters, of which an array is two. Fix: put values into an array."
        }
        Refusal::TooManyLocals(_) => {
            "more than 50,000 locals. Fix: take a smaller gang, or make a function of a part."
        }
    }
}
