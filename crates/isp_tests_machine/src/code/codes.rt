//! Code that the verifier takes or refuses, as code text.
mod rest;
mod table;

use isp_asm::read;
use isp_tests_support::{parted, spelt_out};
use isp_verify::verify;
use std::alloc::Global;
use std::process::Abort;

// The code around an instruction: it is the first of the first of three functions, and may call the others.
const TRIAL: &str = "isp 1 gang 4
place 0 4
text 78
func f inner void
par s i32 n
par v i32 x
par a i32 a
loc u i32 3
loc p i32 3
loc u u8 3
s i32 b i64 u8
v i32 b i64 u8
m 2
…
ret -
end
func g inner s i32
par s i32 x
par v u8 y
par a i32 z
m 1
ret s0
end
func h inner void
m 1
ret -
end
";

// What the verifier says of code text: its fault, or nothing.
fn judged(rt: &impl Abort, alloc: Global, text: &str) -> String {
    let code = read(alloc, text).expect(rt, "no code text");
    match verify(alloc, code) {
        Ok(_verified) => String::new(alloc),
        Err((_code, fault)) => format!(in alloc; "{fault}").expect(rt, "memory"),
    }
}

// A text and its fault, in the place `…` of code. Where the fault says no place it is the first instruction of the first function.
fn try_line(rt: &impl Abort, alloc: Global, frame: &str, line: &str) {
    let (text, wanted) = parted(line, '|');
    let (before, after) = parted(frame, '…');
    let framed = format!(in alloc; "{before}{text}{after}").expect(rt, "memory");
    let code = spelt_out(alloc, framed.as_str()).expect(rt, "memory");
    let fault = judged(rt, alloc, code.as_str());
    let found = fault.as_str();
    let rule = found
        .strip_suffix(" in function 0, instruction 0")
        .unwrap_or(found);
    assert!(rt; rule == wanted, "{text}: {found}, not {wanted}");
}

fn try_lines(rt: &impl Abort, alloc: Global, frame: &str, lines: &str, wanted: usize) {
    let mut count = 0usize;
    for line in lines.lines() {
        try_line(rt, alloc, frame, line);
        count = count.saturating_add(1);
    }
    assert_eq!(rt; count, wanted);
}

#[test]
fn instructions(rt: HostRuntime) {
    try_lines(&rt, rt.alloc(), TRIAL, table::LINES, table::COUNT);
}

#[test]
fn other_instructions(rt: HostRuntime) {
    try_lines(&rt, rt.alloc(), TRIAL, rest::INSTRUCTIONS, 43);
}

#[test]
fn functions(rt: HostRuntime) {
    try_lines(&rt, rt.alloc(), "isp 1 gang 4\n…", rest::FUNCTIONS, 16);
}
