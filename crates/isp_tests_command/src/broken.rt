//! The code text of a kernel, broken in each place: it is refused, or it gives code that runs to an answer.
//!
//! Where code text may end, and at which line it is refused, is by hand from docs/MACHINE.md.
use isp_asm::{Fault, Rule};
use isp_base::Gang;
use isp_engine::{CodeFault, RunFault, compile, execute, load_code};
use std::alloc::Global;
use std::process::Abort;

const INC: &str =
    "export void inc(uniform int a[], uniform int n) { foreach (i = 0 ... n) a[i] = a[i] + 1; }";

const ARGUMENTS: &str = "{\"a\":[1,2,3,4,5],\"n\":5}";

fn code_text(rt: &impl Abort, alloc: Global) -> String {
    let image = compile(alloc, INC, Gang::W4).ok().expect(rt, "no code");
    image.text(alloc).expect(rt, "memory")
}

// Whether code text may end so: after the line feed of its first line, of a place, a text or the end of a function.
fn may_end(front: &str) -> bool {
    let Some(lines) = front.strip_suffix('\n') else {
        return false;
    };
    let last = lines.rsplit_once('\n').unwrap_or(("", lines)).1;
    let word = last.split_once(' ').unwrap_or((last, "")).0;
    matches!(word, "isp" | "place" | "text" | "end")
}

// Whether the beginning of a text is what it should be: code without the function, or 60 at the line that is broken off or not there.
fn is_cut(alloc: Global, front: &str) -> bool {
    match load_code(alloc, front) {
        Ok(image) => {
            let run = execute(alloc, &image, "inc", ARGUMENTS, 1_000);
            may_end(front) && run.err() == Some(RunFault::NoEntry)
        }
        Err(fault) => {
            let wanted = Fault {
                rule: Rule::BadLine,
                line: front.split('\n').count(),
            };
            !may_end(front) && fault == CodeFault::Text(wanted)
        }
    }
}

#[test]
fn cut_behind_each_byte(rt: HostRuntime) {
    let alloc = rt.alloc();
    let text = code_text(&rt, alloc);
    for length in 0..text.len() {
        let front = text.as_str().get(..length).unwrap_or("");
        assert!(rt; is_cut(alloc, front), "{length}");
    }
}

// A text with another byte at a place.
fn replaced(rt: &impl Abort, alloc: Global, text: &str, place: usize, byte: u8) -> String {
    let mut bytes = Vec::from_slice(alloc, text.as_bytes()).expect(rt, "memory");
    if let Some(old) = bytes.get_mut(place) {
        *old = byte;
    }
    String::from_utf8(bytes).ok().expect(rt, "a text")
}

// Loads a text, and runs it if it is code. Memory is not refused.
fn is_answered(alloc: Global, text: &str) -> bool {
    match load_code(alloc, text) {
        Ok(image) => {
            let run = execute(alloc, &image, "inc", ARGUMENTS, 1_000);
            run.err() != Some(RunFault::Memory)
        }
        Err(fault) => fault != CodeFault::Memory,
    }
}

#[test]
fn each_byte_replaced(rt: HostRuntime) {
    let alloc = rt.alloc();
    let text = code_text(&rt, alloc);
    for place in 0..text.len() {
        for byte in 0..128u8 {
            let other = replaced(&rt, alloc, text.as_str(), place, byte);
            assert!(rt; is_answered(alloc, other.as_str()), "{place}: {byte}");
        }
    }
}
