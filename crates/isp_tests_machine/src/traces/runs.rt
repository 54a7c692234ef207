//! What is counted and traced of a run of code text.
use super::kernels::{BUMP, MANDELBROT, SHARE};
use crate::given::bound;
use isp_asm::read;
use isp_tests_support::{number, parted};
use isp_traces::{Window, count_run, counts_line, trace_run};
use isp_verify::{Verified, verify};
use std::alloc::Global;
use std::process::Abort;

/// A run, as a line says it: a kernel, how many lanes its gang has, how many instructions are run at most, and the arguments.
#[derive(Clone, Copy)]
pub(super) struct Run<'a> {
    kernel: &'a str,
    gang: &'a str,
    budget: u64,
    given: &'a str,
}

/// The run that a line says.
pub(super) fn run_of<'a>(rt: &impl Abort, line: &'a str) -> Run<'a> {
    let (kernel, rest) = parted(line, ' ');
    let (gang, rest) = parted(rest, ' ');
    let (budget, given) = parted(rest, ' ');
    Run {
        kernel,
        gang,
        budget: number(budget).expect(rt, "no budget"),
        given,
    }
}

fn kernel(name: &str) -> &'static str {
    match name {
        "share" => SHARE,
        "bump" => BUMP,
        _ => MANDELBROT,
    }
}

/// Code text that is read and accepted.
pub(super) fn verified(rt: &impl Abort, alloc: Global, text: &str) -> Verified {
    let code = read(alloc, text).expect(rt, "no code text");
    verify(alloc, code).ok().expect(rt, "the code is refused")
}

fn code(rt: &impl Abort, alloc: Global, run: Run<'_>) -> Verified {
    let text = format!(in alloc; "isp 1 gang {}\n{}", run.gang, kernel(run.kernel));
    verified(rt, alloc, text.expect(rt, "memory").as_str())
}

/// The counts of a run as a line of JSON.
pub(super) fn counts(rt: &impl Abort, alloc: Global, run: Run<'_>) -> Vec<u8> {
    let code = code(rt, alloc, run);
    let bound = bound(alloc, run.given).expect(rt, "no arguments");
    let counted = count_run(alloc, &code, run.kernel, bound, run.budget).expect(rt, "no run");
    counts_line(alloc, &code, &counted.counts).expect(rt, "memory")
}

/// The lines of the steps of a window.
pub(super) fn lines(rt: &impl Abort, alloc: Global, run: Run<'_>, window: Window) -> Vec<u8> {
    let code = code(rt, alloc, run);
    let bound = bound(alloc, run.given).expect(rt, "no arguments");
    let traced = trace_run(alloc, &code, run.kernel, bound, window, run.budget);
    traced.expect(rt, "no run").text
}
