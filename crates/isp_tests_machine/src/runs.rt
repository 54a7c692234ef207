//! Runs of code, step by step, and what is seen of each.
//!
//! A record is the lines from `=== ` and its name on: what its functions do, each line after a dot; the functions as code text, without the first line,
//! the places and the texts; a line `--`; and a line for each run of `f`. A run has, with a bar between two of them, the gangs that make it; the arguments,
//! by type and bits; how it is looked at; what is seen; and what stands in the places `…` of the functions. How it is looked at:
//!
//! - `steps`: with each of these budgets one after the other, how it stopped, the bits of the result, the output and the arrays;
//! - `writes`: the same of how it stopped and the output alone;
//! - `registers`: the same of where it stands and some registers;
//! - `parts`: after 0, 1, 2 .. instructions, and when it goes on from there to the last of them;
//! - `turns`: after how it ends, the instruction that comes next and the scalars 0, 3 and 4, after 0, 1, 2 .. instructions, and from each of these on.
mod calls;
mod consecutive;
mod crossed;
mod divisions;
mod jumps;
mod locals;
mod orders;
mod sights;
mod sprints;
mod texts;
mod turns;

use crate::codes::{filled, gang_of, verified};
use crate::given::bound;
use crate::views::View;
use isp_base::Gang;
use isp_machine::Machine;
use isp_tests_support::{number, parted};
use isp_verify::Verified;
use std::alloc::Global;
use std::process::Abort;

/// What is seen after so many further instructions.
#[derive(Clone, Copy)]
pub(crate) struct Step<'a> {
    pub budget: u64,
    pub view: View,
    pub wanted: &'a str,
}

// A run, as its line says it.
#[derive(Clone, Copy)]
struct Run<'a> {
    gangs: &'a str,
    given: &'a str,
    kind: &'a str,
    seen: &'a str,
    fills: &'a str,
}

fn run_of(line: &str) -> Run<'_> {
    let (gangs, rest) = parted(line, '|');
    let (given, rest) = parted(rest, '|');
    let (kind, rest) = parted(rest, '|');
    let (seen, fills) = parted(rest, '|');
    Run {
        gangs,
        given,
        kind,
        seen,
        fills,
    }
}

// Makes the steps on a machine that has begun.
fn follow<const N: usize>(
    rt: &impl Abort,
    alloc: Global,
    begun: Option<Machine<'_, N>>,
    steps: &[Step<'_>],
) {
    let mut machine = begun.expect(rt, "the run does not begin");
    for step in steps {
        let stop = machine.run(step.budget);
        let seen = step.view.seen(alloc, &machine, stop).expect(rt, "memory");
        assert!(rt; seen.as_str() == step.wanted, "{seen}, not {}", step.wanted);
    }
}

/// Makes a run of `f`, and looks at it step by step.
pub(crate) fn go(rt: &impl Abort, alloc: Global, code: &Verified, given: &str, steps: &[Step<'_>]) {
    let bound = bound(alloc, given).expect(rt, "no arguments");
    match code.gang() {
        Gang::W4 => follow(
            rt,
            alloc,
            Machine::<'_, 4>::start(alloc, code, "f", bound).ok(),
            steps,
        ),
        Gang::W8 => follow(
            rt,
            alloc,
            Machine::<'_, 8>::start(alloc, code, "f", bound).ok(),
            steps,
        ),
        Gang::W16 => follow(
            rt,
            alloc,
            Machine::<'_, 16>::start(alloc, code, "f", bound).ok(),
            steps,
        ),
        Gang::W32 => follow(
            rt,
            alloc,
            Machine::<'_, 32>::start(alloc, code, "f", bound).ok(),
            steps,
        ),
    }
}

// The first word of a step is its budget.
fn step_of<'a>(rt: &impl Abort, text: &'a str, view: View) -> Step<'a> {
    let (budget, wanted) = parted(text, ' ');
    Step {
        budget: number(budget).expect(rt, "no budget"),
        view,
        wanted,
    }
}

fn in_steps(rt: &impl Abort, alloc: Global, code: &Verified, run: Run<'_>, view: View) {
    let mut steps = Vec::new(alloc);
    for text in run.seen.split(" ; ") {
        steps.push(step_of(rt, text, view)).expect(rt, "memory");
    }
    go(rt, alloc, code, run.given, steps.as_slice());
}

fn looks<'a>(rt: &impl Abort, alloc: Global, seen: &'a str) -> Vec<&'a str> {
    seen.split(" ; ").collect(alloc).expect(rt, "memory")
}

fn whole(budget: u64, wanted: &str) -> Step<'_> {
    Step {
        budget,
        view: View::Whole,
        wanted,
    }
}

fn in_parts(rt: &impl Abort, alloc: Global, code: &Verified, run: Run<'_>) {
    let texts = looks(rt, alloc, run.seen);
    let last = texts.last().copied().unwrap_or("");
    let mut left = texts.len() as u64;
    for (done, text) in texts.iter().enumerate() {
        left = left.saturating_sub(1);
        let steps = [whole(done as u64, *text), whole(left, last), whole(0, last)];
        go(rt, alloc, code, run.given, &steps);
    }
}

fn counters(budget: u64, wanted: &str) -> Step<'_> {
    Step {
        budget,
        view: View::Counters,
        wanted,
    }
}

// What is seen after so many instructions, from each before it on, and then how it ends.
fn from_each(
    rt: &impl Abort,
    alloc: Global,
    code: &Verified,
    given: &str,
    texts: &[&str],
    end: &str,
) {
    let last = texts.last().copied().unwrap_or("");
    let mut left = texts.len() as u64;
    for (before, earlier) in texts.iter().enumerate() {
        left = left.saturating_sub(1);
        let steps = [
            counters(before as u64, *earlier),
            counters(left, last),
            whole(100, end),
        ];
        go(rt, alloc, code, given, &steps);
    }
}

fn in_turns(rt: &impl Abort, alloc: Global, code: &Verified, run: Run<'_>) {
    let (end, seen) = run.seen.split_once(" ; ").unwrap_or((run.seen, ""));
    let texts = looks(rt, alloc, seen);
    for done in 0..texts.len() {
        let upto = texts.get(..done + 1).unwrap_or(&[]);
        from_each(rt, alloc, code, run.given, upto, end);
    }
}

// Makes a run by one of its gangs.
fn try_run(rt: &impl Abort, alloc: Global, code: &Verified, run: Run<'_>) {
    match run.kind {
        "parts" => in_parts(rt, alloc, code, run),
        "turns" => in_turns(rt, alloc, code, run),
        "writes" => in_steps(rt, alloc, code, run, View::Written),
        "registers" => in_steps(rt, alloc, code, run, View::Registers),
        _ => in_steps(rt, alloc, code, run, View::Whole),
    }
}

// Makes the run of a line by each of its gangs.
fn try_line(rt: &impl Abort, alloc: Global, functions: &str, line: &str) {
    let run = run_of(line);
    let functions = filled(rt, alloc, functions, run.fills);
    for width in run.gangs.split(' ') {
        let code = verified(rt, alloc, gang_of(rt, width), functions.as_str());
        try_run(rt, alloc, &code, run);
    }
}

// Makes the runs of a record, and counts them.
fn try_record(rt: &impl Abort, alloc: Global, record: &str) -> usize {
    let (functions, lines) = record.split_once("\n--\n").unwrap_or((record, ""));
    let (_told, functions) = functions.split_once("\nfunc ").unwrap_or(("", ""));
    let functions = format!(in alloc; "func {functions}").expect(rt, "memory");
    let mut count = 0usize;
    for line in lines.lines() {
        if !line.starts_with('.') {
            try_line(rt, alloc, functions.as_str(), line);
            count = count.saturating_add(1);
        }
    }
    count
}

// The tables, each with the number of its runs.
const TABLES: [(&str, usize); 11] = [
    calls::RUNS,
    consecutive::RUNS,
    crossed::RUNS,
    divisions::RUNS,
    jumps::RUNS,
    locals::RUNS,
    orders::RUNS,
    sights::RUNS,
    sprints::RUNS,
    texts::RUNS,
    turns::RUNS,
];

// Makes the runs of a table, of which there are so many.
fn try_all(rt: &impl Abort, alloc: Global, records: &str, wanted: usize) {
    let mut count = 0usize;
    for record in records.split("=== ").skip(1) {
        count = count.saturating_add(try_record(rt, alloc, record));
    }
    assert_eq!(rt; count, wanted);
}

#[test]
fn runs_of_the_tables(rt: HostRuntime) {
    for (records, count) in TABLES {
        try_all(&rt, rt.alloc(), records, count);
    }
}
